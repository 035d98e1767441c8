//! A monitor in one thread, which receives the operations of two replicas of a counter. Each reply is printed.

use anyhow::{Result, bail};
use ra_labels::{Command, Kind, Op};
use ra_monitor::Reporter;

// Returns the command of an operation at a replica, with its answer.
fn did(replica: u8, op: Op) -> Command {
    Command::Operate {
        replica,
        op,
        stamp: None,
    }
}

/// Reports a history in which replica 1 reads its counter twice. One increment was delivered to it before both
/// reads, and the second answer is 5.
pub fn tell(rt: &HostRuntime) -> Result<()> {
    match Reporter::new(rt.alloc(), Kind::Counter, 2, 100) {
        Ok(mut reporter) => tell_all(rt, &mut reporter),
        Err(_) => bail!("no monitor"),
    }
}

fn tell_all(rt: &HostRuntime, reporter: &mut Reporter) -> Result<()> {
    let got = Command::Deliver {
        replica: 1,
        label: 0,
    };
    let commands = [
        did(0, Op::Inc),
        got,
        did(1, Op::Count(1)),
        Command::Verdict,
        did(1, Op::Count(5)),
    ];
    for command in commands {
        match reporter.tell(command) {
            Ok(reply) => println!(rt; "{reply:?}")?,
            Err(fault) => bail!("{fault:?}"),
        }
    }
    Ok(())
}
