//! Programs to copy: a monitor in one thread, a desk that two threads report to, and the log of a closed desk.
#![tactic(auto)]

mod closed_desk;
mod one_thread;
mod two_threads;

use anyhow::Result;

fn main(rt: HostRuntime) -> Result<()> {
    one_thread::tell(&rt)?;
    println!(rt; "{:?}", two_threads::report(&rt, rt.alloc())?)?;
    closed_desk::close(&rt)
}
