//! Replies that go to a writer of a few bytes.

use super::{LIST, LIST_REPLIES, REPLIES, SETS, TEXT, WRITTEN, are_bytes, is_fault};
use ra_history_text::{CheckFault, check};
use std::alloc::Global;
use std::io;
use std::io::{ErrorKind, Write};
use std::process::Abort;

/// A writer that accepts some bytes at a time. At one write it fails or accepts none; further writes would accept the
/// rest.
#[derive(Drop)]
pub struct Trickle {
    taken: Vec<u8>,
    most: usize,
    good_writes: usize,
    fails: bool,
}

impl Trickle {
    /// Creates the writer, which accepts at most `most` bytes at each of `good_writes` writes.
    pub fn new(alloc: Global, most: usize, good_writes: usize, fails: bool) -> Trickle {
        Trickle {
            taken: Vec::new(alloc),
            most,
            good_writes,
            fails,
        }
    }

    /// Returns the bytes that it accepted.
    pub fn taken(&self) -> &[u8] {
        self.taken.as_slice()
    }
}

impl Write for Trickle {
    fn write(&mut self, buf: &[u8]) -> io::Result<usize> {
        if self.good_writes == 0 {
            self.good_writes = usize::MAX;
            return if self.fails {
                Err(io::Error::from(ErrorKind::Interrupted))
            } else {
                Ok(0)
            };
        }
        self.good_writes -= 1;
        let count = buf.len().min(self.most);
        self.taken.extend_from_slice(&buf[..count])?;
        Ok(count)
    }

    fn flush(&mut self) -> io::Result<()> {
        Ok(())
    }
}

const BROKEN: &str = "RAH 1 counter\nreplicas a b\na inc\nb got 0\nb read 1\nbroken\n";

const BROKEN_REPLIES: &str = "ok 0\ngot 0\nok 1\n";

// A writer's error while replies are written precedes the fault of a later line.
#[test]
fn writes_of_a_few_bytes(rt: HostRuntime) {
    for (text, written, fault) in [
        (TEXT, WRITTEN, None),
        (SETS, REPLIES, None),
        (LIST, LIST_REPLIES, None),
        (BROKEN, BROKEN_REPLIES, Some(CheckFault::Syntax(6))),
    ] {
        for good_writes in 0..written.len().saturating_add(1) {
            for (most, fails) in [(1, true), (1, false), (3, true), (3, false)] {
                let writer = Trickle::new(rt.alloc(), most, good_writes, fails);
                ends_as_it_must(&rt, rt.alloc(), writer, text, written, fault);
            }
        }
    }
}

// Asserts that the writer received a prefix of the text's output, and that the check has its fault if it received all
// of it.
fn ends_as_it_must(
    rt: &impl Abort,
    alloc: Global,
    mut writer: Trickle,
    text: &str,
    written: &str,
    fault: Option<CheckFault>,
) {
    let (most, good_writes) = (writer.most, writer.good_writes);
    let found = check(alloc, &mut text.as_bytes(), &mut writer).err();
    let taken = writer.taken();
    let wanted = if taken.len() < written.len() {
        Some(CheckFault::Write)
    } else {
        fault
    };
    is_fault(rt, found, wanted, good_writes);
    are_bytes(
        rt,
        Some(taken),
        written.as_bytes().get(..taken.len()),
        good_writes,
    );
    let least = good_writes.min(written.len());
    assert!(rt; taken.len() == least || (most > 1 && taken.len() > least));
}
