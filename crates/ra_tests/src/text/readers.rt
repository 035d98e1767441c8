//! Texts from readers of all sorts.

use super::{LIST, LIST_REPLIES, REPLIES, SETS, TEXT, WRITTEN, are_bytes, is_fault};
use ra_history_text::CheckFault::{self, Truncated};
use ra_history_text::check;
use std::alloc::Global;
use std::io;
use std::io::{ErrorKind, Read, Write};
use std::process::Abort;

// The number of bytes that a read returns.
#[derive(Clone, Copy)]
enum Pace {
    // At most this many bytes.
    Bytes(usize),
    // All bytes of a line but the last, and then the last one.
    ButOne,
}

impl Pace {
    // Returns how many of the remaining bytes the next read returns.
    fn of(self, left: &[u8]) -> usize {
        match self {
            Pace::Bytes(most) => most.min(left.len()),
            Pace::ButOne => match left.iter().position(|byte| *byte == b'\n') {
                Some(before) => before.max(1),
                None => left.len(),
            },
        }
    }
}

// A reader that returns the text at some pace. At one read it fails or returns nothing; further reads would return the
// rest.
#[derive(Drop)]
struct Drip<'a> {
    text: &'a [u8],
    pace: Pace,
    good_reads: usize,
    fails: bool,
}

impl Read for Drip<'_> {
    fn read(&mut self, buf: &mut [u8]) -> io::Result<usize> {
        if self.good_reads == 0 || buf.len() > 4_096 {
            self.good_reads = usize::MAX;
            return if self.fails {
                Err(io::Error::from(ErrorKind::Interrupted))
            } else {
                Ok(0)
            };
        }
        self.good_reads -= 1;
        let given = self.pace.of(self.text).min(buf.len());
        self.text.read(&mut buf[..given])
    }
}

// Returns what is left of the text after this many reads, and how many of them returned some bytes.
fn left_after(text: &[u8], pace: Pace, reads: usize) -> (&[u8], usize) {
    let mut left = text;
    let mut gave = 0usize;
    for _ in 0..reads {
        if left.is_empty() {
            break;
        }
        left = left.get(pace.of(left)..).unwrap_or(b"");
        gave = gave.wrapping_add(1);
    }
    (left, gave)
}

// The text fails, or ends, after each number of reads.
#[test]
fn reads_of_a_few_bytes(rt: HostRuntime) {
    for (text, written) in [(TEXT, WRITTEN), (SETS, REPLIES), (LIST, LIST_REPLIES)] {
        for pace in [Pace::Bytes(1), Pace::Bytes(3), Pace::ButOne] {
            let (_, reads) = left_after(text.as_bytes(), pace, text.len());
            for good_reads in 0..reads.saturating_add(2) {
                for fails in [true, false] {
                    let reader = Drip {
                        text: text.as_bytes(),
                        pace,
                        good_reads,
                        fails,
                    };
                    let is_whole = good_reads > reads;
                    ends_as_it_must(&rt, rt.alloc(), reader, is_whole, text, written);
                }
            }
        }
    }
}

// Asserts that what was read is answered line by line. A reader that returns less than the text makes the check fail,
// or the text end there.
fn ends_as_it_must(
    rt: &impl Abort,
    alloc: Global,
    mut reader: Drip<'_>,
    is_whole: bool,
    text: &str,
    written: &str,
) {
    let (reads, fails) = (reader.good_reads, reader.fails);
    let (left, _) = left_after(text.as_bytes(), reader.pace, reads);
    let given = first_bytes(text, text.len().saturating_sub(left.len()));
    let lines = lines_in(given);
    let ends = is_whole || (!fails && lines > 1 && given.last() == Some(&b'\n'));
    let wanted = match (ends, fails) {
        (true, _) => None,
        (false, true) => Some(CheckFault::Read),
        (false, false) => Some(Truncated(lines.min(100) as u32 + 1)),
    };
    let mut out = Vec::new(alloc);
    let fault = check(alloc, &mut reader, &mut out).err();
    is_fault(rt, fault, wanted, reads);
    let replied = first_lines(written, lines.saturating_sub(2));
    are_bytes(rt, out.get(..replied.len()), Some(replied), reads);
    assert!(rt; (out.len() > replied.len()) == ends, "after {reads} reads");
    if is_whole {
        are_bytes(rt, Some(out.as_slice()), Some(written.as_bytes()), reads);
    }
}

fn first_bytes(text: &str, count: usize) -> &[u8] {
    text.as_bytes().get(..count).unwrap_or(b"")
}

fn lines_in(bytes: &[u8]) -> usize {
    bytes.iter().filter(|byte| **byte == b'\n').count()
}

// Returns the first `lines` lines of the text.
fn first_lines(text: &str, lines: usize) -> &[u8] {
    let mut end = 0usize;
    for _ in 0..lines {
        let left = text.as_bytes().get(end..).unwrap_or(b"");
        if let Some(before) = left.iter().position(|byte| *byte == b'\n') {
            end = end.saturating_add(before).saturating_add(1);
        }
    }
    first_bytes(text, end)
}

// A reader that returns a prefix, and then a part repeatedly, one byte in a read.
#[derive(Drop)]
struct Repeats<'a> {
    now: &'a [u8],
    part: &'a [u8],
    times: usize,
}

impl Read for Repeats<'_> {
    fn read(&mut self, buf: &mut [u8]) -> io::Result<usize> {
        if self.now.is_empty() && self.times > 0 {
            self.times -= 1;
            self.now = self.part;
        }
        let room = buf.len().min(1);
        self.now.read(&mut buf[..room])
    }
}

// A writer that counts the bytes.
#[derive(Drop)]
struct Counting {
    written: usize,
}

impl Write for Counting {
    fn write(&mut self, buf: &[u8]) -> io::Result<usize> {
        self.written = self.written.saturating_add(buf.len());
        Ok(buf.len())
    }

    fn flush(&mut self) -> io::Result<()> {
        Ok(())
    }
}

// The longest line of a command, which is rejected, so often that there are more than 2^24 reads.
#[test]
fn many_reads_of_a_byte(rt: HostRuntime) {
    let mut reader = Repeats {
        now: b"RAH 1 counter\nreplicas a b\n",
        part: b"zzzzzzzzzzzzzzzz read -2147483648 @4294967295\n",
        times: 364_723,
    };
    let mut writer = Counting { written: 0 };
    let outcome = check(rt.alloc(), &mut reader, &mut writer);
    is_fault(&rt, outcome.err(), None, 0);
    assert_eq!(rt; writer.written, 24 * 364_723 + 10);
}
