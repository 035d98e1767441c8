//! The check of a text from bytes to bytes, as far as neither a clause nor a text of tests/program/texts/ shows it:
//! readers and writers that fail or transfer few bytes, histories that are written, long texts that are written and
//! fed, and the use of available memory.

mod crossing;
mod faults;
mod histories;
mod lines;
mod readers;
mod refused;
mod sessions;
mod writers;

use ra_history_text::CheckFault;
use std::process::Abort;

const TEXT: &str = "RAH 1 counter\nreplicas a b c\na inc\nb got 0\nb read 1\n";

const WRITTEN: &str = "ok 0\ngot 0\nok 1\nend yes 2\n";

// A delivery comes before one that its label saw, and once more after it.
const SETS: &str = "RAH 1 orset
replicas a b c
a add 4 #1
b got 0
b remove 4 #1
a add 4 #2
c got 1
c got 0
c got 1
c got 2
c read 4
";

const REPLIES: &str = "ok 0
got 0
ok 1
ok 2
refused not-causal 0
got 0
got 1
got 2
ok 3
end yes 4
";

// A list of three elements, the last one behind the first.
const LIST: &str = "RAH 1 rga
replicas a b c
a after 0 1 @1
b got 0
a after 0 2 @3
b after 0 3 @2
c got 0
c got 1
c got 2
c read 2,3,1
";

const LIST_REPLIES: &str = "ok 0
got 0
ok 1
ok 2
got 0
got 1
got 2
ok 3
end yes 4
";

// Asserts that a text has this fault, after this many reads or writes, or with reads of this many bytes. Faults are
// compared here alone, and bytes below alone, since every further comparison would be proved again.
fn is_fault(rt: &impl Abort, fault: Option<CheckFault>, wanted: Option<CheckFault>, after: usize) {
    assert_eq!(rt; fault, wanted, "after {after}");
}

// Asserts that the bytes are these.
fn are_bytes(rt: &impl Abort, bytes: Option<&[u8]>, wanted: Option<&[u8]>, after: usize) {
    assert_eq!(rt; bytes, wanted, "after {after}");
}
