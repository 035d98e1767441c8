//! Tests of `ra_any_reads`: calls succeed, and can be repeated after a failed allocation.
ghost use Rattle.std.specs.Prelude.{◌≡◌, IsTrue, None};
ghost use Rattle.ra_any_reads.specs.Firsts.{first_in};

use ra_any_reads::{AnyReads, First};
use ra_labels::NoMemory;
use std::process::Abort;
use std::test::Fail;

// Returns `true` if no read with these counts was added.
fn is_new(reads: &AnyReads, counts: &[u32]) -> bool
    ensures { IsTrue result → first_in reads.now counts.now ≡ None }
{
    reads.find(counts).is_none()
}

// Adds a read with new counts, again if an allocation fails.
fn adds(
    rt: &impl Abort,
    reads: &mut AnyReads,
    counts: &[u32],
    value: u32,
    label: u32,
) -> Result<(), NoMemory> {
    assert!(rt; is_new(reads, counts));
    if reads.add(counts, value, label).is_err() {
        assert!(rt; is_new(reads, counts));
        reads.add(counts, value, label)?;
    }
    assert_eq!(rt; reads.find(counts), Some(First { value, label }));
    Ok(())
}

#[test]
fn finds_the_first_read_of_each_set(rt: HostRuntime) -> Result<(), Fail> {
    let mut reads = AnyReads::new(rt.alloc());
    assert_eq!(rt; reads.find(&[]), None);
    adds(&rt, &mut reads, &[2, 0, 1], 7, 3)?;
    adds(&rt, &mut reads, &[], 9, 4)?;
    adds(&rt, &mut reads, &[2, 1], 8, 5)?;
    assert_eq!(rt; reads.find(&[2, 0, 1]), Some(First { value: 7, label: 3 }));
    assert_eq!(rt; reads.find(&[0, 0]), Some(First { value: 9, label: 4 }));
    assert_eq!(rt; reads.find(&[2, 1]), Some(First { value: 8, label: 5 }));
    assert_eq!(rt; reads.find(&[2, 0]), None);
    Ok(())
}

// A replica joins after the first read, so the later vector has one more count.
#[test]
fn a_replica_that_joins_later_changes_nothing(rt: HostRuntime) -> Result<(), Fail> {
    let mut reads = AnyReads::new(rt.alloc());
    adds(&rt, &mut reads, &[1, 2], 7, 3)?;
    let first = First { value: 7, label: 3 };
    assert_eq!(rt; reads.find(&[1, 2, 0, 0]), Some(first));
    assert_eq!(rt; reads.find(&[1, 2, 0, 1]), None);
    Ok(())
}
