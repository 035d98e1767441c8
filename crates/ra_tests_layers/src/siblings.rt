//! Tests of `ra_siblings`: calls succeed if memory suffices, and a failed allocation changes nothing.
ghost use Rattle.std.specs.Prelude.{◌<◌};

use ra_labels::NoMemory;
use ra_siblings::Siblings;
use std::process::Abort;
use std::test::Fail;

fn write(
    rt: &impl Abort,
    siblings: &mut Siblings,
    replica: u8,
    value: u32,
) -> Result<(), NoMemory> {
    assert!(rt; (replica as usize) < siblings.replica_count());
    assert!(rt; siblings.label_count() < 1_000_000);
    siblings.write(replica, value)
}

fn deliver(
    rt: &impl Abort,
    siblings: &mut Siblings,
    replica: u8,
    label: u32,
) -> Result<(), NoMemory> {
    assert!(rt; (replica as usize) < siblings.replica_count());
    assert!(rt; (label as usize) < siblings.label_count());
    assert!(rt; !siblings.is_sibling(replica, label));
    siblings.deliver(replica, label)
}

fn join(rt: &impl Abort, siblings: &mut Siblings, from: u8) -> Result<(), NoMemory> {
    assert!(rt; (from as usize) < siblings.replica_count());
    siblings.join(from)
}

fn has(rt: &impl Abort, siblings: &Siblings, replica: u8, label: u32) -> bool {
    assert!(rt; (replica as usize) < siblings.replica_count());
    siblings.is_sibling(replica, label)
}

fn reads(
    rt: &impl Abort,
    siblings: &Siblings,
    replica: u8,
    list: &[u32],
) -> Result<bool, NoMemory> {
    assert!(rt; (replica as usize) < siblings.replica_count());
    siblings.is_right_read(replica, list)
}

#[test]
fn concurrent_writes_are_siblings(rt: HostRuntime) -> Result<(), Fail> {
    let mut siblings = Siblings::new(rt.alloc(), 2)?;
    assert!(rt; reads(&rt, &siblings, 0, &[])?);
    write(&rt, &mut siblings, 0, 1)?;
    write(&rt, &mut siblings, 1, 2)?;
    deliver(&rt, &mut siblings, 0, 1)?;
    assert!(rt; reads(&rt, &siblings, 0, &[1, 2])?);
    assert!(rt; !reads(&rt, &siblings, 0, &[1])?);
    assert!(rt; !reads(&rt, &siblings, 0, &[2, 1])?);
    siblings.add_query()?;
    write(&rt, &mut siblings, 0, 3)?;
    assert!(rt; reads(&rt, &siblings, 0, &[3])?);
    deliver(&rt, &mut siblings, 1, 0)?;
    assert!(rt; reads(&rt, &siblings, 1, &[1, 2])?);
    deliver(&rt, &mut siblings, 1, 3)?;
    assert!(rt; !reads(&rt, &siblings, 1, &[2])?);
    assert!(rt; reads(&rt, &siblings, 1, &[3])?);
    Ok(())
}

#[test]
fn equal_values_are_listed_once(rt: HostRuntime) -> Result<(), Fail> {
    let mut siblings = Siblings::new(rt.alloc(), 2)?;
    write(&rt, &mut siblings, 0, 4_294_967_295)?;
    write(&rt, &mut siblings, 1, 4_294_967_295)?;
    deliver(&rt, &mut siblings, 0, 1)?;
    assert!(rt; reads(&rt, &siblings, 0, &[4_294_967_295])?);
    Ok(())
}

// `rt try --test --fail-alloc N` lets the allocation N fail. The call that asks for it changes nothing.
#[test]
fn changes_nothing_if_an_allocation_fails(rt: HostRuntime) -> Result<(), Fail> {
    let mut siblings = match Siblings::new(rt.alloc(), 2) {
        Ok(made) => made,
        Err(_) => Siblings::new(rt.alloc(), 2)?,
    };
    for replica in 0..2u8 {
        if write(&rt, &mut siblings, replica, 7).is_err() {
            assert!(rt; siblings.label_count() == replica as usize);
            assert!(rt; reads(&rt, &siblings, replica, &[])?);
            write(&rt, &mut siblings, replica, 7)?;
        }
    }
    if siblings.add_query().is_err() {
        assert!(rt; siblings.label_count() == 2);
        siblings.add_query()?;
    }
    if deliver(&rt, &mut siblings, 0, 1).is_err() {
        assert!(rt; !has(&rt, &siblings, 0, 1) && has(&rt, &siblings, 0, 0));
        deliver(&rt, &mut siblings, 0, 1)?;
    }
    assert!(rt; has(&rt, &siblings, 0, 1) && has(&rt, &siblings, 0, 0));
    if join(&rt, &mut siblings, 0).is_err() {
        assert!(rt; siblings.replica_count() == 2);
        join(&rt, &mut siblings, 0)?;
    }
    assert!(rt; siblings.replica_count() == 3);
    let right = match reads(&rt, &siblings, 2, &[7]) {
        Ok(right) => right,
        Err(_) => reads(&rt, &siblings, 2, &[7])?,
    };
    assert!(rt; right);
    Ok(())
}
