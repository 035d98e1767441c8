//! Tests of `ra_rewrite`: the reads of a list are rewritten if memory suffices.
use ra_labels::{Elements, ListOp, Op};
use ra_rewrite::parts_of;
use std::test::Fail;

#[test]
fn reads_of_a_list_are_rewritten(rt: HostRuntime) -> Result<(), Fail> {
    let read = Vec::from_slice(rt.alloc(), &[5, 3])?;
    let parts = parts_of(&Op::List(ListOp::Read(Elements::new(read))))?;
    assert!(rt; parts.into_query().is_some());
    let part = Vec::from_slice(rt.alloc(), &[3])?;
    let parts_of_part = parts_of(&Op::List(ListOp::Part(Elements::new(part))))?;
    assert!(rt; parts_of_part.into_query().is_some());
    Ok(())
}
