//! Tests of `ra_seqspec`: the calls on a list succeed if memory suffices.
ghost use Rattle.std.specs.Prelude.{◌≡◌, true, IfOk};
ghost use Rattle.ra_seqspec.specs.Asked.{asks_rising};

use ra_labels::{Elements, Insertion, Kind, ListQuery, ListUpdate, Query, Update};
use ra_seqspec::State;
use std::alloc::{AllocError, Global};
use std::test::Fail;

fn insertion(left: u32, element: u32) -> Update {
    Update::List(ListUpdate::Put(Insertion {
        left,
        element,
        right: 0,
    }))
}

fn read(alloc: Global, elements: &[u32]) -> Result<Query, AllocError>
    ensures { IfOk result (λ query. asks_rising query ≡ true) }
{
    let items = Vec::from_slice(alloc, elements)?;
    Ok(Query::List(ListQuery::Read(Elements::new(items))))
}

#[test]
fn a_list_is_changed_and_read(rt: HostRuntime) -> Result<(), Fail> {
    let mut list = State::new(rt.alloc(), Kind::List)?;
    assert!(rt; list.apply(&insertion(0, 5))?);
    assert!(rt; list.apply(&insertion(5, 3))?);
    let earlier = list.copy()?;
    assert!(rt; list.apply(&Update::List(ListUpdate::Hide(5)))?);
    assert!(rt; !list.apply(&insertion(4, 6))?);
    let both = read(rt.alloc(), &[5, 3])?;
    let one = read(rt.alloc(), &[3])?;
    assert!(rt; earlier.admits(&both));
    assert!(rt; !list.admits(&both));
    assert!(rt; list.admits(&one));
    Ok(())
}

#[test]
fn a_wrong_answer_is_corrected(rt: HostRuntime) -> Result<(), Fail> {
    let list = State::new(rt.alloc(), Kind::List)?;
    let read = read(rt.alloc(), &[4])?;
    let corrected = list.answer(rt.alloc(), &read)?;
    assert!(rt; corrected.is_some());
    let items = Vec::from_slice(rt.alloc(), &[4, 4])?;
    let part = Query::List(ListQuery::Part(Elements::new(items)));
    let corrected_part = list.answer(rt.alloc(), &part)?;
    assert!(rt; corrected_part.is_some());
    Ok(())
}
