//! Whether the labels of a list show each two elements in one order. Programs that transform operations (OT) do so even
//! where no single order of all elements explains them.
ghost use Rattle.std.specs.Prelude.{◌≡◌, ◌++◌, IfOk, MatchOption, OnOk};
ghost use Rattle.ra_labels.specs.Neighborhood.{named, neighborhood};
ghost use Rattle.ra_explain.specs.Agreement.{Agree, Disagree, IsDisagreement, NeverDisagree, list_shown_by, shown_at, shown_by};

use crate::origin::operation_of;
use crate::places::Places;
use crate::spans::Spans;
use ra_journal::Entry;
use ra_labels::{Command, Insertion, ListOp, NoMemory, Op, Reply};
use std::alloc::Global;

/// Two elements that a label shows in one order, and the violating label the other way round.
#[derive(Clone, Copy, Debug, PartialEq, Eq)]
pub struct Disagreement {
    /// The label. It is the violating one itself if that shows two elements both ways.
    pub label: u32,
    /// The element that it shows before the other one, and that the violating label shows behind it.
    pub first: u32,
    /// The other element.
    pub second: u32,
}

/// Returns the first label that shows two elements the other way round than the label with this number, or `None` if
/// there is none. A read shows its elements, and an insertion its element between the neighbours that it names.
///
/// # Errors
///
/// `NoMemory` if an allocation fails.
///
/// # Complexity
///
/// O(m log n) for the `m` elements that all labels show and the `n` elements that this one shows.
pub fn find_disagreement(
    alloc: Global,
    log: &[Entry<Command, Reply>],
    places: &Places,
    label: u32,
) -> Result<Option<Disagreement>, NoMemory>
    // The result has a label that shows its two elements in their order, and this label shows them the other way round;
    // or it is `None` exactly if no label shows two elements the other way round.
    ensures { IfOk result (λ found. MatchOption found (Agree log.now places.now label)
        (IsDisagreement log.now places.now label)) }
{
    let own = Spans::of(alloc, shown_at(alloc, log, places, label)?)?;
    for other in 0..places.count() {
        let shown = shown_at(alloc, log, places, other)?;
        if let Some((first, second)) = reversed_pair(&shown, &own) {
            return Ok(Some(Disagreement {
                label: other,
                first,
                second,
            }));
        }
    }
    Ok(None)
}

// Returns two elements of the list, in its order, that the other list has the other way round; `None` if there are
// none.
fn reversed_pair(list: &[u32], other: &Spans) -> Option<(u32, u32)>
    ensures { MatchOption result (NeverDisagree list.now other.now)
        (λ pair. Disagree list.now other.now pair.0 pair.1) }
{
    // Of the elements so far, the one that is last in the other list. No position is before 0, so none is needed at the
    // start.
    let mut latest: u32 = 0;
    let mut last: usize = 0;
    for position in 0..list.len() {
        let element = list[position];
        if let Some(span) = other.span(element) {
            if span.first < last {
                return Some((latest, element));
            }
            latest = element;
            last = span.last;
        }
    }
    None
}

// Returns the elements that the label shows, in its order.
fn shown_at(
    alloc: Global,
    log: &[Entry<Command, Reply>],
    places: &Places,
    label: u32,
) -> Result<Vec<u32>, NoMemory>
    ensures { IfOk result (λ list. list.items ≡ shown_at log.now places.now label) }
{
    match operation_of(log, places, label) {
        Some(op) => shown_by(alloc, op),
        None => Ok(Vec::new(alloc)),
    }
}

fn shown_by(alloc: Global, op: &Op) -> Result<Vec<u32>, NoMemory>
    ensures { IfOk result (λ list. list.items ≡ shown_by op.now) }
{
    match op {
        Op::List(op) => list_shown_by(alloc, op),
        _ => Ok(Vec::new(alloc)),
    }
}

fn list_shown_by(alloc: Global, op: &ListOp) -> Result<Vec<u32>, NoMemory>
    ensures { IfOk result (λ list. list.items ≡ list_shown_by op.now) }
{
    match op {
        ListOp::Insert(insertion) => neighborhood(alloc, *insertion),
        ListOp::Remove(_) => Ok(Vec::new(alloc)),
        ListOp::Read(list) | ListOp::Part(list) => Ok(list.as_slice().to_vec(alloc)?),
    }
}

// Returns the element between the neighbours that the insertion names.
fn neighborhood(alloc: Global, insertion: Insertion) -> Result<Vec<u32>, NoMemory>
    ensures { IfOk result (λ list. list.items ≡ neighborhood insertion) }
{
    let mut list = Vec::new(alloc);
    push_named(&mut list, insertion.left)?;
    list.push(insertion.element)?;
    push_named(&mut list, insertion.right)?;
    Ok(list)
}

fn push_named(list: &mut Vec<u32>, element: u32) -> Result<(), NoMemory>
    ensures { OnOk result (list.new.items ≡ list.old.items ++ named element) }
{
    if element != 0 {
        list.push(element)?;
    }
    Ok(())
}
