//! The functions that rewrite a label or an operation into its parts.
ghost use Rattle.std.specs.Prelude.{◌≡◌, false, IfOk, IsOk};
ghost use Rattle.ra_labels.specs.declared.operation.Op.TheVariants as operations;
ghost use Rattle.ra_labels.specs.declared.operation.Op.TheVariants.{OrRemove};
ghost use Rattle.ra_labels.specs.Rewriting.{acts_of};
ghost use Rattle.ra_rewrite.specs.Parts.{acts_in};
ghost use Rattle.ra_rewrite.specs.Memory.{takes_memory};

use crate::part::{Part, Parts};
use ra_labels::{Elements, Label, ListOp, ListQuery, ListUpdate, NoMemory, Op, Query, Update};

/// Returns the parts of the label.
///
/// # Errors
///
/// `NoMemory` if allocation fails. Only the read of a set, of an RGA or of a list or its part, and an OR-Set's removal
/// allocate.
///
/// # Complexity
///
/// O(n), where `n` is the length of the operation's list.
pub fn parts(label: &Label) -> Result<Parts, NoMemory>
    // The parts are those into which the definitions rewrite the label's operation, a query half before its update
    // half.
    ensures acts { IfOk result (λ parts. acts_in parts ≡ acts_of label.now.op) }
    // The call succeeds if the operation has no list that must be copied.
    ensures memory { takes_memory label.now.op ≡ false → IsOk result }
{
    parts_of(&label.op)
}

/// Returns the parts of a label with this operation.
///
/// # Errors
///
/// As `parts`.
///
/// # Complexity
///
/// As `parts`.
pub fn parts_of(op: &Op) -> Result<Parts, NoMemory>
    // The parts are those into which the definitions rewrite the operation, a query half before its update half.
    ensures acts { IfOk result (λ parts. acts_in parts ≡ acts_of op.now) }
    // The call succeeds if the operation has no list that must be copied.
    ensures memory { takes_memory op.now ≡ false → IsOk result }
{
    let part = match op {
        Op::Inc => Part::Update(Update::Inc),
        Op::Dec => Part::Update(Update::Dec),
        Op::Count(answer) => Part::Query(Query::Count(*answer)),
        Op::Write(value) => Part::Update(Update::Write(*value)),
        Op::Last(answer) => Part::Query(Query::Last(*answer)),
        Op::LwwAdd(element) => Part::Update(Update::LwwAdd(*element)),
        Op::LwwRemove(element) => Part::Update(Update::LwwRemove(*element)),
        Op::LwwRead(answer) => Part::Query(Query::LwwRead(answer.clone()?)),
        Op::OrAdd { element, id } => Part::Update(Update::OrAdd {
            element: *element,
            id: *id,
        }),
        Op::OrRemove { element, ids } => return halves(*element, ids),
        Op::OrRead(answer) => Part::Query(Query::OrRead(answer.clone()?)),
        Op::After { anchor, element } => Part::Update(Update::After {
            anchor: *anchor,
            element: *element,
        }),
        Op::RgaRemove(element) => Part::Update(Update::RgaRemove(*element)),
        Op::RgaRead(answer) => Part::Query(Query::RgaRead(answer.clone()?)),
        Op::List(op) => return list_parts(op),
        Op::AnyUpdate => Part::Update(Update::AnyUpdate),
        Op::AnyRead(value) => Part::Query(Query::AnyRead(*value)),
        Op::MvWrite(value) => Part::Update(Update::MvWrite(*value)),
        Op::MvRead(values) => Part::Query(Query::MvRead(values.clone()?)),
    };
    Ok(Parts::One(part))
}

// Returns the halves of a removal: the query for the element's identifiers, and the removal of these pairs.
fn halves(element: u32, ids: &Elements) -> Result<Parts, NoMemory>
    ensures { IfOk result (λ parts. acts_in parts ≡ acts_of (OrRemove element ids.now)) }
{
    let asked = Query::ReadIds {
        element,
        ids: ids.clone()?,
    };
    let taken = Update::TakeOut {
        element,
        ids: ids.clone()?,
    };
    Ok(Parts::Two(asked, taken))
}

// Returns the parts of a list's operation. An update has a query half, which asks for the elements that it names.
fn list_parts(op: &ListOp) -> Result<Parts, NoMemory>
    ensures acts { IfOk result (λ parts. acts_in parts ≡ acts_of (operations.List op.now)) }
    ensures memory { takes_memory (operations.List op.now) ≡ false → IsOk result }
{
    let parts = match op {
        ListOp::Insert(insertion) => Parts::Two(
            Query::List(ListQuery::Near(*insertion)),
            Update::List(ListUpdate::Put(*insertion)),
        ),
        ListOp::Remove(element) => Parts::Two(
            Query::List(ListQuery::Has(*element)),
            Update::List(ListUpdate::Hide(*element)),
        ),
        ListOp::Read(answer) => {
            Parts::One(Part::Query(Query::List(ListQuery::Read(answer.clone()?))))
        }
        ListOp::Part(answer) => {
            Parts::One(Part::Query(Query::List(ListQuery::Part(answer.clone()?))))
        }
    };
    Ok(parts)
}
