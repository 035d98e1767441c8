//! Whether some order explains the records and a read of an RGA that comes next.
ghost use Rattle.std.specs.Prelude.{◌≡◌, true, ℕ, List, IfOk};
ghost use Rattle.ra_labels.specs.HistorySoFar.{History};
ghost use Rattle.ra_labels.specs.declared.operation.Op.TheVariants as op;
ghost use Rattle.ra_rga_precedence.specs.Nearest.{IsPossibleList, IsPastOfRead};
ghost use Rattle.ra_rga_precedence.specs.Situation.{operations_in};

use crate::answer::AnyOrder;
use crate::ordering::some_order;
use ra_labels::{Elements, NoMemory, Op};
use ra_visibility::Tracker;
use std::alloc::Global;

/// Returns `true` only if some order explains the records and a read of the list. The tracker represents the visibility
/// of the records and that of the read, the last label.
///
/// # Errors
///
/// `NoMemory` if allocation fails.
///
/// # Complexity
///
/// That of `some_order`.
pub fn is_possible_list(
    alloc: Global,
    tracker: &Tracker,
    operations: &[&Op],
    list: &Vec<u32>,
) -> Result<bool, NoMemory>
    ensures { IfOk result (λ is. is ≡ true → (past : History) (replica : ℕ)
        → IsPastOfRead tracker.now.now (operations_in operations.now) past replica
        → IsPossibleList past.records replica list.now.items) }
{
    let read = Op::RgaRead(Elements::new(list.clone()?));
    let explained = is_explained(alloc, tracker, operations, &read)?;
    Ok(explained)
}

// Returns `true` only if some order explains the records and this read, the last label.
fn is_explained(
    alloc: Global,
    tracker: &Tracker,
    operations: &[&Op],
    read: &Op,
) -> Result<bool, NoMemory>
    ensures { IfOk result (λ is. is ≡ true → (past : History) (replica : ℕ) (list : List ℕ)
        → IsPastOfRead tracker.now.now (operations_in operations.now) past replica → read.now ≡ op.RgaRead list
        → IsPossibleList past.records replica list) }
{
    let mut all = Vec::new(alloc);
    all.extend_from_slice(operations)?;
    all.push(read)?;
    match some_order(alloc, tracker, &all)? {
        AnyOrder::Exists(_) => Ok(true),
        AnyOrder::NoneExists(_) => Ok(false),
    }
}
