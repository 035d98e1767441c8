//! The condition of a register's read.
ghost use Rattle.std.specs.Prelude.{◌≡◌, IfOk, filter};
ghost use Rattle.ra_any_order.specs.Situation.{operations_in};
ghost use Rattle.ra_any_order.specs.Reading.{passes_at, leads_to};
ghost use Rattle.ra_some_order.specs.VisibleUpdates.{writes, writes_other};

use crate::operations::operation_at;
use ra_labels::{NoMemory, Op};
use ra_precedence::Condition;
use std::alloc::Global;

/// Returns the condition of a read that the last one of these writes is one of the value: each write of another value
/// comes before one of this value.
///
/// # Errors
///
/// `NoMemory` if allocation fails.
pub fn value_condition(
    alloc: Global,
    operations: &[&Op],
    labels: &[u32],
    value: Option<u32>,
    read: u32,
) -> Result<Condition, NoMemory>
    ensures before { IfOk result (λ condition. condition.before
        ≡ filter (passes_at (operations_in operations.now) (writes_other value)) labels.now) }
    ensures after { IfOk result (λ condition. condition.after
        ≡ filter (passes_at (operations_in operations.now) (writes value)) labels.now) }
{
    let mut before = Vec::new(alloc);
    let mut after = Vec::new(alloc);
    for label in labels {
        match leads_to(operations, *label, value) {
            Some(true) => after.push(*label)?,
            Some(false) => before.push(*label)?,
            None => {}
        }
    }
    Condition::new(alloc, read, &before, &after)
}

// Returns whether the write of this label is one of the value; `None` if it is no write.
fn leads_to(operations: &[&Op], label: u32, value: Option<u32>) -> Option<bool>
    ensures { result ≡ leads_to (operations_in operations.now) value label }
{
    match operation_at(operations, label) {
        Some(Op::Write(written)) => Some(value == Some(*written)),
        _ => None,
    }
}
