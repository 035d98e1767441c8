//! The operations of the labels that a log reports.
ghost use Rattle.std.specs.Prelude.{◌≡◌, ◌<◌, ℕ, IfOk, is_some, true, length, slice_get, MatchOption, None, Some};
ghost use Rattle.ra_reported.specs.Reported.{operation_at};
ghost use Rattle.ra_any_order.specs.Situation.{operations_in};
ghost use Rattle.ra_another_order.specs.Operations.{operation_there};

use ra_journal::Entry;
use ra_labels::{Command, NoMemory, Op, Reply};
use std::alloc::Global;

/// Returns the operations at these places of the log.
///
/// # Errors
///
/// `NoMemory` if allocation fails.
///
/// # Complexity
///
/// O(n), where `n` is the number of places.
pub fn operations_of<'a>(
    alloc: Global,
    log: &'a [Entry<Command, Reply>],
    places: &[u32],
) -> Result<Vec<&'a Op>, NoMemory>
    // Each place has an operation.
    requires { (n : ℕ) → n < length places.now → is_some (operation_at log.now places.now n) ≡ true }
    // The operations are those at the places, one by one.
    ensures { IfOk result (λ it. (n : ℕ)
        → slice_get (operations_in it.items) n ≡ operation_at log.now places.now n) }
{
    let mut operations = Vec::new(alloc);
    for place in places {
        if let Some(op) = operation_there(log, *place) {
            operations.push(op)?;
        }
    }
    Ok(operations)
}

// Returns the operation at this place of the log, or `None` if there is none.
fn operation_there(log: &[Entry<Command, Reply>], place: u32) -> Option<&Op>
    ensures { MatchOption result (operation_there log.now place ≡ None)
        (λ op. operation_there log.now place ≡ Some op.now) }
{
    match log.get(place as usize) {
        Some(entry) => match &entry.command {
            Command::Operate { op, .. } => Some(op),
            Command::Deliver { .. } | Command::Join { .. } | Command::Verdict => None,
        },
        None => None,
    }
}
