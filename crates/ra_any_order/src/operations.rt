//! The operations of labels.
ghost use Rattle.std.specs.Prelude.{◌≡◌, None, Some, MatchOption, slice_get};
ghost use Rattle.ra_any_order.specs.Situation.{operations_in};

use ra_labels::Op;

/// Returns the operation of the label, or `None` if there is no such label.
pub fn operation_at<'a>(operations: &[&'a Op], label: u32) -> Option<&'a Op>
    ensures { MatchOption result (slice_get (operations_in operations.now) label ≡ None)
        (λ op. slice_get (operations_in operations.now) label ≡ Some op.now) }
{
    match operations.get(label as usize) {
        Some(op) => Some(*op),
        None => None,
    }
}
