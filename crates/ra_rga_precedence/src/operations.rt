//! The operations of labels.
ghost use Rattle.std.specs.Prelude.{◌≡◌, None, Some, MatchOption, slice_get};
ghost use Rattle.ra_rga_precedence.specs.Situation.{operations_in};
ghost use Rattle.ra_rga_precedence.specs.Operations.{inserted_at, needed_at, updates_at, list_at};

use ra_labels::Op;

/// Returns the operation of the label, or `None` if there is no such label.
pub fn operation_at<'a>(operations: &[&'a Op], label: u32) -> Option<&'a Op>
    ensures { MatchOption result (slice_get (operations_in operations.now) label ≡ None)
        (λ op. slice_get (operations_in operations.now) label ≡ Some op.now) }
{
    match operations.get(label as usize) {
        Some(op) => Some(*op),
        None => None,
    }
}

/// Returns the element that the label inserts, or `None` if it is no insertion.
pub fn element_inserted(operations: &[&Op], label: u32) -> Option<u32>
    ensures { result ≡ inserted_at (operations_in operations.now) label }
{
    match operation_at(operations, label) {
        Some(Op::After { element, .. }) => Some(*element),
        _ => None,
    }
}

/// Returns the element that the label needs: its anchor, unless that is the root, or what it removes.
pub fn element_needed(operations: &[&Op], label: u32) -> Option<u32>
    ensures { result ≡ needed_at (operations_in operations.now) label }
{
    match operation_at(operations, label) {
        Some(Op::After { anchor, .. }) => if *anchor == 0 { None } else { Some(*anchor) },
        Some(Op::RgaRemove(element)) => Some(*element),
        _ => None,
    }
}

/// Returns `true` if the label is an update.
pub fn is_update(operations: &[&Op], label: u32) -> bool
    ensures { result ≡ updates_at (operations_in operations.now) label }
{
    match operation_at(operations, label) {
        Some(op) => op.is_update(),
        None => false,
    }
}

/// Returns the list that the label returned, or `None` if it is no read.
pub fn list_read<'a>(operations: &[&'a Op], label: u32) -> Option<&'a [u32]>
    ensures { MatchOption result (list_at (operations_in operations.now) label ≡ None)
        (λ list. list_at (operations_in operations.now) label ≡ Some list.now) }
{
    match operation_at(operations, label) {
        Some(Op::RgaRead(list)) => Some(list.as_slice()),
        _ => None,
    }
}
