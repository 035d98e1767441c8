//! The updates that carry a stamp.
ghost use Rattle.std.specs.Prelude.{◌≡◌};
ghost use Rattle.ra_labels.specs.Answer.{carries_stamp};

use ra_labels::Op;

/// Returns `true` if operations of this form carry a stamp.
pub fn carries_stamp(op: &Op) -> bool
    ensures { result ≡ carries_stamp op.now }
{
    match op {
        Op::Write(_) | Op::LwwAdd(_) | Op::LwwRemove(_) | Op::After { .. } => true,
        _ => false,
    }
}
