//! The unique key of a label: its own stamp, or the identifier that it gives.
ghost use Rattle.std.specs.Prelude.{◌≡◌};
ghost use Rattle.ra_labels.specs.Answer.{identifier_of};
ghost use Rattle.ra_labels.specs.HistorySoFar.{next_operation};
ghost use Rattle.ra_monitor.specs.UsedKeys.{key_of};

use ra_labels::{Op, Stamp};

/// The unique key of a label.
#[derive(Clone, Copy)]
pub enum UniqueKey {
    /// The identifier that it gives to an element.
    Identifier(u32),
    /// Its own stamp.
    Stamp(Stamp),
    /// No key.
    Nothing,
}

impl UniqueKey {
    /// Returns the key of the label that the replica's operation becomes with this clock.
    pub fn by(replica: u8, op: &Op, clock: Option<u32>) -> UniqueKey
        // The result is the key of the operation in the definitions: its identifier, or else its stamp.
        ensures { result ≡ key_of (next_operation replica op.now clock) }
    {
        match (identifier_of(op), clock) {
            (Some(identifier), _) => UniqueKey::Identifier(identifier),
            (None, Some(clock)) => UniqueKey::Stamp(Stamp { clock, replica }),
            (None, None) => UniqueKey::Nothing,
        }
    }
}

// Returns the identifier that the operation gives to an element, if any.
fn identifier_of(op: &Op) -> Option<u32>
    ensures { result ≡ identifier_of op.now }
{
    match op {
        Op::OrAdd { id, .. } => Some(*id),
        _ => None,
    }
}
