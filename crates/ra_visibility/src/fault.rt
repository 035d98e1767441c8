use ra_labels::Refusal;

/// The reason why a delivery failed. The tracker is unchanged.
#[derive(Clone, Copy, Debug, PartialEq, Eq)]
pub enum DeliverFault {
    /// The delivery is rejected: `UnknownLabel`, `NotAnUpdate`, `AlreadySeen` or `NotCausal`, the first that applies.
    Refused(Refusal),
    /// Allocation failed. A delivery does not allocate, so `deliver` never returns this.
    NoMemory,
}
