//! The reason for which a label is not added.
ghost use Rattle.std.specs.Prelude.{◌≡◌, Some, None};
ghost use Rattle.ra_labels.specs.declared.reply.Cause.TheVariants.{Order};

use ra_labels::{Cause, Edge};

/// The reason for which a label is not added: the condition that fails with it, and for the order of a list a cycle
/// that shows it.
#[derive(Drop)]
pub struct Failure {
    /// The first linearization condition that fails with the label.
    pub cause: Cause,
    /// For a list whose cause is `Order`, a cycle of the edges that the labels require with this one, each with a label
    /// that requires it; `None` otherwise.
    pub cycle: Option<Vec<Edge>>,
}

impl Failure {
    /// Returns the failure of this condition, which no cycle shows.
    pub fn of(cause: Cause) -> Failure
        // The failure has this condition.
        ensures cause { result.cause ≡ cause }
        // It has no cycle.
        ensures cycle { result.cycle ≡ None }
    {
        Failure { cause, cycle: None }
    }

    /// Returns the failure of the order of a list's elements, which this cycle shows.
    pub fn of_elements(cycle: Vec<Edge>) -> Failure
        // The condition is the order.
        ensures cause { result.cause ≡ Order }
        // The failure has this cycle.
        ensures cycle { result.cycle ≡ Some cycle }
    {
        Failure {
            cause: Cause::Order,
            cycle: Some(cycle),
        }
    }
}
