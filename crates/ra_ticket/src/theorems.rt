//! The lock's limits in figures.
ghost use Rattle.std.specs.Prelude.{◌≡◌};
ghost use Rattle.ra_ticket.specs.declared.draw.TheConstants.{GREATEST_TICKET};
ghost use Rattle.ra_ticket.specs.declared.open.TheConstants.{MOST_PASSES};

/// Theorem: the limits are 64 passes of a lock and 18,446,744,073,709,551,614 as the last ticket.
pub fn limits()
    ensures passes { MOST_PASSES ≡ 64 }
    ensures ticket { GREATEST_TICKET ≡ 18446744073709551614 }
{}
