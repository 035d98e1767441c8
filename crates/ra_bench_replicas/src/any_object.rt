//! An object of any type, whose updates say nothing of themselves.
ghost use Rattle.std.specs.Prelude.{◌≡◌, true, false};
ghost use Rattle.ra_labels.specs.declared.kind.Kind.TheVariants as kind;
ghost use Rattle.ra_labels.specs.Answer.{kind_of, has_rising_list};
ghost use Rattle.ra_labels.specs.Visibility.{is_update};
ghost use Rattle.ra_bench_replicas.specs.Turn.{is_of_turn};

use crate::turn::Turn;
use ra_labels::Op;

/// A digest of the set of applied updates, in which their order does not matter.
#[derive(Drop)]
pub struct AnyObject {
    digest: u32,
}

impl AnyObject {
    /// Creates the object without updates.
    pub fn new() -> AnyObject {
        AnyObject { digest: 0 }
    }

    /// Returns its update of a round.
    pub fn update(&self, turn: Turn) -> Op
        ensures kind { kind_of result ≡ kind.Any }
        ensures rising { has_rising_list result ≡ true }
        ensures turn { is_of_turn turn result ≡ true }
    {
        Op::AnyUpdate
    }

    /// Returns the read with the digest.
    pub fn read(&self) -> Op
        ensures kind { kind_of result ≡ kind.Any }
        ensures rising { has_rising_list result ≡ true }
        ensures query { is_update result ≡ false }
    {
        Op::AnyRead(self.digest)
    }

    /// Applies the update with this number, from 0, of this replica.
    pub fn apply(&mut self, replica: u8, number: u32) {
        self.digest = self.digest.wrapping_add(mixed(replica, number));
    }
}

// Returns a number that depends on all bits of both.
fn mixed(replica: u8, number: u32) -> u32 {
    let seed = number
        .wrapping_mul(64)
        .wrapping_add(replica as u32)
        .wrapping_add(1);
    let half = seed.wrapping_mul(0x85eb_ca6b);
    (half ^ (half >> 13)).wrapping_mul(0xc2b2_ae35)
}
