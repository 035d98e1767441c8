//! Pseudo-random choices, which are the same for the same seed.
ghost use Rattle.std.specs.Prelude.{◌<◌};

use rand_core::{Rng, SeedableRng};
use rand_xoshiro::Xoshiro256PlusPlus;

/// A source of choices.
#[derive(Drop)]
pub struct Chance {
    numbers: Xoshiro256PlusPlus,
}

impl Chance {
    /// Creates the source with this seed.
    pub fn new(seed: u64) -> Chance {
        Chance {
            numbers: Xoshiro256PlusPlus::seed_from_u64(seed),
        }
    }

    /// Returns a seed for another source.
    pub fn seed(&mut self) -> u64 {
        self.numbers.next_u64()
    }

    /// Returns a number below this one.
    pub fn below(&mut self, count: u32) -> u32
        requires { 0 < count }
        ensures { result < count }
    {
        (self.numbers.next_u64() % u64::from(count)) as u32
    }

    /// Returns `true` once in `count` times.
    pub fn is_one_in(&mut self, count: u32) -> bool
        requires { 0 < count }
    {
        self.below(count) == 0
    }
}
