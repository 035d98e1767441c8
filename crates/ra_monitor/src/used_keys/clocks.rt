//! The clocks of one replica's own stamps, in increasing order.
ghost use Rattle.std.specs.Prelude.{◌≡◌, ℕ, ◌<◌, ◌||◌, nat_eq, nat_lt, [], OnOk};
ghost use Rattle.ra_monitor.specs.Clocks.{is_clock_in, IsIndexFor};

use ra_labels::NoMemory;
use std::alloc::Global;
use std::marker::Model;

/// The clocks of one replica's own stamps, in increasing order.
#[derive(Drop)]
pub struct Clocks {
    clocks: Vec<u32>,
}

impl Model for Clocks {
    ghost use Rattle.std.specs.Prelude.{◌-◌};
    ghost use Rattle.std.specs.List.Sorted.{IsNonDecreasing};
    ghost use Rattle.std.specs.Vec.{vec_len, vec_capacity};
    ghost use Rattle.ra_monitor.specs.Clocks.{Clocks};

    ghost Value = { Clocks };

    ghost view = { λ a. record { clocks = a.clocks.items; room = vec_capacity a.clocks - vec_len a.clocks } };

    ghost invariant = { λ a. IsNonDecreasing a.clocks.items };
}

impl Clocks {
    /// Creates the empty collection. Does not allocate.
    pub fn new(alloc: Global) -> Clocks
        ensures { result.clocks ≡ [] }
    {
        Clocks {
            clocks: Vec::new(alloc),
        }
    }

    /// Returns `true` if the clock is one of them.
    ///
    /// # Complexity
    ///
    /// O(1) if the clock is greater than all of them; otherwise O(log n), where `n` is their number.
    pub fn has(&self, clock: u32) -> bool
        ensures { result ≡ is_clock_in self.now clock }
    {
        match self.clocks.get(self.index_of(clock)) {
            Some(own) => *own == clock,
            None => false,
        }
    }

    /// Reserves room for one more clock. The clocks do not change.
    ///
    /// # Errors
    ///
    /// `NoMemory` if allocation fails.
    pub fn reserve(&mut self) -> Result<(), NoMemory>
        ensures clocks { self.new.clocks ≡ self.old.clocks }
        ensures room { OnOk result (0 < self.new.room) }
    {
        self.clocks.reserve(1)?;
        Ok(())
    }

    /// Adds a clock within the reserved room. Does not allocate.
    ///
    /// # Complexity
    ///
    /// O(1) if the clock is greater than all of them; otherwise O(n), where `n` is their number.
    pub fn keep(&mut self, clock: u32)
        requires room { 0 < self.old.room }
        ensures kept { (other : ℕ) → is_clock_in self.new other ≡ (nat_eq other clock || is_clock_in self.old other) }
    {
        let index = self.index_of(clock);
        let _ = self.clocks.insert(index, clock);
    }

    // Returns how many clocks are less than this one.
    fn index_of(&self, clock: u32) -> usize
        ensures { IsIndexFor self.now.clocks clock result }
    {
        match self.clocks.as_slice().last() {
            Some(last) if clock <= *last => self.clocks.as_slice().partition_point(
                |own: &u32| -> bool
                    ensures { result ≡ nat_lt own.now clock }
                { *own < clock },
            ),
            _ => self.clocks.len(),
        }
    }
}
