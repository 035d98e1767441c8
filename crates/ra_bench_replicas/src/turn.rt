//! The turn by which a replica chooses its update.
ghost use Rattle.std.specs.Prelude.{◌≡◌};
ghost use Rattle.ra_bench_replicas.specs.Turn.{own_number, shared_element, is_even, counts_up, takes_out};

/// A round of one replica.
#[derive(Clone, Copy)]
pub struct Turn {
    /// The round's number, from 0.
    pub round: u32,
    /// The replica's number, from 0.
    pub replica: u8,
    /// The number of replicas.
    pub replicas: u8,
}

impl Turn {
    /// Returns the number of the turn: turns are numbered from 1, by round and then by replica. Numbers saturate at the
    /// largest one; below it they are unique among the replicas of a run.
    pub fn own_number(self) -> u32
        ensures { result ≡ own_number self }
    {
        let before = self.round.saturating_mul(self.replicas as u32);
        before.saturating_add(self.replica as u32 + 1)
    }

    /// Returns an element that other turns name too: one of eight.
    pub fn shared_element(self) -> u32
        ensures { result ≡ shared_element self }
    {
        self.own_number() % 8
    }

    /// Returns `true` if the round's number is even.
    pub fn is_even(self) -> bool
        ensures { result ≡ is_even self.round }
    {
        self.round % 2 == 0
    }

    /// Returns `true` if a counter's update is an increment.
    pub fn counts_up(self) -> bool
        ensures { result ≡ counts_up self }
    {
        self.is_even() == (self.replica % 2 == 0)
    }

    /// Returns `true` if an element is to be removed, if there is one: in every third round.
    pub fn takes_out(self) -> bool
        ensures { result ≡ takes_out self }
    {
        self.round % 3 == 2
    }
}
