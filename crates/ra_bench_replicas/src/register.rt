ghost use Rattle.std.specs.Prelude.{◌≡◌, true, option_map, None};
ghost use Rattle.ra_labels.specs.declared.operation.Op.TheVariants.{Last};
ghost use Rattle.ra_labels.specs.declared.kind.Kind.TheVariants as kind;
ghost use Rattle.ra_labels.specs.Answer.{kind_of, has_rising_list};
ghost use Rattle.ra_bench_replicas.specs.Turn.{is_of_turn};

use crate::turn::Turn;
use ra_labels::{Op, Stamp};

/// A register: the value with the greatest stamp, if there is one.
#[derive(Drop)]
pub struct Register {
    last: Option<LastWrite>,
}

#[derive(Clone, Copy)]
struct LastWrite {
    value: u32,
    stamp: Stamp,
}

impl Register {
    /// Creates the register without a value.
    pub fn new() -> Register
        ensures { result.last ≡ None }
    {
        Register { last: None }
    }

    /// Returns its update of this round: a write of a value of its own.
    pub fn update(&self, turn: Turn) -> Op
        ensures kind { kind_of result ≡ kind.Register }
        ensures rising { has_rising_list result ≡ true }
        ensures turn { is_of_turn turn result ≡ true }
    {
        Op::Write(turn.own_number())
    }

    /// Returns the read with the value.
    pub fn read(&self) -> Op
        ensures { result ≡ Last (option_map (λ last. last.value) self.now.last) }
    {
        match self.last {
            Some(last) => Op::Last(Some(last.value)),
            None => Op::Last(None),
        }
    }

    // Returns `true` if there is a value with a greater stamp.
    fn has_above(&self, stamp: Stamp) -> bool {
        match self.last {
            Some(last) => stamp < last.stamp,
            None => false,
        }
    }

    /// Applies a write of the value with this stamp.
    pub fn write(&mut self, value: u32, stamp: Stamp) {
        if !self.has_above(stamp) {
            self.last = Some(LastWrite { value, stamp });
        }
    }
}
