ghost use Rattle.std.specs.Prelude.{◌≡◌, true, pos, ◌+ℤ◌, ◌-ℤ◌};
ghost use Rattle.std.specs.Int.{w32, saturate_signed};
ghost use Rattle.ra_labels.specs.declared.operation.Op.TheVariants.{Count};
ghost use Rattle.ra_labels.specs.declared.kind.Kind.TheVariants as kind;
ghost use Rattle.ra_labels.specs.Answer.{kind_of, has_rising_list};
ghost use Rattle.ra_bench_replicas.specs.Turn.{is_of_turn};

use crate::turn::Turn;
use ra_labels::Op;

/// A counter: a number.
#[derive(Drop)]
pub struct Counter {
    number: i32,
}

impl Counter {
    /// Creates the counter with the number 0.
    pub fn new() -> Counter
        ensures { result.number ≡ pos 0 }
    {
        Counter { number: 0 }
    }

    /// Returns its update of this round: an increment or a decrement.
    pub fn update(&self, turn: Turn) -> Op
        ensures kind { kind_of result ≡ kind.Counter }
        ensures rising { has_rising_list result ≡ true }
        ensures turn { is_of_turn turn result ≡ true }
    {
        if turn.counts_up() { Op::Inc } else { Op::Dec }
    }

    /// Returns the read with the number.
    pub fn read(&self) -> Op
        ensures { result ≡ Count self.now.number }
    {
        Op::Count(self.number)
    }

    /// Adds one.
    pub fn increase(&mut self)
        ensures { self.new.number ≡ saturate_signed w32 (self.old.number +ℤ pos 1) }
    {
        self.number = self.number.saturating_add(1);
    }

    /// Subtracts one.
    pub fn decrease(&mut self)
        ensures { self.new.number ≡ saturate_signed w32 (self.old.number -ℤ pos 1) }
    {
        self.number = self.number.saturating_sub(1);
    }
}
