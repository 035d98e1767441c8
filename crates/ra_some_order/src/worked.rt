//! Worked examples: small histories, and whether some sequence explains them.
ghost use Rattle.std.specs.Prelude.{◌≡◌, [], ◌∷◌};
ghost use Rattle.ra_labels.specs.declared.kind.Kind.TheVariants.{Register, LwwSet};
ghost use Rattle.ra_theorems.specs.AnyOrder.{NoneLinearizes};
ghost use Rattle.ra_some_order.specs.UpdateConditions.{precedence, conditions_of};
ghost use Rattle.ra_some_order.specs.SomeOrder.{SomeOrderExplains};
ghost use Rattle.ra_some_order.specs.Worked.{overwritten, read_of_nothing, two_of_one_value, three_reads, crossed};

/// Worked example: a write that sees another one overwrites it, whatever the clocks are. Reading the older value is
/// wrong in each order: the older write comes before the newer one, which the read needs before the older one.
pub fn an_overwritten_value_is_gone()
    ensures conditions { conditions_of (overwritten 9) ≡ precedence 0 1 ∷ precedence 0 1 ∷ [] }
    ensures newer { SomeOrderExplains Register (overwritten 9) }
    ensures contradicted { conditions_of (overwritten 7) ≡ precedence 1 0 ∷ precedence 0 1 ∷ [] }
    ensures older { NoneLinearizes Register (overwritten 7) }
{}

/// Worked example: a register with a visible write has a value, in each order.
pub fn a_written_register_has_a_value()
    ensures { NoneLinearizes Register read_of_nothing }
{}

/// Worked example: a value that two labels write allows a choice: one of them has to come after the write of the other
/// value. Of three reads no two contradict each other, and no order explains all three.
pub fn a_read_chooses_between_equal_writes()
    ensures conditions { conditions_of two_of_one_value
        ≡ record { before = 2 ∷ []; after = 1 ∷ 0 ∷ [] } ∷ precedence 0 2 ∷ [] }
    ensures chosen { SomeOrderExplains Register two_of_one_value }
    ensures none { NoneLinearizes Register three_reads }
{}

/// Worked example: the conditions of a set's elements meet in one order of all updates. Each of two elements alone can
/// be present, and both together cannot.
pub fn elements_share_one_order()
    ensures conditions { conditions_of (crossed (4 ∷ []))
        ≡ precedence 3 0 ∷ precedence 2 1 ∷ precedence 2 1 ∷ precedence 3 0 ∷ precedence 2 3 ∷ precedence 0 1 ∷ [] }
    ensures one { SomeOrderExplains LwwSet (crossed (4 ∷ [])) }
    ensures both { NoneLinearizes LwwSet (crossed (4 ∷ 5 ∷ [])) }
{}
