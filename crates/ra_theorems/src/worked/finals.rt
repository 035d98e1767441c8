//! Worked examples of violations: two that no order explains, of a counter and of an OR-Set, and one of a register that
//! another order explains. A last one is a sequence that respects visibility but not the order at each replica.
ghost use Rattle.std.specs.Prelude.{◌≡◌, ◌==◌, true, [], take, reverse, Some};
ghost use Rattle.ra_labels.specs.declared.kind.Kind.TheVariants.{Counter, Register, OrSet};
ghost use Rattle.ra_labels.specs.declared.reply.Cause.TheVariants.{Order, Query};
ghost use Rattle.ra_labels.specs.Records.{records_to};
ghost use Rattle.ra_labels.specs.Linearization.{parts_in, is_visible_to, IsRaLinearizationBy, IsRaLinearization};
ghost use Rattle.ra_labels.specs.Fault.{fault_of, fault_at};
ghost use Rattle.ra_labels.specs.Answer.{records_after_all};
ghost use Rattle.ra_theorems.specs.AnyOrder.{IsOrderOf, NoneLinearizes, IsFinal};
ghost use Rattle.ra_theorems.specs.Worked.{records_of_three, nothing_was_delivered, read_and_incremented, two_increments};
ghost use Rattle.ra_theorems.specs.WorkedOrSets.{removed_unseen};
ghost use Rattle.ra_theorems.specs.WorkedTimestamps.{records_that_fall};

/// Worked example: no sequence explains a read that counts an increment which was not delivered to its replica.
pub fn no_order_explains_what_was_read_too_soon()
    ensures no { fault_of Counter (records_of_three nothing_was_delivered) ≡ Some (fault_at 1 Query) }
    ensures none { NoneLinearizes Counter (records_to (records_of_three nothing_was_delivered) 1) }
{}

/// Worked example: no sequence explains a removal of an identifier that was not delivered to its replica.
pub fn no_order_explains_what_was_removed_too_soon()
    ensures no { fault_of OrSet (records_after_all OrSet 3 [] removed_unseen) ≡ Some (fault_at 1 Query) }
    ensures none { NoneLinearizes OrSet (records_to (records_after_all OrSet 3 [] removed_unseen) 1) }
{}

/// Worked example: a register whose clocks decrease has a violation of the order, and the reverse of its parts' list is
/// an RA-linearization. The violation is not final.
pub fn another_order_explains_clocks_that_fall()
    ensures no { fault_of Register records_that_fall ≡ Some (fault_at 1 Order) }
    ensures other { IsRaLinearization Register records_that_fall (reverse (parts_in records_that_fall)) }
    ensures not_final { ¬ (IsFinal Register records_that_fall 1) }
{}

/// Worked example: by visibility alone, an increment may stand before an earlier read of its replica that does not see
/// it. An RA-linearization does not allow this.
pub fn visibility_leaves_a_read_and_a_later_increment_free()
    ensures one_by_visibility { IsRaLinearizationBy (is_visible_to read_and_incremented) Counter
        read_and_incremented (parts_in read_and_incremented) }
    ensures none_by_the_replicas_order { ¬ (IsRaLinearization Counter read_and_incremented
        (parts_in read_and_incremented)) }
{}

/// Worked example: two increments that do not see each other may stand in either order. If only one label passes the
/// test, its update alone is an order of the updates that pass.
pub fn two_unseen_increments_stand_in_either_order()
    ensures newest_first { IsOrderOf two_increments (λ n. true) (parts_in two_increments) }
    ensures oldest_first { IsOrderOf two_increments (λ n. true) (reverse (parts_in two_increments)) }
    ensures first_alone { IsOrderOf two_increments (λ n. n == 0) (take 1 (reverse (parts_in two_increments))) }
{}
