//! Worked examples: histories of an RGA, answered by evaluating the definitions.
ghost use Rattle.std.specs.Prelude.{◌≡◌, [], ◌∷◌};
ghost use Rattle.ra_labels.specs.declared.command.Command.TheVariants.{Deliver};
ghost use Rattle.ra_labels.specs.declared.reply.Reply.TheVariants as reply;
ghost use Rattle.ra_labels.specs.declared.reply.Cause.TheVariants as cause;
ghost use Rattle.ra_labels.specs.declared.refusal.Refusal.TheVariants as refusal;
ghost use Rattle.ra_theorems.specs.WorkedRgas.{answers_of_rga, rga_order, three_behind_one, put_in_twice, an_anchor_got_late, read_before_the_anchor, an_anchor_later_in_the_order, removed_before_it_stands, a_stamp_that_falls_and_no_anchor, the_root_removed, behind_a_removed_one, removed_twice_and_put_in_again, removed_ungot, c_reads_2, each_refusal_of_an_rga};

/// Worked example: elements with the same anchor stand by decreasing stamps, and a read has to list them in this order.
pub fn the_later_stamp_stands_nearer()
    ensures order { rga_order (three_behind_one (2 ∷ 3 ∷ 1 ∷ [])) ≡ 0 ∷ 2 ∷ 1 ∷ 3 ∷ [] }
    ensures yes { answers_of_rga (three_behind_one (2 ∷ 3 ∷ 1 ∷ []))
        ≡ reply.Ok 0 ∷ reply.Got 0 ∷ reply.Ok 1 ∷ reply.Ok 2 ∷ reply.Got 0 ∷ reply.Got 1 ∷ reply.Got 2 ∷ reply.Ok 3
        ∷ [] }
    ensures no { answers_of_rga (three_behind_one (1 ∷ 2 ∷ 3 ∷ []))
        ≡ reply.Ok 0 ∷ reply.Got 0 ∷ reply.Ok 1 ∷ reply.Ok 2 ∷ reply.Got 0 ∷ reply.Got 1 ∷ reply.Got 2
        ∷ reply.No 3 cause.Query ∷ [] }
{}

/// Worked example: a second insertion of an element is a violation, even if it stands earlier in the order.
pub fn an_element_is_put_in_once()
    ensures { answers_of_rga put_in_twice
        ≡ reply.Ok 0 ∷ reply.No 1 cause.Update ∷ reply.No 1 cause.Update ∷ [] }
{}

/// Worked example: a replica may receive an element before its anchor. It cannot answer a read until the anchor is
/// delivered.
pub fn an_anchor_may_come_late()
    ensures yes { answers_of_rga an_anchor_got_late
        ≡ reply.Ok 0 ∷ reply.Ok 1 ∷ reply.Got 1 ∷ reply.Got 0 ∷ reply.Ok 2 ∷ reply.Yes 3 ∷ [] }
    ensures no { answers_of_rga read_before_the_anchor
        ≡ reply.Ok 0 ∷ reply.Ok 1 ∷ reply.Got 1 ∷ reply.No 2 cause.Query ∷ reply.No 2 cause.Query ∷ [] }
{}

/// Worked example: an update that stands before the insertion that it depends on is not admitted.
pub fn updates_stand_on_earlier_ones()
    ensures anchor { answers_of_rga an_anchor_later_in_the_order
        ≡ reply.Ok 0 ∷ reply.No 1 cause.Update ∷ reply.No 1 cause.Update ∷ [] }
    ensures element { answers_of_rga removed_before_it_stands
        ≡ reply.Ok 0 ∷ reply.No 1 cause.Update ∷ reply.No 1 cause.Update ∷ [] }
{}

/// Worked example: if both the order and the updates fail, the reply names the order.
pub fn a_fault_of_the_order_is_told_first()
    ensures { answers_of_rga a_stamp_that_falls_and_no_anchor ≡ reply.Ok 0 ∷ reply.No 1 cause.Order ∷ [] }
{}

/// Worked example: a removal of the root is a violation.
pub fn the_root_stays()
    ensures { answers_of_rga the_root_removed ≡ reply.No 0 cause.Update ∷ reply.No 0 cause.Update ∷ [] }
{}

/// Worked example: a removed element can be an anchor.
pub fn a_removed_element_is_an_anchor()
    ensures { answers_of_rga behind_a_removed_one
        ≡ reply.Ok 0 ∷ reply.Ok 1 ∷ reply.Got 0 ∷ reply.Ok 2 ∷ reply.Got 0 ∷ reply.Got 1 ∷ reply.Got 2 ∷ reply.Ok 3
        ∷ reply.Yes 4 ∷ [] }
{}

/// Worked example: an element can be removed twice, and cannot be inserted again.
pub fn removed_elements_stay_removed()
    ensures { answers_of_rga removed_twice_and_put_in_again
        ≡ reply.Ok 0 ∷ reply.Ok 1 ∷ reply.Ok 2 ∷ reply.Ok 3 ∷ reply.No 4 cause.Update ∷ reply.No 4 cause.Update ∷ [] }
{}

/// Worked example: a removal stands behind the greatest stamp that it sees, and so behind an element that its replica
/// has not received. A replica to which the removal, but not the element, was delivered cannot answer a read until it
/// receives the element.
pub fn a_removal_stands_by_what_it_saw()
    ensures order { rga_order (removed_ungot []) ≡ 0 ∷ 1 ∷ 2 ∷ [] }
    ensures before { answers_of_rga (removed_ungot (c_reads_2 ∷ []))
        ≡ reply.Ok 0 ∷ reply.Ok 1 ∷ reply.Ok 2 ∷ reply.Got 1 ∷ reply.Got 2 ∷ reply.No 3 cause.Query ∷ [] }
    ensures after { answers_of_rga (removed_ungot (Deliver 2 0 ∷ c_reads_2 ∷ []))
        ≡ reply.Ok 0 ∷ reply.Ok 1 ∷ reply.Ok 2 ∷ reply.Got 1 ∷ reply.Got 2 ∷ reply.Got 0 ∷ reply.Ok 3 ∷ [] }
{}

/// Worked example: rejections in an RGA's history. If several reasons apply, the reply has the first one in the fixed
/// order. The list of a read need not be increasing.
pub fn each_refusal_of_an_rga_in_its_order()
    ensures { answers_of_rga each_refusal_of_an_rga
        ≡ reply.Refused refusal.UnknownReplica ∷ reply.Refused refusal.WrongKind ∷ reply.Refused refusal.WrongKind
        ∷ reply.Refused refusal.StampMissing ∷ reply.Refused refusal.StampMissing ∷ reply.Refused refusal.StampUnwanted
        ∷ reply.Refused refusal.StampUnwanted ∷ reply.Ok 0 ∷ reply.Refused refusal.StampTaken ∷ reply.Ok 1
        ∷ reply.Ok 2 ∷ reply.Refused refusal.NotAnUpdate ∷ [] }
{}
