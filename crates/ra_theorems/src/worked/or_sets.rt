//! Worked examples: histories of an OR-Set, answered by evaluating the definitions.
ghost use Rattle.std.specs.Prelude.{◌≡◌, [], ◌∷◌};
ghost use Rattle.ra_labels.specs.declared.reply.Reply.TheVariants as reply;
ghost use Rattle.ra_labels.specs.declared.reply.Cause.TheVariants as cause;
ghost use Rattle.ra_labels.specs.declared.refusal.Refusal.TheVariants as refusal;
ghost use Rattle.ra_labels.specs.Rewriting.{Whole, QueryHalf, UpdateHalf};
ghost use Rattle.ra_theorems.specs.WorkedOrSets.{answers_of_or_set, or_set_parts, removed_and_added_again, removed_unseen, removed_by_both, one_of_two_removed, removed_with, an_identifier_taken, each_refusal_of_an_or_set};

/// Worked example: an element that is added again is present, although an earlier addition was removed.
pub fn what_is_added_again_is_in()
    ensures { answers_of_or_set removed_and_added_again
        ≡ reply.Ok 0 ∷ reply.Got 0 ∷ reply.Ok 1 ∷ reply.Ok 2 ∷ reply.Refused (refusal.NotCausal 0) ∷ reply.Got 0
        ∷ reply.Got 1 ∷ reply.Got 2 ∷ reply.Ok 3 ∷ reply.Yes 4 ∷ [] }
{}

/// Worked example: a removal that names an addition which was not delivered to its replica is a violation.
pub fn a_removal_asks_what_its_replica_had()
    ensures { answers_of_or_set removed_unseen
        ≡ reply.Ok 0 ∷ reply.No 1 cause.Query ∷ reply.No 1 cause.Query ∷ [] }
{}

/// Worked example: a removal has two parts, and its query half comes first.
pub fn a_removal_has_two_parts()
    ensures replies { answers_of_or_set removed_by_both
        ≡ reply.Ok 0 ∷ reply.Got 0 ∷ reply.Ok 1 ∷ reply.Ok 2 ∷ reply.Yes 3 ∷ [] }
    ensures parts { or_set_parts removed_by_both
        ≡ (0, Whole) ∷ (1, QueryHalf) ∷ (1, UpdateHalf) ∷ (2, QueryHalf) ∷ (2, UpdateHalf) ∷ [] }
{}

/// Worked example: a removal takes out the pairs that it names, and no other pair of its element.
pub fn a_removal_takes_out_what_it_names()
    ensures yes { answers_of_or_set (one_of_two_removed (4 ∷ 5 ∷ []))
        ≡ reply.Ok 0 ∷ reply.Ok 1 ∷ reply.Ok 2 ∷ reply.Got 0 ∷ reply.Got 1 ∷ reply.Ok 3 ∷ reply.Got 2 ∷ reply.Ok 4
        ∷ [] }
    ensures no { answers_of_or_set (one_of_two_removed (5 ∷ []))
        ≡ reply.Ok 0 ∷ reply.Ok 1 ∷ reply.Ok 2 ∷ reply.Got 0 ∷ reply.Got 1 ∷ reply.Ok 3 ∷ reply.Got 2
        ∷ reply.No 4 cause.Query ∷ [] }
{}

/// Worked example: a removal has to name exactly the identifiers that its element has.
pub fn a_removal_names_all_that_is_there()
    ensures all { answers_of_or_set (removed_with (1 ∷ 2 ∷ [])) ≡ reply.Ok 0 ∷ reply.Ok 1 ∷ reply.Ok 2 ∷ [] }
    ensures fewer { answers_of_or_set (removed_with (1 ∷ [])) ≡ reply.Ok 0 ∷ reply.Ok 1 ∷ reply.No 2 cause.Query ∷ [] }
    ensures more { answers_of_or_set (removed_with (1 ∷ 2 ∷ 3 ∷ []))
        ≡ reply.Ok 0 ∷ reply.Ok 1 ∷ reply.No 2 cause.Query ∷ [] }
{}

/// Worked example: a second addition with the same identifier is rejected, even if its element is another one.
pub fn a_taken_identifier_is_refused()
    ensures { answers_of_or_set an_identifier_taken
        ≡ reply.Ok 0 ∷ reply.Refused refusal.IdTaken ∷ reply.Ok 1 ∷ reply.Refused refusal.BadList ∷ reply.Yes 2 ∷ [] }
{}

/// Worked example: rejections in an OR-Set's history. If several reasons apply, the reply has the first one in the
/// fixed order. A removal is an update and is delivered.
pub fn each_refusal_of_an_or_set_in_its_order()
    ensures { answers_of_or_set each_refusal_of_an_or_set
        ≡ reply.Refused refusal.UnknownReplica ∷ reply.Refused refusal.WrongKind ∷ reply.Refused refusal.WrongKind
        ∷ reply.Refused refusal.BadList ∷ reply.Refused refusal.BadList ∷ reply.Refused refusal.StampUnwanted
        ∷ reply.Refused refusal.StampUnwanted ∷ reply.Ok 0 ∷ reply.Refused refusal.StampUnwanted
        ∷ reply.Refused refusal.IdTaken ∷ reply.Ok 1 ∷ reply.Ok 2 ∷ reply.Refused refusal.NotAnUpdate
        ∷ reply.Refused refusal.UnknownLabel ∷ reply.Got 1 ∷ reply.Refused refusal.AlreadySeen ∷ [] }
{}
