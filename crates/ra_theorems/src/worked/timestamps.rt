//! Worked examples: histories of a register and of an LWW set, answered by evaluating the definitions.
ghost use Rattle.std.specs.Prelude.{◌≡◌, [], ◌∷◌};
ghost use Rattle.ra_labels.specs.declared.reply.Reply.TheVariants as reply;
ghost use Rattle.ra_labels.specs.declared.reply.Cause.TheVariants as cause;
ghost use Rattle.ra_labels.specs.declared.refusal.Refusal.TheVariants as refusal;
ghost use Rattle.ra_theorems.specs.WorkedTimestamps.{answers_of_register, answers_of_set, register_order, set_order, a_late_stamp_read, equal_clocks_read, written_after_one_seen, clocks_that_fall, a_stamp_taken, each_refusal_of_a_register, each_refusal_of_a_set, removed_with_an_earlier_stamp, put_in_and_taken_out};

/// Worked example: a late write stands at the position of its stamp.
pub fn a_late_stamp_stands_by_its_stamp()
    ensures order { register_order (a_late_stamp_read 7) ≡ 1 ∷ 0 ∷ 2 ∷ [] }
    ensures yes { answers_of_register (a_late_stamp_read 7)
        ≡ reply.Ok 0 ∷ reply.Ok 1 ∷ reply.Got 0 ∷ reply.Got 1 ∷ reply.Ok 2 ∷ [] }
    ensures no { answers_of_register (a_late_stamp_read 9)
        ≡ reply.Ok 0 ∷ reply.Ok 1 ∷ reply.Got 0 ∷ reply.Got 1 ∷ reply.No 2 cause.Query ∷ [] }
{}

/// Worked example: the replica decides between equal clocks, and not the label number.
pub fn equal_clocks_are_decided_by_the_replica()
    ensures order { register_order (equal_clocks_read 9) ≡ 1 ∷ 0 ∷ 2 ∷ [] }
    ensures yes { answers_of_register (equal_clocks_read 9)
        ≡ reply.Ok 0 ∷ reply.Ok 1 ∷ reply.Got 0 ∷ reply.Got 1 ∷ reply.Ok 2 ∷ [] }
    ensures no { answers_of_register (equal_clocks_read 7)
        ≡ reply.Ok 0 ∷ reply.Ok 1 ∷ reply.Got 0 ∷ reply.Got 1 ∷ reply.No 2 cause.Query ∷ [] }
{}

/// Worked example: a write whose stamp is not greater than one that it saw is a violation of the order.
pub fn a_write_stands_behind_what_it_saw()
    ensures equal { answers_of_register (written_after_one_seen 5)
        ≡ reply.Ok 0 ∷ reply.Got 0 ∷ reply.Ok 1 ∷ reply.Yes 2 ∷ [] }
    ensures below { answers_of_register (written_after_one_seen 4)
        ≡ reply.Ok 0 ∷ reply.Got 0 ∷ reply.No 1 cause.Order ∷ reply.No 1 cause.Order ∷ [] }
    ensures own { answers_of_register clocks_that_fall
        ≡ reply.Ok 0 ∷ reply.No 1 cause.Order ∷ reply.No 1 cause.Order ∷ [] }
{}

/// Worked example: a stamp that a label has is rejected; the same clock at another replica is another stamp.
pub fn a_taken_stamp_is_refused()
    ensures { answers_of_register a_stamp_taken
        ≡ reply.Ok 0 ∷ reply.Refused refusal.StampTaken ∷ reply.Ok 1 ∷ reply.Yes 2 ∷ [] }
{}

/// Worked example: rejections of operations and deliveries in a register's history.
pub fn each_refusal_of_a_register_in_its_order()
    ensures { answers_of_register each_refusal_of_a_register
        ≡ reply.Refused refusal.UnknownReplica ∷ reply.Refused refusal.WrongKind ∷ reply.Refused refusal.WrongKind
        ∷ reply.Refused refusal.StampMissing ∷ reply.Refused refusal.StampMissing ∷ reply.Refused refusal.StampUnwanted
        ∷ reply.Ok 0 ∷ reply.Refused refusal.NotAnUpdate ∷ reply.Refused refusal.UnknownLabel ∷ reply.Ok 1
        ∷ reply.Refused refusal.AlreadySeen ∷ reply.Yes 2 ∷ [] }
{}

/// Worked example: rejections in an LWW set's history. If several reasons apply, the reply has the first one in the
/// fixed order.
pub fn each_refusal_of_a_set_in_its_order()
    ensures { answers_of_set each_refusal_of_a_set
        ≡ reply.Refused refusal.UnknownReplica ∷ reply.Refused refusal.WrongKind ∷ reply.Refused refusal.BadList
        ∷ reply.Refused refusal.BadList ∷ reply.Refused refusal.StampUnwanted ∷ reply.Ok 0
        ∷ reply.Refused refusal.StampMissing ∷ reply.Refused refusal.StampMissing ∷ reply.Ok 1
        ∷ reply.Refused refusal.StampTaken ∷ reply.Ok 2 ∷ reply.Ok 3 ∷ [] }
{}

/// Worked example: an element stays present if its removal has the smaller stamp. Removing an absent element changes
/// nothing.
pub fn the_last_writer_wins()
    ensures order { set_order (removed_with_an_earlier_stamp (4 ∷ [])) ≡ 1 ∷ 0 ∷ 3 ∷ 2 ∷ [] }
    ensures yes { answers_of_set (removed_with_an_earlier_stamp (4 ∷ []))
        ≡ reply.Ok 0 ∷ reply.Ok 1 ∷ reply.Ok 2 ∷ reply.Got 0 ∷ reply.Got 1 ∷ reply.Ok 3 ∷ reply.Yes 4 ∷ [] }
    ensures no { answers_of_set (removed_with_an_earlier_stamp [])
        ≡ reply.Ok 0 ∷ reply.Ok 1 ∷ reply.Ok 2 ∷ reply.Got 0 ∷ reply.Got 1 ∷ reply.No 3 cause.Query
        ∷ reply.No 3 cause.Query ∷ [] }
{}

/// Worked example: a read of a set lists each element that was added and not removed later, once.
pub fn a_set_is_read()
    ensures yes { answers_of_set (put_in_and_taken_out (4 ∷ []))
        ≡ reply.Ok 0 ∷ reply.Ok 1 ∷ reply.Ok 2 ∷ reply.Ok 3 ∷ reply.Ok 4 ∷ reply.Ok 5 ∷ [] }
    ensures no { answers_of_set (put_in_and_taken_out (4 ∷ 9 ∷ []))
        ≡ reply.Ok 0 ∷ reply.Ok 1 ∷ reply.Ok 2 ∷ reply.Ok 3 ∷ reply.Ok 4 ∷ reply.No 5 cause.Query ∷ [] }
{}
