//! Worked examples: small histories of a counter, answered by evaluating the definitions.
ghost use Rattle.std.specs.Prelude.{◌≡◌, true, false, [], ◌∷◌, Some, None};
ghost use Rattle.ra_labels.specs.declared.kind.Kind.TheVariants.{Counter};
ghost use Rattle.ra_labels.specs.declared.operation.Update.TheVariants as update;
ghost use Rattle.ra_labels.specs.declared.reply.Reply.TheVariants as reply;
ghost use Rattle.ra_labels.specs.declared.reply.Cause.TheVariants as cause;
ghost use Rattle.ra_labels.specs.declared.refusal.Refusal.TheVariants as refusal;
ghost use Rattle.ra_labels.specs.Linearization.{must_precede, extends_visibility};
ghost use Rattle.ra_labels.specs.NamedOrder.{named_sequence};
ghost use Rattle.ra_labels.specs.Fault.{fault_of, fault_at};
ghost use Rattle.ra_theorems.specs.Worked.{answers_of_three, records_of_three, seen_by, answers_of_two, delivered_and_read, delivered_out_of_causal_order, two_are_missing, delivered_to_one, two_reads, read_numbered, the_query_half, the_update_half, the_increment, the_read, nothing_was_delivered, only_verdicts, nothing_to_count, each_counts_what_it_had, stamped_and_unknown, each_refusal};

pub mod finals;
pub mod joins;
pub mod or_sets;
pub mod rgas;
pub mod timestamps;

/// Worked example: a read counts an increment that was delivered to its replica.
pub fn delivered_and_read_holds()
    ensures replies { answers_of_three delivered_and_read ≡ reply.Ok 0 ∷ reply.Got 0 ∷ reply.Ok 1 ∷ reply.Yes 2 ∷ [] }
    ensures sequence { named_sequence Counter (records_of_three delivered_and_read) ≡ the_increment ∷ the_read ∷ [] }
    ensures fault { fault_of Counter (records_of_three delivered_and_read) ≡ None }
{}

/// Worked example: the delivery of an update is rejected while an update that it saw is missing.
pub fn delivered_out_of_causal_order_is_refused()
    ensures { answers_of_three delivered_out_of_causal_order
        ≡ reply.Ok 0 ∷ reply.Got 0 ∷ reply.Ok 1 ∷ reply.Refused (refusal.NotCausal 0) ∷ reply.Got 0 ∷ reply.Got 1
        ∷ reply.Ok 2 ∷ [] }
{}

/// Worked example: if several updates are missing, the rejection names the smallest label.
pub fn two_are_missing_and_the_least_is_named()
    ensures { answers_of_three two_are_missing
        ≡ reply.Ok 0 ∷ reply.Ok 1 ∷ reply.Got 1 ∷ reply.Ok 2 ∷ reply.Refused (refusal.NotCausal 0) ∷ reply.Got 0
        ∷ reply.Refused (refusal.NotCausal 1) ∷ reply.Got 1 ∷ reply.Got 2 ∷ [] }
{}

/// Worked example: a delivery to one replica is not a delivery to another one.
pub fn delivered_to_one_holds()
    ensures { answers_of_three delivered_to_one ≡ reply.Ok 0 ∷ reply.Got 0 ∷ reply.Ok 1 ∷ reply.Ok 2 ∷ [] }
{}

/// Worked example: an update must precede a read that sees it.
pub fn a_seen_update_stands_before()
    ensures must { must_precede (records_of_three delivered_and_read) the_increment the_read ≡ true }
    ensures kept { extends_visibility (records_of_three delivered_and_read) (the_increment ∷ the_read ∷ []) ≡ true }
    ensures broken { extends_visibility (records_of_three delivered_and_read) (the_read ∷ the_increment ∷ []) ≡ false }
{}

/// Worked example: a label must precede a later one of its replica, even if neither sees the other.
pub fn an_earlier_label_stands_before()
    ensures must { must_precede (records_of_three two_reads) (read_numbered 0) (read_numbered 1) ≡ true }
    ensures kept { extends_visibility (records_of_three two_reads) (read_numbered 0 ∷ read_numbered 1 ∷ []) ≡ true }
    ensures broken { extends_visibility (records_of_three two_reads) (read_numbered 1 ∷ read_numbered 0 ∷ []) ≡ false }
{}

/// Worked example: a query half must precede the update half of its label.
pub fn a_query_half_stands_before()
    ensures must { must_precede [] the_query_half the_update_half ≡ true }
    ensures kept { extends_visibility [] (the_query_half ∷ the_update_half ∷ []) ≡ true }
    ensures broken { extends_visibility [] (the_update_half ∷ the_query_half ∷ []) ≡ false }
{}

/// Worked example: a read that counts an increment which was not delivered is a violation. No later command is
/// accepted.
pub fn nothing_was_delivered_fails()
    ensures replies { answers_of_three nothing_was_delivered
        ≡ reply.Ok 0 ∷ reply.No 1 cause.Query ∷ reply.No 1 cause.Query ∷ reply.No 1 cause.Query ∷ [] }
    ensures fault { fault_of Counter (records_of_three nothing_was_delivered) ≡ Some (fault_at 1 cause.Query) }
{}

/// Worked example: verdicts on a history without labels pass.
pub fn only_verdicts_hold()
    ensures { answers_of_three only_verdicts ≡ reply.Yes 0 ∷ reply.Yes 0 ∷ [] }
{}

/// Worked example: the first label can be a violation.
pub fn nothing_to_count_fails()
    ensures { answers_of_three nothing_to_count ≡ reply.No 0 cause.Query ∷ [] }
{}

/// Worked example: a read counts the updates delivered to its replica, not all updates of the history.
pub fn each_counts_what_it_had_holds()
    ensures replies { answers_of_three each_counts_what_it_had
        ≡ reply.Ok 0 ∷ reply.Ok 1 ∷ reply.Ok 2 ∷ reply.Got 1 ∷ reply.Ok 3 ∷ [] }
    ensures own { seen_by each_counts_what_it_had 2 ≡ update.Dec ∷ [] }
    ensures both { seen_by each_counts_what_it_had 3 ≡ update.Inc ∷ update.Dec ∷ [] }
{}

/// Worked example: an operation of a counter with a clock is rejected, and so is one of an unknown replica.
pub fn stamped_and_unknown_are_refused()
    ensures { answers_of_two stamped_and_unknown
        ≡ reply.Refused refusal.StampUnwanted ∷ reply.Refused refusal.UnknownReplica ∷ [] }
{}

/// Worked example: rejections of operations and deliveries in a counter's history. If several reasons apply, the reply
/// has the first one in the fixed order.
pub fn each_refusal_in_its_order()
    ensures { answers_of_two each_refusal
        ≡ reply.Refused refusal.UnknownReplica ∷ reply.Refused refusal.StampUnwanted
        ∷ reply.Refused refusal.UnknownReplica ∷ reply.Refused refusal.UnknownLabel
        ∷ reply.Ok 0 ∷ reply.Ok 1 ∷ reply.Ok 2 ∷ reply.Refused refusal.NotAnUpdate
        ∷ reply.Refused refusal.AlreadySeen ∷ reply.Refused (refusal.NotCausal 0) ∷ reply.Got 0
        ∷ reply.Refused refusal.AlreadySeen ∷ reply.Got 2 ∷ reply.Refused refusal.UnknownLabel ∷ reply.Yes 3 ∷ [] }
{}
