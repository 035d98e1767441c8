//! Worked examples: histories in which replicas join, answered by evaluating the definitions.
ghost use Rattle.std.specs.Prelude.{◌≡◌, [], ◌∷◌};
ghost use Rattle.ra_labels.specs.declared.command.Command.TheVariants.{Join};
ghost use Rattle.ra_labels.specs.declared.reply.Reply.TheVariants as reply;
ghost use Rattle.ra_labels.specs.declared.reply.Cause.TheVariants as cause;
ghost use Rattle.ra_labels.specs.declared.refusal.Refusal.TheVariants as refusal;
ghost use Rattle.ra_theorems.specs.WorkedJoins.{answers_of_a_and_b, answers_of_sixty_three, answers_of_sixty_four, answers_of_one_or_set, joined_and_read, joined_out_of_turn, joined_before_any_label, joined_and_apart, joined_after_a_no, joined_and_removed};

/// Worked example: a new replica reads the updates that it joined with, and their later delivery is rejected.
pub fn what_it_joined_with_is_read()
    ensures { answers_of_a_and_b joined_and_read
        ≡ reply.Ok 0 ∷ reply.Joined 2 ∷ reply.Ok 1 ∷ reply.Refused refusal.ReplicaThere
        ∷ reply.Refused refusal.UnknownReplica ∷ reply.Refused refusal.AlreadySeen ∷ reply.Ok 2 ∷ [] }
{}

/// Worked example: a join has to name an existing source and the next number. The replies show the order of the reasons
/// to reject one.
pub fn a_join_makes_the_next_replica()
    ensures { answers_of_a_and_b joined_out_of_turn
        ≡ reply.Refused refusal.UnknownReplica ∷ reply.Refused refusal.UnknownReplica
        ∷ reply.Refused refusal.ReplicaThere ∷ reply.Joined 2 ∷ [] }
{}

/// Worked example: replicas may join before there is any label, and from replicas that joined.
pub fn replicas_join_before_any_label()
    ensures { answers_of_a_and_b joined_before_any_label
        ≡ reply.Joined 2 ∷ reply.Joined 3 ∷ reply.Ok 0 ∷ reply.Got 0 ∷ reply.Ok 1 ∷ reply.Ok 2 ∷ reply.Got 0
        ∷ reply.Ok 3 ∷ [] }
{}

/// Worked example: a label of a replica that joined sees the updates that it joined with, but not those that its source
/// made later.
pub fn a_joined_replica_goes_its_own_way()
    ensures { answers_of_a_and_b joined_and_apart
        ≡ reply.Ok 0 ∷ reply.Joined 2 ∷ reply.Ok 1 ∷ reply.Ok 2 ∷ reply.Ok 3 ∷ reply.Ok 4
        ∷ reply.Refused (refusal.NotCausal 0) ∷ reply.Got 0 ∷ reply.Got 4 ∷ reply.Ok 5 ∷ [] }
{}

/// Worked example: after a violation no join is accepted.
pub fn nobody_joins_after_a_no()
    ensures { answers_of_a_and_b joined_after_a_no
        ≡ reply.No 0 cause.Query ∷ reply.No 0 cause.Query ∷ reply.No 0 cause.Query ∷ [] }
{}

/// Worked example: a sixty-fourth replica may join, but not a sixty-fifth.
pub fn no_more_than_sixty_four_join()
    ensures last { answers_of_sixty_three (Join 63 62 ∷ Join 64 0 ∷ [])
        ≡ reply.Joined 63 ∷ reply.Refused refusal.TooManyReplicas ∷ [] }
    ensures more { answers_of_sixty_four (Join 64 0 ∷ Join 64 64 ∷ Join 3 0 ∷ [])
        ≡ reply.Refused refusal.TooManyReplicas ∷ reply.Refused refusal.UnknownReplica
        ∷ reply.Refused refusal.ReplicaThere ∷ [] }
{}

/// Worked example: a replica that joined removes an element that it joined with.
pub fn what_it_joined_with_is_taken_out()
    ensures { answers_of_one_or_set joined_and_removed
        ≡ reply.Ok 0 ∷ reply.Joined 1 ∷ reply.Ok 1 ∷ reply.Ok 2 ∷ [] }
{}
