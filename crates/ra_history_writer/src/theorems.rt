//! The theorems about what is written, each the clause of a function with an empty body.
ghost use Rattle.std.specs.Prelude.{◌≡◌, ◌≤◌, ◌++◌, true, [], ℕ, List, length, None, reverse};
ghost use Rattle.std.specs.List.{AllByRecursion};
ghost use Rattle.ra_labels.specs.declared.kind.Kind.{Kind};
ghost use Rattle.ra_labels.specs.declared.command.Command.{Command};
ghost use Rattle.ra_labels.specs.Records.{Records, replica_count};
ghost use Rattle.ra_labels.specs.TheoremTerms.{is_join};
ghost use Rattle.ra_labels.specs.Answer.{refusal_of, records_after_all};
ghost use Rattle.ra_history_lines.specs.declared.format.Format.{Format};
ghost use Rattle.ra_history_lines.specs.declared.format.Format.TheVariants.{Rah2};
ghost use Rattle.ra_history_lines.specs.declared.limits.TheConstants.{MOST_COMMANDS};
ghost use Rattle.ra_history_lines.specs.Grammar.{AreNames, Spells, Says};
ghost use Rattle.ra_history_lines.specs.Names.{AreDistinctNames};
ghost use Rattle.ra_history_writer.specs.Spelling.{AreSmall, AreShort, HasLine, HasNewName, HaveLines, NameEach, line_of, text_of};

/// Theorem: the line that is written for a command encodes it. The command's replica has a name, the kind has words for
/// it, its numbers have 32 bits, and for a join a name of a later replica is left.
pub fn written_line_spells_command()
    ensures { (format : Format) (kind : Kind) (names later : List (List ℕ)) (command : Command) →
        AreDistinctNames (names ++ later) → HasLine format kind (length names) command → HasNewName later command →
        AreSmall command → Spells format kind names (line_of (names ++ later) command) command }
{}

/// Theorem: a text that is written for a history says that history. Each of its commands has a line of at most the
/// largest length, each replica has a name in the end, and those of the joined replicas come last.
pub fn written_text_says_history()
    ensures { (format : Format) (kind : Kind) (first joined : List (List ℕ)) (commands : List Command)
        (text : List ℕ) → AreNames format first → AreDistinctNames (first ++ joined) →
        NameEach kind first joined commands → HaveLines format kind (length first) [] commands →
        AreShort (first ++ joined) commands → AllByRecursion AreSmall commands → length commands ≤ MOST_COMMANDS →
        text ≡ text_of format kind first joined commands → Says text format kind first joined commands }
{}

/// Theorem: a command that the single-threaded monitor does not reject has a line, which for a join needs RAH 2.
pub fn accepted_command_has_line()
    ensures { (format : Format) (kind : Kind) (replicas : ℕ) (records : Records) (command : Command) →
        refusal_of kind replicas records command ≡ None → (is_join command ≡ true → format ≡ Rah2) →
        HasLine format kind (replica_count replicas records) command }
{}

/// Theorem: the records that commands lead to, given again as commands in their order, lead to the same records.
pub fn records_replay_accepted()
    ensures { (kind : Kind) (replicas : ℕ) (commands : List Command) (records : Records) →
        records ≡ records_after_all kind replicas [] commands →
        records_after_all kind replicas [] (reverse records) ≡ records }
{}
