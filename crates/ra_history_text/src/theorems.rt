//! The theorems about the definitions of a text, each the clause of a function with an empty body.
ghost use Rattle.std.specs.Prelude.{◌≡◌, ◌++◌, ◌↔◌, true, ℕ, List, Some};
ghost use Rattle.ra_labels.specs.declared.kind.Kind.{Kind};
ghost use Rattle.ra_labels.specs.declared.command.Command.{Command};
ghost use Rattle.ra_history_lines.specs.declared.format.Format.{Format};
ghost use Rattle.ra_history_lines.specs.Grammar.{Says};
ghost use Rattle.ra_history_lines.specs.Fields.{BeginsWith};
ghost use Rattle.ra_history_text.specs.TheoremTerms.{IsOfReader, GrowsByPart, GrowsByReplies, AnswersEach};
ghost use Rattle.ra_history_text.specs.Output.{replies_of, output_of};
ghost use Rattle.ra_history_text.specs.Run.{StopsCheck};
ghost use Rattle.ra_history_text.specs.Endings.{HasSyntaxFault, IsTruncated, HasLongLine, HasCommandTooMany};
ghost use Rattle.ra_history_text.specs.Text.{Said, OfHistory, Regular, Syntax, Truncated, LineTooLong, Full};
ghost use Rattle.ra_history_text.specs.Text.{ending_of, said_by, does_not_stop};
ghost use Rattle.ra_history_text.specs.declared.fault.CheckFault.{CheckFault};
ghost use Rattle.ra_history_text.specs.declared.fault.CheckFault.TheVariants.{NoMemory};
ghost use Rattle.ra_history_text.specs.declared.limits.TheConstants.{MOST_READS, PIECE};

/// Theorem: the limits are 4,294,967,296 reads of a check and 4,096 bytes of a read.
pub fn limits()
    ensures reads { MOST_READS ≡ 4294967296 }
    ensures piece { PIECE ≡ 4096 }
{}

/// Theorem: a text has a regular end and says a history if and only if it consists of that history's first line, a line
/// of its initial names, and one line for each command that encodes it. The commands are at most 1,048,576.
pub fn regular_text_iff_lines()
    ensures { (text : List ℕ) (format : Format) (kind : Kind) (first joined : List (List ℕ))
        (commands : List Command) →
        ((ending_of text ≡ Regular) × (said_by text ≡ OfHistory format kind first joined commands))
        ↔ Says text format kind first joined commands }
{}

/// Theorem: a text with a regular end says a history.
pub fn regular_text_says_history()
    ensures { (text : List ℕ) → ending_of text ≡ Regular →
        (format : Format) × (kind : Kind) × (first : List (List ℕ)) × (joined : List (List ℕ))
        × (commands : List Command) × (said_by text ≡ OfHistory format kind first joined commands) }
{}

/// Theorem: the replies to a prefix that does not stop are a prefix of the output of the text.
pub fn prefix_output_is_prefix()
    ensures { (front behind : List ℕ) → does_not_stop front ≡ true →
        BeginsWith (replies_of (said_by front)) (output_of (front ++ behind)) }
{}

/// Theorem: after `Read` and `Endless`, each whole line that was read is answered: one reply line was written for each
/// line feed that was read, except those of the first two lines.
pub fn lines_read_are_answered()
    ensures { (text left old new : List ℕ) (fault : CheckFault) → IsOfReader fault →
        StopsCheck text (Some left) (Some old) (Some new) fault →
        (read : List ℕ) × (text ≡ read ++ left) × AnswersEach read old new }
{}

/// Theorem: whatever error stops the check of a text with a regular end, a proper prefix of its output was written.
pub fn stopped_output_is_proper_prefix()
    ensures { (text left old new : List ℕ) (fault : CheckFault) → ending_of text ≡ Regular →
        StopsCheck text (Some left) (Some old) (Some new) fault → GrowsByPart old new (output_of text) }
{}

/// Theorem: after `NoMemory`, only whole reply lines were written.
pub fn no_memory_leaves_whole_lines()
    ensures { (text left old new : List ℕ) → StopsCheck text (Some left) (Some old) (Some new) NoMemory →
        GrowsByReplies old new }
{}

/// Theorem: a text has a syntax fault if and only if, after whole lines that begin a history, a whole line encodes
/// nothing that may follow. The fault carries the number of that line, and the text says what the lines before it say.
pub fn syntax_iff_line_spells_nothing()
    ensures { (text : List ℕ) (said : Said) (number : ℕ) →
        ((ending_of text ≡ Syntax number) × (said_by text ≡ said)) ↔ HasSyntaxFault text said number }
{}

/// Theorem: a text is truncated if and only if, after whole lines that begin a history, it ends inside a line or before
/// its first two lines are whole.
pub fn truncated_iff_ends_early()
    ensures { (text : List ℕ) (said : Said) (number : ℕ) →
        ((ending_of text ≡ Truncated number) × (said_by text ≡ said)) ↔ IsTruncated text said number }
{}

/// Theorem: a line is too long if and only if it follows whole lines that begin a history, and 1,048,577 of its bytes
/// come before any line feed.
pub fn too_long_iff_line_exceeds_limit()
    ensures { (text : List ℕ) (said : Said) (number : ℕ) →
        ((ending_of text ≡ LineTooLong number) × (said_by text ≡ said)) ↔ HasLongLine text said number }
{}

/// Theorem: a text is full if and only if, after the lines of the largest number of commands, a whole line encodes
/// another command.
pub fn full_iff_too_many_commands()
    ensures { (text : List ℕ) (said : Said) (number : ℕ) →
        ((ending_of text ≡ Full number) × (said_by text ≡ said)) ↔ HasCommandTooMany text said number }
{}
