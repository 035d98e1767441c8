//! The theorems about the definitions of lines, each the clause of a function with an empty body.
ghost use Rattle.std.specs.Prelude.{◌≡◌, ◌↔◌, ◌≤◌, true, false, ℕ, List, Option, Some, decimal, length};
ghost use Rattle.ra_labels.specs.declared.kind.Kind.{Kind};
ghost use Rattle.ra_labels.specs.declared.command.Command.{Command};
ghost use Rattle.ra_labels.specs.declared.reply.Fault.{Fault};
ghost use Rattle.ra_labels.specs.declared.reply.Reply.{Reply};
ghost use Rattle.ra_labels.specs.TheoremTerms.{is_join};
ghost use Rattle.ra_history_lines.specs.Grammar.{kind_word, first_line, fields_of};
ghost use Rattle.ra_history_lines.specs.Grammar.{IsSmall, ListsNames, Spells, IsAtNamedReplica, NameAlike};
ghost use Rattle.ra_history_lines.specs.Names.{MayJoin, StopsAdding};
ghost use Rattle.ra_history_lines.specs.Reading.{head_read, kind_named, names_read, number_read, command_read};
ghost use Rattle.ra_history_lines.specs.Replies.{reply_line, end_line};
ghost use Rattle.ra_history_lines.specs.declared.fault.NamesFault.{NamesFault};
ghost use Rattle.ra_history_lines.specs.declared.fault.NamesFault.TheVariants.{NoMemory};
ghost use Rattle.ra_history_lines.specs.declared.format.Format.{Format};
ghost use Rattle.ra_history_lines.specs.declared.format.Format.TheVariants.{Rah1, Rah2};
ghost use Rattle.ra_history_lines.specs.declared.limits.TheConstants.{MOST_COMMANDS, LONGEST_LINE, MOST_NAMES, MOST_NAMES_IN_RAH_1, LONGEST_NAME};

/// Theorem: the limits are 1,048,576 bytes of a line, 1,048,576 commands of a text, 64 replicas, 16 in `RAH 1`, and 16
/// bytes of a name.
pub fn limits()
    ensures line { LONGEST_LINE ≡ 1048576 }
    ensures commands { MOST_COMMANDS ≡ 1048576 }
    ensures names { MOST_NAMES ≡ 64 }
    ensures older { MOST_NAMES_IN_RAH_1 ≡ 16 }
    ensures name { LONGEST_NAME ≡ 16 }
{}

/// Theorem: a word is read as a kind if and only if it is that kind's word.
pub fn kind_word_read_iff()
    ensures { (kind : Kind) (word : List ℕ) → (kind_named word ≡ Some kind) ↔ (word ≡ kind_word kind) }
{}

/// Theorem: a field is read as a number if and only if the number has 32 bits and the field is its decimal digits.
pub fn number_read_iff()
    ensures { (n : ℕ) (field : List ℕ) → (number_read field ≡ Some n) ↔ ((field ≡ decimal n) × IsSmall n) }
{}

/// Theorem: a line is read as a format and a kind if and only if it is their first line.
pub fn first_line_read_iff()
    ensures { (format : Format) (kind : Kind) (line : List ℕ) →
        (head_read line ≡ Some (format, kind)) ↔ (line ≡ first_line format kind) }
{}

/// Theorem: names are read from a second line if and only if it lists them.
pub fn names_line_read_iff()
    ensures { (format : Format) (names : List (List ℕ)) (line : List ℕ) →
        (names_read format line ≡ Some names) ↔ ListsNames format line names }
{}

/// Theorem: a word may follow at most 64 names if and only if no fault other than lack of memory prevents it; and at
/// most one fault prevents it.
pub fn name_added_iff()
    ensures added { (names : List (List ℕ)) (word : List ℕ) → length names ≤ MOST_NAMES
        → MayJoin Rah2 names word ↔ ((fault : NamesFault) → StopsAdding names word fault → fault ≡ NoMemory) }
    ensures one { (names : List (List ℕ)) (word : List ℕ) (fault other : NamesFault)
        → StopsAdding names word fault → StopsAdding names word other → fault ≡ other }
{}

/// Theorem: a command is read from a line if and only if the line encodes it.
pub fn command_line_read_iff()
    ensures { (format : Format) (kind : Kind) (names : List (List ℕ)) (line : List ℕ) (command : Command) →
        (command_read format kind names (fields_of line) ≡ Some command) ↔ Spells format kind names line command }
{}

/// Theorem: in a history of one kind with the same names, a line encodes at most one command.
pub fn line_spells_unique_command()
    ensures { (format : Format) (kind : Kind) (names : List (List ℕ)) (line : List ℕ) (one other : Command) →
        Spells format kind names line one → Spells format kind names line other → one ≡ other }
{}

/// Theorem: in a history of one kind with the same names, at most one line encodes a command at a named replica; of a
/// join from a named replica, at most one line for each new name. (All valid names of no replica are read as the same
/// number.)
pub fn command_spelling_unique()
    ensures { (format : Format) (kind : Kind) (names : List (List ℕ)) (line other : List ℕ) (command : Command) →
        IsAtNamedReplica names command → Spells format kind names line command →
        Spells format kind names other command → NameAlike command line other → line ≡ other }
{}

/// Theorem: the lines of `RAH 1` are those of `RAH 2` without joins, and its lists of names are those of `RAH 2` that
/// have at most 16.
pub fn rah1_is_rah2_without_joins()
    ensures others { (kind : Kind) (names : List (List ℕ)) (line : List ℕ) (command : Command) →
        is_join command ≡ false → Spells Rah1 kind names line command ↔ Spells Rah2 kind names line command }
    ensures joins { (kind : Kind) (names : List (List ℕ)) (line : List ℕ) (command : Command) →
        is_join command ≡ true → Spells Rah1 kind names line command → ⊥ }
    ensures names { (line : List ℕ) (names : List (List ℕ)) →
        ListsNames Rah1 line names ↔ (ListsNames Rah2 line names × (length names ≤ MOST_NAMES_IN_RAH_1)) }
{}

/// Theorem: no reply line is an end line.
pub fn reply_line_ne_end_line()
    ensures { (reply : Reply) (labels : ℕ) (fault : Option Fault) → reply_line reply ≡ end_line labels fault → ⊥ }
{}
