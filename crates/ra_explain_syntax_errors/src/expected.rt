//! What is valid in a field.
use ra_history_lines::Format;
use ra_labels::Kind;

/// What a field that cannot be parsed has to be.
#[derive(Clone, Copy)]
pub enum Expected {
    /// The word with which a text begins.
    FirstWord,
    /// The number of the format.
    FormatNumber,
    /// The word of a kind.
    KindWord,
    /// The word with which the second line begins.
    SecondWord,
    /// The name of one more replica.
    NewName,
    /// The first word of a command in this format.
    CommandWord(Format),
    /// The name of a replica.
    Name,
    /// The word of a delivery or of an operation of this kind.
    Act(Kind),
    /// A label.
    Label,
    /// A number.
    Number,
    /// The result of a counter's read.
    Signed,
    /// The result of a register's read.
    Value,
    /// The result of the read of a set or a list.
    List,
    /// The identifier of an addition.
    Identifier,
    /// The identifiers of a removal.
    Identifiers,
    /// A clock.
    Clock,
    /// The end of the line.
    End,
}

impl Expected {
    /// Returns the words for it.
    pub fn words(self) -> &'static str {
        match self {
            Expected::FirstWord => "RAH: the first line is RAH 1 or RAH 2, and a kind",
            Expected::FormatNumber => "1 or 2, the version of the format",
            Expected::KindWord =>
                "a kind: counter, register, lwwset, orset, rga, list, any or mvregister",
            Expected::SecondWord =>
                "replicas: the second line is this word and the replicas' names",
            Expected::NewName => {
                "a new name: a letter a to z, then up to 15 letters or digits; not verdict or join"
            }
            Expected::CommandWord(Format::Rah1) => {
                "the name of a replica, or verdict; only RAH 2 has join"
            }
            Expected::CommandWord(Format::Rah2) => "the name of a replica, or verdict, or join",
            Expected::Name => {
                "a name: a letter a to z, then up to 15 letters or digits; not verdict or join"
            }
            Expected::Act(kind) => operations_of(kind),
            Expected::End => "the end of the line",
            _ => self.words_of_numbers(),
        }
    }

    fn words_of_numbers(self) -> &'static str {
        match self {
            Expected::Signed => "a number from -2147483648 to 2147483647, without a leading zero",
            Expected::Value => "none, or a number without a leading zero, at most 4294967295",
            Expected::List => {
                "- for none, or numbers and commas, as 0,4: each at most 4294967295, no leading zero"
            }
            Expected::Identifier => {
                "# and a number, as #1, at most #4294967295, without a leading zero"
            }
            Expected::Identifiers => {
                "# and increasing numbers, as #1,2, or #- for none: each at most 4294967295"
            }
            Expected::Clock => {
                "a clock: @ and a number, as @1, at most @4294967295, without a leading zero"
            }
            Expected::Label =>
                "a label: a number that ok gave, at most 4294967295, without a leading zero",
            _ => "a number, as values and elements are: at most 4294967295, without a leading zero",
        }
    }
}

fn operations_of(kind: Kind) -> &'static str {
    match kind {
        Kind::Counter => "got, or an operation: inc, dec, read",
        Kind::Register => "got, or an operation: write, read",
        Kind::LwwSet | Kind::OrSet => "got, or an operation: add, remove, read",
        Kind::Rga => "got, or an operation: after, remove, read",
        Kind::List => "got, or an operation: insert, remove, read, part",
        Kind::Any => "got, or an operation: update, read",
        Kind::MvRegister => "got, or an operation: write, read",
    }
}
