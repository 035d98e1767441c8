//! The formats of a text.
ghost use Rattle.std.specs.Prelude.{◌≡◌};
ghost use Rattle.ra_history_lines.specs.Grammar as grammar;

use crate::limits::{MOST_NAMES, MOST_NAMES_IN_RAH_1};

/// The format of a text, as its first line names it.
#[derive(Clone, Copy, Debug, PartialEq, Eq)]
pub enum Format {
    /// `RAH 1`: at most 16 replicas, all of them initial.
    Rah1,
    /// `RAH 2`: at most 64 replicas, of which some may join later.
    Rah2,
}

impl Format {
    /// Returns the prefix of the first line, including the space before the kind's word.
    pub fn word(self) -> &'static str
        // The result is the prefix of a first line of this format, as the grammar states it.
        ensures { result.now ≡ grammar.format_word self }
    {
        match self {
            Format::Rah1 => "RAH 1 ",
            Format::Rah2 => "RAH 2 ",
        }
    }

    /// Returns the largest number of names that a second line may list.
    pub fn most_names(self) -> usize
        // The result is the largest number of names that the grammar allows in this format: 16 in RAH 1, 64 in RAH 2.
        ensures { result ≡ grammar.most_names self }
    {
        match self {
            Format::Rah1 => MOST_NAMES_IN_RAH_1,
            Format::Rah2 => MOST_NAMES,
        }
    }
}
