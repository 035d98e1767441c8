//! A parser of a text, line by line.
ghost use Rattle.std.specs.Prelude.{◌≡◌, true, IfOk, IfErr, OnOk, OnErr, IsErrOf, string_bytes};
ghost use Rattle.ra_history_lines.specs.Grammar.{is_name, new_name};
ghost use Rattle.ra_labels.specs.TheoremTerms.{is_join};
ghost use Rattle.ra_history_lines.specs.Lines.{Gives, SpellsItem, IsItemOf, HasNames, names_in, with_name};
ghost use Rattle.ra_history_lines.specs.Names.{StopsAdding};
ghost use Rattle.ra_history_lines.specs.declared.fault.LineFault.TheVariants.{Syntax};
ghost use Rattle.ra_history_lines.specs.declared.reading.Item.{Item};
ghost use Rattle.ra_history_lines.specs.declared.reading.Header.{Header};
ghost use Rattle.ra_history_lines.specs.declared.reading.Header.TheVariants.{Nothing, OfKind, OfNames};
ghost use Rattle.ra_history_lines.specs.declared.reading.Item.TheVariants.{NamesLine};

use crate::command::{command, new_name};
use crate::fault::{LineFault, NamesFault};
use crate::format::Format;
use crate::kind_line::head_of;
use crate::limits::LONGEST_LINE;
use crate::name::Names;
use ra_labels::{Command, Kind, NoMemory};
use std::alloc::Global;
use std::marker::Model;

/// What a line of a text encodes.
#[derive(Debug, PartialEq, Eq, Drop)]
pub enum Item {
    /// The first line: the kind of the history.
    KindLine(Kind),
    /// The second line: the number of names that it lists.
    NamesLine(u8),
    /// A later line that is not a join: a command.
    CommandLine(Command),
    /// A later line that is a join: the command, and the name of the new replica.
    JoinLine {
        /// The join.
        command: Command,
        /// The new name.
        name: String,
    },
}

/// What the lines before the commands said, as far as they were read.
#[derive(Drop)]
pub enum Header {
    /// Nothing: the first line comes next.
    Nothing,
    /// The format and the kind: the line of the names comes next.
    OfKind(Format, Kind),
    /// The format, the kind and the names: commands come next.
    OfNames(Format, Kind, Names),
}

/// A text of which some lines were read. Contracts view it as what its first two lines said.
#[derive(Drop)]
pub struct Reading {
    alloc: Global,
    header: Header,
}

impl Model for Reading {
    ghost use Rattle.ra_history_lines.specs.declared.reading.Header.{Header};

    ghost Value = { Header };

    ghost view = { λ reading. reading.header };
}

impl Reading {
    /// Creates the reading of a text of which no line was read. Does not allocate.
    pub fn new(alloc: Global) -> Reading
        // The new reading has read no line.
        ensures { result ≡ Nothing }
    {
        Reading {
            alloc,
            header: Header::Nothing,
        }
    }

    /// Reads the next line, which is given without its line feed, and returns what it encodes. A join leaves the names
    /// unchanged until its name is added by `add`.
    ///
    /// # Errors
    ///
    /// `Syntax` if the line encodes nothing that may come next, or has more than 1,048,576 bytes; `NoMemory` if an
    /// allocation fails. On an error the reading is unchanged.
    ///
    /// # Complexity
    ///
    /// O(length of the line). Only names and lists allocate.
    pub fn line(&mut self, line: &[u8]) -> Result<Item, LineFault>
        // The result is the item that the line encodes at this point of a text, and the reading then has the names and
        // the kind read so far. The line has at most 1,048,576 bytes.
        ensures gives { IfOk result (λ item. Gives self.old line.now item self.new) }
        // `Syntax` is returned only if the line encodes nothing that may come at this point, or is too long.
        ensures syntax { IsErrOf result Syntax → (item : Item) (next : Header) → Gives self.old line.now item next → ⊥ }
        // After an error, the reading is unchanged.
        ensures err { OnErr result (self.new ≡ self.old) }
    {
        if line.len() > LONGEST_LINE {
            return Err(LineFault::Syntax);
        }
        self.header.take_line(self.alloc, line)
    }

    /// Adds the name of a replica whose join was accepted.
    ///
    /// # Errors
    ///
    /// `BadName` with the index 0 if the name is malformed, reserved or present; otherwise `BadCount` if there are 64;
    /// otherwise `NoMemory` if an allocation fails. On an error the reading is unchanged.
    ///
    /// # Complexity
    ///
    /// O(length of the name).
    pub fn add(&mut self, name: &str) -> Result<(), NamesFault>
        // Both lines before the commands were read.
        requires { HasNames self.old }
        // After success the reading has this name behind the former ones, and nothing else changed.
        ensures added { OnOk result (self.new ≡ with_name self.old name.now) }
        // `BadName(0)` is returned only for an invalid or repeated name, and `BadCount` only for a valid new name at 64
        // names. `NoMemory` is returned only for a name that may be added.
        ensures fault { IfErr result (StopsAdding (names_in self.old) name.now) }
        // After an error, the reading is unchanged.
        ensures err { OnErr result (self.new ≡ self.old) }
    {
        match &mut self.header {
            Header::OfNames(_, _, names) => names.add(name.as_bytes()),
            Header::Nothing | Header::OfKind(_, _) => Ok(()),
        }
    }
}

impl Header {
    // Reads a line of at most the largest length.
    fn take_line(&mut self, alloc: Global, line: &[u8]) -> Result<Item, LineFault>
        ensures gives { IfOk result (λ item. SpellsItem self.old line.now item self.new) }
        ensures syntax { IsErrOf result Syntax → (item : Item) (next : Header) →
            SpellsItem self.old line.now item next → ⊥ }
        ensures err { OnErr result (self.new ≡ self.old) }
    {
        match self {
            Header::Nothing => self.take_head(line),
            Header::OfKind(format, kind) => {
                match names_line(alloc, *format, *kind, line) {
                    Ok((header, count)) => {
                        *self = header;
                        Ok(Item::NamesLine(count))
                    }
                    Err(fault) => Err(fault),
                }
            }
            Header::OfNames(format, kind, names) => {
                command_line(alloc, *format, *kind, names, line)
            }
        }
    }

    // Reads the first line.
    fn take_head(&mut self, line: &[u8]) -> Result<Item, LineFault>
        requires { self.old ≡ Nothing }
        ensures gives { IfOk result (λ item. SpellsItem Nothing line.now item self.new) }
        ensures syntax { IsErrOf result Syntax → (item : Item) (next : Header) →
            SpellsItem Nothing line.now item next → ⊥ }
        ensures err { OnErr result (self.new ≡ self.old) }
    {
        let Some((format, kind)) = head_of(line) else {
            return Err(LineFault::Syntax);
        };
        *self = Header::OfKind(format, kind);
        Ok(Item::KindLine(kind))
    }
}

// Returns the header after a second line, and the number of names that it lists.
fn names_line(
    alloc: Global,
    format: Format,
    kind: Kind,
    line: &[u8],
) -> Result<(Header, u8), LineFault>
    ensures gives { IfOk result (λ read. SpellsItem (OfKind format kind) line.now (NamesLine read.1) read.0) }
    ensures syntax { IsErrOf result Syntax → (item : Item) (next : Header) →
        SpellsItem (OfKind format kind) line.now item next → ⊥ }
{
    match Names::read(alloc, format, line) {
        Ok(names) => {
            let count = names.count();
            Ok((Header::OfNames(format, kind, names), count))
        }
        Err(fault) => Err(fault),
    }
}

// Returns the item of a line after the names.
fn command_line(
    alloc: Global,
    format: Format,
    kind: Kind,
    names: &Names,
    line: &[u8],
) -> Result<Item, LineFault>
    ensures gives { IfOk result (λ item. SpellsItem (OfNames format kind names.now) line.now item
        (OfNames format kind names.now)) }
    ensures syntax { IsErrOf result Syntax → (item : Item) (next : Header) →
        SpellsItem (OfNames format kind names.now) line.now item next → ⊥ }
{
    match command(alloc, format, kind, names, line) {
        Ok(Some(command)) => match item_of(alloc, command, line) {
            Ok(item) => Ok(item),
            Err(_) => Err(LineFault::NoMemory),
        },
        Ok(None) => Err(LineFault::Syntax),
        Err(_) => Err(LineFault::NoMemory),
    }
}

// Returns the item of a line that encodes the command.
fn item_of(alloc: Global, command: Command, line: &[u8]) -> Result<Item, NoMemory>
    requires { is_join command ≡ true → is_name (new_name line.now) ≡ true }
    ensures { IfOk result (IsItemOf command line.now) }
{
    match command {
        Command::Join { .. } => {
            match text_of(alloc, new_name(line)) {
                Ok(name) => Ok(Item::JoinLine { command, name }),
                Err(refused) => Err(refused),
            }
        }
        Command::Operate { .. } | Command::Deliver { .. } | Command::Verdict => {
            Ok(Item::CommandLine(command))
        }
    }
}

fn text_of(alloc: Global, name: &[u8]) -> Result<String, NoMemory>
    requires { is_name name.now ≡ true }
    ensures { IfOk result (λ text. string_bytes text ≡ name.now) }
{
    // A name is ASCII letters and digits.
    let text = str::from_utf8(name).unwrap();
    Ok(String::from_str(alloc, text)?)
}
