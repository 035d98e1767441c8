//! Notes: the lines of a page whose words no clause states. The head of each is one of a few words, and its bytes are
//! printable.
ghost use Rattle.std.specs.Prelude.{◌≡◌, ◌++◌, OnOk};
ghost use Rattle.ra_explain_text.specs.Rows as rows;
ghost use Rattle.ra_explain_text.specs.Rows.{head_word, note_bytes, note_if, notes_bytes, printable};

use crate::layout::put_row;
use ra_labels::NoMemory;

/// The head of a note.
#[derive(Clone, Copy, Debug, PartialEq, Eq)]
pub enum Head {
    /// A further line of the note before.
    More,
    /// Where two lists differ.
    Differs,
    /// The elements that were reported at a difference.
    GotThere,
    /// The elements that are expected at a difference.
    ExpectedThere,
    /// What is expected and was not reported, or an element that no label inserts before.
    Missing,
    /// What was reported and is not expected.
    Unexpected,
    /// An update that the label sees.
    ItSees,
    /// What that update depends on.
    ButNot,
    /// A label that is seen with a greater clock.
    ButSees,
    /// The rule that is broken.
    Rule,
    /// An operation on the start of a list.
    NotPossible,
    /// Another insertion of the element.
    Duplicate,
    /// How many updates of a replica the label sees.
    Sees,
    /// An update that its replica lacks.
    NotDelivered,
    /// An element that a list's read leaves out.
    LeftOut,
    /// An element that a list's read shows and must not show.
    Shows,
    /// Elements that a list's read shows more than once.
    Repeats,
    /// An element that an operation of a list names and its replica has not received.
    Names,
    /// The edges of a cycle.
    Cycle,
    /// What would follow.
    So,
    /// An operation that would hold.
    Holds,
    /// An element of a cycle that is shown no more.
    Removed,
    /// Two elements that two lines show the other way round.
    Pairs,
    /// The first claim of those that show that no order explains the violation.
    Because,
    /// A further claim.
    And,
    /// Whether the labels of an RGA hold as those of a list.
    OneList,
    /// What a read can return so that some order explains it.
    Possible,
}

/// A line of a page: its head, and a text of printable bytes.
#[derive(Drop)]
pub struct Note {
    /// The head.
    pub head: Head,
    /// The text.
    pub text: Vec<u8>,
}

/// Adds a note with this text.
///
/// # Errors
///
/// `NoMemory` if an allocation fails.
pub fn add_note(notes: &mut Vec<Note>, head: Head, words: &str) -> Result<(), NoMemory> {
    let mut text = Vec::new(*notes.allocator());
    text.extend_from_slice(words.as_bytes())?;
    Ok(notes.push(Note { head, text })?)
}

/// Appends the notes, each on a line of its own, from the first with a word as its head on. Of a text with a byte that
/// is not printable the part before it is appended.
///
/// # Errors
///
/// `NoMemory` if an allocation fails.
pub fn put_notes(out: &mut Vec<u8>, notes: &[Note]) -> Result<(), NoMemory>
    // After success, a line of printable bytes for each note is appended. The first one has a word as its head.
    ensures { OnOk result (out.new.items ≡ out.old.items ++ notes_bytes notes.now) }
{
    let mut is_begun = false;
    for note in notes {
        let is_worded = has_word(note.head);
        is_begun = is_begun || is_worded;
        put_note_if(out, is_begun, note)?;
    }
    Ok(())
}

fn put_note_if(out: &mut Vec<u8>, is_begun: bool, note: &Note) -> Result<(), NoMemory>
    ensures { OnOk result (out.new.items ≡ out.old.items ++ note_if is_begun note.now) }
{
    if is_begun {
        put_note(out, note)
    } else {
        Ok(())
    }
}

fn put_note(out: &mut Vec<u8>, note: &Note) -> Result<(), NoMemory>
    ensures { OnOk result (out.new.items ≡ out.old.items ++ note_bytes note.now) }
{
    let mut text = Vec::new(*out.allocator());
    put_printable(&mut text, &note.text)?;
    put_row(out, word_of(note.head), &text)
}

/// Appends the bytes before the first that is not printable.
///
/// # Errors
///
/// `NoMemory` if an allocation fails.
pub fn put_printable(out: &mut Vec<u8>, text: &[u8]) -> Result<(), NoMemory>
    // After success, the bytes of the text before the first that is not printable are appended.
    ensures { OnOk result (out.new.items ≡ out.old.items ++ printable text.now) }
{
    for byte in text {
        if !is_printable(*byte) {
            return Ok(());
        }
        out.push(*byte)?;
    }
    Ok(())
}

fn is_printable(byte: u8) -> bool
    ensures { result ≡ rows.is_printable byte }
{
    b' ' <= byte && byte <= b'~'
}

// Returns `true` if the head is a word, and not that of a further line.
fn has_word(head: Head) -> bool
    ensures { result ≡ rows.has_word head }
{
    match head {
        Head::More => false,
        Head::Differs
        | Head::GotThere
        | Head::ExpectedThere
        | Head::Missing
        | Head::Unexpected
        | Head::ItSees
        | Head::ButNot
        | Head::ButSees
        | Head::Rule
        | Head::NotPossible
        | Head::Duplicate
        | Head::Sees
        | Head::NotDelivered
        | Head::LeftOut
        | Head::Shows
        | Head::Repeats
        | Head::Names
        | Head::Cycle
        | Head::So
        | Head::Holds
        | Head::Removed
        | Head::Pairs
        | Head::Because
        | Head::And
        | Head::OneList
        | Head::Possible => true,
    }
}

fn word_of(head: Head) -> &'static str
    ensures { result.now ≡ head_word head }
{
    match head {
        Head::More => "",
        Head::Differs => "differs",
        Head::GotThere => "got there",
        Head::ExpectedThere => "expected there",
        Head::Missing => "missing",
        Head::Unexpected => "unexpected",
        Head::ItSees => "it sees",
        Head::ButNot => "but not",
        Head::ButSees => "but sees",
        Head::Rule => "rule",
        Head::NotPossible => "not possible",
        Head::Duplicate => "duplicate",
        Head::Sees => "sees",
        Head::NotDelivered => "not delivered",
        Head::LeftOut => "left out",
        Head::Shows => "shows",
        Head::Repeats => "repeats",
        Head::Names => "names",
        Head::Cycle => "cycle",
        Head::So => "so",
        Head::Holds => "one that holds",
        Head::Removed => "removed",
        Head::Pairs => "pairs",
        Head::Because => "because",
        Head::And => "and",
        Head::OneList => "one list",
        Head::Possible => "possible",
    }
}
