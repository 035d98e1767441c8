//! The parser of a text's first line, and the words of the kinds.
ghost use Rattle.std.specs.Prelude.{◌≡◌, IfSome, Some};
ghost use Rattle.ra_labels.specs.declared.kind.Kind.{Kind};
ghost use Rattle.ra_history_lines.specs.declared.format.Format.{Format};
ghost use Rattle.ra_history_lines.specs.Grammar as grammar;
ghost use Rattle.ra_history_lines.specs.Grammar.{first_line};
ghost use Rattle.ra_history_lines.specs.Reading.{head_read, kind_read, kind_named};

use crate::format::Format;
use crate::word::is_word;
use ra_labels::Kind;

/// Returns the format and the kind that a first line names, or `None` if the line is malformed.
pub fn head_of(line: &[u8]) -> Option<(Format, Kind)>
    // The result is the format and the kind that the definition of reading computes from the line.
    ensures read { result ≡ head_read line.now }
    // A result is the format and the kind of this very line.
    ensures found { IfSome result (λ head. line.now ≡ first_line head.0 head.1) }
    // If the line is the first line of a format and a kind, the result is these.
    ensures only { (format : Format) (kind : Kind) → line.now ≡ first_line format kind →
        result ≡ Some (format, kind) }
{
    if let Some(kind) = kind_of(Format::Rah1, line) {
        return Some((Format::Rah1, kind));
    }
    match kind_of(Format::Rah2, line) {
        Some(kind) => Some((Format::Rah2, kind)),
        None => None,
    }
}

// Returns the kind that a first line of this format names.
fn kind_of(format: Format, line: &[u8]) -> Option<Kind>
    ensures { result ≡ kind_read format line.now }
{
    match line.strip_prefix(format.word().as_bytes()) {
        Some(word) => kind_of_word(word),
        None => None,
    }
}

/// Returns the kind that this word names, or `None` if it names none.
pub fn kind_of_word(word: &[u8]) -> Option<Kind>
    // The result is the kind whose word this is, or `None` if there is none.
    ensures { result ≡ kind_named word.now }
{
    if is_word(word, "counter") {
        Some(Kind::Counter)
    } else if is_word(word, "register") {
        Some(Kind::Register)
    } else if is_word(word, "lwwset") {
        Some(Kind::LwwSet)
    } else if is_word(word, "orset") {
        Some(Kind::OrSet)
    } else if is_word(word, "rga") {
        Some(Kind::Rga)
    } else if is_word(word, "list") {
        Some(Kind::List)
    } else if is_word(word, "any") {
        Some(Kind::Any)
    } else if is_word(word, "mvregister") {
        Some(Kind::MvRegister)
    } else {
        None
    }
}

/// Returns the word that names the kind.
pub fn kind_word(kind: Kind) -> &'static str
    // The result is the word of the kind in the grammar.
    ensures { result.now ≡ grammar.kind_word kind }
{
    match kind {
        Kind::Counter => "counter",
        Kind::Register => "register",
        Kind::LwwSet => "lwwset",
        Kind::OrSet => "orset",
        Kind::Rga => "rga",
        Kind::List => "list",
        Kind::Any => "any",
        Kind::MvRegister => "mvregister",
    }
}
