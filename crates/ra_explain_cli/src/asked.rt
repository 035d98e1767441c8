//! The command-line arguments.
ghost use Rattle.std.specs.Prelude.{◌≡◌, map, string_bytes};
ghost use Rattle.ra_explain_cli.specs.Asked as asked;
ghost use Rattle.ra_explain_cli.specs.Asked.{form_named};

use ra_cli_arguments::Words;

/// The form of an explanation.
#[derive(Clone, Copy, Debug, PartialEq, Eq)]
pub enum Form {
    /// A page of plain text.
    Page,
    /// One JSON object.
    Json,
    /// A drawing in SVG.
    Svg,
    /// An HTML document with text and drawing.
    Html,
    /// The sequence alone that linearizes the history.
    Sequence,
}

/// Returns the form that the arguments after the program's name ask for, or `None` for any other arguments: `explain`
/// alone, or with `--json`, `--svg`, `--html` or `--sequence`.
pub fn form_of(words: &[String]) -> Option<Form>
    // The result is the form that the table of arguments assigns to these arguments, or `None`.
    ensures { result ≡ form_named (map string_bytes words.now) }
{
    match words {
        [word] => asked_by_one(word.as_str()),
        [word, option] => asked_by_two(word.as_str(), option.as_str()),
        _ => None,
    }
}

/// Returns the form that the arguments ask for, as `form_of` does, or `None` if they could not be read.
pub fn form_asked_by(words: &Words) -> Option<Form>
    // The result is the form that the table of arguments assigns to these arguments, or `None`.
    ensures { result ≡ asked.form_asked_by words.now }
{
    match words {
        Ok(words) => form_of(words),
        Err(_) => None,
    }
}

fn asked_by_one(word: &str) -> Option<Form>
    ensures { result ≡ asked.asked_by_one word.now }
{
    if word == "explain" {
        Some(Form::Page)
    } else {
        None
    }
}

fn asked_by_two(word: &str, option: &str) -> Option<Form>
    ensures { result ≡ asked.asked_by_two word.now option.now }
{
    if word != "explain" {
        None
    } else {
        form_of_option(option)
    }
}

fn form_of_option(option: &str) -> Option<Form>
    ensures { result ≡ asked.form_of_option option.now }
{
    if option == "--json" {
        Some(Form::Json)
    } else if option == "--svg" {
        Some(Form::Svg)
    } else if option == "--html" {
        Some(Form::Html)
    } else if option == "--sequence" {
        Some(Form::Sequence)
    } else {
        None
    }
}
