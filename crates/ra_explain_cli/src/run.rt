//! The program as a function of its arguments and its streams.
ghost use Rattle.std.specs.Prelude.{◌≡◌, ◌≢◌, None, Some};
ghost use Rattle.ra_cli_arguments.specs.Arguments.{stop_words};
ghost use Rattle.ra_cli_common.specs.Endings.{StopsProgram};
ghost use Rattle.ra_explain_cli.specs.declared.asked.Form.{Form};
ghost use Rattle.ra_explain_cli.specs.Asked.{form_asked_by};
ghost use Rattle.ra_explain_cli.specs.Explained.{ExplainsText};

use crate::asked::form_asked_by;
use crate::explain::explain;
use ra_cli_arguments::Words;
use ra_cli_common::{Console, Ending, stop_unasked};
use std::alloc::Global;
use std::io::{Read, Write};

/// Runs the program with the arguments after its name.
///
/// `explain` explains the text that the reader provides on `out`: as a plain page, with `--json` as one JSON object,
/// with `--svg` as a drawing, with `--html` as a document, and with `--sequence` by the sequence that linearizes it.
/// The line of an error is written on `err`. For other arguments it writes the line `usage` on `err`, or `no memory` if
/// they could not be read for lack of memory.
pub fn run<R: Read, W: Write, E: Write>(
    alloc: Global,
    words: &Words,
    console: &mut Console<R, W, E>,
) -> Ending
    // For arguments that ask for no explanation, nothing is read.
    ensures unread { form_asked_by words.now ≡ None → console.new.reader ≡ console.old.reader }
    // For arguments that ask for no explanation, nothing is written on `out`.
    ensures unwritten { form_asked_by words.now ≡ None → console.new.out ≡ console.old.out }
    // For arguments that ask for no explanation, the status is 2, and `err` received the line `usage`, or `no memory`,
    // if the ending says that it was written.
    ensures usage { form_asked_by words.now ≡ None →
        StopsProgram result (E.contents console.old.err) (E.contents console.new.err) (stop_words words.now) }
    // For the arguments of a form, the contract of `explain` holds: the text is checked and explained, with the status
    // of its check.
    ensures explained { (form : Form) → form_asked_by words.now ≡ Some form →
        ExplainsText form result (R.remaining console.old.reader) (R.remaining console.new.reader)
        (W.contents console.old.out) (W.contents console.new.out)
        (E.contents console.old.err) (E.contents console.new.err) }
    // For the arguments of a form, nothing is written on `err` unless the status is 2.
    ensures silent { (form : Form) → form_asked_by words.now ≡ Some form → result.status ≢ 2 →
        console.new.err ≡ console.old.err }
{
    let Console { reader, out, err } = console;
    match form_asked_by(words) {
        Some(form) => explain(alloc, form, reader, out, err),
        None => stop_unasked(words, err),
    }
}
