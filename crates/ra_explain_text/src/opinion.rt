//! Whether another order explains a violation: a line of the text, and members of the JSON object.
ghost use Rattle.std.specs.Prelude.{◌≡◌, ◌++◌, OnOk};
ghost use Rattle.ra_explain_text.specs.Opinions as words;
ghost use Rattle.ra_explain_text.specs.Opinions.{opinion_row, opinion_text};

use crate::layout::{put, put_row};
use crate::quotes::{put_line, put_line_number};
use ra_another_order::{Answer, SecondOpinion};
use ra_history_lines::number::{put_number, put_numbered};
use ra_labels::NoMemory;

/// Appends a line that says whether another order explains this violating label, if that is known.
///
/// # Errors
///
/// `NoMemory` if an allocation fails.
pub fn put_opinion(
    out: &mut Vec<u8>,
    label: u32,
    opinion: &Option<SecondOpinion>,
) -> Result<(), NoMemory>
    ensures { OnOk result (out.new.items ≡ out.old.items ++ opinion_row label opinion.now) }
{
    match opinion {
        Some(opinion) => put_opinion_row(out, label, opinion),
        None => Ok(()),
    }
}

fn put_opinion_row(out: &mut Vec<u8>, label: u32, opinion: &SecondOpinion) -> Result<(), NoMemory>
    ensures { OnOk result (out.new.items ≡ out.old.items ++ words.known_row label opinion.now) }
{
    let mut text = Vec::new(*out.allocator());
    put_answer(&mut text, label, opinion)?;
    put_row(out, "other orders", &text)
}

fn put_answer(text: &mut Vec<u8>, label: u32, opinion: &SecondOpinion) -> Result<(), NoMemory>
    ensures { OnOk result (text.new.items ≡ text.old.items
        ++ words.answer_words label opinion.now.extent opinion.now.answer) }
{
    match &opinion.answer {
        Answer::Exists(_) => put_explained(text, opinion.extent.stop),
        Answer::NoneExists(_) => put(text, unexplained(label, opinion.extent.explained)),
    }
}

fn put_explained(text: &mut Vec<u8>, stop: Option<u32>) -> Result<(), NoMemory>
    ensures { OnOk result (text.new.items ≡ text.old.items ++ words.explained_words stop) }
{
    match stop {
        None => put(
            text,
            "one explains all labels: suspect a clock, a tie-break or a misreported delivery",
        ),
        Some(place) => {
            put(
                text,
                "one explains the labels up to here, but none explains those up to ",
            )?;
            put_line(text, place)
        }
    }
}

// Returns what to say of a label that no order explains with those before it, by the length of the longest prefix that
// one explains.
fn unexplained(label: u32, explained: u32) -> &'static str
    ensures { result.now ≡ words.unexplained_words label explained }
{
    if label < explained {
        "none explains the labels up to here: a later line inserts an element they need"
    } else {
        "none explains the labels up to here, whatever the clocks are"
    }
}

/// Appends the members of a JSON object that say whether another order explains the violation, if that is known.
///
/// # Errors
///
/// `NoMemory` if an allocation fails.
pub fn put_opinion_members(
    out: &mut Vec<u8>,
    opinion: &Option<SecondOpinion>,
) -> Result<(), NoMemory>
    ensures { OnOk result (out.new.items ≡ out.old.items ++ opinion_text opinion.now) }
{
    match opinion {
        Some(opinion) => put_members(out, opinion),
        None => Ok(()),
    }
}

fn put_members(out: &mut Vec<u8>, opinion: &SecondOpinion) -> Result<(), NoMemory>
    ensures { OnOk result (out.new.items ≡ out.old.items ++ words.opinion_members opinion.now) }
{
    put(out, ",\"another_order\":")?;
    put(out, truth(&opinion.answer))?;
    put(out, ",\"explained_up_to\":")?;
    put_last(out, opinion.extent.explained)?;
    put(out, ",\"unexplained_line\":")?;
    put_stop(out, opinion.extent.stop)
}

fn truth(answer: &Answer) -> &'static str
    ensures { result.now ≡ words.truth answer.now }
{
    match answer {
        Answer::Exists(_) => "true",
        Answer::NoneExists(_) => "false",
    }
}

// Appends the last label of a prefix of this length, or null if it is empty.
fn put_last(out: &mut Vec<u8>, count: u32) -> Result<(), NoMemory>
    ensures { OnOk result (out.new.items ≡ out.old.items ++ words.last_value count) }
{
    if count == 0 {
        put(out, "null")
    } else {
        put_number(out, count - 1)
    }
}

// Appends the number of the line at this index of the log, or null if there is none.
fn put_stop(out: &mut Vec<u8>, stop: Option<u32>) -> Result<(), NoMemory>
    ensures { OnOk result (out.new.items ≡ out.old.items ++ words.stop_value stop) }
{
    match stop {
        Some(place) => put_line_number(out, place),
        None => put(out, "null"),
    }
}
