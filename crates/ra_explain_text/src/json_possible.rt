//! The member of the JSON object that says what a read can return so that some order explains it.
ghost use Rattle.std.specs.Prelude.{◌≡◌, ◌++◌, OnOk};
ghost use Rattle.ra_explain_text.specs.Possible as possible;
ghost use Rattle.ra_explain_text.specs.Possible.{possible_text};

use crate::json_certificate::put_listed;
use crate::layout::{put, put_size};
use ra_another_order::{PossibleAnswers, PossibleValues};
use ra_any_order::PossibleElements;
use ra_labels::NoMemory;
use ra_rga_precedence::NearestList;

/// Appends the member with what the violating read can return, if that is known.
///
/// # Errors
///
/// `NoMemory` if an allocation fails.
pub fn put_possible(out: &mut Vec<u8>, answers: &Option<PossibleAnswers>) -> Result<(), NoMemory>
    ensures { OnOk result (out.new.items ≡ out.old.items ++ possible_text answers.now) }
{
    match answers {
        Some(answers) => put_member(out, answers),
        None => Ok(()),
    }
}

fn put_member(out: &mut Vec<u8>, answers: &PossibleAnswers) -> Result<(), NoMemory>
    ensures { OnOk result (out.new.items ≡ out.old.items ++ possible.possible_member answers.now) }
{
    put(out, ",\"possible\":{")?;
    put_answers(out, answers)?;
    put(out, "}")
}

fn put_answers(out: &mut Vec<u8>, answers: &PossibleAnswers) -> Result<(), NoMemory>
    ensures { OnOk result (out.new.items ≡ out.old.items ++ possible.answers_members answers.now) }
{
    match answers {
        PossibleAnswers::Values(values) => put_values(out, values),
        PossibleAnswers::Elements(elements) => put_elements(out, elements),
        PossibleAnswers::List(list) => put_list(out, list),
    }
}

fn put_values(out: &mut Vec<u8>, it: &PossibleValues) -> Result<(), NoMemory>
    ensures { OnOk result (out.new.items ≡ out.old.items ++ possible.values_members it.now) }
{
    put(out, "\"values\":[")?;
    put_listed(out, &it.written)?;
    put(out, "],\"none\":")?;
    put(out, bool_word(it.none))
}

fn bool_word(is: bool) -> &'static str
    ensures { result.now ≡ possible.bool_word is }
{
    if is { "true" } else { "false" }
}

fn put_elements(out: &mut Vec<u8>, it: &PossibleElements) -> Result<(), NoMemory>
    ensures { OnOk result (out.new.items ≡ out.old.items ++ possible.elements_members it.now) }
{
    put(out, "\"listed\":[")?;
    put_listed(out, &it.listed)?;
    put(out, "],\"undecided\":[")?;
    put_listed(out, &it.undecided)?;
    put_unasked(out, &it.unasked)
}

fn put_unasked(out: &mut Vec<u8>, elements: &[u32]) -> Result<(), NoMemory>
    ensures { OnOk result (out.new.items ≡ out.old.items ++ possible.unasked_member elements.now) }
{
    put(out, "],\"unasked\":[")?;
    put_listed(out, elements)?;
    put(out, "]")
}

fn put_list(out: &mut Vec<u8>, it: &NearestList) -> Result<(), NoMemory>
    ensures { OnOk result (out.new.items ≡ out.old.items ++ possible.list_members it.now) }
{
    put(out, "\"nearest\":[")?;
    put_listed(out, &it.list)?;
    put(out, "],\"kept\":")?;
    put_size(out, it.kept)?;
    put_places(out, &it.undecided)
}

fn put_places(out: &mut Vec<u8>, places: &[u32]) -> Result<(), NoMemory>
    ensures { OnOk result (out.new.items ≡ out.old.items ++ possible.places_member places.now) }
{
    put(out, ",\"undecided\":[")?;
    put_listed(out, places)?;
    put(out, "]")
}
