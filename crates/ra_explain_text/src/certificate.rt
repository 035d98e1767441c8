//! Why no order explains a violation, in words: a sentence for each claim, with the lines that show it.
use crate::layout::{put, put_count, small};
use crate::notes::{Head, Note, add_note};
use crate::quotes::put_line;
use crate::view::View;
use ra_explain::{Because, Claim};
use ra_history_lines::number::{put_number, put_numbered};
use ra_labels::{NoMemory, Op};

/// The largest number of claims that are shown.
const MOST_CLAIMS: usize = 8;

/// Adds the claims that show that no order explains the violation, if none does; and of an RGA whether the labels hold
/// as those of a list.
///
/// # Errors
///
/// `NoMemory` if an allocation fails.
pub fn add_certificate(notes: &mut Vec<Note>, view: &View<'_>) -> Result<(), NoMemory> {
    let claims = &view.explanation.certificate;
    let mut head = Head::Because;
    for claim in claims.iter().take(MOST_CLAIMS) {
        let mut text = Vec::new(*notes.allocator());
        put_claim(&mut text, view, claim)?;
        notes.push(Note { head, text })?;
        head = Head::And;
    }
    add_others(notes, claims.len().saturating_sub(MOST_CLAIMS))?;
    match view.explanation.one_list {
        Some(true) => add_note(
            notes,
            Head::OneList,
            "as a list without clocks the labels up to here hold: check them as kind list",
        ),
        Some(false) => add_note(
            notes,
            Head::OneList,
            "as a list without clocks the labels up to here do not hold either",
        ),
        None => Ok(()),
    }
}

fn add_others(notes: &mut Vec<Note>, others: usize) -> Result<(), NoMemory> {
    if others == 0 {
        return Ok(());
    }
    let mut text = Vec::new(*notes.allocator());
    put_count(&mut text, small(others), " more claim", " more claims")?;
    put(&mut text, "; --json has all of them")?;
    Ok(notes.push(Note {
        head: Head::And,
        text,
    })?)
}

// Appends what the line of the claim's label shows.
fn put_claim(text: &mut Vec<u8>, view: &View<'_>, claim: &Claim) -> Result<(), NoMemory> {
    put_label_line(text, view, claim.label)?;
    match claim.because {
        Because::Sees | Because::Needs | Because::Reads => {
            put_reason(text, view, claim)?;
            put_order(text, view, claim)
        }
        _ => put_fault(text, view, claim),
    }
}

// Appends why a label has to come before another one.
fn put_reason(text: &mut Vec<u8>, view: &View<'_>, claim: &Claim) -> Result<(), NoMemory> {
    match claim.because {
        Because::Sees => {
            put(text, " sees ")?;
            put_before(text, view, claim)
        }
        Because::Needs => {
            put_numbered(text, b" needs element ", element_of(claim))?;
            put(text, ", which ")?;
            put_before(text, view, claim)?;
            put(text, " inserts")
        }
        _ => put_answer(text, view, claim),
    }
}

// Appends why no order makes a label right.
fn put_fault(text: &mut Vec<u8>, view: &View<'_>, claim: &Claim) -> Result<(), NoMemory> {
    match claim.because {
        Because::Repeats | Because::Root | Because::Absent => put_update_fault(text, view, claim),
        _ => put_read_fault(text, view, claim),
    }
}

// Appends why no order makes an update right.
fn put_update_fault(text: &mut Vec<u8>, view: &View<'_>, claim: &Claim) -> Result<(), NoMemory> {
    let element = element_of(claim);
    match claim.because {
        Because::Repeats => {
            put_numbered(text, b" inserts element ", element)?;
            put(text, ", as ")?;
            put_before(text, view, claim)?;
            put(text, " does")
        }
        Because::Root => put(text, " inserts 0, which is the start of the list"),
        _ if element == 0 => put(text, " removes 0, which is the start of the list"),
        _ => {
            put_numbered(text, b" needs element ", element)?;
            put(text, ", which no line up to here inserts")
        }
    }
}

// Appends why no order makes a read right.
fn put_read_fault(text: &mut Vec<u8>, view: &View<'_>, claim: &Claim) -> Result<(), NoMemory> {
    let element = element_of(claim);
    match claim.because {
        Because::Open => {
            put(text, " sees ")?;
            put_before(text, view, claim)?;
            put_numbered(text, b", which needs element ", element)?;
            put_numbered(text, b", but sees no insertion of ", element)
        }
        Because::Listed => {
            put_numbered(text, b" lists ", element)?;
            put(
                text,
                ", but sees it removed, sees no insertion of it, or repeats it",
            )
        }
        Because::Unlisted => {
            put_numbered(text, b" does not list ", element)?;
            put(text, ", but sees ")?;
            put_before(text, view, claim)?;
            put(text, " insert it and no removal of it")
        }
        Because::Below => {
            put_answer(text, view, claim)?;
            put(text, ", its anchor or an anchor further up")
        }
        _ => {
            put_answer(text, view, claim)?;
            put(
                text,
                ", but no update that could be the last it sees gives that",
            )
        }
    }
}

fn element_of(claim: &Claim) -> u32 {
    claim.elements.first().copied().unwrap_or(0)
}

// Appends what a read answers: two elements of a list, one of a set, or a register's value.
fn put_answer(text: &mut Vec<u8>, view: &View<'_>, claim: &Claim) -> Result<(), NoMemory> {
    match (
        view.explanation.operation(claim.label),
        claim.elements.as_slice(),
    ) {
        (Some(Op::RgaRead(_)), [first, second]) => {
            put_numbered(text, b" lists ", *first)?;
            put_numbered(text, b" before ", *second)
        }
        (Some(Op::LwwRead(list)), [element]) => {
            let is_listed = list.as_slice().contains(element);
            put(
                text,
                if is_listed {
                    " lists "
                } else {
                    " does not list "
                },
            )?;
            put_number(text, *element)
        }
        (Some(Op::Last(Some(value))), _) => put_numbered(text, b" reads ", *value),
        (Some(Op::Last(None)), _) => put(text, " reads none"),
        _ => put(text, " is a read"),
    }
}

// Appends which line is ordered before which one, or one of which.
fn put_order(text: &mut Vec<u8>, view: &View<'_>, claim: &Claim) -> Result<(), NoMemory> {
    put(text, ", so ")?;
    put_before(text, view, claim)?;
    put(text, " is ordered before ")?;
    match claim.after.as_slice() {
        [] => put(text, "none"),
        [label] => put_label_line(text, view, *label),
        [one, other] => {
            put_label_line(text, view, *one)?;
            put(text, " or ")?;
            put_label_line(text, view, *other)
        }
        [one, others @ ..] => {
            put_label_line(text, view, *one)?;
            put(text, " or one of ")?;
            put_number(text, small(others.len()))?;
            put(text, " more")
        }
    }
}

fn put_before(text: &mut Vec<u8>, view: &View<'_>, claim: &Claim) -> Result<(), NoMemory> {
    put_label_line(text, view, claim.before.unwrap_or(0))
}

fn put_label_line(text: &mut Vec<u8>, view: &View<'_>, label: u32) -> Result<(), NoMemory> {
    match view.explanation.places.at(label) {
        Some(place) => put_line(text, place),
        None => put_numbered(text, b"label ", label),
    }
}
