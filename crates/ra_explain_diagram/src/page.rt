//! The explanation as text with the picture.
ghost use Rattle.std.specs.Prelude.{IfOk, OnOk};
ghost use Rattle.ra_explain_diagram.specs.Pages.{PutsPage};
ghost use Rattle.ra_explain_diagram.specs.Pictures.{IsPicture};

use crate::drawing::Picture;
use crate::picture::picture_with;
use ra_explain_text::{View, put_words};
use ra_labels::NoMemory;
use std::alloc::Global;

/// Appends the explanation of a checked history, which follows the check's end line: the text, and the picture of a
/// violation.
///
/// # Errors
///
/// `NoMemory` if an allocation fails.
pub fn put_page(out: &mut Vec<u8>, view: &View<'_>) -> Result<(), NoMemory>
    // After success, the text of the explanation is appended, and behind it the picture if there is a violation: a line
    // for each row, with the head of its event, and then the lines that a certificate orders after its own. No clause
    // says what else the columns of a line show.
    ensures { OnOk result (PutsPage view.now.names.now view.now.explanation.now out.old.items out.new.items) }
{
    let picture = picture_of(*out.allocator(), view)?;
    put_words(out, view)?;
    Ok(out.extend_from_slice(&picture)?)
}

// Returns the picture of a violation, or nothing for a pass.
fn picture_of(alloc: Global, view: &View<'_>) -> Result<Vec<u8>, NoMemory>
    ensures { IfOk result (λ picture. IsPicture view.now.names.now view.now.explanation.now
        view.now.explanation.now.violation picture.items) }
{
    match &view.explanation.violation {
        Some(violation) => {
            let picture = Picture::of(alloc, view, violation)?;
            picture_with(alloc, view, violation, &picture)
        }
        None => Ok(Vec::new(alloc)),
    }
}
