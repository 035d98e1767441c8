//! The column of a picture in characters that says which lines a certificate orders behind that of a row.
ghost use Rattle.std.specs.Prelude.{◌≡◌, ◌++◌, IfOk, OnOk};
ghost use Rattle.ra_explain_diagram.specs.Arrows as arrows;
ghost use Rattle.ra_explain_diagram.specs.Arrows.{cell_by, label_words, lines_after};

use crate::arrow::{is_row_of, ordered_by};
use crate::drawing::Row;
use ra_explain::{Claim, Places, Violation};
use ra_explain_text::{View, put, put_line, put_size};
use ra_labels::NoMemory;
use std::alloc::Global;

/// The head of the column. No replica's name has a space.
pub const HEAD: &[u8] = b"is before";

/// Returns the width of the column, with two spaces behind its longest cell; 0 if all cells of the rows are empty.
///
/// # Errors
///
/// `NoMemory` if an allocation fails.
pub fn width_of_order(
    alloc: Global,
    view: &View<'_>,
    violation: &Violation,
    rows: &[Row],
) -> Result<usize, NoMemory> {
    let mut width: usize = 0;
    for row in rows {
        let cell = order_cell(alloc, view, violation, *row)?;
        if !cell.is_empty() {
            width = width.max(cell.len().max(HEAD.len()).saturating_add(2));
        }
    }
    Ok(width)
}

/// Returns the lines that the claims order behind that of the row; nothing if they order none.
///
/// # Errors
///
/// `NoMemory` if an allocation fails.
pub fn order_cell(
    alloc: Global,
    view: &View<'_>,
    violation: &Violation,
    row: Row,
) -> Result<Vec<u8>, NoMemory>
    ensures { IfOk result (λ cell. cell.items ≡ arrows.order_cell view.now.explanation.now.places
        violation.now.place row view.now.explanation.now.certificate.items) }
{
    let mut cell = Vec::new(alloc);
    for claim in &view.explanation.certificate {
        put_cell(
            &mut cell,
            &view.explanation.places,
            violation.place,
            row,
            claim,
        )?;
    }
    Ok(cell)
}

// Appends the lines that the claim orders behind that of the row, if it does.
fn put_cell(
    cell: &mut Vec<u8>,
    places: &Places,
    asked: u32,
    row: Row,
    claim: &Claim,
) -> Result<(), NoMemory>
    ensures { OnOk result (cell.new.items ≡ cell.old.items ++ cell_by places.now asked row claim.now) }
{
    if is_first(places, asked, row, claim) {
        put_after(cell, places, &claim.after)
    } else {
        Ok(())
    }
}

// Returns `true` if the row is that of the label that the claim orders before others.
fn is_first(places: &Places, asked: u32, row: Row, claim: &Claim) -> bool
    ensures { result ≡ arrows.is_first places.now asked row claim.now }
{
    let Some(label) = ordered_by(claim) else {
        return false;
    };
    match places.at(label) {
        Some(place) => is_row_of(asked, place, row),
        None => false,
    }
}

// Appends the lines of these labels, one of which has to follow.
fn put_after(cell: &mut Vec<u8>, places: &Places, after: &[u32]) -> Result<(), NoMemory>
    ensures { OnOk result (cell.new.items ≡ cell.old.items ++ lines_after places.now after.now) }
{
    match after {
        [] => Ok(()),
        [label] => put_label_line(cell, places, *label),
        [label, other] => {
            put_label_line(cell, places, *label)?;
            put(cell, " or ")?;
            put_label_line(cell, places, *other)
        }
        [label, others @ ..] => {
            put_label_line(cell, places, *label)?;
            put(cell, " or ")?;
            put_size(cell, others.len())?;
            put(cell, " more")
        }
    }
}

/// Appends the line of the label, if there is such a label.
///
/// # Errors
///
/// `NoMemory` if an allocation fails.
pub fn put_label_line(out: &mut Vec<u8>, places: &Places, label: u32) -> Result<(), NoMemory>
    ensures { OnOk result (out.new.items ≡ out.old.items ++ label_words places.now label) }
{
    match places.at(label) {
        Some(place) => put_line(out, place),
        None => Ok(()),
    }
}
