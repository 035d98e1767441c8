//! The arrows of a certificate, from the row of a label to that of another one that it is ordered before.
ghost use Rattle.std.specs.Prelude.{◌≡◌, ◌++◌, IfOk, OnOk, position};
ghost use Rattle.ra_explain_diagram.specs.Arrows as arrows;
ghost use Rattle.ra_explain_diagram.specs.Arrows.{arrow_after, arrows_after, arrows_by, arrows_in, first_row, label_row};

use crate::drawing::Row;
use ra_explain::{Because, Claim, Places, Violation};
use ra_explain_text::View;
use ra_labels::NoMemory;
use std::alloc::Global;

/// An arrow: the label of one row is ordered before that of another one.
#[derive(Clone, Copy)]
pub struct Arrow {
    /// The index of the row whose label comes before the other one.
    pub from: usize,
    /// The index of the other row.
    pub to: usize,
    /// The label that comes before the other one.
    pub before: u32,
    /// The other label.
    pub after: u32,
    /// The label whose line shows it.
    pub by: u32,
    /// Whether the line names several labels, one of which has to follow.
    pub is_choice: bool,
}

/// The rows of a picture, and what is needed to find the one of a label.
#[derive(Clone, Copy)]
pub struct Shown<'a> {
    /// The indices of the labels in the log.
    pub places: &'a Places,
    /// The index of the violating label in the log.
    pub asked: u32,
    /// The rows.
    pub rows: &'a [Row],
}

/// Returns the arrows of the certificate: one for each two labels that a claim orders, if both have a row.
///
/// # Errors
///
/// `NoMemory` if an allocation fails.
///
/// # Complexity
///
/// O(number of labels that the claims name · number of rows).
pub fn arrows_of(
    alloc: Global,
    view: &View<'_>,
    violation: &Violation,
    rows: &[Row],
) -> Result<Vec<Arrow>, NoMemory>
    // The arrows are exactly those of the claims: from the row of the label that a claim orders before others to the
    // row of each of these, as far as both have a row.
    ensures { IfOk result (λ found. found.items ≡ arrows_in view.now.explanation.now.places violation.now.place
        rows.now view.now.explanation.now.certificate.items) }
{
    let shown = Shown {
        places: &view.explanation.places,
        asked: violation.place,
        rows,
    };
    let mut found = Vec::new(alloc);
    for claim in &view.explanation.certificate {
        add_arrows(&mut found, &shown, claim)?;
    }
    Ok(found)
}

// Appends the arrows of the claim.
fn add_arrows(found: &mut Vec<Arrow>, shown: &Shown<'_>, claim: &Claim) -> Result<(), NoMemory>
    ensures { OnOk result (found.new.items
        ≡ found.old.items ++ arrows_by shown.now.places.now shown.now.asked shown.now.rows.now claim.now) }
{
    match first_row(shown, claim) {
        Some(from) => add_arrows_from(found, shown, claim, from),
        None => Ok(()),
    }
}

// Returns the index of the row of the label that the claim orders before others.
fn first_row(shown: &Shown<'_>, claim: &Claim) -> Option<usize>
    ensures { result ≡ first_row shown.now.places.now shown.now.asked shown.now.rows.now claim.now }
{
    match ordered_by(claim) {
        Some(label) => row_of(shown, label),
        None => None,
    }
}

// Appends the arrows of the claim from this row.
fn add_arrows_from(
    found: &mut Vec<Arrow>,
    shown: &Shown<'_>,
    claim: &Claim,
    from: usize,
) -> Result<(), NoMemory>
    ensures { OnOk result (found.new.items
        ≡ found.old.items ++ arrows_after shown.now.places.now shown.now.asked shown.now.rows.now claim.now from) }
{
    for after in &claim.after {
        add_arrow(found, shown, claim, from, *after)?;
    }
    Ok(())
}

// Appends the arrow of the claim from this row to that of the label, if it has one.
fn add_arrow(
    found: &mut Vec<Arrow>,
    shown: &Shown<'_>,
    claim: &Claim,
    from: usize,
    after: u32,
) -> Result<(), NoMemory>
    ensures { OnOk result (found.new.items ≡ found.old.items
        ++ arrow_after shown.now.places.now shown.now.asked shown.now.rows.now claim.now from after) }
{
    if let Some(to) = row_of(shown, after) {
        found.push(Arrow {
            from,
            to,
            before: claim.before.unwrap_or(0),
            after,
            by: claim.label,
            is_choice: claim.after.len() > 1,
        })?;
    }
    Ok(())
}

// Returns the index of the label's row, if it has one.
fn row_of(shown: &Shown<'_>, label: u32) -> Option<usize>
    ensures { result ≡ label_row shown.now.places.now shown.now.asked shown.now.rows.now label }
{
    match shown.places.at(label) {
        Some(place) => row_at(shown, place),
        None => None,
    }
}

// Returns the index of the row of the entry at this index of the log.
fn row_at(shown: &Shown<'_>, place: u32) -> Option<usize>
    ensures { result ≡ position (arrows.is_row_of shown.now.asked place) shown.now.rows.now }
{
    shown
        .rows
        .iter()
        .position(|row| is_row_of(shown.asked, place, *row))
}

/// Returns `true` if the row is that of the entry at this index of the log. The index of the violating label is given.
pub fn is_row_of(asked: u32, place: u32, row: Row) -> bool
    ensures { result ≡ arrows.is_row_of asked place row }
{
    match row {
        Row::Entry(at) | Row::Without(at) => at == place,
        Row::Asked => asked == place,
        Row::Fold(_) | Row::With(_) | Row::Before(_) => false,
    }
}

/// Returns the label that the claim orders before others; `None` if it is about a label that no order explains.
pub fn ordered_by(claim: &Claim) -> Option<u32>
    ensures { result ≡ arrows.ordered_by claim.now }
{
    match claim.because {
        Because::Sees | Because::Needs | Because::Reads => claim.before,
        _ => None,
    }
}
