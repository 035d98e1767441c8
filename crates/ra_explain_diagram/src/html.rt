//! The explanation as one HTML document: the text, the picture, and its rows as a table for screen readers.
ghost use Rattle.std.specs.Prelude.{◌≡◌, ℕ, ◌++◌, IfOk, List, OnOk, codes};
ghost use Rattle.ra_explain_diagram.specs.Arrows.{arrows_in};
ghost use Rattle.ra_explain_diagram.specs.Pages.{PutsDocument};
ghost use Rattle.ra_explain_diagram.specs.Pictures.{ShowEach};
ghost use Rattle.ra_explain_diagram.specs.Tables as tables;
ghost use Rattle.ra_explain_diagram.specs.Tables.{IsFigure, IsTableRow, ShowsFigure, caption_of, event_cells, place_cells, replica_cell, table_of, table_row};

use crate::drawing::{Picture, Row};
use crate::event::Event;
use crate::picture::put_left_out;
use crate::svg::{put_answer, put_drawing};
use ra_explain::Violation;
use ra_explain_text::{View, put, put_document, put_escaped, put_name, put_words};
use ra_history_lines::Names;
use ra_labels::NoMemory;
use std::alloc::Global;

/// Appends the document of a checked history: the text, and for a violation the picture.
///
/// # Errors
///
/// `NoMemory` if an allocation fails.
pub fn put_html(out: &mut Vec<u8>, view: &View<'_>) -> Result<(), NoMemory>
    // After success, exactly the document is appended whose title is the end line of the check, whose text is that of
    // the explanation, and whose figure is empty exactly if there is no violation. The figure is a drawing with a table
    // of its rows. The drawing ends with an arc for each two labels that a certificate orders, if both have a row: from
    // the height of the one row to that of the other. No clause says what else the drawing shows.
    ensures { OnOk result (PutsDocument view.now.names.now view.now.explanation.now out.old.items out.new.items) }
{
    let alloc = *out.allocator();
    let mut title = Vec::new(alloc);
    put_answer(&mut title, &view.explanation.report)?;
    let mut words = Vec::new(alloc);
    put_words(&mut words, view)?;
    let figure = figure_of(alloc, view)?;
    put_document(out, &title, &words, &figure)
}

// Returns the picture of a violation and its table, or nothing for a pass.
fn figure_of(alloc: Global, view: &View<'_>) -> Result<Vec<u8>, NoMemory>
    ensures { IfOk result (λ figure. IsFigure view.now.names.now view.now.explanation.now
        view.now.explanation.now.violation figure.items) }
{
    match &view.explanation.violation {
        Some(violation) => {
            let picture = Picture::of(alloc, view, violation)?;
            figure_with(alloc, view, violation, &picture)
        }
        None => Ok(Vec::new(alloc)),
    }
}

fn figure_with(
    alloc: Global,
    view: &View<'_>,
    violation: &Violation,
    picture: &Picture,
) -> Result<Vec<u8>, NoMemory>
    requires arrows { picture.now.arrows.items ≡ arrows_in view.now.explanation.now.places violation.now.place
        picture.now.rows.items view.now.explanation.now.certificate.items }
    ensures { IfOk result (λ figure. ShowsFigure view.now.names.now view.now.explanation.now violation.now
        picture.now.rows.items figure.items) }
{
    let mut drawing = Vec::new(alloc);
    put_drawing(&mut drawing, view, violation, picture)?;
    let cells = cells_of(alloc, view, violation, picture)?;
    let mut out = Vec::new(alloc);
    put_figure(&mut out, &drawing, picture.left_out(view), &cells)?;
    Ok(out)
}

// Appends the drawing with its caption, and the table.
fn put_figure(out: &mut Vec<u8>, drawing: &[u8], others: u32, cells: &[u8]) -> Result<(), NoMemory>
    ensures { OnOk result (out.new.items ≡ out.old.items
        ++ (codes "<figure>\n" ++ (drawing.now ++ (caption_of others ++ table_of cells.now)))) }
{
    put(out, "<figure>\n")?;
    out.extend_from_slice(drawing)?;
    put_caption(out, others)?;
    put_table(out, cells)
}

fn put_caption(out: &mut Vec<u8>, others: u32) -> Result<(), NoMemory>
    ensures { OnOk result (out.new.items ≡ out.old.items ++ caption_of others) }
{
    put(out, "<figcaption>")?;
    put_left_out(out, others)?;
    put(out, "</figcaption></figure>\n")
}

fn put_table(out: &mut Vec<u8>, cells: &[u8]) -> Result<(), NoMemory>
    ensures { OnOk result (out.new.items ≡ out.old.items ++ table_of cells.now) }
{
    put(out, "<table>\n<caption>The picture, row by row</caption>\n")?;
    put(out, "<tr><th>line<th>replica<th>event<th>from\n")?;
    out.extend_from_slice(cells)?;
    put(out, "</table>\n")
}

// Returns the rows of the table.
fn cells_of(
    alloc: Global,
    view: &View<'_>,
    violation: &Violation,
    picture: &Picture,
) -> Result<Vec<u8>, NoMemory>
    ensures { IfOk result (λ cells. ShowEach (IsTableRow view.now.names.now view.now.explanation.now violation.now)
        picture.now.rows.items cells.items) }
{
    let mut out = Vec::new(alloc);
    for row in &picture.rows {
        put_row(&mut out, view, violation, *row)?;
    }
    Ok(out)
}

fn put_row(
    out: &mut Vec<u8>,
    view: &View<'_>,
    violation: &Violation,
    row: Row,
) -> Result<(), NoMemory>
    ensures { OnOk result ((bytes : List ℕ)
        × IsTableRow view.now.names.now view.now.explanation.now violation.now row bytes
        × (out.new.items ≡ out.old.items ++ bytes)) }
{
    match Event::of(*out.allocator(), view, violation, row)? {
        Some(event) => put_cells(out, view.names, row, &event),
        None => Ok(()),
    }
}

fn put_cells(out: &mut Vec<u8>, names: &Names, row: Row, event: &Event) -> Result<(), NoMemory>
    ensures { OnOk result (out.new.items ≡ out.old.items ++ table_row names.now row event.now) }
{
    put_place_cells(out, names, event)?;
    put_event_cells(out, names, row, event)
}

fn put_place_cells(out: &mut Vec<u8>, names: &Names, event: &Event) -> Result<(), NoMemory>
    ensures { OnOk result (out.new.items ≡ out.old.items ++ place_cells names.now event.now) }
{
    put(out, "<tr><td>")?;
    put_escaped(out, &event.head)?;
    put(out, "<td>")?;
    put_replica(out, names, event.to)
}

fn put_event_cells(
    out: &mut Vec<u8>,
    names: &Names,
    row: Row,
    event: &Event,
) -> Result<(), NoMemory>
    ensures { OnOk result (out.new.items ≡ out.old.items ++ event_cells names.now row event.now) }
{
    put(out, "<td>")?;
    put_escaped(out, &event.words)?;
    put(out, without_words(row))?;
    put(out, "<td>")?;
    put_replica(out, names, event.from)?;
    put(out, "\n")
}

// Returns the words behind those of an entry that could be left out.
fn without_words(row: Row) -> &'static str
    ensures { result.now ≡ tables.without_words row }
{
    match row {
        Row::Without(_) => ", or without it",
        Row::Fold(_) | Row::Entry(_) | Row::With(_) | Row::Before(_) | Row::Asked => "",
    }
}

fn put_replica(out: &mut Vec<u8>, names: &Names, replica: Option<u8>) -> Result<(), NoMemory>
    ensures { OnOk result (out.new.items ≡ out.old.items ++ replica_cell names.now replica) }
{
    match replica {
        Some(replica) => put_name(out, names, replica),
        None => Ok(()),
    }
}
