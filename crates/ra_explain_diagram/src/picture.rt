//! The picture as characters.
ghost use Rattle.std.specs.Prelude.{◌≡◌, ℕ, ◌++◌, ◌∷◌, [], IfOk, List, OnOk};
ghost use Rattle.ra_explain_diagram.specs.Arrows as arrows;
ghost use Rattle.ra_explain_diagram.specs.Pictures.{BeginsWith, ShowsEvent, ShowsPicture, ShowsRow, ShowsRows, fold_count, fold_line, left_out_line, not_drawn_line, picture_line};

use crate::drawing::{Picture, Row};
use crate::event::Event;
use crate::order_column::{HEAD, order_cell};
use ra_explain::Violation;
use ra_explain_text::{View, behind, put, put_count, put_padded, put_printable, trimmed};
use ra_history_lines::number::put_numbered;
use ra_labels::NoMemory;
use std::alloc::Global;

/// The position of the first column, the width of a page, and the largest width of a column.
const MARGIN: usize = 16;

const PAGE: usize = 100;

const WIDEST: usize = 28;

/// Returns the picture, with replicas as columns and events as rows, behind an empty line.
///
/// # Errors
///
/// `NoMemory` if an allocation fails.
pub fn picture_with(
    alloc: Global,
    view: &View<'_>,
    violation: &Violation,
    picture: &Picture,
) -> Result<Vec<u8>, NoMemory>
    ensures { IfOk result (λ bytes. ShowsPicture view.now.names.now view.now.explanation.now violation.now
        picture.now.rows.items bytes.items) }
{
    let names = names_of(alloc, view, picture)?;
    let body = rows_of(alloc, view, violation, picture)?;
    let mut out = Vec::new(alloc);
    put_parts(&mut out, &names, &body, picture.left_out(view))?;
    Ok(out)
}

// Appends an empty line, the line of names, the rows, and the number of replicas without a column.
fn put_parts(out: &mut Vec<u8>, names: &[u8], body: &[u8], others: u32) -> Result<(), NoMemory>
    ensures { OnOk result (out.new.items ≡ out.old.items
        ++ (10 ∷ (picture_line [] names.now ++ (body.now ++ left_out_line others)))) }
{
    put(out, "\n")?;
    put_line_with(out, b"", names)?;
    out.extend_from_slice(body)?;
    put_left_out(out, others)
}

// Returns the lines of the rows.
fn rows_of(
    alloc: Global,
    view: &View<'_>,
    violation: &Violation,
    picture: &Picture,
) -> Result<Vec<u8>, NoMemory>
    ensures { IfOk result (λ bytes. ShowsRows view.now.names.now view.now.explanation.now violation.now
        picture.now.rows.items bytes.items) }
{
    let mut out = Vec::new(alloc);
    for row in &picture.rows {
        put_row(&mut out, view, violation, picture, *row)?;
    }
    Ok(out)
}

fn put_row(
    out: &mut Vec<u8>,
    view: &View<'_>,
    violation: &Violation,
    picture: &Picture,
    row: Row,
) -> Result<(), NoMemory>
    ensures { OnOk result ((bytes : List ℕ)
        × ShowsRow view.now.names.now view.now.explanation.now violation.now row bytes
        × (out.new.items ≡ out.old.items ++ bytes)) }
{
    match folded_in(row) {
        Some(count) => put_fold(out, count),
        None => put_event(out, view, violation, picture, row),
    }
}

fn folded_in(row: Row) -> Option<u32>
    ensures { result ≡ fold_count row }
{
    match row {
        Row::Fold(count) => Some(count),
        Row::Entry(_) | Row::Without(_) | Row::With(_) | Row::Before(_) | Row::Asked => None,
    }
}

// Appends the number of entries that are not drawn between two others.
fn put_fold(out: &mut Vec<u8>, count: u32) -> Result<(), NoMemory>
    ensures { OnOk result (out.new.items ≡ out.old.items ++ fold_line count) }
{
    put_numbered(out, b".. (", count)?;
    put(out, " more)\n")
}

/// Appends the number of replicas without a column, if there are any.
///
/// # Errors
///
/// `NoMemory` if an allocation fails.
pub fn put_left_out(out: &mut Vec<u8>, count: u32) -> Result<(), NoMemory>
    ensures { OnOk result (out.new.items ≡ out.old.items ++ left_out_line count) }
{
    if count == 0 {
        Ok(())
    } else {
        put_not_drawn(out, count)
    }
}

fn put_not_drawn(out: &mut Vec<u8>, count: u32) -> Result<(), NoMemory>
    ensures { OnOk result (out.new.items ≡ out.old.items ++ not_drawn_line count) }
{
    put_count(out, count, " more replica is", " more replicas are")?;
    put(out, " not drawn\n")
}

fn put_event(
    out: &mut Vec<u8>,
    view: &View<'_>,
    violation: &Violation,
    picture: &Picture,
    row: Row,
) -> Result<(), NoMemory>
    ensures { OnOk result ((bytes : List ℕ)
        × ShowsEvent view.now.names.now view.now.explanation.now violation.now row bytes
        × (out.new.items ≡ out.old.items ++ bytes)) }
{
    match Event::of(*out.allocator(), view, violation, row)? {
        Some(event) => {
            let columns = columns_of(*out.allocator(), view, violation, picture, row, &event)?;
            put_line_with(out, &event.head, &columns)
        }
        None => Ok(()),
    }
}

// Appends a line with this head, and the printable bytes of its columns.
fn put_line_with(out: &mut Vec<u8>, head: &[u8], columns: &[u8]) -> Result<(), NoMemory>
    ensures { OnOk result (out.new.items ≡ out.old.items ++ picture_line head.now columns.now) }
{
    put_padded(out, head)?;
    put_printable(out, columns)?;
    put(out, "\n")
}

// Returns the columns of the line with the names, without the spaces behind the last one.
fn names_of(alloc: Global, view: &View<'_>, picture: &Picture) -> Result<Vec<u8>, NoMemory> {
    let mut line = blank(alloc)?;
    if picture.order_width > 0 {
        write_at(&mut line, MARGIN, HEAD, HEAD.len());
    }
    let width = width_of(picture);
    let mut start = start_of(picture, 0);
    for column in &picture.columns {
        if let Some(name) = view.names.name(column.replica) {
            write_name(&mut line, start, name, width);
        }
        start = start.saturating_add(width);
    }
    behind_margin(alloc, &line, MARGIN)
}

// Returns the columns of the line with the event, behind the lines that a certificate orders behind its own.
fn columns_of(
    alloc: Global,
    view: &View<'_>,
    violation: &Violation,
    picture: &Picture,
    row: Row,
    event: &Event,
) -> Result<Vec<u8>, NoMemory>
    ensures { IfOk result (λ columns. BeginsWith (arrows.order_cell view.now.explanation.now.places
        violation.now.place row view.now.explanation.now.certificate.items) columns.items) }
{
    let mut columns = order_cell(alloc, view, violation, row)?;
    let line = replicas_of(alloc, picture, event)?;
    let rest = aside(
        alloc,
        picture.order_width.saturating_sub(columns.len()),
        &line,
    )?;
    columns.extend_from_slice(&rest)?;
    Ok(columns)
}

// Returns the line behind this number of spaces.
fn aside(alloc: Global, spaces: usize, line: &[u8]) -> Result<Vec<u8>, NoMemory> {
    let mut out = Vec::new(alloc);
    for _ in 0..spaces {
        out.push(b' ')?;
    }
    out.extend_from_slice(line)?;
    Ok(out)
}

// Returns the replicas' columns of the line with the event, without the spaces behind its words or its arrow.
fn replicas_of(alloc: Global, picture: &Picture, event: &Event) -> Result<Vec<u8>, NoMemory> {
    let mut line = blank(alloc)?;
    draw_columns(&mut line, picture, event.place);
    if let Some(to) = picture.column_of(event.to) {
        if let Some(from) = picture.column_of(event.from) {
            draw_arrow(&mut line, picture, from, to, event);
        }
        let start = start_of(picture, to);
        write_at(&mut line, start, &event.words, width_of(picture));
    }
    behind_margin(alloc, &line, start_of(picture, 0))
}

// Returns the bytes of the line from this position on, without the spaces at its end.
fn behind_margin(alloc: Global, line: &[u8], start: usize) -> Result<Vec<u8>, NoMemory> {
    let mut columns = Vec::new(alloc);
    columns.extend_from_slice(trimmed(behind(line, start)))?;
    Ok(columns)
}

// Writes the name, or the end of a long one after two dots.
fn write_name(line: &mut Vec<u8>, start: usize, name: &[u8], width: usize) {
    let room = width.saturating_sub(3);
    match name.get(name.len().saturating_sub(room)..) {
        Some(end) if name.len() >= width => {
            write_at(line, start, b"..", width);
            write_at(line, start.saturating_add(2), end, width);
        }
        _ => write_at(line, start, name, width),
    }
}

// Draws a bar in each column whose replica exists at this index of the log.
fn draw_columns(line: &mut Vec<u8>, picture: &Picture, place: u32) {
    let mut start = start_of(picture, 0);
    for column in &picture.columns {
        if column.begins.unwrap_or(0) <= place {
            write_at(line, start, b"|", 1);
        }
        start = start.saturating_add(width_of(picture));
    }
}

fn width_of(picture: &Picture) -> usize {
    match picture.columns.len() {
        0 => WIDEST,
        count => ((PAGE - MARGIN).saturating_sub(picture.order_width) / count).min(WIDEST),
    }
}

fn start_of(picture: &Picture, column: usize) -> usize {
    column
        .saturating_mul(width_of(picture))
        .saturating_add(MARGIN)
        .saturating_add(picture.order_width)
}

// Draws the arrow from one column to the other, with room for the words there.
fn draw_arrow(line: &mut Vec<u8>, picture: &Picture, from: usize, to: usize, event: &Event) {
    let source = start_of(picture, from);
    let target = start_of(picture, to);
    let step = if event.is_dashed { 2 } else { 1 };
    if source < target {
        let tip = target.saturating_sub(2);
        draw(line, source.saturating_add(1), tip, b'-', step);
        draw(line, tip, tip.saturating_add(1), b'>', 1);
    } else {
        let tip = target.saturating_add(event.words.len()).saturating_add(1);
        let behind = tip.saturating_add(1);
        draw(line, tip, behind, b'<', 1);
        draw(line, behind, source, b'-', step);
    }
}

// Writes the byte in a range of the line: at each position, or at every second one that is blank.
fn draw(line: &mut Vec<u8>, from: usize, to: usize, byte: u8, step: usize) {
    for at in from..to {
        if at < line.len() && (step == 1 || ((at - from) % 2 == 0 && line[at] == b' ')) {
            line[at] = byte;
        }
    }
}

// Writes as much of the text as there is room for, at this position of the line. Two dots mark a cut.
fn write_at(line: &mut Vec<u8>, start: usize, text: &[u8], room: usize) {
    let mut at = start;
    for byte in text.iter().take(room) {
        if at < line.len() {
            line[at] = *byte;
        }
        at = at.saturating_add(1);
    }
    if text.len() > room && room > 3 {
        let end = start.saturating_add(room);
        draw(line, end.saturating_sub(3), end.saturating_sub(1), b'.', 1);
        draw(line, end.saturating_sub(1), end, b' ', 1);
    }
}

fn blank(alloc: Global) -> Result<Vec<u8>, NoMemory> {
    let mut line = Vec::new(alloc);
    for _ in 0..PAGE {
        line.push(b' ')?;
    }
    Ok(line)
}
