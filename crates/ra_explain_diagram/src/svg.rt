//! The picture as a drawing in SVG.
ghost use Rattle.std.specs.Prelude.{◌≡◌, ◌++◌, IfOk, OnOk};
ghost use Rattle.ra_explain_diagram.specs.Arcs.{EndsWithArcs, row_level};
ghost use Rattle.ra_explain_diagram.specs.Drawings.{PutsArcs, PutsDrawing, svg_opening, svg_start, title_of};

use crate::arcs::{arcs_width, put_arcs, put_legend};
use crate::drawing::{Column, Picture, Row};
use crate::event::Event;
use ra_explain::Violation;
use ra_explain_text::{View, put, put_name, small, trimmed};
use ra_history_lines::number::put_numbered;
use ra_history_lines::reply::put_end;
use ra_labels::NoMemory;
use ra_monitor::Report;
use std::alloc::Global;

/// Dimensions in points: the position of the first column without arcs and of the first row, the distance of columns
/// and of rows, and the distance of words from their column and from their row.
const LEFT: u32 = 170;

pub const TOP: u32 = 90;

const WIDTH: u32 = 210;

pub const HEIGHT: u32 = 30;

const ASIDE: u32 = 9;

const ABOVE: u32 = 6;

/// The number of characters that fit beside a column.
const LETTERS: usize = 24;

/// The colours on a light and on a dark screen, and the head of an arrow. Helpful changes are dashed.
const STYLE: &str = "<style>\
svg{background:#fff;color:#1a1a1a}\
text{font:13px monospace;fill:currentColor}\
line{stroke:currentColor}\
circle{fill:currentColor}\
.replica line{stroke-opacity:.3}\
.dashed line{stroke-dasharray:5 4}\
.dashed text,.fold{fill-opacity:.75}\
.asked text,.asked circle{fill:#b71c1c}\
@media(prefers-color-scheme:dark){svg{background:#161616;color:#e6e6e6}.asked text,.asked circle{fill:#ff8a80}}\
</style>\
<defs><marker id=\"tip\" viewBox=\"0 0 8 8\" refX=\"8\" refY=\"4\" markerWidth=\"9\" markerHeight=\"9\" \
orient=\"auto\">\
<path d=\"M0 0 8 4 0 8z\" fill=\"currentColor\"/></marker></defs>\n";

/// Appends a drawing with the check's end line as its title, and the picture of a violation.
///
/// # Errors
///
/// `NoMemory` if an allocation fails.
pub fn put_svg(out: &mut Vec<u8>, view: &View<'_>) -> Result<(), NoMemory>
    // After success, a drawing of some size is appended whose title is the end line of the check. No clause describes
    // what it shows.
    ensures { OnOk result (PutsDrawing view.now.explanation.now.report out.old.items out.new.items) }
{
    match &view.explanation.violation {
        Some(violation) => {
            let picture = Picture::of(*out.allocator(), view, violation)?;
            put_drawing(out, view, violation, &picture)
        }
        None => put_title_alone(out, &view.explanation.report),
    }
}

/// Appends the drawing of this picture.
///
/// # Errors
///
/// `NoMemory` if an allocation fails.
pub fn put_drawing(
    out: &mut Vec<u8>,
    view: &View<'_>,
    violation: &Violation,
    picture: &Picture,
) -> Result<(), NoMemory>
    // After success, a drawing of some size is appended whose title is the end line of the check, and which ends with
    // an arc for each arrow of the picture.
    ensures { OnOk result (PutsArcs view.now.explanation.now.places picture.now.arrows.items
        view.now.explanation.now.report out.old.items out.new.items) }
{
    let bottom = height_of(small(picture.rows.len()));
    let content = content_of(*out.allocator(), view, violation, picture, bottom)?;
    let width = left_of(picture, small(picture.columns.len()));
    put_sized(out, &view.explanation.report, width, bottom, &content)
}

// Appends a drawing of this size with this content.
fn put_sized(
    out: &mut Vec<u8>,
    report: &Report,
    width: u32,
    height: u32,
    content: &[u8],
) -> Result<(), NoMemory>
    ensures { OnOk result (out.new.items
        ≡ out.old.items ++ (svg_start width height report.now ++ content.now)) }
{
    put_start(out, report, width, height)?;
    Ok(out.extend_from_slice(content)?)
}

// Appends the drawing of a pass.
fn put_title_alone(out: &mut Vec<u8>, report: &Report) -> Result<(), NoMemory>
    ensures { OnOk result (PutsDrawing report.now out.old.items out.new.items) }
{
    let mut content = Vec::new(*out.allocator());
    put_heading(&mut content, report)?;
    put(&mut content, "</svg>\n")?;
    put_sized(out, report, WIDTH, TOP, &content)
}

// Returns what follows the title of a drawing.
fn content_of(
    alloc: Global,
    view: &View<'_>,
    violation: &Violation,
    picture: &Picture,
    bottom: u32,
) -> Result<Vec<u8>, NoMemory>
    ensures { IfOk result (λ content. EndsWithArcs view.now.explanation.now.places picture.now.arrows.items
        content.items) }
{
    let mut out = Vec::new(alloc);
    put_heading(&mut out, &view.explanation.report)?;
    put_columns(&mut out, view, picture, bottom)?;
    put_rows(&mut out, view, violation, picture)?;
    put_legend(&mut out, &picture.arrows)?;
    put_arcs(&mut out, &view.explanation.places, &picture.arrows)?;
    put(&mut out, "</svg>\n")?;
    Ok(out)
}

fn left_of(picture: &Picture, column: u32) -> u32 {
    column
        .saturating_mul(WIDTH)
        .saturating_add(LEFT)
        .saturating_add(arcs_width(&picture.arrows))
}

/// Returns the position of the row with this index.
pub fn height_of(row: u32) -> u32
    ensures { result ≡ row_level row }
{
    row.saturating_mul(HEIGHT).saturating_add(TOP)
}

// Appends the beginning of a drawing of this size, with its title.
fn put_start(out: &mut Vec<u8>, report: &Report, width: u32, height: u32) -> Result<(), NoMemory>
    ensures { OnOk result (out.new.items ≡ out.old.items ++ svg_start width height report.now) }
{
    put_opening(out, width, height)?;
    put(
        out,
        "\" role=\"img\" aria-labelledby=\"answer\"><title id=\"answer\">",
    )?;
    put_answer(out, report)?;
    put(out, "</title>\n")
}

fn put_opening(out: &mut Vec<u8>, width: u32, height: u32) -> Result<(), NoMemory>
    ensures { OnOk result (out.new.items ≡ out.old.items ++ svg_opening width height) }
{
    put_numbered(
        out,
        b"<svg xmlns=\"http://www.w3.org/2000/svg\" width=\"",
        width,
    )?;
    put_numbered(out, b"\" height=\"", height)?;
    put_numbered(out, b"\" viewBox=\"0 0 ", width)?;
    put_numbered(out, b" ", height)
}

// Appends the style, and the check's end line above the picture.
fn put_heading(out: &mut Vec<u8>, report: &Report) -> Result<(), NoMemory> {
    put(out, STYLE)?;
    put_text(out, ASIDE, ABOVE + HEIGHT)?;
    put_answer(out, report)?;
    put(out, "</text>\n")
}

/// Appends the check's end line, without its line feed.
///
/// # Errors
///
/// `NoMemory` if an allocation fails.
pub fn put_answer(out: &mut Vec<u8>, report: &Report) -> Result<(), NoMemory>
    // After success, the end line of the check is appended, without its line feed.
    ensures { OnOk result (out.new.items ≡ out.old.items ++ title_of report.now) }
{
    let mut line = Vec::new(*out.allocator());
    put_end(&mut line, report.labels, report.fault)?;
    Ok(out.extend_from_slice(trimmed(&line))?)
}

/// Appends the start of a text at this position.
///
/// # Errors
///
/// `NoMemory` if an allocation fails.
pub fn put_text(out: &mut Vec<u8>, x: u32, y: u32) -> Result<(), NoMemory> {
    put_numbered(out, b"<text x=\"", x)?;
    put_numbered(out, b"\" y=\"", y)?;
    put(out, "\">")
}

fn put_line(out: &mut Vec<u8>, from: (u32, u32), to: (u32, u32)) -> Result<(), NoMemory> {
    put_numbered(out, b"<line x1=\"", from.0)?;
    put_numbered(out, b"\" y1=\"", from.1)?;
    put_numbered(out, b"\" x2=\"", to.0)?;
    put_numbered(out, b"\" y2=\"", to.1)?;
    put(out, "\"")
}

fn put_columns(
    out: &mut Vec<u8>,
    view: &View<'_>,
    picture: &Picture,
    bottom: u32,
) -> Result<(), NoMemory> {
    let mut x = left_of(picture, 0);
    for column in &picture.columns {
        let start = start_of(picture, *column);
        put(out, "<g class=\"replica\">")?;
        put_text(out, x, TOP - HEIGHT)?;
        put_name(out, view.names, column.replica)?;
        put(out, "</text>")?;
        put_line(out, (x, start), (x, bottom.saturating_sub(ABOVE)))?;
        put(out, "/></g>\n")?;
        x = x.saturating_add(WIDTH);
    }
    Ok(())
}

// Returns the position at which the column begins: the row of the replica's join, or the top.
fn start_of(picture: &Picture, column: Column) -> u32 {
    let mut y = TOP;
    for row in &picture.rows {
        match row {
            Row::Entry(place) if Some(*place) == column.begins => return y,
            _ => {}
        }
        y = y.saturating_add(HEIGHT);
    }
    TOP - HEIGHT + ABOVE
}

fn put_rows(
    out: &mut Vec<u8>,
    view: &View<'_>,
    violation: &Violation,
    picture: &Picture,
) -> Result<(), NoMemory> {
    let mut y = TOP;
    for row in &picture.rows {
        match row {
            Row::Fold(count) => put_fold(out, *count, y)?,
            other => {
                if let Some(event) = Event::of(*out.allocator(), view, violation, *other)? {
                    put_event(out, picture, &event, y)?;
                }
            }
        }
        y = y.saturating_add(HEIGHT);
    }
    Ok(())
}

fn put_fold(out: &mut Vec<u8>, count: u32, y: u32) -> Result<(), NoMemory> {
    put(out, "<g class=\"fold\">")?;
    put_text(out, ASIDE, y)?;
    put_numbered(out, b".. (", count)?;
    put(out, " more)</text></g>\n")
}

fn put_event(out: &mut Vec<u8>, picture: &Picture, event: &Event, y: u32) -> Result<(), NoMemory> {
    put(out, "<g class=\"event")?;
    put(out, if event.is_dashed { " dashed" } else { "" })?;
    put(out, if event.is_asked { " asked\">" } else { "\">" })?;
    put_text(out, ASIDE, y)?;
    out.extend_from_slice(&event.head)?;
    put(out, "</text>")?;
    if let Some(to) = picture.column_of(event.to) {
        let x = left_of(picture, small(to));
        if let Some(from) = picture.column_of(event.from) {
            put_arrow(out, left_of(picture, small(from)), x, y)?;
        }
        put_numbered(out, b"<circle r=\"4\" cx=\"", x)?;
        put_numbered(out, b"\" cy=\"", y)?;
        put(out, "\"/>")?;
        put_text(out, x.saturating_add(ASIDE), y.saturating_sub(ABOVE))?;
        put_front(out, &event.words)?;
        put(out, "</text>")?;
    }
    put(out, "</g>\n")
}

fn put_arrow(out: &mut Vec<u8>, from: u32, to: u32, y: u32) -> Result<(), NoMemory> {
    let tip = if from < to {
        to.saturating_sub(ABOVE)
    } else {
        to.saturating_add(ABOVE)
    };
    put_line(out, (from, y), (tip, y))?;
    put(out, " marker-end=\"url(#tip)\"/>")
}

// Appends the words, or the beginning of long ones.
fn put_front(out: &mut Vec<u8>, words: &[u8]) -> Result<(), NoMemory> {
    match words.get(..LETTERS) {
        Some(front) if words.len() > LETTERS => {
            out.extend_from_slice(front)?;
            put(out, "..")
        }
        _ => Ok(out.extend_from_slice(words)?),
    }
}
