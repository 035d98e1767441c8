//! The arrows of a certificate in a drawing: arcs in a margin beside the rows.
ghost use Rattle.std.specs.Prelude.{◌≡◌, ◌≤◌, ◌++◌, OnOk};
ghost use Rattle.ra_explain_diagram.specs.Arcs as arcs;
ghost use Rattle.ra_explain_diagram.specs.Arcs.{arc_bytes, arc_ends, arc_front, arc_words, arcs_of, class_of, other_words};

use crate::arrow::Arrow;
use crate::order_column::put_label_line;
use crate::svg::{HEIGHT, TOP, height_of, put_text};
use ra_explain::Places;
use ra_explain_text::{put, small};
use ra_history_lines::number::put_numbered;
use ra_labels::NoMemory;

/// Dimensions in points: where arcs begin and end, how far above its row an arc ends, so that its head is apart from
/// where another one begins, and the width of the margin.
const START: u32 = 112;

const ABOVE: u32 = 8;

const MARGIN: u32 = 110;

/// How far the control points of an arc are in the margin: at least, and further for each row up to the most. Those of
/// an arc that goes up are further, so that it does not lie on one that goes down.
const LEAST: usize = 44;

const FURTHER: usize = 14;

const MOST_ROWS: usize = 9;

const UP: usize = 30;

/// The colours on a light and on a dark screen, and the head of an arc.
const STYLE: &str = "<style>\
.order{color:#0b57d0}\
.order path{fill:none;stroke:currentColor;stroke-width:1.6}\
.order .choice{stroke-dasharray:2 4}\
.order .head{fill:currentColor;stroke:none}\
@media(prefers-color-scheme:dark){.order{color:#8ab4f8}}\
</style>\
<defs><marker id=\"order\" viewBox=\"0 0 8 8\" refX=\"8\" refY=\"4\" markerWidth=\"7\" markerHeight=\"7\" \
orient=\"auto\">\
<path class=\"head\" d=\"M0 0 8 4 0 8z\"/></marker></defs>\n";

/// Returns the width of the margin with the arcs; 0 if there are none.
pub fn arcs_width(arrows: &[Arrow]) -> u32 {
    if arrows.is_empty() { 0 } else { MARGIN }
}

/// Appends the style of arcs and what they mean; nothing if there are none.
///
/// # Errors
///
/// `NoMemory` if an allocation fails.
pub fn put_legend(out: &mut Vec<u8>, arrows: &[Arrow]) -> Result<(), NoMemory> {
    if arrows.is_empty() {
        return Ok(());
    }
    put(out, "<g class=\"order\">")?;
    put(out, STYLE)?;
    put_text(out, START, TOP - HEIGHT)?;
    put(out, "must come before</text>")?;
    if arrows.iter().any(|arrow| arrow.is_choice) {
        put_text(out, START, TOP - HEIGHT / 2)?;
        put(out, "dotted: one of them</text>")?;
    }
    put(out, "</g>\n")
}

/// Appends an arc for each arrow.
///
/// # Errors
///
/// `NoMemory` if an allocation fails.
pub fn put_arcs(out: &mut Vec<u8>, places: &Places, arrows: &[Arrow]) -> Result<(), NoMemory>
    ensures { OnOk result (out.new.items ≡ out.old.items ++ arcs_of places.now arrows.now) }
{
    for arrow in arrows {
        put_arc(out, places, *arrow)?;
    }
    Ok(())
}

// Appends the arc, with what it says.
fn put_arc(out: &mut Vec<u8>, places: &Places, arrow: Arrow) -> Result<(), NoMemory>
    ensures { OnOk result (out.new.items ≡ out.old.items ++ arc_bytes places.now arrow) }
{
    put_front(out, arrow)?;
    put_words(out, places, arrow)?;
    put(out, "</title></path></g>\n")
}

// Appends the arc up to what it says.
fn put_front(out: &mut Vec<u8>, arrow: Arrow) -> Result<(), NoMemory>
    ensures { OnOk result (out.new.items ≡ out.old.items ++ arc_front arrow) }
{
    put(out, "<g class=\"order\"><path")?;
    put_class(out, arrow.is_choice)?;
    put_ends(
        out,
        height_of(small(arrow.from)),
        height_of(small(arrow.to)),
        bend_of(arrow),
    )?;
    put(out, "\" marker-end=\"url(#order)\"><title>")
}

fn put_class(out: &mut Vec<u8>, is_choice: bool) -> Result<(), NoMemory>
    ensures { OnOk result (out.new.items ≡ out.old.items ++ class_of is_choice) }
{
    if is_choice {
        put(out, " class=\"choice\"")
    } else {
        Ok(())
    }
}

// Appends where the arc begins, its control points at this distance from the left, and where it ends.
fn put_ends(out: &mut Vec<u8>, from: u32, to: u32, bend: u32) -> Result<(), NoMemory>
    ensures { OnOk result (out.new.items ≡ out.old.items ++ arc_ends from to bend) }
{
    let end = to.saturating_sub(ABOVE);
    put_numbered(out, b" d=\"M112 ", from)?;
    put_numbered(out, b"C", bend)?;
    put_numbered(out, b" ", from)?;
    put_numbered(out, b" ", bend)?;
    put_numbered(out, b" ", end)?;
    put_numbered(out, b" 112 ", end)
}

// Returns the distance of the arc's control points from the left.
fn bend_of(arrow: Arrow) -> u32
    ensures { result ≡ arcs.bend_of arrow }
{
    let reach = if arrow.from < arrow.to {
        reach_of(arrow.to - arrow.from)
    } else {
        reach_of(arrow.from - arrow.to) + UP
    };
    START + reach as u32
}

fn reach_of(rows: usize) -> usize
    ensures reach { result ≡ arcs.reach_of rows }
    ensures bound { result ≤ 170 }
{
    LEAST + FURTHER * rows.min(MOST_ROWS)
}

// Appends what the arc says.
fn put_words(out: &mut Vec<u8>, places: &Places, arrow: Arrow) -> Result<(), NoMemory>
    ensures { OnOk result (out.new.items ≡ out.old.items ++ arc_words places.now arrow) }
{
    put_label_line(out, places, arrow.before)?;
    put(out, " must come before ")?;
    put_label_line(out, places, arrow.after)?;
    put_other(out, arrow.is_choice)?;
    put_label_line(out, places, arrow.by)?;
    put(out, " shows it")
}

fn put_other(out: &mut Vec<u8>, is_choice: bool) -> Result<(), NoMemory>
    ensures { OnOk result (out.new.items ≡ out.old.items ++ other_words is_choice) }
{
    if is_choice {
        put(out, " or another one: ")
    } else {
        put(out, ": ")
    }
}
