//! The members of the JSON object that only a violation by the order of a list has.
ghost use Rattle.std.specs.Prelude.{◌≡◌, ◌++◌, OnOk, codes, decimal};
ghost use Rattle.ra_explain_text.specs.Json as json;
ghost use Rattle.ra_explain_text.specs.Numbers.{label_line};

use crate::layout::put;
use crate::quotes::put_line_number;
use ra_explain::{Conflict, Disagreement, Places};
use ra_history_lines::Names;
use ra_history_lines::number::{put_number, put_numbered};
use ra_history_writer::spelling::put_command;
use ra_labels::{Command, Edge, NoMemory};

/// Appends the members of the conflict, if there is one.
///
/// # Errors
///
/// `NoMemory` if an allocation fails.
pub fn put_conflict(
    out: &mut Vec<u8>,
    names: &Names,
    places: &Places,
    conflict: &Option<Conflict>,
) -> Result<(), NoMemory>
    ensures { OnOk result (out.new.items
        ≡ out.old.items ++ json.conflict_text names.now places.now conflict.now) }
{
    match conflict {
        Some(conflict) => put_members(out, names, places, conflict),
        None => Ok(()),
    }
}

// Appends the cycle, the command that would hold if one was found, and whether the labels show each two elements in one
// order.
fn put_members(
    out: &mut Vec<u8>,
    names: &Names,
    places: &Places,
    conflict: &Conflict,
) -> Result<(), NoMemory>
    ensures { OnOk result (out.new.items
        ≡ out.old.items ++ json.conflict_members names.now places.now conflict.now) }
{
    put(out, ",\"cycle\":[")?;
    put_edges(out, places, &conflict.cycle)?;
    put(out, "]")?;
    put_holding(out, names, &conflict.holding)?;
    put(out, pairs_member(&conflict.pairs))
}

fn put_edges(out: &mut Vec<u8>, places: &Places, edges: &[Edge]) -> Result<(), NoMemory>
    ensures { OnOk result (out.new.items ≡ out.old.items ++ json.edges_value places.now edges.now) }
{
    match edges.split_first() {
        None => Ok(()),
        Some((first, more)) => {
            put_edge(out, places, *first)?;
            put_more_edges(out, places, more)
        }
    }
}

fn put_more_edges(out: &mut Vec<u8>, places: &Places, edges: &[Edge]) -> Result<(), NoMemory>
    ensures { OnOk result (out.new.items ≡ out.old.items ++ json.more_edges places.now edges.now) }
{
    for edge in edges {
        out.push(b',')?;
        put_edge(out, places, *edge)?;
    }
    Ok(())
}

fn put_edge(out: &mut Vec<u8>, places: &Places, edge: Edge) -> Result<(), NoMemory>
    ensures { OnOk result (out.new.items ≡ out.old.items ++ json.edge_value places.now edge) }
{
    put_numbered(out, b"{\"before\":", edge.before)?;
    put_numbered(out, b",\"after\":", edge.after)?;
    put_numbered(out, b",\"label\":", edge.label)?;
    put_label_line(out, places, edge.label)?;
    put(out, "}")
}

/// Appends the member with the number of the label's line, or 0 if there is no such label.
///
/// # Errors
///
/// `NoMemory` if an allocation fails.
pub fn put_label_line(out: &mut Vec<u8>, places: &Places, label: u32) -> Result<(), NoMemory>
    ensures { OnOk result (out.new.items
        ≡ out.old.items ++ (codes ",\"line\":" ++ decimal (label_line places.now label))) }
{
    put(out, ",\"line\":")?;
    match places.at(label) {
        Some(place) => put_line_number(out, place),
        None => put_number(out, 0),
    }
}

fn put_holding(out: &mut Vec<u8>, names: &Names, holding: &Option<Command>) -> Result<(), NoMemory>
    ensures { OnOk result (out.new.items ≡ out.old.items ++ json.holds_member names.now holding.now) }
{
    match holding {
        Some(command) => {
            put(out, ",\"holds\":\"")?;
            put_command(out, names, command)?;
            put(out, "\"")
        }
        None => Ok(()),
    }
}

fn pairs_member(pairs: &Option<Disagreement>) -> &'static str
    ensures { result.now ≡ json.pairs_member pairs.now }
{
    match pairs {
        Some(_) => ",\"pairs\":\"differ\"",
        None => ",\"pairs\":\"agree\"",
    }
}
