//! The edges that the labels of a list require of an order of its elements.
ghost use Rattle.std.specs.Prelude.{◌≡◌, ◌++◌, IfOk, OnOk};
ghost use Rattle.ra_labels.specs.ListHistory.{edges_required_by};
ghost use Rattle.ra_labels.specs.ListOperations as operations;
ghost use Rattle.ra_labels.specs.Reads.{edges_of_read};
ghost use Rattle.ra_labels.specs.declared.list_operation.ListUpdate.TheVariants.{Put};
ghost use Rattle.ra_explain.specs.Conflicts.{edges_at, edges_of_labels};

use crate::origin::operation_of;
use crate::places::Places;
use ra_journal::Entry;
use ra_labels::{Command, Edge, Insertion, ListOp, NoMemory, Op, Reply};
use std::alloc::Global;

/// Returns the edges that the labels with these indices in the log require, in the order of the labels.
///
/// # Errors
///
/// `NoMemory` if an allocation fails.
///
/// # Complexity
///
/// O(number of labels and edges).
pub fn edges_of_labels(
    alloc: Global,
    log: &[Entry<Command, Reply>],
    places: &Places,
) -> Result<Vec<Edge>, NoMemory>
    // The result has exactly the edges that the labels require, in the order of the labels.
    ensures { IfOk result (λ edges. edges.items ≡ edges_of_labels log.now places.now) }
{
    let mut edges = Vec::new(alloc);
    for label in 0..places.count() {
        add_edges_at(&mut edges, log, places, label)?;
    }
    Ok(edges)
}

// Adds the edges that the label requires.
fn add_edges_at(
    edges: &mut Vec<Edge>,
    log: &[Entry<Command, Reply>],
    places: &Places,
    label: u32,
) -> Result<(), NoMemory>
    ensures { OnOk result (edges.new.items ≡ edges.old.items ++ edges_at log.now places.now label) }
{
    match operation_of(log, places, label) {
        Some(op) => add_edges(edges, label, op),
        None => Ok(()),
    }
}

// Adds the edges that the operation with this label requires.
fn add_edges(edges: &mut Vec<Edge>, label: u32, op: &Op) -> Result<(), NoMemory>
    ensures { OnOk result (edges.new.items ≡ edges.old.items ++ edges_required_by label op.now) }
{
    match op {
        Op::List(op) => add_list_edges(edges, label, op),
        _ => Ok(()),
    }
}

fn add_list_edges(edges: &mut Vec<Edge>, label: u32, op: &ListOp) -> Result<(), NoMemory>
    ensures { OnOk result (edges.new.items ≡ edges.old.items ++ operations.edges_of label op.now) }
{
    match op {
        ListOp::Insert(insertion) => add_insertion(edges, label, *insertion),
        ListOp::Remove(_) => Ok(()),
        ListOp::Read(list) | ListOp::Part(list) => add_read(edges, label, list.as_slice()),
    }
}

// Adds the edges of an insertion: from the left neighbour to the element, and from it to the right neighbour.
fn add_insertion(edges: &mut Vec<Edge>, label: u32, insertion: Insertion) -> Result<(), NoMemory>
    ensures { OnOk result (edges.new.items
        ≡ edges.old.items ++ operations.edges_of_update label (Put insertion)) }
{
    if insertion.left != 0 {
        edges.push(Edge {
            before: insertion.left,
            after: insertion.element,
            label,
        })?;
    }
    if insertion.right != 0 {
        edges.push(Edge {
            before: insertion.element,
            after: insertion.right,
            label,
        })?;
    }
    Ok(())
}

// Adds the edges of a read: from each listed element to the next one.
fn add_read(edges: &mut Vec<Edge>, label: u32, list: &[u32]) -> Result<(), NoMemory>
    ensures { OnOk result (edges.new.items ≡ edges.old.items ++ edges_of_read label list.now) }
{
    for next in 1..list.len() {
        edges.push(Edge {
            before: list[next - 1],
            after: list[next],
            label,
        })?;
    }
    Ok(())
}
