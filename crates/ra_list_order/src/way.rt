//! Marked elements, and the way back to the start along walked edges.
ghost use Rattle.std.specs.Prelude.{◌≡◌, ◌==◌, true, IfOk, All, Contains};
ghost use Rattle.std.specs.List.{list_any};
ghost use Rattle.ra_labels.specs.declared.edge.Edge.{Edge};
ghost use Rattle.ra_labels.specs.Edges.{IsChain};
ghost use Rattle.ra_list_order.specs.Marks.{is_marked, AreWalked};

use ra_labels::{Edge, NoMemory};
use std::alloc::Global;

/// Returns `true` if the element is the start or the end of a walked edge.
pub fn is_marked(start: u32, walked: &[Edge], element: u32) -> bool
    ensures { result ≡ is_marked start walked.now element }
{
    element == start || is_end(walked, element)
}

fn is_end(walked: &[Edge], element: u32) -> bool
    ensures { result ≡ list_any (λ (edge : Edge). edge.after == element) walked.now }
{
    walked.iter().any(|edge| edge.after == element)
}

/// Returns a chain of walked edges from the start to a marked element.
///
/// # Errors
///
/// `NoMemory` if allocation fails.
pub fn way_to(alloc: Global, start: u32, walked: &[Edge], goal: u32) -> Result<Vec<Edge>, NoMemory>
    requires walked { AreWalked start walked.now }
    requires marked { is_marked start walked.now goal ≡ true }
    ensures chain { IfOk result (λ way. IsChain start way.items goal) }
    ensures walked { IfOk result (λ way. All (Contains walked.now) way.items) }
{
    let mut way = Vec::new(alloc);
    let mut at = goal;
    let mut left = walked.len();
    while left > 0 {
        left -= 1;
        let edge = walked[left];
        if edge.after == at {
            way.push(edge)?;
            at = edge.before;
        }
    }
    way.reverse();
    Ok(way)
}
