//! Elements by their numbers.
ghost use Rattle.std.specs.Prelude.{◌≡◌, IfOk};
ghost use Rattle.ra_list_witness.specs.Named.{all_named, elements_of};

use ra_labels::{Edge, NoMemory};
use ra_list_replica::ElementNumbers;
use std::alloc::Global;

/// Returns the elements with these numbers, in this order. A number that no element has is left out.
///
/// # Errors
///
/// `NoMemory` if allocation fails.
///
/// # Complexity
///
/// O(n) for `n` numbers.
pub fn elements_of(
    alloc: Global,
    numbers: &ElementNumbers,
    order: &[u32],
) -> Result<Vec<u32>, NoMemory>
    ensures { IfOk result (λ elements. elements.items ≡ elements_of numbers.now order.now) }
{
    let mut elements = Vec::with_capacity(alloc, order.len())?;
    for number in order {
        if let Some(element) = numbers.element(*number) {
            elements.push(element)?;
        }
    }
    Ok(elements)
}

/// Replaces the numbers at the ends of the edges by their elements.
///
/// # Complexity
///
/// O(n) for `n` edges.
pub fn name_edges(numbers: &ElementNumbers, edges: &mut Vec<Edge>)
    ensures { edges.new.items ≡ all_named numbers.now edges.old.items }
{
    for i in 0..edges.len() {
        let edge = edges[i];
        edges[i] = Edge {
            before: numbers.element(edge.before).unwrap_or(0),
            after: numbers.element(edge.after).unwrap_or(0),
            label: edge.label,
        };
    }
}
