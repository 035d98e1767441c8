//! Where a list has each of its elements.
ghost use Rattle.std.specs.Prelude.{◌≡◌, IfOk, MatchOption, length};
ghost use Rattle.std.specs.BTreeMap.{get};
ghost use Rattle.std.specs.Ordering.{nat_cmp};
ghost use Rattle.ra_explain.specs.Spans.{AreSpans, IsAbsent, IsSpan};

use ra_labels::NoMemory;
use std::alloc::Global;
use std::collections::BTreeMap;
use std::marker::Model;

/// The positions of an element in a list, from 0: the first one and the last one.
#[derive(Clone, Copy)]
pub struct Span {
    /// The first position.
    pub first: usize,
    /// The last position.
    pub last: usize,
}

/// A list, in which each element is found by a search among the distinct ones. Its model is the list.
#[derive(Drop)]
pub struct Spans {
    list: Vec<u32>,
    spans: BTreeMap<u32, Span>,
}

impl Model for Spans {
    ghost use Rattle.std.specs.Prelude.{ℕ, List, length};
    ghost use Rattle.ra_explain.specs.Spans.{AreSpans};

    ghost Value = { List ℕ };

    ghost view = { λ it. it.list.items };

    ghost invariant = { λ it. AreSpans it.list.items (length it.list.items) it.spans };
}

impl Spans {
    /// Returns the list with the positions of its elements.
    ///
    /// # Errors
    ///
    /// `NoMemory` if an allocation fails.
    ///
    /// # Complexity
    ///
    /// O(n log n) for `n` elements.
    pub fn of(alloc: Global, list: Vec<u32>) -> Result<Spans, NoMemory>
        // The result represents exactly this list.
        ensures { IfOk result (λ spans. spans ≡ list.items) }
    {
        let spans = spans_of(alloc, &list)?;
        Ok(Spans { list, spans })
    }

    /// Returns the first and the last position of the element, or `None` if the list does not have it.
    ///
    /// # Complexity
    ///
    /// O(log n) for `n` elements.
    pub fn span(&self, element: u32) -> Option<Span>
        // The result has the first and the last position of the element, or is `None` exactly if it has none.
        ensures { MatchOption result (IsAbsent self.now (length self.now) element)
            (IsSpan self.now (length self.now) element) }
    {
        self.spans.get(&element).copied()
    }
}

fn spans_of(alloc: Global, list: &[u32]) -> Result<BTreeMap<u32, Span>, NoMemory>
    ensures { IfOk result (AreSpans list.now (length list.now)) }
{
    let mut spans = BTreeMap::new(alloc);
    for position in 0..list.len() {
        let element = list[position];
        let first = first_position(&spans, element, position);
        let span = Span {
            first,
            last: position,
        };
        spans.insert(element, span)?;
    }
    Ok(spans)
}

// Returns the first position of the element among the spans so far, or this one if it has none.
fn first_position(spans: &BTreeMap<u32, Span>, element: u32, position: usize) -> usize
    ensures { MatchOption (get nat_cmp spans.now element) (result ≡ position) (λ span. result ≡ span.first) }
{
    match spans.get(&element) {
        Some(span) => span.first,
        None => position,
    }
}
