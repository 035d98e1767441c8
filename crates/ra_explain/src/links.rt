//! The reasons of a stuck set, with each chain of visibility merged into one link.
use ra_labels::NoMemory;
use ra_precedence::Held;
use std::alloc::Global;
use std::collections::{BTreeMap, BTreeSet};

/// A reason: the label has to stand before one of others.
#[derive(Clone, Copy)]
pub struct Link<'a> {
    /// The label.
    pub label: u32,
    /// The others, unless they were replaced by one.
    after: &'a [u32],
    /// The one label that sees this one, over others in between.
    last: Option<u32>,
    /// The label that requires it.
    by: u32,
}

impl Link<'_> {
    /// Returns the labels of which one comes later.
    pub fn after(&self) -> &[u32] {
        match &self.last {
            Some(label) => std::slice::from_ref(label),
            None => self.after,
        }
    }

    /// Returns the label that requires it.
    pub fn by(&self) -> u32 {
        self.last.unwrap_or(self.by)
    }
}

/// Returns the reasons as links. If a second label sees a first one and a third one sees the second, the third sees the
/// first. Such a chain becomes one link, and labels that only connect it are dropped. `is_seeing` says for each reason
/// whether its later label sees its label.
///
/// # Errors
///
/// `NoMemory` if an allocation fails.
///
/// # Complexity
///
/// O(n · log n), with `n` the number of reasons and of the labels in their `after`.
pub fn links_of<'a>(
    alloc: Global,
    reasons: &'a [Held],
    is_seeing: &[bool],
) -> Result<Vec<Link<'a>>, NoMemory> {
    let last = last_ones(alloc, reasons, is_seeing)?;
    let mut all = Vec::new(alloc);
    for held in reasons {
        all.push(Link {
            label: held.label,
            after: held.after.as_slice(),
            last: last.get(&held.label).copied(),
            by: held.by,
        })?;
    }
    named_ones(alloc, &all)
}

// Returns, for each label that another one sees, the last label of the chain that begins with it.
fn last_ones(
    alloc: Global,
    reasons: &[Held],
    is_seeing: &[bool],
) -> Result<BTreeMap<u32, u32>, NoMemory> {
    let mut seen = Vec::new(alloc);
    for (at, held) in reasons.iter().enumerate() {
        if is_seeing.get(at) == Some(&true) {
            if let Some(later) = held.after.first() {
                seen.push((held.label, *later))?;
            }
        }
    }
    // A label sees labels with lower numbers, so the last one of a chain is known before the others.
    seen.sort_unstable();
    let mut last = BTreeMap::new(alloc);
    for (label, later) in seen.iter().rev() {
        let end = last.get(later).copied().unwrap_or(*later);
        last.insert(*label, end)?;
    }
    Ok(last)
}

// Returns those of the links whose label another one names as a later label.
fn named_ones<'a>(alloc: Global, links: &[Link<'a>]) -> Result<Vec<Link<'a>>, NoMemory> {
    let mut named = BTreeSet::new(alloc);
    for link in links {
        for label in link.after() {
            named.insert(*label)?;
        }
    }
    let mut kept = Vec::new(alloc);
    for link in links {
        if named.contains(&link.label) {
            kept.push(*link)?;
        }
    }
    Ok(kept)
}
