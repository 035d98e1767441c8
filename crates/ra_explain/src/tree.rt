//! The tree of an RGA's insertions, each below its anchor.
use ra_labels::NoMemory;
use std::alloc::Global;
use std::collections::BTreeMap;

/// For a read and two insertions, the first two adjacent elements of its list that fork at them (`ra_rga_forks`).
pub type Forks = BTreeMap<(u32, u32, u32), (u32, u32)>;

/// The label and the anchor of each element's insertion.
#[derive(Drop)]
pub struct Tree {
    insertions: BTreeMap<u32, (u32, u32)>,
}

impl Tree {
    /// Returns the tree without insertions.
    pub fn new(alloc: Global) -> Tree {
        Tree {
            insertions: BTreeMap::new(alloc),
        }
    }

    /// Adds the insertion of an element behind an anchor by this label.
    ///
    /// # Errors
    ///
    /// `NoMemory` if an allocation fails.
    pub fn insert(&mut self, label: u32, anchor: u32, element: u32) -> Result<(), NoMemory> {
        self.insertions.insert(element, (label, anchor))?;
        Ok(())
    }

    /// Adds the forks of the read's list. For two adjacent elements, neither an ancestor of the other, the key has the
    /// labels that insert the children of their lowest common ancestor. The first such pair is kept.
    ///
    /// # Errors
    ///
    /// `NoMemory` if an allocation fails.
    ///
    /// # Complexity
    ///
    /// O(l · d · log n) for a list of `l` elements, `n` insertions, and ways of at most `d` steps between neighbours.
    pub fn add_forks(
        &self,
        forks: &mut Forks,
        alloc: Global,
        read: u32,
        list: &[u32],
    ) -> Result<(), NoMemory> {
        let mut first = None;
        for second in list {
            if let Some(first) = first {
                if let Some((left, right)) = self.fork(alloc, first, *second)? {
                    let key = (read, left, right);
                    if !forks.contains_key(&key) {
                        forks.insert(key, (first, *second))?;
                    }
                }
            }
            first = Some(*second);
        }
        Ok(())
    }

    // Returns the labels that insert the children of the lowest common ancestor, one above each of the two elements, or
    // `None` if one element is an ancestor of the other. Climbs from both elements in turn.
    fn fork(&self, alloc: Global, first: u32, second: u32) -> Result<Option<(u32, u32)>, NoMemory> {
        let mut left = Way::of(alloc, first)?;
        let mut right = Way::of(alloc, second)?;
        for _ in 0..=self.insertions.len() {
            if let Some(last) = left.climb(&self.insertions)? {
                if let Some(other) = right.child_of(left.at) {
                    return Ok(self.labels_of(Some(last), other));
                }
            }
            if let Some(last) = right.climb(&self.insertions)? {
                if let Some(other) = left.child_of(right.at) {
                    return Ok(self.labels_of(other, Some(last)));
                }
            }
        }
        Ok(None)
    }

    fn labels_of(&self, left: Option<u32>, right: Option<u32>) -> Option<(u32, u32)> {
        let (left, _) = self.insertions.get(&left?)?;
        let (right, _) = self.insertions.get(&right?)?;
        Some((*left, *right))
    }
}

// A way up from an element.
#[derive(Drop)]
struct Way {
    at: u32,
    // For each element of the way the one from which it was reached, or `None` for the first one.
    passed: BTreeMap<u32, Option<u32>>,
}

impl Way {
    fn of(alloc: Global, element: u32) -> Result<Way, NoMemory> {
        let mut passed = BTreeMap::new(alloc);
        passed.insert(element, None)?;
        Ok(Way {
            at: element,
            passed,
        })
    }

    // Climbs to the anchor, unless the way is at the root. Returns the element from which it climbed.
    fn climb(&mut self, insertions: &BTreeMap<u32, (u32, u32)>) -> Result<Option<u32>, NoMemory> {
        let Some((_, anchor)) = insertions.get(&self.at) else {
            return Ok(None);
        };
        let from = self.at;
        self.passed.insert(*anchor, Some(from))?;
        self.at = *anchor;
        Ok(Some(from))
    }

    // Returns the element from which this one was reached if the way passed it: `None` within if it is the first one.
    fn child_of(&self, element: u32) -> Option<Option<u32>> {
        self.passed.get(&element).copied()
    }
}
