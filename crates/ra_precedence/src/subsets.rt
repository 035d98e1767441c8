//! The search for a small subset of a stuck set that is stuck itself. What it finds is checked (`reasons`), so that no
//! clause is needed here.
use crate::condition::Condition;
use crate::reasons::is_marked;
use ra_labels::NoMemory;
use std::alloc::Global;

/// A label, and the condition by which it is not the last one.
#[derive(Clone, Copy)]
pub struct Pick {
    /// The label.
    pub label: u32,
    /// The index of the condition.
    pub condition: usize,
}

// The conditions that hold back labels of a stuck set.
#[derive(Drop)]
struct Graph<'a> {
    count: u32,
    conditions: &'a [Condition],
    // Each label of the set with each condition that holds it back, in ascending order.
    uses: Vec<(u32, usize)>,
}

impl<'a> Graph<'a> {
    fn of(
        alloc: Global,
        count: u32,
        conditions: &'a [Condition],
        set: &[u32],
    ) -> Result<Graph<'a>, NoMemory> {
        let members = marks_of(alloc, count, set)?;
        let mut uses = Vec::new(alloc);
        let mut index: usize = 0;
        for condition in conditions {
            if are_marked(&members, condition.after()) {
                for label in condition.before() {
                    uses.push((*label, index))?;
                }
            }
            index = index.saturating_add(1);
        }
        uses.sort_unstable();
        Ok(Graph {
            count,
            conditions,
            uses,
        })
    }

    // Returns the conditions that hold the label back, each with the label.
    fn holding(&self, label: u32) -> &[(u32, usize)] {
        let first = self.uses.partition_point(|it| it.0 < label);
        let end = self.uses.partition_point(|it| it.0 <= label);
        self.uses.get(first..end).unwrap_or(&[])
    }

    // Returns the labels of which one comes later by this condition.
    fn after(&self, condition: usize) -> &[u32] {
        match self.conditions.get(condition) {
            Some(it) => it.after(),
            None => &[],
        }
    }

    // Returns the label that comes later by this condition, if there is only one.
    fn single(&self, condition: usize) -> Option<u32> {
        match self.after(condition) {
            [label] => Some(*label),
            _ => None,
        }
    }
}

/// Returns labels of the stuck set, each with a condition by which it comes before other ones of these labels.
///
/// # Errors
///
/// `NoMemory` if allocation fails.
///
/// # Complexity
///
/// O(n · (log n + m)), with `n` the number of labels and the length of all conditions, and `m` that of the longest one.
pub fn small_subset(
    alloc: Global,
    count: u32,
    conditions: &[Condition],
    set: &[u32],
) -> Result<Vec<Pick>, NoMemory> {
    let graph = Graph::of(alloc, count, conditions, set)?;
    let Some(first) = set.first() else {
        return Ok(Vec::new(alloc));
    };
    let start = repeated(alloc, &graph, *first)?;
    let cycle = shortest_cycle(alloc, &graph, start)?;
    if !cycle.is_empty() {
        return Ok(cycle);
    }
    let picks = closure(alloc, &graph, start)?;
    let used = without_unused(alloc, &graph, &picks)?;
    // Nothing is used if a label has to stand before none.
    Ok(if used.is_empty() { picks } else { used })
}

fn marks_of(alloc: Global, count: u32, labels: &[u32]) -> Result<Vec<bool>, NoMemory> {
    let mut marks = Vec::new(alloc);
    marks.resize(count as usize, false)?;
    for label in labels {
        mark(&mut marks, *label);
    }
    Ok(marks)
}

// Marks the label. Returns `true` if it had no mark before.
fn mark(marks: &mut [bool], label: u32) -> bool {
    match marks.get_mut(label as usize) {
        Some(it) => {
            let is_new = !*it;
            *it = true;
            is_new
        }
        None => false,
    }
}

fn are_marked(marks: &[bool], labels: &[u32]) -> bool {
    labels.iter().all(|label| is_marked(marks, *label))
}

// Follows the first condition of each label from this one on, and returns the first label that comes again.
fn repeated(alloc: Global, graph: &Graph<'_>, first: u32) -> Result<u32, NoMemory> {
    let mut passed = marks_of(alloc, graph.count, &[])?;
    let mut at = first;
    for _ in 0..graph.count {
        if !mark(&mut passed, at) {
            break;
        }
        if let Some((_, condition)) = graph.holding(at).first() {
            if let Some(label) = graph.after(*condition).first() {
                at = *label;
            }
        }
    }
    Ok(at)
}

// Returns the labels of a shortest cycle from this label on, along conditions with one label in `after`. Returns an
// empty list if there is none.
fn shortest_cycle(alloc: Global, graph: &Graph<'_>, start: u32) -> Result<Vec<Pick>, NoMemory> {
    let mut came: Vec<Option<Pick>> = Vec::new(alloc);
    came.resize(graph.count as usize, None)?;
    let mut queue = Vec::new(alloc);
    queue.push(start)?;
    for next in 0..=graph.count as usize {
        let Some(label) = queue.get(next).copied() else {
            break;
        };
        for (_, condition) in graph.holding(label) {
            let pick = Pick {
                label,
                condition: *condition,
            };
            if let Some(end) = graph.single(*condition) {
                if arrive(&mut came, end, pick) {
                    queue.push(end)?;
                }
            }
        }
    }
    way_back(alloc, &came, start)
}

// Keeps how the label was reached. Returns `true` if it was not reached before.
fn arrive(came: &mut [Option<Pick>], label: u32, by: Pick) -> bool {
    match came.get_mut(label as usize) {
        Some(it) if it.is_none() => {
            *it = Some(by);
            true
        }
        _ => false,
    }
}

// Returns the picks of a cycle through the label, from its first step on, or an empty list if the search found none.
fn way_back(alloc: Global, came: &[Option<Pick>], start: u32) -> Result<Vec<Pick>, NoMemory> {
    let mut way = Vec::new(alloc);
    let mut at = start;
    for _ in 0..came.len() {
        match came.get(at as usize) {
            Some(Some(pick)) => {
                way.push(*pick)?;
                at = pick.label;
            }
            _ => return Ok(Vec::new(alloc)),
        }
        if at == start {
            break;
        }
    }
    way.reverse();
    Ok(way)
}

// Returns labels, from this one on, each with a condition all of whose later labels are among them. Of the conditions
// of a label the one is taken that adds the fewest labels.
fn closure(alloc: Global, graph: &Graph<'_>, start: u32) -> Result<Vec<Pick>, NoMemory> {
    let mut reached = marks_of(alloc, graph.count, &[])?;
    mark(&mut reached, start);
    let mut queue = Vec::new(alloc);
    queue.push(start)?;
    let mut picks = Vec::new(alloc);
    for next in 0..=graph.count as usize {
        let Some(label) = queue.get(next).copied() else {
            break;
        };
        let Some(condition) = cheapest(graph, &reached, label) else {
            break;
        };
        picks.push(Pick { label, condition })?;
        for later in graph.after(condition) {
            if mark(&mut reached, *later) {
                queue.push(*later)?;
            }
        }
    }
    Ok(picks)
}

// Returns the condition of the label with the fewest later labels that were not reached.
fn cheapest(graph: &Graph<'_>, reached: &[bool], label: u32) -> Option<usize> {
    let mut best: Option<(usize, usize)> = None;
    for (_, condition) in graph.holding(label) {
        let mut added: usize = 0;
        for later in graph.after(*condition) {
            if !is_marked(reached, *later) {
                added = added.saturating_add(1);
            }
        }
        if best.is_none_or(|(fewest, _)| added < fewest) {
            best = Some((added, *condition));
        }
    }
    best.map(|(_, condition)| condition)
}

// Drops, one after another, the labels that no remaining condition names in `after`, and returns the rest.
fn without_unused(alloc: Global, graph: &Graph<'_>, picks: &[Pick]) -> Result<Vec<Pick>, NoMemory> {
    let mut named = numbers_named(alloc, graph, picks)?;
    let mut condition_of: Vec<Option<usize>> = Vec::new(alloc);
    condition_of.resize(graph.count as usize, None)?;
    let mut unused = Vec::new(alloc);
    for pick in picks {
        if let Some(it) = condition_of.get_mut(pick.label as usize) {
            *it = Some(pick.condition);
        }
        if named.get(pick.label as usize) == Some(&0) {
            unused.push(pick.label)?;
        }
    }
    for next in 0..=picks.len() {
        let Some(label) = unused.get(next).copied() else {
            break;
        };
        let Some(Some(condition)) = condition_of.get(label as usize).copied() else {
            break;
        };
        if let Some(it) = condition_of.get_mut(label as usize) {
            *it = None;
        }
        for later in graph.after(condition) {
            if name_less(&mut named, *later) {
                unused.push(*later)?;
            }
        }
    }
    let mut kept = Vec::new(alloc);
    for pick in picks {
        if let Some(Some(_)) = condition_of.get(pick.label as usize) {
            kept.push(*pick)?;
        }
    }
    Ok(kept)
}

// Returns for each label how many of these conditions name it as a later one.
fn numbers_named(alloc: Global, graph: &Graph<'_>, picks: &[Pick]) -> Result<Vec<u32>, NoMemory> {
    let mut named: Vec<u32> = Vec::new(alloc);
    named.resize(graph.count as usize, 0)?;
    for pick in picks {
        for label in graph.after(pick.condition) {
            if let Some(it) = named.get_mut(*label as usize) {
                *it = it.saturating_add(1);
            }
        }
    }
    Ok(named)
}

// Takes one from the number of the label. Returns `true` if no condition names it any more.
fn name_less(named: &mut [u32], label: u32) -> bool {
    match named.get_mut(label as usize) {
        Some(it) => {
            *it = it.saturating_sub(1);
            *it == 0
        }
        None => false,
    }
}
