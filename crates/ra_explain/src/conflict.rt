//! The reason for a violation by the order of a list: a cycle of edges that labels require.
ghost use Rattle.std.specs.Prelude.{◌≡◌, IfOk, IfSome};
ghost use Rattle.ra_explain.specs.Conflicts.{HoldsAt, IsConflict};
ghost use Rattle.ra_explain.specs.Places.{places_in};

use crate::agreement::{Disagreement, find_disagreement};
use crate::changes::would_hold_as;
use crate::cycle::shortest_cycle;
use crate::edges::edges_of_labels;
use crate::ordering::positions_of;
use crate::places::Places;
use crate::violation::Violation;
use ra_journal::Entry;
use ra_labels::{Command, Edge, Elements, Insertion, ListOp, NoMemory, Op, Reply};
use ra_monitor::Setup;
use std::alloc::Global;
use std::collections::BTreeMap;

/// The reason for a violation by the order of a list.
#[derive(Drop)]
pub struct Conflict {
    /// A shortest cycle of the edges that the labels require, from an edge of the violating label on. It passes each of
    /// its elements once. Each edge has the label that requires it. Empty if none was found.
    pub cycle: Vec<Edge>,
    /// The violating command with its elements in one of the orders in which it would hold, if that was found. An
    /// insertion names its left neighbour alone.
    pub holding: Option<Command>,
    /// Two elements that a label shows in one order, and the violating label the other way round. `None` if all labels
    /// show each two elements in one order.
    pub pairs: Option<Disagreement>,
}

impl Conflict {
    /// Returns the conflict of the violating label with the labels before it.
    ///
    /// # Errors
    ///
    /// `NoMemory` if an allocation fails.
    ///
    /// # Complexity
    ///
    /// That of `shortest_cycle` for the edges of all labels, that of `find_disagreement`, and the monitor's steps for
    /// the commands before.
    pub fn of(
        alloc: Global,
        setup: &Setup,
        log: &[Entry<Command, Reply>],
        places: &Places,
        violation: &Violation,
    ) -> Result<Conflict, NoMemory>
        // The places are those of the labels in the log.
        requires { places.now ≡ places_in log.now }
        // The cycle consists of edges that labels require, and passes each of its elements once. The other command
        // would hold. The pairs are two elements that the violating label shows the other way round than another one,
        // if there are any.
        ensures { IfOk result (IsConflict setup.now log.now violation.now) }
    {
        let edges = edges_of_labels(alloc, log, places)?;
        let own = edges.partition_point(|edge| edge.label < violation.fault.label);
        let positions = positions_of(alloc, edges.get(..own).unwrap_or(&[]))?;
        let through = contradicting(alloc, &edges, own, &positions)?;
        let cycle = shortest_cycle(alloc, &edges, &through)?;
        let other = reordered(alloc, &violation.reported, &positions)?;
        Ok(Conflict {
            cycle,
            holding: holding_of(alloc, setup, log, violation.place, other)?,
            pairs: find_disagreement(alloc, log, places, violation.fault.label)?,
        })
    }
}

// Returns the indices of the edges from this one on whose ends are in the other order by their positions. Each cycle
// has one of them, since the edges before extend to the positions.
fn contradicting(
    alloc: Global,
    edges: &[Edge],
    own: usize,
    positions: &BTreeMap<u32, usize>,
) -> Result<Vec<usize>, NoMemory> {
    let mut found = Vec::new(alloc);
    for number in own..edges.len() {
        let edge = edges[number];
        match (positions.get(&edge.before), positions.get(&edge.after)) {
            (Some(before), Some(after)) if before < after => {}
            _ => found.push(number)?,
        }
    }
    Ok(found)
}

// Returns the command with its elements in the order of their positions; `None` if it has no elements in an order.
fn reordered(
    alloc: Global,
    command: &Command,
    positions: &BTreeMap<u32, usize>,
) -> Result<Option<Command>, NoMemory> {
    let Command::Operate { replica, op, .. } = command else {
        return Ok(None);
    };
    let other = match op {
        Op::List(ListOp::Insert(insertion)) => ListOp::Insert(Insertion {
            right: 0,
            ..*insertion
        }),
        Op::List(ListOp::Read(list)) => ListOp::Read(sorted(alloc, list, positions)?),
        Op::List(ListOp::Part(list)) => ListOp::Part(sorted(alloc, list, positions)?),
        _ => return Ok(None),
    };
    Ok(Some(Command::Operate {
        replica: *replica,
        op: Op::List(other),
        stamp: None,
    }))
}

// Returns the elements in the order of their positions, and behind them those without a position.
fn sorted(
    alloc: Global,
    list: &Elements,
    positions: &BTreeMap<u32, usize>,
) -> Result<Elements, NoMemory> {
    let mut placed = Vec::new(alloc);
    for element in list.as_slice() {
        let position = positions.get(element).copied().unwrap_or(usize::MAX);
        placed.push((position, *element))?;
    }
    placed.sort_unstable();
    let mut elements = Vec::new(alloc);
    for (_, element) in &placed {
        elements.push(*element)?;
    }
    Ok(Elements::new(elements))
}

// Returns the command if it would hold at this index of the log.
fn holding_of(
    alloc: Global,
    setup: &Setup,
    log: &[Entry<Command, Reply>],
    place: u32,
    command: Option<Command>,
) -> Result<Option<Command>, NoMemory>
    ensures { IfOk result (λ found. IfSome found (HoldsAt setup.now log.now place)) }
{
    let Some(command) = command else {
        return Ok(None);
    };
    if would_hold_as(alloc, setup, log, place, &command)? {
        Ok(Some(command))
    } else {
        Ok(None)
    }
}
