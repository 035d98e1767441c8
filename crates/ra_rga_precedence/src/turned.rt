//! Places in a list at which another explained list has the neighbours the other way round.
ghost use Rattle.std.specs.Prelude.{◌≡◌, ◌<◌, ◌⊎◌, true, ℕ, length, get_or, Contains, IfOk, OnOk, IfSome};
ghost use Rattle.ra_labels.specs.Edges.{IsBefore};
ghost use Rattle.ra_labels.specs.HistorySoFar.{History};
ghost use Rattle.ra_visibility.specs.Tracked.{labels_in};
ghost use Rattle.ra_rga_precedence.specs.Nearest.{IsPastOfRead, IsTurned, IsUndecided};
ghost use Rattle.ra_rga_precedence.specs.Situation.{operations_in};

use crate::arrangement::{elements_at, labels_in_order};
use crate::neighbors::edge;
use crate::next_read::is_possible_list;
use crate::undecided::{FreePair, MOST_ASKED, order_if_any};
use ra_labels::{NoMemory, Op};
use ra_precedence::Condition;
use ra_visibility::{Seen, Tracker};
use std::alloc::Global;

/// What a read lists, and what the records demand.
#[derive(Drop)]
pub struct Reading {
    /// Marks of the labels whose elements it lists.
    pub shown: Vec<bool>,
    /// The conditions of the records.
    pub conditions: Vec<Condition>,
}

/// Returns the places of those of the pairs that another explained list has the other way round, in ascending order.
/// Usually one list turns all pairs.
///
/// # Errors
///
/// `NoMemory` if allocation fails.
///
/// # Complexity
///
/// That of `some_order`, usually once and at most `MOST_ASKED` times.
pub fn turned_places(
    alloc: Global,
    tracker: &Tracker,
    operations: &[&Op],
    needed: &[Option<u32>],
    reading: &mut Reading,
    list: &[u32],
    pairs: Vec<FreePair>,
    read: u32,
) -> Result<Vec<u32>, NoMemory>
    requires { read < labels_in tracker.now.now }
    ensures { IfOk result (λ places. (place : ℕ) → Contains places.items place → (past : History) (replica : ℕ)
        → IsPastOfRead tracker.now.now (operations_in operations.now) past replica
        → IsUndecided past.records replica list.now place) }
{
    let mut places = Vec::new(alloc);
    let mut open = pairs;
    for _ in 0..MOST_ASKED {
        let Some(other) = turned_list(
            alloc,
            operations,
            needed,
            reading,
            &tracker.vis(read),
            &open,
            read,
        )?
        else {
            break;
        };
        if !is_possible_list(alloc, tracker, operations, &other)? {
            break;
        }
        open = add_turned(&mut places, alloc, list, &other, &open)?;
    }
    places.sort_unstable();
    Ok(places)
}

// Returns the list of an order that turns all pairs, or the first one if there is no such order. Returns `None` if
// there are no pairs, or if no order turns the first one.
fn turned_list(
    alloc: Global,
    operations: &[&Op],
    needed: &[Option<u32>],
    reading: &mut Reading,
    seen: &Seen<'_>,
    pairs: &[FreePair],
    read: u32,
) -> Result<Option<Vec<u32>>, NoMemory> {
    if pairs.is_empty() {
        return Ok(None);
    }
    let base = reading.conditions.len();
    for pair in pairs {
        reading
            .conditions
            .push(edge(alloc, read, pair.left, pair.right)?)?;
    }
    let mut found = order_if_any(alloc, read, &reading.conditions)?;
    if found.is_none() {
        reading.conditions.truncate(base.saturating_add(1));
        found = order_if_any(alloc, read, &reading.conditions)?;
    }
    reading.conditions.truncate(base);
    let Some(order) = found else {
        return Ok(None);
    };
    let labels = labels_in_order(alloc, operations, needed, seen, &reading.shown, &order)?;
    let list = elements_at(alloc, operations, &labels)?;
    Ok(list)
}

// Adds the places of the pairs that the other list has the other way round. Returns the other pairs.
fn add_turned(
    places: &mut Vec<u32>,
    alloc: Global,
    list: &[u32],
    other: &[u32],
    pairs: &[FreePair],
) -> Result<Vec<FreePair>, NoMemory>
    ensures { OnOk result ((place : ℕ) → Contains places.new.items place
        → Contains places.old.items place ⊎ IsTurned list.now other.now place) }
{
    let mut open = Vec::new(alloc);
    for pair in pairs {
        match turned_place(list, other, pair.place) {
            Some(place) => places.push(place)?,
            None => open.push(*pair)?,
        }
    }
    Ok(open)
}

// Returns the place if the other list has its element and the next one the other way round.
fn turned_place(list: &[u32], other: &[u32], place: usize) -> Option<u32>
    ensures { IfSome result (IsTurned list.now other.now) }
{
    let Ok(number) = u32::try_from(place) else {
        return None;
    };
    if number as usize + 1 < list.len()
        && comes_before(other, list[number as usize + 1], list[number as usize])
    {
        Some(number)
    } else {
        None
    }
}

// Returns `true` only if the first element comes before the second one.
fn comes_before(list: &[u32], first: u32, second: u32) -> bool
    ensures { result ≡ true → IsBefore list.now first second }
{
    match (place_of(list, first), place_of(list, second)) {
        (Some(place), Some(later)) => place < later,
        _ => false,
    }
}

// Returns the first place of the element.
fn place_of(list: &[u32], element: u32) -> Option<usize>
    ensures { IfSome result (λ place. (place < length list.now) × (get_or list.now place 0 ≡ element)) }
{
    for (place, other) in list.iter().enumerate() {
        if *other == element {
            return Some(place);
        }
    }
    None
}
