//! The choice of the log's entries that a picture shows.
use ra_explain::{
    Change, Claim, Difference, LabelsWith, Violation, named_by, needed_by, operation_in,
};
use ra_explain_text::{View, shown};
use ra_journal::Entry;
use ra_labels::{Command, ListOp, NoMemory, Op, Reply};
use std::alloc::Global;

/// The largest number of entries that are drawn of a short history or for a certificate, and of a longer history, of
/// which others are folded. Up to five rows for helpful changes are added, so there are at most 24 rows besides the
/// folds.
const MOST_ENTRIES: usize = 19;

const FEW_ENTRIES: usize = 16;

/// The number of an element's latest updates that are drawn, if the answers differ at the element.
const MOST_NAMING: u32 = 2;

/// Returns the ascending indices of the entries to draw up to the violating label. Of a short history they are all
/// accepted ones. Otherwise they are, as far as there is room: the labels that a certificate names, those of a cycle
/// and their deliveries, the helpful changes, what the label's update depends on, the updates of elements at which its
/// answer differs, and the latest deliveries and labels of its replica.
pub fn places_of(
    alloc: Global,
    view: &View<'_>,
    violation: &Violation,
) -> Result<Vec<u32>, NoMemory> {
    let mut places = Vec::new(alloc);
    places.push(violation.place)?;
    if (violation.place as usize) < MOST_ENTRIES {
        for at in 0..violation.place {
            add_entry(&mut places, view, at, MOST_ENTRIES)?;
        }
    } else {
        add_certificate(&mut places, view)?;
        add_cycle(&mut places, view, violation)?;
        add_changed(&mut places, view, violation)?;
        add_needed(&mut places, view, violation)?;
        add_differing(&mut places, view, violation)?;
        add_latest(&mut places, view, violation)?;
    }
    places.sort_unstable();
    Ok(places)
}

// Adds the entry at this index if there is room and it was accepted.
fn add_entry(places: &mut Vec<u32>, view: &View<'_>, at: u32, most: usize) -> Result<(), NoMemory> {
    if places.len() < most && !places.contains(&at) && is_drawn(view, at) {
        places.push(at)?;
    }
    Ok(())
}

fn is_drawn(view: &View<'_>, at: u32) -> bool {
    view.explanation.entry(at).is_some_and(is_accepted)
}

fn is_accepted(entry: &Entry<Command, Reply>) -> bool {
    match entry.reply {
        Reply::Ok(_) | Reply::Got(_) | Reply::Joined(_) => true,
        Reply::Yes(_) | Reply::No { .. } | Reply::Refused(_) => false,
    }
}

// Adds the labels that the claims of a certificate name.
fn add_certificate(places: &mut Vec<u32>, view: &View<'_>) -> Result<(), NoMemory> {
    for label in &named_labels(*places.allocator(), &view.explanation.certificate)? {
        if let Some(at) = view.explanation.places.at(*label) {
            add_entry(places, view, at, MOST_ENTRIES)?;
        }
    }
    Ok(())
}

/// Returns the labels that the claims name: of each claim the one that comes before others, and the one whose line
/// shows it. Behind them are the others, each of which mostly comes before others itself.
///
/// # Errors
///
/// `NoMemory` if an allocation fails.
pub fn named_labels(alloc: Global, claims: &[Claim]) -> Result<Vec<u32>, NoMemory> {
    let mut labels = Vec::new(alloc);
    for claim in claims {
        if let Some(before) = claim.before {
            labels.push(before)?;
        }
        labels.push(claim.label)?;
    }
    for claim in claims {
        labels.extend_from_slice(&claim.after)?;
    }
    Ok(labels)
}

// Adds the labels of the cycle of a list's elements, and their deliveries to the replica.
fn add_cycle(
    places: &mut Vec<u32>,
    view: &View<'_>,
    violation: &Violation,
) -> Result<(), NoMemory> {
    let Some(conflict) = &view.explanation.conflict else {
        return Ok(());
    };
    for edge in &conflict.cycle {
        add_label(places, view, edge.label)?;
    }
    for edge in &conflict.cycle {
        add_arrival(places, view, violation, edge.label)?;
    }
    Ok(())
}

// Adds the entries that the shown changes mention.
fn add_changed(
    places: &mut Vec<u32>,
    view: &View<'_>,
    violation: &Violation,
) -> Result<(), NoMemory> {
    for change in shown(&view.explanation.remedies) {
        match change {
            Change::Gets(label) => add_label(places, view, *label)?,
            Change::Misses(at) | Change::ComesBefore(at) => {
                add_entry(places, view, *at, FEW_ENTRIES)?;
            }
        }
    }
    Ok(())
}

// Adds the earlier insertion of an element that is inserted again, and the insertion that the update depends on.
fn add_needed(
    places: &mut Vec<u32>,
    view: &View<'_>,
    violation: &Violation,
) -> Result<(), NoMemory> {
    let Some(op) = operation_in(&violation.reported) else {
        return Ok(());
    };
    match op {
        Op::After { element, .. } => add_insertion(places, view, *element)?,
        Op::List(ListOp::Insert(insertion)) => add_insertion(places, view, insertion.element)?,
        _ => {}
    }
    for element in named_by(op) {
        add_insertion(places, view, element)?;
    }
    match needed_by(op) {
        Some(element) => add_insertion(places, view, element),
        None => Ok(()),
    }
}

fn add_insertion(places: &mut Vec<u32>, view: &View<'_>, element: u32) -> Result<(), NoMemory> {
    let labels = view.labels(*places.allocator(), LabelsWith::Element(element))?;
    match labels.first() {
        Some(label) => add_label(places, view, *label),
        None => Ok(()),
    }
}

fn add_label(places: &mut Vec<u32>, view: &View<'_>, label: u32) -> Result<(), NoMemory> {
    match view.explanation.places.at(label) {
        Some(at) => add_entry(places, view, at, FEW_ENTRIES),
        None => Ok(()),
    }
}

// Adds the latest updates of the elements at which the answer differs from the expected one.
fn add_differing(
    places: &mut Vec<u32>,
    view: &View<'_>,
    violation: &Violation,
) -> Result<(), NoMemory> {
    let (one, other) = differing_elements(violation);
    add_updates(places, view, violation, one)?;
    add_updates(places, view, violation, other)
}

// Returns the elements to look at: of two list reads those at the first difference, of two sets the first missing and
// the first unexpected element, of a removal its own element.
fn differing_elements(violation: &Violation) -> (Option<u32>, Option<u32>) {
    let reported = operation_in(&violation.reported);
    let expected = match &violation.expected {
        Some(command) => operation_in(command),
        None => None,
    };
    match (&violation.difference, reported, expected) {
        (Some(Difference::At(place)), Some(Op::RgaRead(reported)), Some(Op::RgaRead(expected))) => (
            reported.as_slice().get(*place).copied(),
            expected.as_slice().get(*place).copied(),
        ),
        (Some(Difference::Sets { .. }), Some(Op::OrRemove { element, .. }), _) => {
            (Some(*element), None)
        }
        (
            Some(
                Difference::Sets {
                    missing,
                    unexpected,
                }
                | Difference::Shown {
                    missing,
                    unexpected,
                    ..
                },
            ),
            _,
            _,
        ) => (missing.first().copied(), unexpected.first().copied()),
        _ => (None, None),
    }
}

// Adds the latest updates of the element, and their deliveries to the replica.
fn add_updates(
    places: &mut Vec<u32>,
    view: &View<'_>,
    violation: &Violation,
    element: Option<u32>,
) -> Result<(), NoMemory> {
    let Some(element) = element else {
        return Ok(());
    };
    let mut left = MOST_NAMING;
    for label in (0..violation.fault.label).rev() {
        if left == 0 {
            break;
        }
        if view
            .explanation
            .operation(label)
            .is_some_and(|op| is_update_of(op, element))
        {
            add_label(places, view, label)?;
            add_arrival(places, view, violation, label)?;
            left -= 1;
        }
    }
    Ok(())
}

fn add_arrival(
    places: &mut Vec<u32>,
    view: &View<'_>,
    violation: &Violation,
    label: u32,
) -> Result<(), NoMemory> {
    match view.explanation.delivery(violation.replica, label) {
        Some(at) => add_entry(places, view, at, FEW_ENTRIES),
        None => Ok(()),
    }
}

fn is_update_of(op: &Op, wanted: u32) -> bool {
    match op {
        Op::LwwAdd(element) | Op::LwwRemove(element) | Op::RgaRemove(element) => {
            *element == wanted
        }
        Op::OrAdd { element, .. } | Op::OrRemove { element, .. } | Op::After { element, .. } => {
            *element == wanted
        }
        Op::List(ListOp::Insert(insertion)) => insertion.element == wanted,
        Op::List(ListOp::Remove(element)) => *element == wanted,
        _ => false,
    }
}

// Adds the replica's latest labels and deliveries, each delivery with its label.
fn add_latest(
    places: &mut Vec<u32>,
    view: &View<'_>,
    violation: &Violation,
) -> Result<(), NoMemory> {
    let Some(before) = view.explanation.log.get(..violation.place as usize) else {
        return Ok(());
    };
    let mut at = violation.place;
    for entry in before.iter().rev() {
        at = at.saturating_sub(1);
        match &entry.command {
            Command::Deliver { replica, label }
                if *replica == violation.replica && is_accepted(entry) => {
                add_entry(places, view, at, FEW_ENTRIES)?;
                add_label(places, view, *label)?;
            }
            Command::Operate { replica, .. } | Command::Join { replica, .. }
                if *replica == violation.replica => {
                add_entry(places, view, at, FEW_ENTRIES)?;
            }
            _ => {}
        }
        if places.len() >= FEW_ENTRIES {
            break;
        }
    }
    Ok(())
}
