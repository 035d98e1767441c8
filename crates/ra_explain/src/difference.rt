//! The difference between a reported answer and the expected one.
use ra_labels::{ListOp, NoMemory, Op};
use std::alloc::Global;

/// The difference between a reported answer and the expected one.
#[derive(Drop)]
pub enum Difference {
    /// Two lists differ from this index on, from 0. It is the length of the expected list if the reported one extends
    /// it.
    At(usize),
    /// Two ascending sets differ by these elements.
    Sets {
        /// The elements that are expected and were not reported, in ascending order.
        missing: Vec<u32>,
        /// The elements that were reported and are not expected, in ascending order.
        unexpected: Vec<u32>,
    },
    /// Two reads of a list show other elements, whatever their order. Each list is in ascending order.
    Shown {
        /// The elements that are expected and were not reported.
        missing: Vec<u32>,
        /// The elements that were reported and are not expected.
        unexpected: Vec<u32>,
        /// The elements that were reported more than once.
        repeated: Vec<u32>,
    },
}

impl Difference {
    /// Returns the difference between the reported operation and the expected one.
    ///
    /// # Errors
    ///
    /// `NoMemory` if an allocation fails.
    ///
    /// # Complexity
    ///
    /// O(n log n), where `n` is the length of the answers.
    pub fn of(alloc: Global, reported: &Op, expected: &Op) -> Result<Difference, NoMemory> {
        match (reported, expected) {
            (Op::RgaRead(reported), Op::RgaRead(expected)) => Ok(Difference::At(first_difference(
                reported.as_slice(),
                expected.as_slice(),
            ))),
            (Op::List(reported), Op::List(expected)) => {
                shown_difference(alloc, shown_by(reported), shown_by(expected))
            }
            _ => {
                let (reported, expected) = (elements_of(reported), elements_of(expected));
                Ok(Difference::Sets {
                    missing: others(alloc, expected, reported)?,
                    unexpected: others(alloc, reported, expected)?,
                })
            }
        }
    }
}

// Returns the elements that the operation of a list reads.
fn shown_by(op: &ListOp) -> &[u32] {
    match op {
        ListOp::Read(list) | ListOp::Part(list) => list.as_slice(),
        ListOp::Insert(_) | ListOp::Remove(_) => &[],
    }
}

fn shown_difference(
    alloc: Global,
    reported: &[u32],
    expected: &[u32],
) -> Result<Difference, NoMemory> {
    let reported = sorted(alloc, reported)?;
    let expected = sorted(alloc, expected)?;
    let mut repeated = Vec::new(alloc);
    let mut once = Vec::new(alloc);
    for element in &reported {
        if once.last() != Some(element) {
            once.push(*element)?;
        } else if repeated.last() != Some(element) {
            repeated.push(*element)?;
        }
    }
    Ok(Difference::Shown {
        missing: others(alloc, &expected, &once)?,
        unexpected: others(alloc, &once, &expected)?,
        repeated,
    })
}

// Returns the elements in ascending order.
fn sorted(alloc: Global, list: &[u32]) -> Result<Vec<u32>, NoMemory> {
    let mut elements = Vec::new(alloc);
    elements.extend_from_slice(list)?;
    elements.sort_unstable();
    Ok(elements)
}

// Returns the first index at which the two lists differ, from 0, or the length of the second list if the first one
// extends it.
fn first_difference(reported: &[u32], expected: &[u32]) -> usize {
    let mut place: usize = 0;
    for element in expected {
        match reported.get(place) {
            Some(other) if other == element => place = place.saturating_add(1),
            _ => break,
        }
    }
    place
}

// Returns the ascending list in the operation's answer, or an empty list if the answer is none.
fn elements_of(op: &Op) -> &[u32] {
    match op {
        Op::LwwRead(list) | Op::OrRead(list) | Op::OrRemove { ids: list, .. } => list.as_slice(),
        _ => &[],
    }
}

// Returns the elements of the first ascending list that are not in the second one.
fn others(alloc: Global, list: &[u32], others: &[u32]) -> Result<Vec<u32>, NoMemory> {
    let mut found = Vec::new(alloc);
    for element in list {
        if others.binary_search(element).is_err() {
            found.push(*element)?;
        }
    }
    Ok(found)
}
