//! What the violating read can return so that some order explains it.
ghost use Rattle.std.specs.Prelude.{IfOk};
ghost use Rattle.ra_explain.specs.PossibleAnswers.{HasPossible};

use crate::difference::Difference;
use crate::origin::operation_in;
use crate::violation::Violation;
use ra_another_order::{PossibleAnswers, possible_answers};
use ra_journal::Entry;
use ra_labels::{Cause, Command, NoMemory, Reply};
use ra_monitor::Setup;
use std::alloc::Global;

/// Returns what the violating read can return so that some order explains it with the labels before it. `None` if the
/// cause is not the query, if the label is no read of a register, an LWW set or an RGA, or if no list is possible. Of
/// an LWW set the elements of the difference are asked about first.
///
/// # Errors
///
/// Those of `ra_another_order::possible_answers`.
///
/// # Complexity
///
/// That of `ra_another_order::possible_answers`.
pub fn possible_at(
    alloc: Global,
    setup: &Setup,
    log: &[Entry<Command, Reply>],
    violation: &Violation,
) -> Result<Option<PossibleAnswers>, NoMemory>
    // They are what the read can return, if some order explains the labels before it.
    ensures { IfOk result (HasPossible setup.now log.now violation.now) }
{
    let Cause::Query = violation.fault.cause else {
        return Ok(None);
    };
    let Some(read) = operation_in(&violation.reported) else {
        return Ok(None);
    };
    let Some(before) = log.get(..violation.place as usize) else {
        return Ok(None);
    };
    let first = elements_of(alloc, &violation.difference)?;
    let found = possible_answers(
        alloc,
        setup.kind,
        setup.replicas,
        before,
        violation.replica,
        read,
        &first,
    )?;
    Ok(found)
}

// Returns the elements in which two sets differ.
fn elements_of(alloc: Global, difference: &Option<Difference>) -> Result<Vec<u32>, NoMemory> {
    let mut elements = Vec::new(alloc);
    if let Some(
        Difference::Sets {
            missing,
            unexpected,
        },
    ) = difference
    {
        elements.extend_from_slice(missing)?;
        elements.extend_from_slice(unexpected)?;
    }
    Ok(elements)
}
