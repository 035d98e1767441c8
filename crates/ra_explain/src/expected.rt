//! The expected answer of the violating label.
ghost use Rattle.std.specs.Prelude.{◌≡◌, IfOk, Some, option_and_then};
ghost use Rattle.ra_monitor.specs.Monitor.{fault_in};
ghost use Rattle.ra_explain.specs.Expected as expected;
ghost use Rattle.ra_explain.specs.Expected.{expected_answer_in, expected_by};
ghost use Rattle.ra_explain.specs.Places.{places_in, command_at};

use crate::places::Places;
use crate::replica_state::replica_state;
use ra_journal::Entry;
use ra_labels::{Cause, Command, Fault, ListOp, ListQuery, NoMemory, Op, Query, Reply};
use ra_monitor::Monitor;
use ra_rewrite::parts_of;
use ra_seqspec::State;
use std::alloc::Global;

/// Returns the operation of the violating label with the expected answer in place of its own: the specification's after
/// the updates delivered to its replica, in the named order. Returns `None` if the fault's cause is not the query, or
/// if those updates are not admitted, so that no answer is possible.
///
/// # Errors
///
/// `NoMemory` if an allocation fails.
///
/// # Complexity
///
/// The cost of the named sequence, and one `apply` for each of these updates.
pub fn expected_answer(
    alloc: Global,
    monitor: &Monitor,
    places: &Places,
    fault: Fault,
) -> Result<Option<Op>, NoMemory>
    requires places { places.now ≡ places_in monitor.now.log }
    requires fault { fault_in monitor.now.setup monitor.now.log ≡ Some fault }
    ensures answer { IfOk result (λ answer. answer ≡ expected_answer_in monitor.now.setup monitor.now.log) }
{
    match fault.cause {
        Cause::Query => expected_at(alloc, monitor, places, monitor.log(), fault.label),
        Cause::Order | Cause::Update => Ok(None),
    }
}

// Returns the label's operation with the expected answer after what was delivered to its replica.
fn expected_at(
    alloc: Global,
    monitor: &Monitor,
    places: &Places,
    log: &[Entry<Command, Reply>],
    label: u32,
) -> Result<Option<Op>, NoMemory>
    requires places { places.now ≡ places_in monitor.now.log }
    requires log { log.now ≡ monitor.now.log }
    ensures { IfOk result (λ answer. answer ≡ option_and_then (expected_by monitor.now.setup monitor.now.log)
        (command_at monitor.now.log (places_in monitor.now.log) label)) }
{
    match places.entry(log, label) {
        Some(entry) => expected_of(alloc, monitor, places, &entry.command),
        None => Ok(None),
    }
}

// Returns the command's operation with the expected answer.
fn expected_of(
    alloc: Global,
    monitor: &Monitor,
    places: &Places,
    command: &Command,
) -> Result<Option<Op>, NoMemory>
    requires { places.now ≡ places_in monitor.now.log }
    ensures { IfOk result (λ answer. answer ≡ expected_by monitor.now.setup monitor.now.log command.now) }
{
    let Command::Operate { replica, op, .. } = command else {
        return Ok(None);
    };
    match replica_state(alloc, monitor, places, *replica)? {
        Some(state) => expected_in(alloc, &state, op),
        None => Ok(None),
    }
}

// Returns the operation with the expected answer in this state, or `None` if it has no query.
fn expected_in(alloc: Global, state: &State, op: &Op) -> Result<Option<Op>, NoMemory>
    ensures { IfOk result (λ answer. answer ≡ expected.expected_in state.now op.now) }
{
    let Some(query) = parts_of(op)?.into_query() else {
        return Ok(None);
    };
    let answer = state.answer(alloc, &query)?;
    Ok(answer.map(asking))
}

// Returns the operation with this query.
fn asking(query: Query) -> Op
    ensures { result ≡ expected.asking query }
{
    match query {
        Query::Count(number) => Op::Count(number),
        Query::Last(value) => Op::Last(value),
        Query::LwwRead(list) => Op::LwwRead(list),
        Query::ReadIds { element, ids } => Op::OrRemove { element, ids },
        Query::OrRead(list) => Op::OrRead(list),
        Query::RgaRead(list) => Op::RgaRead(list),
        Query::List(question) => Op::List(asking_list(question)),
        Query::AnyRead(value) => Op::AnyRead(value),
        Query::MvRead(values) => Op::MvRead(values),
    }
}

// Returns the operation of a list with this query.
fn asking_list(question: ListQuery) -> ListOp
    ensures { result ≡ expected.asking_list question }
{
    match question {
        ListQuery::Near(insertion) => ListOp::Insert(insertion),
        ListQuery::Has(element) => ListOp::Remove(element),
        ListQuery::Read(list) => ListOp::Read(list),
        ListQuery::Part(list) => ListOp::Part(list),
    }
}
