//! A run of bench replicas, from the first round to the verdict.
ghost use Rattle.std.specs.Prelude.{◌≡◌, ◌↔◌, ◌<◌, All, Some, IfOk, IfErr, IsErrOf};
ghost use Rattle.ra_desk.specs.Reports.{setup_of};
ghost use Rattle.ra_bench.specs.Faults.{IsUnexpectedReply};
ghost use Rattle.ra_bench.specs.Limits.{AreBenchReplicas, AreRounds};
ghost use Rattle.ra_bench.specs.Report.{IsReportOfRun};

use crate::conclude::conclude;
use crate::fault::{BenchFault, RunFault};
use crate::gate::Gate;
use crate::lie::Lie;
use crate::limits::{MOST_BENCH_REPLICAS, MOST_ROUNDS};
use crate::mailbox::Mailbox;
use crate::report::BenchReport;
use crate::round::Round;
use crate::threads::run_round;
use crate::worker::Worker;
use ra_bench_replicas::Replica;
use ra_desk::DeskReporter;
use ra_labels::Kind;
use ra_monitor::Monitor;
use ra_ticket::MOST_ENTRIES;
use std::alloc::Global;
use std::sync::Wait;
use std::thread::Threads;

/// Runs this many replicas of this kind for this many rounds, and for two more in which all messages arrive. In a round
/// each replica works on a thread of its own. It applies and reports what reached it, makes and reports an update, and
/// reads and reports the read. The next round begins when all threads are joined. A replica waits for the desk while
/// others report.
///
/// # Errors
///
/// `BadReplicas` if and only if the number of replicas is not 1 to 16. Otherwise `BadRounds` if and only if the number
/// of rounds is not 1 to 1,000. Other errors report why the run stopped.
///
/// # Complexity
///
/// One thread for each replica and round, and memory for the log and the replicas' states.
pub fn run_bench<R: Threads + Wait + Sync, G: Gate + Sync>(
    rt: &R,
    alloc: Global,
    kind: Kind,
    replicas: u8,
    rounds: u32,
    gate: &G,
) -> Result<BenchReport, BenchFault>
    // `BadReplicas` is returned exactly if the number of replicas is not from 1 to 16.
    ensures bad_replicas { IsErrOf result BenchFault.BadReplicas ↔ (AreBenchReplicas replicas → ⊥) }
    // `BadRounds` is returned exactly if the number of replicas is allowed and that of rounds is not from 1 to 1,000.
    ensures bad_rounds { IsErrOf result BenchFault.BadRounds
        ↔ (AreBenchReplicas replicas × (AreRounds rounds → ⊥)) }
    // There is a legal log of a monitor of this kind with this number of replicas, without rejected commands, whose
    // counts the report states. Its last call is a `verdict`, and the report states the reply.
    ensures report { IfOk result (λ report. IsReportOfRun kind replicas report) }
    // If an error carries a reply, it is neither `Ok` nor `Got`, the only replies that honest replicas receive.
    ensures answered { IfErr result IsUnexpectedReply }
{
    run_bench_with(rt, alloc, kind, replicas, rounds, None, gate)
}

/// Runs the bench as `run_bench` does, at the same cost. If a lie is given, one read is reported falsely.
///
/// # Errors
///
/// Those of `run_bench`.
pub fn run_bench_with<R: Threads + Wait + Sync, G: Gate + Sync>(
    rt: &R,
    alloc: Global,
    kind: Kind,
    replicas: u8,
    rounds: u32,
    lie: Option<Lie>,
    gate: &G,
) -> Result<BenchReport, BenchFault>
    // `BadReplicas` is returned exactly if the number of replicas is not from 1 to 16.
    ensures bad_replicas { IsErrOf result BenchFault.BadReplicas ↔ (AreBenchReplicas replicas → ⊥) }
    // `BadRounds` is returned exactly if the number of replicas is allowed and that of rounds is not from 1 to 1,000.
    ensures bad_rounds { IsErrOf result BenchFault.BadRounds
        ↔ (AreBenchReplicas replicas × (AreRounds rounds → ⊥)) }
    // There is a legal log of a monitor of this kind with this number of replicas, without rejected commands, whose
    // counts the report states. Its last call is a `verdict`, and the report states the reply.
    ensures report { IfOk result (λ report. IsReportOfRun kind replicas report) }
    // If an error carries a reply, it is neither `Ok` nor `Got`, the only replies that honest replicas receive.
    ensures answered { IfErr result IsUnexpectedReply }
{
    if replicas < 1 || replicas > MOST_BENCH_REPLICAS {
        return Err(BenchFault::BadReplicas);
    }
    if rounds < 1 || rounds > MOST_ROUNDS {
        return Err(BenchFault::BadRounds);
    }
    let first = Round {
        number: 0,
        rounds,
        lie,
    };
    match run(rt, alloc, kind, replicas, first, gate) {
        Ok(report) => Ok(report),
        Err(fault) => Err(fault.told()),
    }
}

// Runs all rounds and asks for the verdict.
fn run<R: Threads + Wait + Sync, G: Gate + Sync>(
    rt: &R,
    alloc: Global,
    kind: Kind,
    replicas: u8,
    first: Round,
    gate: &G,
) -> Result<BenchReport, RunFault>
    requires { AreBenchReplicas replicas × AreRounds first.rounds }
    ensures { IfOk result (IsReportOfRun kind replicas) }
{
    let mut reporters = open(alloc, kind, replicas)?;
    let Some(last) = reporters.pop() else {
        return Err(RunFault::NoMemory);
    };
    let workers = workers_of(alloc, kind, replicas, reporters)?;
    run_rounds(rt, alloc, gate, workers, first)?;
    conclude(rt, last)
}

// Opens a desk with a reporter for each replica and one more.
fn open(alloc: Global, kind: Kind, replicas: u8) -> Result<Vec<DeskReporter>, RunFault>
    requires { AreBenchReplicas replicas }
    ensures { IfOk result
        (λ all. All (λ r. ((setup_of r).kind ≡ kind) × ((setup_of r).replicas ≡ replicas)) all.items) }
{
    let Ok(monitor) = Monitor::new(alloc, kind, replicas, MOST_ENTRIES) else {
        return Err(RunFault::NoMemory);
    };
    match DeskReporter::open(alloc, monitor, replicas + 1) {
        Ok(reporters) => Ok(reporters),
        Err(_) => Err(RunFault::NoMemory),
    }
}

// Creates a worker for each replica, with the reporter of the same number.
fn workers_of(
    alloc: Global,
    kind: Kind,
    replicas: u8,
    reporters: Vec<DeskReporter>,
) -> Result<Vec<Worker>, RunFault> {
    let mut workers = Vec::with_capacity(alloc, reporters.len())?;
    for (number, reporter) in (0..replicas).zip(reporters) {
        let replica = Replica::new(alloc, kind, number, replicas)?;
        workers.push(Worker::new(replica, reporter))?;
    }
    Ok(workers)
}

// Runs all rounds, one after the other. The workers' reporters are dropped at the end.
fn run_rounds<R: Threads + Wait + Sync, G: Gate + Sync>(
    rt: &R,
    alloc: Global,
    gate: &G,
    workers: Vec<Worker>,
    first: Round,
) -> Result<(), RunFault>
    requires { AreRounds first.rounds }
{
    let mut workers = workers;
    let mut post = Mailbox::new(alloc);
    for number in 0..=first.rounds + 1 {
        let round = Round { number, ..first };
        workers = run_round(rt, alloc, gate, workers, &mut post, round)?;
    }
    Ok(())
}
