//! The threads of a round: each worker has one of its own, and all are joined before the next round begins.
use crate::fault::RunFault;
use crate::gate::Gate;
use crate::mailbox::Mailbox;
use crate::round::Round;
use crate::worker::{Done, Worker};
use ra_bench_replicas::Message;
use ra_labels::NoMemory;
use std::alloc::Global;
use std::sync::Wait;
use std::thread;
use std::thread::{JoinHandle, Threads};

/// Runs the round on all workers, and returns them. Their messages are handed to the post.
pub fn run_round<R: Threads + Wait + Sync, G: Gate + Sync>(
    rt: &R,
    alloc: Global,
    gate: &G,
    workers: Vec<Worker>,
    post: &mut Mailbox,
    round: Round,
) -> Result<Vec<Worker>, RunFault> {
    let inboxes = inboxes_of(alloc, &workers, post, round.number)?;
    let done = in_threads(rt, alloc, gate, workers, inboxes, round)?;
    let mut workers = Vec::with_capacity(alloc, done.len())?;
    let mut messages = Vec::with_capacity(alloc, done.len())?;
    for Done { worker, sent } in done {
        workers.push(worker)?;
        if let Some(message) = sent? {
            messages.push(message)?;
        }
    }
    post.send(messages);
    Ok(workers)
}

// Returns the messages that reach each of the workers.
fn inboxes_of(
    alloc: Global,
    workers: &[Worker],
    post: &Mailbox,
    round: u32,
) -> Result<Vec<Vec<Message>>, NoMemory> {
    let mut inboxes = Vec::with_capacity(alloc, workers.len())?;
    for worker in workers {
        inboxes.push(post.inbox(alloc, worker.number(), round)?)?;
    }
    Ok(inboxes)
}

// Runs the round of each worker on a thread. All started threads have ended when this returns.
fn in_threads<R: Threads + Wait + Sync, G: Gate + Sync>(
    rt: &R,
    alloc: Global,
    gate: &G,
    workers: Vec<Worker>,
    inboxes: Vec<Vec<Message>>,
    round: Round,
) -> Result<Vec<Done>, RunFault> {
    thread::scope(thread::scope_env(), rt, |scope| {
        let mut handles = Vec::with_capacity(alloc, workers.len())?;
        for (worker, inbox) in workers.into_iter().zip(inboxes) {
            let started = scope.spawn(move || worker.work(rt, alloc, gate, inbox, round));
            match started {
                Ok(handle) => handles.push(handle)?,
                Err(_) => return Err(RunFault::Thread),
            }
        }
        joined(rt, alloc, handles)
    })
}

// Joins the threads, and returns their results in order.
fn joined<R: Threads + Wait>(
    rt: &R,
    alloc: Global,
    handles: Vec<JoinHandle<Done>>,
) -> Result<Vec<Done>, RunFault> {
    let mut done = Vec::with_capacity(alloc, handles.len())?;
    for handle in handles {
        done.push(handle.join(rt))?;
    }
    Ok(done)
}
