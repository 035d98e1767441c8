//! Replicas that send one another their updates, some of them a round later, and all of them the newest first. In the
//! end all show the same.

use super::{apply_next, copy, hold, made, replica_of, shown};
use ra_bench_replicas::{Message, Replica};
use ra_labels::Kind;
use std::alloc::Global;
use std::process::Abort;

// A message on its way.
#[derive(Drop)]
struct Sent {
    to: u8,
    // The round of its arrival.
    due: u32,
    message: Message,
}

fn replicas_of(rt: &impl Abort, alloc: Global, kind: Kind, count: u8) -> Vec<Replica> {
    let mut replicas = Vec::new(alloc);
    for number in 0..count {
        let replica = replica_of(rt, alloc, kind, number, count);
        assert!(rt; replicas.push(replica).is_ok());
    }
    replicas
}

// Holds what arrives at the replica in this round, the last sent message first, and applies what can be applied.
// Returns the number of applied messages.
fn deliver(rt: &impl Abort, replica: &mut Replica, sent: &mut Vec<Sent>, round: u32) -> u32 {
    for place in (0..sent.len()).rev() {
        if place < sent.len() && sent[place].due == round && sent[place].to == replica.number() {
            let sent = sent.remove(place);
            hold(rt, replica, sent.message);
        }
    }
    let mut applied = 0u32;
    for _step in 0..replica.held() {
        if apply_next(rt, replica).is_none() {
            break;
        }
        applied = applied.wrapping_add(1);
    }
    applied
}

// Sends the replica's update of this round to all others. It arrives one round later if the sum of both replicas'
// numbers and the round is even, and otherwise two rounds later.
fn send(rt: &impl Abort, replica: &mut Replica, count: u8, round: u32, sent: &mut Vec<Sent>) {
    let from = replica.number();
    let message = Message {
        label: round,
        from,
        made: made(rt, replica, round),
    };
    for to in 0..count {
        if to != from {
            let is_odd = (from as u32 + to as u32 + round % 2) % 2;
            let due = round.saturating_add(1 + is_odd);
            let message = copy(rt, &message);
            assert!(rt; sent.push(Sent { to, due, message }).is_ok());
        }
    }
}

// Lets the replicas make an update in each of this many rounds, and receive what they were sent. Returns the number of
// applied messages.
fn run(rt: &impl Abort, replicas: &mut Vec<Replica>, alloc: Global, rounds: u32) -> u32 {
    let count = replicas.len().min(16) as u8;
    let mut sent = Vec::new(alloc);
    let mut applied = 0u32;
    for round in 0..rounds.saturating_add(2) {
        for replica in replicas.iter_mut() {
            applied = applied.wrapping_add(deliver(rt, replica, &mut sent, round));
        }
        if round < rounds {
            for replica in replicas.iter_mut() {
                send(rt, replica, count, round, &mut sent);
            }
        }
    }
    applied
}

// Asserts that no replica holds a message, and that each shows what the first one shows.
fn show_the_same(rt: &impl Abort, alloc: Global, replicas: &[Replica]) {
    if let Some(first) = replicas.first() {
        let read = shown(rt, alloc, first);
        for replica in replicas {
            assert_eq!(rt; replica.held(), 0);
            let other = shown(rt, alloc, replica);
            assert_eq!(rt; other.as_str(), read.as_str());
        }
    }
}

#[test]
fn all_show_the_same_in_the_end(rt: HostRuntime) {
    for kind in [
        Kind::Counter,
        Kind::Register,
        Kind::LwwSet,
        Kind::OrSet,
        Kind::Rga,
    ] {
        let mut replicas = replicas_of(&rt, rt.alloc(), kind, 4);
        let applied = run(&rt, &mut replicas, rt.alloc(), 20);
        assert_eq!(rt; applied, 4 * 3 * 20);
        show_the_same(&rt, rt.alloc(), &replicas);
    }
}
