//! The updates and reads of each kind in the first rounds, without messages of others.

use super::{applies, is_text, made, replica_of, said, shown, shows};
use ra_bench_replicas::Replica;
use ra_labels::Kind;
use std::alloc::Global;
use std::process::Abort;

struct Rounds {
    kind: Kind,
    number: u8,
    replicas: u8,
    // The update and then the read of each round.
    said: &'static [(&'static str, &'static str)],
}

static ROUNDS: [Rounds; 10] = [
    Rounds {
        kind: Kind::Counter,
        number: 0,
        replicas: 1,
        said: &[("inc", "1"), ("dec", "0"), ("inc", "1")],
    },
    Rounds {
        kind: Kind::Counter,
        number: 1,
        replicas: 2,
        said: &[("dec", "-1"), ("inc", "0"), ("dec", "-1")],
    },
    Rounds {
        kind: Kind::Register,
        number: 0,
        replicas: 1,
        said: &[("write 1 @1", "1"), ("write 2 @2", "2")],
    },
    Rounds {
        kind: Kind::Register,
        number: 2,
        replicas: 3,
        said: &[("write 3 @1", "3"), ("write 6 @2", "6")],
    },
    Rounds {
        kind: Kind::LwwSet,
        number: 0,
        replicas: 1,
        said: &[
            ("add 1 @1", "1"),
            ("add 2 @2", "1,2"),
            ("remove 1 @3", "2"),
            ("add 4 @4", "2,4"),
            ("add 5 @5", "2,4,5"),
            ("remove 2 @6", "4,5"),
        ],
    },
    Rounds {
        kind: Kind::LwwSet,
        number: 2,
        replicas: 3,
        said: &[
            ("add 3 @1", "3"),
            ("add 6 @2", "3,6"),
            ("remove 3 @3", "6"),
            ("add 4 @4", "4,6"),
        ],
    },
    Rounds {
        kind: Kind::OrSet,
        number: 0,
        replicas: 1,
        said: &[
            ("add 1 #1", "1"),
            ("add 2 #2", "1,2"),
            ("remove 1 #1", "2"),
            ("add 4 #4", "2,4"),
            ("add 5 #5", "2,4,5"),
            ("remove 2 #2", "4,5"),
        ],
    },
    Rounds {
        kind: Kind::OrSet,
        number: 3,
        replicas: 4,
        said: &[
            ("add 4 #4", "4"),
            ("add 0 #8", "0,4"),
            ("remove 0 #8", "4"),
            ("add 0 #16", "0,4"),
            ("add 4 #20", "0,4"),
            ("remove 0 #16", "4"),
            ("add 4 #28", "4"),
            ("add 0 #32", "0,4"),
        ],
    },
    Rounds {
        kind: Kind::Rga,
        number: 0,
        replicas: 1,
        said: &[
            ("after 0 1 @1", "1"),
            ("after 0 2 @2", "2,1"),
            ("remove 2", "1"),
            ("after 0 4 @3", "4,1"),
            ("after 4 5 @4", "4,5,1"),
            ("remove 4", "5,1"),
            ("after 5 7 @5", "5,7,1"),
        ],
    },
    Rounds {
        kind: Kind::Rga,
        number: 2,
        replicas: 3,
        said: &[
            ("after 0 3 @1", "3"),
            ("after 0 6 @2", "6,3"),
            ("remove 6", "3"),
            ("after 0 12 @3", "12,3"),
        ],
    },
];

#[test]
fn each_round_has_its_update(rt: HostRuntime) {
    for row in &ROUNDS {
        let mut replica = replica_of(&rt, rt.alloc(), row.kind, row.number, row.replicas);
        assert_eq!(rt; replica.number(), row.number);
        let mut round = 0;
        for (update, read) in row.said {
            makes(&rt, rt.alloc(), &mut replica, row, round, update);
            is_text(
                &rt,
                shown(&rt, rt.alloc(), &replica).as_str(),
                read,
                round as usize,
            );
            round = round.wrapping_add(1);
        }
    }
}

// Asserts that the replica makes this update in the round, and had applied one update of its own in each round before.
fn makes(
    rt: &impl Abort,
    alloc: Global,
    replica: &mut Replica,
    row: &Rounds,
    round: u32,
    update: &str,
) {
    let made = made(rt, replica, round);
    let said = said(rt, alloc, &made.op, made.clock);
    is_text(rt, said.as_str(), update, round as usize);
    let had = made.had.as_slice();
    assert_eq!(rt; had.len(), row.replicas as usize);
    assert_eq!(rt; had.get(row.number as usize), Some(&round));
}

// The read of a replica that is alone, in a late round.
#[test]
fn the_fortieth_round_has_its_read(rt: HostRuntime) {
    for (kind, read) in [
        (Kind::Counter, "0"),
        (Kind::Register, "40"),
        (Kind::LwwSet, "0,4,5,6,7"),
        (Kind::OrSet, "0,4,5,6,7"),
        (Kind::Rga, "40,35,37,29,31,23,25,17,19,11,13,5,7,1"),
    ] {
        let mut replica = replica_of(&rt, rt.alloc(), kind, 0, 1);
        for round in 0..40 {
            made(&rt, &mut replica, round);
        }
        shows(&rt, rt.alloc(), &replica, read);
    }
}

// The read before any update.
#[test]
fn at_first_nothing_is_shown(rt: HostRuntime) {
    for (kind, read) in [
        (Kind::Counter, "0"),
        (Kind::Register, "none"),
        (Kind::LwwSet, "-"),
        (Kind::OrSet, "-"),
        (Kind::Rga, "-"),
    ] {
        let mut replica = replica_of(&rt, rt.alloc(), kind, 0, 16);
        shows(&rt, rt.alloc(), &replica, read);
        assert_eq!(rt; replica.held(), 0);
        applies(&rt, &mut replica, None, 0);
    }
}
