//! Which labels a reason names. It shows that no order explains the labels up to the last one of them; no clause says
//! so, and only the cost of a search depends on it.
use crate::answer::Reason;
use ra_precedence::StuckSet;

/// Returns the last label that the reason names: for a stuck set the last one that is held or requires it.
pub fn last_label(reason: &Reason) -> u32 {
    match reason {
        Reason::Lww(reason) => last_of_lww(reason),
        Reason::Rga(reason) => last_of_rga(reason),
    }
}

fn last_of_lww(reason: &ra_any_order::Refutation) -> u32 {
    match reason {
        ra_any_order::Refutation::Read { label, .. } => *label,
        ra_any_order::Refutation::Stuck(set) => last_held(set),
    }
}

fn last_of_rga(reason: &ra_rga_precedence::Refutation) -> u32 {
    match reason {
        ra_rga_precedence::Refutation::Twice(first, second) => (*first).max(*second),
        ra_rga_precedence::Refutation::Root(label) => *label,
        ra_rga_precedence::Refutation::Absent(label) => *label,
        ra_rga_precedence::Refutation::Open { read, .. } => *read,
        ra_rga_precedence::Refutation::Wrong { read, .. } => *read,
        ra_rga_precedence::Refutation::Unlisted { read, .. } => *read,
        ra_rga_precedence::Refutation::Below { read, .. } => *read,
        ra_rga_precedence::Refutation::Stuck(set) => last_held(set),
    }
}

fn last_held(set: &StuckSet) -> u32 {
    let mut last = 0;
    for held in &set.reasons {
        last = last.max(held.label).max(held.by);
    }
    last
}
