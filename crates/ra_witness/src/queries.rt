//! The comparison of a label's query with the state of its replica.
ghost use Rattle.std.specs.Prelude.{◌≡◌, true, None, Some, if◌then◌else◌};
ghost use Rattle.ra_labels.specs.Specification.{answers};
ghost use Rattle.std.specs.List.{list_all};
ghost use Rattle.ra_seqspec.specs.Asked.{asks_rising};
ghost use Rattle.ra_rewrite.specs.Parts.{acts_in};
ghost use Rattle.ra_witness.specs.Labels.{queries_in, cause_in};

use ra_labels::{Cause, Query};
use ra_rewrite::{Part, Parts};
use ra_seqspec::State;

/// Returns the cause if a label with these parts fails at a replica in this state because of its query, or `None`.
#[inline(always)]
pub fn cause(state: &State, parts: &Parts) -> Option<Cause>
    requires { list_all asks_rising (queries_in (acts_in parts.now)) ≡ true }
    ensures { result ≡ cause_in (Some state.now) (acts_in parts.now) }
{
    match parts {
        Parts::One(Part::Update(_)) => None,
        Parts::One(Part::Query(query)) | Parts::Two(query, _) => unless_answered(state, query),
    }
}

fn unless_answered(state: &State, query: &Query) -> Option<Cause>
    requires { asks_rising query.now ≡ true }
    ensures { result ≡ (if answers state.now query.now then None else Some Cause.Query) }
{
    if state.admits(query) {
        None
    } else {
        Some(Cause::Query)
    }
}
