//! The parts of a label: queries and updates.
ghost use Rattle.std.specs.Prelude.{◌≡◌, option_to_list, filter_map};
ghost use Rattle.ra_labels.specs.Rewriting.{update_of, query_of};
ghost use Rattle.ra_rewrite.specs.Parts.{acts_in};

use ra_labels::{Query, Update};

/// One part of a label.
#[derive(Drop)]
pub enum Part {
    /// A query with its answer.
    Query(Query),
    /// An update.
    Update(Update),
}

/// All parts of a label.
#[derive(Drop)]
pub enum Parts {
    /// The whole label as one part.
    One(Part),
    /// A query half, and the update half behind it.
    Two(Query, Update),
}

impl Parts {
    /// Returns the update among the parts, if any, and consumes `self`.
    pub fn into_update(self) -> Option<Update>
        // The result is the update among the parts, or `None` if there is none.
        ensures { option_to_list result ≡ filter_map (λ act. update_of act.1) (acts_in self) }
    {
        match self {
            Parts::One(Part::Query(_asked)) => None,
            Parts::One(Part::Update(update)) => Some(update),
            Parts::Two(_asked, update) => Some(update),
        }
    }

    /// Returns the query among the parts, if any, and consumes `self`.
    pub fn into_query(self) -> Option<Query>
        // The result is the query among the parts, or `None` if there is none.
        ensures { option_to_list result ≡ filter_map (λ act. query_of act.1) (acts_in self) }
    {
        match self {
            Parts::One(Part::Update(_done)) => None,
            Parts::One(Part::Query(query)) => Some(query),
            Parts::Two(query, _done) => Some(query),
        }
    }
}
