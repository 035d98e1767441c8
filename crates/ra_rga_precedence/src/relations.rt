//! How two insertions stand to each other in the tree in which each stands under the one that inserts its anchor.
ghost use Rattle.std.specs.Prelude.{◌≡◌, ◌<◌, length, IfSome};
ghost use Rattle.ra_rga_precedence.specs.Ranks.{AreNeedRanks};
ghost use Rattle.ra_rga_precedence.specs.Relations.{IsRelation, relation_between, next_up, rank_of};
ghost use Rattle.ra_rga_precedence.specs.UpdateConditions.{AreBelow};

/// How two insertions stand to each other.
pub enum Relation {
    /// The first one is the second one or stands under it.
    Under,
    /// The second one is the first one or stands under it.
    Above,
    /// They stand under two insertions behind one element, each under its own.
    Apart {
        /// The one under which the first one stands.
        left: u32,
        /// The one under which the second one stands.
        right: u32,
    },
}

/// Returns how two insertions stand to each other. Does not allocate.
///
/// # Complexity
///
/// O(d), where `d` is the number of insertions between the two and the last one under which both stand.
pub fn relation_of(needed: &[Option<u32>], ranks: &[usize], first: u32, second: u32) -> Relation
    requires below { AreBelow (length needed.now) needed.now }
    requires ranks { AreNeedRanks needed.now ranks.now }
    requires first { first < length needed.now }
    requires second { second < length needed.now }
    ensures { IsRelation needed.now first second result }
{
    let mut left: Option<u32> = None;
    let mut right: Option<u32> = None;
    let mut upper = Some(first);
    let mut lower = Some(second);
    while upper != lower {
        if rank_of(ranks, upper) > rank_of(ranks, lower) {
            left = upper;
            upper = next_up(needed, upper);
        } else {
            right = lower;
            lower = next_up(needed, lower);
        }
    }
    relation_between(left, right)
}

// Returns the relation of two insertions that lead to these ones, if any, before they meet.
fn relation_between(left: Option<u32>, right: Option<u32>) -> Relation
    ensures { result ≡ relation_between left right }
{
    match (left, right) {
        (_, None) => Relation::Under,
        (None, Some(_)) => Relation::Above,
        (Some(left), Some(right)) => Relation::Apart { left, right },
    }
}

// Returns the label that inserts what the label needs; `None` means the root.
fn next_up(needed: &[Option<u32>], label: Option<u32>) -> Option<u32>
    requires { IfSome label (λ n. n < length needed.now) }
    ensures { result ≡ next_up needed.now label }
{
    match label {
        Some(n) => needed[n as usize],
        None => None,
    }
}

// Returns the rank of the label; 0 for the root.
fn rank_of(ranks: &[usize], label: Option<u32>) -> usize
    requires { IfSome label (λ n. n < length ranks.now) }
    ensures { result ≡ rank_of ranks.now label }
{
    match label {
        Some(n) => ranks[n as usize],
        None => 0,
    }
}
