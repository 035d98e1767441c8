//! The group of each element, which the elements of a chunk share: read, and changed for a list or for chunks.
ghost use Rattle.std.specs.Prelude.{◌≡◌, ℕ, ◌+◌, ◌<◌, ◌^◌, Some, Contains, IsSome, is_some};
ghost use Rattle.ra_labels.specs.Edges.{EachOnce};
ghost use Rattle.ra_list_order.specs.Chunks.{joined, group_in, AreMovedTo, AreMovedToChunks};

use crate::chunk::Chunk;
use crate::numbers::{number_at, set_number};

/// Returns `true` if the element has a group.
pub fn has_group(groups: &Vec<u32>, element: u32) -> bool
    ensures { result ≡ is_some (group_in groups.now.items element) }
{
    number_at(groups, element) > 0
}

/// Returns the group of the element, which has one.
pub fn group_of(groups: &Vec<u32>, element: u32) -> usize
    requires { IsSome (group_in groups.now.items element) }
    ensures { group_in groups.now.items element ≡ Some result }
{
    (number_at(groups, element) - 1) as usize
}

/// Sets the group of each of the elements, which have one. Does not allocate.
///
/// # Complexity
///
/// O(k) for `k` elements.
pub fn move_to(groups: &mut Vec<u32>, elements: &[u32], group: u32)
    requires fits { group + 1 < 2 ^ 32 }
    requires known { (x : ℕ) → Contains elements.now x → IsSome (group_in groups.old.items x) }
    ensures { AreMovedTo elements.now group (group_in groups.old.items) (group_in groups.new.items) }
{
    for element in elements {
        set_number(groups, *element, group + 1);
    }
}

/// Sets the group of each element of the chunks to that of its chunk. Does not allocate.
///
/// # Complexity
///
/// O(k) for `k` elements.
pub fn move_to_chunks(groups: &mut Vec<u32>, chunks: &[Chunk])
    requires once { EachOnce (joined chunks.now) }
    requires known { (x : ℕ) → Contains (joined chunks.now) x → IsSome (group_in groups.old.items x) }
    ensures { AreMovedToChunks chunks.now (group_in groups.old.items) (group_in groups.new.items) }
{
    for chunk in chunks {
        move_to(groups, chunk.elements(), chunk.group());
    }
}
