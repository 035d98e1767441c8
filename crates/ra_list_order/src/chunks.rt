//! Lists of chunks: the elements of some, copied and overwritten, and the split of one.
ghost use Rattle.std.specs.Prelude.{◌≡◌, ℕ, ◌<◌, ◌≤◌, length, vec_len, vec_capacity, get_or, Contains, IfOk};
ghost use Rattle.ra_list_order.specs.Chunks.{chunk_at, joined, group_in, AreGrouped, HaveSameGroups, IsRaised};
ghost use Rattle.ra_list_order.specs.Gathering.{ArePacked, AreRemoved};

use crate::chunk::Chunk;
use crate::groups::{group_of, move_to};
use crate::numbers::next_index;
use ra_labels::NoMemory;
use std::alloc::Global;

/// The number of elements of each new chunk if many elements are put into chunks.
pub const SPREAD: usize = 96;

/// Returns the elements of the chunks in order.
///
/// # Errors
///
/// `NoMemory` if allocation fails.
///
/// # Complexity
///
/// O(length of the result), since no chunk is empty.
pub fn copied(alloc: Global, chunks: &[Chunk]) -> Result<Vec<u32>, NoMemory>
    ensures { IfOk result (λ elements. elements.items ≡ joined chunks.now) }
{
    let mut elements = Vec::new(alloc);
    for chunk in chunks {
        elements.extend_from_slice(chunk.elements())?;
    }
    Ok(elements)
}

/// Overwrites the elements of the chunks with as many others. Does not allocate.
///
/// # Complexity
///
/// O(k) with `k` elements.
pub fn refill(chunks: &mut [Chunk], elements: &[u32])
    requires { length elements.now ≡ length (joined chunks.old) }
    ensures elements { joined chunks.new ≡ elements.now }
    ensures groups { HaveSameGroups chunks.old chunks.new }
{
    let mut done = 0;
    for place in 0..chunks.len() {
        let end = done + chunks[place].elements().len();
        chunks[place].overwrite(&elements[done..end]);
        done = end;
    }
}

/// Splits the chunk at the index. The last chunk is split before its last element, since many elements are added at
/// the end; another one in the middle.
///
/// # Errors
///
/// `NoMemory` if allocation fails or if there would be 2^32 groups; nothing is changed.
///
/// # Complexity
///
/// O(c + m) with `c` chunks and `m` elements that move.
pub fn split(
    groups: &mut Vec<u32>,
    chunks: &mut Vec<Chunk>,
    places: &mut Vec<usize>,
    place: usize,
) -> Result<(), NoMemory>
    requires place { place < vec_len chunks.old }
    requires grouped { AreGrouped (group_in groups.old.items) chunks.old.items places.old.items }
    ensures grouped { AreGrouped (group_in groups.new.items) chunks.new.items places.new.items }
    ensures joined { joined chunks.new.items ≡ joined chunks.old.items }
    ensures as_many { vec_len chunks.old ≤ vec_len chunks.new }
{
    let len = chunks[place].elements().len();
    let keep = if place + 1 == chunks.len() {
        len.saturating_sub(1)
    } else {
        len / 2
    };
    split_at(groups, chunks, places, place, keep)
}

/// Splits the chunk at the index behind the given number of elements.
///
/// # Errors
///
/// `NoMemory` if allocation fails or if there would be 2^32 groups; nothing is changed.
///
/// # Complexity
///
/// O(c + m) with `c` chunks and `m` elements that move.
pub fn split_at(
    groups: &mut Vec<u32>,
    chunks: &mut Vec<Chunk>,
    places: &mut Vec<usize>,
    place: usize,
    keep: usize,
) -> Result<(), NoMemory>
    requires place { place < vec_len chunks.old }
    requires keep { keep ≤ length (chunk_at chunks.old.items place).elements }
    requires grouped { AreGrouped (group_in groups.old.items) chunks.old.items places.old.items }
    ensures grouped { AreGrouped (group_in groups.new.items) chunks.new.items places.new.items }
    ensures joined { joined chunks.new.items ≡ joined chunks.old.items }
    ensures as_many { vec_len chunks.old ≤ vec_len chunks.new }
{
    places.reserve(1)?;
    chunks.reserve(1)?;
    let at = place + 1;
    let group = next_index(places.len())?;
    let right = chunks[place].split_off(keep, group)?;
    move_to(groups, right.elements(), group);
    raise(places, at);
    places.push_reserved(at);
    let _ = chunks.insert(at, right);
    Ok(())
}

/// Removes each of the elements from its chunk. Does not allocate.
///
/// # Complexity
///
/// O(k c) for `k` elements, with `c` in one chunk.
pub fn remove_all(groups: &Vec<u32>, chunks: &mut Vec<Chunk>, places: &Vec<usize>, elements: &[u32])
    requires grouped { AreGrouped (group_in groups.now.items) chunks.old.items places.now.items }
    requires known { (x : ℕ) → Contains elements.now x → Contains (joined chunks.old.items) x }
    ensures { AreRemoved elements.now chunks.old.items chunks.new.items }
{
    for element in elements {
        let place = places[group_of(groups, *element)];
        chunks[place].remove(*element);
    }
}

/// Returns new chunks with the elements, and their places: the group of each chunk is its index.
///
/// # Errors
///
/// `NoMemory` if allocation fails or if there would be 2^32 groups.
///
/// # Complexity
///
/// O(k) with `k` elements.
pub fn packed(alloc: Global, elements: &[u32]) -> Result<(Vec<Chunk>, Vec<usize>), NoMemory>
    ensures { IfOk result (λ new. ArePacked elements.now new.0.items new.1.items) }
{
    let mut chunks = Vec::new(alloc);
    let mut places = Vec::new(alloc);
    let mut done = 0;
    while done < elements.len() {
        let more = (elements.len() - done).min(SPREAD);
        let part = elements[done..done + more].to_vec(alloc)?;
        let mut chunk = Chunk::new(alloc, next_index(chunks.len())?);
        chunk.replace(part);
        places.push(chunks.len())?;
        chunks.push(chunk)?;
        done += more;
    }
    Ok((chunks, places))
}

// Adds one to each index from this one on.
fn raise(places: &mut Vec<usize>, at: usize)
    ensures len { vec_len places.new ≡ vec_len places.old }
    ensures raised { (m : ℕ) → m < vec_len places.old
        → IsRaised at (get_or places.old.items m 0) (get_or places.new.items m 0) }
    ensures capacity { vec_capacity places.new ≡ vec_capacity places.old }
{
    for place in places.iter_mut() {
        if *place >= at {
            *place = place.saturating_add(1);
        }
    }
}
