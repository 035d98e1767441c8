//! The search for the position of a new element: behind its anchor, past elements with greater stamps, chunk by chunk.
ghost use Rattle.std.specs.Prelude.{◌+◌, ◌<◌, ◌≤◌, length, Contains};
ghost use Rattle.ra_rga_elements.specs.Entries.{numbers_in, IsNumberAt};
ghost use Rattle.ra_rga_elements.specs.Chunks.{chunk_at, joined, offset, AreFilled, IsSpotFor};

use crate::chunk::Chunk;
use ra_labels::Stamp;

/// The position of a new element: the index of a chunk, and a position in this chunk.
#[derive(Clone, Copy)]
pub struct Spot {
    pub place: usize,
    pub position: usize,
}

/// Returns the position behind the anchor, which is in the chunk at this index, and behind all elements with a greater
/// stamp that follow it directly.
///
/// # Complexity
///
/// O(c + n), where `c` is the number of chunks passed and `n` the length of a chunk.
pub fn spot_behind(chunks: &[Chunk], place: usize, anchor: u32, stamp: Stamp) -> Spot
    requires there { place < length chunks.now }
    requires among { Contains (numbers_in (chunk_at chunks.now place).entries) anchor }
    requires filled { AreFilled chunks.now }
    ensures { IsSpotFor chunks.now anchor stamp result }
{
    let first = &chunks[place];
    let mut place = place;
    let mut position = first.past_greater(first.position_behind(anchor), stamp);
    while position == chunks[place].len() && place + 1 < chunks.len() {
        let further = chunks[place + 1].past_greater(0, stamp);
        if further == 0 {
            return Spot { place, position };
        }
        place += 1;
        position = further;
    }
    Spot { place, position }
}

/// Returns the number of the element directly behind the position, or `None` at the end of the list.
pub fn number_behind(chunks: &[Chunk], spot: Spot) -> Option<u32>
    requires there { spot.place < length chunks.now }
    requires among { spot.position ≤ length (chunk_at chunks.now spot.place).entries }
    requires filled { AreFilled chunks.now }
    ensures { IsNumberAt (joined chunks.now) (offset chunks.now spot.place + spot.position) result }
{
    if spot.position < chunks[spot.place].len() {
        return Some(chunks[spot.place].number(spot.position));
    }
    if spot.place + 1 < chunks.len() {
        return Some(chunks[spot.place + 1].number(0));
    }
    None
}
