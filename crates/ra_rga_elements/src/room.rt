//! Room for one more element, reserved before the insertion, so that the list is unchanged if allocation fails.
ghost use Rattle.std.specs.Prelude.{◌≡◌, true, OnOk};
ghost use Rattle.ra_rga_elements.specs.Chunks.{joined};
ghost use Rattle.ra_rga_elements.specs.Groups.{AreSameButGroups};
ghost use Rattle.ra_rga_elements.specs.Kept.{have_room, ChunksKept};

use crate::chunk::Chunk;
use crate::element::Element;
use crate::split::{regroup, shift, split};
use ra_labels::NoMemory;

/// Reserves room for one more element: splits the chunk with the newest element, at this index, if it is full.
///
/// # Errors
///
/// `NoMemory` if allocation fails; the elements and their order are unchanged.
pub fn reserve_place(
    chunks: &mut Vec<Chunk>,
    places: &mut Vec<usize>,
    elements: &mut [Element],
    newest: usize,
) -> Result<(), NoMemory>
    requires { ChunksKept elements.old chunks.old.items places.old.items newest }
    ensures kept { ChunksKept elements.new chunks.new.items places.new.items newest }
    ensures joined { joined chunks.new.items ≡ joined chunks.old.items }
    ensures elements { AreSameButGroups elements.old elements.new }
    ensures room { OnOk result (have_room chunks.new.items ≡ true) }
{
    if chunks[newest].has_room() {
        return Ok(());
    }
    places.reserve(1)?;
    split(chunks, newest)?;
    shift(places.as_mut_slice(), newest, chunks.len() - 2);
    regroup(elements, chunks[newest + 1].entries(), places.len());
    places.push_reserved(newest + 1);
    Ok(())
}
