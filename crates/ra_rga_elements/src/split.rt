//! The split of a full chunk: the indices of the chunks behind it grow by one, and its later elements get a new group.
ghost use Rattle.std.specs.Prelude.{◌≡◌, ◌<◌, ◌≤◌, length, map, vec_len, OnOk, OnErr};
ghost use Rattle.std.specs.List.{All};
ghost use Rattle.ra_rga_elements.specs.Chunks.{chunk_at, IsSplit};
ghost use Rattle.ra_rga_elements.specs.Groups.{shifted, IsRegrouped};

use crate::chunk::Chunk;
use crate::element::Element;
use crate::entry::Entry;
use ra_labels::NoMemory;

/// Splits a full chunk. The last chunk is split before its last element, since most elements are added at the end;
/// another one in the middle.
///
/// # Errors
///
/// `NoMemory` if allocation fails; the chunks are unchanged.
pub fn split(chunks: &mut Vec<Chunk>, at: usize) -> Result<(), NoMemory>
    requires at { at < vec_len chunks.old }
    requires many { 1 < length (chunk_at chunks.old.items at).entries }
    ensures split { OnOk result (IsSplit chunks.old.items at chunks.new.items) }
    ensures same { OnErr result (chunks.new.items ≡ chunks.old.items) }
{
    let len = chunks[at].len();
    let keep = if at + 1 == chunks.len() {
        len - 1
    } else {
        len / 2
    };
    chunks.reserve(1)?;
    let chunk = chunks[at].split_off(keep)?;
    let _ = chunks.insert(at + 1, chunk);
    Ok(())
}

/// Increments the indices of the chunks behind this one, up to the last one.
pub fn shift(places: &mut [usize], at: usize, last: usize)
    requires few { last < 18446744073709551615 }
    requires last { All (λ place. place ≤ last) places.old }
    ensures { places.new ≡ map (shifted at) places.old }
{
    if at < last {
        for group in 0..places.len() {
            places[group] = shifted(at, places[group]);
        }
    }
}

// Returns the index of a chunk after the split.
fn shifted(at: usize, place: usize) -> usize
    requires { place < 18446744073709551615 }
    ensures { result ≡ shifted at place }
{
    if at < place { place + 1 } else { place }
}

/// Gives these elements this group.
pub fn regroup(elements: &mut [Element], entries: &[Entry], group: usize)
    requires { All (λ entry. entry.number < length elements.old) entries.now }
    ensures { IsRegrouped elements.old entries.now group elements.new }
{
    for entry in entries {
        let element = &mut elements[entry.number as usize];
        element.group = group;
    }
}
