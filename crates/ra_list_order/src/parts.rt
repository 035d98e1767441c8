//! Parts of a list: where an element is, the part between two elements, and elements that are overwritten.
ghost use Rattle.std.specs.Prelude.{◌≡◌, ◌+◌, ◌<◌, ◌≤◌, ◌++◌, length, take, drop, vec_len, Contains, IsTrue, slice_index};
ghost use Rattle.ra_labels.specs.Edges.{IsBefore};
ghost use Rattle.ra_list_order.specs.Chunks.{IsPartWith};

/// Returns the index of the element, which is in the list.
///
/// # Complexity
///
/// O(k), where `k` is the index.
pub fn position_of(elements: &[u32], element: u32) -> usize
    requires { Contains elements.now element }
    ensures within { result < length elements.now }
    ensures there { slice_index elements.now result ≡ element }
{
    let mut position = 0;
    while elements[position] != element {
        position += 1;
    }
    position
}

/// Returns `true` if the first of two elements of the list is before the other one.
///
/// # Complexity
///
/// O(n) with `n` elements in the list.
pub fn is_before(elements: &[u32], one: u32, other: u32) -> bool
    requires one { Contains elements.now one }
    requires other { Contains elements.now other }
    ensures { IsTrue result → IsBefore elements.now one other }
{
    position_of(elements, one) < position_of(elements, other)
}

/// Returns the start and the end of the part of the list from one of two elements to the other, both included.
///
/// # Complexity
///
/// O(n) with `n` elements in the list.
pub fn part_with(elements: &[u32], one: u32, other: u32) -> (usize, usize)
    requires one { Contains elements.now one }
    requires other { Contains elements.now other }
    ensures { IsPartWith elements.now one other result.0 result.1 }
{
    let first = position_of(elements, one);
    let last = position_of(elements, other);
    if first <= last {
        (first, last + 1)
    } else {
        (last, first + 1)
    }
}

/// Overwrites as many elements as are given, from an index on. Does not allocate.
pub fn write_back(elements: &mut Vec<u32>, start: usize, parts: &[u32])
    requires { start + length parts.now ≤ vec_len elements.old }
    ensures { elements.new.items
        ≡ take start elements.old.items ++ (parts.now ++ drop (length parts.now) (drop start elements.old.items)) }
{
    let end = start + parts.len();
    elements[start..end].copy_from_slice(parts);
}
