//! The list of an RGA as linked nodes.
ghost use Rattle.std.specs.Prelude.{◌≡◌, ◌↔◌, ℕ, ◌+◌, ◌≤◌, ◌<◌, ◌||◌, ◌==◌, nat_eq, is_some, ◌∷◌, [], length, true, false, not, IsTrue, IfOk, IsOk, OnOk, OnErr, Some, if◌then◌else◌};
ghost use Rattle.std.specs.Vec.{vec_len, vec_capacity};
ghost use Rattle.std.specs.HashMap.{get, spare};
ghost use Rattle.ra_labels.specs.Lists.{is_among, insert_after, hide, shown};
ghost use Rattle.ra_seqspec.specs.Rga.{may_insert, may_hide, list_step, list_after, place_behind, place_for, IsThere, first_after, nodes_after, nodes_hiding, slots_of, entries_of, RgaListKept};

use ra_labels::{Elements, NoMemory, Update};
use std::alloc::Global;
use std::collections::HashMap;
use std::marker::Model;
use std::mem;

// The root: the element before all others, which no read shows.
const ROOT: u32 = 0;

/// The elements of an RGA in their order, the root first, each with whether a read shows it.
#[derive(Drop)]
pub struct RgaList {
    // The slot of the first node behind the root, if there are nodes.
    first: usize,
    // The nodes in the order in which they were inserted. A node's slot is its index here.
    nodes: Vec<Node>,
    // The slot of each element.
    slots: HashMap<u32, usize>,
}

// An element other than the root.
#[derive(Clone, Copy)]
struct Node {
    element: u32,
    is_shown: bool,
    // The slot of the next node. That of the last node is never followed.
    next: usize,
}

// The position of a new node: before all others, or behind the node in a slot.
#[derive(Clone, Copy)]
enum Place {
    First,
    Behind(usize),
}

impl Model for RgaList {
    ghost use Rattle.std.specs.Prelude.{ℕ, Bool, nat_eq, List};

    ghost Value = { List (ℕ × Bool) };

    ghost use Rattle.std.specs.HashMap.{get};
    ghost use Rattle.ra_seqspec.specs.Rga.{entries_of, RgaListKept};

    ghost view = { λ l. entries_of l.first l.nodes.items };

    ghost invariant = { λ l. RgaListKept l.first l.nodes.items (get nat_eq l.slots) };
}

impl RgaList {
    /// Creates the list with the root alone. Does not allocate.
    pub fn new(alloc: Global) -> RgaList
        ensures { result ≡ (0, false) ∷ [] }
    {
        RgaList {
            first: 0,
            nodes: Vec::new(alloc),
            slots: HashMap::new(alloc),
        }
    }

    /// Returns an equal list that owns its memory.
    ///
    /// # Errors
    ///
    /// `NoMemory` if allocation fails.
    ///
    /// # Complexity
    ///
    /// O(n), where `n` is the length of the list.
    pub fn copy(&self) -> Result<RgaList, NoMemory>
        ensures { IfOk result (λ copy. copy ≡ self.now) }
    {
        Ok(RgaList {
            first: self.first,
            nodes: self.nodes.clone()?,
            slots: self.slots.clone()?,
        })
    }

    /// Inserts the element directly behind the anchor and returns `true`. Returns `false` and changes nothing if the
    /// anchor is not in the list or the element is.
    ///
    /// # Errors
    ///
    /// `NoMemory` if allocation fails; the list is unchanged.
    ///
    /// # Complexity
    ///
    /// A constant number of hash map operations.
    pub fn insert_after(&mut self, anchor: u32, element: u32) -> Result<bool, NoMemory>
        ensures done { IfOk result (λ is_done. is_done ≡ may_insert anchor element self.old) }
        ensures list { IfOk result (λ is_done.
            self.new ≡ (if is_done then insert_after anchor element self.old else self.old)) }
        ensures err { OnErr result (self.new ≡ self.old) }
        ensures memory { may_insert anchor element self.old ≡ false → IsOk result }
    {
        let Some(place) = place_for(&self.slots, anchor, element) else {
            return Ok(false);
        };
        self.nodes.reserve(1)?;
        self.slots.reserve(1)?;
        put(
            &mut self.first,
            &mut self.nodes,
            &mut self.slots,
            place,
            element,
        );
        Ok(true)
    }

    /// Applies those of the updates that are an RGA's, one after another. An update that the list does not admit
    /// changes nothing. All memory is allocated before the first update.
    ///
    /// # Errors
    ///
    /// `NoMemory` if allocation fails; the list is unchanged.
    ///
    /// # Complexity
    ///
    /// A constant number of hash map operations for each update.
    pub fn apply_all(&mut self, updates: &[Update]) -> Result<(), NoMemory>
        ensures list { OnOk result (self.new ≡ list_after self.old updates.now) }
        ensures err { OnErr result (self.new ≡ self.old) }
    {
        self.nodes.reserve(updates.len())?;
        self.slots.reserve(updates.len())?;
        make_all(&mut self.first, &mut self.nodes, &mut self.slots, updates);
        Ok(())
    }

    /// Hides the element and returns `true`. Returns `false` and changes nothing if it is the root or not in the list.
    ///
    /// # Complexity
    ///
    /// One hash map lookup.
    pub fn hide(&mut self, element: u32) -> bool
        ensures done { result ≡ may_hide element self.old }
        ensures list { self.new ≡ (if result then hide element self.old else self.old) }
    {
        hide(&mut self.nodes, &self.slots, element)
    }

    /// Returns `true` if these are the elements that are shown, in their order.
    ///
    /// # Complexity
    ///
    /// O(n), where `n` is the length of the list.
    pub fn shows(&self, elements: &[u32]) -> bool
        ensures { IsTrue result ↔ (elements.now ≡ shown self.now) }
    {
        are_shown(self.first, &self.nodes, elements)
    }

    /// Returns the elements that are shown, in their order.
    ///
    /// # Errors
    ///
    /// `NoMemory` if allocation fails.
    ///
    /// # Complexity
    ///
    /// O(n), where `n` is the length of the list.
    pub fn shown(&self, alloc: Global) -> Result<Elements, NoMemory>
        ensures { IfOk result (λ elements. elements ≡ shown self.now) }
    {
        shown_elements(alloc, self.first, &self.nodes)
    }
}

// Returns `true` if the element is in the list with these slots.
fn has(slots: &HashMap<u32, usize>, element: u32) -> bool
    ensures { result ≡ (element == 0 || is_some (get nat_eq slots.now element)) }
{
    element == ROOT || slots.contains_key(&element)
}

// Returns the position directly behind the element, if it is in the list.
fn place_behind(slots: &HashMap<u32, usize>, element: u32) -> Option<Place>
    ensures { result ≡ place_behind element (get nat_eq slots.now element) }
{
    if element == ROOT {
        Some(Place::First)
    } else {
        slots.get(&element).map(|slot| Place::Behind(*slot))
    }
}

// Returns the position directly behind the anchor, if the anchor is in the list and the element is not.
fn place_for(slots: &HashMap<u32, usize>, anchor: u32, element: u32) -> Option<Place>
    ensures { result ≡ place_for anchor element (get nat_eq slots.now) }
{
    let place = place_behind(slots, anchor)?;
    if has(slots, element) {
        return None;
    }
    Some(place)
}

// Applies these updates within the reserved capacity.
fn make_all(
    first: &mut usize,
    nodes: &mut Vec<Node>,
    slots: &mut HashMap<u32, usize>,
    updates: &[Update],
)
    requires room { vec_len nodes.old + length updates.now ≤ vec_capacity nodes.old }
    requires spare { length updates.now ≤ spare slots.old }
    requires kept { RgaListKept first.old nodes.old.items (get nat_eq slots.old) }
    ensures list { entries_of first.new nodes.new.items
        ≡ list_after (entries_of first.old nodes.old.items) updates.now }
    ensures kept { RgaListKept first.new nodes.new.items (get nat_eq slots.new) }
{
    for update in updates {
        make(first, nodes, slots, update);
    }
}

// Applies the update within the reserved capacity.
fn make(first: &mut usize, nodes: &mut Vec<Node>, slots: &mut HashMap<u32, usize>, update: &Update)
    requires room { vec_len nodes.old < vec_capacity nodes.old }
    requires spare { 0 < spare slots.old }
    requires kept { RgaListKept first.old nodes.old.items (get nat_eq slots.old) }
    ensures list { entries_of first.new nodes.new.items ≡ list_step (entries_of first.old nodes.old.items) update.now }
    ensures kept { RgaListKept first.new nodes.new.items (get nat_eq slots.new) }
    ensures room { vec_len nodes.new ≤ vec_len nodes.old + 1 }
    ensures capacity { vec_capacity nodes.new ≡ vec_capacity nodes.old }
    ensures spare { spare slots.old ≤ spare slots.new + 1 }
{
    match update {
        Update::After { anchor, element } => {
            if let Some(place) = place_for(slots, *anchor, *element) {
                put(first, nodes, slots, place, *element);
            }
        }
        Update::RgaRemove(element) => {
            hide(nodes, slots, *element);
        }
        _ => {}
    }
}

// Inserts the element, which is not in the list, within the reserved capacity.
fn put(
    first: &mut usize,
    nodes: &mut Vec<Node>,
    slots: &mut HashMap<u32, usize>,
    place: Place,
    element: u32,
)
    requires room { vec_len nodes.old < vec_capacity nodes.old }
    requires spare { 0 < spare slots.old }
    requires kept { RgaListKept first.old nodes.old.items (get nat_eq slots.old) }
    requires place { (anchor : ℕ) × (place_for anchor element (get nat_eq slots.old) ≡ Some place) }
    ensures list { (anchor : ℕ) → place_for anchor element (get nat_eq slots.old) ≡ Some place
        → entries_of first.new nodes.new.items ≡ insert_after anchor element (entries_of first.old nodes.old.items) }
    ensures kept { RgaListKept first.new nodes.new.items (get nat_eq slots.new) }
    ensures room { vec_len nodes.new ≡ vec_len nodes.old + 1 }
    ensures capacity { vec_capacity nodes.new ≡ vec_capacity nodes.old }
    ensures spare { spare slots.old ≤ spare slots.new + 1 }
{
    // Capacity is reserved, so the insertion succeeds.
    let _ = slots.insert(element, nodes.len());
    link(first, nodes, place, element);
}

// Links a new node at this position.
fn link(first: &mut usize, nodes: &mut Vec<Node>, place: Place, element: u32)
    requires room { vec_len nodes.old < vec_capacity nodes.old }
    requires there { IsThere place (length nodes.old.items) }
    ensures first { first.new ≡ first_after place first.old nodes.old.items }
    ensures nodes { nodes.new.items ≡ nodes_after place first.old nodes.old.items element }
    ensures len { vec_len nodes.new ≡ vec_len nodes.old + 1 }
    ensures capacity { vec_capacity nodes.new ≡ vec_capacity nodes.old }
{
    let slot = nodes.len();
    let next = match place {
        Place::First => mem::replace(first, slot),
        Place::Behind(before) => {
            let node = &mut nodes[before];
            mem::replace(&mut node.next, slot)
        }
    };
    nodes.push_reserved(Node {
        element,
        is_shown: true,
        next,
    });
}

// Hides the element, if it is in the list and not the root.
fn hide(nodes: &mut Vec<Node>, slots: &HashMap<u32, usize>, element: u32) -> bool
    requires { (first : ℕ) × RgaListKept first nodes.old.items (get nat_eq slots.now) }
    ensures done { (first : ℕ) → RgaListKept first nodes.old.items (get nat_eq slots.now)
        → result ≡ may_hide element (entries_of first nodes.old.items) }
    ensures list { (first : ℕ) → RgaListKept first nodes.old.items (get nat_eq slots.now)
        → entries_of first nodes.new.items
        ≡ (if result then hide element (entries_of first nodes.old.items) else entries_of first nodes.old.items) }
    ensures kept { (first : ℕ) → RgaListKept first nodes.old.items (get nat_eq slots.now)
        → RgaListKept first nodes.new.items (get nat_eq slots.now) }
    ensures len { vec_len nodes.new ≡ vec_len nodes.old }
    ensures capacity { vec_capacity nodes.new ≡ vec_capacity nodes.old }
{
    if element == ROOT {
        return false;
    }
    match slots.get(&element) {
        Some(slot) => {
            hide_node(nodes, *slot);
            true
        }
        None => false,
    }
}

// Hides the node in the slot.
fn hide_node(nodes: &mut Vec<Node>, slot: usize)
    requires { slot < length nodes.old.items }
    ensures nodes { nodes.new.items ≡ nodes_hiding slot nodes.old.items }
    ensures len { vec_len nodes.new ≡ vec_len nodes.old }
    ensures capacity { vec_capacity nodes.new ≡ vec_capacity nodes.old }
{
    let node = &mut nodes[slot];
    node.is_shown = false;
}

// Returns `true` if these are the shown elements of the nodes, along the links from the first one.
fn are_shown(first: usize, nodes: &[Node], elements: &[u32]) -> bool
    requires { (slot : ℕ) → is_among slot (slots_of first nodes.now) ≡ true → slot < length nodes.now }
    ensures { IsTrue result ↔ (elements.now ≡ shown (entries_of first nodes.now)) }
{
    let mut left = elements;
    let mut slot = first;
    for _step in 0..nodes.len() {
        let node = nodes[slot];
        if node.is_shown {
            match left.split_first() {
                Some((element, rest)) if *element == node.element => left = rest,
                _ => return false,
            }
        }
        slot = node.next;
    }
    left.is_empty()
}

// Returns the shown elements of the nodes, along the links from the first one.
fn shown_elements(alloc: Global, first: usize, nodes: &[Node]) -> Result<Elements, NoMemory>
    requires { (slot : ℕ) → is_among slot (slots_of first nodes.now) ≡ true → slot < length nodes.now }
    ensures { IfOk result (λ elements. elements ≡ shown (entries_of first nodes.now)) }
{
    let mut elements = Vec::new(alloc);
    let mut slot = first;
    for _step in 0..nodes.len() {
        let node = nodes[slot];
        if node.is_shown {
            elements.push(node.element)?;
        }
        slot = node.next;
    }
    Ok(Elements::new(elements))
}
