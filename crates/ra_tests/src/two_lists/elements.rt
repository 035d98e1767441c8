//! The list of all elements, also with many chunks.

use ra_labels::{LOWEST, NoMemory, Stamp};
use ra_rga_elements::{ElementList, ROOT};
use std::alloc::Global;

// An element of a plain list.
#[derive(Clone, Copy)]
struct Plain {
    number: u32,
    stamp: Stamp,
}

// The choice of the next anchor.
#[derive(Clone, Copy)]
enum Anchors {
    Newest,
    Root,
    Scattered,
}

// Inserts behind the anchor, and behind all following elements with a greater stamp.
fn put(list: &mut Vec<Plain>, new: Plain, anchor: u32) -> Result<(), NoMemory> {
    let mut at = 0;
    let mut is_behind = false;
    for (place, plain) in list.iter().enumerate() {
        if is_behind && plain.stamp <= new.stamp {
            break;
        }
        if is_behind || plain.number == anchor {
            is_behind = true;
            at = place + 1;
        }
    }
    if at <= list.len() {
        list.insert(at, new)?;
    }
    Ok(())
}

/// Inserts a new element. Returns `false` if its name or its anchor forbids it.
pub fn insert(
    list: &mut ElementList,
    element: u32,
    stamp: Stamp,
    anchor: u32,
) -> Result<bool, NoMemory> {
    if list.number_of(element).is_some()
        || list.len() <= anchor as usize
        || 1_000_000 < list.len()
    {
        return Ok(false);
    }
    list.reserve()?;
    list.insert(element, stamp, anchor);
    Ok(true)
}

// Returns `true` if the list shows the marked elements as the plain list has them, and not without the last of them or
// with the first two exchanged.
fn agrees(
    alloc: Global,
    list: &ElementList,
    plain: &[Plain],
    marks: &[bool],
) -> Result<bool, NoMemory> {
    let mut shown = Vec::new(alloc);
    for entry in plain {
        let is_marked = marks.get(entry.number as usize) == Some(&true);
        if is_marked && (entry.number as usize) < list.len() {
            shown.push(list.element(entry.number))?;
        }
    }
    let count = shown.len();
    if !list.lists(marks, count, shown.as_slice()) {
        return Ok(false);
    }
    let Some((_, fewer)) = shown.as_slice().split_last() else {
        return Ok(false);
    };
    if list.lists(marks, count, fewer) {
        return Ok(false);
    }
    if count < 2 {
        return Ok(false);
    }
    shown.swap(0, 1);
    Ok(!list.lists(marks, count, shown.as_slice()))
}

// The values with which a list is compared: the plain list, and marks of all elements but the root and of some.
struct Beside {
    plain: Vec<Plain>,
    all: Vec<bool>,
    some: Vec<bool>,
}

impl Drop for Beside {
    fn drop(self) {
        let Beside {
            plain: _,
            all: _,
            some: _,
        } = self;
    }
}

// Creates the list with the root alone.
fn root_alone(alloc: Global) -> Result<Beside, NoMemory> {
    let root = Plain {
        number: ROOT,
        stamp: LOWEST,
    };
    Ok(Beside {
        plain: vec![in alloc; root]?,
        all: vec![in alloc; false]?,
        some: vec![in alloc; false]?,
    })
}

// Returns `true` if a list of this many elements agrees with the plain one. Element n has the name n + 1,000; anchors
// are chosen as given, and stamps rise or scatter.
fn grown(alloc: Global, count: u32, anchors: Anchors, spread: u32) -> Result<bool, NoMemory> {
    let mut list = ElementList::new(alloc)?;
    let mut kept = root_alone(alloc)?;
    let grown = grow(&mut list, &mut kept, count, anchors, spread)?;
    let all = agrees(alloc, &list, kept.plain.as_slice(), kept.all.as_slice())?;
    let some = agrees(alloc, &list, kept.plain.as_slice(), kept.some.as_slice())?;
    Ok(grown && all && some)
}

// Returns `true` if each of them is inserted.
fn grow(
    list: &mut ElementList,
    kept: &mut Beside,
    count: u32,
    anchors: Anchors,
    spread: u32,
) -> Result<bool, NoMemory> {
    let mut seed: u32 = 7;
    for number in 1..count {
        seed = seed.wrapping_mul(1_664_525).wrapping_add(1_013_904_223);
        let clock = number.wrapping_add((seed >> 8) & spread);
        let stamp = Stamp {
            clock,
            replica: (seed >> 24) as u8,
        };
        let anchor = match anchors {
            Anchors::Newest => number - 1,
            Anchors::Root => ROOT,
            Anchors::Scattered => (seed >> 4) % number,
        };
        if !insert(list, number.wrapping_add(1_000), stamp, anchor)? {
            return Ok(false);
        }
        put(&mut kept.plain, Plain { number, stamp }, anchor)?;
        kept.all.push(true)?;
        kept.some.push(number % 50 == 0)?;
    }
    Ok(true)
}

#[test]
fn elements_stand_as_in_a_plain_list(rt: HostRuntime) {
    let alloc = rt.alloc();
    assert!(rt; grown(alloc, 2000, Anchors::Newest, 0) == Ok(true));
    assert!(rt; grown(alloc, 2000, Anchors::Root, 0) == Ok(true));
    assert!(rt; grown(alloc, 2000, Anchors::Root, 4095) == Ok(true));
    assert!(rt; grown(alloc, 2000, Anchors::Scattered, 0) == Ok(true));
    assert!(rt; grown(alloc, 2000, Anchors::Scattered, 255) == Ok(true));
}

// Two children of the root, the later one first.
fn two_children(list: &mut ElementList) -> Result<bool, NoMemory> {
    for (element, clock, replica) in [(10, 1, 0), (20, 2, 1)] {
        if !insert(list, element, Stamp { clock, replica }, ROOT)? {
            return Ok(false);
        }
    }
    if list.len() != 3 {
        return Ok(false);
    }
    let looked_up = list.number_of(20) == Some(2) && list.number_of(30) == None;
    let told = list.element(1) == 10 && list.stamp(2).clock == 2 && list.anchor(2) == ROOT;
    let marks = [false, true, true];
    Ok(looked_up && told && list.lists(&marks, 2, &[20, 10]) && !list.lists(&marks, 2, &[10, 20]))
}

#[test]
fn the_later_of_two_children_comes_first(rt: HostRuntime) {
    match ElementList::new(rt.alloc()) {
        Ok(mut list) => assert!(rt; two_children(&mut list) == Ok(true)),
        Err(_) => panic!(rt; "no memory"),
    }
}
