//! Tests of `ra_list_replica`: calls succeed, few elements are looked up, and a failed allocation changes nothing.
ghost use Rattle.std.specs.Prelude.{◌<◌};

use ra_labels::NoMemory;
use ra_list_replica::{ElementNumbers, Listed, Mark, ReplicaView};
use std::alloc::Global;
use std::process::Abort;
use std::test::Fail;

/// The elements of the small lists, in the order of their numbers.
const ELEMENTS: [u32; 3] = [7, 0, 4_294_967_295];

/// What the lists of `same_answers_as_counting` are made of: the elements, and one without a number.
const LISTED: [u32; 4] = [7, 0, 4_294_967_295, 8];

fn add(rt: &impl Abort, numbers: &mut ElementNumbers, element: u32) -> Result<(), NoMemory> {
    assert!(rt; !numbers.contains(element));
    assert!(rt; numbers.len() < 1_000_000);
    numbers.add(element)
}

fn insert(rt: &impl Abort, view: &mut ReplicaView, number: u32) -> Result<(), NoMemory> {
    view.reserve(number)?;
    assert!(rt; view.mark(number) == Mark::Missing);
    view.insert(number);
    Ok(())
}

fn remove(rt: &impl Abort, view: &mut ReplicaView, number: u32) {
    assert!(rt; view.mark(number) != Mark::Missing);
    view.remove(number);
}

fn small_numbers(rt: &impl Abort, alloc: Global) -> Result<ElementNumbers, NoMemory> {
    let mut numbers = ElementNumbers::new(alloc);
    for element in &ELEMENTS {
        add(rt, &mut numbers, *element)?;
    }
    Ok(numbers)
}

#[test]
fn numbers_follow_insertion(rt: HostRuntime) -> Result<(), Fail> {
    let mut numbers = small_numbers(&rt, rt.alloc())?;
    assert_eq!(rt; numbers.number_of(7), Some(0));
    assert_eq!(rt; numbers.number_of(4_294_967_295), Some(2));
    assert_eq!(rt; numbers.number_of(8), None);
    assert_eq!(rt; numbers.element(1), Some(0));
    assert_eq!(rt; numbers.element(3), None);
    numbers.take_back();
    assert_eq!(rt; numbers.number_of(4_294_967_295), None);
    add(&rt, &mut numbers, 8)?;
    assert_eq!(rt; numbers.number_of(8), Some(2));
    assert_eq!(rt; numbers.len(), 3);
    Ok(())
}

// The view with the marks that the digits of a number to base 3 say.
fn view_of(rt: &impl Abort, alloc: Global, marks: u32) -> Result<ReplicaView, NoMemory> {
    let mut view = ReplicaView::new(alloc);
    let mut rest = marks;
    for number in 0..3u32 {
        if rest % 3 > 0 {
            insert(rt, &mut view, number)?;
        }
        if rest % 3 > 1 {
            remove(rt, &mut view, number);
        }
        rest /= 3;
    }
    Ok(view)
}

// The list whose elements the digits of a number to base 4 say.
fn list_of(alloc: Global, length: u32, code: u32) -> Result<Vec<u32>, NoMemory> {
    let mut list = Vec::new(alloc);
    let mut rest = code;
    for _ in 0..length {
        let digit = (rest % 4) as usize;
        list.push(LISTED[digit])?;
        rest /= 4;
    }
    Ok(list)
}

// How often the list has the element.
fn count(list: &[u32], element: u32) -> usize {
    list.iter().filter(|other| **other == element).count()
}

// Whether each element is listed at most once, and only if it is shown; and whether each shown one is listed.
fn counted(view: &ReplicaView, list: &[u32]) -> (bool, bool) {
    let mut is_part = count(list, 8) == 0;
    let mut is_all = true;
    for (number, element) in ELEMENTS.iter().enumerate() {
        let is_shown = view.mark(number as u32) == Mark::Shown;
        let times = count(list, *element);
        is_part = is_part && (times == 0 || times == 1 && is_shown);
        is_all = is_all && (times > 0 || !is_shown);
    }
    (is_part, is_all)
}

#[test]
fn same_answers_as_counting(rt: HostRuntime) -> Result<(), Fail> {
    let alloc = rt.alloc();
    let numbers = small_numbers(&rt, alloc)?;
    for marks in 0..27u32 {
        let mut view = view_of(&rt, alloc, marks)?;
        for (length, codes) in [(0, 1), (1, 4), (2, 16), (3, 64)] {
            for code in 0..codes {
                let list = list_of(alloc, length, code)?;
                let (is_part, is_all) = counted(&view, &list);
                let found = view.check_read(alloc, &numbers, &list)?;
                assert_eq!(rt; found.is_some(), is_part && is_all);
                assert_eq!(rt; view.check_part(alloc, &numbers, &list)?.is_some(), is_part);
                if let Some(listed) = found {
                    view.keep(listed.numbers);
                }
            }
        }
    }
    Ok(())
}

// The numbers from 0 on, and a list of as many elements, each ten times its number.
fn many(
    rt: &impl Abort,
    alloc: Global,
    count: u32,
) -> Result<(ElementNumbers, Vec<u32>), NoMemory> {
    let mut numbers = ElementNumbers::new(alloc);
    let mut list = Vec::new(alloc);
    for number in 0..count {
        let element = number.wrapping_mul(10);
        add(rt, &mut numbers, element)?;
        list.push(element)?;
    }
    Ok((numbers, list))
}

// Checks a read and keeps it; returns the places at which it differs from the last one.
fn read(
    rt: &impl Abort,
    alloc: Global,
    numbers: &ElementNumbers,
    view: &mut ReplicaView,
    list: &[u32],
) -> Result<Vec<usize>, NoMemory> {
    let Some(Listed { numbers, places }) = view.check_read(alloc, numbers, list)? else {
        panic!(rt; "the list is a read")
    };
    view.keep(numbers);
    Ok(places)
}

#[test]
fn looks_up_only_what_changed(rt: HostRuntime) -> Result<(), Fail> {
    let alloc = rt.alloc();
    let (mut numbers, mut list) = many(&rt, alloc, 1000)?;
    let mut view = ReplicaView::new(alloc);
    for number in 0..1000u32 {
        insert(&rt, &mut view, number)?;
    }
    assert_eq!(rt; read(&rt, alloc, &numbers, &mut view, &list)?.len(), 999);
    assert_eq!(rt; read(&rt, alloc, &numbers, &mut view, &list)?.len(), 0);
    add(&rt, &mut numbers, 5)?;
    insert(&rt, &mut view, 1000)?;
    assert!(rt; list.len() == 1000);
    list.insert(600, 5)?;
    let places = read(&rt, alloc, &numbers, &mut view, &list)?;
    assert_eq!(rt; places.as_slice(), [600, 601].as_slice());
    remove(&rt, &mut view, 300);
    assert!(rt; list.len() == 1001);
    list.remove(300);
    remove(&rt, &mut view, 700);
    remove(&rt, &mut view, 701);
    assert!(rt; list.len() == 1000);
    list.remove(700);
    assert!(rt; list.len() == 999);
    list.remove(700);
    let places = read(&rt, alloc, &numbers, &mut view, &list)?;
    assert_eq!(rt; places.as_slice(), [300, 700].as_slice());
    Ok(())
}

// `rt try --test --fail-alloc N` lets the allocation N fail. The call that asks for it changes nothing.
#[test]
fn changes_nothing_if_an_allocation_fails(rt: HostRuntime) -> Result<(), Fail> {
    let alloc = rt.alloc();
    let mut numbers = ElementNumbers::new(alloc);
    let mut view = ReplicaView::new(alloc);
    for (number, element) in ELEMENTS.iter().enumerate() {
        let number = number as u32;
        if add(&rt, &mut numbers, *element).is_err() {
            assert_eq!(rt; numbers.number_of(*element), None);
            add(&rt, &mut numbers, *element)?;
        }
        if insert(&rt, &mut view, number).is_err() {
            assert!(rt; view.mark(number) == Mark::Missing);
            insert(&rt, &mut view, number)?;
        }
    }
    remove(&rt, &mut view, 1);
    let list = [4_294_967_295, 7];
    let found = match view.check_read(alloc, &numbers, &list) {
        Ok(found) => found,
        Err(_) => view.check_read(alloc, &numbers, &list)?,
    };
    assert!(rt; found.is_some());
    let part = match view.check_part(alloc, &numbers, &[7]) {
        Ok(found) => found,
        Err(_) => view.check_part(alloc, &numbers, &[7])?,
    };
    assert!(rt; part.is_some());
    let mut copy = match view.copy() {
        Ok(copy) => copy,
        Err(_) => view.copy()?,
    };
    assert!(rt; copy.mark(1) == Mark::Removed && copy.mark(2) == Mark::Shown);
    let removed = match copy.check_part(alloc, &numbers, &[0]) {
        Ok(found) => found,
        Err(_) => copy.check_part(alloc, &numbers, &[0])?,
    };
    assert!(rt; removed.is_none());
    Ok(())
}
