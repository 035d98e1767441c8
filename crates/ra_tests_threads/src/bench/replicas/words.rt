//! Updates and reads in the form of a history's lines.

use ra_labels::{Elements, Insertion, ListOp, Op};
use std::alloc::{AllocError, Global};

/// Returns an update's line, or what a read shows.
pub fn words(alloc: Global, op: &Op, clock: Option<u32>) -> Result<String, AllocError> {
    let mut text = body(alloc, op)?;
    if let Some(clock) = clock {
        text.push_str(format!(in alloc; " @{clock}")?.as_str())?;
    }
    Ok(text)
}

fn body(alloc: Global, op: &Op) -> Result<String, AllocError> {
    match op {
        Op::Inc => String::from_str(alloc, "inc"),
        Op::Dec => String::from_str(alloc, "dec"),
        Op::Count(number) => format!(in alloc; "{number}"),
        Op::Write(value) | Op::MvWrite(value) => format!(in alloc; "write {value}"),
        Op::Last(None) => String::from_str(alloc, "none"),
        Op::Last(Some(value)) => format!(in alloc; "{value}"),
        Op::LwwAdd(element) => format!(in alloc; "add {element}"),
        Op::LwwRemove(element) | Op::RgaRemove(element) => format!(in alloc; "remove {element}"),
        Op::OrAdd { element, id } => format!(in alloc; "add {element} #{id}"),
        Op::OrRemove { element, ids } => {
            let ids = numbers(alloc, ids)?;
            format!(in alloc; "remove {element} #{ids}")
        }
        Op::After { anchor, element } => format!(in alloc; "after {anchor} {element}"),
        Op::LwwRead(list) | Op::OrRead(list) | Op::RgaRead(list) | Op::MvRead(list) => {
            numbers(alloc, list)
        }
        Op::AnyUpdate => String::from_str(alloc, "update"),
        Op::AnyRead(value) => format!(in alloc; "{value}"),
        Op::List(op) => list_body(alloc, op),
    }
}

fn list_body(alloc: Global, op: &ListOp) -> Result<String, AllocError> {
    match op {
        ListOp::Insert(
            Insertion {
                left,
                element,
                right,
            },
        ) => format!(in alloc; "insert {left} {element} {right}"),
        ListOp::Remove(element) => format!(in alloc; "remove {element}"),
        ListOp::Read(list) | ListOp::Part(list) => numbers(alloc, list),
    }
}

fn numbers(alloc: Global, list: &Elements) -> Result<String, AllocError> {
    let mut text = String::new(alloc);
    for number in list.as_slice() {
        let comma = if text.is_empty() { "" } else { "," };
        text.push_str(format!(in alloc; "{comma}{number}")?.as_str())?;
    }
    if text.is_empty() {
        text.push_str("-")?;
    }
    Ok(text)
}
