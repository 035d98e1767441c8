//! The parser of operations with their return values.
ghost use Rattle.std.specs.Prelude.{◌≡◌, true, ℕ, List, Some, IfOk, OnErr, bytes_eq, codes};
ghost use Rattle.ra_labels.specs.declared.kind.Kind.TheVariants.{Counter, Register};
ghost use Rattle.ra_labels.specs.declared.kind.Kind.TheVariants as kinds;
ghost use Rattle.ra_labels.specs.Answer.{is_kind};
ghost use Rattle.ra_history_lines.specs.Reading.{Reads, number_first, query_read, value_read, list_read, read_first, write_first, add_first, remove_first, plain_removal, after_first, insert_first, part_first, own_word_first, update_first, word_first, reads_list, asks_for_list};

use crate::fields::Fields;
use crate::list::list;
use crate::number::{number, signed_number};
use crate::word::is_word;
use ra_labels::{Elements, Insertion, Kind, ListOp, NoMemory, Op};
use std::alloc::Global;

/// Returns the operation that the word and the following fields encode in a history of this kind, or `None` if they
/// encode none. Takes those fields.
///
/// # Errors
///
/// `NoMemory` if the allocation of a list fails.
///
/// # Complexity
///
/// O(length of the fields).
pub fn operation(
    alloc: Global,
    kind: Kind,
    word: &[u8],
    fields: &mut Fields<'_>,
) -> Result<Option<Op>, NoMemory>
    ensures read { IfOk result (λ op. Reads (word_first kind word.now fields.old) op fields.new) }
    ensures memory { OnErr result (asks_for_list kind word.now ≡ true) }
{
    if is_word(word, "inc") {
        Ok(Some(Op::Inc))
    } else if is_word(word, "dec") {
        Ok(Some(Op::Dec))
    } else if is_word(word, "read") {
        read(alloc, kind, fields)
    } else if is_word(word, "write") {
        Ok(write(kind, fields))
    } else if is_word(word, "add") {
        Ok(add(fields))
    } else if is_word(word, "remove") {
        remove(alloc, kind, fields)
    } else if is_word(word, "after") {
        Ok(after(fields))
    } else if kind == Kind::List {
        list_operation(alloc, word, fields)
    } else if kind == Kind::Any {
        Ok(update(word))
    } else {
        Ok(None)
    }
}

// Reads an operation whose word only a list has.
fn list_operation(
    alloc: Global,
    word: &[u8],
    fields: &mut Fields<'_>,
) -> Result<Option<Op>, NoMemory>
    ensures read { IfOk result (λ op. Reads (own_word_first word.now fields.old) op fields.new) }
    ensures memory { OnErr result (bytes_eq word.now (codes "part") ≡ true) }
{
    if is_word(word, "insert") {
        Ok(insert(fields))
    } else if is_word(word, "part") {
        part(alloc, fields)
    } else {
        Ok(None)
    }
}

/// Reads what follows the word `read`: a read of the history's own kind. Returns `None` if the fields encode none.
///
/// # Errors
///
/// `NoMemory` if allocation fails, which only a list needs.
///
/// # Complexity
///
/// O(length of the field).
pub fn read(alloc: Global, kind: Kind, fields: &mut Fields<'_>) -> Result<Option<Op>, NoMemory>
    ensures read { IfOk result (λ op. Reads (read_first kind fields.old) op fields.new) }
    ensures memory { OnErr result (reads_list kind ≡ true) }
{
    match fields.take() {
        Some(field) => query(alloc, kind, field),
        None => Ok(None),
    }
}

fn query(alloc: Global, kind: Kind, field: &[u8]) -> Result<Option<Op>, NoMemory>
    ensures read { IfOk result (λ op. op ≡ query_read kind field.now) }
    ensures memory { OnErr result (reads_list kind ≡ true) }
{
    match kind {
        Kind::Counter => Ok(count(field)),
        Kind::Register => Ok(last(field)),
        Kind::Any => Ok(any_value(field)),
        Kind::LwwSet | Kind::OrSet | Kind::Rga | Kind::List | Kind::MvRegister => {
            match list(alloc, field)? {
                Some(elements) => Ok(Some(list_query(kind, elements))),
                None => Ok(None),
            }
        }
    }
}

// Returns the read with this list as its answer, of a kind whose reads return lists.
fn list_query(kind: Kind, elements: Elements) -> Op
    requires { reads_list kind ≡ true }
    ensures { (field : List ℕ) → list_read field ≡ Some elements → query_read kind field ≡ Some result }
{
    match kind {
        Kind::LwwSet => Op::LwwRead(elements),
        Kind::OrSet => Op::OrRead(elements),
        Kind::Rga => Op::RgaRead(elements),
        Kind::List => Op::List(ListOp::Read(elements)),
        Kind::MvRegister => Op::MvRead(elements),
        Kind::Counter | Kind::Register | Kind::Any => unreachable!(),
    }
}

fn count(field: &[u8]) -> Option<Op>
    ensures { result ≡ query_read Counter field.now }
{
    match signed_number(field) {
        Some(value) => Some(Op::Count(value)),
        None => None,
    }
}

fn any_value(field: &[u8]) -> Option<Op>
    ensures { result ≡ query_read kinds.Any field.now }
{
    match number(field) {
        Some(value) => Some(Op::AnyRead(value)),
        None => None,
    }
}

fn last(field: &[u8]) -> Option<Op>
    ensures { result ≡ query_read Register field.now }
{
    match value(field) {
        Some(value) => Some(Op::Last(value)),
        None => None,
    }
}

fn value(field: &[u8]) -> Option<Option<u32>>
    ensures { result ≡ value_read field.now }
{
    if is_word(field, "none") {
        Some(None)
    } else {
        match number(field) {
            Some(value) => Some(Some(value)),
            None => None,
        }
    }
}

/// Reads what follows the word `write`. Returns `None` if the next field is no number.
///
/// # Complexity
///
/// O(length of the fields).
pub fn write(kind: Kind, fields: &mut Fields<'_>) -> Option<Op>
    ensures { Reads (write_first kind fields.old) result fields.new }
{
    match fields.take_number() {
        Some(value) if kind == Kind::MvRegister => Some(Op::MvWrite(value)),
        Some(value) => Some(Op::Write(value)),
        None => None,
    }
}

// Reads an operation whose word only an object of any type has. No field follows it.
fn update(word: &[u8]) -> Option<Op>
    ensures { (fields : List (List ℕ)) → Reads (update_first word.now fields) result fields }
{
    if is_word(word, "update") {
        Some(Op::AnyUpdate)
    } else {
        None
    }
}

/// Reads what follows the word `add`: an element, and the identifier of an OR-Set's. Returns `None` if they are no
/// numbers.
///
/// # Complexity
///
/// O(length of the fields).
pub fn add(fields: &mut Fields<'_>) -> Option<Op>
    ensures { Reads (add_first fields.old) result fields.new }
{
    let Some(element) = fields.take_number() else {
        return None;
    };
    match fields.take_marked() {
        None => Some(Op::LwwAdd(element)),
        Some(word) => match number(word) {
            Some(id) => Some(Op::OrAdd { element, id }),
            None => None,
        },
    }
}

/// Reads what follows the word `remove`: an element, and the identifiers that an OR-Set's removal saw. Returns `None`
/// if they are no numbers.
///
/// # Errors
///
/// `NoMemory` if allocation fails, which only identifiers need.
///
/// # Complexity
///
/// O(length of the fields).
pub fn remove(alloc: Global, kind: Kind, fields: &mut Fields<'_>) -> Result<Option<Op>, NoMemory>
    ensures { IfOk result (λ op. Reads (remove_first kind fields.old) op fields.new) }
{
    let Some(element) = fields.take_number() else {
        return Ok(None);
    };
    let Some(word) = fields.take_marked() else {
        return Ok(Some(plain_removal(kind, element)));
    };
    match list(alloc, word)? {
        Some(ids) => Ok(Some(Op::OrRemove { element, ids })),
        None => Ok(None),
    }
}

fn plain_removal(kind: Kind, element: u32) -> Op
    ensures { result ≡ plain_removal kind element }
{
    match kind {
        Kind::Rga => Op::RgaRemove(element),
        Kind::List => Op::List(ListOp::Remove(element)),
        Kind::Counter
        | Kind::Register
        | Kind::LwwSet
        | Kind::OrSet
        | Kind::Any
        | Kind::MvRegister => Op::LwwRemove(element),
    }
}

/// Reads what follows the word `after`: an anchor and an element. Returns `None` if they are no numbers.
///
/// # Complexity
///
/// O(length of the fields).
pub fn after(fields: &mut Fields<'_>) -> Option<Op>
    ensures { Reads (after_first fields.old) result fields.new }
{
    let Some(anchor) = fields.take_number() else {
        return None;
    };
    match fields.take_number() {
        Some(element) => Some(Op::After { anchor, element }),
        None => None,
    }
}

fn insert(fields: &mut Fields<'_>) -> Option<Op>
    ensures { Reads (insert_first fields.old) result fields.new }
{
    let Some(left) = fields.take_number() else {
        return None;
    };
    let Some(element) = fields.take_number() else {
        return None;
    };
    match fields.take_number() {
        Some(right) => Some(Op::List(ListOp::Insert(Insertion {
            left,
            element,
            right,
        }))),
        None => None,
    }
}

fn part(alloc: Global, fields: &mut Fields<'_>) -> Result<Option<Op>, NoMemory>
    ensures { IfOk result (λ op. Reads (part_first fields.old) op fields.new) }
{
    let Some(field) = fields.take() else {
        return Ok(None);
    };
    match list(alloc, field)? {
        Some(elements) => Ok(Some(Op::List(ListOp::Part(elements)))),
        None => Ok(None),
    }
}
