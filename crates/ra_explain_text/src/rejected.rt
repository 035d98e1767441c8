//! The rejected lines of a history, each with its reason.
ghost use Rattle.std.specs.Prelude.{◌≡◌, ◌++◌, OnOk, codes};
ghost use Rattle.ra_explain.specs.LabelFilter.{labels_with};
ghost use Rattle.ra_explain_text.specs.Quotes.{act_words, line_words};
ghost use Rattle.ra_explain_text.specs.Rejections as rejections;
ghost use Rattle.ra_explain_text.specs.Rejections.{others_rejected, refusal_rows, rejected_line, rejected_rows, rejection_word, rows_at, rows_at_each};
ghost use Rattle.ra_explain_text.specs.Rejections.{why_delivered, with_first, with_owner, with_reason};

use crate::layout::{behind, put, put_count, put_row, small};
use crate::quotes::{put_act, put_label, put_label_and, put_line, trimmed};
use crate::view::View;
use ra_explain::LabelsWith;
use ra_history_lines::Names;
use ra_history_lines::reply::put_reply;
use ra_labels::{Command, Kind, NoMemory, Op, Refusal, Reply, Stamp};

/// The number of bytes of `refused `, with which the reply of a rejected command begins.
const REFUSED: usize = 8;

/// Appends the first rejected lines, each with its reason, and the number of the others.
///
/// # Errors
///
/// `NoMemory` if an allocation fails.
pub fn put_rejections(out: &mut Vec<u8>, view: &View<'_>) -> Result<(), NoMemory>
    // After success, each rejected line that the explanation names is appended with its reason, and then the number of
    // the others.
    ensures { OnOk result (out.new.items
        ≡ out.old.items ++ rejected_rows view.now.names.now view.now.explanation.now) }
{
    let rejected = view.explanation.rejected.as_slice();
    let refused = view.explanation.report.refused;
    put_rejected(out, view, rejected)?;
    put_others(out, refused.saturating_sub(small(rejected.len())))
}

fn put_rejected(out: &mut Vec<u8>, view: &View<'_>, places: &[u32]) -> Result<(), NoMemory>
    ensures { OnOk result (out.new.items
        ≡ out.old.items ++ rows_at_each view.now.names.now view.now.explanation.now places.now) }
{
    for place in places {
        put_rejected_at(out, view, *place)?;
    }
    Ok(())
}

fn put_others(out: &mut Vec<u8>, others: u32) -> Result<(), NoMemory>
    ensures { OnOk result (out.new.items ≡ out.old.items ++ others_rejected others) }
{
    if others == 0 {
        return Ok(());
    }
    let mut text = Vec::new(*out.allocator());
    put_count(&mut text, others, " more line", " more lines")?;
    put_row(out, "rejected", &text)
}

fn put_rejected_at(out: &mut Vec<u8>, view: &View<'_>, place: u32) -> Result<(), NoMemory>
    ensures { OnOk result (out.new.items
        ≡ out.old.items ++ rows_at view.now.names.now view.now.explanation.now place) }
{
    match view.explanation.entry(place) {
        Some(entry) => put_reply_rows(out, view, place, &entry.command, entry.reply),
        None => Ok(()),
    }
}

fn put_reply_rows(
    out: &mut Vec<u8>,
    view: &View<'_>,
    place: u32,
    command: &Command,
    reply: Reply,
) -> Result<(), NoMemory>
    ensures { OnOk result (out.new.items ≡ out.old.items
        ++ rejections.reply_rows view.now.names.now view.now.explanation.now place command.now reply) }
{
    match reply {
        Reply::Refused(why) => put_refusal(out, view, place, command, why),
        Reply::Ok(_) | Reply::Got(_) | Reply::Joined(_) | Reply::Yes(_) | Reply::No { .. } => Ok(
            (),
        ),
    }
}

// Appends a rejected line, and the reason on a further one.
fn put_refusal(
    out: &mut Vec<u8>,
    view: &View<'_>,
    place: u32,
    command: &Command,
    why: Refusal,
) -> Result<(), NoMemory>
    ensures { OnOk result (out.new.items ≡ out.old.items
        ++ refusal_rows view.now.names.now view.now.explanation.now place command.now why) }
{
    let alloc = *out.allocator();
    let mut text = Vec::new(alloc);
    put_rejected_line(&mut text, view.names, place, command, why)?;
    put_row(out, "rejected", &text)?;
    let mut reason = Vec::new(alloc);
    put_word(&mut reason, why)?;
    put_reason(&mut reason, view, command, why)?;
    put_row(out, "", &reason)
}

// Appends the line and what it says. The name of an unknown replica is not stored, so a line with one is shown by its
// number alone.
fn put_rejected_line(
    text: &mut Vec<u8>,
    names: &Names,
    place: u32,
    command: &Command,
    why: Refusal,
) -> Result<(), NoMemory>
    ensures { OnOk result (text.new.items
        ≡ text.old.items ++ rejected_line names.now place command.now why) }
{
    match why {
        Refusal::UnknownReplica | Refusal::TooManyReplicas => put_line(text, place),
        Refusal::WrongKind
        | Refusal::BadList
        | Refusal::StampMissing
        | Refusal::StampUnwanted
        | Refusal::StampTaken
        | Refusal::IdTaken
        | Refusal::UnknownLabel
        | Refusal::NotAnUpdate
        | Refusal::AlreadySeen
        | Refusal::NotCausal(_)
        | Refusal::ReplicaThere => put_whole_line(text, names, place, command),
    }
}

fn put_whole_line(
    text: &mut Vec<u8>,
    names: &Names,
    place: u32,
    command: &Command,
) -> Result<(), NoMemory>
    ensures { OnOk result (text.new.items
        ≡ text.old.items ++ (line_words place ++ (codes ": " ++ act_words names.now command.now))) }
{
    put_line(text, place)?;
    put(text, ": ")?;
    put_act(text, names, command)
}

// Appends the word of the rejection, as in replies.
fn put_word(text: &mut Vec<u8>, why: Refusal) -> Result<(), NoMemory>
    ensures { OnOk result (text.new.items ≡ text.old.items ++ (rejection_word why ++ codes ": ")) }
{
    let mut line = Vec::new(*text.allocator());
    put_reply(&mut line, Reply::Refused(why))?;
    text.extend_from_slice(trimmed(behind(&line, REFUSED)))?;
    put(text, ": ")
}

fn put_reason(
    text: &mut Vec<u8>,
    view: &View<'_>,
    command: &Command,
    why: Refusal,
) -> Result<(), NoMemory>
    ensures { OnOk result (text.new.items ≡ with_reason view.now.names.now view.now.explanation.now
        text.old.items command.now why) }
{
    match why {
        Refusal::UnknownReplica => put(
            text,
            "it names a replica that neither line 2 nor a join names",
        ),
        Refusal::WrongKind => put(text, wrong_kind(view.explanation.setup.kind, command)),
        Refusal::BadList => put(text, "the list is not strictly increasing"),
        Refusal::StampMissing => put(text, clock_missing(command)),
        Refusal::StampUnwanted => put(text, "this operation may not have a clock"),
        Refusal::StampTaken => put_stamp_owner(text, view, command),
        Refusal::IdTaken => put_identifier_owner(text, view, command),
        Refusal::UnknownLabel => put(text, "no operation has this label so far"),
        Refusal::NotAnUpdate => put(text, "the label is a query: queries are not delivered"),
        Refusal::AlreadySeen => put(text, why_seen(view, command)),
        Refusal::NotCausal(missing) => {
            put_label_and(text, view, missing, b" has to be delivered first")
        }
        Refusal::ReplicaThere => put(text, "the replica exists already"),
        Refusal::TooManyReplicas => put(text, "there are 64 replicas, and no more may join"),
    }
}

// Returns the reason why this kind does not have the operation of the command.
fn wrong_kind(kind: Kind, command: &Command) -> &'static str
    ensures { result.now ≡ rejections.wrong_kind kind command.now }
{
    match kind {
        Kind::OrSet => {
            if is_clocked(command) {
                "an OR-Set's add and remove need an identifier, as add 4 #1"
            } else {
                operations_of(kind)
            }
        }
        Kind::LwwSet => {
            if is_tagged(command) {
                "an LWW set's operations have a clock, as @1, and no identifier"
            } else {
                operations_of(kind)
            }
        }
        Kind::Counter | Kind::Register | Kind::Rga | Kind::List | Kind::Any | Kind::MvRegister => {
            operations_of(kind)
        }
    }
}

// Returns `true` for an update of an LWW set.
fn is_clocked(command: &Command) -> bool
    ensures { result ≡ rejections.is_clocked command.now }
{
    match command {
        Command::Operate { op, .. } => is_clocked_op(op),
        Command::Deliver { .. } | Command::Join { .. } | Command::Verdict => false,
    }
}

fn is_clocked_op(op: &Op) -> bool
    ensures { result ≡ rejections.is_clocked_op op.now }
{
    match op {
        Op::LwwAdd(_) | Op::LwwRemove(_) => true,
        Op::List(_) => false,
        Op::AnyUpdate | Op::AnyRead(_) | Op::MvWrite(_) | Op::MvRead(_) => false,
        Op::Inc | Op::Dec | Op::Count(_) | Op::Write(_) | Op::Last(_) | Op::LwwRead(_) => false,
        Op::OrAdd { .. } | Op::OrRemove { .. } | Op::OrRead(_) => false,
        Op::After { .. } | Op::RgaRemove(_) | Op::RgaRead(_) => false,
    }
}

// Returns `true` for an update of an OR-Set.
fn is_tagged(command: &Command) -> bool
    ensures { result ≡ rejections.is_tagged command.now }
{
    match command {
        Command::Operate { op, .. } => is_tagged_op(op),
        Command::Deliver { .. } | Command::Join { .. } | Command::Verdict => false,
    }
}

fn is_tagged_op(op: &Op) -> bool
    ensures { result ≡ rejections.is_tagged_op op.now }
{
    match op {
        Op::OrAdd { .. } | Op::OrRemove { .. } => true,
        Op::List(_) => false,
        Op::AnyUpdate | Op::AnyRead(_) | Op::MvWrite(_) | Op::MvRead(_) => false,
        Op::Inc | Op::Dec | Op::Count(_) | Op::Write(_) | Op::Last(_) => false,
        Op::LwwAdd(_) | Op::LwwRemove(_) | Op::LwwRead(_) | Op::OrRead(_) => false,
        Op::After { .. } | Op::RgaRemove(_) | Op::RgaRead(_) => false,
    }
}

fn operations_of(kind: Kind) -> &'static str
    ensures { result.now ≡ rejections.operations_of kind }
{
    match kind {
        Kind::Counter => "a counter's operations are inc, dec and read",
        Kind::Register => "a register's operations are write and read",
        Kind::LwwSet => "an LWW set's operations are add, remove and read",
        Kind::OrSet => "an OR-Set's operations are add, remove and read",
        Kind::Rga => "a list's operations are after, remove and read",
        Kind::List => "a list's operations are insert, remove, read and part",
        Kind::Any => "the operations of any type are update and read",
        Kind::MvRegister => "a multi-value register's operations are write and read",
    }
}

fn clock_missing(command: &Command) -> &'static str
    ensures { result.now ≡ rejections.clock_missing command.now }
{
    match command {
        Command::Operate { stamp: Some(_), .. } => "the clock is 0: clocks begin at 1",
        _ => "a clock is missing, for example @1",
    }
}

// Returns how the label of this delivery came to be seen at its replica.
fn why_seen(view: &View<'_>, command: &Command) -> &'static str
    ensures { result.now ≡ rejections.why_seen view.now.explanation.now command.now }
{
    match command {
        Command::Deliver { replica, label } => why_delivered(view, *replica, *label),
        Command::Operate { .. } | Command::Join { .. } | Command::Verdict =>
            "the label was delivered to the replica before",
    }
}

fn why_delivered(view: &View<'_>, replica: u8, label: u32) -> &'static str
    ensures { result.now ≡ why_delivered view.now.explanation.now replica label }
{
    if view.explanation.issuer(label) == Some(replica) {
        "the replica issued the label itself"
    } else if view.explanation.delivery(replica, label).is_none() {
        "the replica had the label when it joined"
    } else {
        "the label was delivered to the replica before"
    }
}

fn stamp_of(command: &Command) -> Option<LabelsWith>
    ensures { result ≡ rejections.stamp_of command.now }
{
    match command {
        Command::Operate {
            replica,
            stamp: Some(clock),
            ..
        } => Some(LabelsWith::Stamp(Stamp {
            clock: *clock,
            replica: *replica,
        })),
        _ => None,
    }
}

fn identifier_of(command: &Command) -> Option<LabelsWith>
    ensures { result ≡ rejections.identifier_of command.now }
{
    match command {
        Command::Operate { op, .. } => identifier_in(op),
        Command::Deliver { .. } | Command::Join { .. } | Command::Verdict => None,
    }
}

fn identifier_in(op: &Op) -> Option<LabelsWith>
    ensures { result ≡ rejections.identifier_in op.now }
{
    match op {
        Op::OrAdd { id, .. } => Some(LabelsWith::Identifier(*id)),
        _ => None,
    }
}

// Appends the label that already has this clock.
fn put_stamp_owner(text: &mut Vec<u8>, view: &View<'_>, command: &Command) -> Result<(), NoMemory>
    ensures { OnOk result (text.new.items ≡ with_owner view.now.names.now view.now.explanation.now
        (text.old.items ++ codes "its clock is used by ") (rejections.stamp_of command.now)) }
{
    put(text, "its clock is used by ")?;
    put_owner(text, view, stamp_of(command))
}

// Appends the label that already has this identifier.
fn put_identifier_owner(
    text: &mut Vec<u8>,
    view: &View<'_>,
    command: &Command,
) -> Result<(), NoMemory>
    ensures { OnOk result (text.new.items ≡ with_owner view.now.names.now view.now.explanation.now
        (text.old.items ++ codes "its identifier is used by ") (rejections.identifier_of command.now)) }
{
    put(text, "its identifier is used by ")?;
    put_owner(text, view, identifier_of(command))
}

fn put_owner(text: &mut Vec<u8>, view: &View<'_>, key: Option<LabelsWith>) -> Result<(), NoMemory>
    ensures { OnOk result (text.new.items ≡ with_owner view.now.names.now view.now.explanation.now
        text.old.items key) }
{
    match key {
        Some(key) => put_first_with(text, view, key),
        None => put(text, "another label"),
    }
}

fn put_first_with(text: &mut Vec<u8>, view: &View<'_>, key: LabelsWith) -> Result<(), NoMemory>
    ensures { OnOk result (text.new.items ≡ with_first view.now.names.now view.now.explanation.now
        text.old.items (labels_with view.now.explanation.now.log.items view.now.explanation.now.places key)) }
{
    let labels = view.labels(*text.allocator(), key)?;
    put_first(text, view, &labels)
}

fn put_first(text: &mut Vec<u8>, view: &View<'_>, labels: &[u32]) -> Result<(), NoMemory>
    ensures { OnOk result (text.new.items ≡ with_first view.now.names.now view.now.explanation.now
        text.old.items labels.now) }
{
    match labels {
        [] => put(text, "another label"),
        [first, ..] => put_label(text, view, *first),
    }
}
