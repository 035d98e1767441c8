//! The lines that a check writes.
ghost use Rattle.std.specs.Prelude.{◌≡◌, ◌∷◌, ◌++◌, [], OnErr, OnOk, decimal};
ghost use Rattle.ra_history_lines.specs.Replies as output;
ghost use Rattle.ra_history_lines.specs.Fields.{BeginsWith};
ghost use Rattle.ra_labels.specs.declared.reply.Reply.TheVariants.{Refused};

use crate::number::put_numbered;
use ra_labels::{Cause, Fault, NoMemory, Refusal, Reply};

/// Appends the line of the reply to the buffer, including its line feed.
///
/// # Errors
///
/// `NoMemory` if an allocation fails; the buffer's contents are then unchanged.
pub fn put_reply(out: &mut Vec<u8>, reply: Reply) -> Result<(), NoMemory>
    // After success, the line of the reply is appended, and nothing else changed.
    ensures put { OnOk result (out.new.items ≡ out.old.items ++ output.reply_line reply) }
    // If allocation fails, the buffer's contents are unchanged.
    ensures err { OnErr result (out.new.items ≡ out.old.items) }
{
    let before = out.len();
    let put = spell_reply(out, reply);
    if put.is_err() {
        out.truncate(before);
    }
    put
}

/// Appends the end line for this number of labels and this fault to the buffer, including its line feed.
///
/// # Errors
///
/// `NoMemory` if an allocation fails; the buffer's contents are then unchanged.
pub fn put_end(out: &mut Vec<u8>, labels: u32, fault: Option<Fault>) -> Result<(), NoMemory>
    // After success, the end line for this number of labels and this fault is appended, and nothing else changed.
    ensures put { OnOk result (out.new.items ≡ out.old.items ++ output.end_line labels fault) }
    // If allocation fails, the buffer's contents are unchanged.
    ensures err { OnErr result (out.new.items ≡ out.old.items) }
{
    let before = out.len();
    let put = spell_end(out, labels, fault);
    if put.is_err() {
        out.truncate(before);
    }
    put
}

// Appends the line of a reply. On an error a prefix of it may have been appended.
fn spell_reply(out: &mut Vec<u8>, reply: Reply) -> Result<(), NoMemory>
    ensures put { OnOk result (out.new.items ≡ out.old.items ++ output.reply_line reply) }
    ensures part { OnErr result (BeginsWith out.old.items out.new.items) }
{
    match reply {
        Reply::Ok(label) => put_counted(out, b"ok ", label),
        Reply::Got(label) => put_counted(out, b"got ", label),
        Reply::Joined(replica) => put_counted(out, b"joined ", replica as u32),
        Reply::Yes(labels) => put_counted(out, b"yes ", labels),
        Reply::No { label, cause } => put_caused(out, b"no ", label, cause),
        Reply::Refused(refusal) => put_refusal(out, refusal),
    }
}

// Appends the end line. On an error a prefix of it may have been appended.
fn spell_end(out: &mut Vec<u8>, labels: u32, fault: Option<Fault>) -> Result<(), NoMemory>
    ensures put { OnOk result (out.new.items ≡ out.old.items ++ output.end_line labels fault) }
    ensures part { OnErr result (BeginsWith out.old.items out.new.items) }
{
    match fault {
        None => put_counted(out, b"end yes ", labels),
        Some(Fault { label, cause }) => put_caused(out, b"end no ", label, cause),
    }
}

// Appends the words, the number and a line feed. Inlined, so that the words have a constant length and are copied
// without a call.
#[inline(always)]
fn put_counted(out: &mut Vec<u8>, words: &[u8], number: u32) -> Result<(), NoMemory>
    ensures put { OnOk result (out.new.items ≡ out.old.items ++ (words.now ++ (decimal number ++ 10 ∷ []))) }
    ensures part { OnErr result (BeginsWith out.old.items out.new.items) }
{
    put_numbered(out, words, number)?;
    put_bytes(out, b"\n")
}

// Appends the words, the label, the word of the cause and a line feed.
fn put_caused(out: &mut Vec<u8>, words: &[u8], label: u32, cause: Cause) -> Result<(), NoMemory>
    ensures put { OnOk result (out.new.items
        ≡ out.old.items ++ (words.now ++ (output.fault_words label cause ++ 10 ∷ []))) }
    ensures part { OnErr result (BeginsWith out.old.items out.new.items) }
{
    put_numbered(out, words, label)?;
    put_bytes(out, b" ")?;
    put_bytes(out, cause_word(cause).as_bytes())?;
    put_bytes(out, b"\n")
}

// Appends the line of a rejection. On an error a prefix of it may have been appended.
fn put_refusal(out: &mut Vec<u8>, refusal: Refusal) -> Result<(), NoMemory>
    ensures put { OnOk result (out.new.items ≡ out.old.items ++ output.reply_line (Refused refusal)) }
    ensures part { OnErr result (BeginsWith out.old.items out.new.items) }
{
    match refusal {
        Refusal::UnknownReplica => put_bytes(out, b"refused unknown-replica\n"),
        Refusal::WrongKind => put_bytes(out, b"refused wrong-kind\n"),
        Refusal::BadList => put_bytes(out, b"refused bad-list\n"),
        Refusal::StampMissing => put_bytes(out, b"refused stamp-missing\n"),
        Refusal::StampUnwanted => put_bytes(out, b"refused stamp-unwanted\n"),
        Refusal::StampTaken => put_bytes(out, b"refused stamp-taken\n"),
        Refusal::IdTaken => put_bytes(out, b"refused id-taken\n"),
        Refusal::UnknownLabel => put_bytes(out, b"refused unknown-label\n"),
        Refusal::NotAnUpdate => put_bytes(out, b"refused not-an-update\n"),
        Refusal::AlreadySeen => put_bytes(out, b"refused already-seen\n"),
        Refusal::NotCausal(missing) => put_counted(out, b"refused not-causal ", missing),
        Refusal::ReplicaThere => put_bytes(out, b"refused replica-there\n"),
        Refusal::TooManyReplicas => put_bytes(out, b"refused too-many-replicas\n"),
    }
}

fn put_bytes(out: &mut Vec<u8>, bytes: &[u8]) -> Result<(), NoMemory>
    ensures put { OnOk result (out.new.items ≡ out.old.items ++ bytes.now) }
    ensures part { OnErr result (BeginsWith out.old.items out.new.items) }
{
    Ok(out.extend_from_slice(bytes)?)
}

/// Returns the word of a cause.
pub fn cause_word(cause: Cause) -> &'static str
    // The result is the word of the cause: `order`, `update` or `query`.
    ensures { result.now ≡ output.cause_word cause }
{
    match cause {
        Cause::Order => "order",
        Cause::Update => "update",
        Cause::Query => "query",
    }
}
