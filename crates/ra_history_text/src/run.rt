//! The check of a text from a reader to a writer.
ghost use Rattle.std.specs.Prelude.{◌≡◌, ◌<◌, [], length, Ok, OnOk, IfOk, IfErr, IfSome, IsErrOf};
ghost use Rattle.std.specs.Io.KnownBytes.{IsAtEnd};
ghost use Rattle.ra_history_text.specs.declared.fault.CheckFault.TheVariants.{Endless};
ghost use Rattle.ra_history_text.specs.declared.limits.TheConstants.{MOST_READS};
ghost use Rattle.ra_history_text.specs.Text.{text_start, taken};
ghost use Rattle.ra_history_text.specs.Output.{Reports};
ghost use Rattle.ra_history_text.specs.Run.{WritesAnswer, StopsCheck, HasGiven};

use crate::fault::CheckFault;
use crate::limits::{MOST_READS, PIECE};
use crate::outcome::Outcome;
use crate::session::Session;
use crate::write::write_out;
use std::alloc::Global;
use std::io::{Read, Write};

/// Checks the text that the reader provides, and writes a line for each reply and the end line.
///
/// The replies to the whole lines so far are written before the next read and before the check returns.
///
/// # Errors
///
/// `Syntax`, `Truncated`, `LineTooLong` and `Full`, with the line's number, if the text itself is faulty; `Read` if the
/// reader fails, and `Endless` after 4,294,967,296 reads. In these cases the replies to the lines before were written.
/// `NoMemory` if an allocation fails: the replies to some first lines were written. `Write` if the writer fails: a
/// proper prefix of the output was written. No read follows an error of the reader, and no read or write one of the
/// writer.
///
/// # Complexity
///
/// The steps of the monitor, and one write for each read of at most 4,096 bytes.
pub fn check<R: Read, W: Write>(
    alloc: Global,
    reader: &mut R,
    writer: &mut W,
) -> Result<Outcome, CheckFault>
    // After success, nothing is left to read.
    ensures end { OnOk result (IsAtEnd (R.remaining reader.new)) }
    // After success, if the reader's bytes are known, the text has a regular end and exactly its output was written.
    // The report is that of its history.
    ensures answered { IfOk result (λ outcome. IfSome (R.remaining reader.old) (λ text.
        WritesAnswer text (W.contents writer.old) (W.contents writer.new) outcome.report)) }
    // After `Syntax`, `Truncated`, `LineTooLong` or `Full` the text ends with this error at this line, and exactly its
    // output was written. After `Read` or `Endless` the replies to all whole lines read were written, after `NoMemory`
    // those to some first lines, and after `Write` a proper prefix of the output.
    ensures stopped { IfErr result (λ fault. IfSome (R.remaining reader.old) (λ text.
        StopsCheck text (R.remaining reader.new) (W.contents writer.old) (W.contents writer.new) fault)) }
    // `Endless` is returned only if the reader provided at least 4,294,967,296 bytes, where its bytes are known.
    ensures endless { IsErrOf result Endless → HasGiven (R.remaining reader.old) (R.remaining reader.new) MOST_READS }
{
    let mut session = Session::new(alloc);
    let answer = check_session(alloc, &mut session, reader, writer);
    // A session has many fields. Dropping it by a call lets the proof unfold them once, not at each return.
    drop(session);
    answer
}

/// Checks as `check` does, with a session to which nothing was fed, for a caller that inspects it afterwards. If the
/// text has a regular end, the session has read all of it.
///
/// # Errors
///
/// Those of `check`.
pub fn check_session<R: Read, W: Write>(
    alloc: Global,
    session: &mut Session,
    reader: &mut R,
    writer: &mut W,
) -> Result<Outcome, CheckFault>
    // The session has read nothing.
    requires { session.old ≡ text_start }
    // After success, nothing is left to read.
    ensures end { OnOk result (IsAtEnd (R.remaining reader.new)) }
    // After success, if the reader's bytes are known, the text has a regular end and exactly its output was written.
    // The report is that of its history.
    ensures answered { IfOk result (λ outcome. IfSome (R.remaining reader.old) (λ text.
        WritesAnswer text (W.contents writer.old) (W.contents writer.new) outcome.report)) }
    // After success, if the reader's bytes are known, the session has read exactly this text.
    ensures taken { OnOk result (IfSome (R.remaining reader.old) (λ text. taken text_start text ≡ Ok session.new)) }
    // After success, the report is that of the history that the session has read.
    ensures reported { IfOk result (λ outcome. Reports session.new.said outcome.report) }
    // After `Syntax`, `Truncated`, `LineTooLong` or `Full` the text ends with this error at this line, and exactly its
    // output was written. After `Read` or `Endless` the replies to all whole lines read were written, after `NoMemory`
    // those to some first lines, and after `Write` a proper prefix of the output.
    ensures stopped { IfErr result (λ fault. IfSome (R.remaining reader.old) (λ text.
        StopsCheck text (R.remaining reader.new) (W.contents writer.old) (W.contents writer.new) fault)) }
    // `Endless` is returned only if the reader provided at least 4,294,967,296 bytes, where its bytes are known.
    ensures endless { IsErrOf result Endless → HasGiven (R.remaining reader.old) (R.remaining reader.new) MOST_READS }
{
    let mut out = Vec::new(alloc);
    let mut piece = [0u8; PIECE];
    check_by_pieces(reader, writer, session, &mut out, &mut piece)
}

// Checks with a session at the start of a text, with buffers for the replies to a piece and for the piece.
fn check_by_pieces<R: Read, W: Write>(
    reader: &mut R,
    writer: &mut W,
    session: &mut Session,
    out: &mut Vec<u8>,
    piece: &mut [u8],
) -> Result<Outcome, CheckFault>
    requires start { session.old ≡ text_start }
    requires none { out.old.items ≡ [] }
    requires room { 0 < length piece.old }
    ensures end { OnOk result (IsAtEnd (R.remaining reader.new)) }
    ensures answered { IfOk result (λ outcome. IfSome (R.remaining reader.old) (λ text.
        WritesAnswer text (W.contents writer.old) (W.contents writer.new) outcome.report)) }
    ensures taken { OnOk result (IfSome (R.remaining reader.old) (λ text. taken text_start text ≡ Ok session.new)) }
    ensures reported { IfOk result (λ outcome. Reports session.new.said outcome.report) }
    ensures stopped { IfErr result (λ fault. IfSome (R.remaining reader.old) (λ text.
        StopsCheck text (R.remaining reader.new) (W.contents writer.old) (W.contents writer.new) fault)) }
    ensures endless { IsErrOf result Endless → HasGiven (R.remaining reader.old) (R.remaining reader.new) MOST_READS }
{
    for _ in 0..MOST_READS {
        let Ok(count) = reader.read(piece) else {
            return Err(CheckFault::Read);
        };
        if count == 0 {
            let report = session.finish(out)?;
            write_out(writer, out.as_slice())?;
            return Ok(Outcome { report });
        }
        let fed = session.feed(&piece[..count], out);
        write_out(writer, out.as_slice())?;
        fed?;
        out.clear();
    }
    Err(CheckFault::Endless)
}
