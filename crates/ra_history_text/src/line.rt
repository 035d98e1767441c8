//! A writer of single lines.
ghost use Rattle.std.specs.Prelude.{◌∷◌, ◌++◌, [], IfErr, OnOk, string_bytes};
ghost use Rattle.std.specs.Io.KnownBytes.{Appends};
ghost use Rattle.ra_history_text.specs.Written.{StopsLine};

use crate::fault::CheckFault;
use crate::write::write_out;
use std::io::Write;

/// Writes the words and a line feed.
///
/// # Errors
///
/// `NoMemory` if an allocation fails: nothing was written. `Write` if the writer fails or accepts no byte: a proper
/// prefix of the line was written.
pub fn write_line<W: Write>(words: String, writer: &mut W) -> Result<(), CheckFault>
    // After success, exactly the words and a line feed were written.
    ensures written { OnOk result (Appends (W.contents writer.old) (W.contents writer.new)
        (string_bytes words ++ 10 ∷ [])) }
    // After `NoMemory` nothing was written, and after `Write` a proper prefix of the line. No other error occurs.
    ensures stopped { IfErr result (StopsLine (string_bytes words ++ 10 ∷ [])
        (W.contents writer.old) (W.contents writer.new)) }
{
    let mut line = words;
    line.push('\n')?;
    write_out(writer, line.as_bytes())?;
    Ok(())
}
