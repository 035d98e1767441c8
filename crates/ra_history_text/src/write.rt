//! A writer of whole byte strings.
ghost use Rattle.std.specs.Prelude.{◌<◌, ℕ, List, length, OnErr, OnOk};
ghost use Rattle.std.specs.Io.KnownBytes.{Appends};
ghost use Rattle.ra_history_text.specs.Written.{HasWritten};

use std::io::Write;

/// The error of a writer that failed or accepted no byte.
#[derive(Clone, Copy, Debug, PartialEq, Eq)]
pub struct Unwritten;

/// Writes all of the bytes.
///
/// # Errors
///
/// `Unwritten` if the writer fails, or accepts no byte: a proper prefix of the bytes was written.
pub fn write_out<W: Write>(writer: &mut W, bytes: &[u8]) -> Result<(), Unwritten>
    // After success, exactly these bytes were written.
    ensures written { OnOk result (Appends (W.contents writer.old) (W.contents writer.new) bytes.now) }
    // After an error, a proper prefix of the bytes was written.
    ensures part { OnErr result ((rest : List ℕ) × (0 < length rest)
        × HasWritten (W.contents writer.old) (W.contents writer.new) bytes.now rest) }
{
    let mut rest = bytes;
    while !rest.is_empty() {
        match writer.write(rest) {
            Ok(count) if count > 0 => rest = &rest[count..],
            _ => return Err(Unwritten),
        }
    }
    Ok(())
}
