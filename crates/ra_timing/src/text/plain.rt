//! A plain loop over lines and fields.

use anyhow::Result;
use ra_journal::Entry;
use ra_labels::{Command, Reply};
use std::alloc::Global;
use std::io::Read;

type Log = Vec<Entry<Command, Reply>>;

/// Reads all bytes as a check does, at most 4,096 at a time, splits them into lines and fields, and pushes one entry
/// for each line. Returns the number of entries.
pub fn cut_and_log<R: Read>(alloc: Global, reader: &mut R) -> Result<usize> {
    let mut log: Log = Vec::new(alloc);
    let mut partial = Vec::new(alloc);
    let mut piece = [0u8; 4_096];
    for _ in 0..u64::MAX {
        let count = reader.read(&mut piece)?;
        if count == 0 {
            break;
        }
        cut_piece(&piece[..count], &mut partial, &mut log)?;
    }
    Ok(log.len())
}

fn cut_piece(piece: &[u8], partial: &mut Vec<u8>, log: &mut Log) -> Result<()> {
    let mut rest = piece;
    while let Some(at) = rest.iter().position(|byte| *byte == b'\n') {
        if partial.is_empty() {
            log_line(&rest[..at], log)?;
        } else {
            partial.extend_from_slice(&rest[..at])?;
            log_line(partial, log)?;
            partial.clear();
        }
        rest = &rest[at + 1..];
    }
    partial.extend_from_slice(rest)?;
    Ok(())
}

fn log_line(line: &[u8], log: &mut Log) -> Result<()> {
    let fields = u32::try_from(line.split(|byte| *byte == b' ').count())?;
    let entry = Entry {
        pass: 0,
        ticket: log.len() as u64,
        command: Command::Deliver {
            replica: 0,
            label: fields,
        },
        reply: Reply::Yes(fields),
    };
    log.push(entry)?;
    Ok(())
}
