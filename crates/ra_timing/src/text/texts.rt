//! Texts of many lines.

use anyhow::Result;
use std::alloc::Global;

/// Returns a text of a counter's history with this line repeated `lines` times.
pub fn text_of(alloc: Global, line: &str, lines: u32) -> Result<String> {
    let mut text = String::from_str(alloc, "RAH 1 counter\nreplicas a b c\n")?;
    for _ in 0..lines {
        text.push_str(line)?;
        text.push('\n')?;
    }
    Ok(text)
}
