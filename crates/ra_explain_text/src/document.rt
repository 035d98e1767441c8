//! A self-contained HTML document.
ghost use Rattle.std.specs.Prelude.{◌≡◌, ◌≤◌, ◌++◌, All, OnOk, codes, drop, length, take};
ghost use Rattle.ra_explain_text.specs.Document.{HasDocument, IsTrimmed, document_end, document_head, document_start, document_style};
ghost use Rattle.ra_explain_text.specs.Document.{escaped, escaped_byte};

use crate::layout::{behind, front_of, put};
use ra_labels::NoMemory;

/// Appends a document with this title and this text, and a figure behind the text.
///
/// # Errors
///
/// `NoMemory` if an allocation fails.
pub fn put_document(
    out: &mut Vec<u8>,
    title: &[u8],
    words: &[u8],
    figure: &[u8],
) -> Result<(), NoMemory>
    // After success, exactly the document is appended with this title, this text without the line feeds at its ends,
    // and this figure. Title and text have their characters escaped as HTML requires.
    ensures { OnOk result (HasDocument out.old.items out.new.items title.now words.now figure.now) }
{
    put_start(out, title)?;
    put_escaped(out, without_line_feeds(words))?;
    put_end(out, figure)
}

// Appends the beginning of a document, up to its text.
fn put_start(out: &mut Vec<u8>, title: &[u8]) -> Result<(), NoMemory>
    ensures { OnOk result (out.new.items ≡ out.old.items ++ document_start title.now) }
{
    put_head(out)?;
    put_escaped(out, title)?;
    put(out, "</title>\n</head>\n<body>\n<h1>")?;
    put_escaped(out, title)?;
    put(out, "</h1>\n<pre>")
}

fn put_head(out: &mut Vec<u8>) -> Result<(), NoMemory>
    ensures { OnOk result (out.new.items ≡ out.old.items ++ document_head) }
{
    put(
        out,
        "<!doctype html>\n<html lang=\"en\">\n<head>\n<meta charset=\"utf-8\">\n",
    )?;
    put(
        out,
        "<meta name=\"viewport\" content=\"width=device-width\">\n",
    )?;
    put_style(out)?;
    put(out, "\n<title>")
}

fn put_style(out: &mut Vec<u8>) -> Result<(), NoMemory>
    ensures { OnOk result (out.new.items ≡ out.old.items ++ document_style) }
{
    put(out, "<style>:root{color-scheme:light dark}")?;
    put(
        out,
        "body{font:16px/1.5 sans-serif;max-width:70em;margin:2em auto;padding:0 1em}",
    )?;
    put(
        out,
        "pre,td{font-family:monospace;font-size:14px}pre{white-space:pre-wrap}",
    )?;
    put(
        out,
        "figure{margin:1em 0;overflow-x:auto}td,th,caption{text-align:left;padding:0 1.5em 0 0}</style>",
    )
}

// Appends the end of a document, from behind its text on.
fn put_end(out: &mut Vec<u8>, figure: &[u8]) -> Result<(), NoMemory>
    ensures { OnOk result (out.new.items ≡ out.old.items ++ document_end figure.now) }
{
    put(out, "</pre>\n")?;
    put_figure(out, figure)
}

fn put_figure(out: &mut Vec<u8>, figure: &[u8]) -> Result<(), NoMemory>
    ensures { OnOk result (out.new.items ≡ out.old.items ++ (figure.now ++ codes "</body>\n</html>\n")) }
{
    out.extend_from_slice(figure)?;
    put(out, "</body>\n</html>\n")
}

// Returns the text without the line feeds at its ends. A space there may belong to a quoted line.
fn without_line_feeds(words: &[u8]) -> &[u8]
    ensures { IsTrimmed words.now result.now }
{
    let front = feeds_before(words);
    let rest = behind(words, front);
    let end = end_before_feeds(rest);
    front_of(rest, end)
}

// Returns the number of line feeds at the beginning.
fn feeds_before(words: &[u8]) -> usize
    ensures within { result ≤ length words.now }
    ensures feeds { All (λ b. b ≡ 10) (take result words.now) }
{
    let mut front: usize = 0;
    while front < words.len() && words[front] == b'\n' {
        front += 1;
    }
    front
}

// Returns the index from which on there are only line feeds.
fn end_before_feeds(words: &[u8]) -> usize
    ensures within { result ≤ length words.now }
    ensures feeds { All (λ b. b ≡ 10) (drop result words.now) }
{
    let mut end = words.len();
    while end > 0 && words[end - 1] == b'\n' {
        end -= 1;
    }
    end
}

/// Appends the text, with the characters escaped that HTML reserves in text.
///
/// # Errors
///
/// `NoMemory` if an allocation fails.
pub fn put_escaped(out: &mut Vec<u8>, text: &[u8]) -> Result<(), NoMemory>
    // After success, the text is appended, with its characters escaped as HTML requires.
    ensures { OnOk result (out.new.items ≡ out.old.items ++ escaped text.now) }
{
    for byte in text {
        put_byte(out, *byte)?;
    }
    Ok(())
}

fn put_byte(out: &mut Vec<u8>, byte: u8) -> Result<(), NoMemory>
    ensures { OnOk result (out.new.items ≡ out.old.items ++ escaped_byte byte) }
{
    if byte == b'<' {
        put(out, "&lt;")
    } else if byte == b'&' {
        put(out, "&amp;")
    } else {
        Ok(out.push(byte)?)
    }
}
