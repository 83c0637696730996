//! An excerpt: a line of a text, or what stands in it around a part of it, and carets below that part.

use crate::characters::{columns, shown};
use std::io;

/// How many characters of a line are shown before the part, and how many from its beginning on.
const BEFORE: usize = 80;

const BEHIND: usize = 100;

/// The end of the last line of a text, as far as it is shown.
fn last_of_line(text: &str) -> &str {
    let mut from = text.len();
    for (at, ch) in text.char_indices().rev().take(BEFORE) {
        if ch == '\n' {
            break;
        }
        from = at;
    }
    text.get(from..).unwrap_or("")
}

/// The beginning of the first line of a text, as far as it is shown.
fn first_of_line(text: &str) -> &str {
    let mut to = 0;
    for (at, ch) in text.char_indices().take(BEHIND) {
        if ch == '\n' || ch == '\r' {
            break;
        }
        to = at.saturating_add(ch.len_utf8());
    }
    text.get(..to).unwrap_or("")
}

/// Whether what is shown of the end of a text's last line lacks some of it.
fn is_cut_before(text: &str, shown: &str) -> bool {
    let left = text.len().saturating_sub(shown.len());
    left > 0 && text.as_bytes().get(left.saturating_sub(1)) != Some(&b'\n')
}

/// Whether what is shown of the beginning of a text's first line lacks some of it.
fn is_cut_behind(text: &str, shown: &str) -> bool {
    match text.as_bytes().get(shown.len()) {
        Some(byte) => *byte != b'\n' && *byte != b'\r',
        None => false,
    }
}

/// The columns of the characters that begin before a byte.
fn columns_before(text: &str, byte: usize) -> usize {
    let mut count = 0usize;
    for (at, ch) in text.char_indices() {
        if at >= byte {
            break;
        }
        count = count.saturating_add(columns(ch));
    }
    count
}

/// How many digits a number has.
fn digits(number: usize) -> usize {
    let mut left = number;
    let mut count = 1usize;
    for _ in 0..20 {
        if left < 10 {
            break;
        }
        left /= 10;
        count = count.saturating_add(1);
    }
    count
}

/// Writes characters as they are shown.
fn write_shown<W: io::Write>(out: &mut W, text: &str) -> io::Result<()> {
    for ch in text.chars() {
        let ch = shown(ch);
        write!(out, "{ch}")?;
    }
    Ok(())
}

/// Writes a character so many times.
fn write_many<W: io::Write>(out: &mut W, ch: char, count: usize) -> io::Result<()> {
    for _ in 0..count {
        write!(out, "{ch}")?;
    }
    Ok(())
}

/// Writes carets below what of a line, in columns, is marked.
fn write_carets<W: io::Write>(
    out: &mut W,
    line: usize,
    indent: usize,
    marked: usize,
) -> io::Result<()> {
    write_many(out, ' ', digits(line).saturating_add(1))?;
    write!(out, " | ")?;
    write_many(out, ' ', indent)?;
    write_many(out, '^', marked.max(1))?;
    writeln!(out, "")
}

/// Writes the line in which a part of a text begins, behind its number, and carets below what of the
/// part lies in it. The part begins at the byte `start` and ends before `end`. A long line is cut to
/// what stands around the beginning. Tabs are written as spaces, and characters that must not reach a
/// terminal as `?`.
pub fn write_excerpt<W: io::Write>(
    out: &mut W,
    text: &str,
    line: usize,
    start: usize,
    end: usize,
) -> io::Result<()> {
    let (before, behind) = (
        text.get(..start).unwrap_or(""),
        text.get(start..).unwrap_or(""),
    );
    let (lead, tail) = (last_of_line(before), first_of_line(behind));
    let dots = if is_cut_before(before, lead) { 3 } else { 0 };
    write!(out, " {line} | ")?;
    write_many(out, '.', dots)?;
    write_shown(out, lead)?;
    write_shown(out, tail)?;
    if is_cut_behind(behind, tail) {
        write!(out, "...")?;
    }
    writeln!(out, "")?;
    let indent = columns_before(lead, lead.len()).saturating_add(dots);
    write_carets(
        out,
        line,
        indent,
        columns_before(tail, end.saturating_sub(start)),
    )
}
