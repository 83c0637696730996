//! Prints the items of Rust source files, or what is wrong with them.
#![tactic(auto)]

mod outline;
mod show;

use outline::{read, write_items};
use rust_lexer::Sources;
use std::io::{self, Write};
use std::process::ExitCode;
use std::{env, fs};

/// Writes the items of a file, or its fault. Answers whether it was read.
fn outline_file<W: io::Write>(
    rt: &HostRuntime,
    name: &str,
    is_quiet: bool,
    out: &mut W,
) -> io::Result<bool> {
    let alloc = rt.alloc();
    let Ok(text) = fs::read_to_string(rt, name) else {
        writeln!(out, "{name}: cannot be read")?;
        return Ok(false);
    };
    let mut sources = Sources::new(alloc);
    let Some(id) = sources.add(text)? else {
        return Ok(false);
    };
    match read(alloc, &sources, id)? {
        Ok(outline) => {
            let count = outline.list.items.len();
            writeln!(out, "{name}: {count}")?;
            if !is_quiet {
                write_items(alloc, &sources, &outline, out)?;
            }
            Ok(true)
        }
        Err(wrong) => {
            let (line, column, why) = (wrong.place.line, wrong.place.column, wrong.why);
            writeln!(out, "{name}:{line}:{column}: {why}")?;
            Ok(false)
        }
    }
}

/// Writes the items of all files that are named. Answers whether each was read.
fn outline_files<W: io::Write>(rt: &HostRuntime, out: &mut W) -> io::Result<bool> {
    let mut is_quiet = false;
    let mut is_read = true;
    for word in env::args(rt)?.skip(1) {
        if word.as_str() == "--quiet" {
            is_quiet = true;
        } else if !outline_file(rt, word.as_str(), is_quiet, out)? {
            is_read = false;
        }
    }
    Ok(is_read)
}

fn main(rt: HostRuntime) -> io::Result<ExitCode> {
    let mut out = io::writer(&rt);
    let is_read = outline_files(&rt, &mut out)?;
    Ok(ExitCode::from(if is_read { 0 } else { 1 }))
}
