//! Prints the map of definitions of a scripted crate, or runs the rows of files: collects the
//! workspace of each row, and compares the lines that are shown of it, and where the row says so
//! those of what is recorded beside them and of what is kept in an order, with those that are wanted.
#![tactic(auto)]

mod orders;
mod program;
mod records;
mod run;

use def_workspace::{Fault, run_args};
use run::{Counts, run_text};
use std::io::{self, Write};
use std::process::ExitCode;
use std::{env, fs};

/// The arguments of the process, its own name first.
fn args(rt: &HostRuntime) -> io::Result<Vec<String>> {
    let mut args = Vec::new(rt.alloc());
    for arg in env::args(rt)? {
        args.push(arg)?;
    }
    Ok(args)
}

/// The names of the files whose rows are asked for: what stands behind the word `rows`.
fn files(args: &io::Result<Vec<String>>) -> &[String] {
    let Ok(args) = args else {
        return &[];
    };
    match args.as_slice() {
        [_, word, files @ ..] if word.as_str() == "rows" => files,
        _ => &[],
    }
}

/// Runs the rows of a file, prints how many there are, and answers how many are wrong. A file that
/// cannot be read counts as one.
fn run_file<W: io::Write>(rt: &HostRuntime, name: &str, out: &mut W) -> Result<usize, Fault> {
    let Ok(text) = fs::read_to_string(rt, name) else {
        writeln!(out, "{name} cannot be read")?;
        return Ok(1);
    };
    let Counts { rows, wrong } = run_text(rt.alloc(), text.as_str(), out)?;
    writeln!(out, "{name}: {rows}")?;
    Ok(wrong)
}

/// Runs the rows of files, and answers how many are wrong.
fn run_files<W: io::Write>(
    rt: &HostRuntime,
    files: &[String],
    out: &mut W,
) -> Result<usize, Fault> {
    let mut wrong: usize = 0;
    for name in files {
        let more = run_file(rt, name.as_str(), out)?;
        wrong = wrong.saturating_add(more);
    }
    Ok(wrong)
}

/// Runs the rows of files, and answers the exit status: 1 where one is wrong, or where memory is
/// refused, or a write.
fn rows_status<W: io::Write>(rt: &HostRuntime, files: &[String], out: &mut W) -> u8 {
    match run_files(rt, files, out) {
        Ok(0) => 0,
        Ok(_) => 1,
        Err(_) => {
            let _ = writeln!(rt.stderr(), "out of memory, or the output was refused");
            1
        }
    }
}

fn main(rt: HostRuntime) -> ExitCode {
    let args = args(&rt);
    let files = files(&args);
    let mut out = io::writer(&rt);
    let status = if files.is_empty() {
        run_args(rt.alloc(), args, &mut out, &mut rt.stderr())
    } else {
        rows_status(&rt, files, &mut out)
    };
    ExitCode::from(status)
}
