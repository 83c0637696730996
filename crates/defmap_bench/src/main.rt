//! Measures how long the definitions of synthetic crates take to be collected, and what the lower
//! crates take for large inputs, and prints a table or lines for each.
#![tactic(auto)]

mod assoc;
mod cells;
mod database;
mod figures;
mod globs;
mod measure;
mod places;
mod report;
mod tables;
mod texts;
mod trees;

use measure::{Table, measure_text};
use std::process::ExitCode;
use std::rt::{Clock, Files};
use std::{env, fs, io};

/// Measures what a word asks for, and answers whether it names something. Most words name the
/// file of a crate.
fn run<R: Clock + Files + AllocGlobal, W: io::Write>(
    rt: &R,
    out: &mut W,
    table: &mut Table,
    word: &str,
) -> io::Result<bool> {
    match word {
        "trees" => trees::run(rt.alloc(), rt, out)?,
        "tables" => tables::run(rt.alloc(), rt, out)?,
        "globs" => globs::run(rt.alloc(), rt, out)?,
        _ => {
            let Ok(text) = fs::read_to_string(rt, word) else {
                return Ok(false);
            };
            measure_text(rt.alloc(), rt, out, table, text.as_str())?;
        }
    }
    Ok(true)
}

/// Measures what the words of the command line ask for, up to one that names nothing, and answers
/// whether there is a word, and each names something.
fn run_all<W: io::Write>(rt: &HostRuntime, out: &mut W) -> io::Result<bool> {
    let mut table = Table::new(rt.alloc());
    let mut is_known = false;
    for word in env::args(rt)?.skip(1) {
        is_known = run(rt, out, &mut table, word.as_str())?;
        if !is_known {
            break;
        }
    }
    Ok(is_known)
}

fn main(rt: HostRuntime) -> io::Result<ExitCode> {
    if run_all(&rt, &mut io::writer(&rt))? {
        return Ok(ExitCode::SUCCESS);
    }
    eprintln!(rt;
        "usage: defmap_bench FILE..\nfiles: crates that tools/shapes writes\n   or: defmap_bench trees | tables | globs"
    )?;
    Ok(ExitCode::from(2))
}
