//! Runs of the program over words, writers and folders.

use crate::load::{Loaded, Stop, load};
use crate::words::{Order, Words, read_words};
use cargo_packages::Folders;
use clap::Error;
use clap::error::ErrorKind;
use rust_names::Names;
use rust_reports::Checked;
use rust_shown::{
    Form, write_checked, write_graph, write_map_json, write_meanings, write_meanings_json,
};
use rust_workspace::Workspace;
use std::alloc::{AllocError, Global};
use std::io;

/// How a command ended.
#[derive(Clone, Copy, PartialEq, Eq)]
enum Ended {
    /// Nothing is reported.
    Well,
    Reported,
    /// The words name what is not there.
    Unknown,
}

/// Writes what does not resolve, and the map where it is asked for.
fn check<O: io::Write>(
    names: &Names<'_, Workspace>,
    loaded: &Loaded,
    words: &Words<'_>,
    has_map: bool,
    out: &mut O,
) -> io::Result<Ended> {
    let form = match (words.is_json, words.is_quiet) {
        (true, _) => Form::Json,
        (false, true) => Form::Quiet,
        (false, false) => Form::Whole,
    };
    let Some(checked) = Checked::new(names, loaded.krate, loaded.notes.as_slice())? else {
        return Ok(Ended::Unknown);
    };
    write_checked(names, &checked, form, out)?;
    if has_map {
        write_map(names, loaded, words, out)?;
    }
    if checked.reports.list.is_empty() {
        Ok(Ended::Well)
    } else {
        Ok(Ended::Reported)
    }
}

/// Writes the map.
fn write_map<O: io::Write>(
    names: &Names<'_, Workspace>,
    loaded: &Loaded,
    words: &Words<'_>,
    out: &mut O,
) -> io::Result<()> {
    if words.is_json {
        write_map_json(names, loaded.krate, out)
    } else {
        rust_shown::write_map(names, loaded.krate, out)
    }
}

/// Writes what a path means in a module.
fn ask<O: io::Write, E: io::Write>(
    names: &Names<'_, Workspace>,
    loaded: &Loaded,
    words: &Words<'_>,
    asked: (&str, &str),
    out: &mut O,
    err: &mut E,
) -> io::Result<Ended> {
    let (module, path) = asked;
    let Some(found) = names.find_module(loaded.krate, module)? else {
        writeln!(err, "there is no module `{module}`")?;
        return Ok(Ended::Unknown);
    };
    let meaning = names.meaning(found, path)?;
    if words.is_json {
        write_meanings_json(names, meaning, out)?;
    } else {
        write_meanings(names, meaning, out)?;
    }
    Ok(Ended::Well)
}

/// Writes what is asked for of what was collected.
fn write_asked<O: io::Write, E: io::Write>(
    alloc: Global,
    loaded: &Loaded,
    words: &Words<'_>,
    out: &mut O,
    err: &mut E,
) -> io::Result<Ended> {
    let names = Names::new(alloc, &loaded.workspace, loaded.krate)?;
    match words.order {
        Order::Check { has_map } => check(&names, loaded, words, has_map, out),
        Order::Map => {
            write_map(&names, loaded, words, out)?;
            Ok(Ended::Well)
        }
        Order::Dot => {
            write_graph(&names, loaded.krate, out)?;
            Ok(Ended::Well)
        }
        Order::Ask { module, path } => ask(&names, loaded, words, (module, path), out, err),
    }
}

/// Says why nothing is collected, and answers the status.
fn stopped<E: io::Write>(stop: Stop, err: &mut E) -> u8 {
    let _ = match stop {
        Stop::Memory => writeln!(err, "out of memory"),
        Stop::Package(error) => writeln!(err, "{error}"),
        Stop::Cfg(word, error) => {
            let word = word.as_str();
            writeln!(err, "--cfg {word}: {error}")
        }
    };
    2
}

/// How many times the crate that was asked for was collected.
fn rounds_of(loaded: &Loaded) -> usize {
    for collected in loaded.workspace.crates.iter() {
        if collected.krate == loaded.krate {
            return collected.rounds;
        }
    }
    0
}

/// Says how many microseconds all took, and how many rounds the crate that was asked for.
fn write_times<E: io::Write>(loaded: &Loaded, written: u64, err: &mut E) -> io::Result<()> {
    let times = loaded.workspace.times;
    let (read, expanded, collected) = (times.reading, times.expanding, times.collecting);
    let rounds = rounds_of(loaded);
    write!(err, "read: {read} us, expanded: {expanded} us, ")?;
    write!(err, "collected: {collected} us, written: {written} us, ")?;
    writeln!(err, "rounds: {rounds}")
}

/// Collects what the words ask for, writes of it what they ask for, and answers the status.
fn run_words<H: Folders, O: io::Write, E: io::Write>(
    alloc: Global,
    words: &Words<'_>,
    host: &H,
    out: &mut O,
    err: &mut E,
) -> u8 {
    let loaded = match load(alloc, host, words) {
        Ok(loaded) => loaded,
        Err(stop) => return stopped(stop, err),
    };
    let collected = host.microseconds();
    let ended = write_asked(alloc, &loaded, words, out, err);
    if words.has_times {
        let written = host.microseconds().saturating_sub(collected);
        let _ = write_times(&loaded, written, err);
    }
    match ended {
        Ok(Ended::Well) => 0,
        Ok(Ended::Reported) => 1,
        Ok(Ended::Unknown) => 2,
        Err(error) if error.kind() == io::ErrorKind::OutOfMemory => stopped(Stop::Memory, err),
        Err(_) => 2,
    }
}

/// Writes what is to be said of words that ask for no command, and answers the status: 2 where they
/// are wrong.
fn told<O: io::Write, E: io::Write>(error: &Error, out: &mut O, err: &mut E) -> u8 {
    if error.use_stderr() {
        let _ = write!(err, "{error}");
        return 2;
    }
    if write!(out, "{error}").is_err() {
        2
    } else {
        0
    }
}

/// Runs the program over the words of a command line, its own name first, and answers the status: 0;
/// 1 where something is reported; 2 where the words are wrong, what they name cannot be read, memory
/// is refused, or a write to `out`.
pub(crate) fn run<H: Folders, O: io::Write, E: io::Write>(
    alloc: Global,
    words: &[&str],
    host: &H,
    out: &mut O,
    err: &mut E,
) -> u8 {
    match read_words(alloc, words) {
        Ok(words) => run_words(alloc, &words, host, out, err),
        Err(error) if error.kind() == ErrorKind::OutOfMemory => stopped(Stop::Memory, err),
        Err(error) => told(&error, out, err),
    }
}

/// Runs the program over the arguments of the process.
pub(crate) fn run_args<H: Folders, O: io::Write, E: io::Write>(
    alloc: Global,
    args: &[String],
    host: &H,
    out: &mut O,
    err: &mut E,
) -> Result<u8, AllocError> {
    let mut words = Vec::new(alloc);
    for word in args {
        words.push(word.as_str())?;
    }
    Ok(run(alloc, words.as_slice(), host, out, err))
}
