//! Refuses each request for memory in turn: of the workspaces that have names, of the rows of the
//! files that are named, of calls, and of writes of tables; and every one, of calls that take none.
//! Where the library that refuses is not loaded nothing is refused, and all is done once.
#![tactic(auto)]

mod calls;
mod copies;
mod counts;
mod items;
mod locations;
mod maps;
mod oracle;
mod readings;
mod refusal;
mod rows;
mod tables;
mod trial;

use calls::{CALLS, CallOf, name_of};
use counts::Counts;
use def_bindings::Visibility;
use def_map::Table;
use def_tables::{NumberedTable, ScopeTable};
use def_workspace::{Fault, Part, read_row};
use oracle::told_otherwise;
use readings::answered_otherwise;
use rows::{RowCounts, try_named, try_text};
use std::alloc::Global;
use std::io::{self, Write};
use std::{fmt, fs};
use tables::{Made, refuse_writes};
use trial::refuse_each;

/// The workspaces that have names, but for those that would take long.
const NAMES: [&str; 18] = [
    "attrs",
    "circular",
    "cycle",
    "empty",
    "excused",
    "fallback",
    "fields",
    "follow",
    "glob",
    "list",
    "module-macro",
    "partial",
    "plain",
    "private",
    "procmacro",
    "targets",
    "textual-use",
    "underscore",
];

/// Nothing counted of rows.
const NO_ROWS: RowCounts = RowCounts {
    maps: Counts::NONE,
    items: Counts::NONE,
};

/// Tries the workspaces that have names.
fn try_names<W: io::Write>(alloc: Global, all: &mut Counts, out: &mut W) -> Result<(), Fault> {
    for name in &NAMES {
        let mut counts = NO_ROWS;
        try_named(alloc, name, &mut counts, out)?;
        counts.maps.tell(name, all, out)?;
    }
    Ok(())
}

/// Tries the rows of the files that are named.
fn try_files<W: io::Write>(
    rt: &HostRuntime,
    files: &[String],
    all: &mut Counts,
    out: &mut W,
) -> Result<(), Fault> {
    let mut counts = NO_ROWS;
    for name in files {
        let text = fs::read_to_string(rt, name.as_str())?;
        counts.maps = Counts::NONE;
        try_text(rt.alloc(), text.as_str(), &mut counts, out)?;
        counts.maps.tell(name.as_str(), all, out)?;
    }
    counts.items.tell("items of traits and impls", all, out)?;
    Ok(())
}

/// Tries the calls.
fn try_calls<W: io::Write>(alloc: Global, all: &mut Counts, out: &mut W) -> Result<(), Fault> {
    let text = calls::ROW;
    let row = read_row(alloc, Part { text, line: 1 })?;
    for number in 0..CALLS {
        let name = name_of(number);
        let call = CallOf { row: &row, number };
        let mut counts = Counts::NONE;
        refuse_each(alloc, &call, name, &mut counts, out)?;
        counts.tell(name, all, out)?;
    }
    Ok(())
}

/// Tries the writes of a table.
fn try_table<T: Made, W: io::Write>(
    alloc: Global,
    name: &str,
    all: &mut Counts,
    out: &mut W,
) -> Result<(), Fault> {
    let mut counts = Counts::NONE;
    refuse_writes::<T, W>(alloc, name, &mut counts, out)?;
    counts.tell(name, all, out)?;
    Ok(())
}

/// Tries the writes of each table.
fn try_tables<W: io::Write>(alloc: Global, all: &mut Counts, out: &mut W) -> Result<(), Fault> {
    try_table::<ScopeTable<Visibility>, W>(alloc, "ScopeTable", all, out)?;
    try_table::<NumberedTable<Visibility>, W>(alloc, "NumberedTable", all, out)?;
    try_table::<Table, W>(alloc, "NumberedTable of a map", all, out)
}

/// Prints that something is as it should be, or what of it is not, and counts that.
fn tell_right<T: fmt::Display + Drop, W: io::Write>(
    name: &str,
    wrong: Option<T>,
    all: &mut Counts,
    out: &mut W,
) -> io::Result<()> {
    let Some(wrong) = wrong else {
        return writeln!(out, "{name}: right");
    };
    all.wrong = all.wrong.saturating_add(1);
    writeln!(out, "{name}: wrong at {wrong}")
}

/// Makes the calls that take no memory, and asks an oracle that has none.
fn try_others<W: io::Write>(alloc: Global, all: &mut Counts, out: &mut W) -> Result<(), Fault> {
    let wrong = answered_otherwise(alloc)?;
    tell_right("calls that take no memory", wrong, all, out)?;
    let wrong = told_otherwise(alloc)?;
    tell_right("an oracle without memory", wrong, all, out)?;
    Ok(())
}

/// Refuses each request for memory in turn, also of the rows of the files of these names, and prints
/// what was refused and what is wrong. Answers whether all is right.
pub fn try_all<W: io::Write>(
    rt: &HostRuntime,
    files: &[String],
    out: &mut W,
) -> Result<bool, Fault> {
    let mut all = Counts::NONE;
    try_names(rt.alloc(), &mut all, out)?;
    try_files(rt, files, &mut all, out)?;
    try_calls(rt.alloc(), &mut all, out)?;
    try_tables(rt.alloc(), &mut all, out)?;
    try_others(rt.alloc(), &mut all, out)?;
    let Counts { refused, wrong, .. } = all;
    writeln!(out, "{refused} requests were refused")?;
    writeln!(out, "{wrong} are wrong")?;
    Ok(wrong == 0)
}
