//! Runs the rows of one text.

use crate::orders::write_orders;
use crate::program::write_run;
use crate::records::write_records;
use def_workspace::{
    Collected, Fault, Fixture, FixtureFault, Part, Workspace, collect, find, print, print_items,
    read_row, rows_in,
};
use std::alloc::Global;
use std::io::{self, Write};

/// How many rows a text has, and how many of them are wrong.
#[derive(Clone, Copy)]
pub struct Counts {
    pub rows: usize,
    pub wrong: usize,
}

/// Writes the lines of what is collected, and where a row asks for them those of what is recorded and
/// of what is kept in an order.
fn write_collected(
    asked: &Fixture<'_>,
    workspace: &Workspace,
    collected: &Collected,
    lines: &mut Vec<u8>,
) -> Result<(), Fault> {
    print(workspace.alloc, &workspace.session, collected, lines)?;
    if asked.records.is_some() {
        writeln!(lines, "recorded:")?;
        write_records(&workspace.session, collected, lines)?;
    }
    if asked.orders.is_some() {
        writeln!(lines, "in order:")?;
        write_orders(&workspace.session, collected, lines)?;
    }
    Ok(())
}

/// Writes the lines of associated items, where a row asks for them.
fn write_items(
    row: &Fixture<'_>,
    asked: &Fixture<'_>,
    workspace: &mut Workspace,
    collected: Collected,
    lines: &mut Vec<u8>,
) -> Result<(), Fault> {
    if asked.items.is_none() {
        return Ok(());
    }
    writeln!(lines, "items:")?;
    let (unknown, asks) = (row.unknown.as_slice(), asked.asks.as_slice());
    print_items(workspace, collected, unknown, asks, lines)
}

/// Collects the crates of a workspace, and writes the lines of the last one, with those that another
/// row may ask for.
fn write_workspace(
    alloc: Global,
    row: &Fixture<'_>,
    asked: &Fixture<'_>,
    lines: &mut Vec<u8>,
) -> Result<(), Fault> {
    let mut workspace = Workspace::new(alloc, row)?;
    match collect(&mut workspace, row)? {
        Some(collected) => {
            write_collected(asked, &workspace, &collected, lines)?;
            write_items(row, asked, &mut workspace, collected, lines)
        }
        None => Ok(writeln!(lines, "no block")?),
    }
}

/// Writes the lines of the workspace that has a name.
fn write_named(
    alloc: Global,
    name: &str,
    asked: &Fixture<'_>,
    lines: &mut Vec<u8>,
) -> Result<(), Fault> {
    let Some(text) = find(name) else {
        return Ok(writeln!(lines, "no workspace")?);
    };
    let row = read_row(alloc, Part { text, line: 1 })?;
    write_workspace(alloc, &row, asked, lines)
}

/// Writes the lines of a row: of a run of the program, of a workspace that has a name, or of its own.
fn write_row(alloc: Global, row: &Fixture<'_>, lines: &mut Vec<u8>) -> Result<(), Fault> {
    match (&row.program, row.vector) {
        (Some(program), _) => Ok(write_run(alloc, program, lines)?),
        (None, Some(name)) => write_named(alloc, name, row, lines),
        (None, None) => write_workspace(alloc, row, row, lines),
    }
}

/// Writes the lines of a row. Where a text of it cannot be read, its line says from which byte on.
fn write_lines(alloc: Global, row: &Fixture<'_>, lines: &mut Vec<u8>) -> Result<(), Fault> {
    match write_row(alloc, row, lines) {
        Err(Fault::Text { tree: _, byte }) => Ok(writeln!(lines, "unreadable {byte}")?),
        written => written,
    }
}

/// Writes lines, of which the last one has no end.
fn write_ended(text: &str, lines: &mut Vec<u8>) -> io::Result<()> {
    if text.is_empty() {
        Ok(())
    } else {
        writeln!(lines, "{text}")
    }
}

/// Writes the lines that a row wants.
fn write_wanted(row: &Fixture<'_>, lines: &mut Vec<u8>) -> io::Result<()> {
    write_ended(row.shows, lines)?;
    if let Some(program) = &row.program {
        let status = program.status;
        writeln!(lines, "status {status}")?;
        write_ended(program.says, lines)?;
    }
    if let Some(records) = row.records {
        writeln!(lines, "recorded:")?;
        write_ended(records, lines)?;
    }
    if let Some(orders) = row.orders {
        writeln!(lines, "in order:")?;
        write_ended(orders, lines)?;
    }
    if let Some(items) = row.items {
        writeln!(lines, "items:")?;
        write_ended(items, lines)?;
    }
    Ok(())
}

/// Writes the name of a row that is wrong, the lines that are wanted, and those that it has.
fn report<W: io::Write>(name: &str, wanted: &[u8], lines: &[u8], out: &mut W) -> io::Result<()> {
    writeln!(out, "{name}\nwanted:")?;
    out.write_all(wanted)?;
    writeln!(out, "shown:")?;
    out.write_all(lines)
}

/// Answers whether a row has the lines that it wants, and reports it where it has not.
fn has_wanted<W: io::Write>(alloc: Global, row: &Fixture<'_>, out: &mut W) -> Result<bool, Fault> {
    let mut lines = Vec::new(alloc);
    let mut wanted = Vec::new(alloc);
    write_lines(alloc, row, &mut lines)?;
    write_wanted(row, &mut wanted)?;
    let is_right = lines.as_slice() == wanted.as_slice();
    if !is_right {
        report(row.name, wanted.as_slice(), lines.as_slice(), out)?;
    }
    Ok(is_right)
}

/// Reports why a row is not read.
fn report_fault<W: io::Write>(fault: FixtureFault, out: &mut W) -> Result<(), Fault> {
    match fault {
        FixtureFault::Memory => Err(Fault::Memory),
        FixtureFault::Line(line) => Ok(writeln!(out, "line {line} cannot be read")?),
    }
}

/// Runs a row, and answers whether it is right.
fn is_right<W: io::Write>(alloc: Global, part: Part<'_>, out: &mut W) -> Result<bool, Fault> {
    match read_row(alloc, part) {
        Ok(row) => has_wanted(alloc, &row, out),
        Err(fault) => {
            report_fault(fault, out)?;
            Ok(false)
        }
    }
}

/// Runs the rows that are left of a text.
fn run_rows<W: io::Write>(alloc: Global, rows: Part<'_>, out: &mut W) -> Result<Counts, Fault> {
    let mut left = rows;
    let mut counts = Counts { rows: 0, wrong: 0 };
    for _ in 0..rows.text.len() {
        let Some(row) = left.next_row() else {
            break;
        };
        counts.rows = counts.rows.saturating_add(1);
        if !is_right(alloc, row, out)? {
            counts.wrong = counts.wrong.saturating_add(1);
        }
    }
    Ok(counts)
}

/// Runs the rows of a text, and reports those that are wrong. A text that cannot be cut into rows
/// counts as one that is wrong.
pub fn run_text<W: io::Write>(alloc: Global, text: &str, out: &mut W) -> Result<Counts, Fault> {
    match rows_in(text) {
        Ok(rows) => run_rows(alloc, rows, out),
        Err(fault) => {
            report_fault(fault, out)?;
            Ok(Counts { rows: 0, wrong: 1 })
        }
    }
}
