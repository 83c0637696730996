//! The rows of a text, and the workspaces that have names.

use crate::counts::Counts;
use crate::items::ItemsOf;
use crate::maps::MapOf;
use crate::trial::refuse_each;
use def_workspace::{Fault, Fixture, Part, Workspace, find, read_row, rows_in};
use std::alloc::Global;
use std::io;

/// What was counted of rows: of their maps, and of the items of their traits and impls.
#[derive(Clone, Copy)]
pub struct RowCounts {
    pub maps: Counts,
    pub items: Counts,
}

/// Whether a row has so much in it that to do it once for each of its requests would take long, or
/// has no workspace of its own.
fn is_left_out(row: &Fixture<'_>) -> bool {
    let is_long = row.files.iter().any(|file| file.times != 1);
    row.chain.is_some() || is_long || row.program.is_some() || row.vector.is_some()
}

/// Refuses the requests of a row, unless it is left out, or cannot be read.
fn try_row<W: io::Write>(
    alloc: Global,
    row: &Fixture<'_>,
    name: &str,
    counts: &mut RowCounts,
    out: &mut W,
) -> Result<(), Fault> {
    if is_left_out(row) || Workspace::new(alloc, row).is_err() {
        return Ok(());
    }
    refuse_each(alloc, &MapOf { row }, name, &mut counts.maps, out)?;
    if row.items.is_some() {
        refuse_each(alloc, &ItemsOf { row }, name, &mut counts.items, out)?;
    }
    Ok(())
}

/// Refuses the requests of the workspace that has a name.
pub fn try_named<W: io::Write>(
    alloc: Global,
    name: &str,
    counts: &mut RowCounts,
    out: &mut W,
) -> Result<(), Fault> {
    let Some(text) = find(name) else {
        return Ok(());
    };
    let row = read_row(alloc, Part { text, line: 1 })?;
    try_row(alloc, &row, name, counts, out)
}

/// Refuses the requests of each row of a text.
pub fn try_text<W: io::Write>(
    alloc: Global,
    text: &str,
    counts: &mut RowCounts,
    out: &mut W,
) -> Result<(), Fault> {
    let mut left = rows_in(text)?;
    for _ in 0..text.len() {
        let Some(part) = left.next_row() else {
            break;
        };
        let row = read_row(alloc, part)?;
        try_row(alloc, &row, row.name, counts, out)?;
    }
    Ok(())
}
