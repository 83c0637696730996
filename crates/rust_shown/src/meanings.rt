//! What a path means, in each namespace.

use crate::described::{described_value, write_described};
use crate::json::JsonLines;
use crate::lines::write_line_of;
use def_map::{Item, PerNs};
use rust_codebase::Codebase;
use rust_names::Names;
use serde_json::{Value, json};
use source_lines::LineColumn;
use std::alloc::AllocError;
use std::io;

/// Writes what a path means in a namespace, and where that is declared.
fn write_meaning<C: Codebase, O: io::Write>(
    names: &Names<'_, C>,
    space: &str,
    item: Option<Item>,
    out: &mut O,
) -> io::Result<()> {
    let Some(item) = item else {
        return writeln!(out, "{space}: nothing");
    };
    let described = names.describe(item)?;
    write!(out, "{space}: ")?;
    write_described(names, &described, out)?;
    writeln!(out, "")?;
    if let Some(spot) = described.spot {
        let LineColumn { line, column } = names.places.line_column(spot)?;
        let path = names.places.path(spot.source);
        writeln!(out, "declared at {path}:{line}:{column}")?;
        write_line_of(names, spot, out)?;
    }
    Ok(())
}

/// What a path means in the namespaces, by their names.
fn by_namespace(found: Option<PerNs>) -> [(&'static str, Option<Item>); 3] {
    match found {
        Some(found) => [
            ("types", found.types),
            ("values", found.values),
            ("macros", found.macros),
        ],
        None => [("types", None), ("values", None), ("macros", None)],
    }
}

/// Writes what a path means in each namespace.
pub fn write_meanings<C: Codebase, O: io::Write>(
    names: &Names<'_, C>,
    found: Option<PerNs>,
    out: &mut O,
) -> io::Result<()> {
    for (space, item) in by_namespace(found).iter() {
        write_meaning(names, space, *item, out)?;
    }
    Ok(())
}

/// What a path means in a namespace, as JSON.
fn meaning_value<C: Codebase>(
    names: &Names<'_, C>,
    space: &str,
    item: Item,
) -> Result<Value, AllocError> {
    let what = described_value(names, &names.describe(item)?)?;
    json!(in names.alloc; {"namespace": space, "item": what})
}

/// Writes what a path means in each namespace as a list in JSON.
pub fn write_meanings_json<C: Codebase, O: io::Write>(
    names: &Names<'_, C>,
    found: Option<PerNs>,
    out: &mut O,
) -> io::Result<()> {
    let mut lines = JsonLines::new(names.alloc);
    for (space, item) in by_namespace(found).iter() {
        if let Some(item) = item {
            lines.write(meaning_value(names, space, *item)?, out)?;
        }
    }
    lines.end(out)
}
