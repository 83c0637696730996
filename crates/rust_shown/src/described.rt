//! A binding as it is written.

use rust_codebase::Codebase;
use rust_names::{Brought, Described, Names, Spot};
use serde_json::{Value, json};
use source_lines::LineColumn;
use std::alloc::AllocError;
use std::io;

/// Writes a place as ` at src/lib.rs:3`.
pub(crate) fn write_spot<C: Codebase, O: io::Write>(
    names: &Names<'_, C>,
    spot: Option<Spot>,
    out: &mut O,
) -> io::Result<()> {
    if let Some(spot) = spot {
        let line = names.places.line_column(spot)?.line;
        let path = names.places.path(spot.source);
        write!(out, " at {path}:{line}")?;
    }
    Ok(())
}

/// Writes what is said of a binding, as
/// `struct crate::a::S, pub(in crate), by use crate::a::* at src/lib.rs:3`.
pub(crate) fn write_described<C: Codebase, O: io::Write>(
    names: &Names<'_, C>,
    described: &Described,
    out: &mut O,
) -> io::Result<()> {
    let (kind, path) = (described.kind, described.path.as_str());
    let visibility = described.visibility.as_str();
    write!(out, "{kind} {path}, {visibility}")?;
    match &described.brought {
        Some(brought) => {
            let text = brought.text.as_str();
            write!(out, ", by {text}")?;
            write_spot(names, brought.spot, out)
        }
        None => {
            if described.spot.is_some() {
                write!(out, ",")?;
            }
            write_spot(names, described.spot, out)
        }
    }
}

/// A place as JSON.
pub(crate) fn spot_value<C: Codebase>(
    names: &Names<'_, C>,
    spot: Option<Spot>,
) -> Result<Value, AllocError> {
    match spot {
        Some(spot) => {
            let path = names.places.path(spot.source);
            let LineColumn { line, column } = names.places.line_column(spot)?;
            let (line, column) = (line as u64, column as u64);
            json!(in names.alloc; {"path": path, "line": line, "column": column})
        }
        None => Ok(Value::Null),
    }
}

/// What brought a binding, as JSON.
fn brought_value<C: Codebase>(
    names: &Names<'_, C>,
    brought: &Brought,
) -> Result<Value, AllocError> {
    let (text, at) = (brought.text.as_str(), spot_value(names, brought.spot)?);
    json!(in names.alloc; {"import": text, "at": at})
}

/// What is said of a binding, as JSON.
pub(crate) fn described_value<C: Codebase>(
    names: &Names<'_, C>,
    described: &Described,
) -> Result<Value, AllocError> {
    let by = match &described.brought {
        Some(brought) => brought_value(names, brought)?,
        None => Value::Null,
    };
    let (kind, path) = (described.kind, described.path.as_str());
    let visibility = described.visibility.as_str();
    let declared = spot_value(names, described.spot)?;
    json!(in names.alloc; {"kind": kind, "path": path, "visibility": visibility, "by": by,
        "declared": declared})
}
