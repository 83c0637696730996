//! The line of a file in which something stands.

use rust_codebase::Codebase;
use rust_names::{Names, Spot};
use source_lines::write_excerpt;
use std::io;

/// Writes the line in which a part of a file begins, and carets below the part.
pub(crate) fn write_line_of<C: Codebase, O: io::Write>(
    names: &Names<'_, C>,
    spot: Spot,
    out: &mut O,
) -> io::Result<()> {
    let text = names.codebase().source_text(spot.source);
    let line = names.places.line_column(spot)?.line;
    write_excerpt(out, text, line, spot.start, spot.end)
}
