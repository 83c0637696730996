//! Lists in JSON, one record a line.

use serde_json::Value;
use std::alloc::Global;
use std::io;

/// A list that is written as its records come.
#[derive(Clone, Copy)]
pub(crate) struct JsonLines {
    alloc: Global,
    is_begun: bool,
}

impl JsonLines {
    /// A list of no records yet.
    pub(crate) fn new(alloc: Global) -> JsonLines {
        JsonLines {
            alloc,
            is_begun: false,
        }
    }

    /// Writes a record.
    pub(crate) fn write<O: io::Write>(&mut self, record: Value, out: &mut O) -> io::Result<()> {
        let before = if self.is_begun { "," } else { "[" };
        let text = record.to_string(self.alloc)?;
        let text = text.as_str();
        writeln!(out, "{before}")?;
        write!(out, "{text}")?;
        self.is_begun = true;
        Ok(())
    }

    /// Ends the list.
    pub(crate) fn end<O: io::Write>(self, out: &mut O) -> io::Result<()> {
        if self.is_begun {
            writeln!(out, "\n]")
        } else {
            writeln!(out, "[]")
        }
    }
}

/// Writes a list, one record a line, with no line ended behind it.
pub(crate) fn write_list<O: io::Write>(
    alloc: Global,
    records: &[Value],
    out: &mut O,
) -> io::Result<()> {
    let mut before = "[";
    for record in records {
        let text = record.to_string(alloc)?;
        let text = text.as_str();
        writeln!(out, "{before}")?;
        write!(out, "{text}")?;
        before = ",";
    }
    if records.is_empty() {
        write!(out, "[]")
    } else {
        write!(out, "\n]")
    }
}
