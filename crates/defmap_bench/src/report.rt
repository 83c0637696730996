//! Times and ratios as lines of text.

use crate::cells::{print_cell, ratio};
use std::io;
use std::time::Duration;

/// A line about some times, which have places.
pub enum Entry {
    /// A time in microseconds.
    Time(&'static str, usize),
    /// How many times the second time the first one is.
    Ratio(&'static str, usize, usize),
}

/// The time at a place.
fn time_at(times: &[Duration], place: usize) -> Duration {
    match times.get(place) {
        Some(time) => *time,
        None => Duration::ZERO,
    }
}

fn print_ratio<W: io::Write>(
    out: &mut W,
    what: &str,
    time: Duration,
    unit: Duration,
) -> io::Result<()> {
    write!(out, "{what}: ")?;
    print_cell(out, 0, ratio(time.as_nanos(), unit.as_nanos()))?;
    writeln!(out)
}

fn print_time<W: io::Write>(out: &mut W, what: &str, time: Duration) -> io::Result<()> {
    let micros = time.as_micros();
    writeln!(out, "{what}: {micros} us")
}

/// Prints a line for each entry.
pub fn print_report<W: io::Write>(
    out: &mut W,
    entries: &[Entry],
    times: &[Duration],
) -> io::Result<()> {
    for entry in entries {
        match entry {
            Entry::Time(what, place) => print_time(out, what, time_at(times, *place))?,
            Entry::Ratio(what, time, unit) => {
                print_ratio(out, what, time_at(times, *time), time_at(times, *unit))?
            }
        }
    }
    Ok(())
}
