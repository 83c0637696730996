//! What is measured of a crate, as a line of text.

use crate::cells::{Cell, print_cell, ratio};
use std::io;
use std::time::Duration;

/// What was measured of one crate: how large it is, how many bindings or rounds it has, how long its
/// definitions took to be collected, and how long the kit's map took for the same places, where
/// bindings are counted.
#[derive(Clone, Copy)]
pub struct Figures {
    pub items: usize,
    pub counted: usize,
    pub time: Duration,
    pub places_time: Option<Duration>,
}

/// How wide the columns are.
static WIDTHS: [usize; 7] = [9, 10, 8, 9, 8, 10, 9];

/// Of two measurements of one crate, each time the lesser.
pub fn lesser(one: Figures, other: Figures) -> Figures {
    Figures {
        items: one.items,
        counted: one.counted,
        time: one.time.min(other.time),
        places_time: match (one.places_time, other.places_time) {
            (Some(one), Some(other)) => Some(one.min(other)),
            _ => None,
        },
    }
}

/// How many nanoseconds one of so many bindings or rounds takes.
fn nanos_each(time: Duration, counted: usize) -> Cell {
    Cell::Number(time.as_nanos() / (counted as u128).max(1))
}

/// How many times the cost of a binding or a round of the smaller crate one of the larger crate
/// costs, if there is a smaller one.
fn to_smaller(larger: Figures, smaller: Option<Figures>) -> Cell {
    let Some(smaller) = smaller else {
        return Cell::Nothing;
    };
    let cost = larger.time.as_nanos();
    let smaller_cost = smaller.time.as_nanos();
    ratio(
        cost.saturating_mul(smaller.counted as u128),
        smaller_cost.saturating_mul(larger.counted as u128),
    )
}

/// What one place took in the kit's map, and how many times that a binding took, if that was
/// measured.
fn to_places(figures: Figures) -> (Cell, Cell) {
    match figures.places_time {
        Some(time) => (
            nanos_each(time, figures.counted),
            ratio(figures.time.as_nanos(), time.as_nanos()),
        ),
        None => (Cell::Nothing, Cell::Nothing),
    }
}

/// Prints one line, with the ratio to the next smaller crate if there was one.
pub fn print_line<W: io::Write>(
    out: &mut W,
    figures: Figures,
    smaller: Option<Figures>,
) -> io::Result<()> {
    let (place, times_place) = to_places(figures);
    let cells = [
        Cell::Number(figures.items as u128),
        Cell::Number(figures.counted as u128),
        Cell::Number(figures.time.as_millis()),
        nanos_each(figures.time, figures.counted),
        to_smaller(figures, smaller),
        place,
        times_place,
    ];
    for place in 0..7 {
        print_cell(out, WIDTHS[place], cells[place])?;
    }
    writeln!(out)
}

/// Prints the title of a table, and what its columns are.
pub fn print_head<W: io::Write>(out: &mut W, title: &str, counted: &str) -> io::Result<()> {
    writeln!(
        out,
        "{title}\n    items  {counted:>8}      ms  ns each  to less  ns place  times place"
    )
}
