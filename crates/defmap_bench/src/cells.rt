//! Numbers and ratios in columns.

use std::io;

/// What stands in a column.
#[derive(Clone, Copy)]
pub enum Cell {
    Number(u128),
    /// How many times one number another is: whole times and hundredths.
    Ratio(u128, u128),
    Nothing,
}

/// How many times the second number the first one is. A second number of 0 counts as 1.
pub fn ratio(dividend: u128, divisor: u128) -> Cell {
    let hundredths = dividend.saturating_mul(100) / divisor.max(1);
    Cell::Ratio(hundredths / 100, hundredths % 100)
}

/// Prints what stands in a column of this width.
pub fn print_cell<W: io::Write>(out: &mut W, width: usize, cell: Cell) -> io::Result<()> {
    match cell {
        Cell::Number(number) => write!(out, "{number:>width$}"),
        Cell::Ratio(whole, hundredths) => {
            let width = width.saturating_sub(3);
            write!(out, "{whole:>width$}.{hundredths:02}")
        }
        Cell::Nothing => write!(out, "{:>width$}", "-"),
    }
}
