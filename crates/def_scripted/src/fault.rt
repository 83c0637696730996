//! Why a text is not read.

use std::alloc::{AllocError, AllocFailed};

/// Why a text is not read: memory was refused, or the text cannot be read from this byte on.
#[derive(Drop)]
pub enum ReadFault {
    Memory,
    Byte(usize),
}

/// Why a text of rows is not read: memory was refused, or the line of this number does not fit.
#[derive(Drop)]
pub enum FixtureFault {
    Memory,
    Line(usize),
}

impl From<AllocError> for FixtureFault {
    fn from(_error: AllocError) -> Self {
        FixtureFault::Memory
    }
}

/// Why reading stops: memory was refused, or the token or the line that comes does not fit.
#[derive(Clone, Copy)]
pub(crate) enum Stop {
    Memory,
    Here,
}

impl From<AllocError> for Stop {
    fn from(_error: AllocError) -> Self {
        Stop::Memory
    }
}

impl<T: Drop> From<AllocFailed<T>> for Stop {
    fn from(_error: AllocFailed<T>) -> Self {
        Stop::Memory
    }
}

/// What was read on a line, or the fault of that line.
pub(crate) fn on_line(read: Result<(), Stop>, line: usize) -> Result<(), FixtureFault> {
    match read {
        Ok(()) => Ok(()),
        Err(Stop::Memory) => Err(FixtureFault::Memory),
        Err(Stop::Here) => Err(FixtureFault::Line(line)),
    }
}

/// Adds what was read, if it could be read.
pub(crate) fn push<T: Drop>(list: &mut Vec<T>, read: Option<T>) -> Result<(), Stop> {
    match read {
        Some(item) => Ok(list.push(item)?),
        None => Err(Stop::Here),
    }
}
