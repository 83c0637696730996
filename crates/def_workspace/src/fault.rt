//! Why a command ends early.

use def_scripted::FixtureFault;
use item_tree::TreeId;
use std::alloc::AllocError;
use std::io;

/// Why a command ends early: memory was refused, a write to standard output failed, or the text of
/// a file or a block cannot be read, or that of a row.
#[derive(Debug, Drop)]
pub enum Fault {
    Memory,
    Output,
    Text {
        tree: TreeId,
        /// The byte from which on it cannot be read.
        byte: usize,
    },
    /// The line of the row that does not fit.
    Row(usize),
}

impl From<AllocError> for Fault {
    fn from(_error: AllocError) -> Self {
        Fault::Memory
    }
}

impl From<io::Error> for Fault {
    fn from(_error: io::Error) -> Self {
        Fault::Output
    }
}

impl From<FixtureFault> for Fault {
    fn from(fault: FixtureFault) -> Self {
        match fault {
            FixtureFault::Memory => Fault::Memory,
            FixtureFault::Line(line) => Fault::Row(line),
        }
    }
}
