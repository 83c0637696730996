//! How long it takes to read, expand and collect.

use source_files::Files;

/// How many microseconds went into what, by the clock beside the files.
#[derive(Clone, Copy, PartialEq, Eq, Debug)]
pub struct Times {
    /// From files to item trees, before any call is expanded.
    pub reading: u64,
    /// From calls to item trees, with the files of modules that calls bring.
    pub expanding: u64,
    pub collecting: u64,
}

impl Times {
    /// No time.
    pub(crate) fn new() -> Times {
        Times {
            reading: 0,
            expanding: 0,
            collecting: 0,
        }
    }
}

/// Adds to a time what has passed since a moment.
pub(crate) fn add_since<F: Files>(time: &mut u64, files: &F, begin: u64) {
    let passed = files.microseconds().saturating_sub(begin);
    *time = time.saturating_add(passed);
}
