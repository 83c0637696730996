//! What is counted.

use std::io;

/// How many requests were refused, of how many things that are done, and how many of these are
/// wrong.
#[derive(Clone, Copy)]
pub struct Counts {
    pub refused: usize,
    pub done: usize,
    pub wrong: usize,
}

impl Counts {
    pub const NONE: Counts = Counts {
        refused: 0,
        done: 0,
        wrong: 0,
    };

    /// Counts a request that was refused.
    pub fn add_refused(&mut self) {
        self.refused = self.refused.saturating_add(1);
    }

    /// Counts what was done, and whether it is right.
    pub fn add_done(&mut self, is_right: bool) {
        self.done = self.done.saturating_add(1);
        if !is_right {
            self.wrong = self.wrong.saturating_add(1);
        }
    }

    /// Prints what was counted under a name, and counts it with all else.
    pub fn tell<W: io::Write>(&self, name: &str, all: &mut Counts, out: &mut W) -> io::Result<()> {
        let Counts {
            refused,
            done,
            wrong,
        } = *self;
        all.refused = all.refused.saturating_add(refused);
        all.done = all.done.saturating_add(done);
        all.wrong = all.wrong.saturating_add(wrong);
        writeln!(out, "{name}: {refused} refused in {done}")
    }
}
