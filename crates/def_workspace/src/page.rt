//! Lines of text, in the order of their keys.

use crate::words::{Word, print_line};
use def_interner::Interner;
use def_rules::DefDiagnostic;
use std::alloc::{AllocError, Global};
use std::io;

/// By what lines are sorted: a number for what they speak of, a number, a text, and another number.
pub type Key<'a> = (usize, usize, &'a str, usize);

/// Lines of words. What adds them answers nothing: where memory is refused, the page remembers it,
/// and takes no more.
#[derive(Drop)]
pub struct Page<'a> {
    words: Vec<Word>,
    /// The lines by their keys, and the place of each one's first word.
    lines: Vec<(Key<'a>, usize)>,
    is_refused: bool,
}

impl<'a> Page<'a> {
    /// A page of no lines.
    pub fn new(alloc: Global) -> Self {
        Page {
            words: Vec::new(alloc),
            lines: Vec::new(alloc),
            is_refused: false,
        }
    }

    /// Whether there is no line.
    pub fn is_empty(&self) -> bool {
        self.lines.is_empty()
    }

    /// Begins a line with some words.
    pub fn begin(&mut self, key: Key<'a>, words: &[Word]) {
        if self.lines.push((key, self.words.len())).is_err() {
            self.is_refused = true;
        }
        self.say(words);
    }

    /// Goes on with some words.
    pub fn say(&mut self, words: &[Word]) {
        if self.words.extend_from_slice(words).is_err() {
            self.is_refused = true;
        }
    }

    /// Ends a line.
    pub fn end(&mut self) {
        self.say(&[Word::End]);
    }

    /// Adds a line.
    pub fn line(&mut self, key: Key<'a>, words: &[Word]) {
        self.begin(key, words);
        self.end();
    }

    /// Sorts the lines, if there was memory for all.
    pub fn sort(&mut self) -> Result<(), AllocError> {
        if self.is_refused {
            return Err(AllocError);
        }
        self.lines.sort_unstable();
        Ok(())
    }

    /// Prints the lines. Their names are a session's, and they speak of these diagnostics.
    pub fn print<W: io::Write>(
        &self,
        session: &Interner,
        diagnostics: &[DefDiagnostic],
        out: &mut W,
    ) -> io::Result<()> {
        for (_, begin) in &self.lines {
            let words = self.words.get(*begin..).unwrap_or(&[]);
            print_line(session, diagnostics, words, out)?;
        }
        Ok(())
    }
}
