//! Calls that are expanded before it is known which macros they call, as it can be guessed by names.

use crate::calls::CallAhead;
use crate::reading::Reading;
use crate::workspace::Workspace;
use item_tree::Name;
use rust_oracle::CallNumber;
use source_files::Files;
use std::alloc::AllocError;

/// How deep calls may nest that are expanded before their macros are known.
const AHEAD_DEPTH: u32 = 128;

impl Workspace {
    /// The definition that a call is taken to be of: the last one above it in its file, or the only one
    /// of its name.
    fn guess(&self, reading: &Reading, call: CallAhead) -> Option<u32> {
        if call.above.is_some() {
            return call.above;
        }
        match reading.named.get(&call.name) {
            Some(definition) => *definition,
            None => self.calls.named.get(&call.name).copied().flatten(),
        }
    }

    /// Whether a name is that of a macro of the standard library, and a definition is another one: it may
    /// be marked as a builtin, which its rules do not say.
    fn is_doubtful(&self, name: Name, definition: u32) -> bool {
        for (implied, own) in &self.calls.implied {
            if *implied == name && *own != definition {
                return true;
            }
        }
        false
    }

    /// Expands a call before its macro is known, if it is taken to be of some definition. Should it turn
    /// out to be of another one, nothing asks for what this gives.
    fn expand_guessed<F: Files>(
        &mut self,
        reading: &mut Reading,
        files: &F,
        ahead: CallAhead,
    ) -> Result<(), AllocError> {
        let Some(definition) = self.guess(reading, ahead) else {
            return Ok(());
        };
        if self.is_doubtful(ahead.name, definition) {
            return Ok(());
        }
        let Some(site) = self.calls.sites.get(ahead.place as usize).copied() else {
            return Ok(());
        };
        self.oracle.guesses.insert(site.position, definition)?;
        let depth = self
            .read
            .get(&site.position.file)
            .map_or(0, |read| read.depth);
        let call = CallNumber::known(ahead.place, definition);
        if depth >= AHEAD_DEPTH || self.oracle.origins.contains_key(&call) {
            return Ok(());
        }
        self.expand_call(reading, files, call)
    }

    /// Expands the calls that were met, those too that their expansions bring, as far as it can be
    /// guessed which macros they call.
    pub(crate) fn expand_ahead<F: Files>(
        &mut self,
        reading: &mut Reading,
        files: &F,
    ) -> Result<(), AllocError> {
        for _ in 0..usize::MAX {
            let Some(ahead) = reading.ahead.get(reading.looked_at).copied() else {
                break;
            };
            reading.looked_at = reading.looked_at.saturating_add(1);
            self.expand_guessed(reading, files, ahead)?;
            self.follow(reading, files)?;
        }
        Ok(())
    }
}
