//! The builtin `include`: the items of a file in place of a call.

use crate::calls::CallSite;
use crate::directories::add_directory;
use crate::expansions::{CALL_COST, arguments_of};
use crate::reading::Reading;
use crate::texts::read_text;
use crate::workspace::Workspace;
use def_map::SourceDatabase;
use def_parts::ModDir;
use item_tree::{HirFileId, MacroCallId};
use rust_cfg::text_of_literal;
use rust_codebase::{FaultKind, FaultPlace};
use rust_items::Span;
use rust_lexer::{SourceId, Sources};
use rust_trees::Trees;
use source_files::{Files, path_from};
use std::alloc::{AllocError, Global};

/// The text of the literal that stands alone between two places, before a comma at most.
fn only_text(
    alloc: Global,
    sources: &Sources,
    trees: &Trees,
    within: Span,
) -> Result<Option<String>, AllocError> {
    let behind = within.from.saturating_add(1);
    let comma = trees.get(behind as usize);
    let has_comma = comma.is_some_and(|token| token.is_mark(b','));
    let is_alone = behind == within.to || has_comma && behind.saturating_add(1) == within.to;
    match trees.get(within.from as usize) {
        Some(token) if is_alone => text_of_literal(alloc, sources, token),
        _ => Ok(None),
    }
}

impl Workspace {
    /// The path that a call of `include` names, as it is seen from the file that the call is written
    /// in. None where it names none in plain text.
    fn included_path(&self, site: CallSite) -> Result<Option<String>, AllocError> {
        let Some((read, item)) = self.item_at(site.position) else {
            return Ok(None);
        };
        let Some(within) = arguments_of(&read.trees, item) else {
            return Ok(None);
        };
        let path = only_text(self.alloc, &self.sources, &read.trees, within)?;
        let file = self
            .files
            .get(&self.oracle.original_file(site.position.file));
        match (file, path) {
            (Some(file), Some(path)) => {
                let from = file.path.as_str();
                Ok(Some(path_from(self.alloc, from, path.as_str())?))
            }
            _ => Ok(None),
        }
    }

    /// Has a text walked as what a call gives.
    fn include_text(
        &mut self,
        reading: &mut Reading,
        call: MacroCallId,
        source: SourceId,
        depth: u32,
    ) -> Result<(), AllocError> {
        match read_text(self.alloc, &self.sources, source)? {
            Ok(mut read) => {
                read.depth = depth;
                reading.spend(read.trees.len().saturating_add(CALL_COST));
                // Modules in it lie as those of a root file do.
                let directory = add_directory(&mut self.calls, ModDir::root(self.alloc))?;
                self.add_expansion(reading, call, read, directory)
            }
            Err(fault) => {
                let place = FaultPlace::At(fault.place);
                reading.note(HirFileId::Macro(call), place, fault.kind)
            }
        }
    }

    /// Reads the file that a call of `include` names, as what the call gives.
    pub(crate) fn include<F: Files>(
        &mut self,
        reading: &mut Reading,
        files: &F,
        call: MacroCallId,
        site: CallSite,
    ) -> Result<(), AllocError> {
        let Some(path) = self.included_path(site)? else {
            return Ok(());
        };
        if reading.tokens_left == 0 {
            return self.note_of_call(reading, call, site, FaultKind::TooLongExpansions);
        }
        let Some(bytes) = files.read(path.as_str())? else {
            return self.note_of_call(reading, call, site, FaultKind::NoFile);
        };
        let items = HirFileId::Macro(call);
        let Some((file, source)) = self.add_text(reading, items, path, bytes)? else {
            return Ok(());
        };
        let origin = self.oracle.original_file(items);
        reading.parents.insert(file, origin)?;
        // What is written in the file is seen from there.
        self.oracle.origins.insert(call, file)?;
        self.oracle.db.add_include(call)?;
        let depth = self.depth_within(site.position.file);
        self.include_text(reading, call, source, depth)
    }
}
