//! Calls of macros, expanded to items.

use crate::calls::CallSite;
use crate::reading::Reading;
use crate::workspace::Workspace;
use def_map::SourceDatabase;
use item_tree::{HirFileId, MacroCallId};
use macro_by_example::{Limits, MacroFault, expand};
use rust_codebase::{FaultKind, FaultPlace, ReadFile};
use rust_items::{Item, ItemKind, ItemList, Span, read_items};
use rust_lexer::{Sources, Token};
use rust_oracle::{CallNumber, CalledMacro};
use rust_trees::Trees;
use source_files::Files;
use std::alloc::{AllocError, Global};

/// The tokens that one call may give.
const CALL_LIMIT: usize = 2_000_000;

/// The tokens that each call counts for beside those that it gives.
pub(crate) const CALL_COST: usize = 256;

/// The tokens within the delimiters of a call.
pub(crate) fn arguments_of(trees: &Trees, item: &Item) -> Option<Span> {
    let ItemKind::MacroCall { arguments, .. } = item.kind else {
        return None;
    };
    let to = *trees.partners().get(arguments as usize)?;
    Some(Span {
        from: arguments.saturating_add(1),
        to,
    })
}

/// What tokens are as items, or what is wrong with them.
fn items_of(
    alloc: Global,
    sources: &Sources,
    tokens: Vec<Token>,
) -> Result<Result<(Trees, ItemList), FaultKind>, AllocError> {
    let trees = match Trees::new(alloc, sources, tokens)? {
        Ok(trees) => trees,
        Err(error) => return Ok(Err(FaultKind::GivenTree(error.fault))),
    };
    match read_items(alloc, sources, &trees)? {
        Ok(list) => Ok(Ok((trees, list))),
        Err(error) => Ok(Err(FaultKind::GivenItem(error.fault))),
    }
}

impl Workspace {
    /// The tokens that a call gives by the rules of a definition. None where it has no rules, which
    /// was told.
    fn tokens_of(
        &self,
        site: CallSite,
        definition: u32,
        limit: usize,
    ) -> Result<Result<Vec<Token>, FaultKind>, AllocError> {
        let nothing = Vec::new(self.alloc);
        let Some(Some(rules)) = self.calls.rules.get(&definition) else {
            return Ok(Ok(nothing));
        };
        let Some((read, item)) = self.item_at(site.position) else {
            return Ok(Ok(nothing));
        };
        let Some(within) = arguments_of(&read.trees, item) else {
            return Ok(Ok(nothing));
        };
        let expanded = expand(
            self.alloc,
            &self.sources,
            rules,
            &read.trees,
            within,
            self.source_of(definition),
            Limits { tokens: limit },
        )?;
        match expanded {
            Ok(tokens) => Ok(Ok(tokens)),
            Err(error) => Ok(Err(FaultKind::Macro(error.fault))),
        }
    }

    /// What a call gives, or what is wrong.
    fn given_by(
        &self,
        reading: &mut Reading,
        site: CallSite,
        definition: u32,
    ) -> Result<Result<(Trees, ItemList), FaultKind>, AllocError> {
        if reading.tokens_left == 0 {
            return Ok(Err(FaultKind::TooLongExpansions));
        }
        reading.spend(CALL_COST);
        let limit = reading.tokens_left.min(CALL_LIMIT);
        match self.tokens_of(site, definition, limit)? {
            Ok(tokens) => {
                reading.spend(tokens.len());
                items_of(self.alloc, &self.sources, tokens)
            }
            Err(fault) => {
                // How far a call came that fails is not known, but for one that met the limit.
                let is_too_long = fault == FaultKind::Macro(MacroFault::TooLong);
                reading.spend(if is_too_long { limit } else { 0 });
                Ok(Err(fault))
            }
        }
    }

    /// Writes down what is wrong with what a call gives.
    pub(crate) fn note_of_call(
        &self,
        reading: &mut Reading,
        call: MacroCallId,
        site: CallSite,
        kind: FaultKind,
    ) -> Result<(), AllocError> {
        // That all expansions together are too long is told once.
        if kind == FaultKind::TooLongExpansions {
            if reading.is_too_long {
                return Ok(());
            }
            reading.is_too_long = true;
        }
        if let Some(place) = self.place_of(site.position) {
            reading.note(HirFileId::Macro(call), FaultPlace::At(place), kind)?;
        }
        Ok(())
    }

    /// How deep in expansions lies what a call in a file gives.
    pub(crate) fn depth_within(&self, file: HirFileId) -> u32 {
        let around = self.read.get(&file);
        around.map_or(0, |read| read.depth).saturating_add(1)
    }

    /// What is read of a call's expansion. None where something is wrong, which is written down.
    fn expansion(
        &self,
        reading: &mut Reading,
        call: MacroCallId,
        site: CallSite,
        definition: u32,
    ) -> Result<Option<ReadFile>, AllocError> {
        let depth = self.depth_within(site.position.file);
        match self.given_by(reading, site, definition)? {
            Ok((trees, list)) => Ok(Some(ReadFile {
                trees,
                list,
                call: Some(site.position),
                depth,
            })),
            Err(kind) => {
                self.note_of_call(reading, call, site, kind)?;
                Ok(None)
            }
        }
    }

    /// Where the call of a number stands.
    pub(crate) fn site_of(&self, call: MacroCallId) -> Option<CallSite> {
        let place = CallNumber::of(call).place;
        self.calls.sites.get(place as usize).copied()
    }

    /// Expands the call of a number, and has what it gives walked.
    pub(crate) fn expand_call<F: Files>(
        &mut self,
        reading: &mut Reading,
        files: &F,
        call: MacroCallId,
    ) -> Result<(), AllocError> {
        let number = CallNumber::of(call);
        let CalledMacro::Known(definition) = number.called else {
            return Ok(());
        };
        let Some(site) = self.calls.sites.get(number.place as usize).copied() else {
            return Ok(());
        };
        let origin = self.oracle.original_file(site.position.file);
        self.oracle.origins.insert(call, origin)?;
        reading.expanded = reading.expanded.saturating_add(1);
        if self.calls.includes.contains(&definition) {
            return self.include(reading, files, call, site);
        }
        self.learn_rules(reading, definition)?;
        if let Some(read) = self.expansion(reading, call, site, definition)? {
            self.add_expansion(reading, call, read, site.directory)?;
        }
        Ok(())
    }

    /// Keeps what a call gives, and has it walked in a directory.
    pub(crate) fn add_expansion(
        &mut self,
        reading: &mut Reading,
        call: MacroCallId,
        read: ReadFile,
        directory: u32,
    ) -> Result<(), AllocError> {
        let file = HirFileId::Macro(call);
        self.oracle.db.add_depth(file, read.depth)?;
        self.add_items(reading, file, read)?;
        reading.waiting.push((file, directory))?;
        Ok(())
    }
}
