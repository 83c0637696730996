//! Definitions of macros, and the rules that are read of them.

use crate::reading::Reading;
use crate::workspace::Workspace;
use def_map::SourceDatabase;
use item_tree::{FileAstId, HirFileId, InFile};
use macro_by_example::{MacroKind, read_rules};
use rust_codebase::{FaultKind, FaultPlace, ReadFile};
use rust_items::{Item, ItemKind};
use rust_lexer::{Place, SourceId};
use std::alloc::AllocError;

/// The place of the first delimiter of a macro's definition, and of which kind it is.
fn definition_of(item: &Item) -> Option<(u32, MacroKind)> {
    match item.kind {
        ItemKind::MacroRules { body } => Some((body, MacroKind::Rules)),
        ItemKind::MacroTwo { body } => Some((body, MacroKind::Two)),
        _ => None,
    }
}

impl Workspace {
    /// The item at a position, with the trees that it is read from.
    pub(crate) fn item_at(&self, position: InFile<FileAstId>) -> Option<(&ReadFile, &Item)> {
        let read = self.read.get(&position.file)?;
        let item = read.list.items.get(position.value.0)?;
        Some((read, item))
    }

    /// Writes down what is wrong in a file, or tells it, if that is one of an earlier crate.
    fn note_or_tell(
        &mut self,
        reading: &mut Reading,
        file: HirFileId,
        place: Place,
        kind: FaultKind,
    ) -> Result<(), AllocError> {
        let source = self.files.get(&self.oracle.original_file(file));
        let is_of_crate = source.is_some_and(|source| source.krate == reading.krate);
        if is_of_crate {
            return reading.note(file, FaultPlace::At(place), kind);
        }
        self.tell(FaultPlace::At(place), kind)
    }

    /// Reads the rules of a definition, by its number, unless they were read.
    pub(crate) fn learn_rules(
        &mut self,
        reading: &mut Reading,
        definition: u32,
    ) -> Result<(), AllocError> {
        if self.calls.rules.contains_key(&definition) {
            return Ok(());
        }
        let mut told = None;
        let mut rules = None;
        if let Some(position) = self.calls.definitions.get_index(definition as usize)
            && let Some((read, item)) = self.item_at(*position)
            && let Some((body, kind)) = definition_of(item)
        {
            match read_rules(self.alloc, &self.sources, &read.trees, body, kind)? {
                Ok(of_macro) => rules = Some(of_macro),
                Err(error) => {
                    let place = error.place.or(self.place_of(*position));
                    told = place.map(|place| (position.file, place, error.fault));
                }
            }
        }
        if let Some((file, place, fault)) = told {
            self.note_or_tell(reading, file, place, FaultKind::Macro(fault))?;
        }
        self.calls.rules.insert(definition, rules)?;
        Ok(())
    }

    /// The text in which a definition stands.
    pub(crate) fn source_of(&self, definition: u32) -> SourceId {
        let token = match self.calls.definitions.get_index(definition as usize) {
            Some(position) => match self.item_at(*position) {
                Some((read, item)) => read.trees.get(item.tokens.from as usize),
                None => None,
            },
            None => None,
        };
        match token {
            Some(token) => token.source,
            None => SourceId(0),
        }
    }
}
