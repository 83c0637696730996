//! Words of attributes and paths, found again among the tokens of items.

use def_rules::{DefDiagnostic, DefDiagnosticKind, LeftMacroKind};
use indexmap::{IndexMap, IndexSet};
use item_tree::{FileAstId, InFile, ModPath, Name};
use rust_codebase::{Codebase, ReadFile};
use rust_items::{Item, ItemList, Span};
use rust_lexer::Token;
use rust_names::{Names, Spot};
use std::alloc::{AllocError, Global};

/// Whether a diagnostic is of a macro in an attribute.
fn is_of_attribute(kind: &DefDiagnosticKind) -> bool {
    match kind {
        DefDiagnosticKind::UnresolvedMacroCall { kind, path: _ } => *kind != LeftMacroKind::Fn,
        DefDiagnosticKind::MacroError { path: _, err: _ } => true,
        _ => false,
    }
}

/// Whether one of these tokens is a word.
fn holds_word<C: Codebase>(
    names: &Names<'_, C>,
    read: &ReadFile,
    tokens: Span,
    word: &str,
) -> bool {
    for at in tokens.from..tokens.to {
        if let Some(token) = read.trees.get(at as usize) {
            if token.is_name() && names.token_text(token) == word {
                return true;
            }
        }
    }
    false
}

/// Whether an attribute of an item begins with a word, or holds it.
pub(crate) fn has_attribute<C: Codebase>(
    names: &Names<'_, C>,
    read: &ReadFile,
    item: &Item,
    word: &str,
) -> bool {
    for number in item.attributes.from..item.attributes.to {
        if let Some(attribute) = read.list.attributes.get(number as usize) {
            if holds_word(names, read, attribute.tokens, word) {
                return true;
            }
        }
    }
    false
}

/// The name that a token is, if it is one.
fn name_of<C: Codebase>(names: &Names<'_, C>, token: Token) -> Option<Name> {
    if token.is_name() {
        names.find_name(names.token_text(token))
    } else {
        None
    }
}

/// The first token of each name in the attributes of items. An item may have thousands of attributes
/// that are reported, so its tokens are gone over once, and not once for each.
#[derive(Drop)]
pub(crate) struct AttributeWords {
    items: IndexSet<InFile<FileAstId>>,
    tokens: IndexMap<(InFile<FileAstId>, Name), Token>,
}

impl AttributeWords {
    /// No item was looked at yet.
    pub(crate) fn new(alloc: Global) -> AttributeWords {
        AttributeWords {
            items: IndexSet::new(alloc),
            tokens: IndexMap::new(alloc),
        }
    }

    /// Notes an item. Answers whether it was not looked at before.
    fn note_item(&mut self, position: InFile<FileAstId>) -> Result<bool, AllocError> {
        Ok(self.items.insert(position)?)
    }

    /// Adds a name of an item, if none of its earlier tokens is that name.
    fn add_token(
        &mut self,
        position: InFile<FileAstId>,
        name: Name,
        token: Token,
    ) -> Result<(), AllocError> {
        self.tokens.entry((position, name))?.or_insert(token);
        Ok(())
    }

    /// Adds the names among these tokens of an item.
    fn add_tokens<C: Codebase>(
        &mut self,
        names: &Names<'_, C>,
        read: &ReadFile,
        position: InFile<FileAstId>,
        tokens: Span,
    ) -> Result<(), AllocError> {
        for at in tokens.from..tokens.to {
            let Some(token) = read.trees.get(at as usize) else {
                break;
            };
            if let Some(name) = name_of(names, token) {
                self.add_token(position, name, token)?;
            }
        }
        Ok(())
    }

    /// Adds the names in these attributes of an item.
    fn add_attributes<C: Codebase>(
        &mut self,
        names: &Names<'_, C>,
        read: &ReadFile,
        position: InFile<FileAstId>,
        attributes: Span,
    ) -> Result<(), AllocError> {
        for number in attributes.from..attributes.to {
            if let Some(attribute) = read.list.attributes.get(number as usize) {
                self.add_tokens(names, read, position, attribute.tokens)?;
            }
        }
        Ok(())
    }

    /// Adds the names in the attributes of an item, if they were not added before.
    fn add_item<C: Codebase>(
        &mut self,
        names: &Names<'_, C>,
        position: InFile<FileAstId>,
    ) -> Result<(), AllocError> {
        if !self.note_item(position)? {
            return Ok(());
        }
        match names.places.item(position) {
            Some((read, item)) => self.add_attributes(names, read, position, item.attributes),
            None => Ok(()),
        }
    }

    /// Adds the names in the attributes of the items that diagnostics speak of, where these are of
    /// macros in attributes.
    pub(crate) fn add_items<C: Codebase>(
        &mut self,
        names: &Names<'_, C>,
        diagnostics: &[DefDiagnostic],
    ) -> Result<(), AllocError> {
        for diagnostic in diagnostics {
            if is_of_attribute(&diagnostic.kind) && !names.is_expanded(diagnostic.ast_id) {
                self.add_item(names, diagnostic.ast_id)?;
            }
        }
        Ok(())
    }

    /// The last name of a path in the attributes of an item.
    pub(crate) fn token(&self, position: InFile<FileAstId>, path: &ModPath) -> Option<Token> {
        let name = path.segments.as_slice().last()?;
        self.tokens.get(&(position, *name)).copied()
    }
}

/// The segment of a path that stands so many before its last one.
fn segment_before(list: &ItemList, last: u32, behind: usize) -> Option<Token> {
    let mut number = last;
    for _ in 0..behind {
        number = list.path_segments.get(number as usize)?.before?;
    }
    list.path_segments.get(number as usize)?.name
}

/// The segment of the path of an import that stands so many before its last one.
fn token_of_segment<C: Codebase>(
    names: &Names<'_, C>,
    position: InFile<FileAstId>,
    index: u32,
    behind: usize,
) -> Option<Token> {
    let (list, import) = names.import(position, index)?;
    segment_before(list, import.path?, behind)
}

/// Where a segment of the path of an import stands, or else the import.
pub(crate) fn spot_of_segment<C: Codebase>(
    names: &Names<'_, C>,
    position: InFile<FileAstId>,
    index: u32,
    behind: usize,
) -> Option<Spot> {
    if !names.is_expanded(position) {
        if let Some(token) = token_of_segment(names, position, index, behind) {
            return Some(names.places.spot_of_token(token));
        }
    }
    names.places.spot_of_import(position, index)
}
