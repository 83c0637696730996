//! Derives that are not run: those of procedural macros, where no derive is looked for.

use crate::reports::Reports;
use def_ids::Def;
use def_map::DefMap;
use item_tree::Crate;
use rust_codebase::{Codebase, ReadFile};
use rust_items::{Item, Span};
use rust_lexer::{Token, TokenKind};
use rust_names::Names;
use std::alloc::AllocError;

/// The derives of the compiler, which give impls alone.
const STANDARD: [&str; 9] = [
    "Clone",
    "Copy",
    "Debug",
    "Default",
    "Eq",
    "Hash",
    "Ord",
    "PartialEq",
    "PartialOrd",
];

/// Whether a path of a derive ends in the name of one of the compiler's.
fn is_standard(path: &str) -> bool {
    let name = match path.rsplit_once("::") {
        Some((_, name)) => name,
        None => path,
    };
    STANDARD.contains(&name)
}

/// Whether the collector looks for no derives, as without the standard library.
fn has_inert_derives<C: Codebase>(names: &Names<'_, C>) -> bool {
    match names.find_name("derive") {
        Some(name) => names.codebase().is_inert(name),
        None => false,
    }
}

/// Whether the tokens of an attribute begin with `derive`.
fn begins_with_derive<C: Codebase>(names: &Names<'_, C>, read: &ReadFile, tokens: Span) -> bool {
    match read.trees.get(tokens.from as usize) {
        Some(first) => names.token_text(first) == "derive",
        None => false,
    }
}

/// The tokens behind the first one.
fn behind_first(tokens: Span) -> Span {
    Span {
        from: tokens.from.saturating_add(1),
        to: tokens.to,
    }
}

/// What a module of a map declares.
fn declarations_of(map: &DefMap, module: usize) -> &[Def] {
    match map.scope(module) {
        Some(scope) => scope.declarations(),
        None => &[],
    }
}

/// What was read of a definition that may have derives.
fn read_declared<'a, C: Codebase>(
    names: &Names<'a, C>,
    def: Def,
) -> Option<(&'a ReadFile, &'a Item)> {
    match def {
        Def::Struct(_) | Def::Union(_) | Def::Enum(_) => {
            names.places.item(names.position_of(def)?)
        }
        _ => None,
    }
}

/// A derive by its path.
fn derive_text<C: Codebase>(names: &Names<'_, C>, path: &str) -> Result<String, AllocError> {
    format!(in names.alloc; "the derive `{path}`")
}

/// Whether a token ends a path in the list of a derive.
fn ends_path(token: Token) -> bool {
    token.is_mark(b',') || token.kind == TokenKind::CloseParen
}

impl Reports {
    /// Counts a derive by its path, if it has one and is none of the compiler's.
    fn count_derive<C: Codebase>(
        &mut self,
        names: &Names<'_, C>,
        path: &str,
    ) -> Result<(), AllocError> {
        if path.is_empty() || is_standard(path) {
            return Ok(());
        }
        self.count_not_run(derive_text(names, path)?)
    }

    /// Takes up the next token of a list of derives: it goes on with a path, or ends it.
    fn count_token<C: Codebase>(
        &mut self,
        names: &Names<'_, C>,
        path: &mut String,
        token: Token,
    ) -> Result<(), AllocError> {
        if ends_path(token) {
            self.count_derive(names, path.as_str())?;
            path.clear();
        } else if token.kind != TokenKind::OpenParen {
            path.push_str(names.token_text(token))?;
        }
        Ok(())
    }

    /// Counts the derives of a list, the paths between its commas, each of which is put into a text.
    fn count_list<C: Codebase>(
        &mut self,
        names: &Names<'_, C>,
        path: &mut String,
        read: &ReadFile,
        list: Span,
    ) -> Result<(), AllocError> {
        for at in list.from..list.to {
            if let Some(token) = read.trees.get(at as usize) {
                self.count_token(names, path, token)?;
            }
        }
        Ok(())
    }

    /// Counts the derives of an attribute, if it is one of derives.
    fn count_attribute<C: Codebase>(
        &mut self,
        names: &Names<'_, C>,
        read: &ReadFile,
        tokens: Span,
    ) -> Result<(), AllocError> {
        if !begins_with_derive(names, read, tokens) {
            return Ok(());
        }
        let mut path = String::new(names.alloc);
        self.count_list(names, &mut path, read, behind_first(tokens))
    }

    /// Counts the derives of these attributes.
    fn count_attributes<C: Codebase>(
        &mut self,
        names: &Names<'_, C>,
        read: &ReadFile,
        attributes: Span,
    ) -> Result<(), AllocError> {
        for number in attributes.from..attributes.to {
            if let Some(attribute) = read.list.attributes.get(number as usize) {
                self.count_attribute(names, read, attribute.tokens)?;
            }
        }
        Ok(())
    }

    /// Counts the derives of what a module declares, if that may have any.
    fn count_declared<C: Codebase>(
        &mut self,
        names: &Names<'_, C>,
        def: Def,
    ) -> Result<(), AllocError> {
        match read_declared(names, def) {
            Some((read, item)) => self.count_attributes(names, read, item.attributes),
            None => Ok(()),
        }
    }

    /// Counts the derives of these definitions.
    fn count_each<C: Codebase>(
        &mut self,
        names: &Names<'_, C>,
        defs: &[Def],
    ) -> Result<(), AllocError> {
        for def in defs {
            self.count_declared(names, *def)?;
        }
        Ok(())
    }

    /// Counts the derives of what the modules of a map declare.
    fn count_map<C: Codebase>(
        &mut self,
        names: &Names<'_, C>,
        map: &DefMap,
    ) -> Result<(), AllocError> {
        for module in 0..map.modules().len() {
            self.count_each(names, declarations_of(map, module))?;
        }
        Ok(())
    }

    /// Counts the derives of a crate, where the collector does not look for any. The map has what the
    /// last round of expansions declares, and the session also what earlier ones did by a guess.
    pub(crate) fn note_derives<C: Codebase>(
        &mut self,
        names: &Names<'_, C>,
        home: Crate,
    ) -> Result<(), AllocError> {
        if !has_inert_derives(names) {
            return Ok(());
        }
        match names.map(home) {
            Some(map) => self.count_map(names, map),
            None => Ok(()),
        }
    }
}
