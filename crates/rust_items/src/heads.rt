//! What an item's own word is followed by.

use crate::fault::{ItemFault, Stop};
use crate::item::{Constructor, ItemKind, Owner, Span};
use crate::reader::{Reader, kept, span};
use crate::words::Word;
use rust_lexer::{Token, TokenKind};

/// An item's kind and name, and the places within the body whose items are to be read.
#[derive(Clone, Copy)]
pub(crate) struct Head {
    pub(crate) kind: ItemKind,
    pub(crate) name: Option<Token>,
    pub(crate) body: Option<Span>,
}

impl Head {
    /// What the items within the body stand in.
    pub(crate) fn owner(&self) -> Owner {
        match self.kind {
            ItemKind::Trait | ItemKind::Impl { .. } => Owner::Associated,
            ItemKind::ExternBlock => Owner::ExternBlock,
            _ => Owner::Module,
        }
    }
}

/// The head of an item without a body to be read.
pub(crate) fn closed(kind: ItemKind, name: Option<Token>) -> Head {
    Head {
        kind,
        name,
        body: None,
    }
}

impl<'a> Reader<'a> {
    fn function_head(&mut self) -> Result<Head, Stop> {
        let name = Some(self.name()?);
        self.generics()?;
        if !self.is_parenthesized() {
            return self.fail(ItemFault::WantedGroup);
        }
        self.group()?;
        if !self.is_pair(0, b'-', b'>') {
            self.ends_head()?;
        }
        let body = self.declaration()?;
        Ok(closed(ItemKind::Function { body }, name))
    }

    fn struct_head(&mut self) -> Result<Head, Stop> {
        let name = Some(self.name()?);
        self.generics()?;
        if self.is_parenthesized() {
            let fields = self.fields()?;
            if self.word(0) == Word::Where {
                self.semicolon()?;
            } else {
                self.semicolon_here()?;
            }
            let constructor = Constructor::Fields(fields);
            return Ok(closed(ItemKind::Struct { constructor }, name));
        }
        self.ends_head()?;
        let constructor = match self.declaration()? {
            Some(_) => Constructor::Absent,
            None => Constructor::Unit,
        };
        Ok(closed(ItemKind::Struct { constructor }, name))
    }

    fn union_head(&mut self) -> Result<Head, Stop> {
        let name = Some(self.name()?);
        self.generics()?;
        self.ends_head()?;
        self.braced_declaration()?;
        Ok(closed(ItemKind::Union, name))
    }

    fn enum_head(&mut self) -> Result<Head, Stop> {
        let name = Some(self.name()?);
        let variants = self.variants()?;
        Ok(closed(ItemKind::Enum { variants }, name))
    }

    fn trait_head(&mut self) -> Result<Head, Stop> {
        let name = Some(self.name()?);
        self.generics()?;
        if !self.is_mark(0, b':') && !self.is_mark(0, b'=') {
            self.ends_head()?;
        }
        // An alias of bounds ends with a `;`.
        let body = self.declaration()?;
        Ok(Head {
            kind: ItemKind::Trait,
            name,
            body,
        })
    }

    fn alias_head(&mut self) -> Result<Head, Stop> {
        let name = Some(self.name()?);
        self.generics()?;
        if !self.is_mark(0, b':') && !self.is_mark(0, b'=') {
            self.ends_head()?;
        }
        self.semicolon()?;
        Ok(closed(ItemKind::TypeAlias, name))
    }

    fn value_head(&mut self, kind: ItemKind) -> Result<Head, Stop> {
        self.eat_word(Word::Mut);
        let name = self.name_or_none()?;
        self.generics()?;
        if !self.is_mark(0, b':') {
            return self.fail(ItemFault::WantedType);
        }
        self.semicolon()?;
        Ok(closed(kind, name))
    }

    fn impl_head(&mut self) -> Result<Head, Stop> {
        self.generics()?;
        let mut depth = 0;
        let mut is_of_trait = false;
        for _ in self.at..self.end {
            if depth == 0 {
                if self.is_braced() {
                    let body = Some(self.group()?);
                    return Ok(Head {
                        kind: ItemKind::Impl { is_of_trait },
                        name: None,
                        body,
                    });
                }
                if self.word(0) == Word::For && !self.is_mark(1, b'<') {
                    is_of_trait = true;
                }
            }
            if self.word(0).only_begins_items() || self.is_mark(0, b';') {
                break;
            }
            self.step_in_type(&mut depth);
        }
        self.fail(ItemFault::WantedBody)
    }

    fn mod_head(&mut self) -> Result<Head, Stop> {
        let name = Some(self.name()?);
        if self.eat(b';') {
            return Ok(closed(ItemKind::Module { is_inline: false }, name));
        }
        if !self.is_braced() {
            return self.fail(ItemFault::WantedBody);
        }
        let body = Some(self.group()?);
        Ok(Head {
            kind: ItemKind::Module { is_inline: true },
            name,
            body,
        })
    }

    fn extern_crate_head(&mut self) -> Result<Head, Stop> {
        let name = if self.word(0) == Word::SelfPath {
            self.token(ItemFault::WantedName)?
        } else {
            self.name()?
        };
        let alias = self.alias()?;
        self.semicolon_here()?;
        Ok(closed(ItemKind::ExternCrate { alias }, Some(name)))
    }

    fn extern_head(&mut self) -> Result<Head, Stop> {
        if self.eat_word(Word::Crate) {
            return self.extern_crate_head();
        }
        if matches!(self.kind(0), Some(TokenKind::Text | TokenKind::RawText)) {
            self.skip(1);
        }
        if !self.is_braced() {
            return self.fail(ItemFault::WantedBody);
        }
        let body = Some(self.group()?);
        Ok(Head {
            kind: ItemKind::ExternBlock,
            name: None,
            body,
        })
    }

    fn macro_head(&mut self) -> Result<Head, Stop> {
        let name = Some(self.name()?);
        let body = kept(self.at);
        if self.is_parenthesized() {
            self.group()?;
        }
        if !self.is_braced() {
            return self.fail(ItemFault::WantedBody);
        }
        self.group()?;
        Ok(closed(ItemKind::MacroTwo { body }, name))
    }

    /// Goes over the arguments of a macro, and over the `;` behind them, which braces need not.
    fn arguments(&mut self) -> Result<u32, Stop> {
        let arguments = kept(self.at);
        let is_braced = self.is_braced();
        self.group()?;
        if !is_braced {
            self.semicolon_here()?;
        }
        Ok(arguments)
    }

    fn rules_head(&mut self) -> Result<Head, Stop> {
        self.skip(1);
        let name = Some(self.name()?);
        let body = self.arguments()?;
        Ok(closed(ItemKind::MacroRules { body }, name))
    }

    /// Goes over a path of names.
    fn macro_path(&mut self) -> Result<Span, Stop> {
        let from = self.at;
        if self.is_path_mark(0) {
            self.skip(2);
        }
        for _ in self.at..self.end {
            let is_segment = self.word(0).is_segment();
            let is_dollar = self.kind(0) == Some(TokenKind::DollarCrate);
            if !self.names(0) && !is_segment && !is_dollar {
                return self.fail(ItemFault::WantedItem);
            }
            self.skip(1);
            if !self.is_path_mark(0) {
                break;
            }
            self.skip(2);
        }
        Ok(span(from, self.at))
    }

    /// `PATH!(..)`, and in an old form `PATH! NAME (..)`.
    fn call_head(&mut self) -> Result<Head, Stop> {
        let from = self.at;
        let path = self.macro_path()?;
        if !self.eat(b'!') {
            self.set_place(from, self.end);
            return self.fail(ItemFault::WantedItem);
        }
        let name = if self.names(0) {
            Some(self.name()?)
        } else {
            None
        };
        let arguments = self.arguments()?;
        Ok(closed(ItemKind::MacroCall { path, arguments }, name))
    }

    /// Whether the word here, which may be a name elsewhere, begins an item.
    fn begins_item(&self, word: Word) -> bool {
        match word {
            Word::Const
            | Word::Enum
            | Word::Extern
            | Word::Fn
            | Word::Impl
            | Word::Mod
            | Word::Static
            | Word::Struct
            | Word::Trait
            | Word::Type
            | Word::Use => true,
            Word::MacroRules => self.is_mark(1, b'!') && self.names(2),
            Word::Macro | Word::Union => self.names(1),
            _ => false,
        }
    }

    /// Takes what begins with an item's own word, or a call of a macro.
    pub(crate) fn head(&mut self) -> Result<Head, Stop> {
        let word = self.word(0);
        if !self.begins_item(word) {
            return self.call_head();
        }
        self.skip(1);
        match word {
            Word::Const => self.value_head(ItemKind::Const),
            Word::Enum => self.enum_head(),
            Word::Extern => self.extern_head(),
            Word::Fn => self.function_head(),
            Word::Impl => self.impl_head(),
            Word::Macro => self.macro_head(),
            Word::MacroRules => self.rules_head(),
            Word::Mod => self.mod_head(),
            Word::Static => self.value_head(ItemKind::Static),
            Word::Struct => self.struct_head(),
            Word::Trait => self.trait_head(),
            Word::Union => self.union_head(),
            Word::Use => self.use_head(),
            _ => self.alias_head(),
        }
    }
}
