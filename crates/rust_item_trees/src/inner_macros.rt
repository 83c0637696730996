//! Macros that call others of their own crate by name alone.

use crate::context::Lowering;
use item_tree::{ModPath, PathKind};
use rust_items::{Attribute, Item, ItemKind, Span};
use rust_lexer::{SourceId, Token};

/// The part of a text that defines a macro with `local_inner_macros`. Where a name that is written
/// there is called alone as a macro, it means one of the crate of that text.
#[derive(Clone, Copy, PartialEq, Eq, Debug)]
pub struct InnerMacros {
    pub source: SourceId,
    /// The byte at which it begins.
    pub start: u32,
    /// The byte behind its last one.
    pub end: u32,
}

impl InnerMacros {
    /// Whether a token was written there.
    fn has(self, token: Token) -> bool {
        token.source == self.source && token.start >= self.start && token.end <= self.end
    }
}

impl<'a> Lowering<'a> {
    /// Whether an attribute is `macro_export(local_inner_macros)`.
    fn is_local_inner(&self, attribute: Attribute) -> bool {
        let tokens = attribute.tokens;
        if self.word_at(tokens.from) != Some("macro_export") {
            return false;
        }
        for at in tokens.from..tokens.to {
            if self.word_at(at) == Some("local_inner_macros") {
                return true;
            }
        }
        false
    }

    /// Whether an item has an attribute `macro_export(local_inner_macros)`.
    fn has_local_inner(&self, item: &Item) -> bool {
        match self.listed(item.attributes) {
            Some(listed) => {
                for attribute in listed {
                    if self.is_local_inner(*attribute) {
                        return true;
                    }
                }
                false
            }
            None => false,
        }
    }

    /// Where an item is written, if it is a macro with `local_inner_macros`.
    pub(crate) fn inner_macros(&self, item: &Item) -> Option<InnerMacros> {
        if !matches!(item.kind, ItemKind::MacroRules { .. }) || !self.has_local_inner(item) {
            return None;
        }
        let first = self.token(item.tokens.from)?;
        let last = self.token(item.tokens.to.saturating_sub(1))?;
        Some(InnerMacros {
            source: first.source,
            start: first.start,
            end: last.end,
        })
    }

    /// Whether a token was written in a macro with `local_inner_macros`.
    fn is_inner(&self, token: Token) -> bool {
        for inner in self.context.inner_macros {
            if inner.has(token) {
                return true;
            }
        }
        false
    }

    /// The path of a call, which is one of the crate of the macro that wrote it, where that has
    /// `local_inner_macros` and the path is a name alone.
    pub(crate) fn rooted(&self, tokens: Span, path: ModPath) -> ModPath {
        let ModPath { kind, segments } = path;
        let is_alone = kind == PathKind::Plain && segments.as_slice().len() == 1;
        let kind = match self.token(tokens.from) {
            Some(token) if is_alone && self.is_inner(token) => self.dollar_crate(token),
            _ => kind,
        };
        ModPath { kind, segments }
    }
}
