//! Attributes.

use crate::arguments::Arguments;
use crate::context::Lowering;
use crate::fault::LowerFault;
use def_interner::Interner;
use item_tree::{Attr, Attrs, AttrsOrCfg, CfgExpr, Seq, SyntaxContext};
use rust_cfg::{Resolved, resolve_attributes};
use rust_items::{Attribute, Item, ItemKind, Span};
use rust_lexer::TokenKind;
use std::alloc::{AllocError, Global};

/// No attributes.
pub(crate) fn no_attributes(alloc: Global) -> Attrs {
    Attrs {
        list: Seq::from_vec(Vec::new(alloc)),
    }
}

/// Whether an attribute that begins with a word means nothing to the collector.
fn is_idle_word(word: &str) -> bool {
    match word {
        "doc" => true,
        "rustc_builtin_macro" | "rustc_coherence_is_core" => false,
        _ => word.starts_with("rustc_"),
    }
}

impl<'a> Lowering<'a> {
    /// Whether the tokens of an attribute mean nothing to the collector: it documents, or is one of
    /// the compiler's own, whose names no macro may have.
    fn is_idle(&self, tokens: Span) -> bool {
        match self.word_at(tokens.from) {
            Some(word) => is_idle_word(word),
            None => self.kind_at(tokens.from) == Some(TokenKind::DocName),
        }
    }

    /// The attributes of a span, if one of them means anything.
    pub(crate) fn listed(&self, span: Span) -> Option<&'a [Attribute]> {
        let (from, to) = (span.from as usize, span.to as usize);
        let listed = self.context.list.attributes.as_slice().get(from..to)?;
        if listed
            .iter()
            .all(|attribute| self.is_idle(attribute.tokens))
        {
            return None;
        }
        Some(listed)
    }

    /// Attributes without `cfg` and `cfg_attr`. What is wrong with these is told.
    fn resolved(&mut self, listed: &[Attribute]) -> Result<Resolved, AllocError> {
        let context = self.context;
        let resolved = resolve_attributes(
            self.alloc,
            context.sources,
            context.trees,
            listed,
            context.options,
        )?;
        for error in resolved.faults.iter() {
            self.tell(LowerFault::Cfg(error.fault), error.token)?;
        }
        Ok(resolved)
    }

    /// The condition of attributes that is not met, if there is one: its number is that of its
    /// attribute in the list of items.
    fn condition(&self, span: Span, resolved: &Resolved) -> Option<CfgExpr> {
        let number = resolved.disabled_by?;
        Some(CfgExpr(span.from.saturating_add(number) as usize))
    }

    /// The condition among these attributes that is not met, if there is one.
    pub(crate) fn disabled_by(&mut self, span: Span) -> Result<Option<CfgExpr>, AllocError> {
        let Some(listed) = self.listed(span) else {
            return Ok(None);
        };
        let resolved = self.resolved(listed)?;
        Ok(self.condition(span, &resolved))
    }

    /// The place behind the path that tokens begin with.
    fn path_end(&self, tokens: Span) -> u32 {
        for at in tokens.from..tokens.to {
            match self.token(at) {
                Some(token) if token.is_name() || token.is_mark(b':') => {}
                Some(token) if token.kind == TokenKind::DollarCrate => {}
                _ => return at,
            }
        }
        tokens.to
    }

    /// The tokens of an attribute without the `unsafe(..)` around them.
    fn without_unsafe(&self, tokens: Span) -> Span {
        let open = tokens.from.saturating_add(1);
        if self.word_at(tokens.from) != Some("unsafe") {
            return tokens;
        }
        self.within(open, tokens.to)
    }

    /// An attribute, if it has a path and means anything.
    fn attribute(&self, session: &mut Interner, tokens: Span) -> Result<Option<Attr>, AllocError> {
        if self.is_idle(tokens) {
            return Ok(None);
        }
        let tokens = self.without_unsafe(tokens);
        let end = self.path_end(tokens);
        let path = Span {
            from: tokens.from,
            to: end,
        };
        let Some(path) = self.path(session, path)? else {
            return Ok(None);
        };
        let rest = Span {
            from: end,
            to: tokens.to,
        };
        let Arguments { input, paths } = self.arguments(session, rest)?;
        Ok(Some(Attr {
            path,
            input,
            ctxt: SyntaxContext(0),
            paths,
        }))
    }

    /// The attributes that these tokens are.
    fn lowered(&self, session: &mut Interner, attributes: &[Span]) -> Result<Attrs, AllocError> {
        let mut list = Vec::new(self.alloc);
        for tokens in attributes {
            if let Some(attr) = self.attribute(session, *tokens)? {
                list.push(attr)?;
            }
        }
        Ok(Attrs {
            list: Seq::from_vec(list),
        })
    }

    /// The attributes of a whole text.
    pub(crate) fn attributes(
        &mut self,
        session: &mut Interner,
        span: Span,
    ) -> Result<AttrsOrCfg, AllocError> {
        let Some(listed) = self.listed(span) else {
            return Ok(AttrsOrCfg::Enabled(no_attributes(self.alloc)));
        };
        let resolved = self.resolved(listed)?;
        let attrs = self.lowered(session, resolved.attributes.as_slice())?;
        match self.condition(span, &resolved) {
            Some(condition) => Ok(AttrsOrCfg::CfgDisabled(condition, attrs)),
            None => Ok(AttrsOrCfg::Enabled(attrs)),
        }
    }

    /// Whether an attribute makes a function a test or a benchmark.
    fn is_test(&self, attribute: Attribute) -> bool {
        let tokens = attribute.tokens;
        tokens.from.saturating_add(1) == tokens.to
            && matches!(self.word_at(tokens.from), Some("test" | "bench"))
    }

    /// Whether an item is a test or a benchmark of a crate that is not built for them: the compiler
    /// leaves it out.
    fn is_left_out(&self, item: &Item) -> bool {
        if !matches!(item.kind, ItemKind::Function { .. })
            || self.context.options.has_flag("test")
        {
            return false;
        }
        let Some(listed) = self.listed(item.attributes) else {
            return false;
        };
        for attribute in listed {
            if self.is_test(*attribute) {
                return true;
            }
        }
        false
    }

    /// The attributes of an item, if it has some that say anything. A test or a benchmark is as one
    /// with `cfg(test)`.
    pub(crate) fn item_attributes(
        &mut self,
        session: &mut Interner,
        item: &Item,
    ) -> Result<Option<AttrsOrCfg>, AllocError> {
        if self.listed(item.attributes).is_none() {
            return Ok(None);
        }
        match self.attributes(session, item.attributes)? {
            AttrsOrCfg::Enabled(attrs) if self.is_left_out(item) => {
                let condition = CfgExpr(item.attributes.from as usize);
                Ok(Some(AttrsOrCfg::CfgDisabled(condition, attrs)))
            }
            attrs => Ok(Some(attrs)),
        }
    }
}
