//! What items are lowered from, and what is looked up there.

use crate::fault::{LowerError, LowerFault};
use crate::inner_macros::InnerMacros;
use def_interner::Interner;
use item_tree::{Crate, Name, PathKind};
use rust_cfg::CfgOptions;
use rust_items::{ItemList, Span};
use rust_lexer::{Place, SourceId, Sources, Token, TokenKind};
use rust_trees::Trees;
use std::alloc::{AllocError, Global};

/// How many faults of one text are told.
const FAULT_LIMIT: usize = 100;

/// The place of what stands nowhere.
pub(crate) const NO_PLACE: Place = Place {
    source: SourceId(0),
    line: 1,
    column: 1,
};

/// The items of a text, and what is known of the crate that it stands in.
#[derive(Clone, Copy)]
pub struct Context<'a> {
    pub sources: &'a Sources,
    pub trees: &'a Trees,
    /// The items of these trees.
    pub list: &'a ItemList,
    pub options: &'a CfgOptions,
    /// For each text, by its number, the crate that it is of: `$crate` means that one.
    pub crates: &'a [Crate],
    /// The macros that were lowered so far whose calls of others mean those of their own crate.
    pub inner_macros: &'a [InnerMacros],
}

/// What lowers the items of a text.
#[derive(Drop)]
pub(crate) struct Lowering<'a> {
    pub(crate) alloc: Global,
    pub(crate) context: Context<'a>,
    pub(crate) faults: Vec<LowerError>,
    /// How many segments the paths of further imports may have together.
    pub(crate) segments_left: usize,
}

impl<'a> Lowering<'a> {
    /// Lowers these items, of which none is lowered yet.
    pub(crate) fn new(alloc: Global, context: Context<'a>) -> Lowering<'a> {
        let tokens = context.trees.len();
        Lowering {
            alloc,
            context,
            faults: Vec::new(alloc),
            segments_left: tokens.saturating_mul(16),
        }
    }

    /// The token at a place.
    pub(crate) fn token(&self, at: u32) -> Option<Token> {
        self.context.trees.get(at as usize)
    }

    /// What the token at a place is.
    pub(crate) fn kind_at(&self, at: u32) -> Option<TokenKind> {
        self.token(at).map(|token| token.kind)
    }

    /// The word at a place, if one that is not raw stands there.
    pub(crate) fn word_at(&self, at: u32) -> Option<&'a str> {
        match self.token(at) {
            Some(token) if token.kind == TokenKind::Identifier => {
                Some(self.context.sources.text_of(token))
            }
            _ => None,
        }
    }

    /// The place of the partner of the delimiter at a place, before an end.
    pub(crate) fn partner(&self, at: u32, end: u32) -> u32 {
        match self.context.trees.partners().get(at as usize) {
            Some(partner) => (*partner).min(end),
            None => end,
        }
    }

    /// The tokens within the group that a place opens, before an end.
    pub(crate) fn within(&self, open: u32, end: u32) -> Span {
        Span {
            from: open.saturating_add(1),
            to: self.partner(open, end),
        }
    }

    /// The name that a token is, without an `r#`.
    pub(crate) fn name(&self, session: &mut Interner, token: Token) -> Result<Name, AllocError> {
        session.intern_name(self.context.sources.name(token))
    }

    /// The name that is written, or a text that no name has, where there is none.
    pub(crate) fn name_or_missing(
        &self,
        session: &mut Interner,
        token: Option<Token>,
    ) -> Result<Name, AllocError> {
        match token {
            Some(token) => self.name(session, token),
            None => session.intern_name("[missing name]"),
        }
    }

    /// The root of the crate of the macro that a `$crate` is of.
    pub(crate) fn dollar_crate(&self, token: Token) -> PathKind {
        match self.context.crates.get(token.source.0 as usize) {
            Some(krate) => PathKind::DollarCrate(*krate),
            None => PathKind::Crate,
        }
    }

    /// Tells a fault at a token, unless many have been told: to find the place of each takes a walk
    /// over the text.
    pub(crate) fn tell(
        &mut self,
        fault: LowerFault,
        token: Option<Token>,
    ) -> Result<(), AllocError> {
        if self.faults.len() >= FAULT_LIMIT {
            return Ok(());
        }
        let place = match token {
            Some(token) => self.context.sources.place(token),
            None => NO_PLACE,
        };
        self.faults.push(LowerError { fault, place })?;
        Ok(())
    }
}
