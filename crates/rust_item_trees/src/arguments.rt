//! What stands behind the path of an attribute.

use crate::context::Lowering;
use def_interner::Interner;
use item_tree::{AttrInput, ModPath, Seq, SyntaxContext, Text};
use rust_cfg::text_of_literal;
use rust_items::Span;
use rust_lexer::{Token, TokenKind};
use std::alloc::AllocError;

/// What stands behind the path of an attribute.
#[derive(Drop)]
pub(crate) struct Arguments {
    pub(crate) input: Option<AttrInput>,
    pub(crate) paths: Option<Seq<(ModPath, SyntaxContext)>>,
}

/// Whether a token is a literal that is no word.
fn is_literal(kind: TokenKind) -> bool {
    matches!(
        kind,
        TokenKind::Integer
            | TokenKind::Float
            | TokenKind::Character
            | TokenKind::Byte
            | TokenKind::Text
            | TokenKind::ByteText
            | TokenKind::CText
            | TokenKind::RawText
            | TokenKind::RawByteText
            | TokenKind::RawCText
            | TokenKind::DocText
    )
}

impl<'a> Lowering<'a> {
    /// The text of a literal, without quotes and escapes.
    fn literal_text(&self, token: Token) -> Result<Text, AllocError> {
        let sources = self.context.sources;
        match text_of_literal(self.alloc, sources, token)? {
            Some(text) => Ok(Text::from_string(text)),
            None => Text::from_str(self.alloc, sources.text_of(token)),
        }
    }

    /// The literal that stands alone at a place before an end, which may be in parentheses.
    fn literal_at(&self, at: u32, end: u32) -> Option<Token> {
        let mut at = at;
        for _ in at..end {
            if self.kind_at(at) != Some(TokenKind::OpenParen) {
                break;
            }
            at = at.saturating_add(1);
        }
        let token = self.token(at)?;
        let is_truth = matches!(self.word_at(at), Some("true" | "false"));
        if at < end && (is_truth || is_literal(token.kind)) {
            Some(token)
        } else {
            None
        }
    }

    /// The paths that stand between commas. What is no path is left out.
    fn listed_paths(
        &self,
        session: &mut Interner,
        tokens: Span,
    ) -> Result<Seq<(ModPath, SyntaxContext)>, AllocError> {
        let mut paths = Vec::new(self.alloc);
        let mut from = tokens.from;
        for _ in tokens.from..tokens.to {
            if from >= tokens.to {
                break;
            }
            let to = self.comma(from, tokens.to);
            if let Some(path) = self.path(session, Span { from, to })? {
                paths.push((path, SyntaxContext(0)))?;
            }
            from = to.saturating_add(1);
        }
        Ok(Seq::from_vec(paths))
    }

    /// The place of the next comma outside of groups, or the end.
    fn comma(&self, from: u32, end: u32) -> u32 {
        let mut at = from;
        for _ in from..end {
            if at >= end || self.kind_at(at) == Some(TokenKind::Mark(b',')) {
                break;
            }
            at = self.partner(at, end).max(at).saturating_add(1);
        }
        at.min(end)
    }

    /// What stands behind the path of an attribute.
    pub(crate) fn arguments(
        &self,
        session: &mut Interner,
        rest: Span,
    ) -> Result<Arguments, AllocError> {
        let mut arguments = Arguments {
            input: None,
            paths: None,
        };
        match self.kind_at(rest.from) {
            _ if rest.from >= rest.to => {}
            Some(TokenKind::Mark(b'=')) => {
                if let Some(token) = self.literal_at(rest.from.saturating_add(1), rest.to) {
                    arguments.input = Some(AttrInput::Str(self.literal_text(token)?));
                }
            }
            Some(TokenKind::OpenParen | TokenKind::OpenBracket | TokenKind::OpenBrace) => {
                let within = self.within(rest.from, rest.to);
                if let Some(tokens) = self.token_trees(session, within)? {
                    arguments.input = Some(AttrInput::TokenTree(tokens));
                }
                if self.kind_at(rest.from) == Some(TokenKind::OpenParen) {
                    arguments.paths = Some(self.listed_paths(session, within)?);
                }
            }
            _ => {}
        }
        Ok(arguments)
    }
}
