//! Token trees as attributes have them.

use crate::context::Lowering;
use def_interner::Interner;
use item_tree::{Leaf, Text, TopSubtree, TopSubtreeBuilder};
use rust_items::Span;
use rust_lexer::{Token, TokenKind};
use std::alloc::AllocError;

impl<'a> Lowering<'a> {
    /// Adds a lifetime: its quote, and the name behind it.
    fn add_lifetime(
        &self,
        session: &mut Interner,
        builder: &mut TopSubtreeBuilder,
        text: &str,
    ) -> Result<(), AllocError> {
        builder.push(Leaf::Punct('\''))?;
        let name = text.strip_prefix("'").unwrap_or(text);
        builder.push(Leaf::Ident(session.intern_name(name)?))
    }

    /// Adds a token.
    fn add_token(
        &self,
        session: &mut Interner,
        builder: &mut TopSubtreeBuilder,
        token: Token,
    ) -> Result<(), AllocError> {
        let text = self.context.sources.text_of(token);
        match token.kind {
            TokenKind::OpenParen | TokenKind::OpenBracket | TokenKind::OpenBrace => builder.open(),
            TokenKind::CloseParen | TokenKind::CloseBracket | TokenKind::CloseBrace => {
                builder.close()?;
                Ok(())
            }
            TokenKind::Mark(mark) => builder.push(Leaf::Punct(char::from(mark))),
            TokenKind::Lifetime => self.add_lifetime(session, builder, text),
            TokenKind::DollarCrate => builder.push(Leaf::Ident(session.intern_name(text)?)),
            _ if token.is_name() => builder.push(Leaf::Ident(self.name(session, token)?)),
            _ => builder.push(Leaf::Literal(Text::from_str(self.alloc, text)?)),
        }
    }

    /// The trees that tokens are. None where one is not closed within them.
    pub(crate) fn token_trees(
        &self,
        session: &mut Interner,
        tokens: Span,
    ) -> Result<Option<TopSubtree>, AllocError> {
        let mut builder = TopSubtreeBuilder::new(self.alloc);
        for at in tokens.from..tokens.to {
            let Some(token) = self.token(at) else {
                break;
            };
            self.add_token(session, &mut builder, token)?;
        }
        Ok(builder.build())
    }
}
