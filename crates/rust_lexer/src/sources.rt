//! The texts that tokens are parts of.

use crate::fault::{Place, place_of};
use crate::token::{SourceId, Token, TokenKind};
use std::alloc::{AllocError, Global};

/// Texts by their numbers. Tokens of several of them may stand in one list, as an expansion's do.
#[derive(Drop)]
pub struct Sources {
    texts: Vec<String>,
}

impl Sources {
    /// No texts yet.
    pub fn new(alloc: Global) -> Sources {
        Sources {
            texts: Vec::new(alloc),
        }
    }

    /// Takes a text, and answers its number. None, where there are four thousand million of them.
    pub fn add(&mut self, text: String) -> Result<Option<SourceId>, AllocError> {
        let number = self.texts.len();
        if number > 0xffff_ffff {
            return Ok(None);
        }
        self.texts.push(text)?;
        Ok(Some(SourceId(number as u32)))
    }

    /// A text, which is empty where there is none of this number.
    pub fn text(&self, source: SourceId) -> &str {
        match self.texts.get(source.0 as usize) {
            Some(text) => text.as_str(),
            None => "",
        }
    }

    /// What a token is written as.
    pub fn text_of(&self, token: Token) -> &str {
        match token.kind {
            TokenKind::DocName => "doc",
            TokenKind::DollarCrate => "$crate",
            _ => self
                .text(token.source)
                .get(token.start as usize..token.end as usize)
                .unwrap_or(""),
        }
    }

    /// The name of an identifier, without an `r#`.
    pub fn name(&self, token: Token) -> &str {
        let text = self.text_of(token);
        text.strip_prefix("r#").unwrap_or(text)
    }

    /// The bytes of a token in its text.
    pub fn bytes(&self, token: Token) -> &[u8] {
        self.text(token.source)
            .as_bytes()
            .get(token.start as usize..token.end as usize)
            .unwrap_or(b"")
    }

    /// The place at which a token begins.
    pub fn place(&self, token: Token) -> Place {
        place_of(token.source, self.text(token.source), token.start as usize)
    }
}
