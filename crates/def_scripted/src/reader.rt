//! What is left of a text that is read.

use crate::fault::Stop;
use crate::tokens::Token;
use item_tree::{Name, Text};
use std::alloc::{AllocError, Global};

/// The tokens of a text, and how many of them are read. Functions that read take what fits. Where
/// a token does not fit, or memory is refused, reading stops: nothing comes any more, and what was
/// read counts for nothing. So what reads answers no fault, and needs to look for none.
#[derive(Drop)]
pub struct Reader {
    pub alloc: Global,
    /// The tokens, with the bytes at which they begin.
    tokens: Vec<(Token, usize)>,
    /// The texts in quotes, by their numbers.
    texts: Vec<Text>,
    /// How many tokens are read.
    pub read: usize,
    /// Why reading stopped, if it did.
    pub stopped: Option<Stop>,
}

impl Reader {
    /// A reader of no tokens yet.
    pub fn new(alloc: Global) -> Self {
        Reader {
            alloc,
            tokens: Vec::new(alloc),
            texts: Vec::new(alloc),
            read: 0,
            stopped: None,
        }
    }

    /// Stops for this reason, if reading did not stop before.
    fn stop_for(&mut self, stop: Stop) {
        if self.stopped.is_none() {
            self.stopped = Some(stop);
        }
    }

    /// Stops at the token that comes, which does not fit.
    pub fn stop(&mut self) {
        self.stop_for(Stop::Here);
    }

    /// Stops at a token that was read before, if reading did not stop.
    pub fn stop_at(&mut self, read: usize) {
        if self.stopped.is_none() {
            self.read = read;
        }
        self.stop();
    }

    /// Stops, since memory was refused.
    pub fn refuse(&mut self) {
        self.stop_for(Stop::Memory);
    }

    /// Stops where memory was refused for something that was kept.
    pub fn keep(&mut self, kept: Result<(), AllocError>) {
        if kept.is_err() {
            self.refuse();
        }
    }

    /// Adds a token that begins at this byte.
    pub fn push(&mut self, token: Token, begin: usize) {
        if self.tokens.push((token, begin)).is_err() {
            self.refuse();
        }
    }

    /// Adds a text in quotes, and answers its token.
    pub fn add_text(&mut self, text: &str) -> Token {
        let number = self.texts.len();
        match Text::from_str(self.alloc, text) {
            Ok(text) => self.push_text(text),
            Err(AllocError) => self.refuse(),
        }
        Token::Text(number)
    }

    fn push_text(&mut self, text: Text) {
        if self.texts.push(text).is_err() {
            self.refuse();
        }
    }

    /// The text of this number.
    pub fn text(&self, number: usize) -> Result<Text, AllocError> {
        match self.texts.get(number) {
            Some(text) => text.clone(),
            None => Text::from_str(self.alloc, ""),
        }
    }

    /// How many tokens are left.
    pub fn left(&self) -> usize {
        match self.stopped {
            None => self.tokens.len().saturating_sub(self.read),
            Some(_) => 0,
        }
    }

    /// The token that comes behind so many others.
    pub fn peek(&self, passed: usize) -> Token {
        if self.stopped.is_some() {
            return Token::End;
        }
        match self.tokens.get(self.read.saturating_add(passed)) {
            Some((token, _)) => *token,
            None => Token::End,
        }
    }

    /// The byte at which the token that comes begins, in a text of so many bytes.
    pub fn byte(&self, length: usize) -> usize {
        match self.tokens.get(self.read) {
            Some((_, begin)) => *begin,
            None => length,
        }
    }

    /// Takes so many tokens. Once reading stopped, it stays where it is.
    pub fn skip(&mut self, count: usize) {
        if self.stopped.is_none() {
            self.read = self.read.saturating_add(count);
        }
    }

    /// Takes a token if it comes.
    pub fn takes(&mut self, token: Token) -> bool {
        let comes = self.peek(0) == token;
        if comes {
            self.skip(1);
        }
        comes
    }

    /// Takes two tokens if both come.
    pub fn takes_both(&mut self, first: Token, second: Token) -> bool {
        let come = self.peek(0) == first && self.peek(1) == second;
        if come {
            self.skip(2);
        }
        come
    }

    /// Takes a mark that has to come.
    pub fn expect(&mut self, mark: char) {
        if !self.takes(Token::Mark(mark)) {
            self.stop();
        }
    }

    /// Takes the name that has to come. Where none comes, the name counts for nothing.
    pub fn name(&mut self) -> Name {
        match self.peek(0) {
            Token::Name(name) => {
                self.skip(1);
                name
            }
            _ => {
                self.stop();
                Name(0)
            }
        }
    }

    /// Whether brackets are closed here, or nothing comes.
    pub fn is_closed(&self) -> bool {
        matches!(self.peek(0), Token::Mark(')' | '}') | Token::End)
    }

    /// Takes the comma that has to come where brackets are not closed.
    pub fn comma(&mut self) {
        if !self.takes(Token::Mark(',')) && !self.is_closed() {
            self.stop();
        }
    }
}
