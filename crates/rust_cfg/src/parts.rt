//! The parts that a predicate of `cfg` is written with.

use crate::fault::CfgError;
use crate::literal::text_of_literal;
use cfg_logic::{CfgFault, CfgPart, Group};
use rust_items::Span;
use rust_lexer::{Sources, Token, TokenKind};
use rust_trees::Trees;
use std::alloc::{AllocError, AllocFailed, Global};

/// The parts of a predicate, and for each of them the place of its token.
#[derive(Drop)]
pub struct CfgParts {
    pub parts: Vec<CfgPart>,
    pub places: Vec<u32>,
}

/// Why the reader stops: memory was refused, or what comes is no part.
#[derive(Drop)]
enum Stop {
    Memory(AllocError),
    Here(CfgFault),
}

impl From<AllocError> for Stop {
    fn from(error: AllocError) -> Self {
        Stop::Memory(error)
    }
}

impl<T: Drop> From<AllocFailed<T>> for Stop {
    fn from(error: AllocFailed<T>) -> Self {
        Stop::Memory(AllocError::from(error))
    }
}

/// The error at a place among tokens, or at the last one.
pub(crate) fn error_at(trees: &Trees, at: usize, fault: CfgFault) -> CfgError {
    let here = trees.get(at);
    let token = here.or(trees.tokens().last().copied());
    CfgError { fault, token }
}

/// A place among the tokens of a predicate.
#[derive(Drop)]
struct Reader<'a> {
    alloc: Global,
    sources: &'a Sources,
    trees: &'a Trees,
    at: usize,
    end: usize,
    /// The place behind `target(..)`, if one is open: its keys are short for `target_KEY`.
    target_end: usize,
    read: CfgParts,
}

impl<'a> Reader<'a> {
    /// The kind of the token so many places on, before the end.
    fn kind(&self, further: usize) -> Option<TokenKind> {
        let at = self.at.saturating_add(further);
        if at >= self.end {
            return None;
        }
        self.trees.get(at).map(|token| token.kind)
    }

    /// Takes a part of so many tokens.
    fn take(&mut self, part: CfgPart, count: usize) -> Result<(), Stop> {
        self.read.parts.push(part)?;
        self.read.places.push(kept(self.at))?;
        self.at = self.at.saturating_add(count);
        Ok(())
    }

    /// A name as it is looked up: with what is short in `target(..)`.
    fn key(&self, token: Token) -> Result<String, AllocError> {
        let mut key = String::new(self.alloc);
        if self.at < self.target_end {
            key.push_str("target_")?;
        }
        key.push_str(self.sources.name(token))?;
        Ok(key)
    }

    /// Takes what begins with a name and a parenthesis.
    fn group(&mut self, token: Token) -> Result<(), Stop> {
        let group = match self.sources.text_of(token) {
            "all" => Group::All,
            "any" => Group::Any,
            "not" => Group::Not,
            "target" => {
                self.target_end = self.trees.after(self.at.saturating_add(1));
                Group::All
            }
            _ => return Err(Stop::Here(CfgFault::UnknownForm)),
        };
        self.take(CfgPart::Open(group), 2)
    }

    /// Takes a key and its value.
    fn pair(&mut self, token: Token) -> Result<(), Stop> {
        let literal = if self.kind(2).is_some() {
            self.trees.get(self.at.saturating_add(2))
        } else {
            None
        };
        let Some(literal) = literal else {
            return Err(Stop::Here(CfgFault::WantedText));
        };
        match text_of_literal(self.alloc, self.sources, literal)? {
            Some(value) => {
                let key = self.key(token)?;
                self.take(CfgPart::Pair(key, value), 3)
            }
            None => Err(Stop::Here(CfgFault::WantedText)),
        }
    }

    /// Takes what begins with a name.
    fn named(&mut self, token: Token) -> Result<(), Stop> {
        match self.kind(1) {
            Some(TokenKind::OpenParen) => return self.group(token),
            Some(TokenKind::Mark(b'=')) => return self.pair(token),
            _ => {}
        }
        match self.sources.text_of(token) {
            "true" => self.take(CfgPart::Truth(true), 1),
            "false" => self.take(CfgPart::Truth(false), 1),
            _ => {
                let key = self.key(token)?;
                self.take(CfgPart::Word(key), 1)
            }
        }
    }

    /// Takes the part that begins here.
    fn part(&mut self) -> Result<(), Stop> {
        match self.trees.get(self.at) {
            Some(token) if token.is_name() => self.named(token),
            Some(token) if token.is_mark(b',') => self.take(CfgPart::Comma, 1),
            Some(token) if token.kind == TokenKind::CloseParen => self.take(CfgPart::Close, 1),
            _ => Err(Stop::Here(CfgFault::WantedPredicate)),
        }
    }

    /// Takes all parts before the end.
    fn parts(&mut self) -> Result<(), Stop> {
        for _ in self.at..self.end {
            if self.at >= self.end {
                break;
            }
            self.part()?;
        }
        Ok(())
    }
}

/// A place as it is kept: there are fewer than 2^32 tokens.
pub(crate) fn kept(place: usize) -> u32 {
    if place < 0xffff_ffff {
        place as u32
    } else {
        0xffff_ffff
    }
}

/// The parts of the predicate that tokens are. The names in `target(..)` have become whole ones, and
/// a literal the text that it stands for.
pub fn read_parts<'a>(
    alloc: Global,
    sources: &'a Sources,
    trees: &'a Trees,
    predicate: Span,
) -> Result<Result<CfgParts, CfgError>, AllocError> {
    let mut reader = Reader {
        alloc,
        sources,
        trees,
        at: predicate.from as usize,
        end: (predicate.to as usize).min(trees.len()),
        target_end: 0,
        read: CfgParts {
            parts: Vec::new(alloc),
            places: Vec::new(alloc),
        },
    };
    match reader.parts() {
        Ok(()) => {
            let Reader { read, .. } = reader;
            Ok(Ok(read))
        }
        Err(Stop::Memory(error)) => Err(error),
        Err(Stop::Here(fault)) => Ok(Err(error_at(trees, reader.at, fault))),
    }
}
