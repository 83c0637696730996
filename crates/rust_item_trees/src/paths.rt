//! Paths.

use crate::context::Lowering;
use def_interner::Interner;
use item_tree::{ModPath, Name, PathKind, Seq};
use rust_items::Span;
use rust_lexer::{Token, TokenKind};
use std::alloc::{AllocError, Global};

/// What stands between the colons of a path.
#[derive(Clone, Copy)]
pub(crate) enum Segment {
    Name(Name),
    /// A word that says where a path begins.
    Root(PathKind),
    /// Nothing that a path may have.
    Wrong,
}

/// A path, while its segments are added one after another.
#[derive(Drop)]
pub(crate) struct PathSoFar {
    kind: PathKind,
    segments: Vec<Name>,
    /// How many colons stand behind the last segment, or before the first one.
    colons: u8,
    is_begun: bool,
    is_wrong: bool,
}

impl PathSoFar {
    /// No segment yet.
    pub(crate) fn new(alloc: Global) -> PathSoFar {
        PathSoFar {
            kind: PathKind::Plain,
            segments: Vec::new(alloc),
            colons: 0,
            is_begun: false,
            is_wrong: false,
        }
    }

    /// Adds a colon.
    pub(crate) fn add_colon(&mut self) {
        self.colons = self.colons.saturating_add(1);
    }

    /// Begins a path with no colons before it.
    fn begin(&mut self, segment: Segment) -> Result<(), AllocError> {
        match segment {
            Segment::Name(name) => self.segments.push(name)?,
            Segment::Root(kind) => self.kind = kind,
            Segment::Wrong => self.is_wrong = true,
        }
        Ok(())
    }

    /// Begins a path behind two colons, which a name has to follow.
    fn begin_behind_colons(&mut self, segment: Segment) -> Result<(), AllocError> {
        self.kind = PathKind::Abs;
        match segment {
            Segment::Name(name) => self.segments.push(name)?,
            _ => self.is_wrong = true,
        }
        Ok(())
    }

    /// Goes up by one more `super`, which may stand behind others and `self` alone.
    fn go_up(&mut self) {
        match self.kind {
            PathKind::Super(levels) if self.segments.is_empty() && levels < u8::MAX => {
                self.kind = PathKind::Super(levels + 1);
            }
            _ => self.is_wrong = true,
        }
    }

    /// Adds a segment behind an earlier one.
    fn go_on(&mut self, segment: Segment) -> Result<(), AllocError> {
        match segment {
            Segment::Name(name) => self.segments.push(name)?,
            Segment::Root(PathKind::Super(1)) => self.go_up(),
            _ => self.is_wrong = true,
        }
        Ok(())
    }

    /// Adds a segment behind the colons that were added.
    pub(crate) fn add(&mut self, segment: Segment) -> Result<(), AllocError> {
        let colons = self.colons;
        let was_begun = self.is_begun;
        self.colons = 0;
        self.is_begun = true;
        match (colons, was_begun) {
            (0, false) => self.begin(segment),
            (2, false) => self.begin_behind_colons(segment),
            (2, true) => self.go_on(segment),
            _ => {
                self.is_wrong = true;
                Ok(())
            }
        }
    }

    /// The whole path, if it is one.
    pub(crate) fn finish(self) -> Option<ModPath> {
        let PathSoFar {
            kind,
            segments,
            colons,
            is_begun,
            is_wrong,
        } = self;
        if !is_begun || is_wrong || colons > 0 {
            return None;
        }
        Some(ModPath {
            kind,
            segments: Seq::from_vec(segments),
        })
    }
}

impl<'a> Lowering<'a> {
    /// What a word is in a path.
    fn segment_of_word(&self, session: &mut Interner, token: Token) -> Result<Segment, AllocError> {
        match self.context.sources.bytes(token) {
            b"crate" => Ok(Segment::Root(PathKind::Crate)),
            b"self" => Ok(Segment::Root(PathKind::Super(0))),
            b"super" => Ok(Segment::Root(PathKind::Super(1))),
            b"_" => Ok(Segment::Wrong),
            _ => Ok(Segment::Name(self.name(session, token)?)),
        }
    }

    /// What a token is in a path.
    pub(crate) fn segment(
        &self,
        session: &mut Interner,
        token: Token,
    ) -> Result<Segment, AllocError> {
        match token.kind {
            TokenKind::Identifier => self.segment_of_word(session, token),
            TokenKind::RawIdentifier | TokenKind::DocName => {
                Ok(Segment::Name(self.name(session, token)?))
            }
            TokenKind::DollarCrate => Ok(Segment::Root(self.dollar_crate(token))),
            _ => Ok(Segment::Wrong),
        }
    }

    /// The path that tokens are, if they are one.
    pub(crate) fn path(
        &self,
        session: &mut Interner,
        tokens: Span,
    ) -> Result<Option<ModPath>, AllocError> {
        let mut path = PathSoFar::new(self.alloc);
        for at in tokens.from..tokens.to {
            let Some(token) = self.token(at) else {
                break;
            };
            if token.is_mark(b':') {
                path.add_colon();
            } else {
                let segment = self.segment(session, token)?;
                path.add(segment)?;
            }
        }
        Ok(path.finish())
    }
}
