//! Transcription: a template is written with what variables are bound to.

use crate::bindings::Bindings;
use crate::fault::{MacroFault, Stop};
use crate::origins::Origin;
use crate::rules::{Piece, Rule, Rules};
use rust_fragments::FragmentKind;
use rust_items::Span;
use rust_lexer::{Token, TokenKind};
use rust_trees::Trees;
use std::alloc::Global;

/// A repetition that is being written: its rounds left, and the first of what it goes through.
#[derive(Clone, Copy)]
pub(crate) struct Writing {
    pub(crate) left: u32,
    pub(crate) drivers: Option<usize>,
}

/// What is being written.
#[derive(Drop)]
pub(crate) struct Writer<'a> {
    pub(crate) rules: &'a Rules,
    call: &'a [Token],
    partners: &'a [u32],
    pub(crate) bindings: Bindings,
    pub(crate) open: Vec<Writing>,
    out: Vec<Origin>,
    /// The most tokens that may be written, and how much may be done for it yet.
    limit: usize,
    work: usize,
}

/// Whether a fragment of some kind is put into parentheses, where it has several trees. It is one
/// tree afterwards, and items are named alike.
fn is_enclosed(kind: FragmentKind) -> bool {
    matches!(
        kind,
        FragmentKind::Expression
            | FragmentKind::Pattern
            | FragmentKind::PatternParameter
            | FragmentKind::Type
    )
}

/// The stop of an expansion that is too long.
fn too_long() -> Stop {
    Stop::At(MacroFault::TooLong, None)
}

impl<'a> Writer<'a> {
    /// What writes for a call.
    pub(crate) fn new(
        alloc: Global,
        rules: &'a Rules,
        arguments: &'a Trees,
        bindings: Bindings,
        limit: usize,
    ) -> Writer<'a> {
        Writer {
            rules,
            call: arguments.tokens(),
            partners: arguments.partners(),
            bindings,
            open: Vec::new(alloc),
            out: Vec::new(alloc),
            limit,
            work: limit.saturating_add(arguments.len()).saturating_mul(16),
        }
    }

    /// Counts a step of the work.
    pub(crate) fn spend(&mut self) -> Result<(), Stop> {
        if self.work == 0 {
            return Err(too_long());
        }
        self.work = self.work.saturating_sub(1);
        Ok(())
    }

    /// Writes what is of some origin.
    pub(crate) fn push(&mut self, origin: Origin) -> Result<(), Stop> {
        if self.out.len() >= self.limit {
            return Err(too_long());
        }
        self.out.push(origin)?;
        Ok(())
    }

    /// Writes the tokens of the call at some places. What is behind the last does not follow it here.
    fn write_places(&mut self, places: Span) -> Result<(), Stop> {
        for place in places.from..places.to {
            let is_followed = place.saturating_add(1) < places.to;
            self.push(Origin::Call {
                place: place as usize,
                is_followed,
            })?;
        }
        Ok(())
    }

    /// Whether there are several trees at some places.
    fn is_several(&self, places: Span) -> bool {
        let from = places.from as usize;
        let partner = match self.partners.get(from) {
            Some(partner) => *partner as usize,
            None => from,
        };
        partner.max(from).saturating_add(1) < places.to as usize
    }

    /// Whether a path of names alone stands at some places.
    fn is_path(&self, places: Span) -> bool {
        let Some(tokens) = self.call.get(places.from as usize..places.to as usize) else {
            return false;
        };
        tokens.iter().all(|token| {
            token.is_name() || token.is_mark(b':') || token.kind == TokenKind::DollarCrate
        })
    }

    /// Writes what a variable is bound to in the current round.
    fn write_variable(
        &mut self,
        variable: u32,
        repetition: Option<u32>,
        kind: FragmentKind,
    ) -> Result<(), Stop> {
        let Some(places) = self.bindings.value(variable, repetition) else {
            return Ok(());
        };
        let encloses = is_enclosed(kind)
            && self.is_several(places)
            && !(kind == FragmentKind::Type && self.is_path(places));
        if !encloses {
            return self.write_places(places);
        }
        self.push(Origin::Open(places.from as usize))?;
        self.write_places(places)?;
        self.push(Origin::Close(places.from as usize))
    }

    /// Writes a piece, and answers the next one.
    fn write_piece(&mut self, at: usize, piece: Piece) -> Result<usize, Stop> {
        match piece {
            Piece::Token(number) => self.push(Origin::Template(number))?,
            Piece::Variable {
                variable,
                repetition,
                kind,
            } => self.write_variable(variable, repetition, kind)?,
            Piece::Begin { after, drivers } => return self.begin(at, after, drivers),
            Piece::End { begin, separator } => return self.end_round(at, begin, separator),
            Piece::Fault(fault) => return Err(Stop::At(fault, None)),
        }
        Ok(at.saturating_add(1))
    }

    /// Writes the template of a rule.
    pub(crate) fn write(&mut self, rule: Rule) -> Result<(), Stop> {
        let mut at = rule.pieces.from as usize;
        for _ in 0..=self.work {
            if at >= rule.pieces.to as usize {
                return Ok(());
            }
            let Some(piece) = self.rules.pieces.get(at).copied() else {
                return Ok(());
            };
            self.spend()?;
            at = self.write_piece(at, piece)?;
        }
        Err(too_long())
    }

    /// What has been written.
    pub(crate) fn written(self) -> Vec<Origin> {
        let Writer { out, .. } = self;
        out
    }
}
