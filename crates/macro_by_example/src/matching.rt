//! Matching: all ways through a pattern are gone at once, a token at a time.

use crate::fault::{MacroFault, Stop};
use crate::rules::Rules;
use rust_fragments::{FragmentKind, operator_length};
use rust_items::Span;
use rust_lexer::{Sources, Token, TokenKind};
use rust_trees::Trees;
use std::alloc::{AllocError, Global};

/// What happens on a way through a pattern.
#[derive(Clone, Copy)]
pub(crate) enum Event {
    /// A repetition is come to.
    Enter(u32),
    /// It is gone through once more.
    Round(u32),
    /// A variable is bound to the tokens at some places.
    Bind(u32, Span),
}

/// An event, and the one before it on the same way.
#[derive(Clone, Copy)]
pub(crate) struct Link {
    event: Event,
    before: Option<usize>,
}

/// A way so far: the next step, and its last event.
#[derive(Clone, Copy)]
pub(crate) struct Way {
    pub(crate) step: usize,
    pub(crate) last: Option<usize>,
}

/// A way that goes on with a fragment.
#[derive(Clone, Copy)]
pub(crate) struct Waiting {
    pub(crate) way: Way,
    pub(crate) variable: u32,
    pub(crate) kind: FragmentKind,
}

/// What a way has come to that ends a pattern.
#[derive(Clone, Copy)]
pub(crate) struct Finish {
    pub(crate) last: Option<usize>,
}

/// A call, and the ways through the patterns of a macro.
#[derive(Drop)]
pub(crate) struct Matching<'a> {
    pub(crate) alloc: Global,
    pub(crate) sources: &'a Sources,
    pub(crate) arguments: &'a Trees,
    pub(crate) rules: &'a Rules,
    /// The end of the call's tokens.
    pub(crate) end: usize,
    pub(crate) links: Vec<Link>,
    pub(crate) now: Vec<Way>,
    /// Those that take the token here.
    pub(crate) next: Vec<Way>,
    pub(crate) waiting: Vec<Waiting>,
    pub(crate) finished: Option<Finish>,
    /// For each step one more than the place at which it was last come to.
    pub(crate) seen: Vec<u32>,
    /// How many steps may be gone yet, in all rules.
    pub(crate) work: usize,
    /// The last place that a rule came to.
    pub(crate) furthest: usize,
}

/// How many steps may be gone for so many tokens and steps.
fn work_for(tokens: usize, steps: usize) -> usize {
    tokens
        .saturating_add(steps)
        .saturating_mul(256)
        .saturating_add(0x40_0000)
}

impl<'a> Matching<'a> {
    /// A call with the tokens at some places, and no ways yet.
    pub(crate) fn new(
        alloc: Global,
        sources: &'a Sources,
        rules: &'a Rules,
        arguments: &'a Trees,
        within: Span,
    ) -> Result<Matching<'a>, AllocError> {
        let end = (within.to as usize).min(arguments.len());
        let tokens = end.saturating_sub(within.from as usize);
        Ok(Matching {
            alloc,
            sources,
            arguments,
            rules,
            end,
            links: Vec::new(alloc),
            now: Vec::new(alloc),
            next: Vec::new(alloc),
            waiting: Vec::new(alloc),
            finished: None,
            seen: vec![in alloc; 0u32; rules.steps.len()]?,
            work: work_for(tokens, rules.steps.len()),
            furthest: 0,
        })
    }

    /// Stops at a place of the call.
    pub(crate) fn fail<T>(&self, fault: MacroFault, at: usize) -> Result<T, Stop> {
        Err(Stop::At(fault, self.arguments.get(at)))
    }

    /// Stops where no rule went on.
    pub(crate) fn no_rule<T>(&self) -> Result<T, Stop> {
        self.fail(MacroFault::NoRule, self.furthest)
    }

    /// Notes an event on a way.
    pub(crate) fn note(
        &mut self,
        last: Option<usize>,
        event: Event,
    ) -> Result<Option<usize>, Stop> {
        let number = self.links.len();
        self.links.push(Link {
            event,
            before: last,
        })?;
        Ok(Some(number))
    }

    /// Goes on with a step, without a token.
    pub(crate) fn go(&mut self, step: usize, last: Option<usize>) -> Result<(), Stop> {
        self.now.push(Way { step, last })?;
        Ok(())
    }

    /// Goes on with a step behind the token here.
    pub(crate) fn go_over(&mut self, way: Way) -> Result<(), Stop> {
        self.next.push(Way {
            step: way.step.saturating_add(1),
            last: way.last,
        })?;
        Ok(())
    }

    /// Goes through a repetition once more.
    pub(crate) fn again(
        &mut self,
        repetition: u32,
        begin: usize,
        last: Option<usize>,
    ) -> Result<(), Stop> {
        let begun = self.note(last, Event::Round(repetition))?;
        self.go(begin.saturating_add(1), begun)
    }

    /// Whether a pattern's token, which begins an operator of so many tokens, is the one at a place.
    pub(crate) fn is_same(&self, wanted: Token, operator: usize, at: usize) -> bool {
        if at >= self.end {
            return false;
        }
        let Some(token) = self.arguments.get(at) else {
            return false;
        };
        match wanted.kind {
            TokenKind::Mark(_) => {
                token.kind == wanted.kind
                    && (operator == 0 || operator_length(self.arguments.tokens(), at) == operator)
            }
            TokenKind::Identifier | TokenKind::DocName => {
                matches!(token.kind, TokenKind::Identifier | TokenKind::DocName)
                    && self.sources.text_of(token) == self.sources.text_of(wanted)
            }
            // Those of documentation have no text.
            TokenKind::OpenParen
            | TokenKind::OpenBracket
            | TokenKind::OpenBrace
            | TokenKind::CloseParen
            | TokenKind::CloseBracket
            | TokenKind::CloseBrace => token.kind == wanted.kind,
            _ => {
                token.kind == wanted.kind
                    && self.sources.text_of(token) == self.sources.text_of(wanted)
            }
        }
    }

    /// The events of a way, first to last.
    pub(crate) fn events(&self, finish: Finish) -> Result<Vec<Event>, Stop> {
        let mut events = Vec::new(self.alloc);
        let mut at = finish.last;
        // Each link leads to an earlier one.
        for _ in 0..self.links.len() {
            let Some(link) = at.and_then(|number| self.links.get(number)) else {
                break;
            };
            events.push(link.event)?;
            at = link.before;
        }
        events.reverse();
        Ok(events)
    }
}
