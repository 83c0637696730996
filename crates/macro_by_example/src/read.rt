//! From the tokens of a macro's definition to its rules.

use crate::fault::{MacroError, MacroFault, Stop};
use crate::rules::{Repeats, Rule, Rules, kept};
use indexmap::IndexMap;
use rust_fragments::{FragmentKind, operator_length};
use rust_items::Span;
use rust_lexer::{Sources, Token, TokenKind};
use rust_trees::Trees;
use std::alloc::{AllocError, Global};

/// How a macro is defined.
#[derive(Clone, Copy, PartialEq, Eq, Debug)]
pub enum MacroKind {
    /// `macro_rules! m { (..) => {..}; .. }`
    Rules,
    /// `macro m(..) {..}` or `macro m { (..) => {..}, .. }`
    Two,
}

/// A repetition of the pattern that is being read.
#[derive(Clone, Copy)]
pub(crate) struct Repetition {
    /// The repetition around it.
    pub(crate) outer: Option<u32>,
    /// The repetition of the template that is known to go through it: the piece that begins it.
    pub(crate) driving: Option<usize>,
}

/// A variable of the pattern that is being read.
#[derive(Clone, Copy)]
pub(crate) struct Variable {
    pub(crate) number: u32,
    pub(crate) kind: FragmentKind,
    /// The innermost repetition around it, and how many there are.
    pub(crate) repetition: Option<u32>,
    pub(crate) depth: usize,
}

/// A place among the tokens of a definition, before the end of the innermost open group, and the
/// rules so far.
#[derive(Drop)]
pub(crate) struct RulesReader<'a> {
    pub(crate) alloc: Global,
    pub(crate) sources: &'a Sources,
    pub(crate) trees: &'a Trees,
    pub(crate) at: usize,
    pub(crate) end: usize,
    pub(crate) rules: Rules,
    /// The repetitions and the variables of the rule that is being read.
    pub(crate) repetitions: Vec<Repetition>,
    pub(crate) names: IndexMap<String, Variable>,
}

/// Whether a token opens a group.
fn opens(token: Option<Token>) -> bool {
    token.is_some_and(|token| {
        matches!(
            token.kind,
            TokenKind::OpenParen | TokenKind::OpenBracket | TokenKind::OpenBrace
        )
    })
}

/// How often a repetition may be gone through whose operator is a token.
fn repeats_of(token: Option<Token>) -> Option<Repeats> {
    match token?.kind {
        TokenKind::Mark(b'*') => Some(Repeats::Any),
        TokenKind::Mark(b'+') => Some(Repeats::AtLeastOnce),
        TokenKind::Mark(b'?') => Some(Repeats::AtMostOnce),
        _ => None,
    }
}

impl<'a> RulesReader<'a> {
    /// The token so many places on, before the end.
    pub(crate) fn token(&self, further: usize) -> Option<Token> {
        let place = self.at.saturating_add(further);
        if place < self.end {
            self.trees.get(place)
        } else {
            None
        }
    }

    /// Whether this mark stands so many places on.
    pub(crate) fn is_mark(&self, further: usize, mark: u8) -> bool {
        self.token(further).is_some_and(|token| token.is_mark(mark))
    }

    /// Goes over so many tokens.
    pub(crate) fn skip(&mut self, count: usize) {
        self.at = self.at.saturating_add(count);
    }

    /// Goes to what stands within a group.
    pub(crate) fn enter(&mut self, group: usize) {
        self.at = group.saturating_add(1);
        self.end = self.trees.partner(group);
    }

    /// Stops at a place.
    pub(crate) fn fail<T>(&self, fault: MacroFault, at: usize) -> Result<T, Stop> {
        Err(Stop::At(fault, self.trees.get(at)))
    }

    /// How many tokens the separator has behind the repetition whose parentheses end here, and how
    /// often it may be gone through; what is around it ends at a place.
    pub(crate) fn repeats(&self, outer_end: usize) -> Result<(usize, Repeats), Stop> {
        let at = self.end.saturating_add(1);
        if at < outer_end {
            if let Some(repeats) = repeats_of(self.trees.get(at)) {
                return Ok((0, repeats));
            }
            let length = operator_length(self.trees.tokens(), at);
            let behind = at.saturating_add(length);
            if behind < outer_end && !opens(self.trees.get(at)) {
                if let Some(repeats) = repeats_of(self.trees.get(behind)) {
                    return Ok((length, repeats));
                }
            }
        }
        self.fail(MacroFault::WantedRepetition, self.end)
    }

    /// Takes the rule whose pattern and template are two groups.
    fn rule(&mut self, left: usize, right: usize) -> Result<(), Stop> {
        let step = self.rules.steps.len();
        let piece = self.rules.pieces.len();
        self.repetitions.clear();
        self.names = IndexMap::new(self.alloc);
        self.enter(left);
        self.pattern()?;
        self.enter(right);
        self.template()?;
        self.rules.rules.push(Rule {
            step,
            pieces: Span {
                from: kept(piece),
                to: kept(self.rules.pieces.len()),
            },
            repetitions: self.repetitions.len(),
            variables: self.names.len(),
        })?;
        Ok(())
    }

    /// Takes the rule that begins at a place, before an end, and answers the place behind it.
    fn arrow_rule(&mut self, left: usize, end: usize) -> Result<usize, Stop> {
        let arrow = self.trees.after(left);
        let right = arrow.saturating_add(2);
        let is_arrow = self
            .trees
            .get(arrow)
            .is_some_and(|token| token.is_mark(b'='))
            && self
                .trees
                .get(arrow.saturating_add(1))
                .is_some_and(|token| token.is_mark(b'>'));
        if !opens(self.trees.get(left)) || !is_arrow || !opens(self.trees.get(right)) {
            return self.fail(MacroFault::WantedRule, left);
        }
        self.rule(left, right)?;
        let behind = self.trees.after(right);
        if behind >= end {
            return Ok(behind);
        }
        match self.trees.get(behind) {
            Some(token) if token.is_mark(b';') || token.is_mark(b',') => {
                Ok(behind.saturating_add(1))
            }
            _ => self.fail(MacroFault::WantedRule, behind),
        }
    }

    /// Takes the rules of a definition whose first delimiter opens at a place.
    fn definition(&mut self, body: usize, kind: MacroKind) -> Result<(), Stop> {
        let opener = self.trees.get(body).map(|token| token.kind);
        if kind == MacroKind::Two && opener == Some(TokenKind::OpenParen) {
            let right = self.trees.after(body);
            if !opens(self.trees.get(right)) {
                return self.fail(MacroFault::WantedRule, right);
            }
            return self.rule(body, right);
        }
        let end = self.trees.partner(body);
        let mut at = body.saturating_add(1);
        // Each turn goes on by a token at least.
        for _ in body..end {
            if at >= end {
                break;
            }
            at = self.arrow_rule(at, end)?;
        }
        Ok(())
    }
}

/// The rules of a macro whose first delimiter opens at a place. What is at fault in a template
/// alone is a fault of the calls that come to it.
pub fn read_rules<'a>(
    alloc: Global,
    sources: &'a Sources,
    trees: &'a Trees,
    body: u32,
    kind: MacroKind,
) -> Result<Result<Rules, MacroError>, AllocError> {
    let mut reader = RulesReader {
        alloc,
        sources,
        trees,
        at: 0,
        end: 0,
        rules: Rules::new(alloc),
        repetitions: Vec::new(alloc),
        names: IndexMap::new(alloc),
    };
    match reader.definition(body as usize, kind) {
        Ok(()) => {
            let RulesReader { rules, .. } = reader;
            Ok(Ok(rules))
        }
        Err(stop) => Ok(Err(stop.told(sources)?)),
    }
}
