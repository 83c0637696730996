//! The rules of a macro as they are kept: patterns and templates as flat lists.

use rust_fragments::FragmentKind;
use rust_items::Span;
use rust_lexer::Token;
use std::alloc::Global;

/// How often a repetition may be gone through.
#[derive(Clone, Copy, PartialEq, Eq)]
pub(crate) enum Repeats {
    Any,
    AtLeastOnce,
    AtMostOnce,
}

/// A step of a pattern. Steps are numbered among those of all rules, and the repetitions and the
/// variables of each rule from zero on.
#[derive(Clone, Copy)]
pub(crate) enum Step {
    /// A token, and how many tokens the operator that it begins has; zero where it goes on with one.
    Token {
        token: Token,
        operator: usize,
    },
    Fragment {
        variable: u32,
        kind: FragmentKind,
    },
    /// A repetition begins, which ends before a step.
    Begin {
        repetition: u32,
        repeats: Repeats,
        after: usize,
    },
    /// A repetition without a separator ends, or is gone through again.
    End {
        repetition: u32,
        repeats: Repeats,
        begin: usize,
    },
    /// A repetition ends, or goes on with the separator that begins with this token.
    Separator {
        token: Token,
        operator: usize,
        after: usize,
    },
    /// The separator has been passed.
    Again {
        repetition: u32,
        begin: usize,
    },
    Finish,
}

/// A piece of a template.
#[derive(Clone, Copy)]
pub(crate) enum Piece {
    /// A token, by its number in the table.
    Token(usize),
    /// A variable that is bound once in each round of a repetition.
    Variable {
        variable: u32,
        repetition: Option<u32>,
        kind: FragmentKind,
    },
    /// A repetition begins, which ends before a piece, and the first of what it goes through.
    Begin {
        after: usize,
        drivers: Option<usize>,
    },
    /// A repetition ends. So many pieces behind this one are its separator.
    End {
        begin: usize,
        separator: usize,
    },
    /// What is at fault wherever it is written.
    Fault(crate::fault::MacroFault),
}

/// A repetition of the pattern that a repetition of the template goes through, the repetition
/// around it in the pattern, and the next such one.
#[derive(Clone, Copy)]
pub(crate) struct Driver {
    pub(crate) repetition: u32,
    pub(crate) outer: Option<u32>,
    pub(crate) next: Option<usize>,
}

/// A rule.
#[derive(Clone, Copy)]
pub(crate) struct Rule {
    /// The first step of its pattern.
    pub(crate) step: usize,
    /// The pieces of its template.
    pub(crate) pieces: Span,
    pub(crate) repetitions: usize,
    pub(crate) variables: usize,
}

/// The rules of a macro.
#[derive(Drop)]
pub struct Rules {
    pub(crate) rules: Vec<Rule>,
    pub(crate) steps: Vec<Step>,
    pub(crate) pieces: Vec<Piece>,
    pub(crate) drivers: Vec<Driver>,
    /// The tokens of the templates.
    pub(crate) tokens: Vec<Token>,
}

impl Rules {
    /// No rules yet.
    pub(crate) fn new(alloc: Global) -> Rules {
        Rules {
            rules: Vec::new(alloc),
            steps: Vec::new(alloc),
            pieces: Vec::new(alloc),
            drivers: Vec::new(alloc),
            tokens: Vec::new(alloc),
        }
    }
}

/// A number as it is kept.
pub(crate) fn kept(number: usize) -> u32 {
    if number < 0xffff_ffff {
        number as u32
    } else {
        0xffff_ffff
    }
}
