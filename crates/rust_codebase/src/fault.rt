//! What is wrong with sources, and where.

use macro_by_example::MacroFault;
use rust_item_trees::LowerFault;
use rust_items::ItemFault;
use rust_lexer::{LexFault, Place};
use rust_trees::TreeFault;
use std::fmt;

/// Where a fault is: at a place of a text, or in a file that has no text.
#[derive(Debug, Drop)]
pub enum FaultPlace {
    At(Place),
    Path(String),
}

/// What is wrong.
#[derive(Clone, Copy, PartialEq, Eq, Debug)]
pub enum FaultKind {
    /// The file is not there.
    NoFile,
    NotUtf8,
    /// No more texts can be taken.
    TooManyTexts,
    Lex(LexFault),
    Tree(TreeFault),
    Item(ItemFault),
    Lower(LowerFault),
    /// A macro by rules, or a call of it. The place of a call is that of the outermost one.
    Macro(MacroFault),
    /// What a macro gives has a delimiter without partner.
    GivenTree(TreeFault),
    /// What a macro gives is no items.
    GivenItem(ItemFault),
    /// The expansions of a crate have too many tokens.
    TooLongExpansions,
    /// Expansions nest too deep.
    TooManyRounds,
    /// A module whose file is one that the module lies in.
    CircularModule,
}

/// Something that is wrong with a source, and where.
#[derive(Debug, Drop)]
pub struct Fault {
    pub place: FaultPlace,
    pub kind: FaultKind,
}

impl fmt::Display for FaultKind {
    fn fmt<W: fmt::Write>(&self, f: &mut fmt::Formatter<W>) -> fmt::Result {
        match self {
            FaultKind::NoFile => write!(f, "there is no such file"),
            FaultKind::NotUtf8 => write!(f, "the file is not UTF-8"),
            FaultKind::TooManyTexts => write!(f, "there are too many files"),
            FaultKind::Lex(fault) => write!(f, "{fault}"),
            FaultKind::Tree(fault) => write!(f, "{fault}"),
            FaultKind::Item(fault) => write!(f, "{fault}"),
            FaultKind::Lower(fault) => write!(f, "{fault}"),
            FaultKind::Macro(fault) => write!(f, "{fault}"),
            FaultKind::GivenTree(fault) => write!(f, "in what this macro gives: {fault}"),
            FaultKind::GivenItem(fault) => write!(f, "in what this macro gives: {fault}"),
            FaultKind::TooLongExpansions => write!(f, "macros give too many tokens"),
            FaultKind::TooManyRounds => write!(f, "macros give further calls without end"),
            FaultKind::CircularModule => write!(f, "this module lies in its own file"),
        }
    }
}
