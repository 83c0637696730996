//! The tokens of a Rust source file, as spans of its text.
#![tactic(auto)]

mod chars;
mod comments;
mod fault;
mod literals;
mod numbers;
mod pieces;
mod scan;
mod sources;
mod token;

pub use fault::{LexError, LexFault, Place, place_of};
pub use scan::tokenize;
pub use sources::Sources;
pub use token::{SourceId, Token, TokenKind};
