//! The fragments that patterns of macros name: what each may begin with, and where it ends.
#![tactic(auto)]

mod begins;
mod cursor;
mod expressions;
mod fragment;
mod kind;
mod operators;
mod patterns;
mod statements;
mod types;
mod words;

pub use fragment::{fragment_end, may_begin};
pub use kind::{FragmentKind, fragment_kind};
pub use operators::operator_length;
