//! An oracle of one's own, as a program outside writes it: a crate of one file with a macro and a
//! trait, one of whose items the macro writes. `hir_def` is all that it stands on.
#![tactic(auto)]

mod one_trait;
mod query;

pub use query::methods;
