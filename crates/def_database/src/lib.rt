//! An oracle that is ready to be filled: a database whose answers are written down.
#![tactic(auto)]

mod by_macro;
mod database;
mod filling;

pub use by_macro::ByMacro;
pub use database::{
    AssocKey, Builtins, Calls, CfgFlag, Crates, Database, DeriveCallKey, DerivePlace, Files, Types,
};
