//! What is handed in: the questions on files, crates and macros, and their answers.
#![tactic(auto)]

mod source_database;

pub use source_database::{
    AssocItem, AssocItemKind, AssocItemsOwner, AssocList, AttrCallQuery, CallAnswer, CallQuery,
    CrateData, Dependency, DeriveCallQuery, EnumVariant, LangCrate, UnresolvedMacro,
};
