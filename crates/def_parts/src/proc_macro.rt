//! Declarations of procedural macros.
mod readers;

use item_tree::Name;
pub use readers::{
    parse_macro_name_and_helper_attrs, parse_proc_macro_decl, parse_proc_macro_derive,
};

/// A procedural macro that a function declares.
#[derive(Debug, PartialEq, Eq, Drop)]
pub struct ProcMacroDef {
    pub name: Name,
    pub kind: ProcMacroKind,
}

/// How a procedural macro is called.
#[derive(Debug, PartialEq, Eq, Drop)]
pub enum ProcMacroKind {
    /// By `derive`, with the attributes that it helps itself to.
    Derive { helpers: Vec<Name> },
    /// As a macro call.
    Bang,
    /// As an attribute.
    Attr,
}
