//! Scripted workspaces: the reader of the texts of their files, which are the Rust text of their items,
//! and rows, which are texts that have a line for each setting of a workspace and a section for each of
//! its files and calls, beside the lines that are shown of it; and the workspaces that have a name.
#![tactic(auto)]

mod assoc;
mod attributes;
mod calls;
mod copies;
mod fault;
mod fixture;
mod imports;
mod items;
mod kinds;
mod named;
mod parts;
mod paths;
mod pieces;
mod reader;
mod sections;
mod settings;
mod texts;
mod tokens;
mod trees;
mod variants;
mod words;

pub use assoc::ReadAssoc;
pub use copies::{copy_of, list_of};
pub use fault::{FixtureFault, ReadFault};
pub use fixture::{
    AskText, Asked, BlockText, BuiltText, BuiltinAttrText, BuiltinDeriveText, BuiltinMacroText,
    BuiltinText, CallText, CalledBy, ChainText, CrateText, DependencyText, FileText, Fixture,
    InnerText, ProgramText, StyleText, Unknown,
};
pub use items::{ReadEnum, ReadFile};
pub use named::{find, vectors};
pub use parts::{Part, rows_in};
pub use sections::read_row;
pub use trees::read;
pub use variants::ReadVariant;
