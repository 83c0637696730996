//! Files and expansions as they were read, and crates as they were collected.

use def_rules::{DefDiagnostics, Outcome};
use item_tree::{Crate, FileAstId, InFile};
use rust_items::ItemList;
use rust_lexer::SourceId;
use rust_trees::Trees;

/// A source file of a crate.
#[derive(Drop)]
pub struct SourceFile {
    pub path: String,
    pub source: SourceId,
    pub krate: Crate,
}

/// A file, or the expansion of a call, as it was read.
#[derive(Drop)]
pub struct ReadFile {
    pub trees: Trees,
    pub list: ItemList,
    /// The call that it is the expansion of.
    pub call: Option<InFile<FileAstId>>,
    /// How deep in expansions it lies.
    pub depth: u32,
}

/// A crate that was collected. Its maps are in the oracle's database.
#[derive(Drop)]
pub struct CollectedCrate {
    pub name: String,
    pub krate: Crate,
    pub outcome: Outcome,
    pub diagnostics: DefDiagnostics,
    /// How many times it was collected, until no further call came up.
    pub rounds: usize,
    /// How many calls of macros were expanded.
    pub expanded: usize,
}
