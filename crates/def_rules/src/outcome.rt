//! What a run answers, and what it leaves over.

use def_bindings::Visibility;
use def_ids::{Def, GlobId, ModuleId};
use item_tree::{AttrId, FileAstId, InFile, ModPath};

/// An import that no pass could resolve: where it is written, its number in its `use` item, and its
/// path.
#[derive(Debug, Drop)]
pub struct LeftImport {
    pub module: ModuleId,
    pub ast_id: InFile<FileAstId>,
    pub idx: u32,
    pub path: ModPath,
}

/// How a macro that is left over is called.
#[derive(Clone, Copy, PartialEq, Eq, Debug)]
pub enum LeftMacroKind {
    Fn,
    /// A derive: its attribute, and its place in the attribute's list.
    Derive(AttrId, usize),
    Attr(AttrId),
}

/// A macro call, a derive or an attribute that no pass could expand.
#[derive(Debug, Drop)]
pub struct LeftMacro {
    pub module: ModuleId,
    pub ast_id: InFile<FileAstId>,
    pub kind: LeftMacroKind,
    pub path: ModPath,
    pub depth: u32,
}

/// The edge of a recorded glob: names of `source` travel to `importer` with this visibility.
#[derive(Clone, Copy, PartialEq, Eq, Debug)]
pub struct Edge {
    pub source: ModuleId,
    pub importer: ModuleId,
    pub vis: Visibility,
    pub glob: GlobId,
}

/// How a run ended: whether it met the limit of rounds, the imports and macros that are left over
/// in order, the edges of globs, and what each glob was recorded with.
#[derive(Drop)]
pub struct Outcome {
    pub limit_met: bool,
    pub imports: Vec<LeftImport>,
    pub macros: Vec<LeftMacro>,
    pub edges: Vec<Edge>,
    pub targets: Vec<(GlobId, Vec<Def>)>,
}
