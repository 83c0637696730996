//! Copies, each of which is to be equal to what it is a copy of.

use def_assoc::{AssocItemId, TraitItems};
use def_ids::{FunctionId, MapId, ModuleId};
use def_parts::ModDir;
use def_rules::{DefDiagnostic, DefDiagnosticKind, LeftMacroKind};
use item_tree::{
    Crate, FileAstId, FileId, HirFileId, InFile, Leaf, MacroCallId, ModPath, Name, PathKind,
    RawVisibility, Seq, Text, TopSubtreeBuilder,
};
use std::alloc::{AllocError, Global};

/// An item of a file.
const POSITION: InFile<FileAstId> = InFile {
    file: HirFileId::File(FileId(0)),
    value: FileAstId(0),
};

/// The root of a map.
const ROOT: ModuleId = ModuleId {
    map: MapId {
        krate: Crate(0),
        block: None,
    },
    index: 0,
};

/// Copies a value, and answers whether the copy is equal.
fn is_copied<T: Clone + PartialEq + Drop>(value: T) -> Result<bool, AllocError> {
    let copy = value.clone()?;
    Ok(copy == value)
}

/// A path of one name.
pub fn path_of(alloc: Global, name: Name) -> Result<ModPath, AllocError> {
    Ok(ModPath {
        kind: PathKind::Plain,
        segments: Seq::from_vec(vec![in alloc; name]?),
    })
}

fn text(alloc: Global) -> Result<Text, AllocError> {
    Text::from_str(alloc, "a text")
}

/// Whether token trees are copied.
fn tokens(alloc: Global) -> Result<bool, AllocError> {
    let mut trees = TopSubtreeBuilder::new(alloc);
    trees.open()?;
    trees.push(Leaf::Literal(text(alloc)?))?;
    let _ = trees.close()?;
    match trees.build() {
        Some(trees) => is_copied(trees),
        None => Ok(false),
    }
}

/// Whether a diagnostic is copied.
fn diagnostic(kind: DefDiagnosticKind) -> Result<bool, AllocError> {
    is_copied(DefDiagnostic {
        module: ROOT,
        ast_id: POSITION,
        kind,
    })
}

/// Whether a diagnostic of a file that was not found is copied.
fn no_file(alloc: Global) -> Result<bool, AllocError> {
    let candidates = Seq::from_vec(vec![in alloc; text(alloc)?]?);
    diagnostic(DefDiagnosticKind::UnresolvedModule { candidates })
}

/// Whether a diagnostic of a macro that was not found is copied.
fn no_macro(alloc: Global) -> Result<bool, AllocError> {
    let (kind, path) = (LeftMacroKind::Fn, path_of(alloc, Name(0))?);
    diagnostic(DefDiagnosticKind::UnresolvedMacroCall { kind, path })
}

/// Whether the items of a trait are copied.
fn trait_items(alloc: Global) -> Result<bool, AllocError> {
    let items = vec![in alloc; (Name(0), AssocItemId::Function(FunctionId(0)))]?;
    let macro_calls = vec![in alloc; (POSITION, MacroCallId(0))]?;
    let items = TraitItems { items, macro_calls };
    let copy = items.clone()?;
    Ok(copy == items)
}

/// Whether a directory and its path are copied.
fn directory(alloc: Global) -> Result<bool, AllocError> {
    let Some(dir) = ModDir::root(alloc).descend_into_definition("a", None)? else {
        return Ok(false);
    };
    let (copy, path) = (dir.clone()?, dir.dir_path().clone()?);
    let text = dir.dir_path().as_str();
    Ok(copy.dir_path().as_str() == text && path.as_str() == text && copy.depth() == dir.depth())
}

/// Copies what has a number, and answers whether the copy is equal.
pub fn copy(alloc: Global, number: usize) -> Result<bool, AllocError> {
    match number {
        0 => is_copied(path_of(alloc, Name(0))?),
        1 => is_copied(RawVisibility::In(path_of(alloc, Name(0))?)),
        2 => is_copied(Seq::from_vec(vec![in alloc; Name(0)]?)),
        3 => is_copied(text(alloc)?),
        4 => is_copied(Leaf::Literal(text(alloc)?)),
        5 => tokens(alloc),
        6 => no_file(alloc),
        7 => no_macro(alloc),
        8 => trait_items(alloc),
        _ => directory(alloc),
    }
}
