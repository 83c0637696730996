//! Walks over item trees: the modules that lie in other files, the places of macro calls, and the
//! definitions of macros.

use crate::calls::{CallAhead, CallSite, CallTable, kept, name_definition};
use crate::directories::{descend, give_directory};
use crate::reading::Reading;
use crate::workspace::Workspace;
use def_interner::Interner;
use indexmap::IndexMap;
use item_tree::{
    FileAstId, HirFileId, InFile, ItemNode, ModContents, ModItemKind, ModPath, Name, TreeId,
};
use rust_oracle::{CallNumber, CalledMacro, Oracle};
use std::alloc::{AllocError, Global};

/// A module whose items are those of a file of its own.
#[derive(Drop)]
pub(crate) struct Outline {
    pub(crate) item: FileAstId,
    pub(crate) name: String,
    /// The text of its `#[path]`.
    pub(crate) path: Option<String>,
    /// The number of the directory of the module in which it is declared.
    pub(crate) directory: u32,
}

/// A module in a file of its own, as it is declared.
fn declared_in_file(
    alloc: Global,
    name: &str,
    node: &ItemNode,
    directory: u32,
) -> Result<Outline, AllocError> {
    let path = match node.path_attr() {
        Some(path) => Some(String::from_str(alloc, path)?),
        None => None,
    };
    Ok(Outline {
        item: node.ast_id,
        name: String::from_str(alloc, name)?,
        path,
        directory,
    })
}

/// A tree that is walked.
#[derive(Drop)]
struct Walk {
    alloc: Global,
    file: HirFileId,
    /// The directory of each item that is compiled.
    directories: Vec<Option<u32>>,
    /// The last definition of each name of a macro so far.
    above: IndexMap<Name, u32>,
    outlines: Vec<Outline>,
}

impl Walk {
    /// The position of an item.
    fn position(&self, node: &ItemNode) -> InFile<FileAstId> {
        InFile {
            file: self.file,
            value: node.ast_id,
        }
    }

    /// Takes a module: its items, or that it is in a file of its own.
    fn take_module(
        &mut self,
        calls: &mut CallTable,
        name: &str,
        node: &ItemNode,
        contents: &ModContents,
        directory: u32,
    ) -> Result<(), AllocError> {
        match contents {
            ModContents::Outline => {
                let declared = declared_in_file(self.alloc, name, node, directory)?;
                self.outlines.push(declared)?;
            }
            ModContents::Inline(items) => {
                if let Some(inner) = descend(calls, directory, name, node)? {
                    let directories = self.directories.as_mut_slice();
                    give_directory(directories, items.as_slice(), inner);
                }
            }
        }
        Ok(())
    }

    /// Takes a macro's definition.
    fn take_definition(
        &mut self,
        calls: &mut CallTable,
        reading: &mut Reading,
        name: Name,
        node: &ItemNode,
    ) -> Result<(), AllocError> {
        let (number, _) = calls.definitions.insert_full(self.position(node))?;
        let number = kept(number);
        self.above.insert(name, number)?;
        name_definition(&mut reading.named, name, Some(number))
    }

    /// Takes a call: gives it a number, if it has none yet.
    fn take_call(
        &mut self,
        calls: &mut CallTable,
        places: &mut IndexMap<InFile<FileAstId>, u32>,
        reading: &mut Reading,
        path: &ModPath,
        node: &ItemNode,
        directory: u32,
    ) -> Result<(), AllocError> {
        let position = self.position(node);
        if places.contains_key(&position) {
            return Ok(());
        }
        let place = kept(calls.sites.len());
        places.insert(position, place)?;
        calls.sites.push(CallSite {
            position,
            directory,
        })?;
        if let Some(name) = path.segments.as_slice().last() {
            let above = self.above.get(name).copied();
            reading.ahead.push(CallAhead {
                place,
                name: *name,
                above,
            })?;
        }
        Ok(())
    }
}

/// Takes an item that is no call, and is compiled, in a directory.
fn take_item(
    walk: &mut Walk,
    session: &Interner,
    calls: &mut CallTable,
    reading: &mut Reading,
    node: &ItemNode,
    directory: u32,
) -> Result<(), AllocError> {
    match &node.kind {
        ModItemKind::Mod { name, contents, .. } => {
            let name = session.text(*name).unwrap_or("");
            walk.take_module(calls, name, node, contents, directory)
        }
        ModItemKind::ExternBlock { children } => {
            let directories = walk.directories.as_mut_slice();
            give_directory(directories, children.as_slice(), directory);
            Ok(())
        }
        ModItemKind::MacroRules { name } | ModItemKind::Macro2 { name, .. } => {
            walk.take_definition(calls, reading, *name, node)
        }
        _ => Ok(()),
    }
}

/// Takes the items of a tree, each of which stands behind the one that it is in.
fn over(
    walk: &mut Walk,
    oracle: &mut Oracle,
    session: &Interner,
    calls: &mut CallTable,
    reading: &mut Reading,
) -> Result<(), AllocError> {
    let Oracle { db, places, .. } = oracle;
    let id = TreeId {
        file: walk.file,
        block: None,
    };
    let Some(tree) = db.files.trees.get(&id) else {
        return Ok(());
    };
    for (number, node) in tree.items.as_slice().iter().enumerate() {
        let Some(directory) = walk.directories.get(number).copied().flatten() else {
            continue;
        };
        if node.disabled_by().is_some() {
            continue;
        }
        if let ModItemKind::MacroCall { path, .. } = &node.kind {
            walk.take_call(calls, places, reading, path, node, directory)?;
        } else {
            take_item(walk, session, calls, reading, node, directory)?;
        }
    }
    Ok(())
}

impl Workspace {
    /// A walk over a tree whose items stand in a directory. None where nothing of it is compiled.
    fn begin_walk(&self, file: HirFileId, directory: u32) -> Result<Option<Walk>, AllocError> {
        let alloc = self.alloc;
        let id = TreeId { file, block: None };
        let Some(tree) = self.oracle.db.files.trees.get(&id) else {
            return Ok(None);
        };
        if tree.attrs.disabled_by().is_some() {
            return Ok(None);
        }
        let mut directories = vec![in alloc; None; tree.items.len()]?;
        give_directory(directories.as_mut_slice(), tree.top.as_slice(), directory);
        Ok(Some(Walk {
            alloc,
            file,
            directories,
            above: IndexMap::new(alloc),
            outlines: Vec::new(alloc),
        }))
    }

    /// The macro that gives an expansion, by its name: most calls in that are calls of the same one.
    fn giver(&self, file: HirFileId) -> Option<(Name, u32)> {
        let HirFileId::Macro(call) = file else {
            return None;
        };
        let CalledMacro::Known(definition) = CallNumber::of(call).called else {
            return None;
        };
        let position = self.calls.definitions.get_index(definition as usize)?;
        let (_, item) = self.item_at(*position)?;
        let name = self.session.find_name(self.sources.name(item.name?))?;
        Some((name, definition))
    }

    /// Walks a tree whose items stand in a directory: numbers its calls and definitions, and answers
    /// the modules whose items are in other files.
    pub(crate) fn walk(
        &mut self,
        reading: &mut Reading,
        file: HirFileId,
        directory: u32,
    ) -> Result<Vec<Outline>, AllocError> {
        let Some(mut walk) = self.begin_walk(file, directory)? else {
            return Ok(Vec::new(self.alloc));
        };
        if let Some((name, definition)) = self.giver(file) {
            walk.above.insert(name, definition)?;
        }
        let Workspace {
            oracle,
            session,
            calls,
            ..
        } = self;
        over(&mut walk, oracle, session, calls, reading)?;
        let Walk { outlines, .. } = walk;
        Ok(outlines)
    }
}
