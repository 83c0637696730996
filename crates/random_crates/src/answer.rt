//! What was answered of a workspace, as checks read it.

use def_bindings::{Binding, BindingTable, ImportOrExternCrate, Namespace, VisOrder, Visibility};
use def_database::Database;
use def_ids::{Def, GlobId, ModuleId};
use def_map::{ItemScope, SourceDatabase, Table, World, finished_map};
use def_rules::Outcome;
use def_workspace::{Collected, Fixture, Workspace};
use item_tree::{FileAstId, FileId, HirFileId, ImportAlias, InFile, ItemNode, Name, TreeId, sym};

/// What was answered, with the workspace in which it was.
#[derive(Clone, Copy)]
pub struct Answer<'a> {
    pub collected: &'a Collected,
    /// What its paths are read against.
    pub world: World<'a, Database, Table>,
    /// Whether the crate is one of procedural macros, and whether it is alone.
    pub is_proc_macro: bool,
    pub is_alone: bool,
}

/// The answer of a row.
pub fn answer_of<'a>(
    workspace: &'a Workspace,
    row: &Fixture<'_>,
    collected: &'a Collected,
) -> Answer<'a> {
    let map = &collected.def_map;
    let id = map.id();
    // A block has the names of its crate.
    let local = match (id.block, workspace.db.crates.local_maps.get(&id.krate)) {
        (Some(_), Some(local)) => local,
        _ => &collected.local_def_map,
    };
    Answer {
        collected,
        world: map.world(local, &workspace.db, &workspace.session),
        is_proc_macro: row.crates.last().is_some_and(|last| last.proc_macro),
        is_alone: row.crates.len() == 1,
    }
}

/// Whether a glob brought a binding.
pub fn is_by_glob(import: Option<ImportOrExternCrate>) -> bool {
    matches!(import, Some(ImportOrExternCrate::Glob(_)))
}

/// The name that something binds under an alias, if it binds one.
pub fn bound_name(name: Name, alias: Option<ImportAlias>) -> Option<Name> {
    match alias {
        Some(ImportAlias::Alias(alias)) => Some(alias),
        Some(ImportAlias::Underscore) => None,
        None => Some(name),
    }
}

impl<'a> Answer<'a> {
    pub fn outcome(&self) -> &'a Outcome {
        &self.collected.outcome
    }

    /// The module of an index.
    pub fn module(&self, index: usize) -> ModuleId {
        ModuleId {
            map: self.collected.def_map.id(),
            index,
        }
    }

    /// The scope of a module of this map, or of a finished one.
    pub fn scope(&self, module: ModuleId) -> Option<ItemScope<'a>> {
        if module.map == self.collected.def_map.id() {
            return self.collected.def_map.scope(module.index);
        }
        finished_map(self.world.db, module.map)?.scope(module.index)
    }

    /// What a name means in a namespace, in a module of this map.
    pub fn binding(
        &self,
        module: ModuleId,
        name: Name,
        ns: Namespace,
    ) -> Option<Binding<Visibility>> {
        self.world.table.binding(module, name, ns)
    }

    /// Whether a module sees a visibility.
    pub fn sees(&self, module: ModuleId, vis: Visibility) -> bool {
        self.world.map.tree.visible(vis, module)
    }

    /// Whether a module is the root of a crate of procedural macros, or of a block of one.
    pub fn is_left_out(&self, module: ModuleId) -> bool {
        self.is_proc_macro && module == self.module(0)
    }

    /// The module of this map that a glob leads to, if it leads to this alone.
    pub fn target_of(&self, glob: GlobId) -> Option<ModuleId> {
        for (recorded, targets) in &self.outcome().targets {
            if *recorded == glob {
                return match targets.as_slice() {
                    [Def::Module(module)] if module.map == self.module(0).map => Some(*module),
                    _ => None,
                };
            }
        }
        None
    }

    /// The item at a position.
    pub fn node(&self, position: InFile<FileAstId>) -> Option<&'a ItemNode> {
        let file = position.file;
        let is_block = file == HirFileId::File(FileId(0));
        let block = self.module(0).map.block.filter(|_| is_block);
        let tree = self.world.db.item_tree(TreeId { file, block })?;
        tree.items
            .as_slice()
            .iter()
            .find(|node| node.ast_id == position.value)
    }

    /// Whether an extern crate of this name is found.
    pub fn has_crate(&self, name: Name) -> bool {
        match self.world.db.crate_data(self.module(0).map.krate) {
            Some(known) => {
                name == sym::SELF || known.deps.as_slice().iter().any(|dep| dep.name == name)
            }
            None => name == sym::SELF,
        }
    }
}
