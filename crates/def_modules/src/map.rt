//! Maps of definitions.
ghost use Rattle.std.specs.Prelude.{◌≡◌, ◌++◌, ◌∷◌, [], length, OnOk, IfOk};
ghost use Rattle.def_modules.specs.Scopes.{module_state, declared_in};
ghost use Rattle.def_modules.specs.Maps.{map_state, with_module, pushed, known_parent};

use crate::def_map_crate_data::DefMapCrateData;
use crate::module_data::{DeriveCall, ModuleData, Position};
use def_bindings::ModuleTree;
use def_ids::{MacroId, ModuleId};
use indexmap::IndexMap;
use std::alloc::{AllocError, Global};
use tree_ids::{Name, Seq};

/// An attribute that a derive macro reads, with the macro and what its derive gave.
#[derive(Clone, Copy)]
pub struct DeriveHelper {
    pub name: Name,
    pub macro_id: MacroId,
    pub by: DeriveCall,
}

/// Those of the helpers of a position that one derive added: they stand from `start` up to `end`.
#[derive(Clone, Copy)]
pub struct HelpersRange {
    pub start: usize,
    pub end: usize,
}

/// All of a map but its bindings, unnamed traits and glob edges. The collector works on it.
pub struct MapData {
    /// The map, the parents of its modules, and for a block the modules that contain it.
    pub tree: ModuleTree,
    /// The modules in order of declaration: a parent before its children, the root first.
    pub modules: Vec<ModuleData>,
    /// What is known of the crate. A block's map has a copy.
    pub krate: DefMapCrateData,
    pub prelude: Option<ModuleId>,
    /// The macros that extern crates brought.
    pub macro_use_prelude: IndexMap<Name, MacroId>,
    pub derive_helpers: IndexMap<Position, Seq<DeriveHelper>>,
    pub macro_by_position: IndexMap<Position, MacroId>,
}

impl Drop for MapData {
    fn drop(self) {
        let MapData {
            tree: _,
            modules: _,
            krate: _,
            prelude: _,
            macro_use_prelude: _,
            derive_helpers: _,
            macro_by_position: _,
        } = self;
    }
}

/// Adds a module to the tree, with this parent if it is there.
fn add_parent(tree: &mut ModuleTree, parent: usize) -> Result<(), AllocError>
    ensures ok { OnOk result (tree.new.parents ≡ tree.old.parents ++ known_parent tree.old.parents parent ∷ []) }
    ensures map { tree.new.map ≡ tree.old.map }
    ensures containing { tree.new.containing ≡ tree.old.containing }
{
    if parent < tree.parents.len() {
        tree.add(parent)
    } else {
        tree.parents.push(None)?;
        Ok(())
    }
}

impl MapData {
    /// Makes room for more modules, so that as many are added with no copy of those that are there.
    pub fn reserve(&mut self, modules: usize) -> Result<(), AllocError>
        ensures { map_state self.new ≡ map_state self.old }
    {
        self.modules.reserve(modules)
    }

    /// Notes that a module has so many items, for whose declarations the first one makes room.
    pub fn expect_items(&mut self, module: usize, items: usize)
        ensures { map_state self.new ≡ map_state self.old }
    {
        if let Some(found) = self.modules.get_mut(module) {
            found.expect_items(items);
        }
    }

    /// Adds a module under its parent. Where the parent is not there, the module has none.
    pub fn push_module(&mut self, parent: usize, module: ModuleData) -> Result<usize, AllocError>
        ensures state { OnOk result (map_state self.new ≡ pushed (map_state self.old) parent (module_state «module»)) }
        ensures index { IfOk result (λ index. index ≡ length (map_state self.old).modules) }
    {
        let index = self.modules.len();
        add_parent(&mut self.tree, parent)?;
        self.modules.push(module)?;
        Ok(index)
    }
}
