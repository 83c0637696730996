//! What is read of a finished map.
ghost use Rattle.std.specs.Prelude.{◌≡◌, ◌≤◌, map, length, option_map, slice_get, MatchOption};
ghost use Rattle.indexmap.specs.IndexMap.{get};
ghost use Rattle.def_bindings.specs.Content.{is_name};
ghost use Rattle.def_bindings.specs.Tree.{module_of, parent_of};
ghost use Rattle.def_map.specs.DefMaps.{state_of, content_of, view_of};
ghost use Rattle.def_modules.specs.Maps.{exported_of, features_of, helper_state, limit_of};
ghost use Rattle.def_modules.specs.Scopes.{module_state};
ghost use Rattle.def_sources.specs.Tables.{bound_by};

use crate::def_map::DefMap;
use crate::item_scope::ItemScope;
use def_bindings::{BindingTable, EdgeTo, Visibility};
use def_ids::{FunctionId, MacroId, MapId, ModuleId, ProcMacroId};
use def_modules::{DeriveHelper, ModuleData, Position, UnstableFeatures};
use def_paths::Table;
use indexmap::IndexMap;
use item_tree::{Name, Seq};

impl DefMap {
    ghost use Rattle.def_map.specs.ItemScopes.{IsScopeOf};

    /// Which map this is.
    pub fn id(&self) -> MapId
        ensures { result ≡ (state_of self.now).id }
    {
        self.data.tree.map
    }

    /// The table with its bindings, unnamed traits and edges.
    pub fn table(&self) -> &Table
        ensures { bound_by result.now ≡ content_of self.now }
    {
        &self.table
    }

    /// The last textual macro of a name in a module, if that is of this map.
    pub fn textual_macro(&self, place: ModuleId, name: Name) -> Option<MacroId>
        ensures { result ≡ (view_of self.now).facts.textual_macro place name }
    {
        self.data.textual_macro(place, name)
    }

    /// The modules in order of declaration, the root first.
    pub fn modules(&self) -> &[ModuleData]
        ensures { map module_state result.now ≡ (state_of self.now).modules }
    {
        self.data.modules.as_slice()
    }

    /// A module, by its index.
    pub fn module(&self, index: usize) -> Option<&ModuleData>
        ensures { option_map (λ m. module_state m.now) result ≡ slice_get (state_of self.now).modules index }
    {
        self.data.modules.as_slice().get(index)
    }

    /// The index of a module's parent, if it has one.
    pub fn parent(&self, index: usize) -> Option<usize>
        ensures { result ≡ parent_of (state_of self.now).parents index }
    {
        match self.data.tree.parents.get(index) {
            Some(parent) => *parent,
            None => None,
        }
    }

    /// The scope of a module, by its index.
    pub fn scope(&self, module: usize) -> Option<ItemScope<'_>>
        ensures { MatchOption result (length (state_of self.now).modules ≤ «module») (IsScopeOf self.now «module») }
    {
        match self.data.modules.as_slice().get(module) {
            Some(module_data) => Some(ItemScope {
                place: ModuleId {
                    map: self.data.tree.map,
                    index: module,
                },
                module_data,
                table: &self.table,
            }),
            None => None,
        }
    }

    /// An edge that leaves a module, by its place in the order of recording.
    pub fn edge_at(&self, module: usize, index: usize) -> Option<EdgeTo<Visibility>>
        ensures { result ≡ slice_get ((content_of self.now).edges (module_of (state_of self.now).id «module»)) index }
    {
        let source = ModuleId {
            map: self.data.tree.map,
            index: module,
        };
        self.table.edge_at(source, index)
    }

    /// How deep expansions may nest: 128 where the crate states nothing.
    pub fn recursion_limit(&self) -> u32
        ensures { result ≡ limit_of (state_of self.now).krate }
    {
        self.data.recursion_limit()
    }

    /// Whether the crate does without `core`.
    pub fn is_no_core(&self) -> bool
        ensures { result ≡ (state_of self.now).krate.no_core }
    {
        self.data.krate.no_core
    }

    /// Whether the crate does without `std`.
    pub fn is_no_std(&self) -> bool
        ensures { result ≡ (state_of self.now).krate.no_std }
    {
        self.data.krate.no_std
    }

    /// Whether the crate counts as `core` where coherence is checked.
    pub fn is_rustc_coherence_is_core(&self) -> bool
        ensures { result ≡ (state_of self.now).krate.coherence_is_core }
    {
        self.data.krate.rustc_coherence_is_core
    }

    /// The tools whose attributes are known.
    pub fn registered_tools(&self) -> &[Name]
        ensures { result.now ≡ (state_of self.now).krate.tools }
    {
        self.data.krate.registered_tools.as_slice()
    }

    /// The features that the crate enables.
    pub fn features(&self) -> &UnstableFeatures
        ensures { features_of result.now ≡ (state_of self.now).krate.features }
    {
        &self.data.krate.unstable_features
    }

    /// The module whose names are seen everywhere in the crate.
    pub fn prelude(&self) -> Option<ModuleId>
        ensures { result ≡ (state_of self.now).prelude }
    {
        self.data.prelude
    }

    /// The macros that extern crates brought, by name.
    pub fn macro_use_prelude(&self) -> &IndexMap<Name, MacroId>
        ensures { get is_name result.now ≡ (state_of self.now).macro_use }
    {
        &self.data.macro_use_prelude
    }

    /// The helper attributes that other crates see of each derive macro.
    pub fn exported_derives(&self) -> &IndexMap<MacroId, Seq<Name>>
        ensures { exported_of result.now ≡ (state_of self.now).krate.exported_helpers }
    {
        &self.data.krate.exported_derives
    }

    /// The helper attributes that are read at a position.
    pub fn derive_helpers(&self, position: Position) -> &[DeriveHelper]
        ensures { map helper_state result.now ≡ (state_of self.now).helpers position }
    {
        match self.data.derive_helpers.get(&position) {
            Some(helpers) => helpers.as_slice(),
            None => &[],
        }
    }

    /// The procedural macro that a function is exported as.
    pub fn fn_as_proc_macro(&self, function: FunctionId) -> Option<ProcMacroId>
        ensures { result ≡ (state_of self.now).krate.macro_of_function function }
    {
        self.data
            .krate
            .fn_proc_macro_mapping
            .get(&function)
            .copied()
    }

    /// The function that a procedural macro is.
    pub fn proc_macro_as_fn(&self, id: ProcMacroId) -> Option<FunctionId>
        ensures { result ≡ (state_of self.now).krate.function_of_macro id }
    {
        self.data.krate.fn_proc_macro_mapping_back.get(&id).copied()
    }

    /// The macro that is defined at a position.
    pub fn macro_by_position(&self, position: Position) -> Option<MacroId>
        ensures { result ≡ (state_of self.now).macro_at position }
    {
        self.data.macro_by_position.get(&position).copied()
    }
}
