//! What paths and the collector read of a map's data.
ghost use Rattle.std.specs.Prelude.{◌≡◌, [], unwrap_or};
ghost use Rattle.def_modules.specs.Maps.{map_state, facts_of, first_of_list, limit_of, features_of};
ghost use Rattle.def_modules.specs.ScopeMaps.{textual_of};
ghost use Rattle.def_modules.specs.Scopes.{module_state};

use crate::def_map_crate_data::UnstableFeatures;
use crate::map::MapData;
use crate::module_data::ModuleData;
use def_ids::{MacroId, ModuleId};
use indexmap::IndexMap;
use tree_ids::{Name, Seq};

/// The last of the macros of a name.
fn last_macro(macros: &IndexMap<Name, Seq<MacroId>>, name: Name) -> Option<MacroId>
    ensures { result ≡ first_of_list (textual_of macros.now name) }
{
    match macros.get(&name) {
        Some(macros) => macros.as_slice().last().copied(),
        None => None,
    }
}

impl ModuleData {
    /// The last textual macro of a name.
    pub fn last_legacy_macro(&self, name: Name) -> Option<MacroId>
        ensures { result ≡ first_of_list ((module_state self.now).textual name) }
    {
        last_macro(self.scope.legacy_macros.as_ref(), name)
    }
}

impl MapData {
    /// The last textual macro of a name in a module. A module of another map has none here.
    pub fn textual_macro(&self, place: ModuleId, name: Name) -> Option<MacroId>
        ensures { result ≡ (facts_of self.now).textual_macro place name }
    {
        if place.map != self.tree.map {
            return None;
        }
        match self.modules.get(place.index) {
            Some(found) => found.last_legacy_macro(name),
            None => None,
        }
    }

    /// The macro of a name that an extern crate brought.
    pub fn macro_use(&self, name: Name) -> Option<MacroId>
        ensures { result ≡ (facts_of self.now).macro_use name }
    {
        self.macro_use_prelude.get(&name).copied()
    }

    /// The helper attributes that other crates see of a derive macro; none of one that is not exported.
    pub fn exported_helpers(&self, id: MacroId) -> &[Name]
        ensures { result.now ≡ unwrap_or ((facts_of self.now).exported_helpers id) [] }
    {
        match self.krate.exported_derives.get(&id) {
            Some(names) => names.as_slice(),
            None => &[],
        }
    }

    /// How deep expansions may nest: 128 where the crate states nothing.
    pub fn recursion_limit(&self) -> u32
        ensures { result ≡ limit_of (map_state self.now).krate }
    {
        self.krate.recursion_limit.unwrap_or(128)
    }
}

impl UnstableFeatures {
    /// Whether the crate enables this feature.
    pub fn is_enabled(&self, name: Name) -> bool
        ensures { result ≡ features_of self.now name }
    {
        self.names.contains(&name)
    }
}
