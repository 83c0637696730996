//! What is known of a crate.
ghost use Rattle.std.specs.Prelude.{◌≡◌, IfOk, OnOk};
ghost use Rattle.def_modules.specs.Maps.{crate_state};

use crate::keyed_lists::no_items;
use def_ids::{Edition, FunctionId, MacroId, ProcMacroId};
use indexmap::{IndexMap, IndexSet};
use std::alloc::AllocError;
use tree_ids::{Name, Seq};

/// The features that a crate enables.
#[derive(Drop)]
pub struct UnstableFeatures {
    pub names: IndexSet<Name>,
}

/// What is known of a crate, which its map and those of its blocks share.
pub struct DefMapCrateData {
    /// The helper attributes of each derive macro that other crates may name.
    pub exported_derives: IndexMap<MacroId, Seq<Name>>,
    pub fn_proc_macro_mapping: IndexMap<FunctionId, ProcMacroId>,
    pub fn_proc_macro_mapping_back: IndexMap<ProcMacroId, FunctionId>,
    pub registered_tools: Seq<Name>,
    pub unstable_features: UnstableFeatures,
    pub rustc_coherence_is_core: bool,
    pub no_core: bool,
    pub no_std: bool,
    pub edition: Edition,
    /// The limit that the crate states.
    pub recursion_limit: Option<u32>,
}

impl Drop for DefMapCrateData {
    fn drop(self) {
        let DefMapCrateData {
            exported_derives: _,
            fn_proc_macro_mapping: _,
            fn_proc_macro_mapping_back: _,
            registered_tools: _,
            unstable_features: _,
            rustc_coherence_is_core: _,
            no_core: _,
            no_std: _,
            edition: _,
            recursion_limit: _,
        } = self;
    }
}

impl DefMapCrateData {
    /// A copy of all of it, for the map of a block.
    pub fn copied(&self) -> Result<DefMapCrateData, AllocError>
        ensures { IfOk result (λ copy. crate_state copy ≡ crate_state self.now) }
    {
        let mut copy = bare_copy(self);
        copy_exports(&mut copy, self)?;
        copy_pairs(&mut copy, self)?;
        copy_features(&mut copy, self)?;
        Ok(copy)
    }
}

/// What of it is in no list and no map, with these empty.
fn bare_copy(from: &DefMapCrateData) -> DefMapCrateData
    ensures flags { (result.rustc_coherence_is_core ≡ from.now.rustc_coherence_is_core)
        × (result.no_core ≡ from.now.no_core) × (result.no_std ≡ from.now.no_std) }
    ensures edition { result.edition ≡ from.now.edition }
    ensures limit { result.recursion_limit ≡ from.now.recursion_limit }
{
    let alloc = *from.exported_derives.allocator();
    DefMapCrateData {
        exported_derives: IndexMap::new(alloc),
        fn_proc_macro_mapping: IndexMap::new(alloc),
        fn_proc_macro_mapping_back: IndexMap::new(alloc),
        registered_tools: no_items(alloc),
        unstable_features: UnstableFeatures {
            names: IndexSet::new(alloc),
        },
        rustc_coherence_is_core: from.rustc_coherence_is_core,
        no_core: from.no_core,
        no_std: from.no_std,
        edition: from.edition,
        recursion_limit: from.recursion_limit,
    }
}

/// Copies the tools and the exported helpers.
fn copy_exports(copy: &mut DefMapCrateData, from: &DefMapCrateData) -> Result<(), AllocError>
    ensures tools { OnOk result (copy.new.registered_tools ≡ from.now.registered_tools) }
    ensures exports { OnOk result (copy.new.exported_derives.entries ≡ from.now.exported_derives.entries) }
    ensures rest { copy.new ≡ record copy.old { registered_tools = copy.new.registered_tools; exported_derives = copy.new.exported_derives } }
{
    copy.registered_tools = from.registered_tools.clone()?;
    copy.exported_derives = from.exported_derives.clone()?;
    Ok(())
}

/// Copies the macros of functions and the functions of macros.
fn copy_pairs(copy: &mut DefMapCrateData, from: &DefMapCrateData) -> Result<(), AllocError>
    ensures macros { OnOk result (copy.new.fn_proc_macro_mapping.entries ≡ from.now.fn_proc_macro_mapping.entries) }
    ensures functions { OnOk result (copy.new.fn_proc_macro_mapping_back.entries ≡ from.now.fn_proc_macro_mapping_back.entries) }
    ensures rest { copy.new ≡ record copy.old { fn_proc_macro_mapping = copy.new.fn_proc_macro_mapping; fn_proc_macro_mapping_back = copy.new.fn_proc_macro_mapping_back } }
{
    copy.fn_proc_macro_mapping = from.fn_proc_macro_mapping.clone()?;
    copy.fn_proc_macro_mapping_back = from.fn_proc_macro_mapping_back.clone()?;
    Ok(())
}

/// Copies the features.
fn copy_features(copy: &mut DefMapCrateData, from: &DefMapCrateData) -> Result<(), AllocError>
    ensures features { OnOk result (copy.new.unstable_features.names.keys ≡ from.now.unstable_features.names.keys) }
    ensures rest { copy.new ≡ record copy.old { unstable_features = copy.new.unstable_features } }
{
    copy.unstable_features.names = from.unstable_features.names.clone()?;
    Ok(())
}
