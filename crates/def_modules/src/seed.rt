//! The data that a map begins with: those of a crate's, and those of a block's.
ghost use Rattle.std.specs.Prelude.{◌≡◌, IfOk};
ghost use Rattle.std.specs.Prelude.{true, ◌∷◌, [], map};
ghost use Rattle.def_bindings.specs.Tree.{are_apart};
ghost use Rattle.def_bindings.specs.declared.visibility.Visibility.TheVariants.{Public};
ghost use Rattle.def_modules.specs.declared.module_data.ModuleOrigin.TheVariants.{Block};
ghost use Rattle.def_modules.specs.Maps.{crate_state, map_state};
ghost use Rattle.def_modules.specs.Scopes.{module_state, empty_module};
ghost use Rattle.def_modules.specs.Fresh.{known_tools, fresh_state, fresh_crate};
ghost use Rattle.def_modules.specs.Seeds.{block_state, crate_map_id};

use crate::block::BlockData;
use crate::def_map_crate_data::{DefMapCrateData, UnstableFeatures};
use crate::map::MapData;
use crate::module_data::{ModuleData, ModuleOrigin};
use def_bindings::{ModuleTree, Visibility};
use def_ids::{Edition, MapId, ModuleId};
use indexmap::{IndexMap, IndexSet};
use std::alloc::{AllocError, Global};
use tree_ids::{Crate, Name, Seq};

/// The list without elements.
fn no_items<T>(alloc: Global) -> Seq<T>
    ensures { result ≡ [] }
{
    Seq::from_vec(Vec::new(alloc))
}

/// The tree of one root.
fn root_tree(alloc: Global, map: MapId, containing: Seq<ModuleId>) -> Result<ModuleTree, AllocError>
    requires { are_apart map containing ≡ true }
    ensures { IfOk result (λ tree. (tree.map ≡ map) × (tree.parents ≡ None ∷ []) × (tree.containing ≡ containing)) }
{
    let mut parents = no_items(alloc);
    parents.push(None)?;
    Ok(ModuleTree {
        map,
        parents,
        containing,
    })
}

/// The module that a map begins with.
fn root_modules(alloc: Global, origin: ModuleOrigin) -> Result<Vec<ModuleData>, AllocError>
    ensures { IfOk result (λ modules. map module_state modules.items ≡ empty_module None origin Public ∷ []) }
{
    let mut modules = Vec::new(alloc);
    modules.push(ModuleData::new(alloc, None, origin, Visibility::Public)?)?;
    Ok(modules)
}

/// The tools that need no declaration.
fn tools_known(alloc: Global) -> Result<Seq<Name>, AllocError>
    ensures { IfOk result (λ tools. tools ≡ known_tools) }
{
    let mut tools = no_items(alloc);
    tools.push(Name(27))?;
    tools.push(Name(28))?;
    tools.push(Name(29))?;
    tools.push(Name(30))?;
    tools.push(Name(31))?;
    Ok(tools)
}

/// A crate of which nothing is known but its edition.
fn new_crate(alloc: Global, edition: Edition) -> Result<DefMapCrateData, AllocError>
    ensures { IfOk result (λ krate. crate_state krate ≡ fresh_crate edition) }
{
    let registered_tools = tools_known(alloc)?;
    Ok(DefMapCrateData {
        exported_derives: IndexMap::new(alloc),
        fn_proc_macro_mapping: IndexMap::new(alloc),
        fn_proc_macro_mapping_back: IndexMap::new(alloc),
        registered_tools,
        unstable_features: UnstableFeatures {
            names: IndexSet::new(alloc),
        },
        rustc_coherence_is_core: false,
        no_core: false,
        no_std: false,
        edition,
        recursion_limit: None,
    })
}

/// The data of a crate's map.
pub fn crate_data(alloc: Global, krate: Crate, edition: Edition) -> Result<MapData, AllocError>
    ensures { IfOk result (λ d. map_state d ≡ fresh_state (crate_map_id krate) [] (fresh_crate edition)) }
{
    let map = MapId { krate, block: None };
    Ok(MapData {
        tree: root_tree(alloc, map, no_items(alloc))?,
        modules: root_modules(alloc, ModuleOrigin::CrateRoot)?,
        krate: new_crate(alloc, edition)?,
        prelude: None,
        macro_use_prelude: IndexMap::new(alloc),
        derive_helpers: IndexMap::new(alloc),
        macro_by_position: IndexMap::new(alloc),
    })
}

/// What the map of a block begins with, beside what it takes over.
#[derive(Drop)]
struct Root {
    parents: Seq<Option<usize>>,
    modules: Vec<ModuleData>,
}

/// The root of a block.
fn block_root(alloc: Global) -> Result<Root, AllocError>
    ensures { IfOk result (λ root. (root.parents ≡ None ∷ [])
        × (map module_state root.modules.items ≡ empty_module None Block Public ∷ [])) }
{
    let mut parents = no_items(alloc);
    parents.push(None)?;
    let modules = root_modules(alloc, ModuleOrigin::Block)?;
    Ok(Root { parents, modules })
}

/// The data of a block's map. All that can be refused is made first, so that nothing else is
/// dropped.
pub fn block_data(alloc: Global, edition: Edition, block: BlockData) -> Result<MapData, AllocError>
    ensures { IfOk result (λ d. map_state d ≡ block_state edition block) }
{
    let root = block_root(alloc)?;
    Ok(rooted(alloc, edition, block, root))
}

/// The data of a block's map over its root.
fn rooted(alloc: Global, edition: Edition, block: BlockData, root: Root) -> MapData
    requires parents { root.parents ≡ None ∷ [] }
    requires modules { map module_state root.modules.items ≡ empty_module None Block Public ∷ [] }
    ensures { map_state result ≡ block_state edition block }
{
    let Root { parents, modules } = root;
    let BlockData {
        krate,
        block,
        containing,
        mut data,
    } = block;
    data.edition = edition;
    MapData {
        tree: ModuleTree {
            map: MapId {
                krate,
                block: Some(block),
            },
            parents,
            containing,
        },
        modules,
        krate: data,
        prelude: None,
        macro_use_prelude: IndexMap::new(alloc),
        derive_helpers: IndexMap::new(alloc),
        macro_by_position: IndexMap::new(alloc),
    }
}
