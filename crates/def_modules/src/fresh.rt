//! Whether the data of a map are as they were seeded.
ghost use Rattle.std.specs.Prelude.{◌≡◌, ◌↔◌, ◌∷◌, None, IsTrue, [], map, unwrap_or};
ghost use Rattle.std.specs.List.{list_all};
ghost use Rattle.indexmap.specs.IndexMap.{get};
ghost use Rattle.def_bindings.specs.declared.visibility.Visibility.TheVariants.{Public};
ghost use Rattle.def_modules.specs.Fresh.{root_origin, known_tools, fresh_crate, emptied, fresh_by, IsOfFreshCrate};
ghost use Rattle.def_modules.specs.RareParts.{rare_state, no_rare, rare_in};
ghost use Rattle.def_modules.specs.Scopes.{module_state, empty_module};
ghost use Rattle.def_modules.specs.Maps.{crate_state, map_state};

use crate::def_map_crate_data::DefMapCrateData;
use crate::map::MapData;
use crate::module_data::{ModuleData, ModuleOrigin, RareParts};
use def_bindings::Visibility;
use indexmap::IndexMap;
use std::hash::Hash;
use tree_ids::{BlockId, Name, Seq};

/// Whether all of these hold.
fn are_all(tests: &[bool]) -> bool
    ensures { result ≡ list_all (λ b. b) tests.now }
{
    tests.iter().all(|test| *test)
}

/// Whether no key has an item.
fn are_lists_empty<K: Eq + Hash, V>(lists: &IndexMap<K, Seq<V>>) -> bool
    ensures { IsTrue result ↔ ((k : K) → unwrap_or (get K.eq lists.now k) [] ≡ []) }
{
    for i in 0..lists.len() {
        if let Some((_, list)) = lists.get_index(i) {
            if !list.is_empty() {
                return false;
            }
        }
    }
    true
}

/// Whether this is public.
fn is_public(vis: Visibility) -> bool
    ensures { IsTrue result ↔ (vis ≡ Public) }
{
    match vis {
        Visibility::Public => true,
        Visibility::PubCrate | Visibility::Module(_) => false,
    }
}

/// Whether this is how the root of such a map is made.
fn is_root_origin(origin: ModuleOrigin, block: Option<BlockId>) -> bool
    ensures { IsTrue result ↔ (origin ≡ root_origin block) }
{
    match (origin, block) {
        (ModuleOrigin::CrateRoot, None) => true,
        (ModuleOrigin::Block, Some(_)) => true,
        _ => false,
    }
}

/// Whether there is nothing in the parts that few modules have.
fn are_parts_empty(rare: &RareParts) -> bool
    ensures { IsTrue result ↔ (rare_state rare.now ≡ no_rare) }
{
    let tests = [
        rare.extern_crates.is_empty(),
        rare.unnamed_consts.is_empty(),
        rare.builtin_derive_impls.is_empty(),
        rare.extern_blocks.is_empty(),
        rare.derives.is_empty(),
        rare.invocations.is_empty(),
        rare.failed.is_empty(),
    ];
    are_all(&tests)
}

/// Whether a scope has nothing of the parts that few modules have, be they made or not.
fn is_rare_empty(rare: &Option<Box<RareParts>>) -> bool
    ensures { IsTrue result ↔ (rare_in rare.now ≡ no_rare) }
{
    match rare {
        Some(rare) => are_parts_empty(rare),
        None => true,
    }
}

/// Whether a module is the root of such a map with nothing in it.
fn is_bare_root(root: &ModuleData, block: Option<BlockId>) -> bool
    ensures { IsTrue result ↔ (module_state root.now ≡ empty_module None (root_origin block) Public) }
{
    let tests = [
        root.name.is_none(),
        is_root_origin(root.origin, block),
        is_public(root.visibility),
        root.children.is_empty(),
        are_lists_empty(root.scope.legacy_macros.as_ref()),
        root.scope.declarations.is_empty(),
        root.scope.impls.is_empty(),
        is_rare_empty(&root.scope.rare),
    ];
    are_all(&tests)
}

/// Whether there is one module, and it has no parent.
fn is_one_root(parents: &Seq<Option<usize>>) -> bool
    ensures { IsTrue result ↔ (parents.now ≡ None ∷ []) }
{
    match parents.as_slice() {
        [parent] => parent.is_none(),
        _ => false,
    }
}

/// Whether there is one module, the root of such a map with nothing in it.
fn is_one_bare_root(modules: &[ModuleData], block: Option<BlockId>) -> bool
    ensures { IsTrue result ↔ (map module_state modules.now ≡ empty_module None (root_origin block) Public ∷ []) }
{
    match modules {
        [root] => is_bare_root(root, block),
        _ => false,
    }
}

/// Whether these are the tools that need no declaration.
fn are_known_tools(tools: &Seq<Name>) -> bool
    ensures { IsTrue result ↔ (tools.now ≡ known_tools) }
{
    match tools.as_slice() {
        [clippy, rustfmt, diagnostic, miri, rust_analyzer] => are_all(&[
            clippy.0 == 27,
            rustfmt.0 == 28,
            diagnostic.0 == 29,
            miri.0 == 30,
            rust_analyzer.0 == 31,
        ]),
        _ => false,
    }
}

/// Whether a map has nothing but what a block's takes over.
fn is_emptied(map: &MapData) -> bool
    ensures { IsTrue result ↔ (map_state map.now ≡ emptied (map_state map.now)) }
{
    let tests = [
        is_one_root(&map.tree.parents),
        is_one_bare_root(map.modules.as_slice(), map.tree.map.block),
        are_lists_empty(&map.derive_helpers),
        map.macro_by_position.is_empty(),
        map.macro_use_prelude.is_empty(),
        map.prelude.is_none(),
    ];
    are_all(&tests)
}

/// Whether nothing is known of a crate but its edition.
fn is_new_crate(krate: &DefMapCrateData) -> bool
    ensures { IsTrue result ↔ (crate_state krate.now ≡ fresh_crate krate.now.edition) }
{
    let tests = [
        krate.exported_derives.is_empty(),
        krate.fn_proc_macro_mapping.is_empty(),
        krate.fn_proc_macro_mapping_back.is_empty(),
        are_known_tools(&krate.registered_tools),
        krate.unstable_features.names.is_empty(),
        !krate.rustc_coherence_is_core,
        !krate.no_core,
        !krate.no_std,
        krate.recursion_limit.is_none(),
    ];
    are_all(&tests)
}

/// Whether a map stands in no module and knows nothing of its crate.
fn is_of_fresh_crate(map: &MapData) -> bool
    ensures { IsTrue result ↔ IsOfFreshCrate (map_state map.now) }
{
    map.tree.containing.is_empty() && is_new_crate(&map.krate)
}

/// Whether the data of a map are as they were seeded: a root with nothing in it. What a block's map
/// takes over of its crate's may be any.
pub fn is_fresh_data(map: &MapData) -> bool
    ensures { IsTrue result ↔ (map_state map.now ≡ fresh_by map.now.tree.map.block (map_state map.now)) }
{
    if !is_emptied(map) {
        return false;
    }
    match map.tree.map.block {
        None => is_of_fresh_crate(map),
        Some(_) => true,
    }
}
