//! Imports: what the path of one gives, and what a named one puts.
ghost use Rattle.std.specs.Prelude.{◌≡◌, OnOk};
ghost use Rattle.def_steps.specs.Shown.{import_of, ns_set};
ghost use Rattle.def_imports.specs.Glances.{Shows};
ghost use Rattle.def_items.specs.Parts.{with_parts};
ghost use Rattle.def_laws.specs.Performs.{Updated};
ghost use Rattle.def_map.specs.Asking.{world_lent};
ghost use Rattle.def_map.specs.PathAnswer.{whole};
ghost use Rattle.def_map.specs.Paths.{for_import, resolve};
ghost use Rattle.def_sources.specs.Tables.{bound_by};
ghost use Rattle.def_rules.specs.Imports.{bound_name, named_entries};
ghost use Rattle.def_rules.specs.State.{State, order};

use def_bindings::{Entry, Namespace, Visibility};
use def_globs::Globs;
use def_items::put;
use def_map::{
    Asked, FoundName, MapData, PathAnswer, ResolvePathResult, SourceDatabase, Table, World,
    resolve_path_fp_with_macro, resolve_path_scope,
};
use def_steps::{Import, ImportDirective, NamespaceSet, import_name, lone_given, named_entries};
use std::alloc::{AllocError, Global};

/// What is seen at once of what an import gives.
#[derive(Drop)]
pub enum Glance<'a> {
    /// It is not ready: it gives nothing, or nothing in a namespace that it was not recorded from.
    Unready,
    /// It gives what this name stands for, which is in this namespace alone.
    Lone(Namespace, FoundName<'a>),
    /// Nothing is seen at once.
    Unseen,
}

/// What is seen at once of what an import gives in this world. Most paths lead through modules of
/// their crate to a name that stands in one namespace alone, and most imports that were recorded give
/// nothing more: of those the namespace is read, and nothing else.
#[inline(always)]
pub fn glance_at<'a, D: SourceDatabase>(
    world: &World<'a, D, Table>,
    directive: &ImportDirective,
) -> Glance<'a>
    ensures { let import = directive.now.import in
        Shows (ns_set directive.now.recorded)
        (resolve (world_lent D.oracle bound_by world.now) for_import import.module_id import.written.now.path)
        result }
{
    let import = &directive.import;
    let path = &import.written.path;
    let asked = Asked::for_import();
    let Some((module, name)) = resolve_path_scope(world, asked, import.module_id, path) else {
        return Glance::Unseen;
    };
    let Some(found) = world.table.found(module, name) else {
        return Glance::Unready;
    };
    let given = NamespaceSet::found(&found);
    if !directive.recorded.is_extended_by(given) {
        return Glance::Unready;
    }
    match found.lone_ns() {
        Some(ns) => Glance::Lone(ns, found),
        None => Glance::Unseen,
    }
}

/// What the path of an import gives in this world.
pub fn resolve_import<D: SourceDatabase>(
    world: &World<'_, D, Table>,
    import: &Import,
) -> ResolvePathResult
    ensures { result ≡ resolve (world_lent D.oracle bound_by world.now) for_import import.now.module_id import.now.written.now.path }
{
    let path = &import.written.path;
    resolve_path_fp_with_macro(world, Asked::for_import(), import.module_id, path)
}

/// Puts what a named import gives at its name, as visible as is said. On `Err` nothing but safety
/// is promised.
pub fn record_named(
    alloc: Global,
    def_map: &MapData,
    table: &mut Globs<Table>,
    import: &Import,
    vis: Visibility,
    answer: &PathAnswer,
) -> Result<(), AllocError>
    ensures { OnOk result ((s : State) →
        let before = with_parts s def_map.now table.old in
        let import = import_of import.now in
        Updated import.scope (named_entries (order before) import vis (whole answer.now) (bound_name import.written))
        before (with_parts s def_map.now table.new)) }
{
    if let Some(name) = import_name(import.written) {
        if let Some((ns, def, vis)) = lone_given(&def_map.tree, import, vis, answer) {
            let entry = Entry {
                name,
                ns,
                def,
                vis,
                origin: Some(import.origin()),
            };
            put(def_map, table, import.module_id, &[entry])?;
            return Ok(());
        }
    }
    let entries = named_entries(alloc, &def_map.tree, import, vis, answer)?;
    put(def_map, table, import.module_id, entries.as_slice())?;
    Ok(())
}
