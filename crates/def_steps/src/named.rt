//! What a named import brings.
ghost use Rattle.std.specs.Prelude.{◌≡◌, ◌++◌, ◌∷◌, [], Option, Some, IfOk, IfSome, OnOk, option_to_list};
ghost use Rattle.tree_ids.specs.declared.name.Name.{Name};
ghost use Rattle.def_bindings.specs.declared.bindings.Namespace.TheVariants.{Types};
ghost use Rattle.def_bindings.specs.ModuleTree.{chain_in};
ghost use Rattle.def_bindings.specs.Visibility.{order_over};
ghost use Rattle.def_map.specs.PathAnswer.{whole};
ghost use Rattle.def_map.specs.PerNs.{Item, in_namespace};
ghost use Rattle.def_steps.specs.Shown.{import_of};
ghost use Rattle.def_rules.specs.Imports.{bound_name, entry_of, kept_item, named_entries, origin_of, taken_types};

use crate::answer::{found_in, kept_in};
use crate::directive::{Import, import_name, keeps_ns, reexported_vis};
use def_bindings::{Entry, ModuleTree, Namespace, Visibility, lesser_or_import};
use def_ids::Def;
use def_map::PathAnswer;
use item_tree::Name;
use std::alloc::{AllocError, Global};

/// An import that is recorded, with the name that it binds and its visibility.
#[derive(Clone, Copy)]
struct Brought<'a> {
    import: &'a Import<'a>,
    name: Option<Name>,
    vis: Visibility,
}

/// What an import gives at its name, where that comes from types or from values alone, as it mostly
/// does: the namespace, the definition and how visible it is. Of these one entry is made where it is
/// put, since an entry is long.
pub fn lone_given(
    order: &ModuleTree,
    import: &Import,
    vis: Visibility,
    answer: &PathAnswer,
) -> Option<(Namespace, Def, Visibility)>
    ensures { let brought = import_of import.now in
        IfSome result (λ given. (name : Option Name) →
        named_entries (order_over (chain_in order.now)) brought vis (whole answer.now) (Some name)
        ≡ record { name = name; ns = given.0; def = given.1; vis = given.2; origin = Some (origin_of brought) } ∷ []) }
{
    let None = found_in(answer, Namespace::Macros) else {
        return None;
    };
    match found_in(answer, Namespace::Types) {
        Some(_) => {
            let None = found_in(answer, Namespace::Values) else {
                return None;
            };
            let item = kept_in(answer, Namespace::Types)?;
            if !keeps_ns(import.written.kind, Namespace::Types) {
                return None;
            }
            let own = reexported_vis(&import.written.path, vis, item);
            let vis = lesser_or_import(order, own, vis);
            Some((Namespace::Types, item.def, vis))
        }
        None => {
            let item = kept_in(answer, Namespace::Values)?;
            if !keeps_ns(import.written.kind, Namespace::Values) {
                return None;
            }
            let vis = lesser_or_import(order, item.vis, vis);
            Some((Namespace::Values, item.def, vis))
        }
    }
}

/// What an import gives at its name, one entry in each namespace.
pub fn named_entries(
    alloc: Global,
    order: &ModuleTree,
    import: &Import,
    vis: Visibility,
    answer: &PathAnswer,
) -> Result<Vec<Entry<Visibility>>, AllocError>
    ensures { IfOk result (λ entries. entries.items
        ≡ named_entries (order_over (chain_in order.now)) (import_of import.now) vis (whole answer.now) (bound_name import.now.written.now)) }
{
    let mut entries = Vec::new(alloc);
    let Some(name) = import_name(import.written) else {
        return Ok(entries);
    };
    let brought = Brought { import, name, vis };
    push_entry(&mut entries, types_entry(order, brought, answer))?;
    let values = entry_in(order, brought, Namespace::Values, answer);
    push_entry(&mut entries, values)?;
    let macros = entry_in(order, brought, Namespace::Macros, answer);
    push_entry(&mut entries, macros)?;
    Ok(entries)
}

/// The entry of what an import gives in types, if it gives something there.
#[inline(always)]
fn types_entry(
    order: &ModuleTree,
    brought: Brought,
    answer: &PathAnswer,
) -> Option<Entry<Visibility>>
    ensures { let import = import_of brought.entry.import.now in
        let vis = brought.entry.vis in
        option_to_list result ≡ entry_of (order_over (chain_in order.now)) import vis brought.entry.name
        Types (taken_types import.written.path vis (whole answer.now)) }
{
    let item = kept_in(answer, Namespace::Types)?;
    let vis = reexported_vis(&brought.import.written.path, brought.vis, item);
    entry(order, brought, Namespace::Types, item.def, vis)
}

/// The entry of what an import gives in values or macros, if it gives something there.
fn entry_in(
    order: &ModuleTree,
    brought: Brought,
    ns: Namespace,
    answer: &PathAnswer,
) -> Option<Entry<Visibility>>
    ensures { let import = import_of brought.entry.import.now in
        let found = whole answer.now in
        option_to_list result ≡ entry_of (order_over (chain_in order.now)) import brought.entry.vis brought.entry.name
        ns (kept_item found (in_namespace found.resolved_def ns)) }
{
    let item = kept_in(answer, ns)?;
    entry(order, brought, ns, item.def, item.vis)
}

/// The entry of a definition that an import gives in a namespace, if it keeps that namespace.
#[inline(always)]
fn entry(
    order: &ModuleTree,
    brought: Brought,
    ns: Namespace,
    def: Def,
    vis: Visibility,
) -> Option<Entry<Visibility>>
    ensures { (item : Item) → item.def ≡ def → item.vis ≡ vis → option_to_list result
        ≡ entry_of (order_over (chain_in order.now)) (import_of brought.entry.import.now)
        brought.entry.vis brought.entry.name ns (Some item) }
{
    if !keeps_ns(brought.import.written.kind, ns) {
        return None;
    }
    Some(Entry {
        name: brought.name,
        ns,
        def,
        vis: lesser_or_import(order, vis, brought.vis),
        origin: Some(brought.import.origin()),
    })
}

/// Appends an entry, if there is one.
fn push_entry(
    entries: &mut Vec<Entry<Visibility>>,
    entry: Option<Entry<Visibility>>,
) -> Result<(), AllocError>
    ensures { OnOk result (entries.new.items ≡ entries.old.items ++ option_to_list entry) }
{
    if let Some(entry) = entry {
        entries.push(entry)?;
    }
    Ok(())
}
