//! Macros that an extern crate brings by its `#[macro_use]`.
ghost use Rattle.std.specs.Prelude.{◌≡◌, ◌++◌, IfOk, OnOk};
ghost use Rattle.std.specs.List.{flat_map, list_any};
ghost use Rattle.item_tree.specs.Attrs.{attrs_of};
ghost use Rattle.def_map.specs.Asking.{world_lent};
ghost use Rattle.def_modules.specs.Maps.{map_state};
ghost use Rattle.def_sources.specs.Tables.{bound_by};
ghost use Rattle.def_rules.specs.Macros as macros;
ghost use Rattle.def_rules.specs.State.{State, with_map};

use def_bindings::{BindingTable, Namespace, Visibility};
use def_ids::{Def, MacroId, ModuleId};
use def_map::{MapData, SourceDatabase, Table, World, finished_map};
use item_tree::{Attr, ItemNode, ModPath, Name, SyntaxContext, sym};
use std::alloc::{AllocError, Global};

/// The macros of a crate's root that an extern crate brings. A map that the database lacks has
/// none.
pub fn macros_brought<D: SourceDatabase>(
    alloc: Global,
    world: &World<'_, D, Table>,
    node: &ItemNode,
    root: ModuleId,
) -> Result<Vec<(Name, MacroId)>, AllocError>
    ensures { IfOk result (λ brought.
        brought.items ≡ macros.taken_by (world_lent D.oracle bound_by world.now) root (attrs_of node.now.attrs)) }
{
    let attrs = attrs_of(node);
    if root.map == world.map.tree.map {
        return taken_in(alloc, world.table, root, attrs);
    }
    let Some(map) = finished_map(world.db, root.map) else {
        return Ok(Vec::new(alloc));
    };
    taken_in(alloc, map.table(), root, attrs)
}

/// The attributes of an item.
fn attrs_of(node: &ItemNode) -> &[Attr]
    ensures { result.now ≡ attrs_of node.now.attrs }
{
    match &node.attrs {
        Some(attrs) => attrs.attrs().as_slice(),
        None => &[],
    }
}

/// The macros of a module that attributes take: all, where one lists no names, else those that are
/// listed.
fn taken_in<T: BindingTable<Vis = Visibility>>(
    alloc: Global,
    table: &T,
    at: ModuleId,
    attrs: &[Attr],
) -> Result<Vec<(Name, MacroId)>, AllocError>
    ensures { IfOk result (λ taken. taken.items ≡ macros.taken_in (T.content table.now) at attrs.now) }
{
    let mut taken = Vec::new(alloc);
    if any_whole(attrs) {
        push_all(&mut taken, table, at)?;
    } else {
        push_listed(&mut taken, table, at, attrs)?;
    }
    Ok(taken)
}

/// Whether a `#[macro_use]` among these attributes lists no names.
fn any_whole(attrs: &[Attr]) -> bool
    ensures { result ≡ list_any macros.is_whole attrs.now }
{
    'attrs: for attr in attrs {
        if is_whole(attr) {
            return true;
        }
    }
    false
}

/// Whether an attribute is a `#[macro_use]` that lists no names.
fn is_whole(attr: &Attr) -> bool
    ensures { result ≡ macros.is_whole attr.now }
{
    attr.has_key(sym::MACRO_USE) && attr.paths.is_none()
}

/// Appends the macros that a module binds, in first-bound order.
fn push_all<T: BindingTable<Vis = Visibility>>(
    taken: &mut Vec<(Name, MacroId)>,
    table: &T,
    at: ModuleId,
) -> Result<(), AllocError>
    ensures { OnOk result (taken.new.items
        ≡ taken.old.items ++ flat_map (macros.macro_in (T.content table.now) at) ((T.content table.now).names at)) }
{
    let mut index = 0;
    'names: while let Some(name) = table.name_at(at, index) {
        push_macro(taken, table, at, name)?;
        index += 1;
    }
    Ok(())
}

/// Appends the macros that `#[macro_use]` lists, attribute after attribute.
fn push_listed<T: BindingTable<Vis = Visibility>>(
    taken: &mut Vec<(Name, MacroId)>,
    table: &T,
    at: ModuleId,
    attrs: &[Attr],
) -> Result<(), AllocError>
    ensures { OnOk result (taken.new.items
        ≡ taken.old.items ++ flat_map (macros.listed_macros (T.content table.now) at) attrs.now) }
{
    'attrs: for attr in attrs {
        push_by_attr(taken, table, at, attr)?;
    }
    Ok(())
}

/// Appends the macros that an attribute lists, if it is a `#[macro_use]`.
fn push_by_attr<T: BindingTable<Vis = Visibility>>(
    taken: &mut Vec<(Name, MacroId)>,
    table: &T,
    at: ModuleId,
    attr: &Attr,
) -> Result<(), AllocError>
    ensures { OnOk result (taken.new.items
        ≡ taken.old.items ++ macros.listed_macros (T.content table.now) at attr.now) }
{
    if !attr.has_key(sym::MACRO_USE) {
        return Ok(());
    }
    match &attr.paths {
        Some(paths) => push_by_paths(taken, table, at, paths.as_slice()),
        None => Ok(()),
    }
}

/// Appends the macros of paths that are listed.
fn push_by_paths<T: BindingTable<Vis = Visibility>>(
    taken: &mut Vec<(Name, MacroId)>,
    table: &T,
    at: ModuleId,
    paths: &[(ModPath, SyntaxContext)],
) -> Result<(), AllocError>
    ensures { OnOk result (taken.new.items
        ≡ taken.old.items ++ flat_map (macros.macro_by (T.content table.now) at) paths.now) }
{
    'paths: for listed in paths {
        push_by_path(taken, table, at, listed)?;
    }
    Ok(())
}

/// Appends the macro of a path that is listed, if it is plain and has one segment.
fn push_by_path<T: BindingTable<Vis = Visibility>>(
    taken: &mut Vec<(Name, MacroId)>,
    table: &T,
    at: ModuleId,
    listed: &(ModPath, SyntaxContext),
) -> Result<(), AllocError>
    ensures { OnOk result (taken.new.items
        ≡ taken.old.items ++ macros.macro_by (T.content table.now) at listed.now) }
{
    match listed.0.as_ident() {
        Some(name) => push_macro(taken, table, at, name),
        None => Ok(()),
    }
}

/// Appends the macro that a module binds to a name, if it binds one.
fn push_macro<T: BindingTable<Vis = Visibility>>(
    taken: &mut Vec<(Name, MacroId)>,
    table: &T,
    at: ModuleId,
    name: Name,
) -> Result<(), AllocError>
    ensures { OnOk result (taken.new.items
        ≡ taken.old.items ++ macros.macro_in (T.content table.now) at name) }
{
    let Some(held) = table.binding(at, name, Namespace::Macros) else {
        return Ok(());
    };
    let Def::Macro(id) = held.def else {
        return Ok(());
    };
    taken.push((name, id))?;
    Ok(())
}

/// Lets paths begin with the macros that an extern crate brings, if it stands at a crate's root. On
/// `Err` nothing but safety is promised.
pub fn take_at_root(
    def_map: &mut MapData,
    is_root: bool,
    brought: &[(Name, MacroId)],
) -> Result<(), AllocError>
    ensures { OnOk result ((s : State) →
        with_map s (map_state def_map.new) ≡ macros.taking_macros is_root brought.now (with_map s (map_state def_map.old))) }
{
    if !is_root {
        return Ok(());
    }
    take_macros(def_map, brought)?;
    Ok(())
}

/// Lets paths begin with these macros, each in the place of an earlier one of its name. On `Err`
/// nothing but safety is promised.
fn take_macros(def_map: &mut MapData, brought: &[(Name, MacroId)]) -> Result<(), AllocError>
    ensures { OnOk result (map_state def_map.new ≡ macros.taking brought.now (map_state def_map.old)) }
{
    'brought: for taken in brought {
        def_map.add_macro_use(taken.0, taken.1)?;
    }
    Ok(())
}
