//! The map of a crate: its modules, and what each binds.

use crate::described::{described_value, spot_value, write_described, write_spot};
use crate::json::JsonLines;
use crate::modules::{BoundName, PathOfModule, bound_names, modules, spaces_text};
use def_bindings::Visibility;
use def_ids::{Def, MacroId, MacroRulesId, TraitId};
use def_map::{Item, ItemScope};
use item_tree::Crate;
use rust_codebase::Codebase;
use rust_names::Names;
use serde_json::{Value, json};
use std::alloc::AllocError;
use std::io;

/// The binding of a trait that has no name.
fn unnamed(id: TraitId, vis: Visibility) -> Item {
    Item {
        def: Def::Trait(id),
        vis,
        import: None,
    }
}

/// Writes a binding.
fn write_bound<C: Codebase, O: io::Write>(
    names: &Names<'_, C>,
    bound: &BoundName<'_>,
    out: &mut O,
) -> io::Result<()> {
    let described = names.describe(bound.item)?;
    let (name, spaces) = (bound.name, spaces_text(bound.spaces));
    write!(out, "    {name} ({spaces}): ")?;
    write_described(names, &described, out)?;
    writeln!(out, "")
}

/// Writes a macro that is bound by the order of the text.
fn write_textual<C: Codebase, O: io::Write>(
    names: &Names<'_, C>,
    def: Def,
    out: &mut O,
) -> io::Result<()> {
    let (name, path) = (
        names.declared_name(def).unwrap_or("?"),
        names.def_path(def)?,
    );
    let path = path.as_str();
    write!(out, "    {name} (textual): macro_rules {path}")?;
    let spot = names.spot_of(def);
    if spot.is_some() {
        write!(out, ",")?;
    }
    write_spot(names, spot, out)?;
    writeln!(out, "")
}

/// Writes the traits that a module binds without a name.
fn write_unnamed<C: Codebase, O: io::Write>(
    names: &Names<'_, C>,
    scope: ItemScope<'_>,
    out: &mut O,
) -> io::Result<()> {
    for (id, vis) in scope.unnamed_traits() {
        let described = names.describe(unnamed(id, vis))?;
        write!(out, "    _ (types): ")?;
        write_described(names, &described, out)?;
        writeln!(out, "")?;
    }
    Ok(())
}

/// Writes the path of a module, and where that begins.
fn write_head<C: Codebase, O: io::Write>(
    names: &Names<'_, C>,
    module: &PathOfModule,
    out: &mut O,
) -> io::Result<()> {
    let path = module.path.as_str();
    write!(out, "{path}")?;
    write_spot(names, names.spot_of(Def::Module(module.module)), out)?;
    writeln!(out, "")
}

/// Writes a module and what it binds.
fn write_module<C: Codebase, O: io::Write>(
    names: &Names<'_, C>,
    module: &PathOfModule,
    out: &mut O,
) -> io::Result<()> {
    write_head(names, module, out)?;
    let Some(scope) = names.scope(module.module) else {
        return Ok(());
    };
    for bound in bound_names(names, scope)?.iter() {
        write_bound(names, bound, out)?;
    }
    write_unnamed(names, scope, out)?;
    for id in names.textual_macros(module.module)?.iter() {
        write_textual(names, Def::Macro(MacroId::MacroRules(*id)), out)?;
    }
    Ok(())
}

/// Writes the modules of a crate and what each binds, in the order of paths and names.
pub fn write_map<C: Codebase, O: io::Write>(
    names: &Names<'_, C>,
    krate: Crate,
    out: &mut O,
) -> io::Result<()> {
    for module in modules(names, krate)?.iter() {
        write_module(names, module, out)?;
    }
    Ok(())
}

/// A binding as JSON.
fn bound_value<C: Codebase>(
    names: &Names<'_, C>,
    module: &PathOfModule,
    name: &str,
    spaces: &'static str,
    item: Item,
) -> Result<Value, AllocError> {
    let described = names.describe(item)?;
    let (path, what) = (module.path.as_str(), described_value(names, &described)?);
    json!(in names.alloc; {"module": path, "name": name, "namespaces": spaces, "item": what})
}

/// A macro that is bound by the order of the text, as JSON.
fn textual_value<C: Codebase>(
    names: &Names<'_, C>,
    module: &PathOfModule,
    id: MacroRulesId,
) -> Result<Value, AllocError> {
    let def = Def::Macro(MacroId::MacroRules(id));
    let name = names.declared_name(def).unwrap_or("?");
    let item = Item {
        def,
        vis: Visibility::PubCrate,
        import: None,
    };
    bound_value(names, module, name, "textual", item)
}

/// A module as JSON: its path, and where that begins.
fn head_value<C: Codebase>(
    names: &Names<'_, C>,
    module: &PathOfModule,
) -> Result<Value, AllocError> {
    let at = spot_value(names, names.spot_of(Def::Module(module.module)))?;
    let path = module.path.as_str();
    json!(in names.alloc; {"module": path, "at": at})
}

/// Writes what a module binds in namespaces as JSON.
fn write_bound_json<C: Codebase, O: io::Write>(
    names: &Names<'_, C>,
    module: &PathOfModule,
    scope: ItemScope<'_>,
    lines: &mut JsonLines,
    out: &mut O,
) -> io::Result<()> {
    for bound in bound_names(names, scope)?.iter() {
        let spaces = spaces_text(bound.spaces);
        let value = bound_value(names, module, bound.name, spaces, bound.item)?;
        lines.write(value, out)?;
    }
    for (id, vis) in scope.unnamed_traits() {
        let value = bound_value(names, module, "_", "types", unnamed(id, vis))?;
        lines.write(value, out)?;
    }
    Ok(())
}

/// Writes what a module binds as JSON, each binding in a line of its own.
fn write_module_json<C: Codebase, O: io::Write>(
    names: &Names<'_, C>,
    module: &PathOfModule,
    lines: &mut JsonLines,
    out: &mut O,
) -> io::Result<()> {
    lines.write(head_value(names, module)?, out)?;
    let Some(scope) = names.scope(module.module) else {
        return Ok(());
    };
    write_bound_json(names, module, scope, lines, out)?;
    for id in names.textual_macros(module.module)?.iter() {
        lines.write(textual_value(names, module, *id)?, out)?;
    }
    Ok(())
}

/// Writes the map of a crate as a list in JSON, one record a line.
pub fn write_map_json<C: Codebase, O: io::Write>(
    names: &Names<'_, C>,
    krate: Crate,
    out: &mut O,
) -> io::Result<()> {
    let mut lines = JsonLines::new(names.alloc);
    for module in modules(names, krate)?.iter() {
        write_module_json(names, module, &mut lines, out)?;
    }
    lines.end(out)
}
