//! What modules see and bind.

use def_workspace::{Collected, Workspace};
use hir_def::{
    BoundNames, DefMap, Interner, Item, ItemScope, ScopeEntry, ShownDef, ShownName,
    ShownVisibility, VisibleName, visible_names,
};
use std::alloc::AllocError;
use std::fmt::Write;

/// Writes what a name stands for, with the visibility under which it is bound.
fn write_item(
    map: &DefMap,
    session: &Interner,
    item: Item,
    lines: &mut String,
) -> Result<(), AllocError> {
    let vis = item.vis;
    let vis = ShownVisibility { vis, map, session };
    let def = item.def;
    let def = ShownDef { def, map, session };
    write!(lines, " {vis} {def}")
}

/// Writes what a module sees, each name with what brings it.
pub fn write_visible(
    workspace: &Workspace,
    collected: &Collected,
    module: usize,
    lines: &mut String,
) -> Result<(), AllocError> {
    let Workspace {
        alloc,
        session,
        db,
        ..
    } = workspace;
    let (map, local) = (&collected.def_map, &collected.local_def_map);
    let names = visible_names(*alloc, db, map, local, module)?;
    for VisibleName { name, ns, item, by } in names {
        let name = ShownName { name, session };
        write!(lines, "{by:?} {name} {ns:?}")?;
        write_item(map, session, item, lines)?;
        writeln!(lines)?;
    }
    Ok(())
}

/// Writes the names that are bound in a namespace, each with what it stands for there.
fn write_bound(
    map: &DefMap,
    session: &Interner,
    kind: &str,
    names: BoundNames<'_>,
    lines: &mut String,
) -> Result<(), AllocError> {
    write!(lines, "{kind}:")?;
    for (name, item) in names {
        let name = ShownName { name, session };
        let def = item.def;
        let def = ShownDef { def, map, session };
        write!(lines, " {name}={def}")?;
    }
    writeln!(lines)
}

/// Writes the bindings of a scope, each with where what it stands for is declared.
fn write_entries(
    map: &DefMap,
    session: &Interner,
    scope: ItemScope<'_>,
    lines: &mut String,
) -> Result<(), AllocError> {
    for ScopeEntry { name, ns, item } in scope.entries() {
        let name = ShownName { name, session };
        write!(lines, "{name} {ns:?}")?;
        write_item(map, session, item, lines)?;
        match map.position_of(session, item.def) {
            Some(position) => {
                let number = position.value.0;
                writeln!(lines, " {number}")?;
            }
            None => writeln!(lines, " -")?,
        }
    }
    Ok(())
}

/// Writes the names of what is declared last in a scope.
fn write_last(
    session: &Interner,
    scope: ItemScope<'_>,
    lines: &mut String,
) -> Result<(), AllocError> {
    write!(lines, "last:")?;
    if let Some(def) = scope.declarations().last() {
        for (name, ns) in scope.names_of(*def) {
            let name = ShownName { name, session };
            write!(lines, " {name} {ns:?}")?;
        }
    }
    writeln!(lines)
}

/// Writes what the root of a map binds: by namespace, binding by binding, and by what is declared.
pub fn write_scope(map: &DefMap, session: &Interner, lines: &mut String) -> Result<(), AllocError> {
    let Some(scope) = map.scope(0) else {
        return Ok(());
    };
    write_bound(map, session, "types", scope.types(), lines)?;
    write_bound(map, session, "values", scope.values(), lines)?;
    write_bound(map, session, "macros", scope.macros(), lines)?;
    write_entries(map, session, scope, lines)?;
    write_last(session, scope, lines)
}
