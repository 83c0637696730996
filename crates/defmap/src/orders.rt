//! What a crate keeps in an order that no other line tells: the edges of its globs, the macros that
//! extern crates brought, the children of its modules, and the macro calls in them.

use crate::records::write_position;
use def_interner::Interner;
use def_map::{DefMap, Invocation, ItemScope, MacroId, ModuleData};
use def_workspace::Collected;
use item_tree::{MacroCallId, Name};
use std::io::{self, Write};

/// Writes the edges of globs, each with its source and its importer.
fn write_edges(collected: &Collected, out: &mut Vec<u8>) -> io::Result<()> {
    for edge in &collected.outcome.edges {
        let (source, importer) = (edge.source.index, edge.importer.index);
        writeln!(out, "edge {source} {importer}")?;
    }
    Ok(())
}

/// Writes a macro behind a space, and ends the line.
fn write_macro(id: MacroId, out: &mut Vec<u8>) -> io::Result<()> {
    match id {
        MacroId::MacroRules(id) => {
            let number = id.0;
            writeln!(out, " macro_rules:{number}")
        }
        MacroId::Macro2(id) => {
            let number = id.0;
            writeln!(out, " macro:{number}")
        }
        MacroId::ProcMacro(id) => {
            let number = id.0;
            writeln!(out, " proc_macro:{number}")
        }
    }
}

/// Writes the macros that extern crates brought, by their names.
fn write_macro_use(session: &Interner, map: &DefMap, out: &mut Vec<u8>) -> io::Result<()> {
    for (name, id) in map.macro_use_prelude().iter() {
        let text = session.text(*name).unwrap_or("");
        write!(out, "macro-use {text}")?;
        write_macro(*id, out)?;
    }
    Ok(())
}

/// Writes a child of a module, by its name.
fn write_child(
    session: &Interner,
    index: usize,
    name: Name,
    child: usize,
    out: &mut Vec<u8>,
) -> io::Result<()> {
    let text = session.text(name).unwrap_or("");
    writeln!(out, "child {index} {text} mod:{child}")
}

/// Writes the children of a module.
fn write_children(
    session: &Interner,
    index: usize,
    module: &ModuleData,
    out: &mut Vec<u8>,
) -> io::Result<()> {
    for (name, child) in module.children.iter() {
        write_child(session, index, *name, *child, out)?;
    }
    Ok(())
}

/// Writes a macro call that is recorded in a module, with the item at which it stands.
fn write_call(index: usize, invocation: &Invocation, out: &mut Vec<u8>) -> io::Result<()> {
    let MacroCallId(number) = invocation.call;
    write!(out, "call {index}")?;
    write_position(invocation.position, out)?;
    writeln!(out, " call:{number}")
}

/// Writes the macro calls that are recorded in a module.
fn write_calls(index: usize, scope: ItemScope<'_>, out: &mut Vec<u8>) -> io::Result<()> {
    if let Some(calls) = scope.invocations() {
        for invocation in calls.iter() {
            write_call(index, invocation, out)?;
        }
    }
    Ok(())
}

/// Writes what each module of a map keeps in an order.
fn write_modules(session: &Interner, map: &DefMap, out: &mut Vec<u8>) -> io::Result<()> {
    for (index, module) in map.modules().iter().enumerate() {
        write_children(session, index, module, out)?;
        if let Some(scope) = map.scope(index) {
            write_calls(index, scope, out)?;
        }
    }
    Ok(())
}

/// Writes what a crate keeps in an order.
pub fn write_orders(
    session: &Interner,
    collected: &Collected,
    out: &mut Vec<u8>,
) -> io::Result<()> {
    write_edges(collected, out)?;
    write_macro_use(session, &collected.def_map, out)?;
    write_modules(session, &collected.def_map, out)
}
