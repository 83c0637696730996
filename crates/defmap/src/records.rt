//! What is recorded of a crate beside the lines that are shown, as lines of text: what its root file
//! says, the macro calls and derives of its modules, and how its run ended.

use def_ids::{BuiltinDeriveImplId, Def, GlobId, MacroId, MapId, ModuleId};
use def_interner::Interner;
use def_map::{DefMap, DeriveCall, DeriveHelper, DeriveKey, ItemScope, Position, Visibility};
use def_workspace::Collected;
use item_tree::{Crate, HirFileId, MacroCallId, Name};
use std::io::{self, Write};

/// The limit of recursion where a crate states none.
const USUAL_LIMIT: u32 = 128;

/// The tools that need no declaration.
const KNOWN_TOOLS: [&str; 5] = ["clippy", "rustfmt", "diagnostic", "miri", "rust_analyzer"];

/// Writes a line that is one word, if it holds.
fn write_flag(flag: &str, holds: bool, out: &mut Vec<u8>) -> io::Result<()> {
    if holds {
        writeln!(out, "{flag}")?;
    }
    Ok(())
}

/// Writes a line that is a word and a name.
fn write_name(word: &str, session: &Interner, name: Name, out: &mut Vec<u8>) -> io::Result<()> {
    let text = session.text(name).unwrap_or("");
    writeln!(out, "{word} {text}")
}

/// Writes the limit of recursion, if it is not the usual one.
fn write_limit(limit: u32, out: &mut Vec<u8>) -> io::Result<()> {
    if limit != USUAL_LIMIT {
        writeln!(out, "limit {limit}")?;
    }
    Ok(())
}

/// Writes the features that a crate enables.
fn write_features(session: &Interner, map: &DefMap, out: &mut Vec<u8>) -> io::Result<()> {
    for name in map.features().names.iter() {
        write_name("feature", session, *name, out)?;
    }
    Ok(())
}

/// Whether tools are those that need no declaration.
fn are_known(session: &Interner, tools: &[Name]) -> bool {
    for (place, tool) in tools.iter().enumerate() {
        if KNOWN_TOOLS.get(place).copied() != session.text(*tool) {
            return false;
        }
    }
    tools.len() == KNOWN_TOOLS.len()
}

/// The tools behind those that need no declaration, or all where these do not stand first.
fn declared<'a>(session: &Interner, tools: &'a [Name]) -> &'a [Name] {
    match tools.split_at_checked(KNOWN_TOOLS.len()) {
        Some((known, rest)) if are_known(session, known) => rest,
        _ => tools,
    }
}

/// Writes the tools that a crate registers.
fn write_tools(session: &Interner, map: &DefMap, out: &mut Vec<u8>) -> io::Result<()> {
    for name in declared(session, map.registered_tools()) {
        write_name("tool", session, *name, out)?;
    }
    Ok(())
}

/// Writes a module behind a space: that of the crate in work by its number, and any other one with
/// its crate.
fn write_module(krate: Crate, id: ModuleId, out: &mut Vec<u8>) -> io::Result<()> {
    let index = id.index;
    if id.map.krate == krate {
        write!(out, " mod:{index}")
    } else {
        let other = id.map.krate.0;
        write!(out, " mod:{other}/{index}")
    }
}

/// Writes the module whose names are seen everywhere, if there is one.
fn write_prelude(map: &DefMap, out: &mut Vec<u8>) -> io::Result<()> {
    if let Some(module) = map.prelude() {
        write!(out, "prelude")?;
        write_module(map.id().krate, module, out)?;
        writeln!(out)?;
    }
    Ok(())
}

/// Writes the names of crates with which paths may begin, in order.
fn write_extern_prelude(
    session: &Interner,
    collected: &Collected,
    out: &mut Vec<u8>,
) -> io::Result<()> {
    for name in collected.local_def_map.extern_prelude.keys() {
        write_name("extern-prelude", session, *name, out)?;
    }
    Ok(())
}

/// Writes what the root file of a crate says.
fn write_said(session: &Interner, map: &DefMap, out: &mut Vec<u8>) -> io::Result<()> {
    write_limit(map.recursion_limit(), out)?;
    write_flag("no-std", map.is_no_std(), out)?;
    write_flag("no-core", map.is_no_core(), out)?;
    write_flag("coherence-is-core", map.is_rustc_coherence_is_core(), out)?;
    write_features(session, map, out)?;
    write_tools(session, map, out)
}

/// Writes how many there are of something in a module, if there are any.
fn write_count(word: &str, index: usize, count: usize, out: &mut Vec<u8>) -> io::Result<()> {
    if count != 0 {
        writeln!(out, "{word} {index} {count}")?;
    }
    Ok(())
}

/// Writes a function of a module and the procedural macro that it exports, where it exports one, or
/// such a macro and its function.
fn write_pair(index: usize, map: &DefMap, def: Def, out: &mut Vec<u8>) -> io::Result<()> {
    match def {
        Def::Function(id) => match map.fn_as_proc_macro(id) {
            Some(exported) => {
                let (function, number) = (id.0, exported.0);
                writeln!(out, "pair {index} fn:{function} proc_macro:{number}")
            }
            None => Ok(()),
        },
        Def::Macro(MacroId::ProcMacro(id)) => match map.proc_macro_as_fn(id) {
            Some(exporting) => {
                let (number, function) = (id.0, exporting.0);
                writeln!(out, "pair {index} proc_macro:{number} fn:{function}")
            }
            None => Ok(()),
        },
        _ => Ok(()),
    }
}

/// Writes the functions of a module that export procedural macros, and these macros, in the order in
/// which they are declared.
fn write_pairs(
    index: usize,
    map: &DefMap,
    scope: ItemScope<'_>,
    out: &mut Vec<u8>,
) -> io::Result<()> {
    for def in scope.declarations() {
        write_pair(index, map, *def, out)?;
    }
    Ok(())
}

/// Writes the impls that builtin derives gave in a module, if there are any.
fn write_impls(index: usize, impls: &[BuiltinDeriveImplId], out: &mut Vec<u8>) -> io::Result<()> {
    if impls.is_empty() {
        return Ok(());
    }
    write!(out, "impls {index}")?;
    for id in impls {
        let number = id.0;
        write!(out, " {number}")?;
    }
    writeln!(out)
}

/// Writes what a derive gave, behind a space: a call or an impl.
fn write_given(given: DeriveCall, out: &mut Vec<u8>) -> io::Result<()> {
    match given {
        DeriveCall::Left(MacroCallId(number)) => write!(out, " call:{number}"),
        DeriveCall::Right(BuiltinDeriveImplId(number)) => write!(out, " impl:{number}"),
    }
}

/// Writes where an item stands, behind a space: its file and its number.
pub fn write_position(position: Position, out: &mut Vec<u8>) -> io::Result<()> {
    let item = position.value.0;
    match position.file {
        HirFileId::File(file) => {
            let file = file.0;
            write!(out, " {file}:{item}")
        }
        HirFileId::Macro(call) => {
            let call = call.0;
            write!(out, " m{call}:{item}")
        }
    }
}

/// Writes a derive attribute of a module, and what each path of its list gave, if anything.
fn write_derive(
    index: usize,
    key: DeriveKey,
    given: &[Option<DeriveCall>],
    out: &mut Vec<u8>,
) -> io::Result<()> {
    let attr = key.attr.0;
    write!(out, "derive {index}")?;
    write_position(key.position, out)?;
    write!(out, " attr:{attr}")?;
    for path in given {
        match path {
            Some(given) => write_given(*given, out)?,
            None => write!(out, " -")?,
        }
    }
    writeln!(out)
}

/// Writes the derive attributes of a module.
fn write_derives(index: usize, scope: ItemScope<'_>, out: &mut Vec<u8>) -> io::Result<()> {
    if let Some(derives) = scope.derives() {
        for (key, records) in derives.iter() {
            write_derive(index, *key, records.first.calls.as_slice(), out)?;
            for later in records.later.as_slice() {
                write_derive(index, *key, later.calls.as_slice(), out)?;
            }
        }
    }
    Ok(())
}

/// Writes a helper attribute that is read at an item, and what its derive gave.
fn write_helper(
    session: &Interner,
    position: Position,
    helper: &DeriveHelper,
    out: &mut Vec<u8>,
) -> io::Result<()> {
    let name = session.text(helper.name).unwrap_or("");
    write!(out, "helper")?;
    write_position(position, out)?;
    write!(out, " {name}")?;
    write_given(helper.by, out)?;
    writeln!(out)
}

/// Writes the helper attributes that are read at an item.
fn write_helpers(
    session: &Interner,
    map: &DefMap,
    position: Position,
    out: &mut Vec<u8>,
) -> io::Result<()> {
    for helper in map.derive_helpers(position) {
        write_helper(session, position, helper, out)?;
    }
    Ok(())
}

/// Writes the helper attributes that are read at the items of a module that have derives. The derive
/// attributes of an item stand side by side, and it is written once.
fn write_all_helpers(
    session: &Interner,
    map: &DefMap,
    scope: ItemScope<'_>,
    out: &mut Vec<u8>,
) -> io::Result<()> {
    let Some(derives) = scope.derives() else {
        return Ok(());
    };
    let mut last = None;
    for key in derives.keys() {
        if last != Some(key.position) {
            write_helpers(session, map, key.position, out)?;
        }
        last = Some(key.position);
    }
    Ok(())
}

/// Whether a visibility is that of a module of another map.
fn is_outside(map: MapId, vis: Visibility) -> bool {
    match vis {
        Visibility::Module(id) => id.map != map,
        _ => false,
    }
}

/// How many bindings of a scope are seen in a module of another map.
fn outside(map: MapId, scope: ItemScope<'_>) -> usize {
    let mut count: usize = 0;
    for (_, found) in scope.resolutions() {
        for binding in [found.types, found.values, found.macros] {
            if binding.is_some_and(|binding| is_outside(map, binding.vis)) {
                count = count.saturating_add(1);
            }
        }
    }
    count
}

/// How many macro calls are recorded in a module.
fn calls(scope: ItemScope<'_>) -> usize {
    match scope.invocations() {
        Some(calls) => calls.len(),
        None => 0,
    }
}

/// Writes what is recorded in a module.
fn write_scope(
    session: &Interner,
    map: &DefMap,
    index: usize,
    scope: ItemScope<'_>,
    out: &mut Vec<u8>,
) -> io::Result<()> {
    write_count("outside", index, outside(map.id(), scope), out)?;
    write_count("calls", index, calls(scope), out)?;
    write_count("extern-crates", index, scope.extern_crates().len(), out)?;
    write_pairs(index, map, scope, out)?;
    write_impls(index, scope.builtin_derive_impls(), out)?;
    write_derives(index, scope, out)?;
    write_all_helpers(session, map, scope, out)
}

/// Writes what is recorded in the modules of a map.
fn write_modules(session: &Interner, map: &DefMap, out: &mut Vec<u8>) -> io::Result<()> {
    for index in 0..map.modules().len() {
        if let Some(scope) = map.scope(index) {
            write_scope(session, map, index, scope, out)?;
        }
    }
    Ok(())
}

/// Writes what a glob takes names of, behind a space. Only modules and enums have names to take.
fn write_target(krate: Crate, target: Def, out: &mut Vec<u8>) -> io::Result<()> {
    match target {
        Def::Module(id) => write_module(krate, id, out),
        Def::Enum(id) => {
            let number = id.0;
            write!(out, " enum:{number}")
        }
        _ => write!(out, " -"),
    }
}

/// Writes what a glob takes names of.
fn write_glob(krate: Crate, glob: GlobId, targets: &[Def], out: &mut Vec<u8>) -> io::Result<()> {
    let number = glob.use_id.0;
    let place = glob.idx;
    write!(out, "targets {number}.{place}")?;
    for target in targets {
        write_target(krate, *target, out)?;
    }
    writeln!(out)
}

/// Writes how deep the expansion of each macro that is left over would lie, and what each glob that
/// is recorded takes names of.
fn write_run(collected: &Collected, out: &mut Vec<u8>) -> io::Result<()> {
    for left in &collected.outcome.macros {
        let depth = left.depth;
        writeln!(out, "left-depth {depth}")?;
    }
    let krate = collected.def_map.id().krate;
    for (glob, targets) in &collected.outcome.targets {
        write_glob(krate, *glob, targets.as_slice(), out)?;
    }
    Ok(())
}

/// Writes what is recorded of a crate. Each line is there only where it says something.
pub fn write_records(
    session: &Interner,
    collected: &Collected,
    out: &mut Vec<u8>,
) -> io::Result<()> {
    let map = &collected.def_map;
    write_said(session, map, out)?;
    write_prelude(map, out)?;
    write_extern_prelude(session, collected, out)?;
    write_modules(session, map, out)?;
    write_run(collected, out)
}
