//! The calls that take no memory: made while every request is refused, they ask for none, and
//! answer what they answer else.

use crate::copies::path_of;
use crate::maps::asked;
use crate::refusal::{end, refuse_from};
use def_assoc::{ImplItems, TraitItems};
use def_bindings::{BindingTable, ModuleTree, Namespace, VisOrder, Visibility};
use def_collector::{AttrResolution, Collected};
use def_ids::{FunctionId, ImplId, ModuleId, ProcMacroId, TraitId};
use def_interner::{Interner, LocationId};
use def_map::{
    BuiltinShadowMode, DefMap, ItemScope, LocalDefMap, MacroSubNs, MapData, ResolveMode,
    ResolvePaths, Table,
};
use def_parts::{Globs, ModDir, ProcMacroDef, ProcMacroKind};
use def_workspace::{Fault, Fixture, Part, Workspace, collect, read_row};
use item_tree::sym::{PATH, PROC_MACRO_DERIVE};
use item_tree::{
    AttrId, Attrs, AttrsOrCfg, FileAstId, FileId, HirFileId, InFile, ItemNode, ItemTree, ModItemId,
    ModItemKind, ModPath, Name, PathKind, RawVisibility, Seq, TreeId,
};
use std::alloc::{AllocError, Global};
use std::fmt::Debug;
use std::io::{self, Write};

/// The row whose map, session, tree and items are read.
static ROW: &str = "
-- file
#[proc_macro_derive(D, attributes(a, b))] pub fn d() {}
pub mod a { pub struct S; pub trait T { fn f; type A; } impl T for S { fn f; } }
use a::*; use a::T as _; macro_rules! m {} extern crate gone;
-- shows";

/// The root file of the row.
const ROOT: TreeId = TreeId {
    file: HirFileId::File(FileId(0)),
    block: None,
};

/// Room for all answers.
const ROOM: usize = 100_000;

/// What the calls are made on.
#[derive(Drop)]
struct Subjects {
    workspace: Workspace,
    map: DefMap,
    local: LocalDefMap,
    /// `S`, and what is visible in it.
    path: ModPath,
    visibility: RawVisibility,
    tr: TraitItems,
    imp: ImplItems,
    dir: ModDir,
    macros: (ProcMacroDef, ProcMacroDef),
}

/// Writes an answer.
fn say<T: Debug + Drop>(answer: T, out: &mut Vec<u8>) -> io::Result<()> {
    writeln!(out, "{answer:?}")
}

/// The calls on attributes.
fn attrs(attrs: &Attrs, out: &mut Vec<u8>) -> io::Result<()> {
    let derives = attrs.by_key(PROC_MACRO_DERIVE);
    say(attrs.by_key(PROC_MACRO_DERIVE).exists(), out)?;
    say(derives.tt_values().next().is_some(), out)?;
    say(attrs.by_key(PATH).string_value(), out)?;
    say(attrs.iter_after(None).next().is_some(), out)?;
    say(attrs.iter_after(Some(AttrId(0))).next().is_some(), out)
}

/// The calls on a tree.
fn tree(tree: &ItemTree, out: &mut Vec<u8>) -> io::Result<()> {
    say(tree.top_level_items(), out)?;
    say(
        matches!(tree.top_level_attrs(), AttrsOrCfg::Enabled(_)),
        out,
    )?;
    say(tree.index(ModItemId(1)).map(|node| node.ast_id), out)?;
    match tree.attrs(ModItemId(0)) {
        Some(AttrsOrCfg::Enabled(of_item)) => attrs(of_item, out),
        _ => Ok(()),
    }
}

/// The calls on a session.
fn session(session: &Interner, out: &mut Vec<u8>) -> io::Result<()> {
    say(TraitId(1).lookup(session).is_some(), out)?;
    say(FunctionId(1_000).lookup(session).is_some(), out)?;
    say(session.text(Name(3)), out)?;
    say(session.find_name("S"), out)
}

/// The calls on what a map knows of its crate.
fn krate(map: &DefMap, out: &mut Vec<u8>) -> io::Result<()> {
    say(map.is_fresh(), out)?;
    say(map.recursion_limit(), out)?;
    say(map.is_no_core() || map.is_no_std(), out)?;
    say(map.is_rustc_coherence_is_core(), out)?;
    say(map.registered_tools(), out)?;
    say(map.features().is_enabled(Name(0)), out)?;
    say(map.prelude(), out)?;
    say(map.macro_use_prelude().len(), out)?;
    say(map.exported_derives().len(), out)
}

/// The calls on what a map has beside its scopes.
fn modules(map: &DefMap, out: &mut Vec<u8>) -> io::Result<()> {
    let position = InFile {
        file: ROOT.file,
        value: FileAstId(0),
    };
    say(map.modules().len(), out)?;
    say(map.module(1).map(|found| found.name), out)?;
    say(map.parent(1), out)?;
    say(map.derive_helpers(position).len(), out)?;
    say(map.fn_as_proc_macro(FunctionId(1)), out)?;
    say(map.proc_macro_as_fn(ProcMacroId(0)), out)?;
    say(map.macro_by_position(position), out)
}

/// The calls on what a scope binds.
fn bound(scope: ItemScope<'_>, name: Name, out: &mut Vec<u8>) -> io::Result<()> {
    say(scope.get(name), out)?;
    for resolution in scope.resolutions() {
        say(resolution, out)?;
    }
    for item in scope.unnamed_traits() {
        say(item, out)?;
    }
    say(scope.failed(name), out)
}

/// The calls on what a scope has beside what it binds.
fn declared(scope: ItemScope<'_>, out: &mut Vec<u8>) -> io::Result<()> {
    say(scope.declarations(), out)?;
    say(scope.legacy_macros().len(), out)?;
    say(scope.impls(), out)?;
    say(scope.builtin_derive_impls(), out)?;
    say(scope.extern_crates(), out)?;
    say(scope.extern_blocks(), out)?;
    say(scope.unnamed_consts(), out)?;
    say(scope.invocations().is_some(), out)?;
    say(scope.derives().is_some(), out)
}

/// The calls on the scopes of a map.
fn scopes(map: &DefMap, name: Name, out: &mut Vec<u8>) -> io::Result<()> {
    for index in 0..map.modules().len() {
        if let Some(scope) = map.scope(index) {
            bound(scope, name, out)?;
            declared(scope, out)?;
        }
    }
    Ok(())
}

/// The root of a map.
fn root_of(map: &DefMap) -> ModuleId {
    ModuleId {
        map: map.id(),
        index: 0,
    }
}

/// The calls on paths of a map.
fn paths(subjects: &Subjects, out: &mut Vec<u8>) -> io::Result<()> {
    let (map, local, path) = (&subjects.map, &subjects.local, &subjects.path);
    let (db, session) = (&subjects.workspace.db, &subjects.workspace.session);
    let root = root_of(map);
    let shadow = BuiltinShadowMode::Module;
    let sub = Some(MacroSubNs::Bang);
    let mode = ResolveMode::Import;
    say(
        map.resolve_path_fp_with_macro(local, db, session, mode, root, path, shadow, sub),
        out,
    )?;
    say(
        map.resolve_path(local, db, session, root, path, shadow, None),
        out,
    )?;
    say(
        map.resolve_visibility(local, db, session, root, &subjects.visibility),
        out,
    )?;
    say(map.is_builtin_or_registered_attr(db, path), out)
}

/// The calls on items of traits and impls.
fn items(subjects: &Subjects, out: &mut Vec<u8>) -> io::Result<()> {
    let (tr, imp) = (&subjects.tr, &subjects.imp);
    let name = Name(0);
    for id in tr.associated_types() {
        say(id, out)?;
    }
    say(tr.macro_calls().count(), out)?;
    say(imp.macro_calls().count(), out)?;
    for (known, id) in &tr.items {
        say(
            (tr.method_by_name(known), tr.associated_type_by_name(known)),
            out,
        )?;
        say(tr.assoc_item_by_name(known) == Some(*id), out)?;
    }
    say(tr.method_by_name(&name), out)?;
    say((tr == &subjects.tr, imp == &subjects.imp), out)
}

/// The calls on directories, and on what is declared of procedural macros.
fn files(alloc: Global, subjects: &Subjects, out: &mut Vec<u8>) -> io::Result<()> {
    let root = ModDir::root(alloc);
    say((root.depth(), root.root_non_dir_owner()), out)?;
    let dir = &subjects.dir;
    say((dir.depth(), dir.dir_path().as_str()), out)?;
    let (one, other) = &subjects.macros;
    say((one == one, one == other, one.kind == other.kind), out)
}

/// The calls on the order of visibilities.
fn order(order: &ModuleTree, place: ModuleId, out: &mut Vec<u8>) -> io::Result<()> {
    let child = Visibility::Module(ModuleId { index: 1, ..place });
    for vis in [Visibility::Public, Visibility::PubCrate, child] {
        say((order.max(vis, child), order.min(vis, child)), out)?;
        say((order.visible(vis, place), order.same(vis, child)), out)?;
    }
    Ok(())
}

/// The calls on a table.
fn table(table: &Table, place: ModuleId, name: Name, out: &mut Vec<u8>) -> io::Result<()> {
    say(table.binding(place, name, Namespace::Types), out)?;
    say(table.name_at(place, 0), out)?;
    say(table.unnamed_at(place, 0), out)?;
    say(
        table.edge_at(ModuleId { index: 1, ..place }, 0).is_some(),
        out,
    )
}

/// The calls on globs over a table, and those that take names out.
fn globs(
    alloc: Global,
    bound: Table,
    place: ModuleId,
    name: Name,
    out: &mut Vec<u8>,
) -> io::Result<Table> {
    let mut globs = Globs::new(alloc, bound);
    globs.remove(place, name, Namespace::Types);
    table(globs.table(), place, name, out)?;
    let mut bound = globs.into_table();
    bound.remove(place, name, Namespace::Values);
    table(&bound, place, name, out)?;
    Ok(bound)
}

/// The calls on the data of a map.
fn data(subjects: &Subjects, data: &MapData, bound: &Table, out: &mut Vec<u8>) -> io::Result<()> {
    let (local, path) = (&subjects.local, &subjects.path);
    let (db, session) = (&subjects.workspace.db, &subjects.workspace.session);
    let root = root_of(&subjects.map);
    let shadow = BuiltinShadowMode::Other;
    let mode = ResolveMode::Other;
    say(
        data.resolve_path_fp_with_macro(bound, local, db, session, mode, root, path, shadow, None),
        out,
    )?;
    say(
        data.resolve_path(bound, local, db, session, root, path, shadow, None),
        out,
    )?;
    let visibility = &subjects.visibility;
    say(
        data.resolve_visibility(bound, local, db, session, root, visibility),
        out,
    )
}

/// The calls that take a map apart, and put it together.
fn parts(alloc: Global, subjects: &Subjects, map: DefMap, out: &mut Vec<u8>) -> io::Result<()> {
    let root = root_of(&map);
    let (of_map, bound) = map.into_parts();
    data(subjects, &of_map, &bound, out)?;
    order(&of_map.tree, root, out)?;
    let bound = globs(alloc, bound, root, Name(0), out)?;
    let whole = DefMap::from_parts(of_map, bound);
    say(whole.is_fresh(), out)
}

/// What calls take.
#[derive(Drop)]
struct Taken {
    /// A second map.
    map: Option<DefMap>,
    /// The items of a tree.
    written: Option<(Vec<ItemNode>, Vec<ModItemId>)>,
}

/// The groups of calls.
const GROUPS: [&str; 10] = [
    "trees",
    "sessions",
    "what is known of crates",
    "modules",
    "scopes",
    "paths",
    "items of traits and impls",
    "directories",
    "parts of maps",
    "new trees",
];

/// Makes the calls of a group, by its number.
fn read_group(
    alloc: Global,
    number: usize,
    subjects: &Subjects,
    taken: &mut Taken,
    out: &mut Vec<u8>,
) -> io::Result<()> {
    let (db, names) = (&subjects.workspace.db, &subjects.workspace.session);
    let name = subjects.path.as_ident().unwrap_or(Name(0));
    match number {
        0 => match db.files.trees.get(&ROOT) {
            Some(found) => tree(found, out),
            None => Ok(()),
        },
        1 => session(names, out),
        2 => krate(&subjects.map, out),
        3 => modules(&subjects.map, out),
        4 => scopes(&subjects.map, name, out),
        5 => paths(subjects, out),
        6 => items(subjects, out),
        7 => files(alloc, subjects, out),
        8 => match taken.map.take() {
            Some(map) => parts(alloc, subjects, map, out),
            None => Ok(()),
        },
        _ => match taken.written.take() {
            Some((items, top)) => say(ItemTree::new(items, top, no_attrs(alloc)).is_ok(), out),
            None => Ok(()),
        },
    }
}

/// No attributes.
fn no_attrs(alloc: Global) -> AttrsOrCfg {
    AttrsOrCfg::Enabled(Attrs {
        list: Seq::from_vec(Vec::new(alloc)),
    })
}

/// A macro that is called as any other one.
fn bang() -> ProcMacroDef {
    ProcMacroDef {
        name: Name(0),
        kind: ProcMacroKind::Bang,
    }
}

/// A derive with a helper.
fn derive(alloc: Global) -> Result<ProcMacroDef, AllocError> {
    let helpers = vec![in alloc; Name(1)]?;
    Ok(ProcMacroDef {
        name: Name(0),
        kind: ProcMacroKind::Derive { helpers },
    })
}

/// An item of a tree, and the list of the items that are in no other.
fn written(alloc: Global) -> Result<(Vec<ItemNode>, Vec<ModItemId>), AllocError> {
    let node = ItemNode {
        ast_id: FileAstId(0),
        attrs: None,
        kind: ModItemKind::MacroRules { name: Name(0) },
    };
    Ok((vec![in alloc; node]?, vec![in alloc; ModItemId(0)]?))
}

/// The map of a row, and what paths may begin with in it.
fn map_of(
    workspace: &mut Workspace,
    row: &Fixture<'_>,
) -> Result<Option<(DefMap, LocalDefMap)>, Fault> {
    match collect(workspace, row)? {
        Some(collected) => {
            let Collected {
                def_map,
                local_def_map,
                outcome: _,
                diagnostics: _,
            } = collected;
            Ok(Some((def_map, local_def_map)))
        }
        None => Ok(None),
    }
}

/// What the calls are made on, but for what they take.
fn subjects_of(alloc: Global, row: &Fixture<'_>) -> Result<Option<Subjects>, Fault> {
    let mut workspace = asked(alloc, row)?;
    let Some((map, local)) = map_of(&mut workspace, row)? else {
        return Ok(None);
    };
    let name = workspace.session.intern_name("S")?;
    let Some(dir) = ModDir::root(alloc).descend_into_definition("a", None)? else {
        return Ok(None);
    };
    let Workspace { session, db, .. } = &mut workspace;
    let (tr, _) = TraitItems::query_with_diagnostics(alloc, db, session, TraitId(1))?;
    let (imp, _) = ImplItems::of(alloc, db, session, ImplId(1))?;
    Ok(Some(Subjects {
        workspace,
        map,
        local,
        path: path_of(alloc, name)?,
        visibility: RawVisibility::In(path_of(alloc, name)?),
        tr,
        imp,
        dir,
        macros: (bang(), derive(alloc)?),
    }))
}

/// Makes all calls, where it is asked while every request is refused. Answers for each group what it
/// answers, and none where it asked for memory.
fn answers(alloc: Global, row: &Fixture<'_>, refuses: bool) -> Result<Vec<Option<Vec<u8>>>, Fault> {
    let mut groups = Vec::with_capacity(alloc, GROUPS.len())?;
    let Some(mut subjects) = subjects_of(alloc, row)? else {
        return Ok(groups);
    };
    let mut taken = Taken {
        map: map_of(&mut subjects.workspace, row)?.map(|(map, _)| map),
        written: Some(written(alloc)?),
    };
    for number in 0..GROUPS.len() {
        let mut out = Vec::with_capacity(alloc, ROOM)?;
        if refuses {
            refuse_from(alloc, 1);
        }
        let read = read_group(alloc, number, &subjects, &mut taken, &mut out);
        let is_refused = end(alloc);
        let group = if is_refused || read.is_err() {
            None
        } else {
            Some(out)
        };
        if let Err(failed) = groups.push(group) {
            return Err(AllocError::from(failed).into());
        }
    }
    Ok(groups)
}

/// The first group of calls that asks for memory, or answers otherwise where there is none; none
/// where all are right.
pub fn answered_otherwise(alloc: Global) -> Result<Option<&'static str>, Fault> {
    let row = read_row(alloc, Part { text: ROW, line: 1 })?;
    let before = answers(alloc, &row, false)?;
    let refused = answers(alloc, &row, true)?;
    for (number, name) in GROUPS.iter().enumerate() {
        match (before.get(number), refused.get(number)) {
            (Some(Some(before)), Some(Some(refused))) if before.as_slice() == refused.as_slice() =>
                {}
            _ => return Ok(Some(name)),
        }
    }
    Ok(None)
}
