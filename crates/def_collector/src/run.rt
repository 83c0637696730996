//! A whole run: what is known of a crate is read, its items are walked, and passes over imports and
//! macros are made until nothing moves.
ghost use Rattle.std.specs.Prelude.{◌≡◌, ◌≤◌, ◌<◌, ◌*◌, ◌++◌, [], Some, length, is_some, option_map, slice_get, IfOk, OnOk};
ghost use Rattle.std.specs.Option.{option_map_or};
ghost use Rattle.def_calls.specs.Shown.{macro_directive_of};
ghost use Rattle.def_calls.specs.declared.directives.MacroDirective.{MacroDirective};
ghost use Rattle.tree_ids.specs.declared.ids.TreeId.{TreeId};
ghost use Rattle.def_interner.specs.declared.interner.Interner.{Interner};
ghost use Rattle.def_imports.specs.Room.{imports_written};
ghost use Rattle.def_interner.specs.Session.{AddsLocations, session_of};
ghost use Rattle.def_map.specs.DefMaps as whole;
ghost use Rattle.def_map.specs.Fresh.{IsFresh};
ghost use Rattle.def_modules.specs.Locals.{local_view};
ghost use Rattle.def_modules.specs.Maps.{map_state};
ghost use Rattle.def_collector.specs.Answer.{shown};
ghost use Rattle.def_collector.specs.Collector.{state_of, with_reported};
ghost use Rattle.def_collector.specs.Setting.{setting_of};
ghost use Rattle.def_rules.specs.Headline.{Answers};
ghost use Rattle.def_rules.specs.Report.{macro_report};
ghost use Rattle.def_rules.specs.Start.{first_depth, first_tasks, first_tree};
ghost use Rattle.def_rules.specs.Start.{seeded_state, started};
ghost use Rattle.def_rules.specs.State.{IsBare};
ghost use Rattle.def_laws.specs.Runs.{Leads};
ghost use Rattle.def_laws.specs.Sound.{IsSoundWith};
ghost use Rattle.def_rounds.specs.Rounds.{Ends};

use crate::answer::Collected;
use crate::collector::DefCollector;
use crate::passes::Run;
use crate::seeding::seed;
use crate::stack::walk;
use def_attrs::{DeferredDerives, ItemAttrs};
use def_calls::{MacroDirectiveKind, report_left_call, report_left_derive, waiting_answer};
use def_crates::{MissingCrates, deps_by_name, is_proc_macro_crate, top_attrs};
use def_ids::{ItemContainerId, MapId, ModuleId};
use def_imports::Room;
use def_interner::Interner;
use def_items::{ItemList, disabled_by, expect_names, report_disabled, top_items};
use def_map::{DefMap, LocalDefMap, SourceDatabase};
use def_parts::{Globs, ModDir, ModDirs, Site};
use def_rounds::resolution_loop;
use def_steps::PendingImports;
use indexmap::IndexMap;
use item_tree::{HirFileId, ItemTree, TreeId};
use std::alloc::{AllocError, Global};
use std::collections::VecDeque;

/// Collects the definitions of a crate or a block into its seeded map.
///
/// The map is fresh, as `DefMap::seed` leaves one; the tree is a block's, and `crate_local` is
/// given, exactly where the map is a block's. A tree that the database lacks counts as empty. Want
/// of memory answers no map; the session keeps all earlier entries, perhaps with more locations, and
/// no name gets a text.
pub fn collect_defs<D: SourceDatabase>(
    alloc: Global,
    db: &D,
    session: &mut Interner,
    def_map: DefMap,
    tree_id: TreeId,
    crate_local: Option<&LocalDefMap>,
) -> Result<Collected, AllocError>
    requires fresh { IsFresh (whole.state_of def_map) (whole.content_of def_map) }
    requires tree { is_some tree_id.block ≡ is_some (whole.state_of def_map).id.block }
    requires local { is_some crate_local ≡ is_some (whole.state_of def_map).id.block }

    // What is answered ends a run of the machine.
    ensures answers { IfOk result (λ collected.
        Answers (setting_of (D.oracle db.now) def_map tree_id (option_map (λ l. local_view l.now) crate_local.entry))
        (session_of session.old) (session_of session.new) (shown collected)) }

    // Whatever is answered, the session keeps its entries, and no name gets a text.
    ensures session { AddsLocations (session_of session.old) (session_of session.new) }
{
    let collector = begin(alloc, db, def_map, tree_id, crate_local)?;
    let mut run = Run {
        collector,
        db,
        waited: 0,
    };
    let limit_met = collect(&mut run, session, tree_id)?;
    // What is reported is asked of the table that is answered.
    let mut answered = run.into_collector().censored()?;
    report_macros(&mut answered, db, session)?;
    answered.finish(limit_met)
}

/// A collector that knows the seeded map alone, and what the database says of its crate.
fn begin<'a, D: SourceDatabase>(
    alloc: Global,
    db: &D,
    def_map: DefMap,
    tree_id: TreeId,
    crate_local: Option<&'a LocalDefMap>,
) -> Result<DefCollector<'a>, AllocError>
    requires { IsFresh (whole.state_of def_map) (whole.content_of def_map) }
    ensures seeded { IfOk result (λ collector. (tree : TreeId) (session : Interner) →
        let local = option_map (λ l. local_view l.now) crate_local.entry in
        let setting = setting_of (D.oracle db.now) def_map tree local in
        state_of collector session ≡ seeded_state setting (session_of session)) }
{
    let (data, table) = def_map.into_parts();
    let mut table = table;
    let krate = data.tree.map.krate;
    let room = room_for(db, data.tree.map, tree_id);
    table.reserve(room.names, room.globs)?;
    let mut collector = DefCollector {
        alloc,
        def_map: data,
        table: Globs::new(alloc, table),
        targets: IndexMap::new(alloc),
        local_def_map: LocalDefMap::new(alloc),
        crate_local,
        is_proc_macro: is_proc_macro_crate(db, krate),
        deps: LocalDefMap::new(alloc),
        missing_crates: MissingCrates::new(alloc),
        mod_dirs: ModDirs::new(alloc),
        imports: PendingImports::new(alloc),
        item_attrs: ItemAttrs::new(alloc),
        deferred_builtin_derives: DeferredDerives::new(alloc),
        unresolved_macros: VecDeque::new(alloc),
        inner_calls: Vec::new(alloc),
        expansions: VecDeque::new(alloc),
        diagnostics: Vec::new(alloc),
    };
    make_room(&mut collector, room)?;
    collector.deps = deps_by_name(alloc, db, krate)?;
    Ok(collector)
}

/// Makes room for modules and imports, so that what is there is not copied while it grows.
fn make_room<'a>(collector: &mut DefCollector<'a>, room: Room) -> Result<(), AllocError>
    ensures state { (session : Interner) → state_of collector.new session ≡ state_of collector.old session }
{
    let root = ModuleId {
        map: collector.def_map.tree.map,
        index: 0,
    };
    expect_names(&mut collector.table, root, room.root_items);
    collector.def_map.reserve(room.modules)?;
    collector.def_map.expect_items(0, room.root_items);
    collector.imports.reserve(room.imports)
}

/// The room that a run begins with, by its first tree.
fn room_for<D: SourceDatabase>(db: &D, map: MapId, tree_id: TreeId) -> Room
    ensures names { let tree = (D.oracle db.now).item_tree (first_tree (D.oracle db.now) map tree_id) in
        result.names ≤ option_map_or (λ t. length t.items * 3) tree 0 }
    ensures imports { let tree = (D.oracle db.now).item_tree (first_tree (D.oracle db.now) map tree_id) in
        result.imports ≤ option_map_or (λ t. imports_written t.items) tree 0 }
    ensures modules { let tree = (D.oracle db.now).item_tree (first_tree (D.oracle db.now) map tree_id) in
        result.modules ≤ option_map_or (λ t. length t.items) tree 0 }
    ensures globs { let tree = (D.oracle db.now).item_tree (first_tree (D.oracle db.now) map tree_id) in
        result.globs ≤ option_map_or (λ t. imports_written t.items) tree 0 }
    ensures root_items { let tree = (D.oracle db.now).item_tree (first_tree (D.oracle db.now) map tree_id) in
        result.root_items ≤ option_map_or (λ t. length t.top) tree 0 }
{
    match db.item_tree(first_tree(db, map, tree_id)) {
        Some(tree) => Room::of_tree(tree),
        None => Room {
            names: 0,
            imports: 0,
            modules: 0,
            globs: 0,
            root_items: 0,
        },
    }
}

/// Makes room in the session for the items of a tree, if there is one.
fn make_room_for_items(tree: Option<&ItemTree>, session: &mut Interner) -> Result<(), AllocError>
    ensures { session.new ≡ session.old }
{
    match tree {
        Some(tree) => session.reserve(tree),
        None => Ok(()),
    }
}

/// Walks the items, and then makes passes until nothing moves, or too many rounds were made. Answers
/// whether the limit of rounds was met. On `Err` nothing but safety is promised.
fn collect<'a, D: SourceDatabase>(
    run: &mut Run<'a, D>,
    session: &mut Interner,
    tree_id: TreeId,
) -> Result<bool, AllocError>
    requires start { IsSoundWith
        (first_tasks (D.oracle run.old.db.now) (map_state run.old.collector.def_map) tree_id)
        (started (D.oracle run.old.db.now) tree_id (state_of run.old.collector session.old)) }
    requires bare { IsBare (state_of run.old.collector session.old) }
    ensures ends { IfOk result (λ limit_met. Ends (D.oracle run.old.db.now)
        (first_tasks (D.oracle run.old.db.now) (map_state run.old.collector.def_map) tree_id)
        (started (D.oracle run.old.db.now) tree_id (state_of run.old.collector session.old))
        limit_met (state_of run.new.collector session.new)) }
    ensures sound { OnOk result (IsSoundWith [] (state_of run.new.collector session.new)) }
    ensures bare { OnOk result (IsBare (state_of run.new.collector session.new)) }
    ensures session { AddsLocations (session_of session.old) (session_of session.new) }
{
    seed_with_top_level(&mut run.collector, run.db, session, tree_id)?;
    resolution_loop(run, session)
}

/// Learns what is known of the crate, and walks the top items of its root file, or of the block.
/// On `Err` nothing but safety is promised.
fn seed_with_top_level<'a, D: SourceDatabase>(
    collector: &mut DefCollector<'a>,
    db: &'a D,
    session: &mut Interner,
    tree_id: TreeId,
) -> Result<(), AllocError>
    ensures run { OnOk result (Leads (D.oracle db.now)
        (first_tasks (D.oracle db.now) (map_state collector.old.def_map) tree_id)
        (started (D.oracle db.now) tree_id (state_of collector.old session.old))
        [] (state_of collector.new session.new)) }
    ensures session { AddsLocations (session_of session.old) (session_of session.new) }
{
    let map = collector.def_map.tree.map;
    let tree_id = first_tree(db, map, tree_id);
    let tree = db.item_tree(tree_id);
    let disabled = disabled_by(tree);
    seed(collector, db, session, top_attrs(tree), disabled)?;
    if let Some(cfg) = disabled {
        let diagnostics = &mut collector.diagnostics;
        return report_disabled(diagnostics, &collector.def_map, tree_id, cfg);
    }
    make_room_for_items(tree, session)?;
    walk(
        collector,
        db,
        session,
        ItemList {
            site: Site {
                module_id: ModuleId { map, index: 0 },
                container: ItemContainerId::Module(ModuleId { map, index: 0 }),
                tree_id,
                depth: first_depth(db, map, tree_id),
                dir: ModDir::root(collector.alloc),
            },
            tree,
            items: top_items(tree),
            into: None,
        },
    )
}

/// Reports what waits for a macro and is left over, in order, by the table as it stands. On `Err`
/// nothing but safety is promised.
fn report_macros<'a, D: SourceDatabase>(
    collector: &mut DefCollector<'a>,
    db: &D,
    session: &Interner,
) -> Result<(), AllocError>
    ensures { OnOk result (state_of collector.new session.now ≡ with_reported (D.oracle db.now) (state_of collector.old session.now)) }
{
    'left: for i in 0..collector.unresolved_macros.len() {
        report_macro(collector, db, session, i)?;
    }
    Ok(())
}

/// Reports one that is left over. On `Err` nothing but safety is promised.
fn report_macro<'a, D: SourceDatabase>(
    collector: &mut DefCollector<'a>,
    db: &D,
    session: &Interner,
    i: usize,
) -> Result<(), AllocError>
    requires { i < length collector.old.unresolved_macros.items }
    ensures frame { collector.new ≡ record collector.old { diagnostics = collector.new.diagnostics } }
    ensures told { OnOk result ((d : MacroDirective) →
        slice_get collector.old.unresolved_macros.items i ≡ Some d →
        collector.new.diagnostics.items ≡ collector.old.diagnostics.items
        ++ macro_report (D.oracle db.now) (state_of collector.old session.now) (macro_directive_of d)) }
{
    let directive = collector.unresolved_macros[i];
    match directive.kind {
        MacroDirectiveKind::FnLike(written) => {
            let world = collector.world(db, session);
            let answer = waiting_answer(
                collector.alloc,
                &world,
                &collector.def_map,
                &directive,
                written,
            )?;
            report_left_call(&mut collector.diagnostics, &directive, answer)
        }
        MacroDirectiveKind::Attr(_) => Ok(()),
        MacroDirectiveKind::Derive(written) => {
            report_left_derive(&mut collector.diagnostics, &directive, written)
        }
    }
}

/// How deep in expansions of macros the first items are walked: those of a block as deep as its
/// file.
fn first_depth<D: SourceDatabase>(db: &D, map: MapId, tree_id: TreeId) -> u32
    ensures { result ≡ first_depth (D.oracle db.now) map tree_id }
{
    match map.block {
        Some(_) => db.expansion_depth(tree_id.file),
        None => 0,
    }
}

/// The tree whose top items are walked: that of the crate's root file, where its data name one,
/// or the one that was handed in.
fn first_tree<D: SourceDatabase>(db: &D, map: MapId, tree_id: TreeId) -> TreeId
    ensures { result ≡ first_tree (D.oracle db.now) map tree_id }
{
    if map.block.is_some() {
        return tree_id;
    }
    match db.crate_data(map.krate) {
        Some(known) => TreeId {
            file: HirFileId::File(known.root_file),
            block: None,
        },
        None => tree_id,
    }
}
