//! The walk of item trees, over an explicit stack of lists.
ghost use Rattle.std.specs.Prelude.{◌≡◌, ◌<◌, ◌+◌, ◌++◌, ◌∷◌, [], true, false, List, None, Some, is_some, option_and_then, IfOk, OnOk};
ghost use Rattle.std.specs.Option.{option_copied};
ghost use Rattle.item_tree.specs.Trees.{item_at};
ghost use Rattle.def_ids.specs.Ids.{is_same_module};
ghost use Rattle.def_interner.specs.declared.interner.Interner.{Interner};
ghost use Rattle.def_interner.specs.Session.{AddsLocations, session_of};
ghost use Rattle.def_modules.specs.Updates.{set_where};
ghost use Rattle.def_items.specs.Lists.{IsBegun, left_of};
ghost use Rattle.def_items.specs.Parts.{list_site};
ghost use Rattle.def_parts.specs.Sites.{directories_of, site_of};
ghost use Rattle.def_collector.specs.Passes.{Awaits};
ghost use Rattle.def_rules.specs.Attributes.{awaited_attr};
ghost use Rattle.def_collector.specs.Collector.{state_of};
ghost use Rattle.def_collector.specs.Walk.{AreKnown, IsTurn, frame_tasks, inner_of, is_frame_known, is_known, list_tasks, with_lists};
ghost use Rattle.def_laws.specs.Work.{task_work, work};
ghost use Rattle.def_rules.specs.State.{State, Task, Visit};
ghost use Rattle.def_laws.specs.Runs.{Leads};

use crate::collector::DefCollector;
use crate::items::{collect_item, give_deferred};
use def_attrs::awaited_attr;
use def_calls::{MacroDirectiveKind, WrittenAttr, queue_macro};
use def_interner::Interner;
use def_items::{Frame, ItemList, bring_macros, push_list, push_opened, report_disabled_item};
use def_map::{MapData, SourceDatabase};
use def_parts::{ModDirs, Site};
use item_tree::{ItemNode, ItemTree, ModItemId};
use std::alloc::{AllocError, Global};

/// Walks a list of items: each is handled, and its own items are walked before the next. The
/// files of modules that include each other end with the depth of their directories. On `Err`
/// nothing but safety is promised.
pub fn walk<'a, D: SourceDatabase>(
    collector: &mut DefCollector<'a>,
    db: &'a D,
    session: &mut Interner,
    first: ItemList<'a>,
) -> Result<(), AllocError>
    requires { is_known (D.oracle db.now) first }
    ensures run { OnOk result (Leads (D.oracle db.now) (list_tasks (D.oracle db.now) first.entry)
        (state_of collector.old session.old) [] (state_of collector.new session.new)) }
    ensures session { AddsLocations (session_of session.old) (session_of session.new) }
{
    let mut frames = begin_walk(collector.alloc, &mut collector.mod_dirs, first)?;
    'frames: while let Some(mut frame) = frames.pop() {
        let opened = walk_list(collector, db, session, &mut frame)?;
        let mod_dirs = &mut collector.mod_dirs;
        let def_map = &mut collector.def_map;
        turn(
            collector.alloc,
            mod_dirs,
            def_map,
            &mut frames,
            frame,
            opened,
        )?;
    }
    Ok(())
}

/// Begins the walk of a list: its frame is the only one on the stack. On `Err` nothing but safety is
/// promised.
fn begin_walk<'a>(
    alloc: Global,
    mod_dirs: &mut ModDirs,
    first: ItemList<'a>,
) -> Result<Vec<Frame<'a>>, AllocError>
    ensures begun { IfOk result (λ frames. IsBegun [] first.entry frames.items) }
    ensures entered { OnOk result (directories_of mod_dirs.new
        ≡ set_where (is_same_module first.entry.site.module_id) (Some first.entry.site.dir) (directories_of mod_dirs.old)) }
{
    let mut frames = Vec::new(alloc);
    push_list(alloc, mod_dirs, &mut frames, first)?;
    Ok(frames)
}

/// Takes a turn of a walk, of a frame whose items were visited: up to one that opened a list, which is
/// walked next, or all of them, so that their macros are handed on. On `Err` nothing but safety is
/// promised.
fn turn<'a>(
    alloc: Global,
    mod_dirs: &mut ModDirs,
    def_map: &mut MapData,
    frames: &mut Vec<Frame<'a>>,
    frame: Frame<'a>,
    opened: Option<ItemList<'a>>,
) -> Result<(), AllocError>
    ensures { OnOk result ((s : State) →
        IsTurn frames.old.items frame.entry opened.entry (with_lists s mod_dirs.old def_map.old) frames.new.items (with_lists s mod_dirs.new def_map.new)) }
{
    match opened {
        Some(list) => push_opened(alloc, mod_dirs, frames, frame, list),
        None => bring_macros(alloc, def_map, &frame.list),
    }
}

/// Visits the items that a frame has left, up to one that opens a list, which is answered. The
/// frame stays where it is. On `Err` nothing but safety is promised.
fn walk_list<'a, D: SourceDatabase>(
    collector: &mut DefCollector<'a>,
    db: &'a D,
    session: &mut Interner,
    frame: &mut Frame<'a>,
) -> Result<Option<ItemList<'a>>, AllocError>
    requires { is_frame_known (D.oracle db.now) frame.old }
    ensures run { IfOk result (λ opened. (rest : List Task) →
        Leads (D.oracle db.now) (frame_tasks frame.old ++ rest) (state_of collector.old session.old)
        (inner_of (D.oracle db.now) opened ++ (frame_tasks frame.new ++ rest))
        (state_of collector.new session.new)) }
    ensures ends { IfOk result (λ opened. is_some opened ≡ false → left_of frame.new ≡ []) }
    ensures fewer { IfOk result (λ opened. is_some opened ≡ true →
        1 + work (inner_of (D.oracle db.now) opened) + work (frame_tasks frame.new)
        < work (frame_tasks frame.old)) }
    ensures known { IfOk result (λ opened. AreKnown (D.oracle db.now) opened
        × is_frame_known (D.oracle db.now) frame.new) }
    ensures session { AddsLocations (session_of session.old) (session_of session.new) }
{
    let mut opened = None;
    'items: while let Some(id) = frame.next_item() {
        frame.next += 1;
        visit(collector, db, session, &frame.list, id, &mut opened)?;
        if opened.is_some() {
            return Ok(opened);
        }
    }
    Ok(None)
}

/// Visits an item again that waited, and walks its own items. On `Err` nothing but safety is
/// promised.
pub fn walk_item<'a, D: SourceDatabase>(
    collector: &mut DefCollector<'a>,
    db: &'a D,
    session: &mut Interner,
    list: &ItemList<'a>,
    id: ModItemId,
) -> Result<(), AllocError>
    requires { is_known (D.oracle db.now) list.now }
    ensures run { OnOk result (Leads (D.oracle db.now) (Visit (list_site list.now) id ∷ [])
        (state_of collector.old session.old) [] (state_of collector.new session.new)) }
    ensures session { AddsLocations (session_of session.old) (session_of session.new) }
{
    let mut opened = None;
    visit(collector, db, session, list, id, &mut opened)?;
    match opened {
        Some(opened) => walk(collector, db, session, opened),
        None => Ok(()),
    }
}

/// Visits an item: one that cfg disables is reported, one with an attribute that may be a macro
/// waits for it, any other is handled. The list of items that are to be walked next goes into `opened`,
/// where it opens one: few items do, and a list is long. On `Err` nothing but safety is promised.
#[inline(always)]
fn visit<'a, D: SourceDatabase>(
    collector: &mut DefCollector<'a>,
    db: &'a D,
    session: &mut Interner,
    list: &ItemList<'a>,
    id: ModItemId,
    opened: &mut Option<ItemList<'a>>,
) -> Result<(), AllocError>
    requires list { is_known (D.oracle db.now) list.now }
    requires empty { opened.old ≡ None }
    ensures run { OnOk result ((rest : List Task) →
        Leads (D.oracle db.now) (Visit (list_site list.now) id ∷ rest) (state_of collector.old session.old)
        (inner_of (D.oracle db.now) opened.new ++ rest) (state_of collector.new session.new)) }
    ensures fewer { OnOk result (
        1 + work (inner_of (D.oracle db.now) opened.new) < task_work (Visit (list_site list.now) id)) }
    ensures known { OnOk result (AreKnown (D.oracle db.now) opened.new) }
    ensures session { AddsLocations (session_of session.old) (session_of session.new) }
{
    let Some(node) = item_in(list.tree, id) else {
        return Ok(());
    };
    let site = &list.site;
    let disabled = report_disabled_item(&mut collector.diagnostics, site, node)?;
    if let Some(_) = disabled {
        return Ok(());
    }
    if queue_awaited(collector, db, site, id, node)? {
        return Ok(());
    }
    give_deferred(collector, db, session, site, node)?;
    collect_item(collector, db, session, site, node, opened)
}

/// Lets an item wait for the macro of an attribute, where it has one that may be a macro. On `Err`
/// nothing but safety is promised.
#[inline(always)]
fn queue_awaited<'a, D: SourceDatabase>(
    collector: &mut DefCollector<'a>,
    db: &D,
    site: &Site,
    id: ModItemId,
    node: &'a ItemNode,
) -> Result<bool, AllocError>
    ensures waits { IfOk result (λ waits. waits ≡ true → (session : Interner) →
        Awaits (D.oracle db.now) (state_of collector.old session) (site_of site.now) id node.now (state_of collector.new session)) }
    ensures same { IfOk result (λ waits. waits ≡ false → (collector.new ≡ collector.old)
        × ((session : Interner) → awaited_attr (D.oracle db.now) (state_of collector.old session) (site_of site.now) id node.now ≡ None)) }
{
    let def_map = &collector.def_map;
    let awaited = awaited_attr(db, def_map, &collector.item_attrs, site, id, node);
    let Some((attr_id, attr)) = awaited else {
        return Ok(false);
    };
    let kind = MacroDirectiveKind::Attr(WrittenAttr {
        tree_id: site.tree_id,
        item: id,
        attr_id,
        attr,
    });
    queue_macro(&mut collector.unresolved_macros, site, node, kind)?;
    Ok(true)
}

/// The item of this number, if the tree is there and has it.
pub(crate) fn item_in<'a>(tree: Option<&'a ItemTree>, id: ModItemId) -> Option<&'a ItemNode>
    ensures { option_copied result ≡ option_and_then (λ t. item_at t.now.items id) tree.entry }
{
    match tree {
        Some(tree) => tree.index(id),
        None => None,
    }
}
