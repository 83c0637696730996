//! Macro calls among items.
ghost use Rattle.std.specs.Prelude.{◌≡◌, Ok, IfOk};
ghost use Rattle.def_interner.specs.declared.interner.Interner.{Interner};
ghost use Rattle.def_calls.specs.Shown.{expansion_shown};
ghost use Rattle.macro_calls.specs.Written.{written_of};
ghost use Rattle.def_parts.specs.Sites.{site_of};
ghost use Rattle.def_collector.specs.Collector.{state_of};
ghost use Rattle.def_collector.specs.Walk.{AreKnown, inner_of};
ghost use Rattle.def_laws.specs.Performs.{IsDone};
ghost use Rattle.def_rules.specs.Calls as calls;
ghost use Rattle.def_rules.specs.State.{followed_by};

use crate::collector::DefCollector;
use def_attrs::hand_on;
use def_calls::{Expansion, MacroDirectiveKind, expansion_dir, queue_macro, record_calls};
use def_interner::Interner;
use def_items::{ItemList, top_items};
use def_map::{CallAnswer, SourceDatabase};
use def_parts::Site;
use item_tree::{HirFileId, ItemNode, TreeId};
use macro_calls::{WrittenCall, call_query, deeper, early_answer, is_too_deep};
use std::alloc::AllocError;

/// Tries a macro call where it stands. Answers the list of its expansion's items, if they are to be
/// walked. A call whose macro is not found waits. On `Err` nothing but safety is promised.
#[inline(never)]
pub(crate) fn collect_macro_call<'a, D: SourceDatabase>(
    collector: &mut DefCollector<'a>,
    db: &'a D,
    session: &Interner,
    site: &Site,
    node: &ItemNode,
    written: WrittenCall<'a>,
) -> Result<Option<ItemList<'a>>, AllocError>
    ensures done { IfOk result (λ opened. IsDone (D.oracle db.now)
        (calls.call_effect (D.oracle db.now) (state_of collector.old session.now) (site_of site.now) node.now (written_of written.entry))
        (state_of collector.new session.now) (inner_of (D.oracle db.now) opened)) }
    ensures known { IfOk result (λ opened. AreKnown (D.oracle db.now) opened) }
{
    let alloc = collector.alloc;
    let position = site.position(node);
    let query = call_query(&collector.def_map, position, deeper(site.depth), written);
    let world = collector.world(db, session);
    let answer = early_answer(alloc, &world, site.module_id, query)?;
    match answer {
        Ok(answer) => collect_answer(collector, db, site, node, written, &answer),
        Err(_) => {
            let kind = MacroDirectiveKind::FnLike(written);
            queue_macro(&mut collector.unresolved_macros, site, node, kind)?;
            Ok(None)
        }
    }
}

/// Records the calls of an answer, and opens the expansion of the call itself. One with an error
/// waits.
fn collect_answer<'a, D: SourceDatabase>(
    collector: &mut DefCollector<'a>,
    db: &'a D,
    site: &Site,
    node: &ItemNode,
    written: WrittenCall<'a>,
    answer: &CallAnswer,
) -> Result<Option<ItemList<'a>>, AllocError>
    ensures done { IfOk result (λ opened. (session : Interner) → IsDone (D.oracle db.now)
        (calls.answered_effect (D.oracle db.now) (state_of collector.old session) (site_of site.now) node.now (written_of written.entry) (Ok answer.now))
        (state_of collector.new session) (inner_of (D.oracle db.now) opened)) }
    ensures known { IfOk result (λ opened. AreKnown (D.oracle db.now) opened) }
{
    let module = site.module_id.index;
    record_calls(&mut collector.def_map, module, answer.inner.as_slice())?;
    if let Some(_) = answer.err {
        let kind = MacroDirectiveKind::FnLike(written);
        queue_macro(&mut collector.unresolved_macros, site, node, kind)?;
        return Ok(None);
    }
    let Some(call) = answer.value else {
        return Ok(None);
    };
    let position = site.position(node);
    collector.def_map.add_macro_invoc(module, position, call)?;
    let here = Expansion {
        module_id: site.module_id,
        container: site.container,
        depth: deeper(site.depth),
        call,
        replaces: None,
    };
    open_expansion(collector, db, here)
}

/// The list of an expansion's items, unless it lies too deep. Where they stand in the place of an
/// item, its helpers are theirs. On `Err` nothing but safety is promised.
pub(crate) fn open_expansion<'a, D: SourceDatabase>(
    collector: &mut DefCollector<'a>,
    db: &'a D,
    expansion: Expansion,
) -> Result<Option<ItemList<'a>>, AllocError>
    ensures opened { IfOk result (λ opened. (session : Interner) →
        calls.expansion_effect (D.oracle db.now) (state_of collector.old session) (expansion_shown expansion)
        ≡ followed_by (state_of collector.new session) (inner_of (D.oracle db.now) opened)) }
    ensures known { IfOk result (λ opened. AreKnown (D.oracle db.now) opened) }
{
    let Expansion {
        module_id,
        container,
        depth,
        call,
        replaces,
    } = expansion;
    if is_too_deep(&collector.def_map, depth) {
        return Ok(None);
    }
    let tree_id = TreeId {
        file: HirFileId::Macro(call),
        block: None,
    };
    let tree = db.item_tree(tree_id);
    if let Some(position) = replaces {
        hand_on(
            collector.alloc,
            &mut collector.def_map,
            db,
            position,
            tree_id,
        )?;
    }
    let dir = expansion_dir(collector.alloc, db, &collector.mod_dirs, module_id, call)?;
    Ok(Some(ItemList {
        site: Site {
            module_id,
            container,
            tree_id,
            depth,
            dir,
        },
        tree,
        items: top_items(tree),
        into: None,
    }))
}
