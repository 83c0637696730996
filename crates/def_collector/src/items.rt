//! What each kind of item does.
ghost use Rattle.std.specs.Prelude.{◌≡◌, [], false, true, None, IfOk, OnOk};
ghost use Rattle.item_tree.specs.declared.items.ModItemKind.TheVariants as kinds;
ghost use Rattle.def_interner.specs.Session.{AddsLocations, session_of};
ghost use Rattle.def_items.specs.Parts.{with_session};
ghost use Rattle.def_parts.specs.Sites.{site_of};
ghost use Rattle.def_collector.specs.Collector.{state_of, with_deferred};
ghost use Rattle.def_collector.specs.Walk.{AreKnown, inner_of, opens_list};
ghost use Rattle.def_laws.specs.Performs.{GaveImpls, Handled};
ghost use Rattle.def_rules.specs.State.{State};

use crate::calls::collect_macro_call;
use crate::collector::{DefCollector, WrittenCrate, WrittenFunction, WrittenStruct};
use crate::macros::{WrittenMacro, collect_macro, collect_macro_rules};
use crate::modules::{ModuleItem, collect_module, name_text};
use def_attrs::{DeferredDerives, DerivedItem, give_impls};
use def_ids::{ExternBlockLoc, ItemContainerId};
use def_interner::{Interner, Location};
use def_items::{ItemList, define_impl, number_adt};
use def_map::{MapData, SourceDatabase};
use def_parts::Site;
use item_tree::{ItemNode, ModItemId, ModItemKind, Seq};
use macro_calls::WrittenCall;
use std::alloc::AllocError;

/// Lets the derives that are deferred for an item give their impls, if any are deferred for some item.
/// On `Err` nothing but safety is promised.
#[inline(always)]
pub(crate) fn give_deferred<'a, D: SourceDatabase>(
    collector: &mut DefCollector<'a>,
    db: &D,
    session: &mut Interner,
    site: &Site,
    node: &ItemNode,
) -> Result<(), AllocError>
    ensures gave { OnOk result (
        GaveImpls (D.oracle db.now) (state_of collector.old session.old) (site_of site.now) node.now (state_of collector.new session.new)) }
    ensures session { AddsLocations (session_of session.old) (session_of session.new) }
{
    if collector.deferred_builtin_derives.is_empty() {
        return Ok(());
    }
    let deferred = &mut collector.deferred_builtin_derives;
    give_those_of(&mut collector.def_map, deferred, db, session, site, node)
}

/// Lets the derives that are deferred for an item give their impls, where it is a struct, a union or an
/// enum. On `Err` nothing but safety is promised.
#[inline(never)]
fn give_those_of<D: SourceDatabase>(
    def_map: &mut MapData,
    deferred: &mut DeferredDerives,
    db: &D,
    session: &mut Interner,
    site: &Site,
    node: &ItemNode,
) -> Result<(), AllocError>
    ensures gave { OnOk result ((s : State) →
        GaveImpls (D.oracle db.now) (with_deferred s session.old def_map.old deferred.old) (site_of site.now) node.now (with_deferred s session.new def_map.new deferred.new)) }
    ensures session { AddsLocations (session_of session.old) (session_of session.new) }
{
    let Some(adt) = number_adt(session, site, node)? else {
        return Ok(());
    };
    let position = site.position(node);
    let Some(derives) = deferred.take(position) else {
        return Ok(());
    };
    let item = DerivedItem {
        adt,
        module_id: site.module_id,
        position,
    };
    give_impls(def_map, db, session, item, derives.as_slice())
}

/// Handles an item by its kind. The list of items that are to be walked next goes into `opened`, where
/// it opens one. On `Err` nothing but safety is promised.
#[inline(always)]
pub(crate) fn collect_item<'a, D: SourceDatabase>(
    collector: &mut DefCollector<'a>,
    db: &'a D,
    session: &mut Interner,
    site: &Site,
    node: &'a ItemNode,
    opened: &mut Option<ItemList<'a>>,
) -> Result<(), AllocError>
    requires { opened.old ≡ None }
    ensures handled { OnOk result (
        Handled (D.oracle db.now) (state_of collector.old session.old) (state_of collector.new session.new)
        (site_of site.now) node.now (inner_of (D.oracle db.now) opened.new)) }
    ensures known { OnOk result (AreKnown (D.oracle db.now) opened.new) }
    ensures session { AddsLocations (session_of session.old) (session_of session.new) }
{
    if opens_list(&node.kind) {
        *opened = collect_any(collector, db, session, site, node)?;
        Ok(())
    } else {
        collect_leaf(collector, db, session, site, node)
    }
}

/// Whether an item of this kind opens a list of items.
fn opens_list(kind: &ModItemKind) -> bool
    ensures { result ≡ opens_list kind.now }
{
    match kind {
        ModItemKind::Mod { .. } => true,
        ModItemKind::ExternBlock { .. } => true,
        ModItemKind::MacroCall { .. } => true,
        _ => false,
    }
}

/// Handles an item of a kind that opens a list of items. Answers that list, if it is to be walked. It
/// stands apart, since most items open none. On `Err` nothing but safety is promised.
#[inline(never)]
fn collect_any<'a, D: SourceDatabase>(
    collector: &mut DefCollector<'a>,
    db: &'a D,
    session: &mut Interner,
    site: &Site,
    node: &'a ItemNode,
) -> Result<Option<ItemList<'a>>, AllocError>
    ensures handled { IfOk result (λ opened. opens_list node.now.kind ≡ true →
        Handled (D.oracle db.now) (state_of collector.old session.old) (state_of collector.new session.new)
        (site_of site.now) node.now (inner_of (D.oracle db.now) opened)) }
    ensures known { IfOk result (λ opened. AreKnown (D.oracle db.now) opened) }
    ensures session { AddsLocations (session_of session.old) (session_of session.new) }
{
    match &node.kind {
        ModItemKind::Mod {
            name,
            visibility,
            contents,
        } => {
            let item = ModuleItem {
                site,
                node,
                name: *name,
                text: name_text(session, *name),
                vis: collector.resolve_visibility(db, session, site.module_id, visibility),
                contents,
            };
            let diagnostics = &mut collector.diagnostics;
            let table = &mut collector.table;
            let def_map = &mut collector.def_map;
            collect_module(collector.alloc, def_map, table, diagnostics, db, item)
        }
        ModItemKind::ExternBlock { children } => {
            let def_map = &mut collector.def_map;
            collect_extern_block(def_map, db, session, site, node, children)
        }
        ModItemKind::MacroCall {
            path,
            expand_to,
            ctxt,
        } => {
            let written = WrittenCall {
                path,
                expand_to: *expand_to,
                ctxt: *ctxt,
            };
            collect_macro_call(collector, db, session, site, node, written)
        }
        _ => Ok(None),
    }
}

/// Handles an item of a kind that opens no list. On `Err` nothing but safety is promised.
fn collect_leaf<'a, D: SourceDatabase>(
    collector: &mut DefCollector<'a>,
    db: &D,
    session: &mut Interner,
    site: &Site,
    node: &'a ItemNode,
) -> Result<(), AllocError>
    ensures handled { OnOk result (opens_list node.now.kind ≡ false →
        Handled (D.oracle db.now) (state_of collector.old session.old) (state_of collector.new session.new)
        (site_of site.now) node.now []) }
    ensures session { AddsLocations (session_of session.old) (session_of session.new) }
{
    match &node.kind {
        ModItemKind::Use {
            visibility,
            imports,
        } => collector.collect_use(session, site, node, visibility, imports),
        ModItemKind::ExternCrate {
            name,
            visibility,
            alias,
        } => {
            let written = WrittenCrate {
                name: *name,
                visibility,
                alias: *alias,
            };
            collector.collect_crate(db, session, site, node, written)
        }
        ModItemKind::Impl { is_trait_impl } => {
            let def_map = &mut collector.def_map;
            define_impl(def_map, session, site, node, *is_trait_impl)
        }
        ModItemKind::Struct {
            name,
            visibility,
            ctor,
        } => {
            let written = WrittenStruct {
                name: *name,
                visibility,
                ctor,
            };
            collector.collect_struct(db, session, site, node, written)
        }
        ModItemKind::Function { name, visibility } => {
            let written = WrittenFunction {
                name: *name,
                visibility,
            };
            collector.collect_function(db, session, site, node, written)
        }
        ModItemKind::MacroRules { name } => {
            collect_macro_rules(collector, db, session, site, node, *name)
        }
        ModItemKind::Macro2 { name, visibility } => {
            let written = WrittenMacro {
                name: *name,
                visibility,
            };
            collect_macro(collector, db, session, site, node, written)
        }
        _ => collector.collect_declaration(db, session, site, node),
    }
}

/// Records an extern block. Answers the list of its items. On `Err` nothing but safety is
/// promised.
#[inline(never)]
fn collect_extern_block<'a, D: SourceDatabase>(
    def_map: &mut MapData,
    db: &'a D,
    session: &mut Interner,
    site: &Site,
    node: &ItemNode,
    children: &'a Seq<ModItemId>,
) -> Result<Option<ItemList<'a>>, AllocError>
    ensures handled { IfOk result (λ opened. (s : State) → node.now.kind ≡ kinds.ExternBlock children.now →
        Handled (D.oracle db.now) (with_session s session.old def_map.old) (with_session s session.new def_map.new)
        (site_of site.now) node.now (inner_of (D.oracle db.now) opened)) }
    ensures known { IfOk result (λ opened. AreKnown (D.oracle db.now) opened) }
    ensures session { AddsLocations (session_of session.old) (session_of session.new) }
{
    let id = ExternBlockLoc {
        container: site.module_id,
        position: site.position(node),
    }
    .intern(session)?;
    def_map.define_extern_block(site.module_id.index, id)?;
    Ok(Some(ItemList {
        site: Site {
            module_id: site.module_id,
            container: ItemContainerId::ExternBlock(id),
            tree_id: site.tree_id,
            depth: site.depth,
            dir: site.dir.clone()?,
        },
        tree: db.item_tree(site.tree_id),
        items: children.as_slice(),
        into: None,
    }))
}
