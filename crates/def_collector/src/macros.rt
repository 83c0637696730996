//! Items that define macros.
ghost use Rattle.std.specs.Prelude.{◌≡◌, [], OnOk};
ghost use Rattle.item_tree.specs.declared.items.ModItemKind.TheVariants as kinds;
ghost use Rattle.def_interner.specs.Session.{AddsLocations, session_of};
ghost use Rattle.def_parts.specs.Sites.{site_of};
ghost use Rattle.def_collector.specs.Collector.{state_of};
ghost use Rattle.def_laws.specs.Performs.{Handled};

use crate::collector::DefCollector;
use def_interner::Interner;
use def_macros::{keep_macro, keep_macro_rules, number_macro, number_macro_rules};
use def_map::SourceDatabase;
use def_parts::Site;
use item_tree::{ItemNode, Name, RawVisibility};
use std::alloc::AllocError;

/// A `macro` item as it is written.
#[derive(Clone, Copy)]
pub(crate) struct WrittenMacro<'a> {
    pub name: Name,
    pub visibility: &'a RawVisibility,
}

/// Defines a macro by rules for the text behind it, and declares it where it is exported. On `Err`
/// nothing but safety is promised.
#[inline(never)]
pub(crate) fn collect_macro_rules<D: SourceDatabase>(
    collector: &mut DefCollector<'_>,
    db: &D,
    session: &mut Interner,
    site: &Site,
    node: &ItemNode,
    name: Name,
) -> Result<(), AllocError>
    ensures handled { OnOk result (node.now.kind ≡ kinds.MacroRules name →
        Handled (D.oracle db.now) (state_of collector.old session.old) (state_of collector.new session.new)
        (site_of site.now) node.now []) }
    ensures session { AddsLocations (session_of session.old) (session_of session.new) }
{
    let item = number_macro_rules(db, session, &collector.def_map, site, node, name)?;
    keep_macro_rules(
        &mut collector.diagnostics,
        &mut collector.def_map,
        &mut collector.table,
        item,
    )
}

/// Defines a `macro` item, and declares it as visible as is written. On `Err` nothing but safety is
/// promised.
#[inline(never)]
pub(crate) fn collect_macro<D: SourceDatabase>(
    collector: &mut DefCollector<'_>,
    db: &D,
    session: &mut Interner,
    site: &Site,
    node: &ItemNode,
    written: WrittenMacro<'_>,
) -> Result<(), AllocError>
    ensures handled { OnOk result (node.now.kind ≡ kinds.Macro2 written.entry.name written.entry.visibility.now →
        Handled (D.oracle db.now) (state_of collector.old session.old) (state_of collector.new session.new)
        (site_of site.now) node.now []) }
    ensures session { AddsLocations (session_of session.old) (session_of session.new) }
{
    let item = number_macro(db, session, &collector.def_map, site, node, written.name)?;
    let vis = collector.resolve_visibility(db, session, site.module_id, written.visibility);
    keep_macro(
        collector.alloc,
        &mut collector.diagnostics,
        &mut collector.def_map,
        &mut collector.table,
        item,
        vis,
    )
}
