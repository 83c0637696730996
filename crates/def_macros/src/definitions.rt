//! What macros define: names for the text behind them, and names in modules.
ghost use Rattle.std.specs.Prelude.{◌≡◌, is_some, option_map, IfOk, OnOk};
ghost use Rattle.item_tree.specs.Attrs.{attrs_of, has_attr};
ghost use Rattle.item_tree.specs.KnownNames.{macro_export_name};
ghost use Rattle.def_macros.specs.Shown.{with_told};
ghost use Rattle.def_map.specs.Oracle.{Oracle};
ghost use Rattle.def_modules.specs.Maps.{map_state};
ghost use Rattle.def_items.specs.Parts.{with_parts};
ghost use Rattle.def_parts.specs.Sites.{site_of};
ghost use Rattle.def_laws.specs.Performs.{Performs};
ghost use Rattle.def_parts.specs.ProcMacros.{read_as};
ghost use Rattle.def_rules.specs.Macros as macros;
ghost use Rattle.def_rules.specs.State.{State, with_map};

use crate::numbered::MacroItem;
use def_bindings::{Namespace, Visibility};
use def_globs::Globs;
use def_ids::{Def, MacroExpander, ModuleId};
use def_items::{Definition, define, report};
use def_map::{MapData, Table};
use def_parts::parse_macro_name_and_helper_attrs;
use def_rules::{DefDiagnostic, DefDiagnosticKind};
use item_tree::{ItemNode, Name, Seq, sym};
use std::alloc::{AllocError, Global};

/// Reports a macro that is marked as builtin, and that no builtin implements. On `Err` nothing but
/// safety is promised.
fn report_macro(diagnostics: &mut Vec<DefDiagnostic>, item: MacroItem<'_>) -> Result<(), AllocError>
    ensures { OnOk result ((s : State) →
        record s { diagnostics = diagnostics.new.items }
        ≡ macros.unimplemented_reported (record s { diagnostics = diagnostics.old.items }) (site_of item.entry.site.now) item.entry.node.now item.entry.expander) }
{
    match item.expander {
        MacroExpander::UnimplementedBuiltIn => {
            let kind = DefDiagnosticKind::UnimplementedBuiltinMacro;
            report(diagnostics, item.site, item.node, kind)?;
            Ok(())
        }
        _ => Ok(()),
    }
}

/// Reports what is wrong with a macro by rules, and defines it. On `Err` nothing but safety is promised.
pub fn keep_macro_rules(
    diagnostics: &mut Vec<DefDiagnostic>,
    def_map: &mut MapData,
    table: &mut Globs<Table>,
    item: MacroItem<'_>,
) -> Result<(), AllocError>
    ensures { OnOk result ((oracle : Oracle) (s : State) →
        let exported = has_attr macro_export_name (attrs_of item.entry.node.now.attrs) in
        let told = macros.unimplemented_reported (with_told s diagnostics.old.items def_map.old table.old) (site_of item.entry.site.now) item.entry.node.now item.entry.expander in
        let effect = macros.export_effect (macros.textual_state told (site_of item.entry.site.now) item.entry.node.now item.entry.name item.entry.id) exported item.entry.name item.entry.id in
        Performs oracle effect.tasks effect.state (with_told s diagnostics.new.items def_map.new table.new)) }
{
    report_macro(diagnostics, item)?;
    define_macro_rules(def_map, table, item)
}

/// Reports what is wrong with a `macro` item, and defines it. On `Err` nothing but safety is promised.
pub fn keep_macro(
    alloc: Global,
    diagnostics: &mut Vec<DefDiagnostic>,
    def_map: &mut MapData,
    table: &mut Globs<Table>,
    item: MacroItem<'_>,
    vis: Visibility,
) -> Result<(), AllocError>
    ensures { OnOk result ((oracle : Oracle) (s : State) →
        let told = macros.unimplemented_reported (with_told s diagnostics.old.items def_map.old table.old) (site_of item.entry.site.now) item.entry.node.now item.entry.expander in
        let effect = macros.defined_effect told (site_of item.entry.site.now) item.entry.node.now item.entry.name vis item.entry.expander item.entry.id in
        Performs oracle effect.tasks effect.state (with_told s diagnostics.new.items def_map.new table.new)) }
{
    report_macro(diagnostics, item)?;
    define_macro(alloc, def_map, table, item, vis)
}

/// Defines a macro by rules for the text behind it. One that is exported is declared in the map's
/// root, public. On `Err` nothing but safety is promised.
fn define_macro_rules(
    def_map: &mut MapData,
    table: &mut Globs<Table>,
    item: MacroItem<'_>,
) -> Result<(), AllocError>
    ensures { OnOk result ((oracle : Oracle) (s : State) →
        let exported = has_attr macro_export_name (attrs_of item.entry.node.now.attrs) in
        let before = with_parts s def_map.old table.old in
        let effect = macros.export_effect (macros.textual_state before (site_of item.entry.site.now) item.entry.node.now item.entry.name item.entry.id) exported item.entry.name item.entry.id in
        Performs oracle effect.tasks effect.state (with_parts s def_map.new table.new)) }
{
    define_textual(def_map, item)?;
    if !item.node.by_key(sym::MACRO_EXPORT).exists() {
        return Ok(());
    }
    let root = ModuleId {
        map: def_map.tree.map,
        index: 0,
    };
    let defined = Definition {
        name: item.name,
        def: Def::Macro(item.id),
        vis: Visibility::Public,
    };
    define(def_map, table, root, Namespace::Macros, defined)?;
    Ok(())
}

/// Makes a macro the last textual one of its name, and leads its position to it.
fn define_textual(def_map: &mut MapData, item: MacroItem<'_>) -> Result<(), AllocError>
    ensures { OnOk result ((s : State) →
        with_map s (map_state def_map.new)
        ≡ macros.textual_state (with_map s (map_state def_map.old)) (site_of item.entry.site.now) item.entry.node.now item.entry.name item.entry.id) }
{
    let module = item.site.module_id.index;
    def_map.define_legacy_macro(module, item.name, item.id)?;
    def_map.set_macro_at(item.site.position(item.node), item.id)?;
    Ok(())
}

/// Defines a `macro` item, and declares it in its module. On `Err` nothing but safety is promised.
fn define_macro(
    alloc: Global,
    def_map: &mut MapData,
    table: &mut Globs<Table>,
    item: MacroItem<'_>,
    vis: Visibility,
) -> Result<(), AllocError>
    ensures { OnOk result ((oracle : Oracle) (s : State) →
        let before = with_parts s def_map.old table.old in
        let effect = macros.defined_effect before (site_of item.entry.site.now) item.entry.node.now item.entry.name vis item.entry.expander item.entry.id in
        Performs oracle effect.tasks effect.state (with_parts s def_map.new table.new)) }
{
    export_helpers(alloc, def_map, item)?;
    def_map.set_macro_at(item.site.position(item.node), item.id)?;
    let defined = Definition {
        name: item.name,
        def: Def::Macro(item.id),
        vis,
    };
    define(
        def_map,
        table,
        item.site.module_id,
        Namespace::Macros,
        defined,
    )?;
    Ok(())
}

/// Shows the helpers of a builtin derive to other crates, but for those of a block's macro.
fn export_helpers(
    alloc: Global,
    def_map: &mut MapData,
    item: MacroItem<'_>,
) -> Result<(), AllocError>
    ensures { OnOk result (let m = map_state def_map.old in
        map_state def_map.new
        ≡ macros.showing_helpers (is_some m.id.block) item.entry.id (macros.listed_helpers item.entry.node.now item.entry.expander) m) }
{
    let Some((_, helpers)) = listed_helpers(alloc, item.node, item.expander)? else {
        return Ok(());
    };
    if def_map.tree.map.block.is_some() {
        return Ok(());
    }
    def_map
        .krate
        .export_derive(item.id, Seq::from_vec(helpers))?;
    Ok(())
}

/// The name and the helpers that a builtin derive lists.
fn listed_helpers(
    alloc: Global,
    node: &ItemNode,
    expander: MacroExpander,
) -> Result<Option<(Name, Vec<Name>)>, AllocError>
    ensures { IfOk result (λ found. option_map read_as found ≡ macros.listed_helpers node.now expander) }
{
    let MacroExpander::BuiltInDerive(_) = expander else {
        return Ok(None);
    };
    match node.by_key(sym::RUSTC_BUILTIN_MACRO).tt_values().next() {
        Some(tokens) => parse_macro_name_and_helper_attrs(alloc, tokens),
        None => Ok(None),
    }
}
