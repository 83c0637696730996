//! Procedural macros: what functions in the root of their crate declare, and what they export.
ghost use Rattle.std.specs.Prelude.{◌≡◌, option_map, true, IfOk, IfSome, OnOk, Some};
ghost use Rattle.item_tree.specs.Attrs.{attrs_of};
ghost use Rattle.item_tree.specs.declared.items.ModItemKind.TheVariants as kinds;
ghost use Rattle.item_tree.specs.declared.items.RawVisibility.{RawVisibility as WrittenVis};
ghost use Rattle.def_ids.specs.declared.ids.MacroId.TheVariants as macro_of;
ghost use Rattle.def_interner.specs.Session.{AddsLocations, session_of};
ghost use Rattle.def_items.specs.Parts.{with_parts};
ghost use Rattle.def_laws.specs.Performs.{Performs};
ghost use Rattle.def_macros.specs.ProcMacros.{IsNumbered};
ghost use Rattle.def_map.specs.Oracle.{Oracle};
ghost use Rattle.def_modules.specs.Maps.{map_state};
ghost use Rattle.def_parts.specs.ProcMacros.{decl_of, kind_of};
ghost use Rattle.def_parts.specs.Sites.{site_of};
ghost use Rattle.def_readings.specs.ProcMacros.{proc_macro_of};
ghost use Rattle.def_rules.specs.Locations.{AddsOwn};
ghost use Rattle.def_rules.specs.ProcMacros as rules;
ghost use Rattle.def_rules.specs.State.{State, with_map};
ghost use Rattle.def_rules.specs.Targets.{leaves_out};

use def_bindings::{Namespace, Visibility};
use def_globs::Globs;
use def_ids::{
    CustomProcMacroExpander, Def, FunctionId, MacroId, ModuleId, ProcMacroId, ProcMacroLoc,
    ProcMacroUse,
};
use def_interner::{Interner, Location};
use def_items::{Definition, put, take_out};
use def_map::{MapData, SourceDatabase, Table};
use def_parts::{ProcMacroDef, ProcMacroKind, Site, parse_proc_macro_decl};
use item_tree::{Crate, ItemNode, Name, Seq};
use std::alloc::{AllocError, Global};

/// A procedural macro that a function declares, once it has its number.
#[derive(Drop)]
pub struct ExportedMacro {
    pub def: ProcMacroDef,
    pub id: ProcMacroId,
}

/// Whether functions in a module may export procedural macros: whether it is the root of a crate of
/// such, and of no block.
#[inline(always)]
pub fn exports_macros(is_proc_macro: bool, def_map: &MapData, module_id: ModuleId) -> bool
    ensures { (s : State) → result ≡ leaves_out (record s { is_proc_macro = is_proc_macro; map = map_state def_map.now }) module_id }
{
    let map = def_map.tree.map;
    let root = ModuleId { map, index: 0 };
    is_proc_macro && root == module_id && map.block.is_none()
}

/// The procedural macro that a function of this name declares by its attributes, if there is one.
fn declared_macro(
    alloc: Global,
    node: &ItemNode,
    name: Name,
) -> Result<Option<ProcMacroDef>, AllocError>
    ensures { IfOk result (λ found. option_map decl_of found ≡ proc_macro_of (attrs_of node.now.attrs) name) }
{
    match &node.attrs {
        Some(attrs) => parse_proc_macro_decl(alloc, attrs.attrs(), name),
        None => Ok(None),
    }
}

/// How a procedural macro is called.
fn use_of(kind: &ProcMacroKind) -> ProcMacroUse
    ensures { result ≡ rules.use_of (kind_of kind.now) }
{
    match kind {
        ProcMacroKind::Derive { .. } => ProcMacroUse::CustomDerive,
        ProcMacroKind::Bang => ProcMacroUse::Bang,
        ProcMacroKind::Attr => ProcMacroUse::Attr,
    }
}

/// The macros that were built for a crate. None counts where the crate's data do not say that it is
/// one of procedural macros, even if an attribute of its root file does.
fn built_for<D: SourceDatabase>(db: &D, krate: Crate) -> &[(Name, u32, bool)]
    ensures { result.now ≡ rules.built_for (D.oracle db.now) krate }
{
    match db.crate_data(krate) {
        Some(known) => {
            if known.proc_macro {
                db.proc_macros(krate)
            } else {
                &[]
            }
        }
        None => &[],
    }
}

/// The number of the first of these macros that has a name, and whether it is switched off.
fn built_as(name: Name, built: &[(Name, u32, bool)]) -> Option<(u32, bool)>
    ensures { result ≡ rules.built_as name built.now }
{
    'built: for entry in built {
        if entry.0 == name {
            return Some((entry.1, entry.2));
        }
    }
    None
}

/// What expands a macro, by what was built under its name.
fn expander_by(
    expands: bool,
    kind: &ProcMacroKind,
    built: Option<(u32, bool)>,
) -> CustomProcMacroExpander
    ensures { result ≡ rules.expander_by expands (kind_of kind.now) built }
{
    let Some((number, disabled)) = built else {
        return CustomProcMacroExpander::Missing;
    };
    if is_attr(kind) && !expands {
        return CustomProcMacroExpander::DisabledAttr;
    }
    if disabled {
        CustomProcMacroExpander::Disabled
    } else {
        CustomProcMacroExpander::Id(number)
    }
}

/// Whether a macro is called as an attribute.
fn is_attr(kind: &ProcMacroKind) -> bool
    ensures { result ≡ rules.is_attr_macro (kind_of kind.now) }
{
    match kind {
        ProcMacroKind::Attr => true,
        ProcMacroKind::Bang => false,
        ProcMacroKind::Derive { .. } => false,
    }
}

/// What expands the macro that a function of a crate declares.
fn proc_expander<D: SourceDatabase>(
    db: &D,
    krate: Crate,
    def: &ProcMacroDef,
) -> CustomProcMacroExpander
    ensures { result ≡ rules.proc_expander (D.oracle db.now) krate (decl_of def.now) }
{
    let built = built_as(def.name, built_for(db, krate));
    expander_by(db.expand_proc_attr_macros(), &def.kind, built)
}

/// Numbers the procedural macro that a function of this name declares, if it declares one. The
/// function is to stand in the root of a crate of procedural macros.
pub fn number_proc_macro<D: SourceDatabase>(
    alloc: Global,
    db: &D,
    session: &mut Interner,
    def_map: &MapData,
    site: &Site,
    node: &ItemNode,
    name: Name,
) -> Result<Option<ExportedMacro>, AllocError>
    ensures numbered { IfOk result (λ found.
        IsNumbered (D.oracle db.now) (map_state def_map.now) (session_of session.new) (site_of site.now) node.now name found) }
    ensures own { OnOk result ((raw : WrittenVis) → node.now.kind ≡ kinds.Function name raw →
        AddsOwn (site_of site.now) node.now (session_of session.old) (session_of session.new)) }
    ensures session { AddsLocations (session_of session.old) (session_of session.new) }
{
    let Some(def) = declared_macro(alloc, node, name)? else {
        return Ok(None);
    };
    let id = ProcMacroLoc {
        container: site.module_id,
        position: site.position(node),
        expander: proc_expander(db, def_map.tree.map.krate, &def),
        kind: use_of(&def.kind),
        edition: def_map.krate.edition,
    }
    .intern(session)?;
    Ok(Some(ExportedMacro { def, id }))
}

/// Declares a function whose macro the root of its crate exports: both are put, the macro public,
/// the two and the item's position lead to each other, the helpers of a derive are shown to other
/// crates, and then the function is taken out of values. On `Err` nothing but safety is promised.
pub fn define_exported(
    def_map: &mut MapData,
    table: &mut Globs<Table>,
    site: &Site,
    node: &ItemNode,
    written: ExportingFunction,
    exported: ExportedMacro,
) -> Result<(), AllocError>
    ensures { OnOk result ((oracle : Oracle) (s : State) →
        let before = with_parts s def_map.old table.old in
        let effect = rules.exported_effect before (site_of site.now) node.now written.name written.vis written.id (decl_of exported.def) exported.id in
        leaves_out before (site_of site.now).scope ≡ true →
        Performs oracle effect.tasks effect.state (with_parts s def_map.new table.new)) }
{
    let ExportedMacro { def, id } = exported;
    let ProcMacroDef { name, kind } = def;
    let root = ModuleId {
        map: def_map.tree.map,
        index: 0,
    };
    let function = Definition {
        name: written.name,
        def: Def::Function(written.id),
        vis: written.vis,
    };
    let defined = Definition {
        name,
        def: Def::Macro(MacroId::ProcMacro(id)),
        vis: Visibility::Public,
    };
    def_map.declare(site.module_id.index, function.def)?;
    pair(def_map, site, node, written.id, id, kind)?;
    def_map.declare(0, defined.def)?;
    let values = function.entry(Namespace::Values);
    put(def_map, table, site.module_id, &[values])?;
    let macros = defined.entry(Namespace::Macros);
    put(def_map, table, root, &[macros])?;
    take_out(table, site.module_id, written.name, written.id);
    Ok(())
}

/// A function that exports a procedural macro: its name, its number, and how visible it is.
#[derive(Clone, Copy)]
pub struct ExportingFunction {
    pub name: Name,
    pub id: FunctionId,
    pub vis: Visibility,
}

/// Lets a function and its macro lead to each other, and the item's position to the macro, and shows
/// the helpers of a derive. On `Err` nothing but safety is promised.
fn pair(
    def_map: &mut MapData,
    site: &Site,
    node: &ItemNode,
    function: FunctionId,
    id: ProcMacroId,
    kind: ProcMacroKind,
) -> Result<(), AllocError>
    ensures { OnOk result (
        map_state def_map.new ≡ rules.paired_at (map_state def_map.old) (site_of site.now) node.now function id (kind_of kind)) }
{
    def_map.krate.pair_proc_macro(function, id)?;
    if let ProcMacroKind::Derive { helpers } = kind {
        def_map
            .krate
            .export_derive(MacroId::ProcMacro(id), Seq::from_vec(helpers))?;
    }
    def_map.set_macro_at(site.position(node), MacroId::ProcMacro(id))?;
    Ok(())
}
