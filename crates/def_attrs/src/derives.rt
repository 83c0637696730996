//! Derives: the list of a derive attribute, which macro one of its paths names, and what is recorded
//! of it.
ghost use Rattle.std.specs.Prelude.{◌≡◌, [], None, Ok, Err, map, unwrap_or, IfErr, IfOk, OnOk};
ghost use Rattle.std.specs.Option.{option_copied};
ghost use Rattle.def_attrs.specs.Shown.{derives_in};
ghost use Rattle.def_calls.specs.Shown.{macro_directive_of, written_attr_of, written_derive_of};
ghost use Rattle.def_map.specs.DefMaps.{view_of};
ghost use Rattle.def_modules.specs.Maps.{helper_state, map_state};
ghost use Rattle.def_rules.specs.Calls.{each_helped, helped, with_helpers};
ghost use Rattle.def_rules.specs.Derives as rules;
ghost use Rattle.def_rules.specs.Items.{top_items};

use def_calls::{MacroDirective, WrittenAttr, WrittenDerive};
use def_ids::MacroId;
use def_interner::MacroDefId;
use def_map::{
    DefMap, DeriveCall, DeriveCallQuery, DeriveHelper, DeriveMacroInvocation, MapData, Position,
    SourceDatabase,
};
use def_rules::DefDiagnosticKind;
use either::Either;
use item_tree::{
    Crate, InFile, ItemNode, MacroCallId, ModItemKind, ModPath, Name, SyntaxContext, TreeId,
};
use std::alloc::{AllocError, Global};

/// An attribute that its item is walked without, and the derives that it lists, with its call.
#[derive(Clone, Copy)]
pub struct DeriveList<'a> {
    pub written: WrittenAttr<'a>,
    pub call: MacroCallId,
    pub paths: &'a [(ModPath, SyntaxContext)],
}

impl<'a> DeriveList<'a> {
    /// An attribute that lists no derives. Its call is that of no path.
    pub fn empty(written: WrittenAttr<'a>) -> DeriveList<'a>
        ensures derives { derives_in result ≡ [] }
        ensures written { result.written ≡ written.entry }
    {
        DeriveList {
            written,
            call: MacroCallId(0),
            paths: &[],
        }
    }
}

/// The paths that a derive attribute lists, if its item may have derives and it has a list. What is
/// wrong is answered in their place.
pub fn derive_paths<'a>(
    written: WrittenAttr<'a>,
    node: Option<&ItemNode>,
) -> Result<&'a [(ModPath, SyntaxContext)], DefDiagnosticKind>
    ensures ok { IfOk result (λ paths.
        rules.derive_paths (written_attr_of written.entry) (rules.may_derive (option_copied node.entry)) ≡ Ok paths.now) }
    ensures err { IfErr result (λ kind.
        rules.derive_paths (written_attr_of written.entry) (rules.may_derive (option_copied node.entry)) ≡ Err kind) }
{
    if !may_derive(node) {
        return Err(DefDiagnosticKind::InvalidDeriveTarget {
            id: written.attr_id,
        });
    }
    match &written.attr.paths {
        Some(paths) => Ok(paths.as_slice()),
        None => Err(DefDiagnosticKind::MalformedDerive {
            id: written.attr_id,
        }),
    }
}

/// Whether an item is there, and is a struct, a union or an enum.
fn may_derive(node: Option<&ItemNode>) -> bool
    ensures { result ≡ rules.may_derive (option_copied node.entry) }
{
    let Some(node) = node else {
        return false;
    };
    match &node.kind {
        ModItemKind::Struct { .. } | ModItemKind::Union { .. } | ModItemKind::Enum { .. } => true,
        _ => false,
    }
}

/// Records a derive attribute with its call. None of its paths has one so far. On `Err` nothing but
/// safety is promised.
pub fn record_list(
    alloc: Global,
    def_map: &mut MapData,
    directive: &MacroDirective<'_>,
    list: DeriveList<'_>,
) -> Result<(), AllocError>
    ensures { OnOk result (map_state def_map.new
        ≡ rules.with_list (map_state def_map.old) (macro_directive_of directive.now) list.entry.written.attr_id list.entry.call list.entry.paths.now) }
{
    let derive = DeriveMacroInvocation {
        call: list.call,
        calls: no_calls(alloc, list.paths)?,
    };
    let module = directive.module_id.index;
    def_map.init_derive_attribute(module, directive.position, list.written.attr_id, derive)
}

/// For each path that it has no call.
fn no_calls(
    alloc: Global,
    paths: &[(ModPath, SyntaxContext)],
) -> Result<Vec<Option<DeriveCall>>, AllocError>
    ensures { IfOk result (λ calls. calls.items ≡ map (λ path. None) paths.now) }
{
    let mut calls = Vec::new(alloc);
    'paths: for path in paths {
        calls.push(None)?;
    }
    Ok(calls)
}

/// Calls the macro of a derive, and records the helpers that the macro's crate shows of it and the call
/// at the derive's place. On `Err` nothing but safety is promised.
pub fn give_derive<D: SourceDatabase>(
    def_map: &mut MapData,
    db: &D,
    directive: &MacroDirective<'_>,
    written: WrittenDerive<'_>,
    found: MacroDefId,
) -> Result<MacroCallId, AllocError>
    ensures { IfOk result (λ call. let d = macro_directive_of directive.now in let w = written_derive_of written.entry in
        (call ≡ (D.oracle db.now).make_derive_call (rules.derive_query (map_state def_map.old).id.krate d w found))
        × (map_state def_map.new ≡ rules.derived_map (D.oracle db.now) (map_state def_map.old) d w found call)) }
{
    let call = call_derive(def_map, db, directive, written, found)?;
    let module = directive.module_id.index;
    let position = directive.position;
    let made = Either::Left(call);
    def_map.set_derive_call(module, position, written.attr_id, written.pos, made);
    Ok(call)
}

/// Calls the macro of a derive, and records the helpers that the macro's crate shows of it. On `Err`
/// nothing but safety is promised.
pub fn call_derive<D: SourceDatabase>(
    def_map: &mut MapData,
    db: &D,
    directive: &MacroDirective<'_>,
    written: WrittenDerive<'_>,
    found: MacroDefId,
) -> Result<MacroCallId, AllocError>
    ensures { IfOk result (λ call. let d = macro_directive_of directive.now in let w = written_derive_of written.entry in
        (call ≡ (D.oracle db.now).make_derive_call (rules.derive_query (map_state def_map.old).id.krate d w found))
        × (map_state def_map.new ≡ rules.with_shown_helpers (D.oracle db.now) (map_state def_map.old) d found call)) }
{
    let krate = def_map.tree.map.krate;
    let position = directive.position;
    let call = db.make_derive_call(DeriveCallQuery {
        krate,
        macro_def: found,
        position,
        attr_id: written.attr_id,
        pos: written.pos,
        ctxt: written.ctxt,
        derive_call: written.call,
        depth: directive.depth,
    });
    let names = helper_names(db, krate, found);
    add_names(def_map, position, found, call, names)?;
    Ok(call)
}

/// The helpers of a macro that another crate defines.
fn helper_names<'a, D: SourceDatabase>(db: &'a D, krate: Crate, found: MacroDefId) -> &'a [Name]
    ensures { result.now ≡ rules.helper_names (D.oracle db.now) krate found }
{
    if found.krate == krate {
        return &[];
    }
    match db.crate_def_map(found.krate) {
        Some(shown) => shown_helpers(shown, found.id),
        None => &[],
    }
}

/// The helpers that a map shows of a macro.
fn shown_helpers(shown: &DefMap, id: MacroId) -> &[Name]
    ensures { result.now ≡ unwrap_or ((view_of shown.now).facts.exported_helpers id) [] }
{
    match shown.exported_derives().get(&id) {
        Some(names) => names.as_slice(),
        None => &[],
    }
}

/// Adds names to the helpers that are read at a position. On `Err` nothing but safety is promised.
fn add_names(
    def_map: &mut MapData,
    position: Position,
    found: MacroDefId,
    call: MacroCallId,
    names: &[Name],
) -> Result<(), AllocError>
    ensures { OnOk result (map_state def_map.new ≡ with_helpers (map_state def_map.old) position (map (rules.helper_of found call) names.now)) }
{
    'names: for name in names {
        let helper = DeriveHelper {
            name: *name,
            macro_id: found.id,
            by: Either::Left(call),
        };
        def_map.add_derive_helper(position, helper)?;
    }
    Ok(())
}

/// Hands the helpers of an item on to the items that stand in its place. On `Err` nothing but safety
/// is promised.
pub fn hand_on<D: SourceDatabase>(
    alloc: Global,
    def_map: &mut MapData,
    db: &D,
    position: Position,
    tree_id: TreeId,
) -> Result<(), AllocError>
    ensures { OnOk result (map_state def_map.new
        ≡ each_helped (D.oracle db.now) (map_state def_map.old) tree_id ((map_state def_map.old).helpers position) (top_items (D.oracle db.now) tree_id)) }
{
    let Some(known) = def_map.derive_helpers.get(&position) else {
        return Ok(());
    };
    let helpers = known.as_slice().to_vec(alloc)?;
    let Some(tree) = db.item_tree(tree_id) else {
        return Ok(());
    };
    'items: for id in tree.top_level_items() {
        let node = tree.index(*id);
        help_item(def_map, tree_id, node, helpers.as_slice())?;
    }
    Ok(())
}

/// Adds helpers to those that are read at an item, if it is there. On `Err` nothing but safety is
/// promised.
fn help_item(
    def_map: &mut MapData,
    tree_id: TreeId,
    node: Option<&ItemNode>,
    helpers: &[DeriveHelper],
) -> Result<(), AllocError>
    ensures { OnOk result (map_state def_map.new
        ≡ helped (map_state def_map.old) tree_id (map helper_state helpers.now) (option_copied node.entry)) }
{
    let Some(node) = node else {
        return Ok(());
    };
    let position = InFile {
        file: tree_id.file,
        value: node.ast_id,
    };
    'helpers: for helper in helpers {
        def_map.add_derive_helper(position, *helper)?;
    }
    Ok(())
}
