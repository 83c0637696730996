//! What a derive or a list of derives is given once its macro is found.
ghost use Rattle.std.specs.Prelude.{◌≡◌, ◌++◌, ◌∷◌, [], Ok, Some, slice_get, IfOk, OnOk};
ghost use Rattle.def_attrs.specs.Shown.{IsGivenUp, derives_in, with_attrs, with_derives, with_items};
ghost use Rattle.def_calls.specs.Shown.{IsTurned, macro_directive_of, macros_in, with_waiting, written_attr_of, written_derive_of};
ghost use Rattle.def_rules.specs.Attributes.{directive_reported};
ghost use Rattle.def_rules.specs.declared.diagnostics.DefDiagnosticKind.TheVariants.{MacroError};
ghost use Rattle.def_rules.specs.Derives.{derive_directive};
ghost use Rattle.def_rules.specs.Directives.{WalksItem, derive_told, list_told, tried_effect};
ghost use Rattle.def_rules.specs.State.{State};

use crate::attrs::attr_call;
use crate::deferred::{DeferredDerives, deferred_derive};
use crate::derives::{DeriveList, call_derive, give_derive, record_list};
use crate::item_attrs::ItemAttrs;
use def_calls::{
    Expansion, MacroDirective, WaitingItem, WrittenAttr, WrittenDerive, leave, report_attr,
    take_out,
};
use def_interner::MacroDefId;
use def_map::{HelpersRange, MapData, SourceDatabase};
use def_rules::{DefDiagnostic, DefDiagnosticKind, ExpandErrorKind};
use item_tree::{ModPath, SyntaxContext};
use std::alloc::AllocError;
use std::collections::VecDeque;

/// A derive whose macro is found.
#[derive(Clone, Copy)]
pub struct FoundDerive<'a> {
    pub written: WrittenDerive<'a>,
    pub macro_def: MacroDefId,
}

/// An attribute whose macro is found.
#[derive(Clone, Copy)]
pub struct FoundAttr<'a> {
    pub written: WrittenAttr<'a>,
    pub macro_def: MacroDefId,
}

/// Lets a derive of an attribute wait behind what waits. On `Err` nothing but safety is promised.
pub fn queue_derive<'a>(
    directives: &mut VecDeque<MacroDirective<'a>>,
    directive: &MacroDirective<'a>,
    written: WrittenDerive<'a>,
) -> Result<(), AllocError>
    ensures { OnOk result (macros_in directives.new.items
        ≡ macros_in directives.old.items ++ derive_directive (macro_directive_of directive.now) (written_derive_of written.entry) ∷ []) }
{
    directives.push_back(directive.derive(written))?;
    Ok(())
}

/// Calls the macro of a derive that is tried: it is deferred, or its expansion is to be walked. On `Err`
/// nothing but safety is promised.
pub fn call_tried<'a, D: SourceDatabase>(
    def_map: &mut MapData,
    db: &D,
    deferred: &mut DeferredDerives,
    expansions: &mut VecDeque<Expansion>,
    directive: &MacroDirective<'a>,
    found: FoundDerive<'a>,
) -> Result<(), AllocError>
    ensures { OnOk result ((s : State) →
        let before = with_derives s def_map.old deferred.old expansions.old.items in
        with_derives s def_map.new deferred.new expansions.new.items
        ≡ (tried_effect (D.oracle db.now) before (macro_directive_of directive.now) (written_derive_of found.entry.written) (Some found.entry.macro_def)).state) }
{
    let written = found.written;
    match deferred_derive(db, found.macro_def) {
        Some(derive) => {
            let position = directive.position;
            let start = def_map.derive_helper_count(position);
            let call = call_derive(def_map, db, directive, written, found.macro_def)?;
            let end = def_map.derive_helper_count(position);
            let helpers = HelpersRange { start, end };
            let deferral = directive.deferral(written, call, derive, helpers);
            deferred.defer(position, deferral)
        }
        None => {
            let call = give_derive(def_map, db, directive, written, found.macro_def)?;
            let waiting = directive.derive(written);
            expansions.push_back(waiting.expansion(call))?;
            Ok(())
        }
    }
}

/// Calls the macro of a derive that waits first: it leaves, and its expansion is to be walked. On `Err`
/// nothing but safety is promised.
pub fn call_waiting<'a, D: SourceDatabase>(
    def_map: &mut MapData,
    db: &D,
    directives: &mut VecDeque<MacroDirective<'a>>,
    expansions: &mut VecDeque<Expansion>,
    directive: MacroDirective<'a>,
    found: FoundDerive<'a>,
) -> Result<(), AllocError>
    requires { slice_get directives.old.items 0 ≡ Some directive }
    ensures { OnOk result ((s : State) →
        let d = macro_directive_of directive.entry in
        let before = with_waiting s def_map.old directives.old.items expansions.old.items in
        IsTurned before d (derive_told (D.oracle db.now) before d (written_derive_of found.entry.written) (Some found.entry.macro_def))
        (with_waiting s def_map.new directives.new.items expansions.new.items)) }
{
    let call = give_derive(def_map, db, &directive, found.written, found.macro_def)?;
    leave(directives, directive);
    expansions.push_back(directive.expansion(call))?;
    Ok(())
}

/// Calls the macro of a derive attribute, and records the attribute with its call. The paths that it
/// lists are to be tried. On `Err` nothing but safety is promised.
pub fn call_list<'a, D: SourceDatabase>(
    def_map: &mut MapData,
    db: &D,
    item_attrs: &mut ItemAttrs,
    directive: &MacroDirective<'_>,
    found: FoundAttr<'a>,
    paths: &'a [(ModPath, SyntaxContext)],
) -> Result<DeriveList<'a>, AllocError>
    ensures told { IfOk result (λ list. (s : State) →
        let w = written_attr_of found.entry.written in
        list_told (D.oracle db.now) (with_attrs s def_map.old item_attrs.old) (macro_directive_of directive.now) w found.entry.macro_def (Ok paths.now)
        ≡ record { state = with_attrs s def_map.new item_attrs.new; turn = WalksItem (derives_in list) w }) }
    ensures written { IfOk result (λ list. list.written ≡ found.entry.written) }
{
    let written = found.written;
    item_attrs.activate(directive.position, written.attr_id)?;
    let krate = def_map.tree.map.krate;
    let call = attr_call(db, krate, item_attrs, directive, written, found.macro_def);
    let list = DeriveList {
        written,
        call,
        paths,
    };
    let alloc = *def_map.derive_helpers.allocator();
    record_list(alloc, def_map, directive, list)?;
    Ok(list)
}

/// Reports what is wrong with a derive attribute, which then lists no derives. On `Err` nothing but
/// safety is promised.
pub fn refuse_list<'a>(
    diagnostics: &mut Vec<DefDiagnostic>,
    directive: &MacroDirective<'_>,
    written: WrittenAttr<'a>,
    kind: DefDiagnosticKind,
) -> Result<DeriveList<'a>, AllocError>
    ensures reported { OnOk result (diagnostics.new.items
        ≡ diagnostics.old.items ++ record { «module» = directive.now.module_id; ast_id = directive.now.position; kind = kind } ∷ []) }
    ensures derives { IfOk result (λ list. derives_in list ≡ []) }
    ensures written { IfOk result (λ list. list.written ≡ written.entry) }
{
    diagnostics.push(DefDiagnostic {
        module: directive.module_id,
        ast_id: directive.position,
        kind,
    })?;
    Ok(DeriveList::empty(written))
}

/// Reports that nothing expands the macro of an attribute, and why. On `Err` nothing but safety is
/// promised.
pub fn report_no_expander(
    diagnostics: &mut Vec<DefDiagnostic>,
    directive: &MacroDirective<'_>,
    written: WrittenAttr<'_>,
    err: ExpandErrorKind,
) -> Result<(), AllocError>
    ensures { OnOk result ((s : State) →
        record s { diagnostics = diagnostics.new.items }
        ≡ directive_reported (record s { diagnostics = diagnostics.old.items })
        (macro_directive_of directive.now) (MacroError (written_attr_of written.entry).attr.path err)) }
{
    diagnostics.push(DefDiagnostic {
        module: directive.module_id,
        ast_id: directive.position,
        kind: DefDiagnosticKind::MacroError {
            path: written.attr.path.clone()?,
            err,
        },
    })?;
    Ok(())
}

/// Gives up an item that waits for the macro of an attribute: the attribute is reported and passed over,
/// and the item leaves. On `Err` nothing but safety is promised.
pub fn give_up<'a>(
    diagnostics: &mut Vec<DefDiagnostic>,
    directives: &mut VecDeque<MacroDirective<'a>>,
    item_attrs: &mut ItemAttrs,
    item: WaitingItem<'a>,
) -> Result<(), AllocError>
    requires { slice_get directives.old.items item.at ≡ Some item.directive }
    ensures { OnOk result ((s : State) →
        IsGivenUp (with_items s diagnostics.old.items directives.old.items item_attrs.old)
        (macro_directive_of item.entry.directive) (written_attr_of item.entry.written)
        (with_items s diagnostics.new.items directives.new.items item_attrs.new)) }
{
    let directive = item.directive;
    let written = item.written;
    report_attr(diagnostics, &directive, written)?;
    take_out(directives, item.at, directive);
    item_attrs.pass_over(directive.position.file, written.item, written.attr_id)
}
