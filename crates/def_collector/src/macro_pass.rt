//! Macros that wait: each pass lets each of them have its turn, and walks the expansions of those that
//! are given a call.
ghost use Rattle.std.specs.Prelude.{◌≡◌, ◌<◌, ◌≤◌, ◌^◌, ◌∷◌, [], true, false, Some, length, slice_get, IfOk, OnOk};
ghost use Rattle.def_attrs.specs.Shown.{derives_in};
ghost use Rattle.def_calls.specs.Shown.{IsTurned, expansion_shown, kind_of, macro_directive_of, written_attr_of, written_derive_of};
ghost use Rattle.macro_calls.specs.Written.{written_of};
ghost use Rattle.def_interner.specs.declared.interner.Interner.{Interner};
ghost use Rattle.def_interner.specs.Session.{AddsLocations, session_of};
ghost use Rattle.def_collector.specs.Collector.{state_of};
ghost use Rattle.def_collector.specs.Passes.{HadTurn, HadTurns, IsAsked, IsWalked};
ghost use Rattle.def_rounds.specs.Rounds.{GetsStuck, MakesRound};
ghost use Rattle.def_laws.specs.Depths.{waiting_work};
ghost use Rattle.def_laws.specs.Performs.{IsExpanded, Tried};
ghost use Rattle.def_laws.specs.Runs.{CollectsCalmly, Leads};
ghost use Rattle.def_laws.specs.Sound.{IsSoundWith};
ghost use Rattle.def_rules.specs.Attributes.{ReadsDerives, ReplacesItem, activated, item_site};
ghost use Rattle.def_rules.specs.Derives as rule;
ghost use Rattle.def_rules.specs.Directives.{WalksItem, tried_effect, use_told};
ghost use Rattle.def_rules.specs.Recording.{NoneReady};
ghost use Rattle.def_rules.specs.State as rules;
ghost use Rattle.def_rules.specs.State.{IsBare};
ghost use Rattle.def_rules.specs.Waiting as waits;

use crate::calls::open_expansion;
use crate::collector::DefCollector;
use crate::stack::{item_in, walk, walk_item};
use def_attrs::{
    AttrUse, DeriveList, FoundAttr, FoundDerive, attr_call, attr_use, call_list, call_tried,
    call_waiting, derive_paths, expand_deferred, is_helper, queue_derive, refuse_list,
    report_no_expander,
};
use def_calls::{
    Expansion, MacroDirective, MacroDirectiveKind, WrittenAttr, WrittenDerive, give_call, leave,
    put_asked_first, record_inner, settle_call, stay, stored_dir, waiting_answer,
};
use def_interner::{Interner, MacroDefId};
use def_items::ItemList;
use def_map::SourceDatabase;
use def_parts::Site;
use macro_calls::{WrittenCall, attr_macro, derive_macro};
use std::alloc::AllocError;

/// Lets each macro that waits have its turn, in order, records the calls that were made for their
/// arguments, and then walks the expansions of those that were given a call. What is queued meanwhile has
/// no turn. Answers whether one left. On `Err` nothing but safety is promised.
pub fn resolve_macros<'a, D: SourceDatabase>(
    collector: &mut DefCollector<'a>,
    db: &'a D,
    session: &mut Interner,
) -> Result<bool, AllocError>
    requires sound { IsSoundWith [] (state_of collector.old session.old) }
    requires ready { NoneReady (D.oracle db.now) (state_of collector.old session.old) }
    requires bare { IsBare (state_of collector.old session.old) }
    ensures round { IfOk result (λ moved. moved ≡ true →
        MakesRound (D.oracle db.now) (state_of collector.old session.old) (state_of collector.new session.new)) }
    ensures stuck { IfOk result (λ moved. moved ≡ false →
        GetsStuck (D.oracle db.now) (state_of collector.old session.old) (state_of collector.new session.new)) }
    ensures bare { OnOk result (IsBare (state_of collector.new session.new)) }
    ensures session { AddsLocations (session_of session.old) (session_of session.new) }
{
    if !ask_macros(collector, db, session)? {
        return Ok(false);
    }
    put_asked_first(collector.alloc, &mut collector.unresolved_macros)?;
    walk_expansions(collector, db, session)?;
    Ok(true)
}

/// Lets each macro that waits have its turn, in order; what stays goes behind what is queued
/// meanwhile. Behind the last the calls are recorded that were made for arguments. Answers whether one
/// left. On `Err` nothing but safety is promised.
fn ask_macros<'a, D: SourceDatabase>(
    collector: &mut DefCollector<'a>,
    db: &'a D,
    session: &mut Interner,
) -> Result<bool, AllocError>
    ensures turns { IfOk result (λ moved.
        HadTurns (D.oracle db.now) (state_of collector.old session.old) [] moved (state_of collector.new session.new)) }
    ensures recorded { OnOk result (collector.new.inner_calls.items ≡ []) }
    ensures session { AddsLocations (session_of session.old) (session_of session.new) }
{
    let mut moved = false;
    'asked: for i in 0..collector.unresolved_macros.len() {
        if ask_macro(collector, db, session)? {
            moved = true;
        }
    }
    record_inner(&mut collector.def_map, &mut collector.inner_calls)?;
    Ok(moved)
}

/// Lets the macro that waits first have its turn: it leaves, or goes behind the others. Answers
/// whether it left. On `Err` nothing but safety is promised.
fn ask_macro<'a, D: SourceDatabase>(
    collector: &mut DefCollector<'a>,
    db: &'a D,
    session: &mut Interner,
) -> Result<bool, AllocError>
    requires { 0 < length collector.old.unresolved_macros.items }
    ensures turn { IfOk result (λ moved.
        HadTurn (D.oracle db.now) (state_of collector.old session.old) moved (state_of collector.new session.new)) }
    ensures session { AddsLocations (session_of session.old) (session_of session.new) }
{
    let directive = collector.unresolved_macros[0];
    if ask_directive(collector, db, session, directive)? {
        return Ok(true);
    }
    stay(&mut collector.unresolved_macros, directive)?;
    Ok(false)
}

/// Asks for what waits first, by its kind. Answers whether it left. On `Err` nothing but safety is
/// promised.
fn ask_directive<'a, D: SourceDatabase>(
    collector: &mut DefCollector<'a>,
    db: &'a D,
    session: &mut Interner,
    directive: MacroDirective<'a>,
) -> Result<bool, AllocError>
    requires { slice_get collector.old.unresolved_macros.items 0 ≡ Some directive }
    ensures asked { IfOk result (λ moved.
        IsAsked (D.oracle db.now) (state_of collector.old session.old) (macro_directive_of directive.entry) moved (state_of collector.new session.new)) }
    ensures same { IfOk result (λ moved. moved ≡ false →
        collector.new.unresolved_macros.items ≡ collector.old.unresolved_macros.items) }
    ensures session { AddsLocations (session_of session.old) (session_of session.new) }
{
    match directive.kind {
        MacroDirectiveKind::FnLike(written) => {
            ask_call(collector, db, session, directive, written)
        }
        MacroDirectiveKind::Attr(written) => ask_attr(collector, db, session, directive, written),
        MacroDirectiveKind::Derive(written) => {
            ask_derive(collector, db, session, directive, written)
        }
    }
}

/// Asks for a call that waits first. With a call it leaves, and its expansion is to be walked. Answers
/// whether it was given one. On `Err` nothing but safety is promised.
fn ask_call<'a, D: SourceDatabase>(
    collector: &mut DefCollector<'a>,
    db: &D,
    session: &Interner,
    directive: MacroDirective<'a>,
    written: WrittenCall<'a>,
) -> Result<bool, AllocError>
    requires here { slice_get collector.old.unresolved_macros.items 0 ≡ Some directive }
    requires kind { kind_of directive.kind ≡ waits.FnLike (written_of written) }
    ensures asked { IfOk result (λ moved.
        IsAsked (D.oracle db.now) (state_of collector.old session.now) (macro_directive_of directive.entry) moved (state_of collector.new session.now)) }
    ensures same { IfOk result (λ moved. moved ≡ false →
        collector.new.unresolved_macros.items ≡ collector.old.unresolved_macros.items) }
{
    let world = collector.world(db, session);
    let answer = waiting_answer(
        collector.alloc,
        &world,
        &collector.def_map,
        &directive,
        written,
    )?;
    settle_call(
        &mut collector.def_map,
        &mut collector.unresolved_macros,
        &mut collector.inner_calls,
        &mut collector.expansions,
        directive,
        &answer,
    )
}

/// Asks for a derive that waits first. With a call it leaves, and its expansion is to be walked. Answers
/// whether its macro was found. On `Err` nothing but safety is promised.
fn ask_derive<'a, D: SourceDatabase>(
    collector: &mut DefCollector<'a>,
    db: &D,
    session: &Interner,
    directive: MacroDirective<'a>,
    written: WrittenDerive<'a>,
) -> Result<bool, AllocError>
    requires here { slice_get collector.old.unresolved_macros.items 0 ≡ Some directive }
    requires kind { kind_of directive.kind ≡ waits.Derive (written_derive_of written) }
    ensures asked { IfOk result (λ moved.
        IsAsked (D.oracle db.now) (state_of collector.old session.now) (macro_directive_of directive.entry) moved (state_of collector.new session.now)) }
    ensures same { IfOk result (λ moved. moved ≡ false →
        collector.new.unresolved_macros.items ≡ collector.old.unresolved_macros.items) }
{
    let world = collector.world(db, session);
    let Some(macro_def) = derive_macro(&world, directive.module_id, written.path) else {
        return Ok(false);
    };
    let found = FoundDerive { written, macro_def };
    call_waiting(
        &mut collector.def_map,
        db,
        &mut collector.unresolved_macros,
        &mut collector.expansions,
        directive,
        found,
    )?;
    Ok(true)
}

/// Lets an item have its turn that waits for the macro of an attribute. Where the macro is found, the
/// macro's expansion is to stand in the item's place, or the item is walked without the attribute. A
/// macro that nothing expands is reported. Answers whether it is found. On `Err` nothing but safety is
/// promised.
fn ask_attr<'a, D: SourceDatabase>(
    collector: &mut DefCollector<'a>,
    db: &'a D,
    session: &mut Interner,
    directive: MacroDirective<'a>,
    written: WrittenAttr<'a>,
) -> Result<bool, AllocError>
    requires here { slice_get collector.old.unresolved_macros.items 0 ≡ Some directive }
    requires kind { kind_of directive.kind ≡ waits.Attr (written_attr_of written) }
    ensures asked { IfOk result (λ moved.
        IsAsked (D.oracle db.now) (state_of collector.old session.old) (macro_directive_of directive.entry) moved (state_of collector.new session.new)) }
    ensures same { IfOk result (λ moved. moved ≡ false →
        collector.new.unresolved_macros.items ≡ collector.old.unresolved_macros.items) }
    ensures session { AddsLocations (session_of session.old) (session_of session.new) }
{
    if is_helper(&collector.def_map, directive.position, written.attr) {
        let list = DeriveList::empty(written);
        return walk_without(collector, db, session, directive, list);
    }
    let world = collector.world(db, session);
    let Some(found) = attr_macro(&world, directive.module_id, written.attr) else {
        return Ok(false);
    };
    match attr_use(db, collector.def_map.tree.map.krate, found) {
        AttrUse::PassesOver => {
            let list = DeriveList::empty(written);
            walk_without(collector, db, session, directive, list)
        }
        AttrUse::ReadsDerives => {
            let list = read_derives(collector, db, directive, written, found)?;
            walk_without(collector, db, session, directive, list)
        }
        AttrUse::ReplacesItem => replace_item(collector, db, directive, written, found),
        AttrUse::HasNoExpander(err) => {
            report_no_expander(&mut collector.diagnostics, &directive, written, err)?;
            let list = DeriveList::empty(written);
            walk_without(collector, db, session, directive, list)
        }
    }
}

/// Reads a derive attribute: it is recorded with its call, and the paths that it lists are answered,
/// which are to be tried. What is wrong with it is reported. On `Err` nothing but safety is promised.
fn read_derives<'a, D: SourceDatabase>(
    collector: &mut DefCollector<'a>,
    db: &D,
    directive: MacroDirective<'a>,
    written: WrittenAttr<'a>,
    found: MacroDefId,
) -> Result<DeriveList<'a>, AllocError>
    ensures read { IfOk result (λ list. (session : Interner) → let w = written_attr_of written.entry in
        use_told (D.oracle db.now) (state_of collector.old session) (macro_directive_of directive.entry) w found ReadsDerives
        ≡ record { state = state_of collector.new session; turn = WalksItem (derives_in list) w }) }
    ensures written { IfOk result (λ list. list.written ≡ written.entry) }
    ensures same { collector.new.unresolved_macros ≡ collector.old.unresolved_macros }
{
    let node = item_in(db.item_tree(written.tree_id), written.item);
    match derive_paths(written, node) {
        Ok(paths) => {
            let attr = FoundAttr {
                written,
                macro_def: found,
            };
            call_list(
                &mut collector.def_map,
                db,
                &mut collector.item_attrs,
                &directive,
                attr,
                paths,
            )
        }
        Err(kind) => refuse_list(&mut collector.diagnostics, &directive, written, kind),
    }
}

/// Calls the macro of an attribute: the item leaves, and the macro's expansion is to stand in its
/// place, behind those of the derives that were deferred for it. Answers that it left. On `Err` nothing
/// but safety is promised.
fn replace_item<'a, D: SourceDatabase>(
    collector: &mut DefCollector<'a>,
    db: &D,
    directive: MacroDirective<'a>,
    written: WrittenAttr<'a>,
    found: MacroDefId,
) -> Result<bool, AllocError>
    requires { slice_get collector.old.unresolved_macros.items 0 ≡ Some directive }
    ensures turned { OnOk result ((session : Interner) → let s = state_of collector.old session in let d = macro_directive_of directive.entry in
        IsTurned (activated s d.position written.entry.attr_id) d (use_told (D.oracle db.now) s d (written_attr_of written.entry) found ReplacesItem) (state_of collector.new session)) }
    ensures left { IfOk result (λ left. left ≡ true) }
{
    let id = written.attr_id;
    let position = directive.position;
    let deferred = &mut collector.deferred_builtin_derives;
    expand_deferred(deferred, &mut collector.expansions, position)?;
    collector.item_attrs.activate(position, id)?;
    let krate = collector.def_map.tree.map.krate;
    let item_attrs = &collector.item_attrs;
    let call = attr_call(db, krate, item_attrs, &directive, written, found);
    give_call(
        &mut collector.def_map,
        &mut collector.unresolved_macros,
        &mut collector.expansions,
        directive,
        call,
    )?;
    Ok(true)
}

/// Walks an item that waits without its attribute: it leaves, the attribute is passed over, and the
/// derives that it lists are tried. Answers that it left. On `Err` nothing but safety is promised.
fn walk_without<'a, D: SourceDatabase>(
    collector: &mut DefCollector<'a>,
    db: &'a D,
    session: &mut Interner,
    directive: MacroDirective<'a>,
    list: DeriveList<'a>,
) -> Result<bool, AllocError>
    requires { slice_get collector.old.unresolved_macros.items 0 ≡ Some directive }
    ensures walked { OnOk result (IsWalked (D.oracle db.now) (state_of collector.old session.old)
        (macro_directive_of directive.entry) (derives_in list.entry) (written_attr_of list.entry.written) (state_of collector.new session.new)) }
    ensures left { IfOk result (λ left. left ≡ true) }
    ensures depth { directive.entry.depth < 2 ^ 32 }
    ensures few { OnOk result (length list.entry.paths.now < 2 ^ 64) }
    ensures session { AddsLocations (session_of session.old) (session_of session.new) }
{
    leave(&mut collector.unresolved_macros, directive);
    let written = list.written;
    let file = directive.position.file;
    let item_attrs = &mut collector.item_attrs;
    item_attrs.pass_over(file, written.item, written.attr_id)?;
    try_derives(collector, db, session, directive, list)?;
    walk_again(collector, db, session, directive, written)?;
    Ok(true)
}

/// Walks an item once more that waited, where it stood and in the stored directory of its module. On
/// `Err` nothing but safety is promised.
pub fn walk_again<'a, D: SourceDatabase>(
    collector: &mut DefCollector<'a>,
    db: &'a D,
    session: &mut Interner,
    directive: MacroDirective<'a>,
    written: WrittenAttr<'a>,
) -> Result<(), AllocError>
    ensures run { OnOk result (let s = state_of collector.old session.old in
        Leads (D.oracle db.now)
        (rules.Visit (item_site s (macro_directive_of directive.entry) (written_attr_of written.entry)) written.entry.item ∷ [])
        s [] (state_of collector.new session.new)) }
    ensures depth { directive.entry.depth < 2 ^ 32 }
    ensures session { AddsLocations (session_of session.old) (session_of session.new) }
{
    let dir = stored_dir(collector.alloc, &collector.mod_dirs, directive.module_id)?;
    let items = ItemList {
        site: Site {
            module_id: directive.module_id,
            container: directive.container,
            tree_id: written.tree_id,
            depth: directive.depth,
            dir,
        },
        tree: db.item_tree(written.tree_id),
        items: &[],
        into: None,
    };
    walk_item(collector, db, session, &items, written.item)
}

/// Tries the derives of an attribute in order. On `Err` nothing but safety is promised.
fn try_derives<'a, D: SourceDatabase>(
    collector: &mut DefCollector<'a>,
    db: &D,
    session: &Interner,
    directive: MacroDirective<'a>,
    list: DeriveList<'a>,
) -> Result<(), AllocError>
    ensures tried { OnOk result (Tried (D.oracle db.now) (macro_directive_of directive.entry) (derives_in list.entry)
        (state_of collector.old session.now) (state_of collector.new session.now)) }
    ensures dirs { collector.new.mod_dirs ≡ collector.old.mod_dirs }
    ensures few { length list.entry.paths.now < 2 ^ 64 }
{
    'derives: for pos in 0..list.paths.len() {
        let (path, ctxt) = &list.paths[pos];
        let written = WrittenDerive {
            attr_id: list.written.attr_id,
            pos,
            path,
            ctxt: *ctxt,
            call: list.call,
        };
        try_derive(collector, db, session, directive, written)?;
    }
    Ok(())
}

/// Tries a derive of an attribute: where its macro is found it is called, and deferred or its expansion
/// is to be walked, else it waits. On `Err` nothing but safety is promised.
fn try_derive<'a, D: SourceDatabase>(
    collector: &mut DefCollector<'a>,
    db: &D,
    session: &Interner,
    directive: MacroDirective<'a>,
    written: WrittenDerive<'a>,
) -> Result<(), AllocError>
    ensures tried { OnOk result (let s = state_of collector.old session.now in let d = macro_directive_of directive.entry in
        let w = written_derive_of written.entry in
        state_of collector.new session.now ≡ (tried_effect (D.oracle db.now) s d w (rule.derive_macro (rules.world (D.oracle db.now) s) d.scope w)).state) }
    ensures dirs { collector.new.mod_dirs ≡ collector.old.mod_dirs }
    ensures depth { directive.entry.depth < 2 ^ 32 }
{
    let world = collector.world(db, session);
    let Some(macro_def) = derive_macro(&world, directive.module_id, written.path) else {
        return queue_derive(&mut collector.unresolved_macros, &directive, written);
    };
    let found = FoundDerive { written, macro_def };
    call_tried(
        &mut collector.def_map,
        db,
        &mut collector.deferred_builtin_derives,
        &mut collector.expansions,
        &directive,
        found,
    )
}

/// Walks the expansions of what was given a call, in order. On `Err` nothing but safety is promised.
fn walk_expansions<'a, D: SourceDatabase>(
    collector: &mut DefCollector<'a>,
    db: &'a D,
    session: &mut Interner,
) -> Result<(), AllocError>
    requires { collector.old.inner_calls.items ≡ [] }
    ensures run { OnOk result (CollectsCalmly (D.oracle db.now)
        [] (state_of collector.old session.old) [] (state_of collector.new session.new)) }
    ensures recorded { OnOk result (collector.new.inner_calls.items ≡ []) }
    ensures expanded { OnOk result (collector.new.expansions.items ≡ []) }
    ensures fewer { OnOk result (waiting_work (state_of collector.new session.new) ≤ waiting_work (state_of collector.old session.old)) }
    ensures session { AddsLocations (session_of session.old) (session_of session.new) }
{
    'expansions: while let Some(expansion) = collector.expansions.pop_front() {
        walk_expansion(collector, db, session, expansion)?;
    }
    Ok(())
}

/// Walks an expansion, unless it lies too deep. On `Err` nothing but safety is promised.
fn walk_expansion<'a, D: SourceDatabase>(
    collector: &mut DefCollector<'a>,
    db: &'a D,
    session: &mut Interner,
    expansion: Expansion,
) -> Result<(), AllocError>
    ensures walked { OnOk result (IsExpanded (D.oracle db.now) (expansion_shown expansion)
        (state_of collector.old session.old) (state_of collector.new session.new)) }
    ensures depth { expansion.depth < 2 ^ 32 }
    ensures session { AddsLocations (session_of session.old) (session_of session.new) }
{
    match open_expansion(collector, db, expansion)? {
        Some(list) => walk(collector, db, session, list),
        None => Ok(()),
    }
}
