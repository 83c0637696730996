//! The walk over the items of a trait or an impl and over the expansions among them, each in the place
//! of its call. It only reads the session: items with names are numbered once the walk has ended.
ghost use Rattle.std.specs.Prelude.{◌≡◌, ◌++◌, ◌∷◌, [], ◌<◌, ◌^◌, IfOk, OnOk, MatchOption};
ghost use Rattle.def_modules.specs.Maps.{map_state};
ghost use Rattle.def_assoc.specs.ExpansionTrees as trees;
ghost use Rattle.def_assoc.specs.Shown.{found_of, node_of, nodes_of, reading_of, unread};
ghost use Rattle.def_assoc.specs.Work.{weight, work};

use crate::numbered::{NamedItem, NamedKind};
use def_ids::ModuleId;
use def_interner::MacroDefKind;
use def_map::{
    AssocItem, AssocItemKind, AssocItemsOwner, BuiltinShadowMode, CallAnswer, SourceDatabase,
    Table, World,
};
use def_rules::{DefDiagnostic, DefDiagnosticKind, DefDiagnostics, ExpandErrorKind, LeftMacroKind};
use item_tree::{
    Attr, AttrId, AttrsAfter, AttrsOrCfg, ExpandTo, FileAstId, HirFileId, InFile, MacroCallId,
    ModPath, Name, Seq, SyntaxContext,
};
use macro_calls::{
    AttrMeaning, WrittenCall, attr_meaning, call_answer, call_query, deeper, expand_error,
    is_too_deep,
};
use std::alloc::{AllocError, Global};

/// What a walk found: the items with names, the macro calls and what is reported, each in order.
#[derive(Drop)]
pub struct Found {
    pub named: Vec<NamedItem>,
    pub macro_calls: Vec<(InFile<FileAstId>, MacroCallId)>,
    pub diagnostics: DefDiagnostics,
}

/// An associated item in its file, at its depth of expansion.
#[derive(Clone, Copy)]
pub struct Node<'a> {
    pub file: HirFileId,
    pub depth: u32,
    pub item: &'a AssocItem,
}

/// The items of a list that are still to be read.
#[derive(Clone, Copy)]
pub struct ItemList<'a> {
    pub file: HirFileId,
    pub depth: u32,
    pub rest: &'a [AssocItem],
}

impl<'a> Node<'a> {
    /// Where the item stands.
    fn position(self) -> InFile<FileAstId>
        ensures { result ≡ trees.position_of (node_of self.entry) }
    {
        InFile {
            file: self.file,
            value: self.item.ast_id,
        }
    }
}

impl Found {
    /// Nothing.
    pub fn new(alloc: Global) -> Found
        ensures { found_of result ≡ trees.no_lists }
    {
        Found {
            named: Vec::new(alloc),
            macro_calls: Vec::new(alloc),
            diagnostics: Seq::from_vec(Vec::new(alloc)),
        }
    }
}

/// Collects the items of a list and of all expansions among them. Lists that are not read to their end
/// wait on a stack, the one that is read on first at its top. On `Err` nothing but safety is promised.
pub fn collect<'a, D: SourceDatabase>(
    alloc: Global,
    world: &World<'a, D, Table>,
    module_id: ModuleId,
    items: ItemList<'a>,
) -> Result<Found, AllocError>
    ensures { let r = reading_of D.oracle world.now module_id in
        IfOk result (λ found. found_of found ≡ trees.lists_of r (trees.tree r (nodes_of items.entry))) }
{
    let mut found = Found::new(alloc);
    let mut lists = Vec::new(alloc);
    lists.push(items)?;
    'items: while let Some(node) = next_node(&mut lists)? {
        let expands = collect_item(alloc, world, module_id, node, &mut found)?;
        open_expansion(world, node.depth, expands, &mut lists)?;
    }
    Ok(found)
}

/// Takes the next item that is to be read: that of the last list, or of the one below where that list
/// has none left. On `Err` nothing but safety is promised.
fn next_node<'a>(lists: &mut Vec<ItemList<'a>>) -> Result<Option<Node<'a>>, AllocError>
    ensures { IfOk result (λ next. MatchOption next
        (unread lists.old.items ≡ [])
        (λ node. unread lists.old.items ≡ node_of node ∷ unread lists.new.items)) }
{
    'lists: while let Some(list) = lists.pop() {
        if let Some((item, rest)) = list.rest.split_first() {
            lists.push(ItemList {
                file: list.file,
                depth: list.depth,
                rest,
            })?;
            return Ok(Some(Node {
                file: list.file,
                depth: list.depth,
                item,
            }));
        }
    }
    Ok(None)
}

/// Puts the items of a call's expansion before all that is to be read, if there is a call and its
/// expansion does not lie too deep. They are less work than the item of the call. On `Err` nothing but
/// safety is promised.
fn open_expansion<'a, D: SourceDatabase>(
    world: &World<'a, D, Table>,
    depth: u32,
    call: Option<MacroCallId>,
    lists: &mut Vec<ItemList<'a>>,
) -> Result<(), AllocError>
    ensures opened { let below = trees.expansion_of (D.oracle world.now.db.now) (map_state world.now.map.now) depth call in
        OnOk result (unread lists.new.items ≡ below ++ unread lists.old.items) }
    ensures less { let below = trees.expansion_of (D.oracle world.now.db.now) (map_state world.now.map.now) depth call in
        OnOk result (work below < weight (trees.levels_from depth)) }
    ensures fits { depth < 2 ^ 32 }
{
    let Some(call) = call else {
        return Ok(());
    };
    if is_too_deep(world.map, depth) {
        return Ok(());
    }
    let rest = items_of(world.db, AssocItemsOwner::Expansion(call));
    if rest.len() == 0 {
        return Ok(());
    }
    lists.push(ItemList {
        file: HirFileId::Macro(call),
        depth: deeper(depth),
        rest,
    })?;
    Ok(())
}

/// The items that the database has of an owner. An alias of traits has none.
pub fn items_of<'a, D: SourceDatabase>(db: &'a D, owner: AssocItemsOwner) -> &'a [AssocItem]
    ensures { result.now ≡ trees.items_of (D.oracle db.now) owner }
{
    let Some(list) = db.assoc_items(owner) else {
        return &[];
    };
    match owner {
        AssocItemsOwner::Trait(_) if list.is_alias => &[],
        _ => list.items.as_slice(),
    }
}

/// Collects an item, and answers the call whose expansion stands below it. One that is not compiled is
/// reported, and one with an attribute macro gives way to the macro's expansion. On `Err` nothing but
/// safety is promised.
fn collect_item<D: SourceDatabase>(
    alloc: Global,
    world: &World<'_, D, Table>,
    module_id: ModuleId,
    node: Node<'_>,
    found: &mut Found,
) -> Result<Option<MacroCallId>, AllocError>
    ensures { let given = trees.gives (reading_of D.oracle world.now module_id) (node_of node.entry) in
        IfOk result (λ expands. (expands ≡ given.expands)
        × (found_of found.new ≡ trees.joined (found_of found.old) (trees.lists_in given))) }
{
    if is_other(&node.item.kind) {
        return Ok(None);
    }
    let Some(written) = &node.item.attrs else {
        return record_item(alloc, world, module_id, node, found);
    };
    let attrs = match written {
        AttrsOrCfg::Enabled(attrs) => attrs,
        AttrsOrCfg::CfgDisabled(cfg, _) => {
            let kind = DefDiagnosticKind::UnconfiguredCode { cfg: *cfg };
            report(module_id, node.position(), kind, &mut found.diagnostics)?;
            return Ok(None);
        }
    };
    let attrs = attrs.iter_after(None);
    match read_attrs(world, module_id, node, attrs, &mut found.diagnostics)? {
        Some(call) => {
            found.macro_calls.push((node.position(), call))?;
            Ok(Some(call))
        }
        None => record_item(alloc, world, module_id, node, found),
    }
}

/// Whether an item is of a kind that no associated item is of. Not even its attributes are read then.
fn is_other(kind: &AssocItemKind) -> bool
    ensures { result ≡ trees.is_other kind.now }
{
    matches!(kind, AssocItemKind::Other)
}

/// Reads the attributes of an item, up to one whose macro takes the item's place: its call. On `Err`
/// nothing but safety is promised.
fn read_attrs<D: SourceDatabase>(
    world: &World<'_, D, Table>,
    module_id: ModuleId,
    node: Node<'_>,
    attrs: AttrsAfter<'_>,
    diagnostics: &mut DefDiagnostics,
) -> Result<Option<MacroCallId>, AllocError>
    ensures { let read = trees.attrs_read (reading_of D.oracle world.now module_id) (node_of node.entry) attrs.entry in
        IfOk result (λ call. (call ≡ read.call) × (diagnostics.new ≡ diagnostics.old ++ read.diagnostics)) }
{
    let mut rest = attrs;
    'attrs: while let Some((id, attr)) = rest.next() {
        let call = read_attr(world, module_id, node, id, attr, diagnostics)?;
        if call.is_some() {
            return Ok(call);
        }
    }
    Ok(None)
}

/// Reads an attribute of an item: the call of its macro, if that takes the item's place. A path that
/// names no macro, and a macro that nothing expands, are reported. On `Err` nothing but safety is
/// promised.
fn read_attr<D: SourceDatabase>(
    world: &World<'_, D, Table>,
    module_id: ModuleId,
    node: Node<'_>,
    id: AttrId,
    attr: &Attr,
    diagnostics: &mut DefDiagnostics,
) -> Result<Option<MacroCallId>, AllocError>
    ensures { let read = trees.attr_read (reading_of D.oracle world.now module_id) (node_of node.entry) (id, attr.now) in
        IfOk result (λ call. (call ≡ read.call) × (diagnostics.new ≡ diagnostics.old ++ read.diagnostics)) }
{
    let position = node.position();
    match attr_meaning(world, module_id, position, id, attr, deeper(node.depth)) {
        AttrMeaning::Other => Ok(None),
        AttrMeaning::Unresolved => {
            let kind = DefDiagnosticKind::UnresolvedMacroCall {
                kind: LeftMacroKind::Attr(id),
                path: attr.path.clone()?,
            };
            report(module_id, position, kind, diagnostics)?;
            Ok(None)
        }
        AttrMeaning::Macro(found, call) => match no_expander(found.kind) {
            Some(err) => {
                let kind = DefDiagnosticKind::MacroError {
                    path: attr.path.clone()?,
                    err,
                };
                report(module_id, position, kind, diagnostics)?;
                Ok(None)
            }
            None => Ok(Some(call)),
        },
    }
}

/// Why a macro that an attribute names expands to nothing, if it does.
fn no_expander(kind: MacroDefKind) -> Option<ExpandErrorKind>
    ensures { result ≡ trees.no_expander kind }
{
    match kind {
        MacroDefKind::ProcMacro(expander, _) => expand_error(expander),
        _ => None,
    }
}

/// Records an item by its kind, and answers the call whose expansion stands below it. On `Err` nothing
/// but safety is promised.
fn record_item<D: SourceDatabase>(
    alloc: Global,
    world: &World<'_, D, Table>,
    module_id: ModuleId,
    node: Node<'_>,
    found: &mut Found,
) -> Result<Option<MacroCallId>, AllocError>
    ensures { let given = trees.kind_gives (reading_of D.oracle world.now module_id) (node_of node.entry) node.entry.item.now.kind in
        IfOk result (λ expands. (expands ≡ given.expands)
        × (found_of found.new ≡ trees.joined (found_of found.old) (trees.lists_in given))) }
{
    match &node.item.kind {
        AssocItemKind::Fn(name) => record_named(node, NamedKind::Function, *name, found),
        AssocItemKind::TypeAlias(name) => record_named(node, NamedKind::TypeAlias, *name, found),
        AssocItemKind::Const(name) => record_named(node, NamedKind::Const, *name, found),
        AssocItemKind::MacroCall { path, ctxt } => match path {
            Some(path) => record_call(alloc, world, module_id, node, path, *ctxt, found),
            None => Ok(None),
        },
        AssocItemKind::Other => Ok(None),
    }
}

/// Records an item under its name, if it has one. No expansion stands below it. On `Err` nothing but
/// safety is promised.
fn record_named(
    node: Node<'_>,
    kind: NamedKind,
    name: Option<Name>,
    found: &mut Found,
) -> Result<Option<MacroCallId>, AllocError>
    ensures { let given = trees.names (node_of node.entry) kind name in
        IfOk result (λ expands. (expands ≡ given.expands)
        × (found_of found.new ≡ trees.joined (found_of found.old) (trees.lists_in given))) }
{
    if let Some(name) = name {
        found.named.push(NamedItem {
            name,
            kind,
            position: node.position(),
        })?;
    }
    Ok(None)
}

/// Records the calls of an answer. Where there is none, that is reported. On `Err` nothing but safety
/// is promised.
fn record_call<D: SourceDatabase>(
    alloc: Global,
    world: &World<'_, D, Table>,
    module_id: ModuleId,
    node: Node<'_>,
    path: &ModPath,
    ctxt: SyntaxContext,
    found: &mut Found,
) -> Result<Option<MacroCallId>, AllocError>
    ensures { let r = reading_of D.oracle world.now module_id in
        let given = trees.answered r (node_of node.entry) path.now (trees.call_answer r (node_of node.entry) path.now ctxt) in
        IfOk result (λ expands. (expands ≡ given.expands)
        × (found_of found.new ≡ trees.joined (found_of found.old) (trees.lists_in given))) }
{
    let position = node.position();
    let written = WrittenCall {
        path,
        expand_to: ExpandTo::Items,
        ctxt,
    };
    let query = call_query(world.map, position, deeper(node.depth), written);
    match call_answer(alloc, world, module_id, BuiltinShadowMode::Other, query)? {
        Ok(answer) => {
            add_calls(position, &answer, &mut found.macro_calls)?;
            Ok(answer.value)
        }
        Err(_) => {
            let kind = DefDiagnosticKind::UnresolvedMacroCall {
                kind: LeftMacroKind::Fn,
                path: path.clone()?,
            };
            report(module_id, position, kind, &mut found.diagnostics)?;
            Ok(None)
        }
    }
}

/// Adds the calls of an answer: those that were made for the arguments, and behind them its own, if it
/// has one. On `Err` nothing but safety is promised.
fn add_calls(
    position: InFile<FileAstId>,
    answer: &CallAnswer,
    calls: &mut Vec<(InFile<FileAstId>, MacroCallId)>,
) -> Result<(), AllocError>
    ensures { OnOk result (calls.new.items ≡ calls.old.items ++ (answer.now.inner ++ trees.call_at position answer.now.value)) }
{
    calls.extend_from_slice(answer.inner.as_slice())?;
    if let Some(call) = answer.value {
        calls.push((position, call))?;
    }
    Ok(())
}

/// Adds a diagnostic of an item of a module. On `Err` nothing but safety is promised.
fn report(
    module_id: ModuleId,
    position: InFile<FileAstId>,
    kind: DefDiagnosticKind,
    diagnostics: &mut DefDiagnostics,
) -> Result<(), AllocError>
    ensures { OnOk result (diagnostics.new ≡ diagnostics.old ++ trees.diagnostic module_id position kind ∷ []) }
{
    diagnostics.push(DefDiagnostic {
        module: module_id,
        ast_id: position,
        kind,
    })
}
