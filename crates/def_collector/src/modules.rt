//! Modules: what an item declares, and the list of items that it opens. Each function is one over the
//! parts that a module changes: the map, its table, and what is reported.
ghost use Rattle.std.specs.Prelude.{◌≡◌, ◌∷◌, [], Ok, map, string_bytes, IfOk, OnOk};
ghost use Rattle.item_tree.specs.declared.items.ModContents.TheVariants as contents_kind;
ghost use Rattle.def_bindings.specs.declared.bindings.Namespace.TheVariants.{Types};
ghost use Rattle.def_ids.specs.declared.ids.Def.TheVariants as def_kind;
ghost use Rattle.def_interner.specs.Session as sessions;
ghost use Rattle.def_items.specs.Parts.{with_parts};
ghost use Rattle.def_modules.specs.declared.module_data.ModuleOrigin.TheVariants as origin_kind;
ghost use Rattle.def_parts.specs.Sites.{site_of};
ghost use Rattle.def_collector.specs.Walk.{AreKnown, found_in, inner_of, with_reports};
ghost use Rattle.def_laws.specs.Performs.{IsDone, Updated};
ghost use Rattle.def_rules.specs.declared.diagnostics.DefDiagnosticKind.TheVariants.{UnresolvedModule};
ghost use Rattle.def_rules.specs.Items as items;
ghost use Rattle.def_rules.specs.Modules as module_rules;
ghost use Rattle.def_rules.specs.Modules.{module_item, outline_item};
ghost use Rattle.def_rules.specs.State.{State};

use def_bindings::Visibility;
use def_ids::{ItemContainerId, ModuleId};
use def_interner::Interner;
use def_items::{
    ChildModule, ItemList, disabled_by, hands_on, into_if, is_macro_use, push_child_module, report,
    top_items,
};
use def_map::{MapData, ModuleOrigin, SourceDatabase, Table};
use def_parts::{Globs, ModDir, Site};
use def_rules::{DefDiagnostic, DefDiagnosticKind};
use item_tree::{FileId, HirFileId, ItemNode, ModContents, ModItemId, Name, Seq, Text, TreeId};
use std::alloc::{AllocError, Global};

/// A module that is declared: its item and where that stands, its name and the text of that, its
/// visibility, and where its items are.
#[derive(Clone, Copy)]
pub(crate) struct ModuleItem<'s, 'a> {
    pub site: &'s Site,
    pub node: &'s ItemNode,
    pub name: Name,
    pub text: &'s str,
    pub vis: Visibility,
    pub contents: &'a ModContents,
}

/// A module that is declared, and its file.
#[derive(Drop)]
struct FoundModule<'s, 'a> {
    item: ModuleItem<'s, 'a>,
    file: FileId,
    is_mod_rs: bool,
    dir: ModDir,
}

/// What makes a module whose items are in braces, or nowhere.
fn inline_origin(item: ModuleItem<'_, '_>) -> ModuleOrigin
    ensures { result ≡ origin_kind.Inline item.entry.node.now.ast_id item.entry.site.now.tree_id }
{
    ModuleOrigin::Inline {
        definition: item.node.ast_id,
        tree: item.site.tree_id,
    }
}

/// Declares a module. Answers the list of its items, if they are to be walked. On `Err` nothing
/// but safety is promised.
#[inline(never)]
pub(crate) fn collect_module<'a, D: SourceDatabase>(
    alloc: Global,
    def_map: &mut MapData,
    table: &mut Globs<Table>,
    diagnostics: &mut Vec<DefDiagnostic>,
    db: &'a D,
    item: ModuleItem<'_, 'a>,
) -> Result<Option<ItemList<'a>>, AllocError>
    ensures done { IfOk result (λ opened. (s : State) →
        item.entry.text.now ≡ module_rules.name_text s.session item.entry.name →
        IsDone (D.oracle db.now)
        (module_item (D.oracle db.now) (with_reports s def_map.old table.old diagnostics.old) (site_of item.entry.site.now) item.entry.node.now item.entry.name item.entry.vis item.entry.contents.now)
        (with_reports s def_map.new table.new diagnostics.new) (inner_of (D.oracle db.now) opened)) }
    ensures known { IfOk result (λ opened. AreKnown (D.oracle db.now) opened) }
{
    match item.contents {
        ModContents::Inline(children) => {
            collect_inline_module(alloc, def_map, table, db, item, children.as_slice())
        }
        ModContents::Outline => collect_outline_module(
            alloc,
            def_map,
            table,
            diagnostics,
            db,
            item,
        ),
    }
}

/// Declares a module whose items are in braces.
fn collect_inline_module<'a, D: SourceDatabase>(
    alloc: Global,
    def_map: &mut MapData,
    table: &mut Globs<Table>,
    db: &'a D,
    item: ModuleItem<'_, 'a>,
    children: &'a [ModItemId],
) -> Result<Option<ItemList<'a>>, AllocError>
    ensures done { IfOk result (λ opened. (s : State) →
        item.entry.text.now ≡ module_rules.name_text s.session item.entry.name →
        IsDone (D.oracle db.now)
        (module_item (D.oracle db.now) (with_parts s def_map.old table.old) (site_of item.entry.site.now) item.entry.node.now item.entry.name item.entry.vis (contents_kind.Inline children.now))
        (with_parts s def_map.new table.new) (inner_of (D.oracle db.now) opened)) }
    ensures known { IfOk result (λ opened. AreKnown (D.oracle db.now) opened) }
{
    let site = item.site;
    let origin = inline_origin(item);
    let child = push_module(alloc, def_map, table, item, origin, children.len())?;
    // The directory comes last, so that nothing has to be let go where the module is not added.
    let attr = item.node.path_attr();
    let Some(dir) = site.dir.descend_into_definition(item.text, attr)? else {
        return Ok(None);
    };
    Ok(Some(ItemList {
        site: Site {
            module_id: child,
            container: ItemContainerId::Module(child),
            tree_id: site.tree_id,
            depth: site.depth,
            dir,
        },
        tree: db.item_tree(site.tree_id),
        items: children,
        into: into_if(is_macro_use(item.node), site.module_id),
    }))
}

/// Declares a module whose items are those of a file of its own, if that is found and enabled.
fn collect_outline_module<'a, D: SourceDatabase>(
    alloc: Global,
    def_map: &mut MapData,
    table: &mut Globs<Table>,
    diagnostics: &mut Vec<DefDiagnostic>,
    db: &'a D,
    item: ModuleItem<'_, 'a>,
) -> Result<Option<ItemList<'a>>, AllocError>
    ensures done { IfOk result (λ opened. (s : State) →
        item.entry.text.now ≡ module_rules.name_text s.session item.entry.name →
        IsDone (D.oracle db.now)
        (module_item (D.oracle db.now) (with_reports s def_map.old table.old diagnostics.old) (site_of item.entry.site.now) item.entry.node.now item.entry.name item.entry.vis contents_kind.Outline)
        (with_reports s def_map.new table.new diagnostics.new) (inner_of (D.oracle db.now) opened)) }
    ensures known { IfOk result (λ opened. AreKnown (D.oracle db.now) opened) }
{
    let site = item.site;
    let file = site.tree_id.file;
    let attr = item.node.path_attr();
    match site.dir.resolve_declaration(db, file, item.text, attr)? {
        Ok((file, is_mod_rs, dir)) => {
            let found = FoundModule {
                item,
                file,
                is_mod_rs,
                dir,
            };
            collect_file_module(alloc, def_map, table, diagnostics, db, found)
        }
        Err(candidates) => {
            let kind = unresolved_module(alloc, candidates)?;
            report(diagnostics, site, item.node, kind)?;
            push_module(alloc, def_map, table, item, inline_origin(item), 0)?;
            Ok(None)
        }
    }
}

/// Declares a module whose file was found, unless cfg disables that.
fn collect_file_module<'a, D: SourceDatabase>(
    alloc: Global,
    def_map: &mut MapData,
    table: &mut Globs<Table>,
    diagnostics: &mut Vec<DefDiagnostic>,
    db: &'a D,
    found: FoundModule<'_, 'a>,
) -> Result<Option<ItemList<'a>>, AllocError>
    ensures done { IfOk result (λ opened. (s : State) → let item = found.entry.item in
        IsDone (D.oracle db.now)
        (outline_item (D.oracle db.now) (with_reports s def_map.old table.old diagnostics.old) (site_of item.site.now) item.node.now item.name item.vis (Ok (found_in found.entry)))
        (with_reports s def_map.new table.new diagnostics.new) (inner_of (D.oracle db.now) opened)) }
    ensures known { IfOk result (λ opened. AreKnown (D.oracle db.now) opened) }
{
    let item = found.item;
    let tree_id = TreeId {
        file: HirFileId::File(found.file),
        block: None,
    };
    let tree = db.item_tree(tree_id);
    if let Some(cfg) = disabled_by(tree) {
        let kind = DefDiagnosticKind::UnconfiguredCode { cfg };
        report(diagnostics, item.site, item.node, kind)?;
        return Ok(None);
    }
    let origin = ModuleOrigin::File {
        declaration: item.node.ast_id,
        tree: item.site.tree_id,
        file: found.file,
        is_mod_rs: found.is_mod_rs,
    };
    let items = top_items(tree);
    let child = push_module(alloc, def_map, table, item, origin, items.len())?;
    let handed_on = hands_on(item.node, tree);
    Ok(Some(ItemList {
        site: Site {
            module_id: child,
            container: ItemContainerId::Module(child),
            tree_id,
            depth: item.site.depth,
            dir: found.dir,
        },
        tree,
        items,
        into: into_if(handed_on, item.site.module_id),
    }))
}

/// Adds the module of an item as a child of the one that the item stands in, and declares it in
/// types, with room for so many items. Answers the module. On `Err` nothing but safety is promised.
fn push_module(
    alloc: Global,
    def_map: &mut MapData,
    table: &mut Globs<Table>,
    item: ModuleItem<'_, '_>,
    origin: ModuleOrigin,
    room: usize,
) -> Result<ModuleId, AllocError>
    ensures child { IfOk result (λ child. (s : State) → child ≡ module_rules.next_module (with_parts s def_map.old table.old)) }
    ensures added { OnOk result ((s : State) →
        let before = with_parts s def_map.old table.old in
        let at = item.entry.site.now.module_id in
        Updated at (items.declared_entry item.entry.name Types (def_kind.Module (module_rules.next_module before)) item.entry.vis ∷ [])
        (module_rules.add_module before at item.entry.name item.entry.vis origin) (with_parts s def_map.new table.new)) }
{
    let added = ChildModule {
        parent: item.site.module_id,
        name: item.name,
        vis: item.vis,
        items: room,
    };
    push_child_module(alloc, def_map, table, added, origin)
}

/// The text of a name. An unknown name has none.
pub(crate) fn name_text(session: &Interner, name: Name) -> &str
    ensures { result.now ≡ module_rules.name_text (sessions.session_of session.now) name }
{
    session.text(name).unwrap_or("")
}

/// What is reported of a module none of whose files is there.
fn unresolved_module(alloc: Global, files: Vec<String>) -> Result<DefDiagnosticKind, AllocError>
    ensures { IfOk result (λ kind. kind ≡ UnresolvedModule (map string_bytes files.items)) }
{
    let candidates = texts_of(alloc, files.as_slice())?;
    Ok(DefDiagnosticKind::UnresolvedModule { candidates })
}

/// Copies of these texts.
fn texts_of(alloc: Global, texts: &[String]) -> Result<Seq<Text>, AllocError>
    ensures { IfOk result (λ copies. copies ≡ map string_bytes texts.now) }
{
    let mut copies = Vec::new(alloc);
    'texts: for text in texts {
        copies.push(Text::from_str(alloc, text.as_str())?)?;
    }
    Ok(Seq::from_vec(copies))
}
