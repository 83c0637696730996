//! The associated items of the traits and impls of a workspace, as lines of text.

use crate::fault::Fault;
use crate::lines::say_diagnostic;
use crate::page::Page;
use crate::words::{Word, item_word};
use crate::workspace::{AssocText, Workspace};
use def_assoc::{AssocItemId, AssocTypes, ImplItems, MacroCalls, TraitItems};
use def_collector::Collected;
use def_interner::{Interner, LocationId};
use def_map::{AssocItemsOwner, ImplId, MapId, ModuleId, TraitId};
use def_rules::DefDiagnostic;
use def_scripted::{AskText, Asked, Unknown, copy_of};
use item_tree::{FileAstId, InFile, Name};
use std::alloc::AllocError;
use std::io;

/// What lines speak of, in the order in which they are printed.
const ITEM: usize = 0;

const TYPES: usize = 1;

const CALL: usize = 2;

const DIAGNOSTIC: usize = 3;

const NAMED: usize = 4;

const NOTHING: usize = 5;

/// The words with which each line of a trait or an impl begins.
type Head = [Word; 2];

/// An associated item.
fn assoc_word(id: AssocItemId) -> Word {
    match id {
        AssocItemId::Function(id) => Word::Number("fn:", id.0),
        AssocItemId::Const(id) => Word::Number("const:", id.0),
        AssocItemId::TypeAlias(id) => Word::Number("type:", id.0),
    }
}

/// Adds the items of a trait or an impl.
fn add_items(page: &mut Page<'_>, head: Head, items: &[(Name, AssocItemId)]) {
    for (number, (name, id)) in items.iter().enumerate() {
        page.begin((ITEM, number, "", 0), &head);
        page.say(&[Word::Text("item"), Word::Name(*name), assoc_word(*id)]);
        page.end();
    }
}

/// Adds the associated types of a trait, if it has one.
fn add_types(page: &mut Page<'_>, head: Head, types: AssocTypes<'_>) {
    let mut is_begun = false;
    for id in types {
        if !is_begun {
            page.begin((TYPES, 0, "", 0), &head);
            page.say(&[Word::Text("types")]);
            is_begun = true;
        }
        page.say(&[Word::Number("type:", id.0)]);
    }
    if is_begun {
        page.end();
    }
}

/// Adds the macro calls among the items of a trait or an impl.
fn add_calls(page: &mut Page<'_>, head: Head, calls: MacroCalls<'_>) {
    for (number, (position, call)) in calls.enumerate() {
        page.begin((CALL, number, "", 0), &head);
        page.say(&[
            Word::Text("call"),
            item_word(position.file, position.value.0),
            Word::Number("call:", call.0),
        ]);
        page.end();
    }
}

/// Adds the diagnostics of the items of a trait or an impl.
fn add_diagnostics(page: &mut Page<'_>, head: Head, diagnostics: &[DefDiagnostic]) {
    for (number, diagnostic) in diagnostics.iter().enumerate() {
        page.begin((DIAGNOSTIC, number, "", 0), &head);
        page.say(&[Word::Text("diag")]);
        say_diagnostic(page, number, diagnostic);
    }
}

/// Prints the lines of a trait or an impl, or one that says that it has none.
fn print_lines<W: io::Write>(
    mut page: Page<'_>,
    head: Head,
    session: &Interner,
    diagnostics: &[DefDiagnostic],
    out: &mut W,
) -> Result<(), Fault> {
    if page.is_empty() {
        page.begin((NOTHING, 0, "", 0), &head);
        page.say(&[Word::Text("nothing")]);
        page.end();
    }
    page.sort()?;
    Ok(page.print(session, diagnostics, out)?)
}

/// Prints the items of a trait.
fn print_trait<W: io::Write>(
    workspace: &mut Workspace,
    id: TraitId,
    out: &mut W,
) -> Result<(), Fault> {
    let Workspace {
        alloc,
        session,
        db,
        ..
    } = workspace;
    let (items, diagnostics) = TraitItems::query_with_diagnostics(*alloc, db, session, id)?;
    let head = [Word::Bare("trait"), Word::Number("", id.0)];
    let mut page = Page::new(*alloc);
    add_items(&mut page, head, items.items.as_slice());
    add_types(&mut page, head, items.associated_types());
    add_calls(&mut page, head, items.macro_calls());
    add_diagnostics(&mut page, head, diagnostics.as_slice());
    print_lines(page, head, session, diagnostics.as_slice(), out)
}

/// Prints the items of an impl.
fn print_impl<W: io::Write>(
    workspace: &mut Workspace,
    id: ImplId,
    out: &mut W,
) -> Result<(), Fault> {
    let Workspace {
        alloc,
        session,
        db,
        ..
    } = workspace;
    let (items, diagnostics) = ImplItems::of(*alloc, db, session, id)?;
    let head = [Word::Bare("impl"), Word::Number("", id.0)];
    let mut page = Page::new(*alloc);
    add_items(&mut page, head, items.items.as_slice());
    add_calls(&mut page, head, items.macro_calls());
    add_diagnostics(&mut page, head, diagnostics.as_slice());
    print_lines(page, head, session, diagnostics.as_slice(), out)
}

/// What a look-up found, if it found something.
fn found_word(found: Option<AssocItemId>) -> Word {
    match found {
        Some(id) => assoc_word(id),
        None => Word::Text("-"),
    }
}

/// Adds what a name means among the items of a trait: as a method, as a type, and as any item.
fn add_named(page: &mut Page<'_>, head: Head, number: usize, name: Name, items: &TraitItems) {
    let method = items.method_by_name(&name).map(AssocItemId::Function);
    let assoc_type = items
        .associated_type_by_name(&name)
        .map(AssocItemId::TypeAlias);
    page.begin((NAMED, number, "", 0), &head);
    page.say(&[
        Word::Text("named"),
        Word::Name(name),
        found_word(method),
        found_word(assoc_type),
        found_word(items.assoc_item_by_name(&name)),
    ]);
    page.end();
}

/// Prints what names mean among the items of a trait.
fn print_named<W: io::Write>(
    workspace: &mut Workspace,
    id: TraitId,
    names: &[&str],
    out: &mut W,
) -> Result<(), Fault> {
    let Workspace {
        alloc,
        session,
        db,
        ..
    } = workspace;
    let (items, diagnostics) = TraitItems::query_with_diagnostics(*alloc, db, session, id)?;
    let head = [Word::Bare("trait"), Word::Number("", id.0)];
    let mut page = Page::new(*alloc);
    for (number, text) in names.iter().enumerate() {
        let name = session.intern_name(text)?;
        add_named(&mut page, head, number, name, &items);
    }
    print_lines(page, head, session, diagnostics.as_slice(), out)
}

/// Prints the answer of a question about associated items.
fn print_asked<W: io::Write>(
    workspace: &mut Workspace,
    ask: &AskText<'_>,
    out: &mut W,
) -> Result<(), Fault> {
    match (ask.of, ask.names.as_slice()) {
        (Asked::Trait(id), []) => print_trait(workspace, id, out),
        (Asked::Trait(id), names) => print_named(workspace, id, names, out),
        (Asked::Impl(id), _) => print_impl(workspace, id, out),
    }
}

/// Hands a map that was collected to the database, and answers which one it is.
fn finish(workspace: &mut Workspace, collected: Collected) -> Result<MapId, AllocError> {
    let Collected {
        def_map,
        local_def_map,
        outcome: _,
        diagnostics: _,
    } = collected;
    let map = def_map.id();
    match map.block {
        Some(block) => workspace.db.add_outer_map(block, def_map)?,
        None => workspace.db.add_map(map.krate, def_map, local_def_map)?,
    }
    Ok(map)
}

/// Whether a text is that of the trait or the impl that stands there. In a block those of its own
/// text stand there too.
fn is_text_of(text: &AssocText, container: ModuleId, position: InFile<FileAstId>) -> bool {
    let is_in = text.tree.block.is_none() || text.tree.block == container.map.block;
    is_in && text.tree.file == position.file && text.item == position.value
}

/// Gives a trait or an impl that stands there its items. A block's text is read last.
fn add_list(
    workspace: &mut Workspace,
    owner: AssocItemsOwner,
    container: ModuleId,
    position: InFile<FileAstId>,
) -> Result<(), AllocError> {
    let Workspace {
        alloc,
        db,
        assoc,
        ..
    } = workspace;
    for text in assoc.iter().rev() {
        if is_text_of(text, container, position) {
            return db.add_assoc_items(owner, copy_of(*alloc, &text.list)?);
        }
    }
    Ok(())
}

/// Gives the traits that the session knows their items.
fn add_trait_lists(workspace: &mut Workspace) -> Result<(), AllocError> {
    for number in 0..usize::MAX {
        let Some(loc) = TraitId(number).lookup(&workspace.session).copied() else {
            break;
        };
        let owner = AssocItemsOwner::Trait(TraitId(number));
        add_list(workspace, owner, loc.container, loc.position)?;
    }
    Ok(())
}

/// Gives the impls that the session knows their items.
fn add_impl_lists(workspace: &mut Workspace) -> Result<(), AllocError> {
    for number in 0..usize::MAX {
        let Some(loc) = ImplId(number).lookup(&workspace.session).copied() else {
            break;
        };
        let owner = AssocItemsOwner::Impl(ImplId(number));
        add_list(workspace, owner, loc.container, loc.position)?;
    }
    Ok(())
}

/// Forgets what the oracle of a row does not know where associated items are asked for.
fn forget(workspace: &mut Workspace, unknown: &Unknown) {
    let db = &mut workspace.db;
    match unknown {
        Unknown::FinishedMaps => {
            db.crates.maps.clear();
            db.crates.outer_maps.clear();
        }
        Unknown::LocalMaps => db.crates.local_maps.clear(),
        Unknown::Items => db.types.assoc_items.clear(),
        Unknown::Files | Unknown::Crates | Unknown::Variants | Unknown::Maps => {}
    }
}

/// Prints the items of the traits of a map.
fn print_traits<W: io::Write>(
    workspace: &mut Workspace,
    map: MapId,
    out: &mut W,
) -> Result<(), Fault> {
    for number in 0..usize::MAX {
        match TraitId(number).lookup(&workspace.session) {
            Some(loc) if loc.container.map == map => {
                print_trait(workspace, TraitId(number), out)?;
            }
            Some(_) => {}
            None => break,
        }
    }
    Ok(())
}

/// Prints the items of the impls of a map.
fn print_impls<W: io::Write>(
    workspace: &mut Workspace,
    map: MapId,
    out: &mut W,
) -> Result<(), Fault> {
    for number in 0..usize::MAX {
        match ImplId(number).lookup(&workspace.session) {
            Some(loc) if loc.container.map == map => print_impl(workspace, ImplId(number), out)?,
            Some(_) => {}
            None => break,
        }
    }
    Ok(())
}

/// Prints the items of the traits and impls of what was collected, and then what a row asks about
/// others and about names.
pub fn print_items<W: io::Write>(
    workspace: &mut Workspace,
    collected: Collected,
    unknown: &[Unknown],
    asks: &[AskText<'_>],
    out: &mut W,
) -> Result<(), Fault> {
    let map = finish(workspace, collected)?;
    add_trait_lists(workspace)?;
    add_impl_lists(workspace)?;
    for unknown in unknown {
        forget(workspace, unknown);
    }
    print_traits(workspace, map, out)?;
    print_impls(workspace, map, out)?;
    for ask in asks {
        print_asked(workspace, ask, out)?;
    }
    Ok(())
}
