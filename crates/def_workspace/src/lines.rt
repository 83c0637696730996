//! A map and what its run left over, as lines of text.

use crate::fault::Fault;
use crate::page::Page;
use crate::words::{Word, def_word, item_word, origin_word, text_of, visibility_word};
use def_bindings::{Binding, Visibility};
use def_collector::Collected;
use def_interner::Interner;
use def_map::{DefMap, ItemScope, PerNs};
use def_rules::{
    DefDiagnostic, DefDiagnosticKind, Edge, ExpandErrorKind, LeftImport, LeftMacro, LeftMacroKind,
};
use item_tree::{Crate, ModPath, Name, PathKind};
use std::alloc::Global;
use std::io;

/// What lines speak of, in the order in which they are printed.
const MODULE: usize = 0;

const BINDING: usize = 1;

const TRAIT: usize = 2;

const EDGE: usize = 3;

const DIAGNOSTIC: usize = 4;

const LEFT_IMPORT: usize = 5;

const LEFT_MACRO: usize = 6;

const LIMIT: usize = 7;

/// A name in a module: the crate, the module, the name and its text.
#[derive(Clone, Copy)]
struct Named<'a> {
    krate: Crate,
    index: usize,
    name: Name,
    text: &'a str,
}

/// Adds a module, with its parent and its name.
fn add_module(page: &mut Page<'_>, parent: Option<usize>, index: usize, name: Option<Name>) {
    let (parent, name) = match (parent, name) {
        (Some(parent), Some(name)) => (Word::Number("", parent), Word::Name(name)),
        (Some(parent), None) => (Word::Number("", parent), Word::Text("")),
        (None, _) => (Word::Text("-"), Word::Text("crate")),
    };
    let words = [Word::Bare("module"), Word::Number("", index), parent, name];
    page.line((MODULE, index, "", 0), &words);
}

/// Adds what a name is bound to in a namespace.
fn add_binding<'a>(
    page: &mut Page<'a>,
    named: Named<'a>,
    place: usize,
    namespace: &'static str,
    bound: Binding<Visibility>,
) {
    let words = [
        Word::Bare("binding"),
        Word::Number("", named.index),
        Word::Name(named.name),
        Word::Text(namespace),
        def_word(named.krate, bound.def),
        visibility_word(bound.vis),
        origin_word(bound.import),
    ];
    page.line((BINDING, named.index, named.text, place), &words);
}

/// Adds what a name is bound to in the namespaces in which it is bound.
fn add_name<'a>(page: &mut Page<'a>, named: Named<'a>, found: PerNs) {
    if let Some(bound) = found.types {
        add_binding(page, named, 0, "types", bound);
    }
    if let Some(bound) = found.values {
        add_binding(page, named, 1, "values", bound);
    }
    if let Some(bound) = found.macros {
        add_binding(page, named, 2, "macros", bound);
    }
}

/// Adds what the scope of a module binds, by the bytes of the names.
fn add_bindings<'a>(
    page: &mut Page<'a>,
    session: &'a Interner,
    krate: Crate,
    index: usize,
    scope: ItemScope<'_>,
) {
    for (name, found) in scope.resolutions() {
        let text = text_of(session, name);
        let named = Named {
            krate,
            index,
            name,
            text,
        };
        add_name(page, named, found);
    }
}

/// Adds the traits that the scope of a module has without a name, by their numbers.
fn add_traits(page: &mut Page<'_>, index: usize, scope: ItemScope<'_>) {
    for (id, vis) in scope.unnamed_traits() {
        let words = [
            Word::Bare("trait"),
            Word::Number("", index),
            Word::Number("trait:", id.0),
            visibility_word(vis),
        ];
        page.line((TRAIT, index, "", id.0), &words);
    }
}

/// Adds the modules of a map, what their scopes bind, and the traits that these have without a
/// name.
fn add_map<'a>(page: &mut Page<'a>, session: &'a Interner, map: &DefMap) {
    let krate = map.id().krate;
    for (index, module) in map.modules().iter().enumerate() {
        add_module(page, map.parent(index), index, module.name);
        if let Some(scope) = map.scope(index) {
            add_bindings(page, session, krate, index, scope);
            add_traits(page, index, scope);
        }
    }
}

/// Adds the edges of globs, by their sources and importers.
fn add_edges(page: &mut Page<'_>, edges: &[Edge]) {
    for edge in edges {
        let (source, importer) = (edge.source.index, edge.importer.index);
        let words = [
            Word::Bare("edge"),
            Word::Number("", source),
            Word::Number("", importer),
            visibility_word(edge.vis),
            Word::Numbers("", edge.glob.use_id.0, '.', edge.glob.idx as usize),
        ];
        page.line((EDGE, source, "", importer), &words);
    }
}

/// The word with which a path begins, if one does.
fn path_word(kind: PathKind) -> Word {
    match kind {
        PathKind::Plain | PathKind::Abs => Word::Text(""),
        PathKind::Crate => Word::Text("crate"),
        PathKind::Super(0) => Word::Text("self"),
        PathKind::Super(_) => Word::Text("super"),
        PathKind::DollarCrate(krate) => Word::Number("$", krate.0),
    }
}

/// How often `::super` stands behind the word with which a path begins.
fn levels(kind: PathKind) -> u8 {
    match kind {
        PathKind::Super(levels) => levels.saturating_sub(1),
        _ => 0,
    }
}

/// Goes on with a path.
fn say_path(page: &mut Page<'_>, path: &ModPath) {
    page.say(&[path_word(path.kind)]);
    for _ in 0..levels(path.kind) {
        page.say(&[Word::Bare("::super")]);
    }
    let mut is_due = !matches!(path.kind, PathKind::Plain);
    for segment in &path.segments {
        let before = if is_due { "::" } else { "" };
        page.say(&[Word::Segment(before, *segment)]);
        is_due = true;
    }
}

/// Goes on with a path, and ends the line.
fn add_path(page: &mut Page<'_>, path: &ModPath) {
    say_path(page, path);
    page.end();
}

/// Why the macro of an attribute expands to nothing.
fn error_word(err: ExpandErrorKind) -> Word {
    match err {
        ExpandErrorKind::MissingProcMacroExpander => Word::Text("missing"),
        ExpandErrorKind::MacroDisabled => Word::Text("disabled"),
        ExpandErrorKind::ProcMacroAttrExpansionDisabled => Word::Text("attr-disabled"),
    }
}

/// How a macro that was not found is called.
fn caller_word(kind: LeftMacroKind) -> Word {
    match kind {
        LeftMacroKind::Fn => Word::Text("fn"),
        LeftMacroKind::Derive(attr, place) => Word::Numbers("derive:", attr.0, '.', place),
        LeftMacroKind::Attr(attr) => Word::Number("attr:", attr.0),
    }
}

/// The kind of the diagnostic of a number, and the word that it says, if it says one.
fn kind_words(kind: &DefDiagnosticKind, number: usize) -> (&'static str, Word) {
    match kind {
        DefDiagnosticKind::UnresolvedModule { .. } => ("unresolved-module", Word::Files(number)),
        DefDiagnosticKind::UnresolvedExternCrate => ("unresolved-extern-crate", Word::Bare("")),
        DefDiagnosticKind::UnresolvedMacroCall { kind, .. } => {
            ("unresolved-macro", caller_word(*kind))
        }
        DefDiagnosticKind::InvalidDeriveTarget { id } => {
            ("invalid-derive-target", Word::Number("", id.0))
        }
        DefDiagnosticKind::MalformedDerive { id } => ("malformed-derive", Word::Number("", id.0)),
        DefDiagnosticKind::UnimplementedBuiltinMacro => ("unimplemented-builtin", Word::Bare("")),
        DefDiagnosticKind::MacroError { .. } => ("macro-error", Word::Bare("")),
        DefDiagnosticKind::UnconfiguredCode { cfg } => ("unconfigured", Word::Number("", cfg.0)),
        DefDiagnosticKind::UnresolvedImport { index } => {
            ("unresolved-import", Word::Number("", *index as usize))
        }
    }
}

/// Goes on with the diagnostic of a number: its kind, the module and the item that it speaks of, and
/// what it says. Ends the line.
pub fn say_diagnostic(page: &mut Page<'_>, number: usize, diagnostic: &DefDiagnostic) {
    let (kind, detail) = kind_words(&diagnostic.kind, number);
    page.say(&[
        Word::Text(kind),
        Word::Number("", diagnostic.module.index),
        item_word(diagnostic.ast_id.file, diagnostic.ast_id.value.0),
        detail,
    ]);
    match &diagnostic.kind {
        DefDiagnosticKind::UnresolvedMacroCall { path, .. } => add_path(page, path),
        DefDiagnosticKind::MacroError { path, err } => {
            say_path(page, path);
            page.say(&[error_word(*err)]);
            page.end();
        }
        _ => page.end(),
    }
}

/// Adds the diagnostics of a run.
fn add_diagnostics(page: &mut Page<'_>, diagnostics: &[DefDiagnostic]) {
    for (number, diagnostic) in diagnostics.iter().enumerate() {
        page.begin((DIAGNOSTIC, number, "", 0), &[Word::Bare("diag")]);
        say_diagnostic(page, number, diagnostic);
    }
}

/// Adds the imports that a run left over.
fn add_left_imports(page: &mut Page<'_>, imports: &[LeftImport]) {
    for (number, import) in imports.iter().enumerate() {
        let words = [
            Word::Bare("left import"),
            Word::Number("", import.module.index),
        ];
        page.begin((LEFT_IMPORT, number, "", 0), &words);
        add_path(page, &import.path);
    }
}

/// How a macro that a run left over is called.
fn call_text(kind: LeftMacroKind) -> &'static str {
    match kind {
        LeftMacroKind::Fn => "fn",
        LeftMacroKind::Derive(..) => "derive",
        LeftMacroKind::Attr(_) => "attr",
    }
}

/// Adds the macro calls, derives and attributes that a run left over.
fn add_left_macros(page: &mut Page<'_>, macros: &[LeftMacro]) {
    for (number, left) in macros.iter().enumerate() {
        let words = [
            Word::Bare("left macro"),
            Word::Number("", left.module.index),
            Word::Text(call_text(left.kind)),
        ];
        page.begin((LEFT_MACRO, number, "", 0), &words);
        add_path(page, &left.path);
    }
}

/// Adds a map, the diagnostics of its run, what the run left over, and whether it met the limit of
/// rounds.
fn add_all<'a>(page: &mut Page<'a>, session: &'a Interner, collected: &Collected) {
    add_map(page, session, &collected.def_map);
    add_edges(page, collected.outcome.edges.as_slice());
    add_diagnostics(page, collected.diagnostics.as_slice());
    add_left_imports(page, collected.outcome.imports.as_slice());
    add_left_macros(page, collected.outcome.macros.as_slice());
    if collected.outcome.limit_met {
        page.line((LIMIT, 0, "", 0), &[Word::Bare("limit met")]);
    }
}

/// Prints a map, the diagnostics of its run, what the run left over, and whether it met the limit of
/// rounds.
pub fn print<W: io::Write>(
    alloc: Global,
    session: &Interner,
    collected: &Collected,
    out: &mut W,
) -> Result<(), Fault> {
    let mut page = Page::new(alloc);
    add_all(&mut page, session, collected);
    page.sort()?;
    Ok(page.print(session, collected.diagnostics.as_slice(), out)?)
}
