//! The search for what comes from crates that are not given.

use crate::absent::CrateNotes;
use crate::opaque::{Opaque, Unknown};
use crate::parts::{crates_of, diagnostics_of, globs_of, imports_of, number_of};
use crate::stops::Stop;
use crate::words::has_attribute;
use def_ids::ModuleId;
use def_rules::{DefDiagnostic, DefDiagnosticKind, Edge, LeftImport};
use indexmap::IndexMap;
use item_tree::{Crate, Name};
use rust_codebase::{Codebase, CollectedCrate, ReadFile};
use rust_items::{ImportKind, Item, ItemKind};
use rust_lexer::Token;
use rust_names::Names;
use std::alloc::{AllocError, Global};
use std::hash::Hash;

/// What waits while the imports of one crate are looked through: imports by what they lack, the
/// modules that take the names of each by globs, and what is still to be spread.
#[derive(Drop)]
struct Search {
    waiting: IndexMap<Unknown, Vec<usize>>,
    importers: IndexMap<ModuleId, Vec<ModuleId>>,
    to_spread: Vec<Unknown>,
}

/// Adds to the list of a key.
fn add_to<K: Copy + Eq + Hash, T: Drop>(
    alloc: Global,
    lists: &mut IndexMap<K, Vec<T>>,
    key: K,
    entry: T,
) -> Result<(), AllocError> {
    lists.entry(key)?.or_insert(Vec::new(alloc)).push(entry)?;
    Ok(())
}

/// The name of a token, if any text has it.
fn name_of<C: Codebase>(names: &Names<'_, C>, token: Token) -> Option<Name> {
    names.find_name(names.token_text(token))
}

/// The name that an import binds by its last word: what stands behind `as`, or the end of its path.
fn bound_name<C: Codebase>(
    names: &Names<'_, C>,
    import: &LeftImport,
    alias: Option<Token>,
) -> Option<Name> {
    match alias {
        Some(alias) => name_of(names, alias),
        None => import.path.segments.as_slice().last().copied(),
    }
}

/// What a module would bind by an import.
fn unknown_of<C: Codebase>(names: &Names<'_, C>, import: &LeftImport) -> Option<Unknown> {
    let (_, read) = names.import(import.ast_id, import.idx)?;
    let module = import.module;
    let name = match read.kind {
        ImportKind::Glob => None,
        ImportKind::Plain | ImportKind::TypeOnly => Some(bound_name(names, import, read.alias)?),
    };
    Some(Unknown { module, name })
}

/// An extern crate that is not found: its name, the name that it would bind, and whether all macros of
/// it are taken.
#[derive(Clone, Copy)]
struct ExternCrate {
    name: Name,
    bound: Name,
    has_macros: bool,
}

/// The extern crate of an item, if it is one.
fn read_extern_crate<C: Codebase>(
    names: &Names<'_, C>,
    read: &ReadFile,
    item: &Item,
) -> Option<ExternCrate> {
    let ItemKind::ExternCrate { alias } = item.kind else {
        return None;
    };
    let name = name_of(names, item.name?)?;
    let alias = match alias {
        Some(alias) => name_of(names, alias),
        None => None,
    };
    Some(ExternCrate {
        name,
        bound: alias.unwrap_or(name),
        has_macros: has_attribute(names, read, item, "macro_use"),
    })
}

/// The extern crate of a diagnostic, if it is one of an extern crate.
fn extern_crate<C: Codebase>(
    names: &Names<'_, C>,
    diagnostic: &DefDiagnostic,
) -> Option<ExternCrate> {
    if !matches!(diagnostic.kind, DefDiagnosticKind::UnresolvedExternCrate) {
        return None;
    }
    let (read, item) = names.places.item(diagnostic.ast_id)?;
    read_extern_crate(names, read, item)
}

/// Adds what is unknown of a module to what is to be spread, of each that takes its names by a glob.
fn spread_on(
    importers: &[ModuleId],
    to_spread: &mut Vec<Unknown>,
    name: Option<Name>,
) -> Result<(), AllocError> {
    for importer in importers {
        to_spread.push(Unknown {
            module: *importer,
            name,
        })?;
    }
    Ok(())
}

impl Search {
    /// A search that has not begun.
    fn new(alloc: Global) -> Search {
        Search {
            waiting: IndexMap::new(alloc),
            importers: IndexMap::new(alloc),
            to_spread: Vec::new(alloc),
        }
    }

    /// Has what is unknown of a module be spread.
    fn add(&mut self, unknown: Unknown) -> Result<(), AllocError> {
        self.to_spread.push(unknown)?;
        Ok(())
    }

    /// Has what is unknown of a module be spread, if there is any.
    fn add_found(&mut self, unknown: Option<Unknown>) -> Result<(), AllocError> {
        match unknown {
            Some(unknown) => self.add(unknown),
            None => Ok(()),
        }
    }

    /// What is to be spread next.
    fn next(&mut self) -> Option<Unknown> {
        self.to_spread.pop()
    }

    /// The numbers of the imports that wait for what is unknown of a module, which wait no longer.
    fn take_waiting(&mut self, unknown: Unknown) -> Option<Vec<usize>> {
        self.waiting.swap_remove(&unknown)
    }

    /// Adds the globs of a crate.
    fn add_globs(&mut self, alloc: Global, edges: &[Edge]) -> Result<(), AllocError> {
        for edge in edges {
            add_to(alloc, &mut self.importers, edge.source, edge.importer)?;
        }
        Ok(())
    }

    /// Has an import wait for a name of a module, and for whatever a glob brings there.
    fn wait(
        &mut self,
        alloc: Global,
        module: ModuleId,
        name: Name,
        number: usize,
    ) -> Result<(), AllocError> {
        let lacked = Unknown {
            module,
            name: Some(name),
        };
        add_to(alloc, &mut self.waiting, lacked, number)?;
        let any = Unknown { module, name: None };
        add_to(alloc, &mut self.waiting, any, number)
    }

    /// Has what is unknown of a module be spread along the globs of it.
    fn spread_on(&mut self, unknown: Unknown) -> Result<(), AllocError> {
        match self.importers.get(&unknown.module) {
            Some(importers) => {
                spread_on(importers.as_slice(), &mut self.to_spread, unknown.name)
            }
            None => Ok(()),
        }
    }
}

impl Opaque {
    /// Notes what an import would bind whose path leads to a crate that is not given.
    fn take_import<C: Codebase>(
        &mut self,
        names: &Names<'_, C>,
        search: &mut Search,
        import: &LeftImport,
    ) -> Result<(), AllocError> {
        if self.note_import(import)? {
            search.add_found(unknown_of(names, import))?;
        }
        Ok(())
    }

    /// Counts an import of a crate that is not given, and notes what it would bind.
    fn take_used<C: Codebase>(
        &mut self,
        names: &Names<'_, C>,
        search: &mut Search,
        import: &LeftImport,
        used: Name,
    ) -> Result<(), AllocError> {
        self.count(used)?;
        self.take_import(names, search, import)
    }

    /// Looks where an import that is left over stops: it comes from a crate that is not given, or it
    /// waits for what it lacks.
    fn look<C: Codebase>(
        &mut self,
        names: &Names<'_, C>,
        search: &mut Search,
        import: &LeftImport,
        number: usize,
    ) -> Result<(), AllocError> {
        match self.stop_of_import(names, import) {
            Stop::Absent(name) => self.take_used(names, search, import, name),
            Stop::Lacks { module, name, .. } => {
                if self.might_have(module, name) {
                    return self.take_import(names, search, import);
                }
                search.wait(names.alloc, module, name, number)
            }
            Stop::Other => Ok(()),
        }
    }

    /// Looks where the imports of a list stop.
    fn look_at_each<C: Codebase>(
        &mut self,
        names: &Names<'_, C>,
        search: &mut Search,
        imports: &[LeftImport],
    ) -> Result<(), AllocError> {
        for (number, import) in imports.iter().enumerate() {
            self.look(names, search, import, number)?;
        }
        Ok(())
    }

    /// Notes what the imports of these numbers would bind.
    fn take_each<C: Codebase>(
        &mut self,
        names: &Names<'_, C>,
        search: &mut Search,
        imports: &[LeftImport],
        waiting: &[usize],
    ) -> Result<(), AllocError> {
        for number in waiting {
            if let Some(import) = imports.get(*number) {
                self.take_import(names, search, import)?;
            }
        }
        Ok(())
    }

    /// Notes what the imports would bind that wait for what is unknown of a module.
    fn take_waiting<C: Codebase>(
        &mut self,
        names: &Names<'_, C>,
        search: &mut Search,
        imports: &[LeftImport],
        unknown: Unknown,
    ) -> Result<(), AllocError> {
        match search.take_waiting(unknown) {
            Some(waiting) => self.take_each(names, search, imports, waiting.as_slice()),
            None => Ok(()),
        }
    }

    /// Spreads what is unknown of a module: along globs, and to the imports that wait for it.
    fn spread<C: Codebase>(
        &mut self,
        names: &Names<'_, C>,
        search: &mut Search,
        imports: &[LeftImport],
        unknown: Unknown,
    ) -> Result<(), AllocError> {
        if self.note_unknown(unknown)? {
            search.spread_on(unknown)?;
            self.take_waiting(names, search, imports, unknown)?;
        }
        Ok(())
    }

    /// Spreads what is to be spread next. Answers whether there was anything.
    fn spread_next<C: Codebase>(
        &mut self,
        names: &Names<'_, C>,
        search: &mut Search,
        imports: &[LeftImport],
    ) -> Result<bool, AllocError> {
        match search.next() {
            Some(unknown) => {
                self.spread(names, search, imports, unknown)?;
                Ok(true)
            }
            None => Ok(false),
        }
    }

    /// Spreads all that is unknown, to the end.
    fn spread_all<C: Codebase>(
        &mut self,
        names: &Names<'_, C>,
        search: &mut Search,
        imports: &[LeftImport],
    ) -> Result<(), AllocError> {
        for _ in 0..u64::MAX {
            if !self.spread_next(names, search, imports)? {
                break;
            }
        }
        Ok(())
    }

    /// Notes an extern crate that is not given.
    fn take_extern_crate(
        &mut self,
        search: &mut Search,
        module: ModuleId,
        found: ExternCrate,
    ) -> Result<(), AllocError> {
        let krate = module.map.krate;
        if !self.is_absent(krate, found.name) {
            return Ok(());
        }
        self.count(found.name)?;
        if found.has_macros {
            self.take_macros(krate)?;
        }
        search.add(Unknown {
            module,
            name: Some(found.bound),
        })
    }

    /// Notes what a diagnostic speaks of, if that is an extern crate that is not given.
    fn take_diagnostic<C: Codebase>(
        &mut self,
        names: &Names<'_, C>,
        search: &mut Search,
        diagnostic: &DefDiagnostic,
    ) -> Result<(), AllocError> {
        match extern_crate(names, diagnostic) {
            Some(found) => self.take_extern_crate(search, diagnostic.module, found),
            None => Ok(()),
        }
    }

    /// Notes the extern crates of a crate that are not given.
    fn take_extern_crates<C: Codebase>(
        &mut self,
        names: &Names<'_, C>,
        search: &mut Search,
        diagnostics: &[DefDiagnostic],
    ) -> Result<(), AllocError> {
        for diagnostic in diagnostics {
            self.take_diagnostic(names, search, diagnostic)?;
        }
        Ok(())
    }

    /// Looks through what was left over of a crate by a search that has not begun.
    fn search<C: Codebase>(
        &mut self,
        names: &Names<'_, C>,
        search: &mut Search,
        collected: &CollectedCrate,
    ) -> Result<(), AllocError> {
        search.add_globs(names.alloc, globs_of(collected))?;
        self.take_extern_crates(names, search, diagnostics_of(collected))?;
        let imports = imports_of(collected);
        self.look_at_each(names, search, imports)?;
        self.spread_all(names, search, imports)
    }

    /// Looks through what was left over of a crate. The crates that it depends on were looked through
    /// before.
    fn look_through<C: Codebase>(
        &mut self,
        names: &Names<'_, C>,
        collected: &CollectedCrate,
    ) -> Result<(), AllocError> {
        let mut search = Search::new(names.alloc);
        self.search(names, &mut search, collected)
    }

    /// Looks through all crates of a list but one.
    fn look_through_others<C: Codebase>(
        &mut self,
        names: &Names<'_, C>,
        crates: &[CollectedCrate],
        home: Crate,
    ) -> Result<(), AllocError> {
        for other in crates {
            if number_of(other) != home {
                self.look_through(names, other)?;
            }
        }
        Ok(())
    }

    /// Notes what is looked up of what is left over of a crate.
    fn note_left_over<C: Codebase>(
        &mut self,
        names: &Names<'_, C>,
        collected: &CollectedCrate,
    ) -> Result<(), AllocError> {
        self.note_items(names, diagnostics_of(collected))?;
        self.note_words(names, diagnostics_of(collected))?;
        self.note_lacks(names, imports_of(collected))
    }

    /// Takes in which crates are not given, and looks through all crates but one. What is used of
    /// crates that are not given is counted in that one alone.
    fn look_through_before<C: Codebase>(
        &mut self,
        names: &Names<'_, C>,
        home: Crate,
        notes: &[CrateNotes],
    ) -> Result<(), AllocError> {
        self.learn(names.codebase(), notes)?;
        self.look_through_others(names, crates_of(names), home)?;
        self.forget_uses();
        Ok(())
    }

    /// Looks through all crates, this one as the last, and notes what is unknown in it.
    pub(crate) fn look_through_all<C: Codebase>(
        &mut self,
        names: &Names<'_, C>,
        collected: &CollectedCrate,
        notes: &[CrateNotes],
    ) -> Result<(), AllocError> {
        self.look_through_before(names, number_of(collected), notes)?;
        self.look_through(names, collected)?;
        self.note_left_over(names, collected)
    }
}
