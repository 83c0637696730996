//! What comes from crates that are not given: the imports, and the names that these would bind.

use crate::absent::{Absent, CrateNotes};
use crate::imports::{Lack, lack_at};
use crate::stops::{Stop, stop_of, stop_of_import};
use crate::words::AttributeWords;
use def_ids::ModuleId;
use def_rules::{DefDiagnostic, DefDiagnosticKind, LeftImport};
use indexmap::{IndexMap, IndexSet};
use item_tree::{Crate, FileAstId, InFile, ModPath, Name};
use rust_codebase::Codebase;
use rust_lexer::Token;
use rust_names::Names;
use std::alloc::{AllocError, Global};

/// What a module would bind if all crates were given: a name, or, without one, whatever a glob brings.
#[derive(Clone, Copy, PartialEq, Eq, Hash)]
pub(crate) struct Unknown {
    pub(crate) module: ModuleId,
    pub(crate) name: Option<Name>,
}

/// An import by its number in its `use` item, and the module that it stands in.
#[derive(Clone, Copy, PartialEq, Eq, Hash)]
pub(crate) struct ImportKey {
    pub(crate) module: ModuleId,
    pub(crate) position: InFile<FileAstId>,
    pub(crate) index: u32,
}

impl ImportKey {
    /// The key of an import that is left over.
    pub(crate) fn of(import: &LeftImport) -> ImportKey {
        ImportKey {
            module: import.module,
            position: import.ast_id,
            index: import.idx,
        }
    }

    /// The key of an import of the item of a diagnostic.
    pub(crate) fn in_item(diagnostic: &DefDiagnostic, index: u32) -> ImportKey {
        ImportKey {
            module: diagnostic.module,
            position: diagnostic.ast_id,
            index,
        }
    }
}

/// What comes from crates that are not given, and what is looked up of what is left over of the crate
/// that is asked for.
#[derive(Drop)]
pub(crate) struct Opaque {
    pub(crate) absent: Absent,
    pub(crate) unknown: IndexSet<Unknown>,
    pub(crate) imports: IndexSet<ImportKey>,
    /// The items that have a derive or an attribute of such a crate. What else stands there as an
    /// attribute may belong to that.
    pub(crate) items: IndexSet<InFile<FileAstId>>,
    /// The crates whose root takes all macros of a crate that is not given.
    pub(crate) with_macros: IndexSet<Crate>,
    /// How many imports name each crate that is not given, and extern crates do.
    pub(crate) uses: IndexMap<Name, usize>,
    /// Where the imports stop of the crate that is asked for.
    lacks: IndexMap<ImportKey, Lack>,
    /// The words of the attributes that are left over of it.
    words: AttributeWords,
}

impl Opaque {
    /// Nothing was looked through yet.
    pub(crate) fn new(alloc: Global) -> Opaque {
        Opaque {
            absent: Absent::new(alloc),
            unknown: IndexSet::new(alloc),
            imports: IndexSet::new(alloc),
            items: IndexSet::new(alloc),
            with_macros: IndexSet::new(alloc),
            uses: IndexMap::new(alloc),
            lacks: IndexMap::new(alloc),
            words: AttributeWords::new(alloc),
        }
    }

    /// Counts a use of a crate that is not given.
    pub(crate) fn count(&mut self, name: Name) -> Result<(), AllocError> {
        let count = self.uses.entry(name)?.or_insert(0);
        *count = count.saturating_add(1);
        Ok(())
    }

    /// How many imports name each crate that is not given, and extern crates do.
    pub(crate) fn uses(&self) -> &IndexMap<Name, usize> {
        &self.uses
    }

    /// Forgets how often crates that are not given are used.
    pub(crate) fn forget_uses(&mut self) {
        self.uses.clear();
    }

    /// Takes in which crates are not given.
    pub(crate) fn learn<C: Codebase>(
        &mut self,
        codebase: &C,
        notes: &[CrateNotes],
    ) -> Result<(), AllocError> {
        self.absent.add(codebase, notes)
    }

    /// Notes an import that comes from a crate that is not given. Answers whether it is new.
    pub(crate) fn note_import(&mut self, import: &LeftImport) -> Result<bool, AllocError> {
        Ok(self.imports.insert(ImportKey::of(import))?)
    }

    /// Whether an import that is left over comes from a crate that is not given.
    pub(crate) fn has_import(&self, key: ImportKey) -> bool {
        self.imports.contains(&key)
    }

    /// Whether an item has an attribute of a crate that is not given.
    pub(crate) fn has_item(&self, position: InFile<FileAstId>) -> bool {
        self.items.contains(&position)
    }

    /// Notes what is unknown of a module. Answers whether it is new.
    pub(crate) fn note_unknown(&mut self, unknown: Unknown) -> Result<bool, AllocError> {
        Ok(self.unknown.insert(unknown)?)
    }

    /// Notes that the root of a crate takes all macros of one that is not given.
    pub(crate) fn take_macros(&mut self, krate: Crate) -> Result<(), AllocError> {
        self.with_macros.insert(krate)?;
        Ok(())
    }

    /// Notes an item that has an attribute of a crate that is not given.
    fn note_item(&mut self, position: InFile<FileAstId>) -> Result<(), AllocError> {
        self.items.insert(position)?;
        Ok(())
    }

    /// Whether a crate by this name is not given to another one.
    pub(crate) fn is_absent(&self, krate: Crate, name: Name) -> bool {
        self.absent.has_crate(krate, name)
    }

    /// Where an import stops that is left over.
    pub(crate) fn stop_of_import<C: Codebase>(
        &self,
        names: &Names<'_, C>,
        import: &LeftImport,
    ) -> Stop {
        stop_of_import(names, &self.absent, import)
    }

    /// Whether a module might bind a name for another reason than what its text says: by the standard
    /// library's prelude, or by what comes from a crate that is not given.
    pub(crate) fn might_have(&self, module: ModuleId, name: Name) -> bool {
        self.absent.is_prelude(module.map.krate, name) || self.may_bind(module, name)
    }

    /// Whether a module might bind a name.
    pub(crate) fn may_bind(&self, module: ModuleId, name: Name) -> bool {
        let name = Some(name);
        self.unknown.contains(&Unknown { module, name })
            || self.unknown.contains(&Unknown { module, name: None })
    }

    /// Whether a macro is one of the standard library's that is in scope everywhere, and that library
    /// is not given.
    pub(crate) fn is_standard(&self, module: ModuleId, path: &ModPath) -> bool {
        match path.as_ident() {
            Some(name) => self.absent.is_prelude(module.map.krate, name),
            None => false,
        }
    }

    /// Where the path of a macro stops.
    fn stop_of<C: Codebase>(&self, names: &Names<'_, C>, module: ModuleId, path: &ModPath) -> Stop {
        stop_of(names, &self.absent, module, path, false)
    }

    /// Whether a name might be that of a macro of a crate that is not given.
    fn has_macro_of_name(&self, module: ModuleId, name: Name) -> bool {
        let krate = module.map.krate;
        self.with_macros.contains(&krate)
            || self.may_bind(module, name)
            || self.may_bind(ModuleId::crate_root(krate), name)
    }

    /// Whether a path might lead to a macro of a crate that is not given, by where it stops.
    fn has_macro_behind(&self, stop: Stop) -> bool {
        match stop {
            Stop::Absent(_) => true,
            Stop::Lacks { module, name, .. } => self.may_bind(module, name),
            Stop::Other => false,
        }
    }

    /// Whether a path of a macro might lead to one of a crate that is not given.
    pub(crate) fn has_macro<C: Codebase>(
        &self,
        names: &Names<'_, C>,
        module: ModuleId,
        path: &ModPath,
    ) -> bool {
        match path.as_ident() {
            Some(name) => self.has_macro_of_name(module, name),
            None => self.has_macro_behind(self.stop_of(names, module, path)),
        }
    }

    /// Notes the item of a macro, if that is one of a crate that is not given.
    fn note_diagnostic<C: Codebase>(
        &mut self,
        names: &Names<'_, C>,
        diagnostic: &DefDiagnostic,
    ) -> Result<(), AllocError> {
        if let DefDiagnosticKind::UnresolvedMacroCall { kind: _, path } = &diagnostic.kind {
            if self.has_macro(names, diagnostic.module, path) {
                return self.note_item(diagnostic.ast_id);
            }
        }
        Ok(())
    }

    /// Notes the items of the macros of a crate that are ones of crates that are not given.
    pub(crate) fn note_items<C: Codebase>(
        &mut self,
        names: &Names<'_, C>,
        diagnostics: &[DefDiagnostic],
    ) -> Result<(), AllocError> {
        for diagnostic in diagnostics {
            self.note_diagnostic(names, diagnostic)?;
        }
        Ok(())
    }

    /// Notes where an import stops.
    fn add_lack(&mut self, key: ImportKey, lack: Lack) -> Result<(), AllocError> {
        self.lacks.insert(key, lack)?;
        Ok(())
    }

    /// Notes where an import stops, if a module lacks a name.
    fn note_lack<C: Codebase>(
        &mut self,
        names: &Names<'_, C>,
        import: &LeftImport,
    ) -> Result<(), AllocError> {
        match lack_at(import, self.stop_of_import(names, import)) {
            Some(lack) => self.add_lack(ImportKey::of(import), lack),
            None => Ok(()),
        }
    }

    /// Notes where imports stop.
    pub(crate) fn note_lacks<C: Codebase>(
        &mut self,
        names: &Names<'_, C>,
        imports: &[LeftImport],
    ) -> Result<(), AllocError> {
        for import in imports {
            self.note_lack(names, import)?;
        }
        Ok(())
    }

    /// Where the import of a key stops, if a module lacks a name.
    pub(crate) fn lack_of(&self, key: ImportKey) -> Option<Lack> {
        self.lacks.get(&key).copied()
    }

    /// Notes the words of the attributes that diagnostics speak of.
    pub(crate) fn note_words<C: Codebase>(
        &mut self,
        names: &Names<'_, C>,
        diagnostics: &[DefDiagnostic],
    ) -> Result<(), AllocError> {
        self.words.add_items(names, diagnostics)
    }

    /// The last name of a path in the attributes of an item.
    pub(crate) fn word(&self, position: InFile<FileAstId>, path: &ModPath) -> Option<Token> {
        self.words.token(position, path)
    }
}
