//! What a workspace answers of names, places and faults.

use crate::workspace::Workspace;
use def_display::ShownPath;
use def_ids::{Def, ExternBlockId, ExternCrateId, ItemContainerId, MacroId, ModuleId, UseId};
use def_interner::{Interner, LocationId};
use def_map::{BuiltinShadowMode, DefMap, EnumVariant, PerNs};
use indexmap::IndexMap;
use item_tree::{Crate, FileAstId, FileId, HirFileId, InFile, ModPath, Name};
use rust_codebase::{Codebase, CollectedCrate, Fault, ReadFile, SourceFile};
use rust_lexer::{SourceId, Token};
use std::alloc::AllocError;

/// The module around an extern block.
fn home_of_block(session: &Interner, id: ExternBlockId) -> Option<ModuleId> {
    Some(id.lookup(session)?.container)
}

/// The module around what stands in this, if it is a module or an extern block.
fn home_of_container(session: &Interner, container: ItemContainerId) -> Option<ModuleId> {
    match container {
        ItemContainerId::Module(module) => Some(module),
        ItemContainerId::ExternBlock(id) => home_of_block(session, id),
        ItemContainerId::Trait(_) | ItemContainerId::Impl(_) => None,
    }
}

/// The module in which a macro is defined.
fn home_of_macro(session: &Interner, id: MacroId) -> Option<ModuleId> {
    match id {
        MacroId::MacroRules(id) => Some(id.lookup(session)?.container),
        MacroId::Macro2(id) => Some(id.lookup(session)?.container),
        MacroId::ProcMacro(id) => Some(id.lookup(session)?.container),
    }
}

/// The module in which a definition stands.
fn home_of(session: &Interner, def: Def) -> Option<ModuleId> {
    match def {
        Def::Function(id) => home_of_container(session, id.lookup(session)?.container),
        Def::Const(id) => home_of_container(session, id.lookup(session)?.container),
        Def::Static(id) => home_of_container(session, id.lookup(session)?.container),
        Def::TypeAlias(id) => home_of_container(session, id.lookup(session)?.container),
        Def::Struct(id) => Some(id.lookup(session)?.container),
        Def::Union(id) => Some(id.lookup(session)?.container),
        Def::Enum(id) => Some(id.lookup(session)?.container),
        Def::Trait(id) => Some(id.lookup(session)?.container),
        Def::Macro(id) => home_of_macro(session, id),
        Def::Module(_) | Def::Variant(_) | Def::Builtin(_) => None,
    }
}

impl Codebase for Workspace {
    fn crates(&self) -> &[CollectedCrate] {
        self.crates.as_slice()
    }

    fn faults(&self) -> &[Fault] {
        self.faults.as_slice()
    }

    fn files(&self) -> &IndexMap<FileId, SourceFile> {
        &self.files
    }

    fn source_text(&self, source: SourceId) -> &str {
        self.sources.text(source)
    }

    fn token_text(&self, token: Token) -> &str {
        self.sources.name(token)
    }

    fn read(&self, file: HirFileId) -> Option<&ReadFile> {
        self.read.get(&file)
    }

    fn text(&self, name: Name) -> Option<&str> {
        self.session.text(name)
    }

    fn find_name(&self, text: &str) -> Option<Name> {
        self.session.find_name(text)
    }

    fn path_text(&self, path: &ModPath) -> Result<String, AllocError> {
        let session = &self.session;
        let shown = ShownPath { path, session };
        format!(in self.alloc; "{shown}")
    }

    fn maps(&self) -> &IndexMap<Crate, DefMap> {
        &self.oracle.db.crates.maps
    }

    fn root_file(&self, krate: Crate) -> Option<FileId> {
        Some(self.oracle.db.crates.known.get(&krate)?.root_file)
    }

    fn extern_root(&self, krate: Crate, name: Name) -> Option<ModuleId> {
        let local = self.oracle.db.crates.local_maps.get(&krate)?;
        Some(local.extern_entry(name)?.root)
    }

    fn variants(&self) -> &IndexMap<InFile<FileAstId>, Vec<EnumVariant>> {
        &self.oracle.db.types.variants
    }

    fn builtin_types(&self) -> &IndexMap<Name, u32> {
        &self.oracle.db.types.builtin
    }

    fn is_inert(&self, name: Name) -> bool {
        self.oracle.db.builtins.inert.contains(&name)
    }

    fn home_of(&self, def: Def) -> Option<ModuleId> {
        home_of(&self.session, def)
    }

    fn position_of(&self, krate: Crate, def: Def) -> Option<InFile<FileAstId>> {
        let map = self.oracle.db.crates.maps.get(&krate)?;
        map.position_of(&self.session, def)
    }

    fn use_position(&self, id: UseId) -> Option<InFile<FileAstId>> {
        Some(id.lookup(&self.session)?.position)
    }

    fn extern_crate_position(&self, id: ExternCrateId) -> Option<InFile<FileAstId>> {
        Some(id.lookup(&self.session)?.position)
    }

    fn meaning(&self, module: ModuleId, path: &ModPath) -> Option<PerNs> {
        let db = &self.oracle.db;
        let map = db.crates.maps.get(&module.map.krate)?;
        let local = db.crates.local_maps.get(&module.map.krate)?;
        let shadow = BuiltinShadowMode::Other;
        let (found, rest) = map.resolve_path(local, db, &self.session, module, path, shadow, None);
        match rest {
            Some(_) => None,
            None => Some(found),
        }
    }
}
