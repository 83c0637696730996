//! Where modules and definitions stand.
ghost use Rattle.std.specs.Prelude.{◌≡◌, position};
ghost use Rattle.def_interner.specs.Session.{session_of};
ghost use Rattle.def_map.specs.DefMaps.{state_of};
ghost use Rattle.def_map.specs.Positions.{is_module_of_file, is_file_of, declared_at, module_declared, position_in, macro_declared};

use crate::def_map::DefMap;
use def_ids::{Def, MacroId, ModuleId};
use def_interner::{Interner, LocationId};
use def_modules::{ModuleData, ModuleOrigin, Position};
use item_tree::{FileId, InFile};

/// Whether this made a module in a file of its own, and that is the file.
fn is_in_file(origin: ModuleOrigin, file: FileId) -> bool
    ensures { result ≡ is_file_of file origin }
{
    match origin {
        ModuleOrigin::File { file: own, .. } => own == file,
        ModuleOrigin::CrateRoot | ModuleOrigin::Block | ModuleOrigin::Inline { .. } => false,
    }
}

/// The first of these modules that was declared in a file and has its items in this one.
fn first_in_file(modules: &[ModuleData], file: FileId) -> Option<usize>
    ensures { result ≡ position (λ m. is_file_of file m.origin) modules.now }
{
    modules.iter().position(|m| is_in_file(m.origin, file))
}

/// Where a module is declared. A root is not.
fn declaration(origin: ModuleOrigin) -> Option<Position>
    ensures { result ≡ declared_at origin }
{
    match origin {
        ModuleOrigin::Inline { definition, tree } => Some(InFile {
            file: tree.file,
            value: definition,
        }),
        ModuleOrigin::File {
            declaration,
            tree,
            ..
        } => Some(InFile {
            file: tree.file,
            value: declaration,
        }),
        ModuleOrigin::CrateRoot | ModuleOrigin::Block => None,
    }
}

/// Where a macro stands, if the session knows it.
fn macro_position(session: &Interner, id: MacroId) -> Option<Position>
    ensures { result ≡ macro_declared (session_of session.now) id }
{
    match id {
        MacroId::MacroRules(id) => Some(id.lookup(session)?.position),
        MacroId::Macro2(id) => Some(id.lookup(session)?.position),
        MacroId::ProcMacro(id) => Some(id.lookup(session)?.position),
    }
}

impl DefMap {
    /// The first module that was declared in a file and has its items in this one, by its index. A root
    /// is never answered: its origin does not say in which file its items are. For the root of a crate
    /// that is the file of the tree with which the crate was collected.
    pub fn module_of_file(&self, file: FileId) -> Option<usize>
        ensures { result ≡ position (is_module_of_file file) (state_of self.now).modules }
    {
        first_in_file(self.data.modules.as_slice(), file)
    }

    /// Where a module of this map is declared: its `mod` item. `None` for a root, and for a module
    /// that the map does not have.
    fn module_position(&self, module: ModuleId) -> Option<Position>
        ensures { result ≡ module_declared (state_of self.now) «module» }
    {
        if module.map != self.data.tree.map {
            return None;
        }
        declaration(self.data.modules.as_slice().get(module.index)?.origin)
    }

    /// Where a definition is declared. `None` for a builtin type, for a variant, which the oracle
    /// numbers, for an id that the session does not know, for a root, and for a module of another map.
    pub fn position_of(&self, session: &Interner, def: Def) -> Option<Position>
        ensures { result ≡ position_in (session_of session.now) (state_of self.now) def }
    {
        match def {
            Def::Module(module) => self.module_position(module),
            Def::Function(id) => Some(id.lookup(session)?.position),
            Def::Struct(id) => Some(id.lookup(session)?.position),
            Def::Union(id) => Some(id.lookup(session)?.position),
            Def::Enum(id) => Some(id.lookup(session)?.position),
            Def::Const(id) => Some(id.lookup(session)?.position),
            Def::Static(id) => Some(id.lookup(session)?.position),
            Def::Trait(id) => Some(id.lookup(session)?.position),
            Def::TypeAlias(id) => Some(id.lookup(session)?.position),
            Def::Macro(id) => macro_position(session, id),
            Def::Variant(_) | Def::Builtin(_) => None,
        }
    }
}
