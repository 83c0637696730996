//! Definitions as text.

use crate::modules::ShownModule;
use crate::paths::ShownName;
use def_ids::{Def, ExternBlockId, ItemContainerId, MacroId, ModuleId};
use def_interner::{Interner, LocationId};
use def_map::DefMap;
use item_tree::Name;
use std::fmt;

/// A definition by a path to it, as `crate::a::T`: its module, and the first name under which that
/// binds it. Where the module binds it under no name, as a textual macro, the name is `?`. What has no
/// module that the map knows is told by its number, as `variant#5`.
#[derive(Clone, Copy)]
pub struct ShownDef<'a> {
    pub def: Def,
    pub map: &'a DefMap,
    pub session: &'a Interner,
}

/// The module around an extern block.
fn block_home(session: &Interner, id: ExternBlockId) -> Option<ModuleId> {
    Some(id.lookup(session)?.container)
}

/// The module around what stands in this, if it is a module or an extern block.
fn container_home(session: &Interner, container: ItemContainerId) -> Option<ModuleId> {
    match container {
        ItemContainerId::Module(module) => Some(module),
        ItemContainerId::ExternBlock(id) => block_home(session, id),
        ItemContainerId::Trait(_) | ItemContainerId::Impl(_) => None,
    }
}

/// The module in which a macro is defined.
fn macro_home(session: &Interner, id: MacroId) -> Option<ModuleId> {
    match id {
        MacroId::MacroRules(id) => Some(id.lookup(session)?.container),
        MacroId::Macro2(id) => Some(id.lookup(session)?.container),
        MacroId::ProcMacro(id) => Some(id.lookup(session)?.container),
    }
}

/// The module in which a definition stands. A module, a variant and a builtin type stand in none.
fn home(session: &Interner, def: Def) -> Option<ModuleId> {
    match def {
        Def::Function(id) => container_home(session, id.lookup(session)?.container),
        Def::Const(id) => container_home(session, id.lookup(session)?.container),
        Def::Static(id) => container_home(session, id.lookup(session)?.container),
        Def::TypeAlias(id) => container_home(session, id.lookup(session)?.container),
        Def::Struct(id) => Some(id.lookup(session)?.container),
        Def::Union(id) => Some(id.lookup(session)?.container),
        Def::Enum(id) => Some(id.lookup(session)?.container),
        Def::Trait(id) => Some(id.lookup(session)?.container),
        Def::Macro(id) => macro_home(session, id),
        Def::Module(_) | Def::Variant(_) | Def::Builtin(_) => None,
    }
}

/// What a definition is, and its number.
fn numbered(def: Def) -> (&'static str, usize) {
    match def {
        Def::Module(id) => ("mod", id.index),
        Def::Function(id) => ("fn", id.0),
        Def::Struct(id) => ("struct", id.0),
        Def::Union(id) => ("union", id.0),
        Def::Enum(id) => ("enum", id.0),
        Def::Variant(id) => ("variant", id.0),
        Def::Const(id) => ("const", id.0),
        Def::Static(id) => ("static", id.0),
        Def::Trait(id) => ("trait", id.0),
        Def::TypeAlias(id) => ("type", id.0),
        Def::Builtin(number) => ("builtin", number as usize),
        Def::Macro(MacroId::MacroRules(id)) => ("macro_rules", id.0),
        Def::Macro(MacroId::Macro2(id)) => ("macro", id.0),
        Def::Macro(MacroId::ProcMacro(id)) => ("proc_macro", id.0),
    }
}

impl<'a> ShownDef<'a> {
    /// The first name under which a module of the map binds it.
    fn name_in(&self, module: ModuleId) -> Option<Name> {
        let scope = self.map.scope(module.index)?;
        let (name, _) = scope.names_of(self.def).next()?;
        Some(name)
    }

    /// A module of the map.
    fn shown_module(&self, module: ModuleId) -> ShownModule<'a> {
        ShownModule {
            module,
            map: self.map,
            session: self.session,
        }
    }
}

impl<'a> fmt::Display for ShownDef<'a> {
    fn fmt<W: fmt::Write>(&self, f: &mut fmt::Formatter<W>) -> fmt::Result {
        if let Def::Module(module) = self.def {
            let shown = self.shown_module(module);
            return write!(f, "{shown}");
        }
        match home(self.session, self.def) {
            Some(module) if module.map == self.map.id() => {
                let around = self.shown_module(module);
                write!(f, "{around}::")?;
                match self.name_in(module) {
                    Some(name) => {
                        let shown = ShownName {
                            name,
                            session: self.session,
                        };
                        write!(f, "{shown}")
                    }
                    None => f.write_str("?"),
                }
            }
            _ => {
                let (kind, number) = numbered(self.def);
                write!(f, "{kind}#{number}")
            }
        }
    }
}
