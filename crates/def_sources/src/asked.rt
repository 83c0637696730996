//! How a path is asked.
ghost use Rattle.std.specs.Prelude.{◌≡◌};

use crate::per_ns::MacroSubNs;

/// For what a path is resolved. In edition 2015 an import's path begins at the crate's root.
#[derive(Clone, Copy, PartialEq, Eq)]
pub enum ResolveMode {
    Import,
    Other,
}

/// Which goes first where a builtin type and a module have one name.
#[derive(Clone, Copy, PartialEq, Eq)]
pub enum BuiltinShadowMode {
    /// The module, as in an import.
    Module,
    /// The builtin type, where the name stands alone.
    Other,
}

/// How a path is asked.
#[derive(Clone, Copy)]
pub struct Asked {
    pub mode: ResolveMode,
    pub shadow: BuiltinShadowMode,
    /// The macros that a name which stands alone may mean; all of them for `None`.
    pub sub: Option<MacroSubNs>,
}

impl Asked {
    ghost use Rattle.def_sources.specs.Items.{is_builtin_first};
    ghost use Rattle.def_sources.specs.Modes.{for_import, for_module};

    /// How an import's path is asked.
    pub fn for_import() -> Asked
        ensures { result ≡ for_import }
    {
        Asked {
            mode: ResolveMode::Import,
            shadow: BuiltinShadowMode::Module,
            sub: None,
        }
    }

    /// How a path is asked that is to lead to a module, as a visibility's.
    pub fn for_module() -> Asked
        ensures { result ≡ for_module }
    {
        Asked {
            mode: ResolveMode::Other,
            shadow: BuiltinShadowMode::Module,
            sub: None,
        }
    }

    /// Whether a builtin type goes before a module, for a name that stands alone.
    pub fn is_builtin_first(self) -> bool
        ensures { result ≡ is_builtin_first self.shadow }
    {
        self.shadow == BuiltinShadowMode::Other
    }
}

impl ResolveMode {
    ghost use Rattle.def_sources.specs.Items.{is_for_import};

    /// Whether the path is an import's.
    pub fn is_for_import(self) -> bool
        ensures { result ≡ is_for_import self }
    {
        self == ResolveMode::Import
    }
}
