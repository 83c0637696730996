//! Macros: what expands them, and the ways in which they are called.
ghost use Rattle.std.specs.Prelude.{◌≡◌};

use bitflags::Flags;
use def_ids::{BuiltinAttr, CustomProcMacroExpander, MacroExpander, MacroId, ProcMacroUse};
use item_tree::{Crate, MacroCallStyles};

/// What expands a macro. The numbers are the oracle's.
#[derive(Clone, Copy, PartialEq, Eq, Hash)]
pub enum MacroDefKind {
    /// Its own rules, which may be called in these ways.
    Declarative(MacroCallStyles),
    BuiltIn(u32),
    /// A builtin that expands its arguments first.
    BuiltInEager(u32),
    BuiltInAttr(BuiltinAttr),
    BuiltInDerive(u32),
    /// It is marked as builtin, and no builtin has its name.
    UnimplementedBuiltIn,
    ProcMacro(CustomProcMacroExpander, ProcMacroUse),
}

/// A macro: its crate, its id and what expands it.
#[derive(Clone, Copy, PartialEq, Eq, Hash)]
pub struct MacroDefId {
    pub krate: Crate,
    pub id: MacroId,
    pub kind: MacroDefKind,
}

impl MacroDefKind {
    ghost use Rattle.def_interner.specs.MacroKinds.{kind_of_expander, is_fn_like, is_attribute, is_derive};

    /// The kind of a macro that this expands.
    pub fn of_expander(expander: MacroExpander) -> MacroDefKind
        ensures { result ≡ kind_of_expander expander }
    {
        match expander {
            MacroExpander::Declarative(styles) => MacroDefKind::Declarative(styles),
            MacroExpander::BuiltIn(n) => MacroDefKind::BuiltIn(n),
            MacroExpander::BuiltInEager(n) => MacroDefKind::BuiltInEager(n),
            MacroExpander::BuiltInAttr(attr) => MacroDefKind::BuiltInAttr(attr),
            MacroExpander::BuiltInDerive(n) => MacroDefKind::BuiltInDerive(n),
            MacroExpander::UnimplementedBuiltIn => MacroDefKind::UnimplementedBuiltIn,
        }
    }

    /// Whether `m!(..)` calls it.
    pub fn is_fn_like(self) -> bool
        ensures { result ≡ is_fn_like self }
    {
        match self {
            MacroDefKind::Declarative(styles) => styles.contains(MacroCallStyles::FN_LIKE),
            MacroDefKind::ProcMacro(_, ProcMacroUse::Bang)
            | MacroDefKind::BuiltIn(_)
            | MacroDefKind::BuiltInEager(_)
            | MacroDefKind::UnimplementedBuiltIn => true,
            _ => false,
        }
    }

    /// Whether `#[m]` calls it.
    pub fn is_attribute(self) -> bool
        ensures { result ≡ is_attribute self }
    {
        match self {
            MacroDefKind::Declarative(styles) => styles.contains(MacroCallStyles::ATTR),
            MacroDefKind::BuiltInAttr(_) | MacroDefKind::ProcMacro(_, ProcMacroUse::Attr) => true,
            _ => false,
        }
    }

    /// Whether `#[derive(m)]` calls it.
    pub fn is_derive(self) -> bool
        ensures { result ≡ is_derive self }
    {
        match self {
            MacroDefKind::Declarative(styles) => styles.contains(MacroCallStyles::DERIVE),
            MacroDefKind::BuiltInDerive(_)
            | MacroDefKind::ProcMacro(_, ProcMacroUse::CustomDerive) => true,
            _ => false,
        }
    }
}

impl MacroDefId {
    ghost use Rattle.def_interner.specs.MacroKinds.{is_fn_like, is_attribute, is_derive};

    /// Whether `m!(..)` calls it.
    pub fn is_fn_like(self) -> bool
        ensures { result ≡ is_fn_like self.kind }
    {
        self.kind.is_fn_like()
    }

    /// Whether `#[m]` calls it.
    pub fn is_attribute(self) -> bool
        ensures { result ≡ is_attribute self.kind }
    {
        self.kind.is_attribute()
    }

    /// Whether `#[derive(m)]` calls it.
    pub fn is_derive(self) -> bool
        ensures { result ≡ is_derive self.kind }
    {
        self.kind.is_derive()
    }
}
