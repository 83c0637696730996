//! What expands macros.

use tree_ids::MacroCallStyles;

/// A builtin attribute macro.
#[derive(Clone, Copy, PartialEq, Eq, Hash)]
pub enum BuiltinAttr {
    Test,
    Bench,
    TestCase,
    Derive,
    /// Another one, by the oracle's number.
    Other(u32),
}

/// What expands a procedural macro.
#[derive(Clone, Copy, PartialEq, Eq, Hash)]
pub enum CustomProcMacroExpander {
    /// The macro of this number, of those that were built for its crate.
    Id(u32),
    /// Nothing: no macro of its name was built.
    Missing,
    /// Nothing: the macro is switched off.
    Disabled,
    /// Nothing: all attribute macros are switched off.
    DisabledAttr,
}

/// By what a procedural macro is called.
#[derive(Clone, Copy, PartialEq, Eq, Hash)]
pub enum ProcMacroUse {
    CustomDerive,
    Bang,
    Attr,
}

/// What expands a `macro_rules` macro or a `macro` item. The numbers are the oracle's.
#[derive(Clone, Copy, PartialEq, Eq, Hash)]
pub enum MacroExpander {
    /// Its own rules, which may be called in these ways.
    Declarative(MacroCallStyles),
    BuiltIn(u32),
    /// A builtin that expands its arguments first.
    BuiltInEager(u32),
    BuiltInAttr(BuiltinAttr),
    BuiltInDerive(u32),
    /// It is marked as builtin, and no builtin has its name.
    UnimplementedBuiltIn,
}
