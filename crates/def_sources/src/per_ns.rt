//! What a name means in each namespace.
ghost use Rattle.std.specs.Prelude.{◌≡◌, not};
ghost use Rattle.def_interner.specs.Session.{session_of, macro_kind};
ghost use Rattle.def_sources.specs.Items.{public_item as item_of, is_fitting, is_module_item, does_fit};
ghost use Rattle.def_sources.specs.PerNs.{kept, kept_in};

use def_bindings::{Binding, Visibility};
use def_ids::{Def, MacroId};
use def_interner::{Interner, MacroDefKind};

/// A definition under a visibility of the language, and what brought it: `None` for a declaration.
pub type Item = Binding<Visibility>;

/// The macros that a path asks for: those that are called as `m!(..)`, or attributes and derives.
#[derive(Clone, Copy)]
pub enum MacroSubNs {
    Bang,
    Attr,
}

/// What a name means in each namespace.
#[derive(Clone, Copy, PartialEq, Eq, Debug)]
pub struct PerNs {
    pub types: Option<Item>,
    pub values: Option<Item>,
    pub macros: Option<Item>,
}

impl PerNs {
    ghost use Rattle.def_sources.specs.PerNs.{nothing, in_types, otherwise, is_nothing, is_full};

    /// Nothing in any namespace.
    pub fn none() -> PerNs
        ensures { result ≡ nothing }
    {
        PerNs {
            types: None,
            values: None,
            macros: None,
        }
    }

    /// In each namespace this, and else the other.
    pub fn or(self, other: PerNs) -> PerNs
        ensures { result ≡ otherwise self other }
    {
        PerNs {
            types: self.types.or(other.types),
            values: self.values.or(other.values),
            macros: self.macros.or(other.macros),
        }
    }

    /// Whether there is nothing in any namespace.
    pub fn is_none(self) -> bool
        ensures { result ≡ is_nothing self }
    {
        self.types.is_none() && self.values.is_none() && self.macros.is_none()
    }

    /// Whether there is something in each namespace.
    pub fn is_full(self) -> bool
        ensures { result ≡ is_full self }
    {
        self.types.is_some() && self.values.is_some() && self.macros.is_some()
    }

    /// One item in types.
    pub fn of_type(item: Item) -> PerNs
        ensures { result ≡ in_types item }
    {
        PerNs::types_alone(Some(item))
    }

    /// An item in types, if there is one.
    pub fn types_alone(types: Option<Item>) -> PerNs
        ensures { result ≡ record nothing { types = types } }
    {
        PerNs {
            types,
            values: None,
            macros: None,
        }
    }

    /// One item in macros.
    pub fn of_macro(item: Item) -> PerNs
        ensures { result ≡ record nothing { macros = Some item } }
    {
        PerNs {
            types: None,
            values: None,
            macros: Some(item),
        }
    }

    /// What fits the macros that are asked for. What is no macro always fits.
    pub fn fitting(self, session: &Interner, sub: Option<MacroSubNs>) -> PerNs
        ensures { result ≡ kept_in (is_fitting (macro_kind (session_of session.now)) sub) self }
    {
        PerNs {
            types: fitting(self.types, session, sub),
            values: fitting(self.values, session, sub),
            macros: fitting(self.macros, session, sub),
        }
    }

    /// What is no module.
    pub fn without_modules(self) -> PerNs
        ensures { result ≡ kept_in (λ item. not (is_module_item item)) self }
    {
        PerNs {
            types: without_module(self.types),
            values: without_module(self.values),
            macros: without_module(self.macros),
        }
    }
}

/// A public declaration.
pub fn public_item(def: Def) -> Item
    ensures { result ≡ item_of def }
{
    Binding {
        def,
        vis: Visibility::Public,
        import: None,
    }
}

/// The item, if it is no macro or one that is asked for.
pub(crate) fn fitting(
    item: Option<Item>,
    session: &Interner,
    sub: Option<MacroSubNs>,
) -> Option<Item>
    ensures { result ≡ kept (is_fitting (macro_kind (session_of session.now)) sub) item }
{
    match (item, sub) {
        (Some(found), Some(asked)) => {
            if fits(found.def, session, asked) {
                Some(found)
            } else {
                None
            }
        }
        _ => item,
    }
}

/// Whether a definition is no macro or one that is asked for.
fn fits(def: Def, session: &Interner, asked: MacroSubNs) -> bool
    ensures { result ≡ does_fit (macro_kind (session_of session.now)) asked def }
{
    match def {
        Def::Macro(id) => match kind_of(id, session) {
            Some(kind) => asked.is_kind(kind),
            None => false,
        },
        _ => true,
    }
}

/// What expands a macro, if the session knows it.
fn kind_of(id: MacroId, session: &Interner) -> Option<MacroDefKind>
    ensures { result ≡ macro_kind (session_of session.now) id }
{
    match session.macro_def(id) {
        Some(found) => Some(found.kind),
        None => None,
    }
}

/// The item, if it is no module.
fn without_module(item: Option<Item>) -> Option<Item>
    ensures { result ≡ kept (λ item. not (is_module_item item)) item }
{
    match item {
        Some(found) => match found.def {
            Def::Module(_) => None,
            _ => item,
        },
        None => None,
    }
}

impl MacroSubNs {
    ghost use Rattle.def_sources.specs.Items.{is_of_kind};

    /// Whether a macro of this kind is asked for.
    fn is_kind(self, kind: MacroDefKind) -> bool
        ensures { result ≡ is_of_kind self kind }
    {
        match self {
            MacroSubNs::Bang => kind.is_fn_like(),
            MacroSubNs::Attr => kind.is_attribute() || kind.is_derive(),
        }
    }
}
