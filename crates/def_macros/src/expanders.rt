//! What expands a macro.
ghost use Rattle.std.specs.Prelude.{◌≡◌};
ghost use Rattle.item_tree.specs.Attrs.{attrs_of};
ghost use Rattle.def_interner.specs.Session.{session_of};
ghost use Rattle.def_parts.specs.Sites.{site_of};
ghost use Rattle.def_rules.specs.Macros as macros;

use def_ids::MacroExpander;
use def_interner::Interner;
use def_map::SourceDatabase;
use def_parts::Site;
use either::Either;
use item_tree::{Crate, ItemNode, Name, TopSubtree, sym};

/// The builtin macro of a name.
fn builtin_macro<D: SourceDatabase>(db: &D, name: Name) -> Option<MacroExpander>
    ensures { result ≡ macros.builtin_macro (D.oracle db.now) name }
{
    match db.find_builtin_macro(name) {
        Some(Either::Left(number)) => Some(MacroExpander::BuiltIn(number)),
        Some(Either::Right(number)) => Some(MacroExpander::BuiltInEager(number)),
        None => None,
    }
}

/// The builtin that a `macro` item of a name is: a macro, else a derive, else an attribute.
fn builtin_item<D: SourceDatabase>(db: &D, name: Name) -> Option<MacroExpander>
    ensures { result ≡ macros.builtin_item (D.oracle db.now) name }
{
    if let Some(found) = builtin_macro(db, name) {
        return Some(found);
    }
    if let Some(number) = db.find_builtin_derive(name) {
        return Some(MacroExpander::BuiltInDerive(number));
    }
    match db.find_builtin_attr(name) {
        Some(attr) => Some(MacroExpander::BuiltInAttr(attr)),
        None => None,
    }
}

/// What expands a macro by rules, if it is looked up by this name. Only one that is marked as
/// builtin is looked up.
pub(crate) fn rules_expander<D: SourceDatabase>(
    db: &D,
    krate: Crate,
    site: &Site,
    node: &ItemNode,
    found: Option<Name>,
) -> MacroExpander
    ensures { result ≡ macros.rules_expander (D.oracle db.now) krate (site_of site.now) node.now found }
{
    if !is_builtin(node) {
        return own_rules(db, krate, site, node);
    }
    match found {
        Some(name) => builtin_macro(db, name).unwrap_or(MacroExpander::UnimplementedBuiltIn),
        None => MacroExpander::UnimplementedBuiltIn,
    }
}

/// What expands a `macro` item of a name. Only one that is marked as builtin is looked up.
pub(crate) fn item_expander<D: SourceDatabase>(
    db: &D,
    krate: Crate,
    site: &Site,
    node: &ItemNode,
    name: Name,
) -> MacroExpander
    ensures { result ≡ macros.item_expander (D.oracle db.now) krate (site_of site.now) node.now name }
{
    if !is_builtin(node) {
        return own_rules(db, krate, site, node);
    }
    builtin_item(db, name).unwrap_or(MacroExpander::UnimplementedBuiltIn)
}

/// Whether a macro is marked as builtin.
fn is_builtin(node: &ItemNode) -> bool
    ensures { result ≡ macros.is_builtin node.now }
{
    node.by_key(sym::RUSTC_BUILTIN_MACRO).exists()
}

/// That a macro is expanded by its own rules.
fn own_rules<D: SourceDatabase>(db: &D, krate: Crate, site: &Site, node: &ItemNode) -> MacroExpander
    ensures { result ≡ macros.own_rules (D.oracle db.now) krate (site_of site.now) node.now }
{
    MacroExpander::Declarative(db.rule_styles(site.position(node), krate))
}

/// The name that a builtin macro by rules is looked up by: the text of its attribute, else the
/// name that this lists, else its own. None where no name of the session has the text.
pub(crate) fn builtin_name(session: &Interner, node: &ItemNode, own: Name) -> Option<Name>
    ensures { macros.IsBuiltinName (session_of session.now).text (attrs_of node.now.attrs) own result }
{
    match node.by_key(sym::RUSTC_BUILTIN_MACRO).string_value() {
        Some(text) => session.find_name(text),
        None => Some(listed_name(node, own)),
    }
}

/// The name that the first token tree of `#[rustc_builtin_macro(..)]` begins with, else this one.
fn listed_name(node: &ItemNode, own: Name) -> Name
    ensures { result ≡ macros.listed_name (attrs_of node.now.attrs) own }
{
    match node.by_key(sym::RUSTC_BUILTIN_MACRO).tt_values().next() {
        Some(tokens) => first_ident(tokens).unwrap_or(own),
        None => own,
    }
}

/// The identifier that token trees begin with.
fn first_ident(tokens: &TopSubtree) -> Option<Name>
    ensures { result ≡ macros.first_ident tokens.now }
{
    match tokens.iter().next() {
        Some(element) => element.ident(),
        None => None,
    }
}
