//! The flags of macros.
ghost use Rattle.std.specs.Prelude.{◌≡◌};
ghost use Rattle.item_tree.specs.Attrs.{attrs_of, has_attr};
ghost use Rattle.item_tree.specs.KnownNames.{allow_internal_unsafe_name};
ghost use Rattle.item_tree.specs.TokenElements.{seen};
ghost use Rattle.item_tree.specs.TokenTrees.{element_ident};
ghost use Rattle.def_parts.specs.DeriveNames.{is_word};
ghost use Rattle.def_rules.specs.Macros as macros;

use bitflags::Flags;
use item_tree::{ItemNode, MacroRulesLocFlags, Name, TopSubtree, TtElement, sym};

/// The flags of a macro by rules.
pub(crate) fn rules_flags(node: &ItemNode) -> MacroRulesLocFlags
    ensures { result ≡ macros.rules_flags node.now }
{
    flags_of(is_local_inner(node), allows_unsafe(node))
}

/// The flags of a `macro` item.
pub(crate) fn item_flags(node: &ItemNode) -> MacroRulesLocFlags
    ensures { result ≡ macros.item_flags node.now }
{
    flags_of(false, allows_unsafe(node))
}

/// These flags.
fn flags_of(local_inner: bool, allows_unsafe: bool) -> MacroRulesLocFlags
    ensures { result ≡ macros.flags_of local_inner allows_unsafe }
{
    match (local_inner, allows_unsafe) {
        (false, false) => MacroRulesLocFlags::from_bits_retain(0),
        (true, false) => MacroRulesLocFlags::LOCAL_INNER,
        (false, true) => MacroRulesLocFlags::ALLOW_INTERNAL_UNSAFE,
        (true, true) => MacroRulesLocFlags::from_bits_retain(3),
    }
}

/// Whether unsafe code is allowed within a macro.
fn allows_unsafe(node: &ItemNode) -> bool
    ensures { result ≡ has_attr allow_internal_unsafe_name (attrs_of node.now.attrs) }
{
    node.by_key(sym::ALLOW_INTERNAL_UNSAFE).exists()
}

/// Whether a tree of `#[macro_export(..)]` directly holds `local_inner_macros`.
fn is_local_inner(node: &ItemNode) -> bool
    ensures { result ≡ macros.is_local_inner (attrs_of node.now.attrs) }
{
    let mut exports = node.by_key(sym::MACRO_EXPORT).tt_values();
    'exports: while let Some(tokens) = exports.next() {
        if holds(tokens, sym::LOCAL_INNER_MACROS) {
            return true;
        }
    }
    false
}

/// Whether token trees directly hold this identifier.
fn holds(tokens: &TopSubtree, name: Name) -> bool
    ensures { result ≡ macros.holds_word name tokens.now }
{
    let mut elements = tokens.iter();
    'elements: while let Some(element) = elements.next() {
        if is_word(&element, name) {
            return true;
        }
    }
    false
}

/// Whether an element is this identifier.
fn is_word(element: &TtElement<'_>, word: Name) -> bool
    ensures { result ≡ is_word (element_ident (seen element.now)) word }
{
    match element.ident() {
        Some(name) => name == word,
        None => false,
    }
}
