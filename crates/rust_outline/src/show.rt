//! What is printed of an item.

use rust_items::{Import, ImportKind, Item, ItemKind, ItemList, Span, VariantShape, Visibility};
use rust_lexer::{Sources, Token};
use rust_trees::Trees;
use std::alloc::{AllocError, Global};

/// The word for a kind of items.
fn kind_word(kind: ItemKind) -> &'static str {
    match kind {
        ItemKind::Use { .. } => "use",
        ItemKind::ExternCrate { .. } => "extern crate",
        ItemKind::ExternBlock => "extern block",
        ItemKind::Function { .. } => "fn",
        ItemKind::Struct { .. } => "struct",
        ItemKind::Union => "union",
        ItemKind::Enum { .. } => "enum",
        ItemKind::Const => "const",
        ItemKind::Static => "static",
        ItemKind::Trait => "trait",
        ItemKind::Impl { is_of_trait: true } => "impl of a trait",
        ItemKind::Impl { is_of_trait: false } => "impl",
        ItemKind::TypeAlias => "type",
        ItemKind::Module { is_inline: true } => "mod",
        ItemKind::Module { is_inline: false } => "mod in a file",
        ItemKind::MacroCall { .. } => "call",
        ItemKind::MacroRules { .. } => "macro_rules",
        ItemKind::MacroTwo { .. } => "macro",
    }
}

/// Adds the texts of tokens, with a space between two names.
fn add_tokens(
    text: &mut String,
    sources: &Sources,
    trees: &Trees,
    tokens: Span,
) -> Result<(), AllocError> {
    let mut was_name = false;
    for at in tokens.from..tokens.to {
        if let Some(token) = trees.get(at as usize) {
            if was_name && token.is_name() {
                text.push_str(" ")?;
            }
            text.push_str(sources.text_of(token))?;
            was_name = token.is_name();
        }
    }
    Ok(())
}

/// Adds a word and a name, if there is one.
fn add_name(
    text: &mut String,
    word: &str,
    sources: &Sources,
    name: Option<Token>,
) -> Result<(), AllocError> {
    if let Some(name) = name {
        text.push_str(word)?;
        text.push_str(sources.name(name))?;
    }
    Ok(())
}

/// Adds the visibility that is written.
fn add_visibility(
    text: &mut String,
    sources: &Sources,
    trees: &Trees,
    visibility: Visibility,
) -> Result<(), AllocError> {
    match visibility {
        Visibility::Private => Ok(()),
        Visibility::Public => text.push_str("pub "),
        Visibility::Restricted(tokens) => {
            text.push_str("pub(")?;
            add_tokens(text, sources, trees, tokens)?;
            text.push_str(") ")
        }
    }
}

/// The segments of a path, the first one first.
fn segments(
    alloc: Global,
    list: &ItemList,
    path: Option<u32>,
) -> Result<Vec<Option<Token>>, AllocError> {
    let mut names = Vec::new(alloc);
    let mut last = path;
    for _ in 0..list.path_segments.len() {
        let Some(segment) = last.and_then(|number| list.path_segments.get(number as usize)) else {
            break;
        };
        names.push(segment.name)?;
        last = segment.before;
    }
    names.reverse();
    Ok(names)
}

/// Adds an import.
fn add_import(
    alloc: Global,
    text: &mut String,
    sources: &Sources,
    list: &ItemList,
    import: &Import,
) -> Result<(), AllocError> {
    text.push_str(" ")?;
    let names = segments(alloc, list, import.path)?;
    for (at, name) in names.iter().enumerate() {
        let word = if at == 0 { "" } else { "::" };
        add_name(text, word, sources, *name)?;
    }
    match import.kind {
        ImportKind::Plain => {}
        ImportKind::Glob => text.push_str("::*")?,
        ImportKind::TypeOnly => text.push_str("::self")?,
    }
    add_name(text, " as ", sources, import.alias)
}

/// Adds a variant.
fn add_variant(
    text: &mut String,
    sources: &Sources,
    name: Token,
    shape: VariantShape,
) -> Result<(), AllocError> {
    text.push_str(" ")?;
    text.push_str(sources.name(name))?;
    match shape {
        VariantShape::Unit => Ok(()),
        VariantShape::Tuple => text.push_str("()"),
        VariantShape::Record => text.push_str("{}"),
    }
}

/// Adds what an item has beside its name.
fn add_parts(
    alloc: Global,
    text: &mut String,
    sources: &Sources,
    trees: &Trees,
    list: &ItemList,
    kind: ItemKind,
) -> Result<(), AllocError> {
    match kind {
        ItemKind::Use { imports } => {
            for at in imports.from..imports.to {
                if let Some(import) = list.imports.get(at as usize) {
                    add_import(alloc, text, sources, list, import)?;
                }
            }
            Ok(())
        }
        ItemKind::Enum { variants } => {
            for at in variants.from..variants.to {
                if let Some(variant) = list.variants.get(at as usize) {
                    add_variant(text, sources, variant.name, variant.shape)?;
                }
            }
            Ok(())
        }
        ItemKind::ExternCrate { alias } => add_name(text, " as ", sources, alias),
        ItemKind::MacroCall { path, .. } => {
            text.push_str(" ")?;
            add_tokens(text, sources, trees, path)
        }
        _ => Ok(()),
    }
}

/// An item as it is printed: what sees it, its kind and name, and what it has.
pub(crate) fn shown(
    alloc: Global,
    sources: &Sources,
    trees: &Trees,
    list: &ItemList,
    item: &Item,
) -> Result<String, AllocError> {
    let mut text = String::new(alloc);
    add_visibility(&mut text, sources, trees, item.visibility)?;
    text.push_str(kind_word(item.kind))?;
    add_name(&mut text, " ", sources, item.name)?;
    add_parts(alloc, &mut text, sources, trees, list, item.kind)?;
    Ok(text)
}
