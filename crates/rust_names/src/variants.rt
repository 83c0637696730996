//! Where the variants of enums are written.

use def_ids::VariantId;
use def_map::EnumVariant;
use indexmap::IndexMap;
use item_tree::{FileAstId, InFile, Name};
use rust_codebase::Codebase;
use rust_items::ItemKind;
use rust_lexer::Token;
use std::alloc::{AllocError, Global};

/// An enum by where it stands, and the name of one of its variants, with where that is written.
#[derive(Clone, Copy)]
pub(crate) struct VariantHome {
    pub(crate) position: InFile<FileAstId>,
    pub(crate) name: Name,
    pub(crate) token: Option<Token>,
}

/// The tokens of the names of an enum's variants, those that cfg leaves out too.
fn variant_tokens<C: Codebase>(
    alloc: Global,
    codebase: &C,
    position: InFile<FileAstId>,
) -> Result<Vec<Token>, AllocError> {
    let mut tokens = Vec::new(alloc);
    let Some(read) = codebase.read(position.file) else {
        return Ok(tokens);
    };
    let Some(item) = read.list.items.get(position.value.0) else {
        return Ok(tokens);
    };
    if let ItemKind::Enum { variants } = item.kind {
        for number in variants.from..variants.to {
            if let Some(variant) = read.list.variants.get(number as usize) {
                tokens.push(variant.name)?;
            }
        }
    }
    Ok(tokens)
}

/// The place of the first token of a text at a place of a list or behind it.
fn find_token<C: Codebase>(
    codebase: &C,
    tokens: &[Token],
    from: usize,
    text: &str,
) -> Option<usize> {
    for at in from..tokens.len() {
        if let Some(token) = tokens.get(at) {
            if codebase.token_text(*token) == text {
                return Some(at);
            }
        }
    }
    None
}

/// Adds the variants of an enum. Those that are written are some of these tokens, in their order.
fn add_variants<C: Codebase>(
    homes: &mut IndexMap<VariantId, VariantHome>,
    codebase: &C,
    position: InFile<FileAstId>,
    variants: &[EnumVariant],
    tokens: &[Token],
) -> Result<(), AllocError> {
    let mut next = 0;
    for variant in variants {
        let name = variant.name;
        let text = codebase.text(name).unwrap_or("");
        let mut token = None;
        if let Some(at) = find_token(codebase, tokens, next, text) {
            token = tokens.get(at).copied();
            next = at.saturating_add(1);
        }
        let home = VariantHome {
            position,
            name,
            token,
        };
        homes.insert(variant.id, home)?;
    }
    Ok(())
}

/// The enum of each variant.
pub(crate) fn variant_homes<C: Codebase>(
    alloc: Global,
    codebase: &C,
) -> Result<IndexMap<VariantId, VariantHome>, AllocError> {
    let mut homes = IndexMap::new(alloc);
    for (position, variants) in codebase.variants().iter() {
        let tokens = variant_tokens(alloc, codebase, *position)?;
        let variants = variants.as_slice();
        let tokens = tokens.as_slice();
        add_variants(&mut homes, codebase, *position, variants, tokens)?;
    }
    Ok(homes)
}
