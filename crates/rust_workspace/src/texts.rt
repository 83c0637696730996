//! Texts, read to their trees and items.

use item_tree::Crate;
use rust_cfg::CfgOptions;
use rust_codebase::{FaultKind, ReadFile};
use rust_item_trees::{Context, InnerMacros};
use rust_items::{ItemList, read_items};
use rust_lexer::{Place, SourceId, Sources, tokenize};
use rust_trees::Trees;
use std::alloc::{AllocError, Global};

/// What is wrong with a text, and where.
#[derive(Clone, Copy)]
pub(crate) struct TextFault {
    pub(crate) place: Place,
    pub(crate) kind: FaultKind,
}

/// The trees of a text.
fn trees_of(
    alloc: Global,
    sources: &Sources,
    source: SourceId,
) -> Result<Result<Trees, TextFault>, AllocError> {
    let tokens = match tokenize(alloc, source, sources.text(source))? {
        Ok(tokens) => tokens,
        Err(error) => {
            return Ok(Err(TextFault {
                place: error.place,
                kind: FaultKind::Lex(error.fault),
            }));
        }
    };
    match Trees::new(alloc, sources, tokens)? {
        Ok(trees) => Ok(Ok(trees)),
        Err(error) => Ok(Err(TextFault {
            place: error.place,
            kind: FaultKind::Tree(error.fault),
        })),
    }
}

/// A text as it is read.
pub(crate) fn read_text(
    alloc: Global,
    sources: &Sources,
    source: SourceId,
) -> Result<Result<ReadFile, TextFault>, AllocError> {
    let trees = match trees_of(alloc, sources, source)? {
        Ok(trees) => trees,
        Err(fault) => return Ok(Err(fault)),
    };
    match read_items(alloc, sources, &trees)? {
        Ok(list) => Ok(Ok(ReadFile {
            trees,
            list,
            call: None,
            depth: 0,
        })),
        Err(error) => Ok(Err(TextFault {
            place: error.place,
            kind: FaultKind::Item(error.fault),
        })),
    }
}

/// All that items are lowered from.
pub(crate) fn context_of<'a>(
    sources: &'a Sources,
    trees: &'a Trees,
    list: &'a ItemList,
    options: &'a CfgOptions,
    crates: &'a [Crate],
    inner_macros: &'a [InnerMacros],
) -> Context<'a> {
    Context {
        sources,
        trees,
        list,
        options,
        crates,
        inner_macros,
    }
}
