//! Whether a predicate holds that tokens are.

use crate::fault::CfgError;
use crate::parts::{error_at, read_parts};
use cfg_logic::{CfgOptions, evaluate};
use rust_items::Span;
use rust_lexer::Sources;
use rust_trees::Trees;
use std::alloc::{AllocError, Global};

/// Whether a predicate holds, by the tokens that it is: those within `cfg(..)`.
pub fn holds(
    alloc: Global,
    sources: &Sources,
    trees: &Trees,
    predicate: Span,
    options: &CfgOptions,
) -> Result<Result<bool, CfgError>, AllocError> {
    let read = match read_parts(alloc, sources, trees, predicate)? {
        Ok(read) => read,
        Err(error) => return Ok(Err(error)),
    };
    match evaluate(alloc, read.parts.as_slice(), options)? {
        Ok(holds) => Ok(Ok(holds)),
        Err((fault, part)) => {
            let end = predicate.to as usize;
            let at = read.places.get(part).map_or(end, |at| *at as usize);
            Ok(Err(error_at(trees, at, fault)))
        }
    }
}
