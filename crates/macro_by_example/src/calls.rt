//! What calls of macros stand for.

ghost use Rattle.std.specs.Prelude.{IfOk};
ghost use Rattle.rust_trees.specs.Trees.{tokens_of};
ghost use Rattle.macro_by_example.specs.Written.{AreWritten};
ghost use Rattle.macro_by_example.specs.Rules.{templates_of};

use crate::bindings::Bindings;
use crate::fault::{MacroError, Stop};
use crate::matching::Matching;
use crate::origins::{Origin, tokens_of};
use crate::rules::Rules;
use crate::transcribe::Writer;
use rust_items::Span;
use rust_lexer::{SourceId, Sources, Token};
use rust_trees::Trees;
use std::alloc::{AllocError, Global};

/// What an expansion may not exceed.
#[derive(Clone, Copy, PartialEq, Eq, Debug)]
pub struct Limits {
    /// The most tokens of one expansion.
    pub tokens: usize,
}

/// Where the tokens are from that a call stands for, by the first rule that takes it.
fn origins_of<'a>(
    alloc: Global,
    sources: &'a Sources,
    rules: &'a Rules,
    arguments: &'a Trees,
    within: Span,
    limits: Limits,
) -> Result<Vec<Origin>, Stop> {
    let mut matching = Matching::new(alloc, sources, rules, arguments, within)?;
    for rule in rules.rules.iter() {
        let Some(finish) = matching.rule(*rule, within.from as usize)? else {
            continue;
        };
        let events = matching.events(finish)?;
        let bindings = Bindings::new(alloc, *rule, events.as_slice())?;
        let mut writer = Writer::new(alloc, rules, arguments, bindings, limits.tokens);
        writer.write(*rule)?;
        return Ok(writer.written());
    }
    matching.no_rule()
}

/// The tokens that a call stands for, whose arguments are the tokens at some places. Each is a token
/// of the macro's templates or of the arguments, or a parenthesis around a fragment that is one tree.
pub fn expand<'a>(
    alloc: Global,
    sources: &'a Sources,
    rules: &'a Rules,
    arguments: &'a Trees,
    within: Span,
    macro_source: SourceId,
    limits: Limits,
) -> Result<Result<Vec<Token>, MacroError>, AllocError>
    ensures { IfOk result (λ expanded. IfOk expanded (λ tokens. AreWritten (templates_of rules.now) (tokens_of arguments.now) macro_source tokens.items)) }
{
    match origins_of(alloc, sources, rules, arguments, within, limits) {
        Ok(origins) => Ok(Ok(tokens_of(
            alloc,
            rules.tokens.as_slice(),
            arguments.tokens(),
            macro_source,
            origins.as_slice(),
        )?)),
        Err(stop) => Ok(Err(stop.told(sources)?)),
    }
}
