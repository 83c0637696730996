//! Where the tokens of an expansion are from.
#![tactic(auto, using(crate::proofs::WrittenLemmas::of_template, crate::proofs::WrittenLemmas::of_call, crate::proofs::WrittenLemmas::of_parenthesis, crate::proofs::WrittenLemmas::nothing, crate::proofs::WrittenLemmas::one_more))]

ghost use Rattle.std.specs.Prelude.{IfSome, IfOk, OnOk};
ghost use Rattle.macro_by_example.specs.Written.{IsWritten, AreWritten};

use rust_lexer::{SourceId, Token, TokenKind};
use std::alloc::{AllocError, Global};

/// Where a token of an expansion is from.
#[derive(Clone, Copy)]
pub(crate) enum Origin {
    /// A token of the templates.
    Template(usize),
    /// A token of the call, and whether what follows it there follows it here.
    Call { place: usize, is_followed: bool },
    /// A parenthesis around a fragment that begins with a token of the call.
    Open(usize),
    Close(usize),
}

/// A token of the templates. `$crate` is that of the macro.
fn template_token(
    templates: &[Token],
    call: &[Token],
    source: SourceId,
    number: usize,
) -> Option<Token>
    ensures { IfSome result (λ t. IsWritten templates.now call.now source t) }
{
    if number >= templates.len() {
        return None;
    }
    let token = templates[number];
    match token.kind {
        TokenKind::DollarCrate => Some(Token { source, ..token }),
        _ => Some(token),
    }
}

/// A token of the call.
fn call_token(
    templates: &[Token],
    call: &[Token],
    source: SourceId,
    place: usize,
    is_followed: bool,
) -> Option<Token>
    ensures { IfSome result (λ t. IsWritten templates.now call.now source t) }
{
    if place >= call.len() {
        return None;
    }
    let token = call[place];
    let joint = token.joint && is_followed;
    Some(Token { joint, ..token })
}

/// A parenthesis where a token of the call begins.
fn parenthesis(
    templates: &[Token],
    call: &[Token],
    source: SourceId,
    place: usize,
    is_open: bool,
) -> Option<Token>
    ensures { IfSome result (λ t. IsWritten templates.now call.now source t) }
{
    let beside = call.get(place)?;
    let kind = if is_open {
        TokenKind::OpenParen
    } else {
        TokenKind::CloseParen
    };
    Some(Token {
        kind,
        joint: false,
        source: beside.source,
        start: beside.start,
        end: beside.start,
    })
}

/// The token of an origin.
fn token_of(templates: &[Token], call: &[Token], source: SourceId, origin: Origin) -> Option<Token>
    ensures { IfSome result (λ t. IsWritten templates.now call.now source t) }
{
    match origin {
        Origin::Template(number) => template_token(templates, call, source, number),
        Origin::Call { place, is_followed } => {
            call_token(templates, call, source, place, is_followed)
        }
        Origin::Open(place) => parenthesis(templates, call, source, place, true),
        Origin::Close(place) => parenthesis(templates, call, source, place, false),
    }
}

/// Adds the token of an origin.
fn push(
    tokens: &mut Vec<Token>,
    templates: &[Token],
    call: &[Token],
    source: SourceId,
    origin: Origin,
) -> Result<(), AllocError>
    requires { AreWritten templates.now call.now source tokens.old.items }
    ensures { OnOk result (AreWritten templates.now call.now source tokens.new.items) }
{
    if let Some(token) = token_of(templates, call, source, origin) {
        tokens.push(token)?;
    }
    Ok(())
}

/// The tokens of origins.
pub(crate) fn tokens_of(
    alloc: Global,
    templates: &[Token],
    call: &[Token],
    source: SourceId,
    origins: &[Origin],
) -> Result<Vec<Token>, AllocError>
    ensures { IfOk result (λ tokens. AreWritten templates.now call.now source tokens.items) }
{
    let mut tokens = Vec::with_capacity(alloc, origins.len())?;
    for origin in origins.iter() {
        push(&mut tokens, templates, call, source, *origin)?;
    }
    Ok(tokens)
}
