//! From a text to its tokens.
#![tactic(auto, using(std::proofs::lemmas::Str::lead_after_ascii, crate::proofs::TokensLemmas::one_more, crate::proofs::TokensLemmas::ended_later, crate::proofs::TokensLemmas::no_tokens))]

ghost use Rattle.std.specs.Prelude.{◌<◌, ◌≤◌, ◌^◌, length, IfOk, OnOk};
ghost use Rattle.std.specs.Str.{IsUtf8, IsCharBoundary};
ghost use Rattle.rust_lexer.specs.Tokens.{AreTokensOf, AreTokensUpTo, IsSpan};

use crate::chars::char_at;
use crate::comments::{doc_begin, doc_end, line_end};
use crate::fault::{LexError, LexFault, place_of};
use crate::pieces::{Piece, marks_at, next_piece};
use crate::token::{SourceId, Token, TokenKind};
use std::alloc::{AllocError, Global};

/// The bytes that a text has fewer of.
const LIMIT: usize = 0xffff_ffff;

/// A text that is read, and its number.
#[derive(Clone, Copy)]
struct Source<'a> {
    id: SourceId,
    text: &'a [u8],
}

/// Adds a token.
fn push(
    tokens: &mut Vec<Token>,
    source: &Source,
    kind: TokenKind,
    joint: bool,
    start: usize,
    end: usize,
) -> Result<(), AllocError>
    requires small { length source.now.text.now < 2 ^ 32 }
    requires before { AreTokensUpTo source.now.text.now tokens.old.items start }
    requires span { IsSpan source.now.text.now start end }
    ensures { OnOk result (AreTokensUpTo source.now.text.now tokens.new.items end) }
{
    tokens.push(Token {
        kind,
        joint,
        source: source.id,
        start: start as u32,
        end: end as u32,
    })?;
    Ok(())
}

/// Adds the tokens of a comment that is an attribute, `#[doc = TEXT]` or `#![doc = TEXT]`.
fn push_doc(
    tokens: &mut Vec<Token>,
    source: &Source,
    is_inner: bool,
    is_block: bool,
    start: usize,
    end: usize,
) -> Result<(), AllocError>
    requires utf8 { IsUtf8 source.now.text.now }
    requires small { length source.now.text.now < 2 ^ 32 }
    requires before { AreTokensUpTo source.now.text.now tokens.old.items start }
    requires span { IsSpan source.now.text.now start end }
    ensures { OnOk result (AreTokensUpTo source.now.text.now tokens.new.items end) }
{
    let begin = doc_begin(source.text, start, end);
    let close = doc_end(source.text, begin, end, is_block);
    push(
        tokens,
        source,
        TokenKind::Mark(b'#'),
        is_inner,
        start,
        begin,
    )?;
    if is_inner {
        push(tokens, source, TokenKind::Mark(b'!'), false, begin, begin)?;
    }
    push(tokens, source, TokenKind::OpenBracket, false, begin, begin)?;
    push(tokens, source, TokenKind::DocName, false, begin, begin)?;
    push(tokens, source, TokenKind::Mark(b'='), false, begin, begin)?;
    push(tokens, source, TokenKind::DocText, false, begin, close)?;
    push(tokens, source, TokenKind::CloseBracket, false, close, end)
}

/// Adds what a piece is.
fn push_piece(
    tokens: &mut Vec<Token>,
    source: &Source,
    piece: Piece,
    start: usize,
    end: usize,
) -> Result<(), AllocError>
    requires utf8 { IsUtf8 source.now.text.now }
    requires small { length source.now.text.now < 2 ^ 32 }
    requires before { AreTokensUpTo source.now.text.now tokens.old.items start }
    requires span { IsSpan source.now.text.now start end }
    ensures { OnOk result (AreTokensUpTo source.now.text.now tokens.new.items end) }
{
    match piece {
        Piece::Nothing => Ok(()),
        Piece::Token(kind) => {
            let joint = matches!(kind, TokenKind::Mark(_)) && marks_at(source.text, end);
            push(tokens, source, kind, joint, start, end)
        }
        Piece::Doc { is_inner, is_block } => {
            push_doc(tokens, source, is_inner, is_block, start, end)
        }
    }
}

/// The offset after a byte order mark.
fn mark_end(text: &[u8]) -> usize
    requires { IsUtf8 text.now }
    ensures { IsCharBoundary text.now result }
{
    match char_at(text, 0) {
        Some(('\u{feff}', next)) => next,
        _ => 0,
    }
}

/// Whether the first token from an offset on opens a bracket.
fn opens_bracket(text: &[u8], from: usize) -> bool
    requires { IsUtf8 text.now }
{
    let mut at = from;
    while at < text.len() {
        match next_piece(text, at) {
            Ok((Piece::Nothing, next)) => at = next,
            Ok((Piece::Token(kind), _)) => return kind == TokenKind::OpenBracket,
            _ => return false,
        }
    }
    false
}

/// The offset after a byte order mark and a line that begins with `#!` and is no attribute.
fn preamble_end(text: &[u8]) -> usize
    requires { IsUtf8 text.now }
    ensures { IsCharBoundary text.now result }
{
    let start = mark_end(text);
    match &text[start..] {
        [b'#', b'!', ..] if !opens_bracket(text, start + 2) => line_end(text, start),
        _ => start,
    }
}

/// The error of what stands at an offset.
fn error_at(source: SourceId, text: &str, at: usize, fault: LexFault) -> LexError {
    LexError {
        fault,
        place: place_of(source, text, at),
    }
}

/// The tokens of a text, in its order. Comments are left out, but for those that document: each is
/// the attribute that it stands for, `#[doc = TEXT]` or `#![doc = TEXT]`. The contents of literals
/// are checked but for the digits of escapes and numbers. What is a fault in some editions alone,
/// as a prefix that no literal has, is none here.
pub fn tokenize(
    alloc: Global,
    id: SourceId,
    source: &str,
) -> Result<Result<Vec<Token>, LexError>, AllocError>
    ensures { IfOk result (λ read. IfOk read (λ tokens. AreTokensOf source.now tokens.items)) }
{
    let text = source.as_bytes();
    if text.len() >= LIMIT {
        return Ok(Err(error_at(id, source, 0, LexFault::TextTooLong)));
    }
    let whole = Source { id, text };
    let mut tokens = Vec::with_capacity(alloc, text.len() / 6)?;
    let mut at = preamble_end(text);
    while at < text.len() {
        match next_piece(text, at) {
            Ok((piece, end)) => {
                push_piece(&mut tokens, &whole, piece, at, end)?;
                at = end;
            }
            Err(fault) => return Ok(Err(error_at(id, source, at, fault))),
        }
    }
    Ok(Ok(tokens))
}
