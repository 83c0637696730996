//! What stands at an offset of a text, and where it ends.
#![tactic(auto, using(std::proofs::lemmas::Str::lead_after_ascii))]

ghost use Rattle.std.specs.Prelude.{◌<◌, ◌≤◌, ◌+◌, length, IfOk, IfSome};
ghost use Rattle.std.specs.Str.{IsUtf8, IsCharBoundary};

use crate::chars::{begins_word, byte_at, char_at, wide_space_end, word_end};
use crate::comments::{
    Comment, block_comment, comment_end, has_bare_return, line_comment, line_end,
};
use crate::fault::LexFault;
use crate::literals::{byte_end, hash_count, quote_end, raw_text_end, text_end};
use crate::numbers::number_end;
use crate::token::TokenKind;
use unicode_ident::is_xid_start;

/// What stands at an offset.
#[derive(Clone, Copy)]
pub(crate) enum Piece {
    /// White space, or a comment that is no attribute.
    Nothing,
    Token(TokenKind),
    /// A comment that is an attribute.
    Doc { is_inner: bool, is_block: bool },
}

/// The piece that a comment is.
fn comment_piece(comment: Comment, is_block: bool) -> Piece {
    match comment {
        Comment::Plain => Piece::Nothing,
        Comment::Outer => Piece::Doc {
            is_inner: false,
            is_block,
        },
        Comment::Inner => Piece::Doc {
            is_inner: true,
            is_block,
        },
    }
}

/// Whether a byte is a mark.
pub(crate) fn is_mark(byte: u8) -> bool {
    matches!(
        byte,
        b'!' | b'#'
            | b'$'
            | b'%'
            | b'&'
            | b'*'
            | b'+'
            | b','
            | b'-'
            | b'.'
            | b'/'
            | b':'
            | b';'
            | b'<'
            | b'='
            | b'>'
            | b'?'
            | b'@'
            | b'^'
            | b'|'
            | b'~'
    )
}

/// Whether a token begins at an offset that is a mark.
pub(crate) fn marks_at(text: &[u8], at: usize) -> bool {
    let first = byte_at(text, at);
    if first == b'/' {
        let second = byte_at(text, at.saturating_add(1));
        return second != b'/' && second != b'*';
    }
    is_mark(first)
}

/// The offset after white space of ASCII that stands from an offset on.
fn space_end(text: &[u8], from: usize) -> usize
    requires utf8 { IsUtf8 text.now }
    requires from { IsCharBoundary text.now from }
    ensures forward { from ≤ result }
    ensures between { IsCharBoundary text.now result }
{
    let mut at = from;
    while at < text.len() && matches!(text[at], b' ' | b'\t' | b'\n' | b'\r' | 0x0b | 0x0c) {
        at += 1;
    }
    at
}

/// The comment that begins with `/` here, or the mark.
fn slash(text: &[u8], at: usize) -> Result<(Piece, usize), LexFault>
    requires utf8 { IsUtf8 text.now }
    requires at { at < length text.now }
    requires slash { IsCharBoundary text.now (at + 1) }
    ensures forward { IfOk result (λ r. at < r.1) }
    ensures between { IfOk result (λ r. IsCharBoundary text.now r.1) }
{
    let (comment, end, is_block) = match byte_at(text, at + 1) {
        b'/' => (line_comment(text, at), line_end(text, at + 1), false),
        b'*' => {
            let from = at.saturating_add(2);
            (block_comment(text, at), comment_end(text, from)?, true)
        }
        _ => return Ok((Piece::Token(TokenKind::Mark(b'/')), at + 1)),
    };
    if comment != Comment::Plain && has_bare_return(text, at, end) {
        return Err(LexFault::BareReturn);
    }
    Ok((comment_piece(comment, is_block), end))
}

/// What begins with `r`, whose `r` has been passed: a raw text or a raw name. None where it is
/// neither.
fn raw(text: &[u8], from: usize, kind: TokenKind) -> Result<Option<(TokenKind, usize)>, LexFault>
    requires utf8 { IsUtf8 text.now }
    ensures forward { IfOk result (λ o. IfSome o (λ r. from < r.1)) }
    ensures between { IfOk result (λ o. IfSome o (λ r. IsCharBoundary text.now r.1)) }
{
    if from >= text.len() {
        return Ok(None);
    }
    let hashes = hash_count(text, from);
    let at = from + hashes;
    if byte_at(text, at) == b'"' {
        let begin = at.saturating_add(1);
        return Ok(Some((kind, raw_text_end(text, begin, hashes, kind)?)));
    }
    if hashes == 0 {
        return Ok(None);
    }
    if kind != TokenKind::RawText || hashes > 1 || !begins_word(text, at) {
        return Err(LexFault::NoRawText);
    }
    match char_at(text, at) {
        Some((_, next)) => Ok(Some((TokenKind::RawIdentifier, word_end(text, next)))),
        None => Ok(None),
    }
}

/// The literal or raw name that begins with a prefix here, and the offset after it.
fn prefixed(text: &[u8], at: usize) -> Result<Option<(TokenKind, usize)>, LexFault>
    requires utf8 { IsUtf8 text.now }
    requires at { at < length text.now }
    ensures forward { IfOk result (λ o. IfSome o (λ r. at < r.1)) }
    ensures between { IfOk result (λ o. IfSome o (λ r. IsCharBoundary text.now r.1)) }
{
    let second = byte_at(text, at + 1);
    let from = at.saturating_add(2);
    match (text[at], second) {
        (b'r', b'"' | b'#') => raw(text, at + 1, TokenKind::RawText),
        (b'b', b'\'') => Ok(Some((TokenKind::Byte, byte_end(text, from)?))),
        (b'b', b'"') => {
            let end = text_end(text, from, TokenKind::ByteText)?;
            Ok(Some((TokenKind::ByteText, end)))
        }
        (b'b', b'r') => raw(text, from, TokenKind::RawByteText),
        (b'c', b'"') => Ok(Some((TokenKind::CText, text_end(text, from, TokenKind::CText)?))),
        (b'c', b'r') => raw(text, from, TokenKind::RawCText),
        _ => Ok(None),
    }
}

/// The token of a letter: a literal with a prefix, a raw name or a name.
fn word(text: &[u8], at: usize) -> Result<(Piece, usize), LexFault>
    requires utf8 { IsUtf8 text.now }
    requires at { at < length text.now }
    requires letter { IsCharBoundary text.now (at + 1) }
    ensures forward { IfOk result (λ r. at < r.1) }
    ensures between { IfOk result (λ r. IsCharBoundary text.now r.1) }
{
    if matches!(text[at], b'r' | b'b' | b'c') {
        if let Some((kind, end)) = prefixed(text, at)? {
            return Ok((Piece::Token(kind), end));
        }
    }
    Ok((Piece::Token(TokenKind::Identifier), word_end(text, at + 1)))
}

/// What begins with a character that is not ASCII.
fn wide(text: &[u8], at: usize) -> Result<(Piece, usize), LexFault>
    requires { IsUtf8 text.now }
    ensures forward { IfOk result (λ r. at < r.1) }
    ensures between { IfOk result (λ r. IsCharBoundary text.now r.1) }
{
    match char_at(text, at) {
        Some((ch, next)) if is_xid_start(ch) => {
            Ok((Piece::Token(TokenKind::Identifier), word_end(text, next)))
        }
        _ => match wide_space_end(text, at) {
            Some(end) => Ok((Piece::Nothing, end)),
            None => Err(LexFault::UnknownCharacter),
        },
    }
}

/// The token that one byte of ASCII is.
fn one_byte(byte: u8) -> Result<Piece, LexFault> {
    let kind = match byte {
        b'(' => TokenKind::OpenParen,
        b')' => TokenKind::CloseParen,
        b'[' => TokenKind::OpenBracket,
        b']' => TokenKind::CloseBracket,
        b'{' => TokenKind::OpenBrace,
        b'}' => TokenKind::CloseBrace,
        _ if is_mark(byte) => TokenKind::Mark(byte),
        _ => return Err(LexFault::UnknownCharacter),
    };
    Ok(Piece::Token(kind))
}

/// What stands at an offset, and the offset after it.
pub(crate) fn next_piece(text: &[u8], at: usize) -> Result<(Piece, usize), LexFault>
    requires utf8 { IsUtf8 text.now }
    requires at { at < length text.now }
    ensures forward { IfOk result (λ r. at < r.1) }
    ensures between { IfOk result (λ r. IsCharBoundary text.now r.1) }
{
    let byte = text[at];
    if byte >= 0x80 {
        return wide(text, at);
    }
    match byte {
        b' ' | b'\t' | b'\n' | b'\r' | 0x0b | 0x0c => {
            Ok((Piece::Nothing, space_end(text, at + 1)))
        }
        b'a'..=b'z' | b'A'..=b'Z' | b'_' => word(text, at),
        b'0'..=b'9' => {
            let (kind, end) = number_end(text, at);
            Ok((Piece::Token(kind), end))
        }
        b'/' => slash(text, at),
        b'"' => {
            let end = text_end(text, at + 1, TokenKind::Text)?;
            Ok((Piece::Token(TokenKind::Text), end))
        }
        b'\'' => {
            let (kind, end) = quote_end(text, at + 1)?;
            Ok((Piece::Token(kind), end))
        }
        _ => Ok((one_byte(byte)?, at + 1)),
    }
}
