//! Where texts, characters and lifetimes end.
#![tactic(auto, using(std::proofs::lemmas::Str::lead_after_ascii))]

ghost use Rattle.std.specs.Prelude.{◌<◌, ◌≤◌, ◌+◌, length, IfOk, IfSome};
ghost use Rattle.std.specs.Str.{IsUtf8, IsCharBoundary};

use crate::chars::{begins_word, byte_at, char_at, word_end};
use crate::fault::LexFault;
use crate::token::TokenKind;

/// Whether an escape in a text may go on with this byte.
fn goes_on_escape(byte: u8) -> bool {
    matches!(
        byte,
        b'n' | b'r' | b't' | b'0' | b'\\' | b'\'' | b'"' | b'x' | b'u' | b'\n' | b'\r'
    )
}

/// Whether a carriage return stands here that no line feed follows.
fn is_bare_return(text: &[u8], at: usize) -> bool {
    byte_at(text, at) == b'\r' && byte_at(text, at.saturating_add(1)) != b'\n'
}

/// The offset after the suffix of a literal, if one stands here.
pub(crate) fn suffix_end(text: &[u8], from: usize) -> usize
    requires utf8 { IsUtf8 text.now }
    requires from { IsCharBoundary text.now from }
    ensures forward { from ≤ result }
    ensures between { IsCharBoundary text.now result }
{
    if begins_word(text, from) {
        word_end(text, from)
    } else {
        from
    }
}

/// The offset after a text whose quote has been passed.
fn quoted_end(text: &[u8], from: usize, is_ascii: bool) -> Result<usize, LexFault>
    requires utf8 { IsUtf8 text.now }
    ensures forward { IfOk result (λ r. from < r) }
    ensures between { IfOk result (λ r. IsCharBoundary text.now r) }
{
    let mut is_escaped = false;
    for at in from..text.len() {
        let byte = text[at];
        if byte == b'\r' && is_bare_return(text, at) {
            return Err(LexFault::BareReturn);
        }
        if is_ascii && byte >= 0x80 {
            return Err(LexFault::WideByte);
        }
        if is_escaped {
            if !goes_on_escape(byte) {
                return Err(LexFault::UnknownEscape);
            }
            is_escaped = false;
        } else if byte == b'\\' {
            is_escaped = true;
        } else if byte == b'"' {
            return Ok(at + 1);
        }
    }
    Err(LexFault::UnclosedText)
}

/// The offset after a text and its suffix. Its quote has been passed.
pub(crate) fn text_end(text: &[u8], from: usize, kind: TokenKind) -> Result<usize, LexFault>
    requires utf8 { IsUtf8 text.now }
    ensures forward { IfOk result (λ r. from < r) }
    ensures between { IfOk result (λ r. IsCharBoundary text.now r) }
{
    let end = quoted_end(text, from, kind == TokenKind::ByteText)?;
    Ok(suffix_end(text, end))
}

/// The number of `#` from an offset on.
pub(crate) fn hash_count(text: &[u8], from: usize) -> usize
    requires { from ≤ length text.now }
    ensures { from + result ≤ length text.now }
{
    text[from..]
        .iter()
        .take_while(|byte| **byte == b'#')
        .count()
}

/// The offset after a raw text, whose quote has been passed, with so many `#`.
fn raw_quoted_end(
    text: &[u8],
    from: usize,
    hashes: usize,
    is_ascii: bool,
) -> Result<usize, LexFault>
    requires utf8 { IsUtf8 text.now }
    ensures forward { IfOk result (λ r. from < r) }
    ensures between { IfOk result (λ r. IsCharBoundary text.now r) }
{
    // How many `#` are still wanted, where a quote and `#` alone stand before.
    let mut wanted = None;
    for at in from..text.len() {
        let byte = text[at];
        if byte == b'"' {
            if hashes == 0 {
                return Ok(at + 1);
            }
            wanted = Some(hashes);
        } else if byte == b'#' {
            if wanted == Some(1) {
                return Ok(at + 1);
            }
            wanted = wanted.map(|count: usize| count.saturating_sub(1));
        } else {
            if byte == b'\r' && is_bare_return(text, at) {
                return Err(LexFault::BareReturn);
            }
            if is_ascii && byte >= 0x80 {
                return Err(LexFault::WideByte);
            }
            wanted = None;
        }
    }
    Err(LexFault::UnclosedText)
}

/// The offset after a raw text and its suffix. Its quote has been passed, with so many `#`.
pub(crate) fn raw_text_end(
    text: &[u8],
    from: usize,
    hashes: usize,
    kind: TokenKind,
) -> Result<usize, LexFault>
    requires utf8 { IsUtf8 text.now }
    ensures forward { IfOk result (λ r. from < r) }
    ensures between { IfOk result (λ r. IsCharBoundary text.now r) }
{
    let end = raw_quoted_end(text, from, hashes, kind == TokenKind::RawByteText)?;
    Ok(suffix_end(text, end))
}

/// The offset after an escape in a character or byte, whose `\` has been passed.
fn escape_end(text: &[u8], from: usize) -> Result<usize, LexFault>
    ensures forward { IfOk result (λ r. from < r) }
{
    let first = byte_at(text, from);
    if !goes_on_escape(first) || first == b'\n' || first == b'\r' {
        return Err(LexFault::UnknownEscape);
    }
    let begin = from.saturating_add(1);
    for at in begin..text.len() {
        let byte = text[at];
        if !byte.is_ascii_hexdigit() && byte != b'{' && byte != b'_' && byte != b'}' {
            return Ok(at);
        }
    }
    Err(LexFault::UnclosedCharacter)
}

/// The offset of the quote that is to close a character or byte, whose first quote has been passed.
fn closing_quote(text: &[u8], from: usize) -> Result<usize, LexFault>
    ensures forward { IfOk result (λ r. from < r) }
{
    match char_at(text, from) {
        Some(('\\', next)) => escape_end(text, next),
        Some(('\'' | '\n' | '\r' | '\t', _)) => Err(LexFault::NoCharacter),
        Some((_, next)) => Ok(next),
        None => Err(LexFault::UnclosedCharacter),
    }
}

/// The offset after a character or byte and its suffix. Its first quote has been passed.
pub(crate) fn character_end(text: &[u8], from: usize) -> Result<usize, LexFault>
    requires utf8 { IsUtf8 text.now }
    ensures forward { IfOk result (λ r. from < r) }
    ensures between { IfOk result (λ r. IsCharBoundary text.now r) }
{
    let quote = closing_quote(text, from)?;
    if quote >= text.len() || text[quote] != b'\'' {
        return Err(LexFault::UnclosedCharacter);
    }
    Ok(suffix_end(text, quote + 1))
}

/// The offset after a byte and its suffix. Its first quote has been passed.
pub(crate) fn byte_end(text: &[u8], from: usize) -> Result<usize, LexFault>
    requires utf8 { IsUtf8 text.now }
    ensures forward { IfOk result (λ r. from < r) }
    ensures between { IfOk result (λ r. IsCharBoundary text.now r) }
{
    if byte_at(text, from) >= 0x80 {
        return Err(LexFault::WideByte);
    }
    character_end(text, from)
}

/// The offset at which the name of a lifetime begins, whose `'` has been passed, if it is one.
fn lifetime_name(text: &[u8], from: usize) -> Option<usize>
    ensures forward { IfSome result (λ r. from ≤ r) }
    ensures begins { IfSome result (λ r. r < length text.now) }
{
    let raw = from.saturating_add(2);
    if text.get(from..raw) == Some(b"r#".as_slice()) && begins_word(text, raw) {
        return Some(raw);
    }
    if begins_word(text, from) {
        return Some(from);
    }
    None
}

/// The offset after a lifetime, whose `'` has been passed, if it is one and no character.
fn lifetime_end(text: &[u8], from: usize) -> Option<usize>
    requires utf8 { IsUtf8 text.now }
    requires from { IsCharBoundary text.now from }
    ensures forward { IfSome result (λ r. from ≤ r) }
    ensures between { IfSome result (λ r. IsCharBoundary text.now r) }
{
    let (_, second) = char_at(text, from)?;
    if byte_at(text, second) == b'\'' {
        return None;
    }
    let name = lifetime_name(text, from)?;
    if name > from {
        // An `r#`, whose `#` is a byte.
        return Some(after_raw(text, name));
    }
    Some(word_end(text, from))
}

/// The offset after a name behind `r#`.
fn after_raw(text: &[u8], name: usize) -> usize
    requires utf8 { IsUtf8 text.now }
    requires name { name < length text.now }
    ensures forward { name ≤ result }
    ensures between { IsCharBoundary text.now result }
{
    match char_at(text, name) {
        Some((_, next)) => word_end(text, next),
        None => text.len(),
    }
}

/// What stands at a `'` that has been passed: a lifetime or a character, and the offset after it.
pub(crate) fn quote_end(text: &[u8], from: usize) -> Result<(TokenKind, usize), LexFault>
    requires utf8 { IsUtf8 text.now }
    requires from { IsCharBoundary text.now from }
    ensures forward { IfOk result (λ r. from ≤ r.1) }
    ensures between { IfOk result (λ r. IsCharBoundary text.now r.1) }
{
    match lifetime_end(text, from) {
        Some(end) if byte_at(text, end) == b'\'' => Err(LexFault::LongCharacter),
        Some(end) => Ok((TokenKind::Lifetime, end)),
        None => Ok((TokenKind::Character, character_end(text, from)?)),
    }
}
