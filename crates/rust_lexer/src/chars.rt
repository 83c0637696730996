//! Characters at an offset of a text.
#![tactic(auto, using(std::proofs::lemmas::Str::lead_after_ascii))]

ghost use Rattle.std.specs.Prelude.{◌<◌, ◌≤◌, length, IfSome, IsTrue};
ghost use Rattle.std.specs.Str.{IsUtf8, IsCharBoundary};

use unicode_ident::{is_xid_continue, is_xid_start};

/// The byte at an offset, 0 at the end.
pub(crate) fn byte_at(text: &[u8], at: usize) -> u8 {
    match text.get(at) {
        Some(byte) => *byte,
        None => 0,
    }
}

/// The bits that a byte within a character adds.
fn low_bits(text: &[u8], at: usize) -> u32
    ensures { result < 64 }
{
    (byte_at(text, at) & 0x3f) as u32
}

/// Whether a text may be cut at an offset.
fn is_boundary(text: &[u8], at: usize) -> bool
    ensures { IsTrue result → IsCharBoundary text.now at }
{
    match text.get(at) {
        Some(byte) => *byte < 0x80 || *byte >= 0xc0,
        None => at == text.len(),
    }
}

/// What the bytes from an offset on encode, and how many they are.
fn code_at(text: &[u8], at: usize) -> (u32, usize)
    requires { at < length text.now }
    ensures some { 0 < result.1 }
    ensures few { result.1 ≤ 4 }
{
    let first = text[at] as u32;
    if first < 0x80 {
        return (first, 1);
    }
    let second = low_bits(text, at + 1);
    if first < 0xe0 {
        return ((first & 0x1f) << 6 | second, 2);
    }
    let third = low_bits(text, at.saturating_add(2));
    if first < 0xf0 {
        return ((first & 0x0f) << 12 | second << 6 | third, 3);
    }
    let fourth = low_bits(text, at.saturating_add(3));
    ((first & 0x07) << 18 | second << 12 | third << 6 | fourth, 4)
}

/// The character that begins at an offset, and the offset after it. None where no character begins.
pub(crate) fn char_at(text: &[u8], at: usize) -> Option<(char, usize)>
    ensures forward { IfSome result (λ r. at < r.1) }
    ensures between { IfSome result (λ r. IsCharBoundary text.now r.1) }
{
    if at >= text.len() {
        return None;
    }
    let (code, len) = code_at(text, at);
    let end = at.checked_add(len)?;
    if !is_boundary(text, end) {
        return None;
    }
    Some((char::from_u32(code)?, end))
}

/// Whether an identifier may begin at an offset.
pub(crate) fn begins_word(text: &[u8], at: usize) -> bool
    ensures { IsTrue result → at < length text.now }
{
    if at >= text.len() {
        return false;
    }
    let byte = text[at];
    if byte < 0x80 {
        return byte.is_ascii_alphabetic() || byte == b'_';
    }
    match char_at(text, at) {
        Some((ch, _)) => is_xid_start(ch),
        None => false,
    }
}

/// The offset after the character of an identifier at an offset, if one stands there.
fn after_word_char(text: &[u8], at: usize) -> Option<usize>
    requires utf8 { IsUtf8 text.now }
    requires inside { at < length text.now }
    ensures forward { IfSome result (λ r. at < r) }
    ensures between { IfSome result (λ r. IsCharBoundary text.now r) }
{
    let byte = text[at];
    if byte < 0x80 {
        return if byte.is_ascii_alphanumeric() || byte == b'_' {
            Some(at + 1)
        } else {
            None
        };
    }
    match char_at(text, at) {
        Some((ch, next)) if is_xid_continue(ch) => Some(next),
        _ => None,
    }
}

/// The offset after the characters of an identifier that stand from an offset on.
pub(crate) fn word_end(text: &[u8], from: usize) -> usize
    requires utf8 { IsUtf8 text.now }
    requires from { IsCharBoundary text.now from }
    ensures forward { from ≤ result }
    ensures between { IsCharBoundary text.now result }
{
    let mut at = from;
    while at < text.len() {
        let Some(next) = after_word_char(text, at) else {
            return at;
        };
        at = next;
    }
    at
}

/// The offset after a white space character other than those of ASCII, if one begins there.
pub(crate) fn wide_space_end(text: &[u8], at: usize) -> Option<usize>
    ensures forward { IfSome result (λ r. at < r) }
    ensures between { IfSome result (λ r. IsCharBoundary text.now r) }
{
    let (ch, next) = char_at(text, at)?;
    match ch {
        '\u{85}' | '\u{200e}' | '\u{200f}' | '\u{2028}' | '\u{2029}' => Some(next),
        _ => None,
    }
}
