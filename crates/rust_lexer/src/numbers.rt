//! Where numbers end.
#![tactic(auto, using(std::proofs::lemmas::Str::lead_after_ascii))]

ghost use Rattle.std.specs.Prelude.{◌<◌, ◌≤◌, ◌+◌, length, IfSome};
ghost use Rattle.std.specs.Str.{IsUtf8, IsCharBoundary};

use crate::chars::{begins_word, byte_at, word_end};
use crate::literals::suffix_end;
use crate::token::TokenKind;

/// The offset after digits that stand from an offset on.
fn digits_end(text: &[u8], from: usize) -> usize
    requires utf8 { IsUtf8 text.now }
    requires from { IsCharBoundary text.now from }
    ensures forward { from ≤ result }
    ensures between { IsCharBoundary text.now result }
{
    let mut at = from;
    while at < text.len() && (text[at].is_ascii_digit() || text[at] == b'_') {
        at += 1;
    }
    at
}

/// The offset after a fraction, if a `.` begins one here.
fn fraction_end(text: &[u8], at: usize) -> Option<usize>
    requires utf8 { IsUtf8 text.now }
    requires at { IsCharBoundary text.now at }
    ensures forward { IfSome result (λ r. at < r) }
    ensures between { IfSome result (λ r. IsCharBoundary text.now r) }
{
    if at >= text.len() || text[at] != b'.' {
        return None;
    }
    if byte_at(text, at + 1) == b'.' || begins_word(text, at + 1) {
        return None;
    }
    Some(digits_end(text, at + 1))
}

/// The offset of the digits of an exponent, if one begins here.
fn exponent_digits(text: &[u8], at: usize) -> Option<usize>
    ensures forward { IfSome result (λ r. at < r) }
    ensures inside { IfSome result (λ r. r ≤ length text.now) }
    ensures between { IfSome result (λ r. IsCharBoundary text.now r) }
{
    if !matches!(byte_at(text, at), b'e' | b'E') {
        return None;
    }
    let behind = at.checked_add(1)?;
    let digits = match byte_at(text, behind) {
        b'+' | b'-' => behind.checked_add(1)?,
        _ => behind,
    };
    if digits < text.len() && text[digits].is_ascii_digit() {
        return Some(digits);
    }
    None
}

/// What begins with a digit, and the offset after it and its suffix.
pub(crate) fn number_end(text: &[u8], at: usize) -> (TokenKind, usize)
    requires utf8 { IsUtf8 text.now }
    requires at { at < length text.now }
    requires digit { IsCharBoundary text.now (at + 1) }
    ensures forward { at < result.1 }
    ensures between { IsCharBoundary text.now result.1 }
{
    let second = byte_at(text, at + 1);
    if text[at] == b'0' && matches!(second, b'x' | b'o' | b'b') {
        return (TokenKind::Integer, word_end(text, at + 1));
    }
    let whole = digits_end(text, at + 1);
    let fraction = fraction_end(text, whole);
    let mantissa = fraction.unwrap_or(whole);
    match exponent_digits(text, mantissa) {
        Some(digits) => {
            let end = digits_end(text, digits);
            (TokenKind::Float, suffix_end(text, end))
        }
        None if fraction.is_some() => (TokenKind::Float, suffix_end(text, mantissa)),
        None => (TokenKind::Integer, suffix_end(text, mantissa)),
    }
}
