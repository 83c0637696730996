//! Operators of several marks.

use rust_lexer::{Token, TokenKind};

/// The mark of a token, if it is one.
fn mark_of(token: &Token) -> Option<u8> {
    match token.kind {
        TokenKind::Mark(mark) => Some(mark),
        _ => None,
    }
}

/// Whether two marks are an operator.
fn is_pair(first: u8, second: u8) -> bool {
    match first {
        b'=' => second == b'=' || second == b'>',
        b'-' => second == b'=' || second == b'>',
        b'<' => matches!(second, b'=' | b'<' | b'-'),
        b'&' | b'|' | b'>' => second == b'=' || second == first,
        b'+' | b'*' | b'/' | b'%' | b'^' | b'!' => second == b'=',
        b':' | b'.' => second == first,
        _ => false,
    }
}

/// Whether three marks are an operator.
fn is_triple(first: u8, second: u8, third: u8) -> bool {
    match (first, second) {
        (b'.', b'.') => third == b'.' || third == b'=',
        (b'<', b'<') | (b'>', b'>') => third == b'=',
        _ => false,
    }
}

/// How many tokens the operator at a place is written with; one, where none stands there.
pub fn operator_length(tokens: &[Token], at: usize) -> usize {
    let (Some(first), Some(second)) = (tokens.get(at), tokens.get(at.saturating_add(1))) else {
        return 1;
    };
    let (Some(first_mark), Some(second_mark)) = (mark_of(first), mark_of(second)) else {
        return 1;
    };
    if !first.joint || !is_pair(first_mark, second_mark) {
        return 1;
    }
    match tokens
        .get(at.saturating_add(2))
        .and_then(|token| mark_of(token))
    {
        Some(third_mark) if second.joint && is_triple(first_mark, second_mark, third_mark) => 3,
        _ => 2,
    }
}
