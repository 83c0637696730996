//! The text that a literal stands for.

use rust_lexer::{Sources, Token, TokenKind};
use std::alloc::{AllocError, Global};

/// What stands between the quotes of a literal, without what precedes the first quote and follows
/// the last one.
fn quoted(text: &str) -> Option<&str> {
    let (_, rest) = text.split_once('"')?;
    let (within, _) = rest.rsplit_once('"')?;
    Some(within)
}

/// The character that two or fewer bytes of an escape stand for, if it is a simple one.
fn simple_escape(letter: char) -> Option<char> {
    match letter {
        'n' => Some('\n'),
        'r' => Some('\r'),
        't' => Some('\t'),
        '0' => Some('\0'),
        '\\' | '\'' | '"' => Some(letter),
        _ => None,
    }
}

/// What is being read of a text with escapes.
#[derive(Clone, Copy)]
enum State {
    Plain,
    /// Behind a backslash.
    Escape,
    /// Behind `\x`, with so many digits to come.
    Byte { left: u8, code: u32 },
    /// Behind `\u`.
    Brace { code: u32 },
    /// Behind a backslash at the end of a line.
    Margin,
}

/// A code with one more digit.
fn with_digit(code: u32, digit: char) -> u32 {
    match digit.to_digit(16) {
        Some(value) => code.saturating_mul(16).saturating_add(value),
        None => code,
    }
}

/// Adds the character of a code, if it is one.
fn push_code(text: &mut String, code: u32) -> Result<(), AllocError> {
    if let Some(ch) = char::from_u32(code) {
        text.push(ch)?;
    }
    Ok(())
}

/// Reads one character of a text with escapes.
fn next_state(text: &mut String, state: State, ch: char) -> Result<State, AllocError> {
    match state {
        State::Escape => match ch {
            'x' => Ok(State::Byte { left: 2, code: 0 }),
            'u' => Ok(State::Brace { code: 0 }),
            '\n' => Ok(State::Margin),
            _ => {
                if let Some(value) = simple_escape(ch) {
                    text.push(value)?;
                }
                Ok(State::Plain)
            }
        },
        State::Byte { left: 2, code } => Ok(State::Byte {
            left: 1,
            code: with_digit(code, ch),
        }),
        State::Byte { code, .. } => {
            push_code(text, with_digit(code, ch))?;
            Ok(State::Plain)
        }
        State::Brace { code } if ch == '}' => {
            push_code(text, code)?;
            Ok(State::Plain)
        }
        State::Brace { code } => Ok(State::Brace {
            code: with_digit(code, ch),
        }),
        State::Margin if ch.is_ascii_whitespace() => Ok(State::Margin),
        State::Plain | State::Margin if ch == '\\' => Ok(State::Escape),
        State::Plain | State::Margin => {
            text.push(ch)?;
            Ok(State::Plain)
        }
    }
}

/// The text that a literal with escapes stands for.
fn unescaped(alloc: Global, within: &str) -> Result<String, AllocError> {
    let mut text = String::new(alloc);
    let mut state = State::Plain;
    for ch in within.chars() {
        state = next_state(&mut text, state, ch)?;
    }
    Ok(text)
}

/// The text that a token stands for; none, if it is no literal of a text.
pub fn text_of_literal(
    alloc: Global,
    sources: &Sources,
    token: Token,
) -> Result<Option<String>, AllocError> {
    let text = sources.text_of(token);
    let within = match token.kind {
        TokenKind::Text | TokenKind::RawText => quoted(text),
        TokenKind::DocText => Some(text),
        _ => None,
    };
    match within {
        Some(within) if token.kind == TokenKind::Text => Ok(Some(unescaped(alloc, within)?)),
        Some(within) => Ok(Some(String::from_str(alloc, within)?)),
        None => Ok(None),
    }
}
