//! Pieces of a text that are not read.

use crate::reader::Reader;
use crate::tokens::Token;

/// Where a piece of a text ends, outside of all brackets that are opened in it.
#[derive(Clone, Copy)]
pub enum End {
    /// With the bracket that closes the first one.
    Bracket,
    Semicolon,
    /// With a semicolon or the brace that closes a body.
    SemicolonOrBody,
}

/// How many brackets are open behind a token; none where it closes one that is not open. Which kind
/// closes which is not looked at.
fn depth_behind(depth: usize, token: Token) -> Option<usize> {
    match token {
        Token::Mark('(' | '[' | '{') => depth.checked_add(1),
        Token::Mark(')' | ']' | '}') => depth.checked_sub(1),
        Token::End => None,
        _ => Some(depth),
    }
}

fn is_end(end: End, token: Token) -> bool {
    match end {
        End::Bracket => true,
        End::Semicolon => matches!(token, Token::Mark(';')),
        End::SemicolonOrBody => matches!(token, Token::Mark(';' | '}')),
    }
}

/// Takes a piece that is not read.
pub fn skip_piece(reader: &mut Reader, end: End) {
    let mut depth = 0;
    for _ in 0..reader.left() {
        let token = reader.peek(0);
        let Some(new_depth) = depth_behind(depth, token) else {
            break;
        };
        reader.skip(1);
        if new_depth == 0 && is_end(end, token) {
            return;
        }
        depth = new_depth;
    }
    reader.stop();
}

/// Takes the arguments of a macro call. Those in braces end it; behind others comes a semicolon.
pub fn skip_arguments(reader: &mut Reader) {
    match reader.peek(0) {
        Token::Mark('{') => skip_piece(reader, End::Bracket),
        Token::Mark('(' | '[') => {
            skip_piece(reader, End::Bracket);
            reader.expect(';');
        }
        _ => reader.stop(),
    }
}
