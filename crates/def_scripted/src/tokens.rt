//! The tokens of a text.

use crate::reader::Reader;
use def_interner::Interner;
use item_tree::Name;

/// A word that the reader knows.
#[derive(Clone, Copy, PartialEq)]
pub enum Keyword {
    As,
    Cfg,
    Const,
    Crate,
    Enum,
    Extern,
    Fn,
    For,
    Impl,
    In,
    Macro,
    MacroRules,
    Mod,
    Pub,
    SelfWord,
    Static,
    Struct,
    Super,
    Trait,
    Type,
    Underscore,
    Union,
    Use,
}

/// A piece of a text: a word, a name, a number, a text in quotes by its number, the two colons
/// between segments, or any other character but a space. Behind the last one comes the end.
#[derive(Clone, Copy, PartialEq)]
pub enum Token {
    Word(Keyword),
    Name(Name),
    Number(usize),
    Text(usize),
    Colons,
    Mark(char),
    End,
}

/// The words that the reader knows, as they are written.
static WORDS: [(&str, Keyword); 23] = [
    ("as", Keyword::As),
    ("cfg", Keyword::Cfg),
    ("const", Keyword::Const),
    ("crate", Keyword::Crate),
    ("enum", Keyword::Enum),
    ("extern", Keyword::Extern),
    ("fn", Keyword::Fn),
    ("for", Keyword::For),
    ("impl", Keyword::Impl),
    ("in", Keyword::In),
    ("macro", Keyword::Macro),
    ("macro_rules", Keyword::MacroRules),
    ("mod", Keyword::Mod),
    ("pub", Keyword::Pub),
    ("self", Keyword::SelfWord),
    ("static", Keyword::Static),
    ("struct", Keyword::Struct),
    ("super", Keyword::Super),
    ("trait", Keyword::Trait),
    ("type", Keyword::Type),
    ("_", Keyword::Underscore),
    ("union", Keyword::Union),
    ("use", Keyword::Use),
];

/// What a piece of a text is, by its first character.
#[derive(Clone, Copy)]
enum Piece {
    Space,
    Word,
    Colons,
    /// A text in quotes, without the closing one.
    Text,
    Mark,
}

fn is_in_word(character: char) -> bool {
    character == '_' || character.is_ascii_alphanumeric()
}

/// What begins with a character.
fn piece_of(character: char) -> Piece {
    match character {
        '"' => Piece::Text,
        ':' => Piece::Colons,
        _ if is_in_word(character) => Piece::Word,
        _ if character.is_ascii_whitespace() => Piece::Space,
        _ => Piece::Mark,
    }
}

/// Whether a character goes on with a piece.
fn goes_on(piece: Piece, character: char) -> bool {
    match piece {
        Piece::Space | Piece::Mark => false,
        Piece::Word => is_in_word(character),
        Piece::Colons => character == ':',
        Piece::Text => character != '"',
    }
}

/// The piece that begins with the character behind another one. The quote that closes a text is
/// read as a space.
fn piece_behind(piece: Piece, character: char) -> Piece {
    match piece {
        Piece::Text => Piece::Space,
        _ => piece_of(character),
    }
}

/// The token of a word that is none of those and no number.
fn name_token(session: &mut Interner, word: &str, reader: &mut Reader) -> Token {
    match session.intern_name(word) {
        Ok(name) => Token::Name(name),
        Err(_) => {
            reader.refuse();
            Token::End
        }
    }
}

/// The token that a word is.
fn word_token(session: &mut Interner, word: &str, reader: &mut Reader) -> Token {
    for (text, keyword) in &WORDS {
        if *text == word {
            return Token::Word(*keyword);
        }
    }
    match word.parse::<usize>() {
        Ok(number) => Token::Number(number),
        Err(_) => name_token(session, word, reader),
    }
}

/// Adds the token that a piece is, if it is one. Colons but two of them are a mark, which fits
/// nowhere.
fn add_piece(session: &mut Interner, piece: Piece, text: &str, begin: usize, reader: &mut Reader) {
    let token = match piece {
        Piece::Space => return,
        Piece::Word => word_token(session, text, reader),
        Piece::Colons if text == "::" => Token::Colons,
        Piece::Colons | Piece::Mark => Token::Mark(text.chars().next().unwrap_or(' ')),
        Piece::Text => reader.add_text(text.strip_prefix('"').unwrap_or("")),
    };
    reader.push(token, begin);
}

/// Adds the tokens of a text. Answers the byte of a quote that is not closed, if there is one.
pub fn add_tokens(session: &mut Interner, text: &str, reader: &mut Reader) -> Option<usize> {
    let mut piece = Piece::Space;
    let mut begin = 0;
    for (at, character) in text.char_indices() {
        if !goes_on(piece, character) {
            let passed = text.get(begin..at).unwrap_or("");
            add_piece(session, piece, passed, begin, reader);
            piece = piece_behind(piece, character);
            begin = at;
        }
    }
    if matches!(piece, Piece::Text) {
        return Some(begin);
    }
    let passed = text.get(begin..).unwrap_or("");
    add_piece(session, piece, passed, begin, reader);
    None
}
