//! Tokens: what they are, and where they stand.

/// A text among those that are read, by its number.
#[derive(Clone, Copy, PartialEq, Eq, Hash, Debug)]
pub struct SourceId(pub u32);

/// What a token is. A mark is one character: an operator of several is a run of joint marks.
#[derive(Clone, Copy, PartialEq, Eq, Debug)]
pub enum TokenKind {
    Identifier,
    /// `r#NAME`; the span has the `r#`.
    RawIdentifier,
    Lifetime,
    Integer,
    Float,
    Character,
    Byte,
    Text,
    ByteText,
    CText,
    RawText,
    RawByteText,
    RawCText,
    /// One character of punctuation.
    Mark(u8),
    OpenParen,
    CloseParen,
    OpenBracket,
    CloseBracket,
    OpenBrace,
    CloseBrace,
    /// The word `doc` of an attribute that is written as a comment. Its span is empty.
    DocName,
    /// The text of such an attribute. Its span is that text alone.
    DocText,
    /// What `$crate` of a macro is in an expansion; the source is the macro's. No text has it.
    DollarCrate,
}

/// A token, and the part of a text that it stands for.
#[derive(Clone, Copy, PartialEq, Eq, Debug)]
pub struct Token {
    pub kind: TokenKind,
    /// Whether it is a mark, and the next token is a mark that follows at once.
    pub joint: bool,
    pub source: SourceId,
    /// The byte at which it begins.
    pub start: u32,
    /// The byte behind its last one.
    pub end: u32,
}

impl Token {
    /// Whether the token is this mark.
    pub fn is_mark(self, mark: u8) -> bool {
        self.kind == TokenKind::Mark(mark)
    }

    /// Whether the token is an identifier, be it a keyword.
    pub fn is_name(self) -> bool {
        matches!(
            self.kind,
            TokenKind::Identifier | TokenKind::RawIdentifier | TokenKind::DocName
        )
    }
}
