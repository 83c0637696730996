//! The words that fragments are told apart by.

/// A word of the language, as far as fragments depend on it.
#[derive(Clone, Copy, PartialEq, Eq, Debug)]
pub(crate) enum Word {
    As,
    Async,
    Auto,
    Become,
    Box,
    Break,
    Const,
    Continue,
    Crate,
    Default,
    Do,
    Dyn,
    Else,
    Enum,
    Extern,
    False,
    Fn,
    For,
    Gen,
    If,
    Impl,
    In,
    Let,
    Loop,
    Macro,
    MacroRules,
    Match,
    Mod,
    Move,
    Mut,
    Pub,
    Raw,
    Return,
    Safe,
    SelfPath,
    SelfType,
    Static,
    Struct,
    Super,
    Trait,
    True,
    Try,
    Type,
    Underscore,
    Union,
    Unsafe,
    Use,
    While,
    Yield,
    /// Any other keyword.
    Keyword,
    /// No keyword.
    Other,
}

impl Word {
    /// Whether the word is a name wherever nothing else gives it a meaning.
    pub(crate) fn names(self) -> bool {
        matches!(
            self,
            Word::Other
                | Word::Auto
                | Word::Default
                | Word::Gen
                | Word::MacroRules
                | Word::Raw
                | Word::Safe
                | Word::Union
        )
    }

    /// Whether a path may have the word for a segment. Some words are names in old editions.
    pub(crate) fn is_segment(self) -> bool {
        self.names()
            || matches!(
                self,
                Word::Async
                    | Word::Crate
                    | Word::Dyn
                    | Word::SelfPath
                    | Word::SelfType
                    | Word::Super
                    | Word::Try
            )
    }

    /// Whether an expression may begin with the word, as macros see it.
    pub(crate) fn begins_expression(self) -> bool {
        self.names()
            || matches!(
                self,
                Word::Async
                    | Word::Become
                    | Word::Box
                    | Word::Break
                    | Word::Continue
                    | Word::Crate
                    | Word::Do
                    | Word::False
                    | Word::For
                    | Word::If
                    | Word::Loop
                    | Word::Match
                    | Word::Move
                    | Word::Return
                    | Word::SelfPath
                    | Word::SelfType
                    | Word::Static
                    | Word::Super
                    | Word::True
                    | Word::Try
                    | Word::Unsafe
                    | Word::While
                    | Word::Yield
            )
    }

    /// Whether a type may begin with the word, as macros see it.
    pub(crate) fn begins_type(self) -> bool {
        self.names()
            || matches!(
                self,
                Word::Crate
                    | Word::Dyn
                    | Word::Extern
                    | Word::Fn
                    | Word::For
                    | Word::Impl
                    | Word::SelfPath
                    | Word::SelfType
                    | Word::Super
                    | Word::Underscore
                    | Word::Unsafe
            )
    }
}

/// The word that one or two bytes spell.
fn short_word(bytes: &[u8]) -> Word {
    match bytes {
        b"_" => Word::Underscore,
        b"as" => Word::As,
        b"do" => Word::Do,
        b"fn" => Word::Fn,
        b"if" => Word::If,
        b"in" => Word::In,
        _ => Word::Other,
    }
}

/// The word that three bytes spell.
fn word_of_three(bytes: &[u8]) -> Word {
    match bytes {
        b"box" => Word::Box,
        b"dyn" => Word::Dyn,
        b"for" => Word::For,
        b"gen" => Word::Gen,
        b"let" => Word::Let,
        b"mod" => Word::Mod,
        b"mut" => Word::Mut,
        b"pub" => Word::Pub,
        b"raw" => Word::Raw,
        b"ref" => Word::Keyword,
        b"try" => Word::Try,
        b"use" => Word::Use,
        _ => Word::Other,
    }
}

/// The word that four bytes spell.
fn word_of_four(bytes: &[u8]) -> Word {
    match bytes {
        b"auto" => Word::Auto,
        b"else" => Word::Else,
        b"enum" => Word::Enum,
        b"impl" => Word::Impl,
        b"loop" => Word::Loop,
        b"move" => Word::Move,
        b"priv" => Word::Keyword,
        b"safe" => Word::Safe,
        b"self" => Word::SelfPath,
        b"Self" => Word::SelfType,
        b"true" => Word::True,
        b"type" => Word::Type,
        _ => Word::Other,
    }
}

/// The word that five bytes spell.
fn word_of_five(bytes: &[u8]) -> Word {
    match bytes {
        b"async" => Word::Async,
        b"await" | b"final" | b"where" => Word::Keyword,
        b"break" => Word::Break,
        b"const" => Word::Const,
        b"crate" => Word::Crate,
        b"false" => Word::False,
        b"macro" => Word::Macro,
        b"match" => Word::Match,
        b"super" => Word::Super,
        b"trait" => Word::Trait,
        b"union" => Word::Union,
        b"while" => Word::While,
        b"yield" => Word::Yield,
        _ => Word::Other,
    }
}

/// The word that six bytes spell.
fn word_of_six(bytes: &[u8]) -> Word {
    match bytes {
        b"become" => Word::Become,
        b"extern" => Word::Extern,
        b"return" => Word::Return,
        b"static" => Word::Static,
        b"struct" => Word::Struct,
        b"typeof" => Word::Keyword,
        b"unsafe" => Word::Unsafe,
        _ => Word::Other,
    }
}

/// The word that more bytes spell.
fn long_word(bytes: &[u8]) -> Word {
    match bytes {
        b"continue" => Word::Continue,
        b"default" => Word::Default,
        b"macro_rules" => Word::MacroRules,
        b"unsized" | b"virtual" | b"abstract" | b"override" => Word::Keyword,
        _ => Word::Other,
    }
}

/// The word that bytes spell.
pub(crate) fn word_of(bytes: &[u8]) -> Word {
    match bytes.len() {
        0..=2 => short_word(bytes),
        3 => word_of_three(bytes),
        4 => word_of_four(bytes),
        5 => word_of_five(bytes),
        6 => word_of_six(bytes),
        _ => long_word(bytes),
    }
}
