//! The words that the reader knows.

/// A word of the language that an item's head may have, or that no item may be named.
#[derive(Clone, Copy, PartialEq, Eq, Debug)]
pub(crate) enum Word {
    As,
    Async,
    Auto,
    Const,
    Crate,
    Default,
    Enum,
    Extern,
    Fn,
    For,
    Gen,
    Impl,
    In,
    Macro,
    MacroRules,
    Mod,
    Mut,
    Pub,
    Safe,
    SelfPath,
    SelfType,
    Static,
    Struct,
    Super,
    Trait,
    Type,
    Underscore,
    Union,
    Unsafe,
    Use,
    Where,
    /// Any other keyword of all editions.
    Keyword,
    /// No keyword.
    Other,
}

impl Word {
    /// Whether an item, a field or a variant may have the word for a name.
    pub(crate) fn names(self) -> bool {
        matches!(
            self,
            Word::Other
                | Word::Async
                | Word::Auto
                | Word::Default
                | Word::Gen
                | Word::MacroRules
                | Word::Safe
                | Word::Union
        )
    }

    /// Whether the word is a segment of paths, and no name.
    pub(crate) fn is_segment(self) -> bool {
        matches!(
            self,
            Word::Crate | Word::SelfPath | Word::SelfType | Word::Super
        )
    }

    /// Whether the word begins an item, and stands in no type and no expression outside of braces.
    pub(crate) fn only_begins_items(self) -> bool {
        matches!(
            self,
            Word::Enum
                | Word::Mod
                | Word::Pub
                | Word::Static
                | Word::Struct
                | Word::Trait
                | Word::Type
                | Word::Use
        )
    }
}

/// The word that one or two bytes spell.
fn short_word(bytes: &[u8]) -> Word {
    match bytes {
        b"_" => Word::Underscore,
        b"as" => Word::As,
        b"fn" => Word::Fn,
        b"in" => Word::In,
        b"do" | b"if" => Word::Keyword,
        _ => Word::Other,
    }
}

/// The word that three bytes spell.
fn word_of_three(bytes: &[u8]) -> Word {
    match bytes {
        b"for" => Word::For,
        b"gen" => Word::Gen,
        b"mod" => Word::Mod,
        b"mut" => Word::Mut,
        b"pub" => Word::Pub,
        b"use" => Word::Use,
        b"box" | b"let" | b"ref" => Word::Keyword,
        _ => Word::Other,
    }
}

/// The word that four bytes spell.
fn word_of_four(bytes: &[u8]) -> Word {
    match bytes {
        b"auto" => Word::Auto,
        b"enum" => Word::Enum,
        b"impl" => Word::Impl,
        b"safe" => Word::Safe,
        b"self" => Word::SelfPath,
        b"Self" => Word::SelfType,
        b"type" => Word::Type,
        b"else" | b"loop" | b"move" | b"priv" | b"true" => Word::Keyword,
        _ => Word::Other,
    }
}

/// The word that five bytes spell.
fn word_of_five(bytes: &[u8]) -> Word {
    match bytes {
        b"async" => Word::Async,
        b"const" => Word::Const,
        b"crate" => Word::Crate,
        b"macro" => Word::Macro,
        b"super" => Word::Super,
        b"trait" => Word::Trait,
        b"union" => Word::Union,
        b"where" => Word::Where,
        b"break" | b"false" | b"final" | b"match" | b"while" | b"yield" => { Word::Keyword }
        _ => Word::Other,
    }
}

/// The word that six bytes spell.
fn word_of_six(bytes: &[u8]) -> Word {
    match bytes {
        b"extern" => Word::Extern,
        b"static" => Word::Static,
        b"struct" => Word::Struct,
        b"unsafe" => Word::Unsafe,
        b"become" | b"return" | b"typeof" => Word::Keyword,
        _ => Word::Other,
    }
}

/// The word that more bytes spell.
fn long_word(bytes: &[u8]) -> Word {
    match bytes {
        b"default" => Word::Default,
        b"macro_rules" => Word::MacroRules,
        b"unsized" | b"virtual" | b"abstract" | b"continue" | b"override" => Word::Keyword,
        _ => Word::Other,
    }
}

/// The word that bytes spell.
pub(crate) fn word_of(bytes: &[u8]) -> Word {
    match bytes.len() {
        0..=2 => short_word(bytes),
        3 => word_of_three(bytes),
        4 => word_of_four(bytes),
        5 => word_of_five(bytes),
        6 => word_of_six(bytes),
        _ => long_word(bytes),
    }
}
