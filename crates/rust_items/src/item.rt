//! Items, and the lists that they have parts of.

use rust_lexer::Token;
use std::alloc::Global;

/// Places from one to before another, of tokens or of a table.
#[derive(Clone, Copy, PartialEq, Eq, Debug)]
pub struct Span {
    pub from: u32,
    pub to: u32,
}

#[derive(Clone, Copy, PartialEq, Eq, Debug)]
pub enum Visibility {
    Private,
    Public,
    /// `pub(..)`; the span is of the tokens within.
    Restricted(Span),
}

/// `#[..]` or `#![..]`, be it written as a comment.
#[derive(Clone, Copy, PartialEq, Eq, Debug)]
pub struct Attribute {
    pub is_inner: bool,
    /// The tokens within the brackets.
    pub tokens: Span,
}

/// A segment of an import's path, after an earlier one. So paths share what they begin with.
#[derive(Clone, Copy, PartialEq, Eq, Debug)]
pub struct PathSegment {
    pub before: Option<u32>,
    /// No token is the `::` that a path begins with.
    pub name: Option<Token>,
}

#[derive(Clone, Copy, PartialEq, Eq, Debug)]
pub enum ImportKind {
    Plain,
    Glob,
    /// `{self}`
    TypeOnly,
}

#[derive(Clone, Copy, PartialEq, Eq, Debug)]
pub struct Import {
    /// The last segment of the path in the table; none for `use *` and `use {self}`.
    pub path: Option<u32>,
    pub kind: ImportKind,
    /// What stands after `as`, an identifier, which may be `_`.
    pub alias: Option<Token>,
}

/// Whether a struct has a constructor among the values, and who sees it.
#[derive(Clone, Copy, PartialEq, Eq, Debug)]
pub enum Constructor {
    Absent,
    /// As visible as the struct.
    Unit,
    /// The visibilities of the fields.
    Fields(Span),
}

/// What a variant has.
#[derive(Clone, Copy, PartialEq, Eq, Debug)]
pub enum VariantShape {
    Unit,
    Tuple,
    Record,
}

#[derive(Clone, Copy, PartialEq, Eq, Debug)]
pub struct Variant {
    pub name: Token,
    pub shape: VariantShape,
    pub attributes: Span,
}

/// What an item is.
#[derive(Clone, Copy, PartialEq, Eq, Debug)]
pub enum ItemKind {
    Use { imports: Span },
    ExternCrate { alias: Option<Token> },
    ExternBlock,
    /// The tokens within its body's braces, if it has one.
    Function { body: Option<Span> },
    Struct { constructor: Constructor },
    Union,
    Enum { variants: Span },
    Const,
    Static,
    Trait,
    Impl { is_of_trait: bool },
    TypeAlias,
    Module { is_inline: bool },
    /// `PATH!(..)`: the tokens of its path, and the place of the delimiter.
    MacroCall { path: Span, arguments: u32 },
    /// `macro_rules! NAME {..}`: the place of the delimiter.
    MacroRules { body: u32 },
    /// `macro NAME(..) {..}` or `macro NAME {..}`: the place of the first delimiter.
    MacroTwo { body: u32 },
}

/// What an item stands in.
#[derive(Clone, Copy, PartialEq, Eq, Debug)]
pub enum Owner {
    Module,
    ExternBlock,
    /// A trait or an implementation.
    Associated,
}

#[derive(Clone, Copy, PartialEq, Eq, Debug)]
pub struct Item {
    pub kind: ItemKind,
    /// None for `const _`, imports, implementations, extern blocks and most macro calls.
    pub name: Option<Token>,
    pub visibility: Visibility,
    /// Those before it, and behind them those that its body begins with.
    pub attributes: Span,
    /// From behind the attributes before it on.
    pub tokens: Span,
    pub owner: Owner,
    /// The place in the list behind the items within it.
    pub after: u32,
}

/// The items of a file, each before those within it. Items of functions' bodies are not among them.
#[derive(Drop)]
pub struct ItemList {
    pub items: Vec<Item>,
    pub attributes: Vec<Attribute>,
    /// The attributes of the whole.
    pub inner: Span,
    pub imports: Vec<Import>,
    pub path_segments: Vec<PathSegment>,
    pub fields: Vec<Visibility>,
    pub variants: Vec<Variant>,
}

impl ItemList {
    /// A list of nothing.
    pub fn new(alloc: Global) -> ItemList {
        ItemList {
            items: Vec::new(alloc),
            attributes: Vec::new(alloc),
            inner: Span { from: 0, to: 0 },
            imports: Vec::new(alloc),
            path_segments: Vec::new(alloc),
            fields: Vec::new(alloc),
            variants: Vec::new(alloc),
        }
    }
}
