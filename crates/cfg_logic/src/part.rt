//! The parts that a predicate of `cfg` is written with.

/// What a group says of the predicates in it.
#[derive(Clone, Copy, PartialEq, Eq, Debug)]
pub enum Group {
    All,
    Any,
    Not,
}

/// A part that a predicate is written with.
#[derive(Drop, Debug)]
pub enum CfgPart {
    /// `all(`, `any(` or `not(`.
    Open(Group),
    /// `)`
    Close,
    /// `,`
    Comma,
    /// `true` or `false`.
    Truth(bool),
    /// A flag, such as `unix`.
    Word(String),
    /// A key and a value, such as `feature = "alloc"`.
    Pair(String, String),
}
