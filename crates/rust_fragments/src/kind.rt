//! The kinds of fragments.

/// What a variable of a macro's pattern is bound to.
#[derive(Clone, Copy, PartialEq, Eq, Debug)]
pub enum FragmentKind {
    Block,
    Expression,
    Identifier,
    Item,
    Lifetime,
    Literal,
    Meta,
    Path,
    /// `pat`: a pattern with alternatives.
    Pattern,
    /// `pat_param`: a pattern without alternatives.
    PatternParameter,
    Statement,
    Tree,
    Type,
    Visibility,
}

/// The kind that a name stands for. `expr` is read as in editions before 2024, as `expr_2021` is.
pub fn fragment_kind(name: &str) -> Option<FragmentKind> {
    match name {
        "block" => Some(FragmentKind::Block),
        "expr" | "expr_2021" => Some(FragmentKind::Expression),
        "ident" => Some(FragmentKind::Identifier),
        "item" => Some(FragmentKind::Item),
        "lifetime" => Some(FragmentKind::Lifetime),
        "literal" => Some(FragmentKind::Literal),
        "meta" => Some(FragmentKind::Meta),
        "path" => Some(FragmentKind::Path),
        "pat" => Some(FragmentKind::Pattern),
        "pat_param" => Some(FragmentKind::PatternParameter),
        "stmt" => Some(FragmentKind::Statement),
        "tt" => Some(FragmentKind::Tree),
        "ty" => Some(FragmentKind::Type),
        "vis" => Some(FragmentKind::Visibility),
        _ => None,
    }
}
