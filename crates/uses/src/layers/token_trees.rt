//! Token trees: lists in lists, a tree that is deeper than a stack, and what is no tree.

use item_tree::sym::ATTRIBUTES;
use item_tree::{Leaf, Name, TopSubtree, TopSubtreeBuilder, TtElement, TtIter};
use std::alloc::{AllocError, Global};
use std::test::Fail;

/// With a hundred bytes for each level, more than a stack of 8 MB holds.
const DEPTH: usize = 100_000;

/// What stands for elements that are no identifiers: the star.
const STAR: Name = Name(42);

/// The identifier of a letter. No known name has it.
pub fn name_of(letter: char) -> Name {
    Name(letter as usize)
}

/// Does what a letter of a text says: a bracket opens or closes a list, a comma is one, a star is
/// the name `attributes`, and another letter is an identifier. False where no list is open that
/// could be closed.
fn add(trees: &mut TopSubtreeBuilder, letter: char) -> Result<bool, AllocError> {
    match letter {
        '(' => trees.open()?,
        ')' => return trees.close(),
        ',' => trees.push(Leaf::Punct(','))?,
        '*' => trees.push(Leaf::Ident(ATTRIBUTES))?,
        _ => trees.push(Leaf::Ident(name_of(letter)))?,
    }
    Ok(true)
}

/// Does what all letters of a text say, and counts where no list is open that could be closed.
fn add_all(trees: &mut TopSubtreeBuilder, text: &str) -> Result<usize, AllocError> {
    let mut refused = 0_usize;
    for letter in text.chars() {
        if !add(trees, letter)? {
            refused = refused.wrapping_add(1);
        }
    }
    Ok(refused)
}

/// The trees of a text, if it is whole.
pub fn trees_of(alloc: Global, text: &str) -> Result<Option<TopSubtree>, AllocError> {
    let mut trees = TopSubtreeBuilder::new(alloc);
    let _ = add_all(&mut trees, text)?;
    Ok(trees.build())
}

/// How often a text closes a list where none is open.
fn refused_in(alloc: Global, text: &str) -> Result<usize, AllocError> {
    add_all(&mut TopSubtreeBuilder::new(alloc), text)
}

/// What stands in the element at a place, if that is a list.
fn inside(trees: TtIter<'_>, place: usize) -> Option<TtIter<'_>> {
    let mut trees = trees;
    for _ in 0..place {
        let _ = trees.next();
    }
    trees.next()?.subtree()
}

/// What stands so many lists deep, each of which is the element at this place.
fn level(tree: &TopSubtree, place: usize, depth: usize) -> Option<TtIter<'_>> {
    let mut level = tree.iter();
    for _ in 0..depth {
        level = inside(level, place)?;
    }
    Some(level)
}

/// Whether an element is the identifier of this letter, or another element where that is a star.
fn is_name(element: Option<TtElement<'_>>, letter: char) -> bool {
    match element {
        Some(element) => element.ident().unwrap_or(STAR) == name_of(letter),
        None => false,
    }
}

/// Whether elements are the identifiers of these letters, and other elements where a star is.
fn are_names(trees: Option<TtIter<'_>>, letters: &str) -> bool {
    let Some(mut trees) = trees else {
        return false;
    };
    for letter in letters.chars() {
        if !is_name(trees.next(), letter) {
            return false;
        }
    }
    trees.next().is_none()
}

/// A text, how often it closes a list where none is open, and its names: those of the text, of the
/// list that is its second element, of the list that is the second in that, and so on. No list
/// where it is no tree.
static TEXTS: [(&str, usize, &[&str]); 3] = [
    ("a(b(c)d),e", 0, &["a**e", "b*d", "c"]),
    (")a)", 2, &["a"]),
    ("(()", 0, &[]),
];

/// Whether a tree has these names.
fn has_levels(tree: &TopSubtree, names: &[&str]) -> bool {
    for (depth, letters) in names.iter().enumerate() {
        if !are_names(level(tree, 1, depth), letters) {
            return false;
        }
    }
    !names.is_empty()
}

/// Whether a text closes a list so often where none is open, and has these names.
fn is_read(alloc: Global, text: &str, refused: usize, names: &[&str]) -> Result<bool, AllocError> {
    let is_right = match trees_of(alloc, text)? {
        Some(tree) => has_levels(&tree, names),
        None => names.is_empty(),
    };
    Ok(is_right && refused_in(alloc, text)? == refused)
}

#[test]
fn texts_are_trees_where_their_lists_are_closed(rt: HostRuntime) -> Result<(), Fail> {
    for (text, refused, names) in &TEXTS {
        assert!(rt; is_read(rt.alloc(), text, *refused, names)?, "{text}");
    }
    Ok(())
}

/// An identifier in so many lists, each in the other.
fn nested(alloc: Global, depth: usize, letter: char) -> Result<Option<TopSubtree>, AllocError> {
    let mut trees = TopSubtreeBuilder::new(alloc);
    for _ in 0..depth {
        trees.open()?;
    }
    let _ = add(&mut trees, letter)?;
    for _ in 0..depth {
        let _ = trees.close()?;
    }
    Ok(trees.build())
}

/// Whether a tree is this identifier in so many lists.
fn is_nested(
    alloc: Global,
    tree: &TopSubtree,
    depth: usize,
    letter: char,
) -> Result<bool, AllocError> {
    match nested(alloc, depth, letter)? {
        Some(other) => Ok(*tree == other),
        None => Ok(false),
    }
}

/// Whether a copy of a tree is equal to it.
fn is_copied(tree: &TopSubtree) -> Result<bool, AllocError> {
    Ok(tree.clone()? == *tree)
}

/// How long a tree is when it is shown.
fn shown_len(alloc: Global, tree: &TopSubtree) -> Result<usize, AllocError> {
    let shown = format!(in alloc; "{tree:?}")?;
    Ok(shown.len())
}

/// Whether a tree is the identifier a in so many lists, and is copied, compared and shown as one.
fn is_deep(alloc: Global, tree: &TopSubtree, depth: usize) -> Result<bool, AllocError> {
    Ok(
        are_names(level(tree, 0, depth), "a")
            && is_copied(tree)?
            && !is_nested(alloc, tree, depth, 'b')?
            && !is_nested(alloc, tree, depth.saturating_sub(1), 'a')?
            && shown_len(alloc, tree)? > depth,
    )
}

/// Whether the identifier a in so many lists is a tree, and is such a one.
fn is_tree(alloc: Global, depth: usize) -> Result<bool, AllocError> {
    match nested(alloc, depth, 'a')? {
        Some(tree) => is_deep(alloc, &tree, depth),
        None => Ok(false),
    }
}

#[test]
fn a_deep_tree_needs_no_stack(rt: HostRuntime) -> Result<(), Fail> {
    assert!(rt; is_tree(rt.alloc(), DEPTH)?);
    Ok(())
}
