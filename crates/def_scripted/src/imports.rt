//! The imports of a `use`.

use crate::paths::{add_segments, alias, empty_path, path};
use crate::reader::Reader;
use crate::tokens::{Keyword, Token};
use item_tree::{ImportKind, ModPath, PathKind, Seq, UseImport};

/// The imports of a `use`, which are numbered by their places.
type Imports = Seq<UseImport>;

/// Adds the import of what a path means, or of that in types alone, with its alias if it has one.
fn add_one(reader: &mut Reader, path: ModPath, kind: ImportKind, imports: &mut Imports) {
    let alias = alias(reader);
    match u32::try_from(imports.len()) {
        Ok(idx) => reader.keep(imports.push(UseImport {
            idx,
            path,
            kind,
            alias,
        })),
        Err(_) => reader.stop(),
    }
}

/// The path that stands before braces, once more.
fn prefix_again(reader: &mut Reader, prefix: &ModPath) -> ModPath {
    match prefix.clone() {
        Ok(path) => path,
        Err(_) => {
            reader.refuse();
            empty_path(reader, PathKind::Plain)
        }
    }
}

/// The path of a member of braces. Where no path stands before these, it has a path of its own.
fn member_path(reader: &mut Reader, prefix: &ModPath) -> ModPath {
    if prefix.segments.is_empty() && matches!(prefix.kind, PathKind::Plain) {
        return path(reader);
    }
    let mut path = prefix_again(reader, prefix);
    add_segments(reader, &mut path.segments);
    path
}

/// Adds the import of a path: a glob where `::*` stands behind it.
fn add_path(reader: &mut Reader, path: ModPath, imports: &mut Imports) {
    let kind = if reader.takes_both(Token::Colons, Token::Mark('*')) {
        ImportKind::Glob
    } else {
        ImportKind::Plain
    };
    add_one(reader, path, kind, imports);
}

/// Adds an import that stands in braces behind a path: `self`, a glob, or a path that goes on.
fn add_member(reader: &mut Reader, prefix: &ModPath, imports: &mut Imports) {
    if reader.takes(Token::Word(Keyword::SelfWord)) {
        let path = prefix_again(reader, prefix);
        add_one(reader, path, ImportKind::TypeOnly, imports);
    } else if reader.takes(Token::Mark('*')) {
        let path = prefix_again(reader, prefix);
        add_one(reader, path, ImportKind::Glob, imports);
    } else {
        let path = member_path(reader, prefix);
        add_path(reader, path, imports);
    }
}

/// Adds the imports in braces behind a path, and takes the closing brace. They hold no further
/// braces.
fn add_members(reader: &mut Reader, prefix: &ModPath, imports: &mut Imports) {
    for _ in 0..reader.left() {
        if reader.is_closed() {
            break;
        }
        add_member(reader, prefix, imports);
        reader.comma();
    }
    reader.expect('}');
}

/// Adds the imports of a `use` behind its path.
fn add_tree(reader: &mut Reader, path: ModPath, imports: &mut Imports) {
    if reader.takes_both(Token::Colons, Token::Mark('{')) {
        add_members(reader, &path, imports);
    } else {
        add_path(reader, path, imports);
    }
}

/// Adds the imports of a `use`. One that begins with `*` or braces has no path before these.
fn add_all(reader: &mut Reader, imports: &mut Imports) {
    if reader.takes(Token::Mark('*')) {
        let path = empty_path(reader, PathKind::Plain);
        add_one(reader, path, ImportKind::Glob, imports);
    } else if reader.takes(Token::Mark('{')) {
        let path = empty_path(reader, PathKind::Plain);
        add_members(reader, &path, imports);
    } else {
        let path = path(reader);
        add_tree(reader, path, imports);
    }
}

/// The imports of a `use`, with its semicolon.
pub fn imports(reader: &mut Reader) -> Imports {
    let mut imports = Seq::from_vec(Vec::new(reader.alloc));
    add_all(reader, &mut imports);
    reader.expect(';');
    imports
}
