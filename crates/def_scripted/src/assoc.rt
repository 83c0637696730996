//! Associated items: what stands in the braces of traits and impls.

use crate::attributes::add_attributes;
use crate::items::Items;
use crate::paths::{begins_path, name_or_none, path, visibility};
use crate::pieces::{End, skip_arguments, skip_piece};
use crate::reader::Reader;
use crate::tokens::{Keyword, Token};
use def_oracle::{AssocItem, AssocItemKind, AssocList};
use item_tree::{FileAstId, ModPath, Name, Seq, SyntaxContext};

/// The items of the trait or the impl that is this item of its file.
#[derive(Drop)]
pub struct ReadAssoc {
    pub item: FileAstId,
    pub list: AssocList,
}

/// The name of an item that a word begins, if it has one, with what stands behind it.
fn named(reader: &mut Reader, end: End) -> Option<Name> {
    reader.skip(1);
    let name = name_or_none(reader);
    skip_piece(reader, end);
    name
}

/// A call from its mark on, of the macro that its path names.
fn call(reader: &mut Reader, path: Option<ModPath>) -> AssocItemKind {
    reader.expect('!');
    skip_arguments(reader);
    AssocItemKind::MacroCall {
        path,
        ctxt: SyntaxContext(0),
    }
}

/// A call whose path is missing: `_` stands in its place.
fn call_of_none(reader: &mut Reader) -> AssocItemKind {
    reader.skip(1);
    call(reader, None)
}

/// A call with its path.
fn call_of_path(reader: &mut Reader) -> AssocItemKind {
    let path = path(reader);
    call(reader, Some(path))
}

/// An item that cannot be an associated one, which is not read.
fn other(reader: &mut Reader, keyword: Keyword) -> AssocItemKind {
    match keyword {
        Keyword::Enum
        | Keyword::Extern
        | Keyword::Impl
        | Keyword::Macro
        | Keyword::MacroRules
        | Keyword::Mod
        | Keyword::Static
        | Keyword::Struct
        | Keyword::Trait
        | Keyword::Union
        | Keyword::Use => skip_piece(reader, End::SemicolonOrBody),
        _ => reader.stop(),
    }
    AssocItemKind::Other
}

/// What the item is that begins here.
fn kind(reader: &mut Reader) -> AssocItemKind {
    match reader.peek(0) {
        Token::Word(Keyword::Fn) => AssocItemKind::Fn(named(reader, End::SemicolonOrBody)),
        Token::Word(Keyword::Type) => AssocItemKind::TypeAlias(named(reader, End::Semicolon)),
        Token::Word(Keyword::Const) => AssocItemKind::Const(named(reader, End::Semicolon)),
        Token::Word(Keyword::Underscore) => call_of_none(reader),
        token if begins_path(token) => call_of_path(reader),
        Token::Word(keyword) => other(reader, keyword),
        _ => {
            reader.stop();
            AssocItemKind::Other
        }
    }
}

/// Adds the item that begins here, with its attributes. Its visibility says nothing.
fn add_item(reader: &mut Reader, items: &mut Items, list: &mut Seq<AssocItem>) {
    add_attributes(reader, &mut items.attrs);
    let _ = visibility(reader);
    let kind = kind(reader);
    let item = AssocItem {
        ast_id: items.take_number(),
        attrs: items.take_attrs(),
        kind,
    };
    reader.keep(list.push(item));
}

/// Adds the items up to the closing brace, and takes it.
fn add_items(reader: &mut Reader, items: &mut Items, list: &mut Seq<AssocItem>) {
    for _ in 0..reader.left() {
        if reader.is_closed() {
            break;
        }
        add_item(reader, items, list);
    }
    reader.expect('}');
}

/// Adds the items of a trait or an impl, which stand in braces. A semicolon stands for none.
pub fn add_assoc(reader: &mut Reader, items: &mut Items, item: FileAstId, is_alias: bool) {
    let mut list = Seq::from_vec(Vec::new(reader.alloc));
    if reader.takes(Token::Mark('{')) {
        add_items(reader, items, &mut list);
    } else {
        reader.expect(';');
    }
    let list = AssocList {
        is_alias,
        items: list,
    };
    reader.keep(items.assoc.push(ReadAssoc { item, list }));
}
