//! What items are.

use crate::assoc::add_assoc;
use crate::imports::imports;
use crate::items::Items;
use crate::paths::{alias, begins_path, name_or_none, path, visibility};
use crate::pieces::{End, skip_arguments, skip_piece};
use crate::reader::Reader;
use crate::tokens::{Keyword, Token};
use crate::variants::add_enum;
use item_tree::{
    CtorVisibility, ExpandTo, ModContents, ModItemKind, Name, RawVisibility, Seq, SyntaxContext,
    sym,
};

/// Adds an item. A module in braces and an extern block have no items in them yet.
fn add(reader: &mut Reader, items: &mut Items, kind: ModItemKind) {
    reader.keep(items.push(kind));
}

/// What a module holds: it stands in a file of its own or in braces.
fn contents(reader: &mut Reader) -> ModContents {
    match reader.peek(0) {
        Token::Mark(';') => ModContents::Outline,
        Token::Mark('{') => ModContents::Inline(Seq::from_vec(Vec::new(reader.alloc))),
        _ => {
            reader.stop();
            ModContents::Outline
        }
    }
}

fn module(reader: &mut Reader, items: &mut Items) {
    let name = reader.name();
    let contents = contents(reader);
    reader.skip(1);
    let visibility = items.take_visibility();
    add(
        reader,
        items,
        ModItemKind::Mod {
            name,
            visibility,
            contents,
        },
    );
}

fn use_item(reader: &mut Reader, items: &mut Items) {
    let imports = imports(reader);
    let visibility = items.take_visibility();
    add(
        reader,
        items,
        ModItemKind::Use {
            visibility,
            imports,
        },
    );
}

/// An extern crate, from behind its name on.
fn extern_crate(reader: &mut Reader, items: &mut Items, name: Name) {
    let alias = alias(reader);
    reader.expect(';');
    let visibility = items.take_visibility();
    add(
        reader,
        items,
        ModItemKind::ExternCrate {
            name,
            visibility,
            alias,
        },
    );
}

/// An extern crate or an extern block.
fn extern_item(reader: &mut Reader, items: &mut Items) {
    match (reader.peek(0), reader.peek(1)) {
        (Token::Mark('{'), _) => {
            reader.skip(1);
            let children = Seq::from_vec(Vec::new(reader.alloc));
            add(reader, items, ModItemKind::ExternBlock { children });
        }
        (Token::Word(Keyword::Crate), Token::Word(Keyword::SelfWord)) => {
            reader.skip(2);
            extern_crate(reader, items, sym::SELF);
        }
        (Token::Word(Keyword::Crate), Token::Name(name)) => {
            reader.skip(2);
            extern_crate(reader, items, name);
        }
        _ => reader.stop(),
    }
}

/// Takes what stands before the braces of an impl. Answers whether the word `for` is there.
fn skip_impl_head(reader: &mut Reader) -> bool {
    let mut is_trait_impl = false;
    for _ in 0..reader.left() {
        match reader.peek(0) {
            Token::Mark('{') => break,
            Token::Word(Keyword::For) => is_trait_impl = true,
            _ => {}
        }
        reader.skip(1);
    }
    is_trait_impl
}

/// An impl, of a trait where the word `for` stands before its braces.
fn impl_item(reader: &mut Reader, items: &mut Items) {
    let is_trait_impl = skip_impl_head(reader);
    let item = items.next_number();
    add(reader, items, ModItemKind::Impl { is_trait_impl });
    add_assoc(reader, items, item, false);
}

/// Takes what stands between the name of a trait and its braces, or its semicolon.
fn skip_trait_head(reader: &mut Reader) {
    for _ in 0..reader.left() {
        if matches!(reader.peek(0), Token::Mark('{' | ';')) {
            break;
        }
        reader.skip(1);
    }
}

/// A trait, which is an alias where `=` stands behind its name.
fn trait_item(reader: &mut Reader, items: &mut Items) {
    let name = reader.name();
    let is_alias = reader.peek(0) == Token::Mark('=');
    skip_trait_head(reader);
    let item = items.next_number();
    let visibility = items.take_visibility();
    add(reader, items, ModItemKind::Trait { name, visibility });
    add_assoc(reader, items, item, is_alias);
}

/// A macro by rules, from behind its first word on.
fn macro_rules(reader: &mut Reader, items: &mut Items) {
    reader.expect('!');
    let name = reader.name();
    skip_piece(reader, End::SemicolonOrBody);
    add(reader, items, ModItemKind::MacroRules { name });
}

/// A macro call.
fn macro_call(reader: &mut Reader, items: &mut Items) {
    let path = path(reader);
    reader.expect('!');
    skip_arguments(reader);
    add(
        reader,
        items,
        ModItemKind::MacroCall {
            path,
            expand_to: ExpandTo::Items,
            ctxt: SyntaxContext(0),
        },
    );
}

/// Adds the visibilities of the fields in parentheses, each of whose types is one name, and takes
/// what closes the struct.
fn add_fields(reader: &mut Reader, fields: &mut Seq<RawVisibility>) {
    for _ in 0..reader.left() {
        if reader.is_closed() {
            break;
        }
        let visibility = visibility(reader);
        reader.keep(fields.push(visibility));
        reader.name();
        reader.comma();
    }
    reader.expect(')');
    reader.expect(';');
}

/// The constructor of a struct with fields in parentheses.
fn tuple_constructor(reader: &mut Reader) -> CtorVisibility {
    let mut fields = Seq::from_vec(Vec::new(reader.alloc));
    add_fields(reader, &mut fields);
    CtorVisibility::ValueNsCtorWithMinVis(fields)
}

/// The constructor of a struct without fields, which is as visible as it.
fn unit_constructor(reader: &mut Reader, visibility: &RawVisibility) -> CtorVisibility {
    match visibility.clone() {
        Ok(visibility) => CtorVisibility::ValueNsCtorWithVis(visibility),
        Err(_) => {
            reader.refuse();
            CtorVisibility::NoValueNsCtor
        }
    }
}

/// The constructor of a struct: as visible as it without fields, as the least visible of its fields
/// where these have no names, and else none.
fn constructor(reader: &mut Reader, visibility: &RawVisibility) -> CtorVisibility {
    match reader.peek(0) {
        Token::Mark(';') => {
            reader.skip(1);
            unit_constructor(reader, visibility)
        }
        Token::Mark('(') => {
            reader.skip(1);
            tuple_constructor(reader)
        }
        Token::Mark('{') => {
            skip_piece(reader, End::Bracket);
            CtorVisibility::NoValueNsCtor
        }
        _ => {
            reader.stop();
            CtorVisibility::NoValueNsCtor
        }
    }
}

fn struct_item(reader: &mut Reader, items: &mut Items) {
    let name = reader.name();
    let ctor = constructor(reader, &items.visibility);
    let visibility = items.take_visibility();
    add(
        reader,
        items,
        ModItemKind::Struct {
            name,
            visibility,
            ctor,
        },
    );
}

fn const_item(reader: &mut Reader, items: &mut Items) {
    let name = name_or_none(reader);
    skip_piece(reader, End::Semicolon);
    let visibility = items.take_visibility();
    add(reader, items, ModItemKind::Const { name, visibility });
}

/// An item that is no more than a visibility and a name.
fn plain_kind(keyword: Keyword, name: Name, visibility: RawVisibility) -> Option<ModItemKind> {
    match keyword {
        Keyword::Union => Some(ModItemKind::Union { name, visibility }),
        Keyword::Enum => Some(ModItemKind::Enum { name, visibility }),
        Keyword::Fn => Some(ModItemKind::Function { name, visibility }),
        Keyword::Macro => Some(ModItemKind::Macro2 { name, visibility }),
        Keyword::Static => Some(ModItemKind::Static { name, visibility }),
        Keyword::Type => Some(ModItemKind::TypeAlias { name, visibility }),
        _ => None,
    }
}

/// Takes what stands behind the name of such an item: of an enum, its variants.
fn skip_body(reader: &mut Reader, keyword: Keyword, items: &mut Items) {
    match keyword {
        Keyword::Enum if reader.takes(Token::Mark('{')) => add_enum(reader, items),
        Keyword::Static | Keyword::Type => skip_piece(reader, End::Semicolon),
        _ => skip_piece(reader, End::SemicolonOrBody),
    }
}

/// An item that is no more than a visibility and a name, from its name on.
fn plain_item(reader: &mut Reader, keyword: Keyword, items: &mut Items) {
    let begin = reader.read;
    let name = reader.name();
    skip_body(reader, keyword, items);
    let visibility = items.take_visibility();
    match plain_kind(keyword, name, visibility) {
        Some(kind) => add(reader, items, kind),
        None => reader.stop_at(begin),
    }
}

/// An item that a word begins, from behind that word on.
fn item_of(reader: &mut Reader, keyword: Keyword, items: &mut Items) {
    match keyword {
        Keyword::Mod => module(reader, items),
        Keyword::Use => use_item(reader, items),
        Keyword::Extern => extern_item(reader, items),
        Keyword::Impl => impl_item(reader, items),
        Keyword::Trait => trait_item(reader, items),
        Keyword::MacroRules => macro_rules(reader, items),
        Keyword::Struct => struct_item(reader, items),
        Keyword::Const => const_item(reader, items),
        _ => plain_item(reader, keyword, items),
    }
}

/// Adds the item behind a visibility. What begins a path is a macro call.
pub fn add_kind(reader: &mut Reader, items: &mut Items) {
    match reader.peek(0) {
        token if begins_path(token) => macro_call(reader, items),
        Token::Word(keyword) => {
            reader.skip(1);
            item_of(reader, keyword, items);
        }
        _ => reader.stop(),
    }
}
