//! The variants of enums.

use crate::items::{Items, ReadEnum};
use crate::pieces::{End, skip_piece};
use crate::reader::Reader;
use crate::tokens::Token;
use item_tree::{FileAstId, Name, Seq};

/// A variant of an enum, and whether it has a constructor in values.
#[derive(Drop)]
pub struct ReadVariant {
    pub name: Name,
    pub value_ctor: bool,
}

/// Takes a variant's fields and the comma behind them.
fn skip_fields(reader: &mut Reader) {
    if matches!(reader.peek(0), Token::Mark('(' | '{')) {
        skip_piece(reader, End::Bracket);
    }
    reader.comma();
}

/// Adds the variants in the braces of an enum. One with named fields has no constructor in values.
fn add_variants(reader: &mut Reader, variants: &mut Seq<ReadVariant>) {
    for _ in 0..reader.left() {
        let Token::Name(name) = reader.peek(0) else {
            break;
        };
        reader.skip(1);
        let value_ctor = reader.peek(0) != Token::Mark('{');
        reader.keep(variants.push(ReadVariant { name, value_ctor }));
        skip_fields(reader);
    }
    reader.expect('}');
}

/// Adds the variants of the enum that is the next item, from behind its opening brace on.
pub fn add_enum(reader: &mut Reader, items: &mut Items) {
    let item = items.next_number();
    let mut variants = Seq::from_vec(Vec::new(reader.alloc));
    add_variants(reader, &mut variants);
    reader.keep(items.enums.push(ReadEnum { item, variants }));
}
