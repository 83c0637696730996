//! Item trees of scripted files.

use crate::attributes::{add_attribute, add_attributes};
use crate::fault::{ReadFault, Stop};
use crate::items::{Items, ReadFile};
use crate::kinds::add_kind;
use crate::paths::visibility;
use crate::reader::Reader;
use crate::tokens::{Token, add_tokens};
use def_interner::Interner;
use std::alloc::Global;

/// Adds the item that begins here, with its attributes.
fn add_item(reader: &mut Reader, items: &mut Items) {
    add_attributes(reader, &mut items.attrs);
    items.visibility = visibility(reader);
    add_kind(reader, items);
}

/// Adds an attribute of the file, which stands before all items.
fn add_file_attribute(reader: &mut Reader, items: &mut Items) {
    if items.nodes.is_empty() {
        reader.skip(3);
        add_attribute(reader, &mut items.file);
    } else {
        reader.stop();
    }
}

/// Ends the last item that is open.
fn close(reader: &mut Reader, items: &mut Items) {
    match items.open.pop() {
        Some(_) => reader.skip(1),
        None => reader.stop(),
    }
}

/// Adds what begins here: an item, the end of one, or, before all items, an attribute of the file.
fn add_next(reader: &mut Reader, items: &mut Items) {
    match (reader.peek(0), reader.peek(1), reader.peek(2)) {
        (Token::Mark('#'), Token::Mark('!'), Token::Mark('[')) => add_file_attribute(reader, items),
        (Token::Mark('}'), _, _) => close(reader, items),
        _ => add_item(reader, items),
    }
}

/// Adds all that stands in a file. Each turn takes one token or more, or reading stops.
fn add_all(reader: &mut Reader, items: &mut Items) {
    for _ in 0..reader.left() {
        if reader.left() == 0 {
            break;
        }
        add_next(reader, items);
    }
    if reader.left() > 0 || !items.open.is_empty() {
        reader.stop();
    }
}

/// The tree of a file, and the variants of its enums. A fault of the tree is one of the whole text.
fn file_of(reader: &mut Reader) -> Result<ReadFile, Stop> {
    let mut items = Items::new(reader.alloc);
    add_all(reader, &mut items);
    match reader.stopped {
        Some(stop) => Err(stop),
        None => {
            reader.read = 0;
            items.into_file()
        }
    }
}

/// What was read of a text of so many bytes.
fn answer(reader: &mut Reader, length: usize) -> Result<ReadFile, ReadFault> {
    match file_of(reader) {
        Ok(file) => Ok(file),
        Err(Stop::Memory) => Err(ReadFault::Memory),
        Err(Stop::Here) => Err(ReadFault::Byte(reader.byte(length))),
    }
}

/// Reads the text of a file.
pub fn read(alloc: Global, session: &mut Interner, text: &str) -> Result<ReadFile, ReadFault> {
    let mut reader = Reader::new(alloc);
    match (add_tokens(session, text, &mut reader), reader.stopped) {
        (_, Some(_)) => Err(ReadFault::Memory),
        (Some(byte), None) => Err(ReadFault::Byte(byte)),
        (None, None) => answer(&mut reader, text.len()),
    }
}
