//! Paths, visibilities and aliases.

use crate::reader::Reader;
use crate::tokens::{Keyword, Token};
use item_tree::{Crate, ImportAlias, ModPath, Name, PathKind, RawVisibility, Seq};

/// How many modules `self` or `super`, which comes, goes up, with each `super` behind it.
fn levels(reader: &mut Reader, first: u8) -> u8 {
    reader.skip(1);
    let mut levels = first;
    for _ in 0..reader.left() {
        if !reader.takes_both(Token::Colons, Token::Word(Keyword::Super)) {
            break;
        }
        levels = levels.saturating_add(1);
    }
    levels
}

/// The root of the crate of the number that has to come.
fn root_of(reader: &mut Reader) -> PathKind {
    match reader.peek(0) {
        Token::Number(krate) => {
            reader.skip(1);
            PathKind::DollarCrate(Crate(krate))
        }
        _ => {
            reader.stop();
            PathKind::Crate
        }
    }
}

/// Whether a path begins with a token.
pub fn begins_path(token: Token) -> bool {
    matches!(
        token,
        Token::Colons
            | Token::Mark('$')
            | Token::Name(_)
            | Token::Word(Keyword::Crate | Keyword::SelfWord | Keyword::Super)
    )
}

/// Where a path begins. `$1` is `$crate` in a macro of crate 1.
fn path_kind(reader: &mut Reader) -> PathKind {
    match reader.peek(0) {
        Token::Word(Keyword::Crate) => {
            reader.skip(1);
            PathKind::Crate
        }
        Token::Word(Keyword::SelfWord) => PathKind::Super(levels(reader, 0)),
        Token::Word(Keyword::Super) => PathKind::Super(levels(reader, 1)),
        Token::Mark('$') => {
            reader.skip(1);
            root_of(reader)
        }
        Token::Colons => PathKind::Abs,
        _ => PathKind::Plain,
    }
}

/// Adds the segments that stand behind colons.
fn more_segments(reader: &mut Reader, segments: &mut Seq<Name>) {
    for _ in 0..reader.left() {
        let (Token::Colons, Token::Name(name)) = (reader.peek(0), reader.peek(1)) else {
            break;
        };
        reader.skip(2);
        reader.keep(segments.push(name));
    }
}

/// Adds the segment that has to come, and those behind it.
pub fn add_segments(reader: &mut Reader, segments: &mut Seq<Name>) {
    let name = reader.name();
    reader.keep(segments.push(name));
    more_segments(reader, segments);
}

/// The name that has to come, or `_`, which stands for none.
pub fn name_or_none(reader: &mut Reader) -> Option<Name> {
    if reader.takes(Token::Word(Keyword::Underscore)) {
        None
    } else {
        Some(reader.name())
    }
}

/// The path of no segments.
pub fn empty_path(reader: &Reader, kind: PathKind) -> ModPath {
    ModPath {
        kind,
        segments: Seq::from_vec(Vec::new(reader.alloc)),
    }
}

/// Adds the segments of a path, of which a plain one has one or more.
fn add_rest(reader: &mut Reader, path: &mut ModPath) {
    match path.kind {
        PathKind::Plain => add_segments(reader, &mut path.segments),
        _ => more_segments(reader, &mut path.segments),
    }
}

/// A path.
pub fn path(reader: &mut Reader) -> ModPath {
    let kind = path_kind(reader);
    let mut path = empty_path(reader, kind);
    add_rest(reader, &mut path);
    path
}

/// The visibility that stands in parentheses behind `pub`, up to the closing one.
fn restricted(reader: &mut Reader) -> RawVisibility {
    match reader.peek(0) {
        Token::Word(Keyword::Crate) => {
            reader.skip(1);
            RawVisibility::PubCrate
        }
        Token::Word(Keyword::SelfWord) => {
            reader.skip(1);
            RawVisibility::PubSelf
        }
        Token::Word(Keyword::In | Keyword::Super) => {
            reader.takes(Token::Word(Keyword::In));
            RawVisibility::In(path(reader))
        }
        _ => {
            reader.stop();
            RawVisibility::PubSelf
        }
    }
}

/// The visibility of an item or a field; none written is that of `self`.
pub fn visibility(reader: &mut Reader) -> RawVisibility {
    if !reader.takes(Token::Word(Keyword::Pub)) {
        return RawVisibility::PubSelf;
    }
    if !reader.takes(Token::Mark('(')) {
        return RawVisibility::Public;
    }
    let visibility = restricted(reader);
    reader.expect(')');
    visibility
}

/// The alias behind `as`. `_` is no name.
fn alias_name(reader: &mut Reader) -> Option<ImportAlias> {
    match reader.peek(0) {
        Token::Name(name) => Some(ImportAlias::Alias(name)),
        Token::Word(Keyword::Underscore) => Some(ImportAlias::Underscore),
        _ => {
            reader.stop();
            None
        }
    }
}

/// The alias of an import or an extern crate, if it has one.
pub fn alias(reader: &mut Reader) -> Option<ImportAlias> {
    if !reader.takes(Token::Word(Keyword::As)) {
        return None;
    }
    let alias = alias_name(reader);
    reader.skip(1);
    alias
}
