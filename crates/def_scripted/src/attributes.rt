//! Attributes.

use crate::paths::path;
use crate::reader::Reader;
use crate::tokens::{Keyword, Token};
use item_tree::{
    Attr, AttrInput, Attrs, AttrsOrCfg, CfgExpr, Leaf, ModPath, Name, Seq, SyntaxContext,
    TopSubtreeBuilder,
};
use std::alloc::Global;

/// The attributes of an item or a file so far, and the condition that disables it, if one does.
#[derive(Drop)]
pub struct Written {
    pub list: Seq<Attr>,
    pub cfg: Option<CfgExpr>,
}

impl Written {
    pub fn new(alloc: Global) -> Self {
        Written {
            list: Seq::from_vec(Vec::new(alloc)),
            cfg: None,
        }
    }

    pub fn into_attrs(self) -> AttrsOrCfg {
        let Written { list, cfg } = self;
        let attrs = Attrs { list };
        match cfg {
            Some(cfg) => AttrsOrCfg::CfgDisabled(cfg, attrs),
            None => AttrsOrCfg::Enabled(attrs),
        }
    }

    /// The attributes of an item, if something stands before it.
    pub fn of_item(self) -> Option<AttrsOrCfg> {
        if self.list.is_empty() && self.cfg.is_none() {
            None
        } else {
            Some(self.into_attrs())
        }
    }
}

/// Adds a token to those of an attribute.
fn add_leaf(reader: &mut Reader, tokens: &mut TopSubtreeBuilder, leaf: Leaf) {
    reader.keep(tokens.push(leaf));
}

/// Adds names with commas between them, up to the closing parenthesis, which is taken.
fn add_names(reader: &mut Reader, tokens: &mut TopSubtreeBuilder) {
    for passed in 0..reader.left() {
        let Token::Name(name) = reader.peek(0) else {
            break;
        };
        reader.skip(1);
        if passed > 0 {
            add_leaf(reader, tokens, Leaf::Punct(','));
        }
        add_leaf(reader, tokens, Leaf::Ident(name));
        reader.comma();
    }
    reader.expect(')');
}

/// Adds the segments of a path, with two colons between them.
fn add_segments(reader: &mut Reader, tokens: &mut TopSubtreeBuilder, segments: &[Name]) {
    let mut is_due = false;
    for name in segments {
        if is_due {
            add_leaf(reader, tokens, Leaf::Punct(':'));
            add_leaf(reader, tokens, Leaf::Punct(':'));
        }
        add_leaf(reader, tokens, Leaf::Ident(*name));
        is_due = true;
    }
}

/// Adds an argument: a path, which may have names in parentheses. Answers whether it has none.
fn add_argument(
    reader: &mut Reader,
    tokens: &mut TopSubtreeBuilder,
    paths: &mut Seq<(ModPath, SyntaxContext)>,
) -> bool {
    let path = path(reader);
    add_segments(reader, tokens, path.segments.as_slice());
    reader.keep(paths.push((path, SyntaxContext(0))));
    let has_names = reader.takes(Token::Mark('('));
    if has_names {
        add_group(reader, tokens);
    }
    !has_names
}

/// Adds names in parentheses, of which the opening one is taken.
fn add_group(reader: &mut Reader, tokens: &mut TopSubtreeBuilder) {
    reader.keep(tokens.open());
    add_names(reader, tokens);
    if tokens.close().is_err() {
        reader.refuse();
    }
}

/// Adds the arguments in parentheses, with commas between them, and takes the closing one. Answers
/// whether they are paths alone.
fn add_arguments(
    reader: &mut Reader,
    tokens: &mut TopSubtreeBuilder,
    paths: &mut Seq<(ModPath, SyntaxContext)>,
) -> bool {
    let mut are_paths = true;
    for passed in 0..reader.left() {
        if matches!(reader.peek(0), Token::Mark(')') | Token::End) {
            break;
        }
        if passed > 0 {
            add_leaf(reader, tokens, Leaf::Punct(','));
        }
        if !add_argument(reader, tokens, paths) {
            are_paths = false;
        }
        reader.comma();
    }
    reader.expect(')');
    are_paths
}

/// Gives an attribute its arguments: as token trees, and as paths, where they are paths alone.
fn set_list(reader: &mut Reader, attr: &mut Attr) {
    let mut tokens = TopSubtreeBuilder::new(reader.alloc);
    let mut paths = Seq::from_vec(Vec::new(reader.alloc));
    let are_paths = add_arguments(reader, &mut tokens, &mut paths);
    if let Some(tokens) = tokens.build() {
        attr.input = Some(AttrInput::TokenTree(tokens));
    }
    if are_paths {
        attr.paths = Some(paths);
    }
}

/// Gives an attribute the text of a number.
fn set_text(reader: &mut Reader, attr: &mut Attr, number: usize) {
    match reader.text(number) {
        Ok(text) => attr.input = Some(AttrInput::Str(text)),
        Err(_) => reader.refuse(),
    }
}

/// Gives an attribute what stands behind its name.
fn set_arguments(reader: &mut Reader, attr: &mut Attr) {
    match (reader.peek(0), reader.peek(1)) {
        (Token::Mark('='), Token::Text(number)) => {
            reader.skip(2);
            set_text(reader, attr, number);
        }
        (Token::Mark('('), _) => {
            reader.skip(1);
            set_list(reader, attr);
        }
        _ => {}
    }
}

/// An attribute that is no condition.
fn attribute(reader: &mut Reader) -> Attr {
    let mut attr = Attr {
        path: path(reader),
        input: None,
        ctxt: SyntaxContext(0),
        paths: None,
    };
    set_arguments(reader, &mut attr);
    attr
}

/// Adds the condition in parentheses behind `cfg`, of which there is one at most.
fn add_cfg(reader: &mut Reader, written: &mut Written) {
    match (reader.peek(0), reader.peek(1)) {
        (Token::Mark('('), Token::Number(cfg)) if written.cfg.is_none() => {
            reader.skip(2);
            written.cfg = Some(CfgExpr(cfg));
            reader.expect(')');
        }
        _ => reader.stop(),
    }
}

/// Adds what stands in the brackets of an attribute: `cfg(7)`, that the condition of this number is
/// not met, or any other attribute.
pub fn add_attribute(reader: &mut Reader, written: &mut Written) {
    if reader.takes(Token::Word(Keyword::Cfg)) {
        add_cfg(reader, written);
    } else {
        let attr = attribute(reader);
        reader.keep(written.list.push(attr));
    }
    reader.expect(']');
}

/// Adds the attributes before an item.
pub fn add_attributes(reader: &mut Reader, written: &mut Written) {
    for _ in 0..reader.left() {
        if !reader.takes_both(Token::Mark('#'), Token::Mark('[')) {
            break;
        }
        add_attribute(reader, written);
    }
}
