//! Attributes.
ghost use Rattle.std.specs.Prelude.{◌≡◌, ◌==◌, [], length, slice_get, option_map};
ghost use Rattle.std.specs.List.{filter_map};
ghost use Rattle.std.specs.Option.{option_copied};
ghost use Rattle.std.specs.Iterator.{YieldsFirstBy, at_most};
ghost use Rattle.item_tree.specs.Lists.{is_there};
ghost use Rattle.item_tree.specs.Attrs.{has_key, by_key, text_of, tokens_of, first_text, iter_after, attrs_in, cfg_in};

use crate::mod_path::ModPath;
use crate::tt::TopSubtree;
use std::marker::Model;
use std::slice;
use tree_ids::{AttrId, CfgExpr, Name, Seq, SyntaxContext, Text};

/// What stands behind an attribute's path.
#[derive(Drop)]
pub enum AttrInput {
    /// The text of a literal, without quotes and escapes.
    Str(Text),
    TokenTree(TopSubtree),
}

/// An attribute, with its list of paths where its arguments are one.
#[derive(Drop)]
pub struct Attr {
    pub path: ModPath,
    pub input: Option<AttrInput>,
    pub ctxt: SyntaxContext,
    pub paths: Option<Seq<(ModPath, SyntaxContext)>>,
}

/// The attributes of an item, in order.
#[derive(Drop)]
pub struct Attrs {
    pub list: Seq<Attr>,
}

/// The attributes of an item, and whether the item is compiled.
#[derive(Drop)]
pub enum AttrsOrCfg {
    Enabled(Attrs),
    CfgDisabled(CfgExpr, Attrs),
}

impl Attr {
    /// Whether the path is this name alone.
    pub fn has_key(&self, key: Name) -> bool
        ensures { result ≡ has_key key self.now }
    {
        match self.path.as_ident() {
            Some(name) => name == key,
            None => false,
        }
    }

    /// The text of the literal, if there is one.
    pub fn text(&self) -> Option<&str>
        ensures { option_map (λ t. t.now) result ≡ text_of self.now }
    {
        match &self.input {
            Some(AttrInput::Str(text)) => Some(text.as_str()),
            _ => None,
        }
    }

    /// The token trees, if there are any.
    pub fn tokens(&self) -> Option<&TopSubtree>
        ensures { option_map (λ t. t.now) result ≡ tokens_of self.now }
    {
        match &self.input {
            Some(AttrInput::TokenTree(tokens)) => Some(tokens),
            _ => None,
        }
    }
}

impl Attrs {
    /// The attributes, in order.
    pub fn as_slice(&self) -> &[Attr]
        ensures { result.now ≡ self.now.list }
    {
        self.list.as_slice()
    }

    /// The number of attributes.
    pub fn len(&self) -> usize
        ensures { result ≡ length self.now.list }
    {
        self.list.len()
    }

    /// Whether there is no attribute.
    pub fn is_empty(&self) -> bool
        ensures { result ≡ (length self.now.list == 0) }
    {
        self.list.is_empty()
    }

    /// The attribute of this number, if there is one.
    pub fn get(&self, id: AttrId) -> Option<&Attr>
        ensures { option_copied result ≡ slice_get self.now.list id.0 }
    {
        self.list.get(id.0)
    }

    /// The attributes whose path is this name alone.
    pub fn by_key(&self, key: Name) -> AttrQuery<'_>
        ensures { result ≡ by_key key self.now.list }
    {
        AttrQuery {
            attrs: self.list.as_slice(),
            key,
        }
    }

    /// The attributes behind this one, or all, with their numbers.
    pub fn iter_after(&self, after: Option<AttrId>) -> AttrsAfter<'_>
        ensures { result ≡ iter_after after self.now.list }
    {
        let next = match after {
            Some(id) => id.0.saturating_add(1),
            None => 0,
        };
        AttrsAfter {
            attrs: self.list.as_slice(),
            next,
        }
    }
}

impl AttrsOrCfg {
    /// The attributes, whether the item is compiled or not.
    pub fn attrs(&self) -> &Attrs
        ensures { result.now ≡ attrs_in self.now }
    {
        match self {
            AttrsOrCfg::Enabled(attrs) => attrs,
            AttrsOrCfg::CfgDisabled(_, attrs) => attrs,
        }
    }

    /// The condition that is not met, where the item is not compiled.
    pub fn disabled_by(&self) -> Option<CfgExpr>
        ensures { result ≡ cfg_in self.now }
    {
        match self {
            AttrsOrCfg::Enabled(_) => None,
            AttrsOrCfg::CfgDisabled(cfg, _) => Some(*cfg),
        }
    }
}

/// The attributes of one name. A contract sees their list.
#[derive(Drop)]
pub struct AttrQuery<'a> {
    attrs: &'a [Attr],
    key: Name,
}

impl<'a> Model for AttrQuery<'a> {
    ghost use Rattle.std.specs.Coded.{coded_list};
    ghost use Rattle.item_tree.specs.contracts.attrs.Attr as attr;
    ghost use Rattle.std.specs.Prelude.{List};
    ghost use Rattle.item_tree.specs.declared.attrs.Attr.{Attr};
    ghost use Rattle.item_tree.specs.Attrs.{by_key};

    ghost Value = { List Attr };

    ghost coded = { coded_list attr.the_row.coded };

    ghost view = { λ q. by_key q.key q.attrs.now };
}

impl<'a> AttrQuery<'a> {
    /// No attribute.
    pub(crate) fn none(key: Name) -> AttrQuery<'a>
        ensures { result ≡ [] }
    {
        AttrQuery { attrs: &[], key }
    }

    /// Whether there is one.
    pub fn exists(&self) -> bool
        ensures { result ≡ is_there self.now }
    {
        for attr in self.attrs {
            if attr.has_key(self.key) {
                return true;
            }
        }
        false
    }

    /// The text of the first that has one.
    pub fn string_value(&self) -> Option<&'a str>
        ensures { option_map (λ t. t.now) result ≡ first_text self.now }
    {
        for attr in self.attrs {
            if attr.has_key(self.key) {
                if let Some(text) = attr.text() {
                    return Some(text);
                }
            }
        }
        None
    }

    /// The token trees of those that have one, in order.
    pub fn tt_values(&self) -> TtValues<'a>
        ensures { result ≡ filter_map tokens_of self.now }
    {
        TtValues {
            rest: self.attrs.iter(),
            key: self.key,
        }
    }
}

/// The token trees of the attributes of one name.
#[derive(Drop)]
pub struct TtValues<'a> {
    rest: slice::Iter<'a, Attr>,
    key: Name,
}

impl<'a> Model for TtValues<'a> {
    ghost use Rattle.std.specs.Coded.{coded_list};
    ghost use Rattle.std.specs.Prelude.{List};
    ghost use Rattle.std.specs.Slice.Iter.{iter_rest};
    ghost use Rattle.item_tree.specs.TokenTrees.{TokenTrees, trees_code};
    ghost use Rattle.item_tree.specs.Attrs.{tt_values};

    ghost Value = { List TokenTrees };

    ghost coded = { coded_list trees_code };

    ghost view = { λ v. tt_values v.key (iter_rest v.rest) };
}

impl<'a> Iterator for TtValues<'a> {
    type Item = &'a TopSubtree;

    ghost next_gives = { YieldsFirstBy (λ x. x.now) (λ v. v) };

    ghost remaining = { λ v. at_most (length v) };

    fn next(&mut self) -> Option<&'a TopSubtree> {
        while let Some(attr) = self.rest.next() {
            if attr.has_key(self.key) {
                if let Some(tokens) = attr.tokens() {
                    return Some(tokens);
                }
            }
        }
        None
    }
}

/// Attributes with their numbers.
#[derive(Drop)]
pub struct AttrsAfter<'a> {
    attrs: &'a [Attr],
    next: usize,
}

impl<'a> Model for AttrsAfter<'a> {
    ghost use Rattle.std.specs.Coded.{coded_list, coded×};
    ghost use Rattle.item_tree.specs.contracts.attrs.Attr as attr;
    ghost use Rattle.tree_ids.specs.contracts.ids.AttrId as attr_id;
    ghost use Rattle.std.specs.Prelude.{List};
    ghost use Rattle.item_tree.specs.declared.attrs.Attr.{Attr};
    ghost use Rattle.tree_ids.specs.declared.ids.AttrId.{AttrId};
    ghost use Rattle.item_tree.specs.Attrs.{numbered_at};

    ghost Value = { List (AttrId × Attr) };

    ghost coded = { coded_list (coded× attr_id.the_row.coded attr.the_row.coded) };

    ghost view = { λ v. numbered_at v.next v.attrs.now };
}

impl<'a> Iterator for AttrsAfter<'a> {
    type Item = (AttrId, &'a Attr);

    ghost next_gives = { YieldsFirstBy (λ x. (x.0, x.1.now)) (λ v. v) };

    ghost remaining = { λ v. at_most (length v) };

    fn next(&mut self) -> Option<(AttrId, &'a Attr)> {
        let attr = self.attrs.get(self.next)?;
        let id = AttrId(self.next);
        self.next += 1;
        Some((id, attr))
    }
}
