//! Lists of a trait or an impl that are gone through.
ghost use Rattle.std.specs.Prelude.{◌≡◌, length};
ghost use Rattle.std.specs.Iterator.{YieldsFirst, at_most};
ghost use Rattle.def_assoc.specs.AssocItems.{type_aliases};

use crate::assoc::AssocItemId;
use def_ids::TypeAliasId;
use item_tree::{FileAstId, InFile, MacroCallId, Name};
use std::marker::Model;
use std::slice;

/// The type aliases of a trait that are still to come, in order.
#[derive(Drop)]
pub struct AssocTypes<'a> {
    rest: slice::Iter<'a, (Name, AssocItemId)>,
}

impl<'a> Model for AssocTypes<'a> {
    ghost use Rattle.std.specs.Prelude.{List};
    ghost use Rattle.std.specs.Coded.{coded_list};
    ghost use Rattle.std.specs.Slice.Iter.{iter_rest};
    ghost use Rattle.def_ids.specs.declared.ids.TypeAliasId.{TypeAliasId};
    ghost use Rattle.def_ids.specs.contracts.ids.TypeAliasId as type_alias_id;
    ghost use Rattle.def_assoc.specs.AssocItems.{type_aliases};

    ghost Value = { List TypeAliasId };

    ghost coded = { coded_list type_alias_id.the_row.coded };

    ghost view = { λ types. type_aliases (iter_rest types.rest) };
}

impl<'a> AssocTypes<'a> {
    /// Those of a list.
    pub(crate) fn of(items: &'a [(Name, AssocItemId)]) -> AssocTypes<'a>
        ensures { result ≡ type_aliases items.now }
    {
        AssocTypes { rest: items.iter() }
    }
}

impl<'a> Iterator for AssocTypes<'a> {
    type Item = TypeAliasId;

    ghost next_gives = { YieldsFirst (λ types. types) };

    ghost remaining = { λ types. at_most (length types) };

    fn next(&mut self) -> Option<TypeAliasId> {
        while let Some(item) = self.rest.next() {
            if let AssocItemId::TypeAlias(id) = item.1 {
                return Some(id);
            }
        }
        None
    }
}

/// The macro calls of a trait or an impl that are still to come, in order.
#[derive(Drop)]
pub struct MacroCalls<'a> {
    rest: slice::Iter<'a, (InFile<FileAstId>, MacroCallId)>,
}

impl<'a> Model for MacroCalls<'a> {
    ghost use Rattle.std.specs.Prelude.{List};
    ghost use Rattle.std.specs.Coded.{coded_list, coded×};
    ghost use Rattle.std.specs.Slice.Iter.{iter_rest};
    ghost use Rattle.tree_ids.specs.declared.ids.FileAstId.{FileAstId};
    ghost use Rattle.tree_ids.specs.declared.ids.InFile.{InFile};
    ghost use Rattle.tree_ids.specs.declared.ids.MacroCallId.{MacroCallId};
    ghost use Rattle.tree_ids.specs.contracts.ids.FileAstId as file_ast_id;
    ghost use Rattle.tree_ids.specs.contracts.ids.InFile as in_file;
    ghost use Rattle.tree_ids.specs.contracts.ids.MacroCallId as call_id;

    ghost Value = { List (InFile FileAstId × MacroCallId) };

    ghost coded = { coded_list (coded× (in_file.the_row file_ast_id.the_row).coded call_id.the_row.coded) };

    ghost view = { λ calls. iter_rest calls.rest };
}

impl<'a> MacroCalls<'a> {
    /// Those of a list.
    pub(crate) fn of(calls: &'a [(InFile<FileAstId>, MacroCallId)]) -> MacroCalls<'a>
        ensures { result ≡ calls.now }
    {
        MacroCalls { rest: calls.iter() }
    }
}

impl<'a> Iterator for MacroCalls<'a> {
    type Item = (InFile<FileAstId>, MacroCallId);

    ghost next_gives = { YieldsFirst (λ calls. calls) };

    ghost remaining = { λ calls. at_most (length calls) };

    fn next(&mut self) -> Option<(InFile<FileAstId>, MacroCallId)> {
        match self.rest.next() {
            Some(call) => Some(*call),
            None => None,
        }
    }
}
