//! The bindings of a module's scope, gone over in order.
ghost use Rattle.std.specs.Prelude.{◌≡◌, option_map};
ghost use Rattle.def_map.specs.ItemScopes.{place_of, scope_content, bound_from, entries_of, names_of};

use crate::item_scope::{ItemScope, Resolutions};
use def_bindings::{BindingTable, Namespace};
use def_ids::Def;
use def_paths::Item;
use item_tree::Name;
use std::marker::Model;

/// The names of a scope that are bound in one namespace and are still to come, with what they stand for.
#[derive(Drop)]
pub struct BoundNames<'a> {
    scope: ItemScope<'a>,
    ns: Namespace,
    next: usize,
}

impl<'a> Model for BoundNames<'a> {
    ghost use Rattle.std.specs.Prelude.{List};
    ghost use Rattle.std.specs.Coded.{coded_list, coded×};
    ghost use Rattle.tree_ids.specs.declared.name.Name.{Name};
    ghost use Rattle.tree_ids.specs.contracts.name.Name as name;
    ghost use Rattle.def_bindings.specs.contracts.bindings.Binding as binding;
    ghost use Rattle.def_bindings.specs.contracts.visibility.Visibility as vis;
    ghost use Rattle.def_sources.specs.PerNs.{Item};

    ghost Value = { List (Name × Item) };

    ghost coded = { coded_list (coded× name.the_row.coded (binding.the_row vis.the_row).coded) };

    ghost use Rattle.def_map.specs.ItemScopes.{place_of, scope_content, bound_from};

    ghost view = { λ b. bound_from b.next b.ns (scope_content b.scope) (place_of b.scope) };
}

impl<'a> BoundNames<'a> {
    /// Those of a scope, from the first one on.
    pub(crate) fn of(scope: ItemScope<'a>, ns: Namespace) -> BoundNames<'a>
        ensures { result ≡ bound_from 0 ns (scope_content scope.entry) (place_of scope.entry) }
    {
        BoundNames { scope, ns, next: 0 }
    }
}

impl<'a> Iterator for BoundNames<'a> {
    type Item = (Name, Item);

    ghost use Rattle.std.specs.Prelude.{length};
    ghost use Rattle.std.specs.Iterator.{YieldsFirst, at_most};

    ghost next_gives = { YieldsFirst (λ b. b) };

    ghost remaining = { λ b. at_most (length b) };

    fn next(&mut self) -> Option<(Name, Item)> {
        while let Some(name) = self.scope.table.name_at(self.scope.place, self.next) {
            self.next += 1;
            let found = self.scope.table.binding(self.scope.place, name, self.ns);
            if let Some(item) = found {
                return Some((name, item));
            }
        }
        None
    }
}

/// One binding of a scope: a name, and what it stands for in one namespace.
#[derive(Clone, Copy, PartialEq, Eq, Debug)]
pub struct ScopeEntry {
    pub name: Name,
    pub ns: Namespace,
    pub item: Item,
}

/// The bindings of a scope that are still to come.
#[derive(Drop)]
pub struct Entries<'a> {
    /// What the name that was read last stands for in values, if that is still to come.
    values: Option<(Name, Item)>,
    /// What it stands for in macros, likewise.
    macros: Option<(Name, Item)>,
    later: Resolutions<'a>,
}

impl<'a> Model for Entries<'a> {
    ghost use Rattle.std.specs.Prelude.{List};
    ghost use Rattle.std.specs.Coded.{coded_list};
    ghost use Rattle.def_map.specs.declared.scope_bindings.ScopeEntry.{ScopeEntry};
    ghost use Rattle.def_map.specs.contracts.scope_bindings.ScopeEntry as entry;

    ghost Value = { List ScopeEntry };

    ghost coded = { coded_list entry.the_row.coded };

    ghost use Rattle.def_map.specs.ItemScopes.{entries_left};

    ghost view = { λ e. entries_left e.values e.macros e.later };
}

impl<'a> Entries<'a> {
    /// Those of names that are still to come.
    pub(crate) fn of(later: Resolutions<'a>) -> Entries<'a>
        ensures { result ≡ entries_of later.entry }
    {
        Entries {
            values: None,
            macros: None,
            later,
        }
    }
}

/// A name, if it stands for something.
fn named(name: Name, item: Option<Item>) -> Option<(Name, Item)>
    ensures { result ≡ option_map (λ found. (name, found)) item }
{
    match item {
        Some(found) => Some((name, found)),
        None => None,
    }
}

impl<'a> Iterator for Entries<'a> {
    type Item = ScopeEntry;

    ghost use Rattle.std.specs.Prelude.{length};
    ghost use Rattle.std.specs.Iterator.{YieldsFirst, at_most};

    ghost next_gives = { YieldsFirst (λ e. e) };

    ghost remaining = { λ e. at_most (length e) };

    fn next(&mut self) -> Option<ScopeEntry> {
        if let Some((name, item)) = self.values.take() {
            let ns = Namespace::Values;
            return Some(ScopeEntry { name, ns, item });
        }
        if let Some((name, item)) = self.macros.take() {
            let ns = Namespace::Macros;
            return Some(ScopeEntry { name, ns, item });
        }
        while let Some((name, found)) = self.later.next() {
            if let Some(item) = found.types {
                self.values = named(name, found.values);
                self.macros = named(name, found.macros);
                let ns = Namespace::Types;
                return Some(ScopeEntry { name, ns, item });
            }
            if let Some(item) = found.values {
                self.macros = named(name, found.macros);
                let ns = Namespace::Values;
                return Some(ScopeEntry { name, ns, item });
            }
            if let Some(item) = found.macros {
                let ns = Namespace::Macros;
                return Some(ScopeEntry { name, ns, item });
            }
        }
        None
    }
}

/// The names and namespaces in which a scope binds one definition, as they are still to come.
#[derive(Drop)]
pub struct NamesOf<'a> {
    entries: Entries<'a>,
    def: Def,
}

impl<'a> Model for NamesOf<'a> {
    ghost use Rattle.std.specs.Prelude.{List};
    ghost use Rattle.std.specs.Coded.{coded_list, coded×};
    ghost use Rattle.tree_ids.specs.declared.name.Name.{Name};
    ghost use Rattle.tree_ids.specs.contracts.name.Name as name;
    ghost use Rattle.def_bindings.specs.declared.bindings.Namespace.{Namespace};
    ghost use Rattle.def_bindings.specs.contracts.bindings.Namespace as namespace;

    ghost Value = { List (Name × Namespace) };

    ghost coded = { coded_list (coded× name.the_row.coded namespace.the_row.coded) };

    ghost use Rattle.def_map.specs.ItemScopes.{names_of};

    ghost view = { λ n. names_of n.def n.entries };
}

impl<'a> NamesOf<'a> {
    /// Those of a definition among bindings that are still to come.
    pub(crate) fn among(entries: Entries<'a>, def: Def) -> NamesOf<'a>
        ensures { result ≡ names_of def entries.entry }
    {
        NamesOf { entries, def }
    }
}

impl<'a> Iterator for NamesOf<'a> {
    type Item = (Name, Namespace);

    ghost use Rattle.std.specs.Prelude.{length};
    ghost use Rattle.std.specs.Iterator.{YieldsFirst, at_most};

    ghost next_gives = { YieldsFirst (λ n. n) };

    ghost remaining = { λ n. at_most (length n) };

    fn next(&mut self) -> Option<(Name, Namespace)> {
        while let Some(entry) = self.entries.next() {
            if entry.item.def == self.def {
                return Some((entry.name, entry.ns));
            }
        }
        None
    }
}
