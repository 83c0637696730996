//! What is seen of a module's scope.
ghost use Rattle.std.specs.Prelude.{◌≡◌, reverse, option_copied};
ghost use Rattle.std.specs.Option.{option_map_or};
ghost use Rattle.indexmap.specs.IndexMap.{get};
ghost use Rattle.def_bindings.specs.declared.bindings.Namespace.TheVariants.{Types, Values, Macros};
ghost use Rattle.def_map.specs.ItemScopes.{place_of, scope_content, scope_state, invoked_in, derives_in, meaning, resolutions_from, unnamed_from};
ghost use Rattle.def_map.specs.ItemScopes.{bound_from, entries_at, names_of};
ghost use Rattle.def_modules.specs.RareParts.{rare_state, no_rare, rare_in};
ghost use Rattle.def_modules.specs.ScopeMaps.{textual_of};

use crate::scope_bindings::{BoundNames, Entries, NamesOf};
use def_bindings::{BindingTable, Namespace, Visibility};
use def_ids::{
    BuiltinDeriveImplId, ConstId, Def, ExternBlockId, ExternCrateId, ImplId, MacroId, ModuleId,
    TraitId,
};
use def_modules::{DeriveKey, DeriveRecords, Invocation, ModuleData, RareParts};
use def_paths::{PerNs, Table, bound};
use indexmap::{IndexMap, IndexSet};
use item_tree::{Name, Seq};
use std::marker::Model;

/// The scope of a module: what it binds, and what else it holds.
#[derive(Clone, Copy)]
pub struct ItemScope<'a> {
    pub(crate) place: ModuleId,
    pub(crate) module_data: &'a ModuleData,
    pub(crate) table: &'a Table,
}

impl<'a> ItemScope<'a> {
    /// What a name means in each namespace.
    pub fn get(&self, name: Name) -> PerNs
        ensures { result ≡ meaning (scope_content self.now) (place_of self.now) name }
    {
        bound(self.table, self.place, name)
    }

    /// The names in the order in which they were first bound, with what they mean.
    pub fn resolutions(&self) -> Resolutions<'a>
        ensures { result ≡ resolutions_from 0 (scope_content self.now) (place_of self.now) }
    {
        Resolutions {
            scope: *self,
            next: 0,
        }
    }

    /// The names that are bound in types, in the order in which they were first bound in any
    /// namespace, each with what it stands for there.
    pub fn types(&self) -> BoundNames<'a>
        ensures { result ≡ bound_from 0 Types (scope_content self.now) (place_of self.now) }
    {
        BoundNames::of(*self, Namespace::Types)
    }

    /// The names that are bound in values, in that order, each with what it stands for there.
    pub fn values(&self) -> BoundNames<'a>
        ensures { result ≡ bound_from 0 Values (scope_content self.now) (place_of self.now) }
    {
        BoundNames::of(*self, Namespace::Values)
    }

    /// The names that are bound in macros, in that order, each with what it stands for there. Textual
    /// macros are bound in no namespace: see `legacy_macros`.
    pub fn macros(&self) -> BoundNames<'a>
        ensures { result ≡ bound_from 0 Macros (scope_content self.now) (place_of self.now) }
    {
        BoundNames::of(*self, Namespace::Macros)
    }

    /// The bindings, each by itself: names in the order in which they were first bound, and of each name
    /// what it stands for in types, then in values, then in macros.
    pub fn entries(&self) -> Entries<'a>
        ensures { result ≡ entries_at (scope_content self.now) (place_of self.now) }
    {
        Entries::of(self.resolutions())
    }

    /// The names under which a definition is bound, each with its namespace, in the order of `entries`.
    pub fn names_of(&self, def: Def) -> NamesOf<'a>
        ensures { result ≡ names_of def (entries_at (scope_content self.now) (place_of self.now)) }
    {
        NamesOf::among(self.entries(), def)
    }

    /// The traits that are in scope without a name.
    pub fn unnamed_traits(&self) -> UnnamedTraits<'a>
        ensures { result ≡ unnamed_from 0 (scope_content self.now) (place_of self.now) }
    {
        UnnamedTraits {
            scope: *self,
            next: 0,
        }
    }

    /// The rare parts, if one of them is recorded.
    fn rare(&self) -> Option<&'a RareParts>
        ensures { option_map_or rare_state (option_copied result) no_rare ≡ rare_in self.now.module_data.now.scope.rare }
    {
        self.module_data.scope.rare.as_deref()
    }

    /// The declarations, in order.
    pub fn declarations(&self) -> &'a [Def]
        ensures { result.now ≡ (scope_state self.now).declarations }
    {
        self.module_data.scope.declarations.as_slice()
    }

    /// The textual macros of each name, the last one last.
    pub fn legacy_macros(&self) -> &'a IndexMap<Name, Seq<MacroId>>
        ensures { textual_of result.now ≡ (scope_state self.now).textual }
    {
        self.module_data.scope.legacy_macros.as_ref()
    }

    /// Whether an import left over would have bound this name.
    pub fn failed(&self, name: Name) -> bool
        ensures { result ≡ (scope_state self.now).failed name }
    {
        match self.rare() {
            Some(rare) => rare.failed.contains(&name),
            None => false,
        }
    }

    /// The impls, each with whether it is one of a trait.
    pub fn impls(&self) -> &'a [(ImplId, bool)]
        ensures { result.now ≡ (scope_state self.now).impls }
    {
        self.module_data.scope.impls.as_slice()
    }

    /// The impls that builtin derives gave.
    pub fn builtin_derive_impls(&self) -> &'a [BuiltinDeriveImplId]
        ensures { result.now ≡ (scope_state self.now).derive_impls }
    {
        match self.rare() {
            Some(rare) => rare.builtin_derive_impls.as_slice(),
            None => &[],
        }
    }

    /// The `extern crate` items.
    pub fn extern_crates(&self) -> &'a [ExternCrateId]
        ensures { result.now ≡ (scope_state self.now).extern_crates }
    {
        match self.rare() {
            Some(rare) => rare.extern_crates.as_slice(),
            None => &[],
        }
    }

    /// The extern blocks.
    pub fn extern_blocks(&self) -> &'a [ExternBlockId]
        ensures { result.now ≡ (scope_state self.now).extern_blocks }
    {
        match self.rare() {
            Some(rare) => rare.extern_blocks.as_slice(),
            None => &[],
        }
    }

    /// The constants without a name.
    pub fn unnamed_consts(&self) -> &'a [ConstId]
        ensures { result.now ≡ (scope_state self.now).unnamed_consts }
    {
        match self.rare() {
            Some(rare) => rare.unnamed_consts.as_slice(),
            None => &[],
        }
    }

    /// The macro calls, each with its position. Where no rare part is recorded, there is no set.
    pub fn invocations(&self) -> Option<&'a IndexSet<Invocation>>
        ensures { invoked_in result ≡ (scope_state self.now).invoked }
    {
        let rare = self.rare()?;
        Some(&rare.invocations)
    }

    /// The derive attributes, each with its records: its call, and what its paths gave. Where no rare
    /// part is recorded, there is no map.
    pub fn derives(&self) -> Option<&'a IndexMap<DeriveKey, DeriveRecords>>
        ensures { derives_in result ≡ (scope_state self.now).derives }
    {
        let rare = self.rare()?;
        Some(&rare.derives)
    }
}

/// The names of a scope that are still to come, with what they mean.
#[derive(Drop)]
pub struct Resolutions<'a> {
    scope: ItemScope<'a>,
    next: usize,
}

impl<'a> Model for Resolutions<'a> {
    ghost use Rattle.std.specs.Prelude.{List};
    ghost use Rattle.std.specs.Coded.{coded_list, coded×};
    ghost use Rattle.tree_ids.specs.declared.name.Name.{Name};
    ghost use Rattle.tree_ids.specs.contracts.name.Name as name;
    ghost use Rattle.def_sources.specs.declared.per_ns.PerNs.{PerNs};
    ghost use Rattle.def_sources.specs.contracts.per_ns.PerNs as per_ns;

    ghost Value = { List (Name × PerNs) };

    ghost coded = { coded_list (coded× name.the_row.coded per_ns.the_row.coded) };

    ghost use Rattle.def_map.specs.ItemScopes.{place_of, scope_content, resolutions_from};

    ghost view = { λ r. resolutions_from r.next (scope_content r.scope) (place_of r.scope) };
}

impl<'a> Iterator for Resolutions<'a> {
    type Item = (Name, PerNs);

    ghost use Rattle.std.specs.Prelude.{length};
    ghost use Rattle.std.specs.Iterator.{YieldsFirst, at_most};

    ghost next_gives = { YieldsFirst (λ r. r) };

    ghost remaining = { λ r. at_most (length r) };

    fn next(&mut self) -> Option<(Name, PerNs)> {
        let name = self.scope.table.name_at(self.scope.place, self.next)?;
        self.next += 1;
        Some((name, self.scope.get(name)))
    }
}

/// The unnamed traits of a scope that are still to come.
#[derive(Drop)]
pub struct UnnamedTraits<'a> {
    scope: ItemScope<'a>,
    next: usize,
}

impl<'a> Model for UnnamedTraits<'a> {
    ghost use Rattle.std.specs.Prelude.{List};
    ghost use Rattle.std.specs.Coded.{coded_list, coded×};
    ghost use Rattle.def_ids.specs.declared.ids.TraitId.{TraitId};
    ghost use Rattle.def_ids.specs.contracts.ids.TraitId as trait_id;
    ghost use Rattle.def_bindings.specs.declared.visibility.Visibility.{Visibility};
    ghost use Rattle.def_bindings.specs.contracts.visibility.Visibility as vis;

    ghost Value = { List (TraitId × Visibility) };

    ghost coded = { coded_list (coded× trait_id.the_row.coded vis.the_row.coded) };

    ghost use Rattle.def_map.specs.ItemScopes.{place_of, scope_content, unnamed_from};

    ghost view = { λ u. unnamed_from u.next (scope_content u.scope) (place_of u.scope) };
}

impl<'a> Iterator for UnnamedTraits<'a> {
    type Item = (TraitId, Visibility);

    ghost use Rattle.std.specs.Prelude.{length};
    ghost use Rattle.std.specs.Iterator.{YieldsFirst, at_most};

    ghost next_gives = { YieldsFirst (λ u. u) };

    ghost remaining = { λ u. at_most (length u) };

    fn next(&mut self) -> Option<(TraitId, Visibility)> {
        let item = self.scope.table.unnamed_at(self.scope.place, self.next)?;
        self.next += 1;
        Some(item)
    }
}
