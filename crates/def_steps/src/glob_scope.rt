//! What a glob brings of a module or an enum.
ghost use Rattle.std.specs.Prelude.{◌≡◌, ◌++◌, Some, IfOk, OnOk};
ghost use Rattle.std.specs.List.{flat_map};
ghost use Rattle.def_bindings.specs.ModuleTree.{chain_in};
ghost use Rattle.def_bindings.specs.Visibility.{order_over};
ghost use Rattle.def_map.specs.Answers.{variant_found};
ghost use Rattle.def_map.specs.PerNs.{kept};
ghost use Rattle.def_sources.specs.Tables.{bound_by, found_by};
ghost use Rattle.def_rules.specs.Globs.{brought, name_entries, scope_entries, unnamed_entry, variant_entries};
ghost use Rattle.def_steps.specs.GlobScopes.{scope_sees, sees_inside};

use crate::answer::is_public;
use def_bindings::{
    BindingTable, EdgeTo, Entry, ImportOrExternCrate, ModuleTree, Namespace, VisOrder, Visibility,
    lesser_or_import,
};
use def_ids::{Def, ModuleId, TraitId};
use def_map::{EnumVariant, FoundName, Item, Table, public_item};
use item_tree::Name;
use std::alloc::{AllocError, Global};

/// A module as a glob sees it: of its own crate what its importer sees, of another crate what is
/// public.
#[derive(Drop)]
pub struct GlobScope<'a> {
    pub table: &'a Table,
    pub order: &'a ModuleTree,
    pub glob: EdgeTo<Visibility>,
    /// Whether the module is of the importer's crate.
    pub own: bool,
    pub source: ModuleId,
}

impl<'a> GlobScope<'a> {
    /// Whether the glob sees this visibility.
    fn sees(&self, vis: Visibility) -> bool
        ensures { result ≡ scope_sees self.now vis }
    {
        if self.own {
            self.order.visible(vis, self.glob.importer)
        } else {
            is_public(vis)
        }
    }

    /// Whether the glob sees the visibility of a binding, given whether it sees what is visible in the
    /// module alone. Most bindings are public, or visible there alone.
    fn sees_binding(&self, inside: bool, vis: Visibility) -> bool
        requires { inside ≡ sees_inside self.now }
        ensures { result ≡ scope_sees self.now vis }
    {
        match vis {
            Visibility::Public => true,
            Visibility::Module(limit) if limit == self.source => inside,
            _ => self.sees(vis),
        }
    }

    /// Appends the entry of what a name stands for in a namespace, if the glob sees it. Of most that it
    /// does not see the visibility alone is read.
    #[inline(always)]
    fn push_in(
        &self,
        entries: &mut Vec<Entry<Visibility>>,
        inside: bool,
        name: Name,
        found: &FoundName<'_>,
        ns: Namespace,
    ) -> Result<(), AllocError>
        requires inside { inside ≡ sees_inside self.now }
        requires found { found_by found.now ≡ (bound_by self.now.table.now).binding self.now.source name }
        ensures { OnOk result (let o = order_over (chain_in self.now.order.now) in
            entries.new.items ≡ entries.old.items
            ++ brought o self.now.glob name ns
            (kept (λ item. scope_sees self.now item.vis) ((bound_by self.now.table.now).binding self.now.source name ns))) }
    {
        let Some(vis) = found.visibility(ns) else {
            return Ok(());
        };
        if !self.sees_binding(inside, vis) {
            return Ok(());
        }
        match &found.binding(ns) {
            Some(item) => push_item(entries, self.order, self.glob, name, ns, item),
            None => Ok(()),
        }
    }

    /// Appends the entries of a name that may stand in several namespaces, in types, values and
    /// macros. It stands apart, since most names stand in one.
    #[inline(never)]
    fn push_each(
        &self,
        entries: &mut Vec<Entry<Visibility>>,
        inside: bool,
        name: Name,
        found: &FoundName<'_>,
    ) -> Result<(), AllocError>
        requires inside { inside ≡ sees_inside self.now }
        requires found { found_by found.now ≡ (bound_by self.now.table.now).binding self.now.source name }
        ensures { OnOk result (entries.new.items ≡ entries.old.items
            ++ name_entries (order_over (chain_in self.now.order.now)) self.now.glob self.now.own (bound_by self.now.table.now) self.now.source name) }
    {
        self.push_in(entries, inside, name, found, Namespace::Types)?;
        self.push_in(entries, inside, name, found, Namespace::Values)?;
        self.push_in(entries, inside, name, found, Namespace::Macros)
    }

    /// Appends the entries of a name, which the table keeps near a number.
    fn push_name(
        &self,
        entries: &mut Vec<Entry<Visibility>>,
        inside: bool,
        near: &mut usize,
        name: Name,
    ) -> Result<(), AllocError>
        requires { inside ≡ sees_inside self.now }
        ensures { OnOk result (entries.new.items ≡ entries.old.items
            ++ name_entries (order_over (chain_in self.now.order.now)) self.now.glob self.now.own (bound_by self.now.table.now) self.now.source name) }
    {
        match &self.table.found_near(self.source, name, near) {
            None => Ok(()),
            Some(found) => match found.lone_ns() {
                Some(ns) => self.push_in(entries, inside, name, found, ns),
                None => self.push_each(entries, inside, name, found),
            },
        }
    }

    /// Appends the entry of an unnamed trait, if the glob sees it.
    fn push_unnamed(
        &self,
        entries: &mut Vec<Entry<Visibility>>,
        item: TraitId,
        vis: Visibility,
    ) -> Result<(), AllocError>
        ensures { OnOk result (entries.new.items ≡ entries.old.items
            ++ unnamed_entry (order_over (chain_in self.now.order.now)) self.now.glob self.now.own (item, vis)) }
    {
        if !self.sees(vis) {
            return Ok(());
        }
        entries.push(Entry {
            name: None,
            ns: Namespace::Types,
            def: Def::Trait(item),
            vis: lesser_or_import(self.order, vis, self.glob.vis),
            origin: Some(ImportOrExternCrate::Glob(self.glob.glob)),
        })?;
        Ok(())
    }

    /// Appends the entries of all names, in first-bound order.
    fn push_names(&self, entries: &mut Vec<Entry<Visibility>>) -> Result<(), AllocError>
        ensures { OnOk result (let content = bound_by self.now.table.now in
            entries.new.items ≡ entries.old.items
            ++ flat_map (name_entries (order_over (chain_in self.now.order.now)) self.now.glob self.now.own content self.now.source) (content.names self.now.source)) }
    {
        let inside = self.sees(Visibility::Module(self.source));
        let names = self.table.names(self.source);
        entries.reserve(names.len())?;
        let mut near = 0;
        'names: for name in names {
            self.push_name(entries, inside, &mut near, *name)?;
        }
        Ok(())
    }

    /// Appends the entries of all unnamed traits, in order.
    fn push_unnamed_traits(&self, entries: &mut Vec<Entry<Visibility>>) -> Result<(), AllocError>
        ensures { OnOk result (entries.new.items ≡ entries.old.items
            ++ flat_map (unnamed_entry (order_over (chain_in self.now.order.now)) self.now.glob self.now.own) ((bound_by self.now.table.now).unnamed self.now.source)) }
    {
        let mut index = 0;
        'unnamed: while let Some((item, vis)) = self.table.unnamed_at(self.source, index) {
            self.push_unnamed(entries, item, vis)?;
            index += 1;
        }
        Ok(())
    }

    /// The entries of all that the module binds and the glob sees.
    pub fn entries(&self, alloc: Global) -> Result<Vec<Entry<Visibility>>, AllocError>
        ensures { IfOk result (λ entries. entries.items
            ≡ scope_entries (order_over (chain_in self.now.order.now)) self.now.glob self.now.own (bound_by self.now.table.now) self.now.source) }
    {
        let mut entries = Vec::new(alloc);
        self.push_names(&mut entries)?;
        self.push_unnamed_traits(&mut entries)?;
        Ok(entries)
    }
}

/// Appends the entry of what a glob brings in a namespace.
#[inline(always)]
fn push_item(
    entries: &mut Vec<Entry<Visibility>>,
    order: &ModuleTree,
    glob: EdgeTo<Visibility>,
    name: Name,
    ns: Namespace,
    item: &Item,
) -> Result<(), AllocError>
    ensures { OnOk result (entries.new.items ≡ entries.old.items
        ++ brought (order_over (chain_in order.now)) glob name ns (Some item.now)) }
{
    entries.push(Entry {
        name: Some(name),
        ns,
        def: item.def,
        vis: lesser_or_import(order, item.vis, glob.vis),
        origin: Some(ImportOrExternCrate::Glob(glob.glob)),
    })?;
    Ok(())
}

/// Appends the entry of what a glob brings in a namespace, if there is something.
fn push_brought(
    entries: &mut Vec<Entry<Visibility>>,
    order: &ModuleTree,
    glob: EdgeTo<Visibility>,
    name: Name,
    ns: Namespace,
    item: Option<Item>,
) -> Result<(), AllocError>
    ensures { OnOk result (entries.new.items ≡ entries.old.items
        ++ brought (order_over (chain_in order.now)) glob name ns item) }
{
    match item {
        Some(item) => push_item(entries, order, glob, name, ns, &item),
        None => Ok(()),
    }
}

/// What a variant is in values, if it has a constructor.
fn constructor(variant: EnumVariant) -> Option<Item>
    ensures { result ≡ (variant_found variant).values }
{
    if variant.value_ctor {
        Some(public_item(Def::Variant(variant.id)))
    } else {
        None
    }
}

/// Appends the entries of a variant.
fn push_variant(
    entries: &mut Vec<Entry<Visibility>>,
    order: &ModuleTree,
    glob: EdgeTo<Visibility>,
    variant: EnumVariant,
) -> Result<(), AllocError>
    ensures { OnOk result (entries.new.items ≡ entries.old.items
        ++ variant_entries (order_over (chain_in order.now)) glob variant) }
{
    let types = Some(public_item(Def::Variant(variant.id)));
    let values = constructor(variant);
    push_brought(entries, order, glob, variant.name, Namespace::Types, types)?;
    push_brought(
        entries,
        order,
        glob,
        variant.name,
        Namespace::Values,
        values,
    )?;
    Ok(())
}

/// The entries of the variants of an enum.
pub fn variants_entries(
    alloc: Global,
    order: &ModuleTree,
    glob: EdgeTo<Visibility>,
    variants: &[EnumVariant],
) -> Result<Vec<Entry<Visibility>>, AllocError>
    ensures { IfOk result (λ entries. entries.items
        ≡ flat_map (variant_entries (order_over (chain_in order.now)) glob) variants.now) }
{
    let mut entries = Vec::new(alloc);
    'variants: for variant in variants {
        push_variant(&mut entries, order, glob, *variant)?;
    }
    Ok(entries)
}
