//! What each source of names brings into a module.
ghost use Rattle.std.specs.Prelude.{◌≡◌, ◌++◌, OnOk, option_map, if◌then◌else◌};
ghost use Rattle.def_bindings.specs.Content.{AreTied};
ghost use Rattle.def_map.specs.DefMaps.{view_of};
ghost use Rattle.def_modules.specs.Locals.{local_view};
ghost use Rattle.def_ids.specs.Ids.{is_block_root};
ghost use Rattle.def_sources.specs.PerNs.{nothing, per_namespace};
ghost use Rattle.def_sources.specs.Sources.{map_of_id, scope_source, textual_source, builtin_source, extern_source, macro_use_source, prelude_source};
ghost use Rattle.def_sources.specs.Tables.{bound_by};
ghost use Rattle.def_tables.specs.Lists.{AreDistinct};
ghost use Rattle.visible_names.specs.Visible.{asking, has, inside, before, all_brought, brought, brought_over, source_of, AddsAll, Lists};

use crate::brought::{BroughtBy, VisibleName};
use def_bindings::{Binding, BindingTable, ImportOrExternCrate, Namespace, Visibility};
use def_ids::{Def, MacroId, MapId, ModuleId};
use def_map::{DefMap, Item, LocalDefMap, PerNs, SourceDatabase, Table, finished_map, public_item};
use def_paths::bound;
use item_tree::Name;
use std::alloc::AllocError;

/// A module of a map, and where its names come from.
pub(crate) struct Seen<'a, D> {
    pub(crate) db: &'a D,
    pub(crate) map: &'a DefMap,
    pub(crate) local: &'a LocalDefMap,
    pub(crate) place: ModuleId,
}

impl<'a, D> Drop for Seen<'a, D> {
    fn drop(self) {
        let Seen {
            db: _,
            map: _,
            local: _,
            place: _,
        } = self;
    }
}

/// Adds what a source has in a namespace, where those before it have nothing there.
fn add_in(
    list: &mut Vec<VisibleName>,
    by: BroughtBy,
    name: Name,
    ns: Namespace,
    found: Option<Item>,
    before: Option<Item>,
) -> Result<(), AllocError>
    ensures { OnOk result (list.new.items ≡ list.old.items ++ brought_over by name ns found before) }
{
    if before.is_some() {
        return Ok(());
    }
    if let Some(item) = found {
        list.push(VisibleName { name, ns, item, by })?;
    }
    Ok(())
}

impl<'a, D: SourceDatabase> Seen<'a, D> {
    /// The table of a map: of this one, or of a finished one.
    pub(crate) fn table_of(&self, id: MapId) -> Option<&'a Table>
        ensures { option_map (λ t. bound_by t.now) result
            ≡ option_map (λ m. m.content) (map_of_id (D.oracle self.now.db.now) (view_of self.now.map.now) id) }
    {
        if id == self.map.id() {
            return Some(self.map.table());
        }
        match finished_map(self.db, id) {
            Some(map) => Some(map.table()),
            None => None,
        }
    }

    /// What a module's scope binds, also in another map. A map that there is not binds nothing.
    fn scope(&self, place: ModuleId, name: Name) -> PerNs
        ensures { let q = asking (D.oracle self.now.db.now) (local_view self.now.local.now) in
            result ≡ per_namespace (scope_source q (view_of self.now.map.now) place name) }
    {
        match self.table_of(place.map) {
            Some(table) => bound(table, place, name),
            None => PerNs::none(),
        }
    }

    /// The module's last textual macro of a name. It is a module of this map.
    fn textual(&self, name: Name) -> PerNs
        requires { self.now.place.map ≡ (view_of self.now.map.now).facts.id }
        ensures { let q = asking (D.oracle self.now.db.now) (local_view self.now.local.now) in
            result ≡ per_namespace (textual_source q (view_of self.now.map.now) self.now.place name) }
    {
        match self.map.textual_macro(self.place, name) {
            Some(id) => PerNs::of_macro(public_item(Def::Macro(id))),
            None => PerNs::none(),
        }
    }

    /// A builtin type. Blocks leave those to the maps around them.
    fn builtin(&self, name: Name) -> PerNs
        ensures { let q = asking (D.oracle self.now.db.now) (local_view self.now.local.now) in
            result ≡ per_namespace (builtin_source q (view_of self.now.map.now) name) }
    {
        if self.map.id().block.is_some() {
            return PerNs::none();
        }
        match self.db.builtin_type(name) {
            Some(number) => PerNs::of_type(public_item(Def::Builtin(number))),
            None => PerNs::none(),
        }
    }

    /// The root of another crate.
    fn extern_crate(&self, name: Name) -> PerNs
        ensures { let q = asking (D.oracle self.now.db.now) (local_view self.now.local.now) in
            result ≡ per_namespace (extern_source q name) }
    {
        match self.local.extern_entry(name) {
            Some(entry) => PerNs::of_type(Binding {
                def: Def::Module(entry.root),
                vis: Visibility::Public,
                import: entry.by.map(ImportOrExternCrate::ExternCrate),
            }),
            None => PerNs::none(),
        }
    }

    /// The macro of a name that an extern crate brought.
    fn macro_used(&self, name: Name) -> Option<MacroId>
        ensures { result ≡ (view_of self.now.map.now).facts.macro_use name }
    {
        self.map.macro_use_prelude().get(&name).copied()
    }

    /// A macro that an extern crate brought.
    fn macro_use(&self, name: Name) -> PerNs
        ensures { result ≡ per_namespace (macro_use_source (view_of self.now.map.now) name) }
    {
        match self.macro_used(name) {
            Some(id) => PerNs::of_macro(public_item(Def::Macro(id))),
            None => PerNs::none(),
        }
    }

    /// What the prelude module binds.
    fn prelude(&self, name: Name) -> PerNs
        ensures { let q = asking (D.oracle self.now.db.now) (local_view self.now.local.now) in
            result ≡ per_namespace (prelude_source q (view_of self.now.map.now) name) }
    {
        match self.map.prelude() {
            Some(prelude) => self.scope(prelude, name),
            None => PerNs::none(),
        }
    }

    /// What there is outside the scopes. A block's root leaves it to the maps around it.
    fn outside(&self, found: PerNs) -> PerNs
        ensures { result ≡ (if is_block_root self.now.place then nothing else found) }
    {
        if self.place.is_block_root() {
            return PerNs::none();
        }
        found
    }

    /// What a source has of a name.
    fn has(&self, by: BroughtBy, name: Name) -> PerNs
        requires { self.now.place.map ≡ (view_of self.now.map.now).facts.id }
        ensures { let q = asking (D.oracle self.now.db.now) (local_view self.now.local.now) in
            result ≡ has q (view_of self.now.map.now) self.now.place by name }
    {
        match by {
            BroughtBy::TextualMacro => self.textual(name),
            BroughtBy::Scope => self.scope(self.place, name),
            BroughtBy::ExternPrelude => self.outside(self.extern_crate(name)),
            BroughtBy::MacroUsePrelude => self.macro_use(name),
            BroughtBy::Prelude => self.outside(self.prelude(name)),
        }
    }

    /// What a name means by the textual macros, the scope and the builtin types.
    fn inside(&self, name: Name) -> PerNs
        requires { self.now.place.map ≡ (view_of self.now.map.now).facts.id }
        ensures { let q = asking (D.oracle self.now.db.now) (local_view self.now.local.now) in
            result ≡ inside q (view_of self.now.map.now) self.now.place name }
    {
        self.has(BroughtBy::TextualMacro, name)
            .or(self.has(BroughtBy::Scope, name))
            .or(self.builtin(name))
    }

    /// What a name means by the sources that go before one.
    fn before(&self, by: BroughtBy, name: Name) -> PerNs
        requires { self.now.place.map ≡ (view_of self.now.map.now).facts.id }
        ensures { let q = asking (D.oracle self.now.db.now) (local_view self.now.local.now) in
            result ≡ before q (view_of self.now.map.now) self.now.place by name }
    {
        match by {
            BroughtBy::TextualMacro => PerNs::none(),
            BroughtBy::Scope => self.has(BroughtBy::TextualMacro, name),
            BroughtBy::ExternPrelude => self.inside(name),
            BroughtBy::MacroUsePrelude => {
                self.inside(name)
                    .or(self.has(BroughtBy::ExternPrelude, name))
            }
            BroughtBy::Prelude => self
                .inside(name)
                .or(self.has(BroughtBy::ExternPrelude, name))
                .or(self.has(BroughtBy::MacroUsePrelude, name)),
        }
    }

    /// Adds what a source brings of a name.
    fn add(&self, list: &mut Vec<VisibleName>, by: BroughtBy, name: Name) -> Result<(), AllocError>
        requires { self.now.place.map ≡ (view_of self.now.map.now).facts.id }
        ensures { let q = asking (D.oracle self.now.db.now) (local_view self.now.local.now) in
            OnOk result (list.new.items ≡ list.old.items ++ brought q (view_of self.now.map.now) self.now.place by name) }
    {
        let found = self.has(by, name);
        let before = self.before(by, name);
        add_in(list, by, name, Namespace::Types, found.types, before.types)?;
        add_in(
            list,
            by,
            name,
            Namespace::Values,
            found.values,
            before.values,
        )?;
        add_in(
            list,
            by,
            name,
            Namespace::Macros,
            found.macros,
            before.macros,
        )?;
        Ok(())
    }

    /// Adds what a source brings of these names.
    fn add_names(
        &self,
        list: &mut Vec<VisibleName>,
        by: BroughtBy,
        names: &[Name],
    ) -> Result<(), AllocError>
        requires { self.now.place.map ≡ (view_of self.now.map.now).facts.id }
        ensures { let q = asking (D.oracle self.now.db.now) (local_view self.now.local.now) in
            OnOk result (list.new.items ≡ list.old.items ++ all_brought q (view_of self.now.map.now) self.now.place by names.now) }
    {
        'names: for name in names {
            self.add(list, by, *name)?;
        }
        Ok(())
    }

    /// Adds all that a source brings.
    pub(crate) fn add_all(
        &self,
        list: &mut Vec<VisibleName>,
        by: BroughtBy,
    ) -> Result<(), AllocError>
        requires { self.now.place.map ≡ (view_of self.now.map.now).facts.id }
        ensures { let q = asking (D.oracle self.now.db.now) (local_view self.now.local.now) in
            OnOk result (AddsAll q (view_of self.now.map.now) self.now.place by list.old.items list.new.items) }
    {
        let names = self.names(by);
        self.add_names(list, by, names)?;
        Ok(())
    }

    /// The names for which a module of this map has textual macros.
    fn textual_names(&self) -> &'a [Name]
        requires { self.now.place.map ≡ (view_of self.now.map.now).facts.id }
        ensures all { let q = asking (D.oracle self.now.db.now) (local_view self.now.local.now) in
            Lists (textual_source q (view_of self.now.map.now) self.now.place) result.now }
        ensures once { AreDistinct result.now }
    {
        match self.map.scope(self.place.index) {
            Some(scope) => scope.legacy_macros().keys().as_slice(),
            None => &[],
        }
    }

    /// The names that a module's scope binds, also in another map.
    fn scope_names(&self, place: ModuleId) -> &'a [Name]
        ensures all { let q = asking (D.oracle self.now.db.now) (local_view self.now.local.now) in
            Lists (scope_source q (view_of self.now.map.now) place) result.now }
        ensures once { AreDistinct result.now }
    {
        match self.table_of(place.map) {
            Some(table) => {
                know_tied(table);
                table.names(place)
            }
            None => &[],
        }
    }

    /// The names of other crates.
    fn extern_names(&self) -> &'a [Name]
        ensures all { let q = asking (D.oracle self.now.db.now) (local_view self.now.local.now) in
            Lists (extern_source q) result.now }
        ensures once { AreDistinct result.now }
    {
        self.local.extern_prelude.keys().as_slice()
    }

    /// The names of the macros that extern crates brought.
    fn macro_use_names(&self) -> &'a [Name]
        ensures all { Lists (macro_use_source (view_of self.now.map.now)) result.now }
        ensures once { AreDistinct result.now }
    {
        self.map.macro_use_prelude().keys().as_slice()
    }

    /// The names that the prelude module binds.
    fn prelude_names(&self) -> &'a [Name]
        ensures all { let q = asking (D.oracle self.now.db.now) (local_view self.now.local.now) in
            Lists (prelude_source q (view_of self.now.map.now)) result.now }
        ensures once { AreDistinct result.now }
    {
        match self.map.prelude() {
            Some(prelude) => self.scope_names(prelude),
            None => &[],
        }
    }

    /// The names that a source has.
    fn names(&self, by: BroughtBy) -> &'a [Name]
        requires { self.now.place.map ≡ (view_of self.now.map.now).facts.id }
        ensures all { let q = asking (D.oracle self.now.db.now) (local_view self.now.local.now) in
            Lists (source_of q (view_of self.now.map.now) self.now.place by) result.now }
        ensures once { AreDistinct result.now }
    {
        match by {
            BroughtBy::TextualMacro => self.textual_names(),
            BroughtBy::Scope => self.scope_names(self.place),
            BroughtBy::ExternPrelude => self.extern_names(),
            BroughtBy::MacroUsePrelude => self.macro_use_names(),
            BroughtBy::Prelude => self.prelude_names(),
        }
    }
}

/// A law for contracts: a table lists a name exactly where it binds it. Nothing happens when it runs.
fn know_tied<T: BindingTable<Vis = Visibility>>(_table: &T)
    ensures { AreTied (T.content _table.now).binding (T.content _table.now).names }
{}
