//! Extern crates.
ghost use Rattle.std.specs.Prelude.{◌≡◌, ◌∷◌, [], None, Some, IfOk, OnOk};
ghost use Rattle.item_tree.specs.declared.items.ModItemKind.TheVariants as kinds;
ghost use Rattle.def_interner.specs.declared.interner.Interner.{Interner};
ghost use Rattle.def_interner.specs.Session.{AddsLocations, session_of};
ghost use Rattle.def_map.specs.Oracle.{Oracle};
ghost use Rattle.def_parts.specs.Sites.{site_of};
ghost use Rattle.def_collector.specs.Collector.{state_of, with_missed, with_names};
ghost use Rattle.def_rules.specs.declared.diagnostics.DefDiagnosticKind.TheVariants.{UnresolvedExternCrate};
ghost use Rattle.def_rules.specs.Items as items;
ghost use Rattle.def_rules.specs.ExternCrates as crate_rules;
ghost use Rattle.def_rules.specs.Macros.{macros_brought};
ghost use Rattle.def_laws.specs.Performs.{Handled, Performs, Updated};
ghost use Rattle.def_rules.specs.State.{State, reported, with_missing};

use super::DefCollector;
use def_bindings::{Entry, ImportOrExternCrate, Namespace, Visibility};
use def_crates::MissingCrates;
use def_ids::{Def, ExternCrateId, ExternCrateLoc, MacroId, ModuleId};
use def_interner::{Interner, Location};
use def_items::{is_crate_root, name_crate, put, report};
use def_macros::{macros_brought, take_at_root};
use def_map::{LocalDefMap, MapData, SourceDatabase, Table};
use def_parts::{Globs, Site};
use def_rules::{DefDiagnostic, DefDiagnosticKind};
use def_steps::crate_name;
use item_tree::{ImportAlias, ItemNode, Name, RawVisibility, sym};
use std::alloc::AllocError;

/// An extern crate: its item and where that stands, its number, the name that it binds, and its
/// visibility.
#[derive(Clone, Copy)]
struct CrateItem<'a> {
    site: &'a Site,
    node: &'a ItemNode,
    id: ExternCrateId,
    /// None is `_`.
    name: Option<Name>,
    vis: Visibility,
}

/// An extern crate as it is written.
#[derive(Clone, Copy)]
pub struct WrittenCrate<'a> {
    pub name: Name,
    pub visibility: &'a RawVisibility,
    pub alias: Option<ImportAlias>,
}

impl<'a> DefCollector<'a> {
    /// Records an extern crate, and puts it where it is found. On `Err` nothing but safety is
    /// promised.
    #[inline(never)]
    pub fn collect_crate<D: SourceDatabase>(
        &mut self,
        db: &D,
        session: &mut Interner,
        site: &Site,
        node: &ItemNode,
        written: WrittenCrate<'_>,
    ) -> Result<(), AllocError>
        ensures handled { OnOk result (
            node.now.kind ≡ kinds.ExternCrate written.entry.name written.entry.visibility.now written.entry.alias →
            Handled (D.oracle db.now) (state_of self.old session.old) (state_of self.new session.new)
            (site_of site.now) node.now []) }
        ensures session { AddsLocations (session_of session.old) (session_of session.new) }
    {
        let id = ExternCrateLoc {
            container: site.module_id,
            position: site.position(node),
        }
        .intern(session)?;
        let vis = self.resolve_visibility(db, session, site.module_id, written.visibility);
        let root = self.named_crate(written.name);
        let brought = self.macros_brought(db, session, node, written.name, root)?;
        let module = site.module_id.index;
        self.def_map.define_extern_crate_decl(module, id)?;
        let item = CrateItem {
            site,
            node,
            id,
            name: crate_name(written.name, written.alias),
            vis,
        };
        self.collect_extern_crate(item, brought, root)
    }

    /// The root of a named crate, if it is found: `self` is this crate, and any other a dependency.
    fn named_crate(&self, name: Name) -> Option<ModuleId>
        ensures { (session : Interner) → result ≡ crate_rules.named_crate (state_of self.now session) name }
    {
        if name == sym::SELF {
            return Some(ModuleId::crate_root(self.def_map.tree.map.krate));
        }
        match self.deps.extern_entry(name) {
            Some(entry) => Some(entry.root),
            None => None,
        }
    }

    /// The macros that an extern crate brings, if it is found. The crate itself brings none.
    fn macros_brought<D: SourceDatabase>(
        &self,
        db: &D,
        session: &Interner,
        node: &ItemNode,
        name: Name,
        root: Option<ModuleId>,
    ) -> Result<Vec<(Name, MacroId)>, AllocError>
        ensures { IfOk result (λ brought.
            brought.items ≡ macros_brought (D.oracle db.now) (state_of self.now session.now) node.now name root) }
    {
        let Some(root) = root else {
            return Ok(Vec::new(self.alloc));
        };
        if name == sym::SELF {
            return Ok(Vec::new(self.alloc));
        }
        macros_brought(self.alloc, &self.world(db, session), node, root)
    }

    /// Puts an extern crate in types, if it is found. Any other is reported, and its name
    /// remembered. On `Err` nothing but safety is promised.
    fn collect_extern_crate(
        &mut self,
        item: CrateItem<'_>,
        brought: Vec<(Name, MacroId)>,
        root: Option<ModuleId>,
    ) -> Result<(), AllocError>
        ensures { OnOk result ((oracle : Oracle) (session : Interner) →
            let effect = crate_rules.crate_effect (state_of self.old session) (site_of item.entry.site.now) item.entry.node.now item.entry.id item.entry.name item.entry.vis brought.items root in
            Performs oracle effect.tasks effect.state (state_of self.new session)) }
    {
        match root {
            Some(root) => {
                let local = &mut self.local_def_map;
                let table = &mut self.table;
                put_crate(
                    local,
                    &mut self.def_map,
                    table,
                    item,
                    brought.as_slice(),
                    root,
                )
            }
            None => miss_crate(&mut self.missing_crates, &mut self.diagnostics, item),
        }
    }
}

/// Puts an extern crate in types. Paths may begin with one that stands at a crate's root, and with
/// the macros that it brings.
fn put_crate(
    local: &mut LocalDefMap,
    def_map: &mut MapData,
    table: &mut Globs<Table>,
    item: CrateItem<'_>,
    brought: &[(Name, MacroId)],
    root: ModuleId,
) -> Result<(), AllocError>
    ensures { OnOk result ((s : State) →
        let effect = crate_rules.crate_effect (with_names s local.old def_map.old table.old) (site_of item.entry.site.now) item.entry.node.now item.entry.id item.entry.name item.entry.vis brought.now (Some root) in
        Updated item.entry.site.now.module_id (crate_rules.crate_entry item.entry.id item.entry.name root item.entry.vis ∷ []) effect.state (with_names s local.new def_map.new table.new)) }
{
    let at = item.site.module_id;
    name_crate(local, at, item.name, root, item.id)?;
    take_at_root(def_map, is_crate_root(at), brought)?;
    let entry = Entry {
        name: item.name,
        ns: Namespace::Types,
        def: Def::Module(root),
        vis: item.vis,
        origin: Some(ImportOrExternCrate::ExternCrate(item.id)),
    };
    put(def_map, table, at, &[entry])
}

/// Reports an extern crate that was not found, and remembers its name.
fn miss_crate(
    missing: &mut MissingCrates,
    diagnostics: &mut Vec<DefDiagnostic>,
    item: CrateItem<'_>,
) -> Result<(), AllocError>
    ensures { OnOk result ((s : State) →
        with_missed s missing.new diagnostics.new
        ≡ reported (with_missing item.entry.name (with_missed s missing.old diagnostics.old))
        (items.diagnostic (site_of item.entry.site.now) item.entry.node.now UnresolvedExternCrate)) }
{
    if let Some(name) = item.name {
        missing.insert(name)?;
    }
    let kind = DefDiagnosticKind::UnresolvedExternCrate;
    report(diagnostics, item.site, item.node, kind)?;
    Ok(())
}
