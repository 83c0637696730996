//! Functions, and the procedural macros that they export.
ghost use Rattle.std.specs.Prelude.{◌≡◌, [], true, OnOk, Some};
ghost use Rattle.item_tree.specs.declared.items.ModItemKind.TheVariants as kinds;
ghost use Rattle.def_interner.specs.Session.{AddsLocations, FunctionItem, session_of};
ghost use Rattle.def_parts.specs.Sites.{site_of};
ghost use Rattle.def_collector.specs.Collector.{state_of};
ghost use Rattle.def_laws.specs.Performs.{Handled};
ghost use Rattle.def_rules.specs.Items.{loc_of};
ghost use Rattle.def_rules.specs.Targets.{leaves_out};

use super::DefCollector;
use def_bindings::Namespace;
use def_ids::{Def, FunctionId};
use def_interner::Interner;
use def_items::{Declaration, number_function};
use def_macros::{ExportingFunction, define_exported, exports_macros, number_proc_macro};
use def_map::SourceDatabase;
use def_parts::Site;
use item_tree::{ItemNode, Name, RawVisibility};
use std::alloc::AllocError;

/// A function as it is written.
#[derive(Clone, Copy)]
pub struct WrittenFunction<'a> {
    pub name: Name,
    pub visibility: &'a RawVisibility,
}

impl DefCollector<'_> {
    /// Declares a function. One in the root of a crate of procedural macros may export such a macro.
    /// On `Err` nothing but safety is promised.
    pub fn collect_function<D: SourceDatabase>(
        &mut self,
        db: &D,
        session: &mut Interner,
        site: &Site,
        node: &ItemNode,
        written: WrittenFunction<'_>,
    ) -> Result<(), AllocError>
        ensures handled { OnOk result (node.now.kind ≡ kinds.Function written.entry.name written.entry.visibility.now →
            Handled (D.oracle db.now) (state_of self.old session.old) (state_of self.new session.new)
            (site_of site.now) node.now []) }
        ensures session { AddsLocations (session_of session.old) (session_of session.new) }
    {
        let id = number_function(session, site, node)?;
        if exports_macros(self.is_proc_macro, &self.def_map, site.module_id) {
            return self.collect_exporting(db, session, site, node, written, id);
        }
        let declaration = Declaration {
            name: written.name,
            ns: Namespace::Values,
            def: Def::Function(id),
            vis: written.visibility,
        };
        self.declare(db, session, site.module_id, declaration)
    }

    /// Declares a function in the root of a crate of procedural macros, with the macro that it declares,
    /// if it declares one. It stands apart, since few crates are such. On `Err` nothing but safety is
    /// promised.
    #[inline(never)]
    fn collect_exporting<D: SourceDatabase>(
        &mut self,
        db: &D,
        session: &mut Interner,
        site: &Site,
        node: &ItemNode,
        written: WrittenFunction<'_>,
        id: FunctionId,
    ) -> Result<(), AllocError>
        requires root { leaves_out (state_of self.old session.old) (site_of site.now).scope ≡ true }
        requires numbered { (session_of session.old).item FunctionItem id.0 ≡ Some (loc_of (site_of site.now) FunctionItem node.now) }
        ensures handled { OnOk result (node.now.kind ≡ kinds.Function written.entry.name written.entry.visibility.now →
            Handled (D.oracle db.now) (state_of self.old session.old) (state_of self.new session.new)
            (site_of site.now) node.now []) }
        ensures session { AddsLocations (session_of session.old) (session_of session.new) }
    {
        let name = written.name;
        let alloc = self.alloc;
        let exported = number_proc_macro(alloc, db, session, &self.def_map, site, node, name)?;
        match exported {
            Some(exported) => {
                let module_id = site.module_id;
                let vis = self.resolve_visibility(db, session, module_id, written.visibility);
                let function = ExportingFunction { name, id, vis };
                let table = &mut self.table;
                define_exported(&mut self.def_map, table, site, node, function, exported)
            }
            None => {
                let declaration = Declaration {
                    name,
                    ns: Namespace::Values,
                    def: Def::Function(id),
                    vis: written.visibility,
                };
                self.declare(db, session, site.module_id, declaration)
            }
        }
    }
}
