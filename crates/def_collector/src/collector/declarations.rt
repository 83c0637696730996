//! Names that items declare.
ghost use Rattle.std.specs.Prelude.{◌≡◌, [], false, true, OnOk};
ghost use Rattle.item_tree.specs.declared.items.ModItemKind.TheVariants as kinds;
ghost use Rattle.def_interner.specs.Session.{AddsLocations, session_of};
ghost use Rattle.def_parts.specs.Sites.{site_of};
ghost use Rattle.def_collector.specs.Collector.{state_of};
ghost use Rattle.def_items.specs.Numbered.{is_declaring};
ghost use Rattle.def_laws.specs.Performs.{Handled, Performs};
ghost use Rattle.def_rules.specs.Items.{declared_effect, written_vis};

use super::DefCollector;
use super::visibility::constructor_visibility;
use def_ids::{Def, ModuleId, StructLoc};
use def_interner::{Interner, Location};
use def_items::{Declaration, Declared, Definition, define, define_struct, number_item};
use def_map::SourceDatabase;
use def_parts::Site;
use item_tree::{CtorVisibility, ItemNode, Name, RawVisibility};
use std::alloc::AllocError;

/// A struct as it is written.
#[derive(Clone, Copy)]
pub struct WrittenStruct<'a> {
    pub name: Name,
    pub visibility: &'a RawVisibility,
    pub ctor: &'a CtorVisibility,
}

impl DefCollector<'_> {
    /// Declares an item of a kind that declares one name in one namespace. A constant without a name
    /// is recorded in its module and declares none. On `Err` nothing but safety is promised.
    pub fn collect_declaration<D: SourceDatabase>(
        &mut self,
        db: &D,
        session: &mut Interner,
        site: &Site,
        node: &ItemNode,
    ) -> Result<(), AllocError>
        ensures handled { OnOk result (is_declaring node.now.kind ≡ true →
            Handled (D.oracle db.now) (state_of self.old session.old) (state_of self.new session.new)
            (site_of site.now) node.now []) }
        ensures others { OnOk result (is_declaring node.now.kind ≡ false →
            state_of self.new session.new ≡ state_of self.old session.old) }
        ensures session { AddsLocations (session_of session.old) (session_of session.new) }
    {
        let declared = number_item(session, site, node)?;
        match declared {
            Declared::Name(declaration) => {
                self.declare(db, session, site.module_id, declaration)
            }
            Declared::UnnamedConst(id) => {
                let module = site.module_id.index;
                self.def_map.define_unnamed_const(module, id)
            }
            Declared::Nothing => Ok(()),
        }
    }

    /// Declares a struct, and its constructor. On `Err` nothing but safety is promised.
    #[inline(never)]
    pub fn collect_struct<D: SourceDatabase>(
        &mut self,
        db: &D,
        session: &mut Interner,
        site: &Site,
        node: &ItemNode,
        written: WrittenStruct<'_>,
    ) -> Result<(), AllocError>
        ensures handled { OnOk result (
            node.now.kind ≡ kinds.Struct written.entry.name written.entry.visibility.now written.entry.ctor.now →
            Handled (D.oracle db.now) (state_of self.old session.old) (state_of self.new session.new)
            (site_of site.now) node.now []) }
        ensures session { AddsLocations (session_of session.old) (session_of session.new) }
    {
        let id = StructLoc {
            container: site.module_id,
            position: site.position(node),
        }
        .intern(session)?;
        let at = site.module_id;
        let ctor_vis = constructor_visibility(&self.world(db, session), at, written.ctor);
        let defined = Definition {
            name: written.name,
            def: Def::Struct(id),
            vis: self.resolve_visibility(db, session, at, written.visibility),
        };
        define_struct(&mut self.def_map, &mut self.table, at, defined, ctor_vis)
    }

    /// Declares a definition in one namespace, as visible as is written. On `Err` nothing but
    /// safety is promised.
    #[inline(always)]
    pub(super) fn declare<D: SourceDatabase>(
        &mut self,
        db: &D,
        session: &Interner,
        module_id: ModuleId,
        declared: Declaration<'_>,
    ) -> Result<(), AllocError>
        ensures { OnOk result (let s = state_of self.old session.now in
            let vis = written_vis (D.oracle db.now) s module_id declared.entry.vis.now in
            let effect = declared_effect s module_id declared.entry.name declared.entry.ns declared.entry.def vis in
            Performs (D.oracle db.now) effect.tasks effect.state (state_of self.new session.now)) }
    {
        let defined = Definition {
            name: declared.name,
            def: declared.def,
            vis: self.resolve_visibility(db, session, module_id, declared.vis),
        };
        let table = &mut self.table;
        define(&mut self.def_map, table, module_id, declared.ns, defined)
    }
}
