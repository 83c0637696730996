//! Imports that are to be resolved.
ghost use Rattle.std.specs.Prelude.{◌≡◌, [], OnOk};
ghost use Rattle.item_tree.specs.declared.items.ModItemKind.TheVariants as kinds;
ghost use Rattle.def_interner.specs.Session.{AddsLocations, session_of};
ghost use Rattle.def_map.specs.Oracle.{Oracle};
ghost use Rattle.def_parts.specs.Sites.{site_of};
ghost use Rattle.def_collector.specs.Collector.{state_of};
ghost use Rattle.def_laws.specs.Performs.{Handled};

use super::DefCollector;
use def_ids::UseLoc;
use def_interner::{Interner, Location};
use def_parts::Site;
use def_steps::{WrittenUse, is_prelude_import};
use item_tree::{ItemNode, RawVisibility, Seq, UseImport};
use std::alloc::AllocError;

impl<'a> DefCollector<'a> {
    /// Queues the imports of a `use` item. On `Err` nothing but safety is promised.
    #[inline(never)]
    pub fn collect_use(
        &mut self,
        session: &mut Interner,
        site: &Site,
        node: &ItemNode,
        visibility: &'a RawVisibility,
        imports: &'a Seq<UseImport>,
    ) -> Result<(), AllocError>
        ensures handled { OnOk result ((oracle : Oracle) →
            node.now.kind ≡ kinds.Use visibility.now imports.now →
            Handled oracle (state_of self.old session.old) (state_of self.new session.new)
            (site_of site.now) node.now []) }
        ensures session { AddsLocations (session_of session.old) (session_of session.new) }
    {
        let position = site.position(node);
        let use_id = UseLoc {
            container: site.module_id,
            position,
        }
        .intern(session)?;
        let written = WrittenUse {
            position,
            use_id,
            vis: visibility,
            is_prelude: is_prelude_import(node),
        };
        self.imports
            .queue(site.module_id, written, imports.as_slice())
    }
}
