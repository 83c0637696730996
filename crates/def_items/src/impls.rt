//! Impls, which declare no name.
ghost use Rattle.std.specs.Prelude.{◌≡◌, [], OnOk};
ghost use Rattle.item_tree.specs.declared.items.ModItemKind.TheVariants as kinds;
ghost use Rattle.def_interner.specs.Session.{AddsLocations, session_of};
ghost use Rattle.def_map.specs.Oracle.{Oracle};
ghost use Rattle.def_items.specs.Parts.{with_session};
ghost use Rattle.def_parts.specs.Sites.{site_of};
ghost use Rattle.def_laws.specs.Performs.{Handled};
ghost use Rattle.def_rules.specs.State.{State};

use def_ids::ImplLoc;
use def_interner::{Interner, Location};
use def_map::MapData;
use def_parts::Site;
use item_tree::ItemNode;
use std::alloc::AllocError;

/// Records an impl in its module. On `Err` nothing but safety is promised.
#[inline(never)]
pub fn define_impl(
    def_map: &mut MapData,
    session: &mut Interner,
    site: &Site,
    node: &ItemNode,
    is_trait_impl: bool,
) -> Result<(), AllocError>
    ensures handled { OnOk result ((oracle : Oracle) (s : State) → node.now.kind ≡ kinds.Impl is_trait_impl →
        Handled oracle (with_session s session.old def_map.old) (with_session s session.new def_map.new)
        (site_of site.now) node.now []) }
    ensures session { AddsLocations (session_of session.old) (session_of session.new) }
{
    let id = ImplLoc {
        container: site.module_id,
        position: site.position(node),
    }
    .intern(session)?;
    def_map.define_impl(site.module_id.index, id, is_trait_impl)?;
    Ok(())
}
