//! The names that a module sees.
ghost use Rattle.std.specs.Prelude.{IfOk};
ghost use Rattle.def_bindings.specs.Tree.{module_of};
ghost use Rattle.def_map.specs.DefMaps.{view_of};
ghost use Rattle.def_modules.specs.Locals.{local_view};
ghost use Rattle.visible_names.specs.Visible.{ShowsAll};

use crate::brought::{BroughtBy, VisibleName};
use crate::seen::Seen;
use def_ids::ModuleId;
use def_map::{DefMap, LocalDefMap, SourceDatabase};
use std::alloc::{AllocError, Global};

/// All names that a module of a map sees, each with what it means and what brings it: its last textual
/// macros, its scope, the extern prelude, the `macro_use` prelude, and the scope of the prelude module,
/// in this order. A name that an earlier one has in a namespace is left out of the later ones there,
/// and so is what a builtin type hides. So what stands in the list is what a plain path of that one name
/// means, where a module goes before a builtin type of its name.
///
/// The builtin types are not in the list, since the oracle answers them only by name. Nor is what a
/// block's root sees of the maps around it: those are asked for themselves.
pub fn visible_names<D: SourceDatabase>(
    alloc: Global,
    db: &D,
    map: &DefMap,
    local: &LocalDefMap,
    module: usize,
) -> Result<Vec<VisibleName>, AllocError>
    ensures { let own = view_of map.now in
        IfOk result (λ list. ShowsAll (D.oracle db.now) own (local_view local.now) (module_of own.facts.id «module») list.items) }
{
    let place = ModuleId {
        map: map.id(),
        index: module,
    };
    let seen = Seen {
        db,
        map,
        local,
        place,
    };
    let mut list = Vec::new(alloc);
    seen.add_all(&mut list, BroughtBy::TextualMacro)?;
    seen.add_all(&mut list, BroughtBy::Scope)?;
    seen.add_all(&mut list, BroughtBy::ExternPrelude)?;
    seen.add_all(&mut list, BroughtBy::MacroUsePrelude)?;
    seen.add_all(&mut list, BroughtBy::Prelude)?;
    Ok(list)
}
