//! A list of calls of a table.

use super::{glob, module, namespace};
use def_bindings::{Binding, BindingTable, EdgeTo, ImportOrExternCrate, Visibility};
use def_ids::{Def, StructId, TraitId};
use item_tree::Name;
use std::alloc::AllocError;

/// One of two hundred visibilities.
fn visibility(k: usize) -> Visibility {
    Visibility::Module(module(k))
}

/// One of the calls, by its number.
pub fn call<T: BindingTable<Vis = Visibility>>(table: &mut T, k: usize) -> Result<(), AllocError> {
    let place = module(k % 3);
    let name = Name((k / 3) % 5);
    let ns = namespace(k / 2);
    match (k / 5) % 6 {
        0 | 1 | 2 => {
            let binding = Binding {
                def: Def::Struct(StructId(k)),
                vis: visibility(k % 11),
                import: Some(ImportOrExternCrate::Glob(glob(k % 4))),
            };
            table.set(place, name, ns, binding)
        }
        3 => {
            table.remove(place, name, ns);
            Ok(())
        }
        4 => table.set_unnamed(place, TraitId(k % 4), visibility(k)),
        _ => {
            let edge = EdgeTo {
                importer: module(k % 5),
                vis: visibility(k),
                glob: glob(k % 2),
            };
            table.set_edge(place, edge)
        }
    }
}
