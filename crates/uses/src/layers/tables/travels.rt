//! A list of calls while names travel in a table.

use super::scripts::Step;
use super::{MODULES, glob, module, namespace};
use def_bindings::{Entry, ImportOrExternCrate, Visibility};
use def_ids::{Def, ImportId, StructId, TraitId, UseId};
use item_tree::Name;

/// How many names the calls are about. No module has more edges or unnamed traits.
const NAMES: usize = 8;

/// A number below 257, by that of a call: each factor gives another order of these numbers.
fn scattered(k: usize, factor: usize) -> usize {
    k.wrapping_mul(factor) % 257
}

fn visibility(k: usize) -> Visibility {
    match k % 4 {
        0 => Visibility::Module(module(k % MODULES)),
        1 => Visibility::PubCrate,
        _ => Visibility::Public,
    }
}

fn origin(k: usize) -> Option<ImportOrExternCrate> {
    match k % 4 {
        0 => None,
        1 => Some(ImportOrExternCrate::Import(ImportId {
            use_id: UseId(k),
            idx: 1,
        })),
        _ => Some(ImportOrExternCrate::Glob(glob(k % 3))),
    }
}

/// An entry, by its number: an unnamed trait, or a name.
fn entry(k: usize) -> Entry<Visibility> {
    let (name, def) = match scattered(k, 59) % 7 {
        0 => (None, Def::Trait(TraitId(k % 3))),
        kind => (
            Some(Name(scattered(k, 97) % NAMES)),
            Def::Struct(StructId(kind)),
        ),
    };
    Entry {
        name,
        ns: namespace(scattered(k, 151)),
        def,
        vis: visibility(scattered(k, 211)),
        origin: origin(scattered(k, 31)),
    }
}

/// One of the calls, by its number. There is an edge from each module to each other one in the end.
pub fn travel(k: usize) -> Step {
    let round = k / 5;
    let source = round % MODULES;
    let importer = (source + 1 + round % 4) % MODULES;
    if k % 5 == 4 {
        let vis = visibility(scattered(k, 43));
        Step::Edge(module(source), module(importer), vis, glob(k))
    } else {
        let place = module(scattered(k, 73) % MODULES);
        Step::List(place, entry(k), Some(entry(k / 2)))
    }
}
