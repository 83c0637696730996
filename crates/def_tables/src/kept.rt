//! How a table keeps visibilities.
ghost use Rattle.std.specs.Prelude.{◌≡◌, IfSome};
ghost use Rattle.def_ids.specs.declared.ids.MapId.{MapId};
ghost use Rattle.def_tables.specs.Kept.{as_it_is, numbered_vis};

use crate::short::short_number;
use def_bindings::Visibility;
use def_ids::{MapId, ModuleId};

/// What a table of one map keeps of a visibility `V`, so that the map says the rest.
pub trait Kept<V>: Copy {
    /// The visibility that is meant.
    ghost meaning: { MapId → Self → V };

    /// A visibility as it is kept, where it can be.
    fn keep(map: MapId, vis: V) -> Option<Self>
        ensures { IfSome result (λ kept. meaning map kept ≡ vis) };

    /// The visibility.
    fn vis(self, map: MapId) -> V
        ensures { result ≡ meaning map self };
}

/// A visibility may be kept as it is.
impl<V: Copy> Kept<V> for V {
    ghost meaning = { as_it_is };

    #[inline(always)]
    fn keep(_map: MapId, vis: V) -> Option<V> {
        Some(vis)
    }

    #[inline(always)]
    fn vis(self, _map: MapId) -> V {
        self
    }
}

/// A visibility by number: everywhere, in the crate, and then those of the map's modules.
#[derive(Clone, Copy)]
pub struct VisNumber(u32);

/// That of a module of another map has no number.
impl Kept<Visibility> for VisNumber {
    ghost meaning = { numbered_vis };

    #[inline(always)]
    fn keep(map: MapId, vis: Visibility) -> Option<VisNumber> {
        match vis {
            Visibility::Public => Some(VisNumber(0)),
            Visibility::PubCrate => Some(VisNumber(1)),
            Visibility::Module(module) => {
                if module.map == map {
                    Some(VisNumber(short_number(module.index.checked_add(2)?)?))
                } else {
                    None
                }
            }
        }
    }

    #[inline(always)]
    fn vis(self, map: MapId) -> Visibility {
        let number = self.0;
        if number == 0 {
            Visibility::Public
        } else if number == 1 {
            Visibility::PubCrate
        } else {
            let index = (number - 2) as usize;
            Visibility::Module(ModuleId { map, index })
        }
    }
}
