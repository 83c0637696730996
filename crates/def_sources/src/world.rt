//! What paths are read against.

use crate::asked::Asked;
use def_interner::Interner;
use def_modules::{LocalDefMap, MapData};

/// What paths are read against: a map, which is its data and its table, the names of its crate for
/// other crates, the answers of a database, and the session.
#[derive_where(Clone, Copy)]
pub struct World<'a, D, T> {
    pub map: &'a MapData,
    pub table: &'a T,
    pub local: &'a LocalDefMap,
    pub db: &'a D,
    pub session: &'a Interner,
}

/// A world, and how the paths of one call are asked in it.
pub struct Asking<'a, D, T> {
    pub world: World<'a, D, T>,
    pub asked: Asked,
}

impl<'a, D, T> Drop for Asking<'a, D, T> {
    fn drop(self) {
        let Asking { world: _, asked: _ } = self;
    }
}
