//! Modules and visibilities as text.

use crate::paths::ShownName;
use def_bindings::Visibility;
use def_ids::ModuleId;
use def_interner::Interner;
use def_map::DefMap;
use std::fmt;

/// A module by its path from the root of its map, as `crate::a::b`. The root of a block's map is
/// `{block}`. A module of another map is told by its number, as `crate#3[1]`.
#[derive(Clone, Copy)]
pub struct ShownModule<'a> {
    pub module: ModuleId,
    pub map: &'a DefMap,
    pub session: &'a Interner,
}

/// The module that lies so many levels above another one.
fn above(map: &DefMap, index: usize, levels: usize) -> usize {
    let mut at = index;
    for _ in 0..levels {
        at = map.parent(at).unwrap_or(0);
    }
    at
}

/// How many levels a module lies below its root.
fn depth(map: &DefMap, index: usize) -> usize {
    let mut at = index;
    let most = map.modules().len();
    for levels in 0..most {
        match map.parent(at) {
            Some(parent) => at = parent,
            None => return levels,
        }
    }
    most
}

impl<'a> ShownModule<'a> {
    /// The name of a module of the map. A root has none.
    fn write_name<W: fmt::Write>(&self, f: &mut fmt::Formatter<W>, index: usize) -> fmt::Result {
        match self.map.module(index) {
            Some(found) => match found.name {
                Some(name) => {
                    let shown = ShownName {
                        name,
                        session: self.session,
                    };
                    write!(f, "{shown}")
                }
                None => f.write_str("?"),
            },
            None => f.write_str("?"),
        }
    }
}

impl<'a> fmt::Display for ShownModule<'a> {
    fn fmt<W: fmt::Write>(&self, f: &mut fmt::Formatter<W>) -> fmt::Result {
        if self.module.map != self.map.id() {
            let krate = self.module.map.krate.0;
            let index = self.module.index;
            return write!(f, "crate#{krate}[{index}]");
        }
        match self.module.map.block {
            Some(_) => f.write_str("{block}")?,
            None => f.write_str("crate")?,
        }
        let levels = depth(self.map, self.module.index);
        for level in (0..levels).rev() {
            f.write_str("::")?;
            self.write_name(f, above(self.map, self.module.index, level))?;
        }
        Ok(())
    }
}

/// A visibility as it is written: `pub`, `pub(crate)`, or `pub(in crate::a)` for the module from which
/// an item is seen.
#[derive(Clone, Copy)]
pub struct ShownVisibility<'a> {
    pub vis: Visibility,
    pub map: &'a DefMap,
    pub session: &'a Interner,
}

impl<'a> fmt::Display for ShownVisibility<'a> {
    fn fmt<W: fmt::Write>(&self, f: &mut fmt::Formatter<W>) -> fmt::Result {
        match self.vis {
            Visibility::Public => f.write_str("pub"),
            Visibility::PubCrate => f.write_str("pub(crate)"),
            Visibility::Module(module) => {
                let shown = ShownModule {
                    module,
                    map: self.map,
                    session: self.session,
                };
                write!(f, "pub(in {shown})")
            }
        }
    }
}
