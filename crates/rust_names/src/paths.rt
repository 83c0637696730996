//! Paths and visibilities as they are written.

use crate::names::Names;
use def_bindings::Visibility;
use def_ids::{Def, ModuleId, VariantId};
use def_map::DefMap;
use rust_codebase::Codebase;
use std::alloc::{AllocError, Global};

/// The modules below the root of a map on the way down to a module, and that module.
fn downwards(alloc: Global, map: &DefMap, index: usize) -> Result<Vec<usize>, AllocError> {
    let mut path = Vec::new(alloc);
    let mut at = index;
    for _ in 0..map.modules().len() {
        let Some(parent) = map.parent(at) else {
            break;
        };
        path.push(at)?;
        at = parent;
    }
    path.reverse();
    Ok(path)
}

impl<'a, C: Codebase> Names<'a, C> {
    /// Adds the name of a module below the root of a map.
    fn add_module_name(
        &self,
        text: &mut String,
        map: &DefMap,
        index: usize,
    ) -> Result<(), AllocError> {
        text.push_str("::")?;
        let name = match map.module(index) {
            Some(module) => module.name,
            None => None,
        };
        match name {
            Some(name) => text.push_str(self.text(name)),
            None => text.push_str("?"),
        }
    }

    /// Adds the path of a module.
    pub fn add_module(&self, text: &mut String, module: ModuleId) -> Result<(), AllocError> {
        text.push_str(self.crate_name(module.map.krate))?;
        let Some(map) = self.map(module.map.krate) else {
            return Ok(());
        };
        for index in downwards(self.alloc, map, module.index)?.iter() {
            self.add_module_name(text, map, *index)?;
        }
        Ok(())
    }

    /// The path of a module.
    pub fn module_path(&self, module: ModuleId) -> Result<String, AllocError> {
        let mut text = String::new(self.alloc);
        self.add_module(&mut text, module)?;
        Ok(text)
    }

    /// Adds the path of a variant.
    fn add_variant(&self, text: &mut String, id: VariantId) -> Result<(), AllocError> {
        let Some(home) = self.variants.get(&id).copied() else {
            return text.push_str("?");
        };
        if let Some(module) = self.enums.get(&home.position) {
            self.add_module(text, *module)?;
            text.push_str("::")?;
        }
        text.push_str(self.places.name_of_item(home.position).unwrap_or("?"))?;
        text.push_str("::")?;
        text.push_str(self.text(home.name))
    }

    /// Adds the name of a builtin type.
    fn add_builtin(&self, text: &mut String, number: u32) -> Result<(), AllocError> {
        match self.builtins.get(&number) {
            Some(name) => text.push_str(self.text(*name)),
            None => text.push_str("?"),
        }
    }

    /// The name with which a definition is declared, if it is an item's.
    pub fn declared_name(&self, def: Def) -> Option<&'a str> {
        self.places.name_of_item(self.position_of(def)?)
    }

    /// Adds the path of an item within a module.
    fn add_item(&self, text: &mut String, def: Def) -> Result<(), AllocError> {
        if let Some(module) = self.codebase().home_of(def) {
            self.add_module(text, module)?;
            text.push_str("::")?;
        }
        text.push_str(self.declared_name(def).unwrap_or("?"))
    }

    /// Adds the path at which a definition is declared.
    pub fn add_def(&self, text: &mut String, def: Def) -> Result<(), AllocError> {
        match def {
            Def::Module(module) => self.add_module(text, module),
            Def::Variant(id) => self.add_variant(text, id),
            Def::Builtin(number) => self.add_builtin(text, number),
            _ => self.add_item(text, def),
        }
    }

    /// The path at which a definition is declared.
    pub fn def_path(&self, def: Def) -> Result<String, AllocError> {
        let mut text = String::new(self.alloc);
        self.add_def(&mut text, def)?;
        Ok(text)
    }

    /// A visibility as it is written: `pub`, `pub(crate)`, or `pub(in crate::a)`.
    pub fn visibility(&self, vis: Visibility) -> Result<String, AllocError> {
        let mut text = String::new(self.alloc);
        match vis {
            Visibility::Public => text.push_str("pub")?,
            Visibility::PubCrate => text.push_str("pub(crate)")?,
            Visibility::Module(module) => {
                text.push_str("pub(in ")?;
                self.add_module(&mut text, module)?;
                text.push_str(")")?;
            }
        }
        Ok(text)
    }
}
