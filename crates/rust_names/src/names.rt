//! Modules and definitions by their names.

use crate::places::{Places, Spot};
use crate::variants::{VariantHome, variant_homes};
use def_bindings::Visibility;
use def_ids::{Def, MacroId, MacroRulesId, ModuleId, VariantId};
use def_map::{DefMap, ItemScope};
use indexmap::IndexMap;
use item_tree::{Crate, FileAstId, HirFileId, InFile, Name};
use rust_codebase::{Codebase, CollectedCrate};
use std::alloc::{AllocError, Global};

/// What names are told by: all that was read and collected, the crate whose paths begin with `crate`, and
/// what leads from numbers back to names.
#[derive(Drop)]
pub struct Names<'a, C> {
    pub alloc: Global,
    pub places: Places<'a, C>,
    pub home: Crate,
    crates: IndexMap<Crate, &'a str>,
    pub(crate) variants: IndexMap<VariantId, VariantHome>,
    /// The modules in which enums stand.
    pub(crate) enums: IndexMap<InFile<FileAstId>, ModuleId>,
    pub(crate) builtins: IndexMap<u32, Name>,
}

/// The names of the crates of a workspace.
fn crate_names(
    alloc: Global,
    crates: &[CollectedCrate],
) -> Result<IndexMap<Crate, &str>, AllocError> {
    let mut names = IndexMap::new(alloc);
    for collected in crates {
        names.insert(collected.krate, collected.name.as_str())?;
    }
    Ok(names)
}

/// Adds the enums that a module declares.
fn add_enums<C: Codebase>(
    homes: &mut IndexMap<InFile<FileAstId>, ModuleId>,
    codebase: &C,
    map: &DefMap,
    index: usize,
) -> Result<(), AllocError> {
    let Some(scope) = map.scope(index) else {
        return Ok(());
    };
    let module = ModuleId {
        map: map.id(),
        index,
    };
    for def in scope.declarations() {
        if let Def::Enum(_) = def {
            if let Some(position) = codebase.position_of(module.map.krate, *def) {
                homes.insert(position, module)?;
            }
        }
    }
    Ok(())
}

/// The module of each enum. The session has those of earlier rounds too, so it is not asked for them.
fn enum_homes<C: Codebase>(
    alloc: Global,
    codebase: &C,
) -> Result<IndexMap<InFile<FileAstId>, ModuleId>, AllocError> {
    let mut homes = IndexMap::new(alloc);
    for map in codebase.maps().values() {
        for index in 0..map.modules().len() {
            add_enums(&mut homes, codebase, map, index)?;
        }
    }
    Ok(homes)
}

/// The names of the builtin types by their numbers.
fn builtin_names(
    alloc: Global,
    numbers: &IndexMap<Name, u32>,
) -> Result<IndexMap<u32, Name>, AllocError> {
    let mut names = IndexMap::new(alloc);
    for (name, number) in numbers.iter() {
        names.insert(*number, *name)?;
    }
    Ok(names)
}

/// What a definition is.
pub fn kind_word(def: Def) -> &'static str {
    match def {
        Def::Module(id) if id.index == 0 => "crate",
        Def::Module(_) => "mod",
        Def::Function(_) => "fn",
        Def::Struct(_) => "struct",
        Def::Union(_) => "union",
        Def::Enum(_) => "enum",
        Def::Variant(_) => "variant",
        Def::Const(_) => "const",
        Def::Static(_) => "static",
        Def::Trait(_) => "trait",
        Def::TypeAlias(_) => "type",
        Def::Builtin(_) => "builtin type",
        Def::Macro(MacroId::MacroRules(_)) => "macro_rules",
        Def::Macro(MacroId::Macro2(_)) => "macro",
        Def::Macro(MacroId::ProcMacro(_)) => "procedural macro",
    }
}

impl<'a, C: Codebase> Names<'a, C> {
    /// What names of a codebase are told by, seen from a crate.
    pub fn new(alloc: Global, codebase: &'a C, home: Crate) -> Result<Names<'a, C>, AllocError> {
        Ok(Names {
            alloc,
            home,
            crates: crate_names(alloc, codebase.crates())?,
            variants: variant_homes(alloc, codebase)?,
            enums: enum_homes(alloc, codebase)?,
            builtins: builtin_names(alloc, codebase.builtin_types())?,
            places: Places::new(alloc, codebase)?,
        })
    }

    /// All that was read and collected.
    pub fn codebase(&self) -> &'a C {
        self.places.codebase
    }

    /// The text of a name.
    pub fn text(&self, name: Name) -> &'a str {
        self.codebase().text(name).unwrap_or("?")
    }

    /// The name of a text, if any text has it.
    pub fn find_name(&self, text: &str) -> Option<Name> {
        self.codebase().find_name(text)
    }

    /// Adds a macro to those that a module defines, if it does.
    fn add_textual(
        &self,
        defined: &mut Vec<MacroRulesId>,
        module: ModuleId,
        id: MacroId,
    ) -> Result<(), AllocError> {
        if let MacroId::MacroRules(id) = id {
            let def = Def::Macro(MacroId::MacroRules(id));
            if self.codebase().home_of(def) == Some(module) {
                defined.push(id)?;
            }
        }
        Ok(())
    }

    /// The macros by example that a module defines, which are bound from there on in the text.
    pub fn textual_macros(&self, module: ModuleId) -> Result<Vec<MacroRulesId>, AllocError> {
        let mut defined = Vec::new(self.alloc);
        let Some(scope) = self.scope(module) else {
            return Ok(defined);
        };
        for macros in scope.legacy_macros().values() {
            for id in macros.as_slice() {
                self.add_textual(&mut defined, module, *id)?;
            }
        }
        defined.sort_by_key(|id| id.0)?;
        Ok(defined)
    }

    /// The map of a crate.
    pub fn map(&self, krate: Crate) -> Option<&'a DefMap> {
        self.codebase().maps().get(&krate)
    }

    /// What a module binds.
    pub fn scope(&self, module: ModuleId) -> Option<ItemScope<'a>> {
        self.map(module.map.krate)?.scope(module.index)
    }

    /// The name by which paths to a crate begin.
    pub fn crate_name(&self, krate: Crate) -> &'a str {
        if krate == self.home {
            return "crate";
        }
        self.crates.get(&krate).copied().unwrap_or("?")
    }

    /// Where a definition is declared. That of a variant is its enum.
    pub fn position_of(&self, def: Def) -> Option<InFile<FileAstId>> {
        match def {
            Def::Variant(id) => Some(self.variants.get(&id)?.position),
            Def::Module(module) => self.codebase().position_of(module.map.krate, def),
            _ => self.codebase().position_of(self.home, def),
        }
    }

    /// The beginning of the root file of a crate.
    fn root_spot(&self, krate: Crate) -> Option<Spot> {
        let root = self.codebase().root_file(krate)?;
        let file = self.codebase().files().get(&root)?;
        Some(Spot {
            source: file.source,
            start: 0,
            end: 0,
        })
    }

    /// Where a definition stands, as readers of files count.
    pub fn spot_of(&self, def: Def) -> Option<Spot> {
        if let Def::Variant(id) = def {
            let home = self.variants.get(&id)?;
            if let (false, Some(token)) = (self.is_expanded(home.position), home.token) {
                return Some(self.places.spot_of_token(token));
            }
        }
        match self.position_of(def) {
            Some(position) => self.places.spot_of_item(position),
            None => match def {
                Def::Module(module) if module.index == 0 => self.root_spot(module.map.krate),
                _ => None,
            },
        }
    }

    /// The path of the file in which the items of a module stand.
    pub fn file_of(&self, module: ModuleId) -> Option<&'a str> {
        let spot = self.spot_of(Def::Module(module))?;
        Some(self.places.path(spot.source))
    }

    /// Whether an item is an expansion's, and not a file's.
    pub fn is_expanded(&self, position: InFile<FileAstId>) -> bool {
        matches!(position.file, HirFileId::Macro(_))
    }
}
