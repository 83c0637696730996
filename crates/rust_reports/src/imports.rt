//! What is reported of imports that are not found.

use crate::opaque::{ImportKey, Opaque};
use crate::reports::{At, Reports, at_spot};
use crate::stops::Stop;
use crate::words::spot_of_segment;
use def_ids::ModuleId;
use def_rules::{DefDiagnostic, LeftImport};
use item_tree::Name;
use rust_codebase::Codebase;
use rust_names::Names;
use std::alloc::AllocError;

/// Where an import stops: at which name of its path, and in which module that is not bound.
#[derive(Clone, Copy)]
pub(crate) struct Lack {
    pub(crate) module: ModuleId,
    pub(crate) name: Name,
    /// How many names stand behind that one.
    pub(crate) behind: usize,
}

/// What an import lacks that stops there.
pub(crate) fn lack_at(import: &LeftImport, stop: Stop) -> Option<Lack> {
    match stop {
        Stop::Lacks { module, name, at } => {
            let last = import.path.segments.len().saturating_sub(1);
            let behind = last.saturating_sub(at);
            Some(Lack {
                module,
                name,
                behind,
            })
        }
        Stop::Absent(_) | Stop::Other => None,
    }
}

/// Adds a module by its path.
fn add_place<C: Codebase>(
    names: &Names<'_, C>,
    what: &mut String,
    module: ModuleId,
) -> Result<(), AllocError> {
    what.push_str("` in `")?;
    names.add_module(what, module)?;
    what.push_str("`")?;
    Ok(())
}

/// Adds at which name a path stops.
fn add_lack<C: Codebase>(
    names: &Names<'_, C>,
    what: &mut String,
    lack: Lack,
) -> Result<(), AllocError> {
    what.push_str(": there is no `")?;
    what.push_str(names.text(lack.name))?;
    add_place(names, what, lack.module)
}

/// That an import is not found.
fn not_found<C: Codebase>(names: &Names<'_, C>, key: ImportKey) -> Result<String, AllocError> {
    let text = names.import_text(key.position, key.index)?;
    format!(in names.alloc; "`{text}` is not found")
}

/// What is said of an import that is not found.
fn import_text<C: Codebase>(
    names: &Names<'_, C>,
    key: ImportKey,
    lack: Option<Lack>,
) -> Result<String, AllocError> {
    let mut what = not_found(names, key)?;
    if let Some(lack) = lack {
        add_lack(names, &mut what, lack)?;
    }
    Ok(what)
}

/// Where the name of an import stands that is lacking.
fn place_of<C: Codebase>(names: &Names<'_, C>, key: ImportKey, lack: Option<Lack>) -> At {
    let behind = match lack {
        Some(lack) => lack.behind,
        None => 0,
    };
    at_spot(spot_of_segment(names, key.position, key.index, behind))
}

impl Reports {
    /// Adds a report of an import that is not found, by where it stops.
    fn add_lacking<C: Codebase>(
        &mut self,
        names: &Names<'_, C>,
        key: ImportKey,
        lack: Option<Lack>,
    ) -> Result<(), AllocError> {
        let what = import_text(names, key, lack)?;
        self.add(place_of(names, key, lack), "unresolved-import", what)
    }

    /// Adds a report of an import that is not found, by its number in its `use` item.
    pub(crate) fn add_import<C: Codebase>(
        &mut self,
        names: &Names<'_, C>,
        opaque: &Opaque,
        diagnostic: &DefDiagnostic,
        index: u32,
    ) -> Result<(), AllocError> {
        let key = ImportKey::in_item(diagnostic, index);
        if opaque.has_import(key) {
            self.leave_out();
            return Ok(());
        }
        self.add_lacking(names, key, opaque.lack_of(key))
    }
}
