//! What else is known of a finished map, and the directories of modules.

use def_workspace::{Collected, Workspace};
use hir_def::{
    Crate, DefMap, Edition, FileAstId, FileId, HirFileId, InFile, Interner, ItemScope, MacroId,
    MacroRulesId, ModDir, Text,
};
use std::alloc::{AllocError, Global};
use std::fmt::Write;

/// The third item of the root file, which is a macro.
const MACRO: InFile<FileAstId> = InFile {
    file: HirFileId::File(FileId(0)),
    value: FileAstId(2),
};

/// Whether the module in the second file is found, and what names it to the root.
fn finds_parts(map: &DefMap) -> bool {
    map.module_of_file(FileId(1)) == Some(1)
        && map.module_of_file(FileId(0)).is_none()
        && map.macro_by_position(MACRO) == Some(MacroId::MacroRules(MacroRulesId(0)))
        && map.edge_at(1, 0).is_some()
}

/// Whether the root has what is recorded without a name.
fn has_records(session: &mut Interner, scope: ItemScope<'_>) -> Result<bool, AllocError> {
    let (missing, found) = (session.intern_name("T")?, session.intern_name("S")?);
    Ok(
        scope.failed(missing)
            && !scope.failed(found)
            && scope.impls().len() == 2
            && scope.extern_blocks().len() == 1
            && scope.unnamed_consts().len() == 1,
    )
}

/// Whether a map that is seeded is fresh, and this one is not.
fn was_filled(alloc: Global, map: &DefMap) -> Result<bool, AllocError> {
    let seeded = DefMap::seed(alloc, Crate(0), Edition::Edition2021, None)?;
    Ok(seeded.is_fresh() && !map.is_fresh())
}

/// Whether an inline module's directory is that of its name, also in a copy.
fn descends(alloc: Global) -> Result<bool, AllocError> {
    let Some(dir) = ModDir::root(alloc).descend_into_definition("foo", None)? else {
        return Ok(false);
    };
    let copy = dir.clone()?;
    let path = Text::from_str(alloc, copy.dir_path().clone()?.as_str())?;
    Ok(path.as_str() == "foo/" && copy.depth() == 1 && !copy.root_non_dir_owner())
}

/// Writes whether a map is read so.
pub fn write_map(
    workspace: &mut Workspace,
    collected: &Collected,
    lines: &mut String,
) -> Result<(), AllocError> {
    let map = &collected.def_map;
    let feature = workspace.session.intern_name("f")?;
    let (parts, enabled) = (finds_parts(map), map.features().is_enabled(feature));
    let (filled, below) = (
        was_filled(workspace.alloc, map)?,
        descends(workspace.alloc)?,
    );
    writeln!(lines, "{parts} {enabled} {filled} {below}")?;
    if let Some(scope) = map.scope(0) {
        let records = has_records(&mut workspace.session, scope)?;
        writeln!(lines, "{records}")?;
    }
    Ok(())
}
