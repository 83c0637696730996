//! What attributes are in a finished map.

use def_workspace::{Collected, Workspace};
use hir_def::{
    Attr, AttrId, AttrResolution, FileAstId, FileId, HirFileId, InFile, ModPath, ModuleId,
    ResolvedAttr, ShownPath, SyntaxContext, UnresolvedMacro,
};
use std::alloc::AllocError;
use std::fmt::Write;

/// The first item of the root file.
const POSITION: InFile<FileAstId> = InFile {
    file: HirFileId::File(FileId(0)),
    value: FileAstId(0),
};

/// Writes what the attribute of a path is on the first item of the root file.
pub fn write_attribute(
    workspace: &Workspace,
    collected: &Collected,
    root: ModuleId,
    path: ModPath,
    lines: &mut String,
) -> Result<(), AllocError> {
    let Workspace {
        alloc,
        session,
        db,
        ..
    } = workspace;
    let (map, local) = (&collected.def_map, &collected.local_def_map);
    if map.is_builtin_or_registered_attr(db, &path) {
        write!(lines, " known,")?;
    }
    let attr = Attr {
        path,
        input: None,
        ctxt: SyntaxContext(0),
        paths: None,
    };
    match map.resolve_attr_macro(
        *alloc,
        local,
        db,
        session,
        root,
        POSITION,
        &attr,
        AttrId(0),
        1,
    )? {
        Ok(ResolvedAttr::Macro(call)) => {
            let number = call.0;
            writeln!(lines, " call {number}")
        }
        Ok(ResolvedAttr::Other) => writeln!(lines, " other"),
        Err(UnresolvedMacro { path }) => {
            let path = ShownPath {
                path: &path,
                session,
            };
            writeln!(lines, " no macro {path}")
        }
    }
}
