//! What paths mean in a finished map: what they name, the module that a visibility with them names,
//! and what attributes with them are.

use crate::examples::items::path_of;
use crate::readers::attributes::write_attribute;
use def_workspace::{Collected, Workspace};
use hir_def::{
    BuiltinShadowMode, ModPath, ModuleId, RawVisibility, ReachedFixedPoint, ResolveMode, ShownDef,
    ShownPath, ShownVisibility,
};
use std::alloc::AllocError;
use std::fmt::Write;

/// The paths that are asked for.
const PATHS: &[&[&str]] = &[
    &["at"],
    &["other"],
    &["a", "other"],
    &["inert"],
    &["rustfmt", "skip"],
    &["a"],
    &["a", "S", "c"],
    &["a", "T"],
    &["b", "T"],
];

/// Writes what a path means, and the segment of it that is left.
fn write_meaning(
    workspace: &Workspace,
    collected: &Collected,
    root: ModuleId,
    path: &ModPath,
    lines: &mut String,
) -> Result<(), AllocError> {
    let Workspace { session, db, .. } = workspace;
    let (map, local) = (&collected.def_map, &collected.local_def_map);
    let (mode, shadow) = (ResolveMode::Other, BuiltinShadowMode::Module);
    let found = map.resolve_path_fp_with_macro(local, db, session, mode, root, path, shadow, None);
    if found.reached_fixedpoint == ReachedFixedPoint::No {
        write!(lines, " missing,")?;
    }
    if let Some(left) = found.segment_index {
        write!(lines, " from {left} on:")?;
    }
    if let Some(item) = found.resolved_def.types {
        let def = item.def;
        let def = ShownDef { def, map, session };
        write!(lines, " {def},")?;
    }
    Ok(())
}

/// Writes what `pub(in path)` means, if the path leads to a module.
fn write_visibility(
    workspace: &Workspace,
    collected: &Collected,
    root: ModuleId,
    path: ModPath,
    lines: &mut String,
) -> Result<(), AllocError> {
    let Workspace { session, db, .. } = workspace;
    let (map, local) = (&collected.def_map, &collected.local_def_map);
    let written = RawVisibility::In(path);
    if let Some(vis) = map.resolve_visibility(local, db, session, root, &written) {
        let vis = ShownVisibility { vis, map, session };
        write!(lines, " {vis},")?;
    }
    Ok(())
}

/// Writes what paths mean in the root. The attribute of one of them is written down as inert.
pub fn write_paths(
    workspace: &mut Workspace,
    collected: &Collected,
    lines: &mut String,
) -> Result<(), AllocError> {
    let inert = workspace.session.intern_name("inert")?;
    workspace.db.add_inert_attr(inert)?;
    let root = ModuleId {
        map: collected.def_map.id(),
        index: 0,
    };
    for segments in PATHS {
        let path = path_of(workspace.alloc, &mut workspace.session, segments)?;
        let session = &workspace.session;
        let shown = ShownPath {
            path: &path,
            session,
        };
        write!(lines, "{shown}:")?;
        write_meaning(workspace, collected, root, &path, lines)?;
        write_visibility(workspace, collected, root, path.clone()?, lines)?;
        write_attribute(workspace, collected, root, path, lines)?;
    }
    Ok(())
}
