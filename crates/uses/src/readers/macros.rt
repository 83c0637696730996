//! Which macros paths name in a finished map: those that fit what is asked for.

use crate::examples::items::path_of;
use def_map::{Asked, resolve_path_macro};
use def_workspace::{Collected, Workspace};
use hir_def::{
    BuiltinShadowMode, Def, MacroSubNs, ModPath, ModuleId, ResolveMode, ShownDef, ShownPath,
};
use std::alloc::AllocError;
use std::fmt::Write;

/// The paths that are asked for.
const PATHS: &[&[&str]] = &[
    &["t"],
    &["m"],
    &["n"],
    &["at"],
    &["used"],
    &["p"],
    &["a", "n"],
    &["gone"],
];

/// How they are asked for: as calls, as attributes, and as imports that want a macro to call.
const WAYS: [(&str, ResolveMode, MacroSubNs); 3] = [
    ("call", ResolveMode::Other, MacroSubNs::Bang),
    ("attribute", ResolveMode::Other, MacroSubNs::Attr),
    ("import", ResolveMode::Import, MacroSubNs::Bang),
];

/// Writes the macro that a path names in each way in which it names one.
fn write_named(
    workspace: &Workspace,
    collected: &Collected,
    place: ModuleId,
    path: &ModPath,
    lines: &mut String,
) -> Result<(), AllocError> {
    let Workspace { session, db, .. } = workspace;
    let map = &collected.def_map;
    let world = map.world(&collected.local_def_map, db, session);
    for (way, mode, sub) in WAYS {
        let asked = Asked {
            mode,
            shadow: BuiltinShadowMode::Module,
            sub: Some(sub),
        };
        if let Some(id) = resolve_path_macro(&world, asked, place, path) {
            let def = Def::Macro(id);
            let def = ShownDef { def, map, session };
            write!(lines, " {way} {def},")?;
        }
    }
    Ok(())
}

/// Writes which macros paths name in a module.
pub fn write_macros(
    workspace: &mut Workspace,
    collected: &Collected,
    module: usize,
    lines: &mut String,
) -> Result<(), AllocError> {
    let place = ModuleId {
        map: collected.def_map.id(),
        index: module,
    };
    for segments in PATHS {
        let path = path_of(workspace.alloc, &mut workspace.session, segments)?;
        let session = &workspace.session;
        let shown = ShownPath {
            path: &path,
            session,
        };
        write!(lines, "{shown}:")?;
        write_named(workspace, collected, place, &path, lines)?;
        writeln!(lines)?;
    }
    Ok(())
}
