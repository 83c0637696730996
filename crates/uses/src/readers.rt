//! What no row shows of finished maps: what a module sees, scopes by namespace, attributes, paths
//! and diagnostics, as text. Each text is wanted of a workspace that is written as rows are, and is
//! worked out from the rules.

mod attributes;
mod macros;
mod maps;
mod paths;
mod reports;
mod scopes;
mod texts;

use def_workspace::{Fault, Fixture, Part, Workspace, collect, read_row};
use std::alloc::Global;
use std::test::Fail;
use texts::TEXTS;

/// What is asked of the crate or the block that a workspace shows.
#[derive(Clone, Copy)]
pub enum Asked {
    /// What a module sees, by its index.
    Names(usize),
    /// What the root binds.
    Scope,
    /// What is reported and left over.
    Reports,
    /// What attributes are, and what paths mean.
    Paths,
    /// Which macros paths name in a module, by its index.
    Macros(usize),
    /// What else is known of a map.
    Map,
}

/// Collects the crates of a workspace, and writes what is asked of the last one.
fn lines_of(alloc: Global, asked: Asked, row: &Fixture<'_>) -> Result<String, Fault> {
    let mut lines = String::new(alloc);
    let mut workspace = Workspace::new(alloc, row)?;
    let Some(collected) = collect(&mut workspace, row)? else {
        return Ok(lines);
    };
    let (map, session) = (&collected.def_map, &workspace.session);
    match asked {
        Asked::Names(module) => {
            scopes::write_visible(&workspace, &collected, module, &mut lines)?;
        }
        Asked::Scope => scopes::write_scope(map, session, &mut lines)?,
        Asked::Reports => reports::write_reports(session, &collected, &mut lines)?,
        Asked::Paths => paths::write_paths(&mut workspace, &collected, &mut lines)?,
        Asked::Macros(module) => {
            macros::write_macros(&mut workspace, &collected, module, &mut lines)?;
        }
        Asked::Map => maps::write_map(&mut workspace, &collected, &mut lines)?,
    }
    Ok(lines)
}

/// The lines of what is asked, where they are not those that the workspace wants.
fn wrong_lines(alloc: Global, asked: Asked, text: &str) -> Result<Option<String>, Fault> {
    let row = read_row(alloc, Part { text, line: 1 })?;
    let lines = lines_of(alloc, asked, &row)?;
    if lines.as_str().strip_suffix('\n') == Some(row.shows) {
        return Ok(None);
    }
    Ok(Some(lines))
}

#[test]
fn what_is_read_is_wanted(rt: HostRuntime) -> Result<(), Fail> {
    for (asked, text) in &TEXTS {
        let wrong = wrong_lines(rt.alloc(), *asked, text)?;
        assert!(rt; wrong.is_none(), "{text}: {wrong:?}");
    }
    Ok(())
}
