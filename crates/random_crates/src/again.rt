//! Whether a second run gives the same lines, and a map that is put together from its parts.

use def_map::DefMap;
use def_workspace::{Collected, Fault, Fixture, Workspace, collect, print};

/// The lines of what was collected.
fn lines_of(workspace: &Workspace, collected: &Collected) -> Result<Vec<u8>, Fault> {
    let mut lines = Vec::new(workspace.alloc);
    print(workspace.alloc, &workspace.session, collected, &mut lines)?;
    Ok(lines)
}

/// What was collected, with its map taken apart and put together from its parts.
fn put_together(collected: Collected) -> Collected {
    let Collected {
        def_map,
        local_def_map,
        outcome,
        diagnostics,
    } = collected;
    let (data, table) = def_map.into_parts();
    Collected {
        def_map: DefMap::from_parts(data, table),
        local_def_map,
        outcome,
        diagnostics,
    }
}

/// What does not hold of a second run in a session, or of a map that is put together, if something
/// does not.
pub fn fault_of_again(
    workspace: &mut Workspace,
    row: &Fixture<'_>,
    collected: &Collected,
) -> Result<Option<&'static str>, Fault> {
    let lines = lines_of(workspace, collected)?;
    let Some(again) = collect(workspace, row)? else {
        return Ok(Some("a second run in a session answers nothing"));
    };
    if lines_of(workspace, &again)?.as_slice() != lines.as_slice() {
        return Ok(Some("a second run in a session has other lines"));
    }
    if lines_of(workspace, &put_together(again))?.as_slice() != lines.as_slice() {
        return Ok(Some("a map put together from its parts has other lines"));
    }
    Ok(None)
}
