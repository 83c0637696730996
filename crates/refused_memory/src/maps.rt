//! The crates of a row collected, the last one or its block for its lines.

use crate::locations::fill;
use crate::trial::Trial;
use def_workspace::{Collected, Fault, Fixture, Workspace, collect, print, print_items};
use std::alloc::Global;

/// The map of a row.
#[derive(Clone, Copy)]
pub struct MapOf<'r, 't> {
    pub row: &'r Fixture<'t>,
}

/// The workspace of a row, whose session knows a location of each kind.
pub fn workspace_of(alloc: Global, row: &Fixture<'_>) -> Result<Workspace, Fault> {
    let mut workspace = Workspace::new(alloc, row)?;
    fill(&mut workspace.session)?;
    Ok(workspace)
}

/// The workspace of a row whose crates are collected, and whose traits and impls were asked for
/// their items.
pub fn asked(alloc: Global, row: &Fixture<'_>) -> Result<Workspace, Fault> {
    let mut workspace = workspace_of(alloc, row)?;
    if let Some(collected) = collect(&mut workspace, row)? {
        let mut lines: Vec<u8> = Vec::new(alloc);
        print_items(
            &mut workspace,
            collected,
            row.unknown.as_slice(),
            &[],
            &mut lines,
        )?;
    }
    Ok(workspace)
}

impl Trial for MapOf<'_, '_> {
    type Answer = Option<Collected>;

    fn ready(&self, alloc: Global) -> Result<Workspace, Fault> {
        workspace_of(alloc, self.row)
    }

    fn answer(&self, workspace: &mut Workspace) -> Result<Option<Collected>, Fault> {
        collect(workspace, self.row)
    }

    fn write(
        &self,
        workspace: &Workspace,
        answer: &Option<Collected>,
        lines: &mut Vec<u8>,
    ) -> Result<(), Fault> {
        match answer {
            Some(collected) => print(workspace.alloc, &workspace.session, collected, lines),
            None => Ok(()),
        }
    }
}
