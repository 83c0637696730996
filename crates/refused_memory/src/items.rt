//! The items of all traits and impls of a row asked for, once its crate is collected.

use crate::maps::{asked, workspace_of};
use crate::trial::Trial;
use def_assoc::{ImplItems, TraitItems};
use def_ids::{ImplId, TraitId};
use def_interner::LocationId;
use def_rules::DefDiagnostics;
use def_workspace::{Fault, Fixture, Workspace, collect};
use std::alloc::{AllocError, Global};
use std::io::Write;
use std::mem;

/// The items of the traits and impls of a row.
#[derive(Clone, Copy)]
pub struct ItemsOf<'r, 't> {
    pub row: &'r Fixture<'t>,
}

/// What is answered of all traits, and of all impls, each with its diagnostics.
#[derive(Drop)]
pub struct Items {
    traits: Vec<(TraitItems, DefDiagnostics)>,
    impls: Vec<(ImplItems, DefDiagnostics)>,
}

impl Items {
    /// Asks for the items of all traits that the session knows.
    fn ask_traits(&mut self, workspace: &mut Workspace) -> Result<(), AllocError> {
        let Workspace {
            alloc,
            session,
            db,
            ..
        } = workspace;
        for number in 0..usize::MAX {
            let id = TraitId(number);
            if id.lookup(session).is_none() {
                break;
            }
            let answer = TraitItems::query_with_diagnostics(*alloc, db, session, id)?;
            self.traits.push(answer)?;
        }
        Ok(())
    }

    /// Asks for the items of all impls that the session knows.
    fn ask_impls(&mut self, workspace: &mut Workspace) -> Result<(), AllocError> {
        let Workspace {
            alloc,
            session,
            db,
            ..
        } = workspace;
        for number in 0..usize::MAX {
            let id = ImplId(number);
            if id.lookup(session).is_none() {
                break;
            }
            let answer = ImplItems::of(*alloc, db, session, id)?;
            self.impls.push(answer)?;
        }
        Ok(())
    }
}

impl Trial for ItemsOf<'_, '_> {
    type Answer = Items;

    fn ready(&self, alloc: Global) -> Result<Workspace, Fault> {
        let mut workspace = asked(alloc, self.row)?;
        // The session is one in which nothing was asked yet.
        let mut other = workspace_of(alloc, self.row)?;
        let _ = collect(&mut other, self.row)?;
        mem::swap(&mut workspace.session, &mut other.session);
        Ok(workspace)
    }

    fn answer(&self, workspace: &mut Workspace) -> Result<Items, Fault> {
        let mut items = Items {
            traits: Vec::new(workspace.alloc),
            impls: Vec::new(workspace.alloc),
        };
        items.ask_traits(workspace)?;
        items.ask_impls(workspace)?;
        Ok(items)
    }

    fn write(
        &self,
        _workspace: &Workspace,
        answer: &Items,
        lines: &mut Vec<u8>,
    ) -> Result<(), Fault> {
        for (items, diagnostics) in &answer.traits {
            let reported = diagnostics.as_slice();
            writeln!(lines, "{items:?} {reported:?}")?;
        }
        for (items, diagnostics) in &answer.impls {
            let reported = diagnostics.as_slice();
            writeln!(lines, "{items:?} {reported:?}")?;
        }
        Ok(())
    }
}
