//! How many workspaces have what the checks look at.

use crate::answer::Answer;
use def_map::ItemScope;
use def_rules::Edge;
use std::io;

/// What is counted.
static WORDS: [&str; 11] = [
    "edges",
    "edges in a ring",
    "traits without a name",
    "imports left over",
    "macros left over",
    "diagnostics",
    "macro calls",
    "derives",
    "impls of derives",
    "blocks",
    "two crates",
];

/// How many workspaces were made, and how many of them had what is counted.
#[derive(Clone, Copy)]
pub struct Counts {
    pub workspaces: usize,
    had: [usize; 11],
}

/// Whether two modules have edges to each other.
fn have_ring(edges: &[Edge]) -> bool {
    for edge in edges {
        for back in edges {
            if edge.importer == back.source && back.importer == edge.source {
                return true;
            }
        }
    }
    false
}

/// Whether macro calls are recorded in a scope.
fn has_calls(scope: ItemScope<'_>) -> bool {
    scope.invocations().is_some_and(|calls| !calls.is_empty())
}

/// Whether derives are recorded in a scope.
fn has_derives(scope: ItemScope<'_>) -> bool {
    scope.derives().is_some_and(|derives| !derives.is_empty())
}

impl Counts {
    /// No workspace yet.
    pub fn new() -> Counts {
        Counts {
            workspaces: 0,
            had: [0; 11],
        }
    }

    /// Counts a workspace with its answer.
    pub fn add(&mut self, answer: &Answer<'_>) {
        let (outcome, diagnostics) = (answer.outcome(), &answer.collected.diagnostics);
        let (mut traits, mut calls, mut derives, mut impls) = (false, false, false, false);
        for index in 0..answer.collected.def_map.modules().len() {
            if let Some(scope) = answer.scope(answer.module(index)) {
                traits = traits || scope.unnamed_traits().next().is_some();
                calls = calls || has_calls(scope);
                derives = derives || has_derives(scope);
                impls = impls || !scope.builtin_derive_impls().is_empty();
            }
        }
        let has = [
            !outcome.edges.as_slice().is_empty(),
            have_ring(outcome.edges.as_slice()),
            traits,
            !outcome.imports.as_slice().is_empty(),
            !outcome.macros.as_slice().is_empty(),
            !diagnostics.as_slice().is_empty(),
            calls,
            derives,
            impls,
            answer.module(0).map.block.is_some(),
            !answer.is_alone,
        ];
        self.workspaces = self.workspaces.saturating_add(1);
        for (count, is_had) in self.had.iter_mut().zip(&has) {
            *count = count.saturating_add(usize::from(*is_had));
        }
    }

    /// Writes what few workspaces had, or all that is counted. Answers whether nothing is rare,
    /// which less than one in fifty had.
    pub fn write<W: io::Write>(&self, out: &mut W, tells_all: bool) -> io::Result<bool> {
        let mut is_common = true;
        for (word, count) in WORDS.iter().zip(&self.had) {
            let is_rare = *count < self.workspaces / 50;
            if is_rare || tells_all {
                writeln!(out, "{word}: {count}")?;
            }
            is_common = is_common && !is_rare;
        }
        Ok(is_common)
    }
}
