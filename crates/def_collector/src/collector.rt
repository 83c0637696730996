//! The collector: what is known so far of a map in the making.
ghost use Rattle.std.specs.Prelude.{◌≡◌, option_map, unwrap_or};
ghost use Rattle.def_modules.specs.Locals.{local_view};

mod censor;
mod crates;
mod declarations;
mod finish;
mod functions;
mod items;
mod visibility;

pub use crates::WrittenCrate;
pub use declarations::WrittenStruct;
use def_attrs::{DeferredDerives, ItemAttrs};
use def_calls::{Expansion, MacroDirective};
use def_crates::MissingCrates;
use def_ids::{Def, GlobId};
use def_map::{LocalDefMap, MapData, Table};
use def_parts::{Globs, ModDirs};
use def_rules::{DefDiagnostic, InnerCall};
use def_steps::PendingImports;
pub use functions::WrittenFunction;
use indexmap::IndexMap;
use item_tree::Seq;
use std::alloc::Global;
use std::collections::VecDeque;

/// What is known so far of a map, while definitions are collected into it.
pub struct DefCollector<'a> {
    pub alloc: Global,
    pub def_map: MapData,
    /// The bindings, which travel along the edges of globs.
    pub table: Globs<Table>,
    /// What each glob was recorded with.
    pub targets: IndexMap<GlobId, Seq<Def>>,
    pub local_def_map: LocalDefMap,
    /// The names of crates that a block's crate knows.
    pub crate_local: Option<&'a LocalDefMap>,
    /// Whether the crate is one of procedural macros.
    pub is_proc_macro: bool,
    /// The crates that the crate depends on, by their names.
    pub deps: LocalDefMap,
    /// The extern crates that were not found.
    pub missing_crates: MissingCrates,
    pub mod_dirs: ModDirs,
    /// The imports of which nothing is recorded so far, and those that may give more namespaces.
    pub imports: PendingImports<'a>,
    pub item_attrs: ItemAttrs,
    /// Builtin derives that are not expanded, until their items are handled or replaced.
    pub deferred_builtin_derives: DeferredDerives,
    /// What waits for its macro, in order. In a pass, what stays goes behind the others.
    pub unresolved_macros: VecDeque<MacroDirective<'a>>,
    /// The calls that were made for the arguments of what was asked, until they are recorded.
    pub inner_calls: Vec<InnerCall>,
    /// The expansions of what was given a call, until they are walked.
    pub expansions: VecDeque<Expansion>,
    pub diagnostics: Vec<DefDiagnostic>,
}

impl Drop for DefCollector<'_> {
    fn drop(self) {
        let DefCollector {
            alloc: _,
            def_map: _,
            table: _,
            targets: _,
            local_def_map: _,
            crate_local: _,
            is_proc_macro: _,
            deps: _,
            missing_crates: _,
            mod_dirs: _,
            imports: _,
            item_attrs: _,
            deferred_builtin_derives: _,
            unresolved_macros: _,
            inner_calls: _,
            expansions: _,
            diagnostics: _,
        } = self;
    }
}

impl DefCollector<'_> {
    /// The names of crates that paths are read with.
    pub fn local(&self) -> &LocalDefMap
        ensures { local_view result.now ≡ unwrap_or (option_map (λ l. local_view l.now) self.now.crate_local) (local_view self.now.local_def_map) }
    {
        match self.crate_local {
            Some(local) => local,
            None => &self.local_def_map,
        }
    }
}
