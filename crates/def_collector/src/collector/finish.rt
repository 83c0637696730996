//! The end of a run: what is left over is marked, answered and reported.
ghost use Rattle.std.specs.Prelude.{◌≡◌, ◌++◌, map, IfOk};
ghost use Rattle.std.specs.List.{flat_map};
ghost use Rattle.def_interner.specs.declared.interner.Interner.{Interner};
ghost use Rattle.def_crates.specs.Missing.{missing_in};
ghost use Rattle.def_modules.specs.Maps.{map_state};
ghost use Rattle.def_collector.specs.Collector.{state_of};
ghost use Rattle.def_collector.specs.Answer.{shown};
ghost use Rattle.def_laws.specs.Finished.{IsFinished};
ghost use Rattle.def_map.specs.DefMaps as whole;
ghost use Rattle.def_sources.specs.Tables.{bound_by};
ghost use Rattle.def_rules.specs.Report.{import_report, left_import};
ghost use Rattle.def_rules.specs.Imports.{unresolved_imports};
ghost use Rattle.def_steps.specs.ImportLists.{marked_each, pending};

use super::DefCollector;
use crate::answer::Collected;
use def_calls::left_macros;
use def_map::DefMap;
use def_rules::{LeftImport, Outcome};
use def_steps::{edges_of, report_left_imports, targets_of};
use item_tree::Seq;
use std::alloc::AllocError;

impl DefCollector<'_> {
    /// The answer: the map with the names of the imports left over marked as failed, whether the
    /// limit of rounds was met, and a diagnostic for each import left over behind the run's own.
    pub fn finish(self, limit_met: bool) -> Result<Collected, AllocError>
        ensures { IfOk result (λ c. (session : Interner) → IsFinished (state_of self.entry session) limit_met (shown c)) }
    {
        let mut collector = self;
        let imports = collector.report_left()?;
        let edges = edges_of(collector.alloc, collector.table.table())?;
        let targets = targets_of(collector.alloc, &collector.targets)?;
        let macros = left_macros(collector.alloc, &collector.unresolved_macros)?;
        let outcome = Outcome {
            limit_met,
            imports,
            macros,
            edges,
            targets,
        };
        Ok(collector.into_collected(outcome))
    }

    /// Marks and reports the imports left over, which are those of which nothing was recorded. Answers
    /// them.
    fn report_left(&mut self) -> Result<Vec<LeftImport>, AllocError>
        ensures frame { self.new ≡ record self.old { def_map = self.new.def_map; diagnostics = self.new.diagnostics } }
        ensures map { IfOk result (λ imports. map_state self.new.def_map
            ≡ marked_each (unresolved_imports (pending self.old.imports)) (map_state self.old.def_map)) }
        ensures imports { IfOk result (λ imports. imports.items ≡ map left_import (unresolved_imports (pending self.old.imports))) }
        ensures diagnostics { IfOk result (λ imports. self.new.diagnostics.items
            ≡ self.old.diagnostics.items ++ flat_map (import_report (missing_in self.old.missing_crates)) (unresolved_imports (pending self.old.imports))) }
    {
        let mut imports = Vec::new(self.alloc);
        report_left_imports(
            &mut self.def_map,
            &mut imports,
            &mut self.diagnostics,
            &self.missing_crates,
            self.imports.entries(),
        )?;
        Ok(imports)
    }

    /// The answer, with how the run ended.
    fn into_collected(self, outcome: Outcome) -> Collected
        ensures map { whole.state_of result.def_map ≡ map_state self.entry.def_map }
        ensures content { whole.content_of result.def_map ≡ bound_by self.entry.table }
        ensures rest { result ≡ record result { local_def_map = self.entry.local_def_map; outcome = outcome; diagnostics = self.entry.diagnostics.items } }
    {
        let DefCollector {
            alloc: _,
            def_map,
            table,
            targets: _,
            local_def_map,
            crate_local: _,
            is_proc_macro: _,
            deps: _,
            missing_crates: _,
            mod_dirs: _,
            item_attrs: _,
            deferred_builtin_derives: _,
            imports: _,
            unresolved_macros: _,
            inner_calls: _,
            expansions: _,
            diagnostics,
        } = self;
        Collected {
            def_map: DefMap::from_parts(def_map, table.into_table()),
            local_def_map,
            outcome,
            diagnostics: Seq::from_vec(diagnostics),
        }
    }
}
