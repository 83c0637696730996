//! The table that is answered.
ghost use Rattle.std.specs.Prelude.{◌≡◌, IfOk};
ghost use Rattle.def_interner.specs.declared.interner.Interner.{Interner};
ghost use Rattle.def_collector.specs.Collector.{state_of};
ghost use Rattle.def_ids.specs.declared.ids.ModuleId.{ModuleId};
ghost use Rattle.def_macros.specs.Censored.{ListsOnce};
ghost use Rattle.def_sources.specs.Tables.{bound_by};
ghost use Rattle.def_rules.specs.Report.{with_censored};

use super::DefCollector;
use def_ids::ModuleId;
use def_macros::censor;
use def_parts::Globs;
use std::alloc::AllocError;

impl<'a> DefCollector<'a> {
    /// The collector with the table that is answered: in a crate of procedural macros the root shows
    /// other crates these macros alone, and any other crate's table stays. Want of memory is the only
    /// error.
    pub fn censored(self) -> Result<DefCollector<'a>, AllocError>
        requires { (m : ModuleId) → ListsOnce (bound_by self.table) m }
        ensures { IfOk result (λ c. (session : Interner) → state_of c session ≡ with_censored (state_of self.entry session)) }
    {
        if !self.is_proc_macro {
            return Ok(self);
        }
        let DefCollector {
            alloc,
            def_map,
            table,
            targets,
            local_def_map,
            crate_local,
            is_proc_macro,
            deps,
            missing_crates,
            mod_dirs,
            imports,
            item_attrs,
            deferred_builtin_derives,
            unresolved_macros,
            inner_calls,
            expansions,
            diagnostics,
        } = self;
        let root = ModuleId {
            map: def_map.tree.map,
            index: 0,
        };
        // The run is over, so that nothing is to travel along the edges.
        let mut table = table.into_table();
        censor(&mut table, root)?;
        Ok(DefCollector {
            alloc,
            def_map,
            table: Globs::new(alloc, table),
            targets,
            local_def_map,
            crate_local,
            is_proc_macro,
            deps,
            missing_crates,
            mod_dirs,
            imports,
            item_attrs,
            deferred_builtin_derives,
            unresolved_macros,
            inner_calls,
            expansions,
            diagnostics,
        })
    }
}
