//! The passes that a run is made of.
ghost use Rattle.std.specs.Prelude.{◌≡◌};
ghost use Rattle.def_collector.specs.Collector.{state_of};

use crate::collector::DefCollector;
use crate::fallback::fall_back;
use crate::imports::resolve_imports;
use crate::macro_pass::resolve_macros;
use crate::wakes::record_woken;
use def_interner::Interner;
use def_map::SourceDatabase;
use def_rounds::Passes;
use def_steps::ImportList;
use std::alloc::AllocError;

/// A run: what is known so far, and the database that is asked.
pub struct Run<'a, D> {
    pub collector: DefCollector<'a>,
    pub db: &'a D,
    /// How many imports were unresolved before the last pass over all of them.
    pub waited: usize,
}

impl<'a, D> Drop for Run<'a, D> {
    fn drop(self) {
        let Run {
            collector: _,
            db: _,
            waited: _,
        } = self;
    }
}

impl<'a, D> Run<'a, D> {
    /// What is known at the end.
    pub fn into_collector(self) -> DefCollector<'a>
        ensures { result ≡ self.entry.collector }
    {
        let Run {
            collector,
            db: _,
            waited: _,
        } = self;
        collector
    }
}

impl<'a, D: SourceDatabase> Passes for Run<'a, D> {
    ghost oracle = { λ run. D.oracle run.db.now };

    ghost state = { λ run session. state_of run.collector session };

    fn resolve_imports(&mut self, session: &Interner) -> Result<bool, AllocError> {
        self.waited = self.collector.imports.places(ImportList::Unresolved);
        resolve_imports(&mut self.collector, self.db, session)
    }

    fn is_slow(&self) -> bool {
        let imports = &self.collector.imports;
        let waits = imports.places(ImportList::Unresolved);
        self.waited / 2 < waits && imports.places(ImportList::Indeterminate) / 4 < waits
    }

    fn record_woken(&mut self, session: &Interner) -> Result<(), AllocError> {
        record_woken(&mut self.collector, self.db, session)
    }

    fn resolve_macros(&mut self, session: &mut Interner) -> Result<bool, AllocError> {
        resolve_macros(&mut self.collector, self.db, session)
    }

    fn fall_back(&mut self, session: &mut Interner) -> Result<bool, AllocError> {
        fall_back(&mut self.collector, self.db, session)
    }
}
