//! Adding a crate: it is announced, read, and collected.
ghost use Rattle.std.specs.Prelude.{◌≡◌, IfOk, vec_len};

use crate::calls::name_definition;
use crate::directories::add_directory;
use crate::reading::Reading;
use crate::rounds::Root;
use crate::times::add_since;
use crate::workspace::{CrateRequest, Workspace};
use def_collector::Collected;
use def_map::{CrateData, Dependency, LangCrate};
use def_parts::ModDir;
use item_tree::{Crate, FileId, HirFileId, Seq};
use rust_codebase::{CollectedCrate, FaultKind, FaultPlace};
use source_files::Files;
use std::alloc::AllocError;

/// The crates that come with the compiler.
fn is_of_compiler(name: &str) -> bool {
    matches!(name, "core" | "alloc" | "std" | "test" | "proc_macro")
}

impl Workspace {
    /// The crates that one depends on, with the names that they have there. Where `std` is among
    /// them, `alloc` and the like have names only as `extern crate` gives them; else the crate is one
    /// of the compiler's own, which names them itself.
    fn dependencies(&mut self, list: &[(String, Crate)]) -> Result<Seq<Dependency>, AllocError> {
        let mut dependencies = Seq::from_vec(Vec::new(self.alloc));
        let has_std = list.iter().any(|it| it.0.as_str() == "std");
        for (name, krate) in list {
            let sysroot = is_of_compiler(name.as_str());
            dependencies.push(Dependency {
                name: self.session.intern_name(name.as_str())?,
                krate: *krate,
                prelude: !sysroot || !has_std || matches!(name.as_str(), "core" | "std"),
                sysroot,
            })?;
        }
        Ok(dependencies)
    }

    /// Says whether derives are looked for, as they can be where the crates of the language are known.
    /// Else the attribute is one that is no macro.
    fn set_derives(&mut self, are_known: bool) -> Result<(), AllocError> {
        let derive = self.session.intern_name("derive")?;
        if are_known {
            self.oracle.db.builtins.inert.shift_remove(&derive);
            return Ok(());
        }
        self.oracle.db.add_inert_attr(derive)
    }

    /// Tells the oracle of a crate.
    fn announce(
        &mut self,
        reading: &Reading,
        root_file: FileId,
        proc_macro: bool,
        lang: Option<LangCrate>,
        dependencies: &[(String, Crate)],
    ) -> Result<(), AllocError> {
        let data = CrateData {
            root_file,
            proc_macro,
            lang,
            deps: self.dependencies(dependencies)?,
        };
        self.oracle.db.add_crate(reading.krate, data)?;
        let is_over_language = dependencies.iter().any(|it| is_of_compiler(it.0.as_str()));
        let has_language = lang.is_some() || is_over_language;
        self.set_derives(has_language)?;
        self.imply(reading, has_language)?;
        if reading.options.has_flag("test") {
            let test = self.session.intern_name("test")?;
            self.oracle.db.add_flag(reading.krate, test)?;
        }
        Ok(())
    }

    /// Reads the root file of a crate, and the files of its modules. One that is not there is empty.
    fn read_crate<F: Files>(
        &mut self,
        reading: &mut Reading,
        files: &F,
        path: String,
    ) -> Result<FileId, AllocError> {
        let begin = files.microseconds();
        let bytes = match files.read(path.as_str())? {
            Some(bytes) => bytes,
            None => {
                self.tell(FaultPlace::Path(path.clone()?), FaultKind::NoFile)?;
                Vec::new(self.alloc)
            }
        };
        let Some(file) = self.add_file(reading, path, bytes)? else {
            return Ok(FileId(self.files.len()));
        };
        let directory = add_directory(&mut self.calls, ModDir::root(self.alloc))?;
        reading.parents.insert(file, file)?;
        reading.waiting.push((HirFileId::File(file), directory))?;
        self.follow(reading, files)?;
        add_since(&mut self.times.reading, files, begin);
        let begin = files.microseconds();
        self.expand_ahead(reading, files)?;
        add_since(&mut self.times.expanding, files, begin);
        Ok(file)
    }

    /// Tells what is wrong in the files and expansions of the last round.
    fn tell_of_round(&mut self, reading: &mut Reading) -> Result<(), AllocError> {
        let faults = std::mem::replace(&mut reading.faults, Vec::new(self.alloc));
        for (file, fault) in faults {
            if reading.has(file) {
                self.faults.push(fault)?;
            }
        }
        Ok(())
    }

    /// Leaves the names of a crate's macros to the crates that are added later.
    pub(crate) fn keep_names(&mut self, reading: &Reading) -> Result<(), AllocError> {
        for (name, definition) in &reading.named {
            name_definition(&mut self.calls.named, *name, *definition)?;
        }
        Ok(())
    }

    /// Keeps what was collected of a crate.
    fn add_collected(
        &mut self,
        name: String,
        reading: &Reading,
        collected: Collected,
        rounds: usize,
    ) -> Result<(), AllocError> {
        let krate = reading.krate;
        let Collected {
            def_map,
            local_def_map,
            outcome,
            diagnostics,
        } = collected;
        self.oracle.db.add_map(krate, def_map, local_def_map)?;
        self.crates.push(CollectedCrate {
            name,
            krate,
            outcome,
            diagnostics,
            rounds,
            expanded: reading.expanded,
        })?;
        Ok(())
    }

    /// Reads a crate and collects its definitions. The crates that it depends on were added before.
    pub fn add_crate<F: Files>(
        &mut self,
        files: &F,
        request: CrateRequest,
    ) -> Result<Crate, AllocError>
        ensures { IfOk result (λ krate. krate.0 ≡ vec_len self.old.crates) }
    {
        let krate = Crate(self.crates.len());
        let CrateRequest {
            name,
            root,
            edition,
            options,
            is_proc_macro,
            dependencies,
            lang,
        } = request;
        self.read_implied()?;
        let mut reading = Reading::new(self.alloc, krate, options);
        let file = self.read_crate(&mut reading, files, root)?;
        let dependencies = dependencies.as_slice();
        self.announce(&reading, file, is_proc_macro, lang, dependencies)?;
        let root = Root {
            krate,
            edition,
            file,
        };
        let (collected, rounds) = self.collect_in_rounds(&mut reading, files, root)?;
        self.tell_of_round(&mut reading)?;
        self.keep_names(&reading)?;
        self.add_collected(name, &reading, collected, rounds)?;
        Ok(krate)
    }
}
