//! Macros of the standard library that stand among items, as they are known where it is not given.

use crate::directories::add_directory;
use crate::reading::Reading;
use crate::workspace::Workspace;
use def_parts::ModDir;
use item_tree::{Crate, HirFileId};
use rust_cfg::CfgOptions;
use std::alloc::AllocError;

/// The definitions, as far as names go: that of `include` stands for the builtin, and a static of each
/// thread is a constant.
const TEXT: &str = "macro_rules! include { () => {} }
macro_rules! thread_local {
    ($($(#[$a:meta])* $v:vis static $n:ident : $t:ty = $(const)? $e:expr);* $(;)?) => {
        $($(#[$a])* $v const $n: () = ();)*
    };
}";

/// The path of that text, which is no file's.
const PATH: &str = "std";

impl Workspace {
    /// Reads the definitions, before the first crate.
    pub(crate) fn read_implied(&mut self) -> Result<(), AllocError> {
        if !self.files.is_empty() {
            return Ok(());
        }
        let options = CfgOptions::new(self.alloc);
        let mut reading = Reading::new(self.alloc, Crate(0), options);
        let path = String::from_str(self.alloc, PATH)?;
        let bytes = TEXT.as_bytes().to_vec(self.alloc)?;
        if let Some(file) = self.add_file(&mut reading, path, bytes)? {
            let directory = add_directory(&mut self.calls, ModDir::root(self.alloc))?;
            self.walk(&mut reading, HirFileId::File(file), directory)?;
        }
        let include = self.session.intern_name("include")?;
        for (name, definition) in &reading.named {
            if let Some(definition) = definition {
                self.calls.implied.push((*name, *definition))?;
                if *name == include {
                    self.calls.includes.insert(*definition)?;
                }
            }
        }
        self.keep_names(&reading)
    }

    /// Says which macros are implied in a crate: those of the standard library, unless that is given, or
    /// a crate defines one of the name.
    pub(crate) fn imply(
        &mut self,
        reading: &Reading,
        has_standard: bool,
    ) -> Result<(), AllocError> {
        self.oracle.implied.clear();
        if has_standard {
            return Ok(());
        }
        for (name, definition) in &self.calls.implied {
            let is_only = self.calls.named.get(name) == Some(&Some(*definition));
            if is_only && !reading.named.contains_key(name) {
                self.oracle.implied.insert(*name, *definition)?;
            }
        }
        Ok(())
    }
}
