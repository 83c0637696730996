//! What is asked of all that was read and collected.

use crate::fault::Fault;
use crate::read::{CollectedCrate, ReadFile, SourceFile};
use def_ids::{Def, ExternCrateId, ModuleId, UseId};
use def_map::{DefMap, EnumVariant, PerNs};
use indexmap::IndexMap;
use item_tree::{Crate, FileAstId, FileId, HirFileId, InFile, ModPath, Name};
use rust_lexer::{SourceId, Token};
use std::alloc::AllocError;

/// All that was read and collected, as far as it is asked for names and places. A workspace is one. What
/// stands over this trait knows neither its tables nor those of the session and of the oracle.
pub trait Codebase {
    /// The crates, each behind those that it depends on.
    fn crates(&self) -> &[CollectedCrate];

    /// What is wrong with the texts.
    fn faults(&self) -> &[Fault];

    /// The files by their numbers.
    fn files(&self) -> &IndexMap<FileId, SourceFile>;

    /// The text of a source.
    fn source_text(&self, source: SourceId) -> &str;

    /// The name of a token, without an `r#`.
    fn token_text(&self, token: Token) -> &str;

    /// What was read of a file or an expansion.
    fn read(&self, file: HirFileId) -> Option<&ReadFile>;

    /// The text of a name.
    fn text(&self, name: Name) -> Option<&str>;

    /// The name of a text, if any text has it.
    fn find_name(&self, text: &str) -> Option<Name>;

    /// A path as it is written.
    fn path_text(&self, path: &ModPath) -> Result<String, AllocError>;

    /// The maps of the crates.
    fn maps(&self) -> &IndexMap<Crate, DefMap>;

    /// The root file of a crate.
    fn root_file(&self, krate: Crate) -> Option<FileId>;

    /// The root of the crate that a path in another one may begin with.
    fn extern_root(&self, krate: Crate, name: Name) -> Option<ModuleId>;

    /// The variants of the enums.
    fn variants(&self) -> &IndexMap<InFile<FileAstId>, Vec<EnumVariant>>;

    /// The builtin types by their names.
    fn builtin_types(&self) -> &IndexMap<Name, u32>;

    /// Whether a name is that of an attribute that stands for nothing.
    fn is_inert(&self, name: Name) -> bool;

    /// The module in which a definition stands. A module, a variant and a builtin type stand in none.
    fn home_of(&self, def: Def) -> Option<ModuleId>;

    /// Where a definition is declared, in the map of the crate that is asked. None for a variant.
    fn position_of(&self, krate: Crate, def: Def) -> Option<InFile<FileAstId>>;

    /// Where a `use` item stands.
    fn use_position(&self, id: UseId) -> Option<InFile<FileAstId>>;

    /// Where an extern crate stands.
    fn extern_crate_position(&self, id: ExternCrateId) -> Option<InFile<FileAstId>>;

    /// What a path means in a module of a crate, in each namespace.
    fn meaning(&self, module: ModuleId, path: &ModPath) -> Option<PerNs>;
}
