//! The oracle: it answers macro calls itself, and asks its database for all else.
ghost use Rattle.std.specs.Prelude.{◌≡◌, option_map};
ghost use Rattle.std.specs.Option.{option_copied};
ghost use Rattle.rust_oracle.specs.Answers.{answers_of, code_at, implied_at, is_numbered, number_of, states_of};

use crate::numbers::{call_number, code_of};
use def_database::Database;
use def_ids::{BuiltinAttr, EnumLoc, MacroId};
use def_interner::{MacroDefId, MacroDefKind};
use def_map::{
    AssocItemsOwner, AssocList, AttrCallQuery, CallAnswer, CallQuery, CrateData, DefMap,
    DeriveCallQuery, EnumVariant, LocalDefMap, MacroResolver, SourceDatabase, UnresolvedMacro,
};
use either::Either;
use indexmap::IndexMap;
use item_tree::{
    BlockId, Crate, FileAstId, FileId, HirFileId, InFile, ItemTree, MacroCallId, MacroCallStyles,
    Name, Seq, TreeId,
};
use std::alloc::{AllocError, Global};

/// The number that a database has for the builtin `include`, among those that expand their arguments
/// first.
pub const INCLUDE: u32 = 0;

/// Whether calls of a macro have numbers, by what expands it.
fn is_numbered(kind: MacroDefKind) -> bool
    ensures { result ≡ is_numbered kind }
{
    match kind {
        MacroDefKind::Declarative(_) => true,
        MacroDefKind::BuiltInEager(number) => number == INCLUDE,
        _ => false,
    }
}

/// An oracle over a database. A call of a macro by rules, or of `include`, gives a number, which is a
/// function of the numbers that were written down of the call's place and of the macro's definition.
/// Where nothing was written down of the macro, the definition that is guessed for the place stands in,
/// or else the macro's own number. Calls at places of which nothing was written down give nothing, and
/// so do calls of other builtin and of procedural macros. A call for whose path no macro is found gives
/// a number only where its path is the name of a macro that is implied.
pub struct Oracle {
    pub db: Database,
    /// The number of each place where a call stands.
    pub places: IndexMap<InFile<FileAstId>, u32>,
    /// The number of each macro's definition, as far as it is known. They are less than 2 ^ 31.
    pub definitions: IndexMap<MacroId, u32>,
    /// The number of the definition that a call is taken to be of, while its macro is not known.
    pub guesses: IndexMap<InFile<FileAstId>, u32>,
    /// The definitions of macros that are known by name though the crate that has them is not given. They
    /// are meant where a path is that name alone and no macro is found for it.
    pub implied: IndexMap<Name, u32>,
    /// The source file behind each expansion.
    pub origins: IndexMap<MacroCallId, FileId>,
}

impl Drop for Oracle {
    fn drop(self) {
        let Oracle {
            db: _,
            places: _,
            definitions: _,
            guesses: _,
            implied: _,
            origins: _,
        } = self;
    }
}

impl Oracle {
    /// An oracle over a database, of which no place of a call is known.
    pub fn new(alloc: Global, db: Database) -> Oracle {
        Oracle {
            db,
            places: IndexMap::new(alloc),
            definitions: IndexMap::new(alloc),
            guesses: IndexMap::new(alloc),
            implied: IndexMap::new(alloc),
            origins: IndexMap::new(alloc),
        }
    }

    /// The lower half of the number of what the call at a place gives, by the macro that is found.
    fn code_at(&self, position: InFile<FileAstId>, id: MacroId) -> Option<u32>
        ensures { result ≡ code_at self.now position id }
    {
        match self.definitions.get(&id) {
            Some(definition) => Some(*definition),
            None => match self.guesses.get(&position) {
                Some(definition) => Some(*definition),
                None => code_of(id),
            },
        }
    }

    /// The number of what the call at a place gives, by the macro that is found.
    fn number_of(&self, position: InFile<FileAstId>, found: MacroDefId) -> Option<MacroCallId>
        ensures { result ≡ number_of self.now position found }
    {
        if !is_numbered(found.kind) {
            return None;
        }
        match (self.places.get(&position), self.code_at(position, found.id)) {
            (Some(place), Some(code)) => Some(call_number(*place, code)),
            _ => None,
        }
    }

    /// The number of what the call at a place gives for whose path no macro is found, where that path is
    /// a name alone.
    fn implied_at(&self, position: InFile<FileAstId>, name: Option<Name>) -> Option<MacroCallId>
        ensures { result ≡ implied_at self.now position name }
    {
        let definition = match name {
            Some(name) => self.implied.get(&name),
            None => None,
        };
        match (self.places.get(&position), definition) {
            (Some(place), Some(definition)) => Some(call_number(*place, *definition)),
            _ => None,
        }
    }
}

impl SourceDatabase for Oracle {
    ghost oracle = { answers_of };

    ghost states = { states_of };

    fn item_tree(&self, id: TreeId) -> Option<&ItemTree> {
        self.db.item_tree(id)
    }

    fn crate_data(&self, krate: Crate) -> Option<&CrateData> {
        self.db.crate_data(krate)
    }

    fn crate_def_map(&self, krate: Crate) -> Option<&DefMap> {
        self.db.crate_def_map(krate)
    }

    fn outer_map(&self, block: BlockId) -> Option<&DefMap> {
        self.db.outer_map(block)
    }

    fn local_def_map(&self, krate: Crate) -> Option<&LocalDefMap> {
        self.db.local_def_map(krate)
    }

    fn resolve_path(&self, anchor: FileId, path: &str) -> Option<FileId> {
        self.db.resolve_path(anchor, path)
    }

    fn original_file(&self, file: HirFileId) -> FileId {
        match file {
            HirFileId::File(file) => file,
            HirFileId::Macro(call) => match self.origins.get(&call) {
                Some(file) => *file,
                None => FileId(0),
            },
        }
    }

    fn expansion_depth(&self, file: HirFileId) -> u32 {
        self.db.expansion_depth(file)
    }

    fn macro_call<R: MacroResolver>(
        &self,
        alloc: Global,
        query: CallQuery<'_>,
        resolver: &R,
    ) -> Result<Result<CallAnswer, UnresolvedMacro>, AllocError> {
        match resolver.resolve(query.path) {
            Some(found) => Ok(Ok(CallAnswer {
                value: self.number_of(query.position, found),
                err: None,
                inner: Seq::from_vec(Vec::new(alloc)),
            })),
            None => match self.implied_at(query.position, query.path.as_ident()) {
                Some(call) => Ok(Ok(CallAnswer {
                    value: Some(call),
                    err: None,
                    inner: Seq::from_vec(Vec::new(alloc)),
                })),
                None => Ok(Err(UnresolvedMacro {
                    path: query.path.clone()?,
                })),
            },
        }
    }

    fn make_attr_call(&self, query: AttrCallQuery<'_>) -> MacroCallId {
        self.db.make_attr_call(query)
    }

    fn make_derive_call(&self, query: DeriveCallQuery) -> MacroCallId {
        self.db.make_derive_call(query)
    }

    fn is_include(&self, call: MacroCallId) -> bool {
        self.db.is_include(call)
    }

    fn enum_variants(&self, loc: &EnumLoc) -> Option<&[EnumVariant]> {
        self.db.enum_variants(loc)
    }

    fn assoc_items(&self, owner: AssocItemsOwner) -> Option<&AssocList> {
        self.db.assoc_items(owner)
    }

    fn rule_styles(&self, position: InFile<FileAstId>, krate: Crate) -> MacroCallStyles {
        self.db.rule_styles(position, krate)
    }

    fn proc_macros(&self, krate: Crate) -> &[(Name, u32, bool)] {
        self.db.proc_macros(krate)
    }

    fn find_builtin_macro(&self, name: Name) -> Option<Either<u32, u32>> {
        self.db.find_builtin_macro(name)
    }

    fn find_builtin_derive(&self, name: Name) -> Option<u32> {
        self.db.find_builtin_derive(name)
    }

    fn find_builtin_attr(&self, name: Name) -> Option<BuiltinAttr> {
        self.db.find_builtin_attr(name)
    }

    fn builtin_type(&self, name: Name) -> Option<u32> {
        self.db.builtin_type(name)
    }

    fn is_builtin_attr(&self, name: Name) -> bool {
        self.db.is_builtin_attr(name)
    }

    fn has_builtin_derive_impl(&self, derive: u32) -> bool {
        self.db.has_builtin_derive_impl(derive)
    }

    fn derive_traits(&self, derive: u32) -> &[u32] {
        self.db.derive_traits(derive)
    }

    fn cfg_flag(&self, krate: Crate, name: Name) -> bool {
        self.db.cfg_flag(krate, name)
    }

    fn builtin_derive_fast_path(&self) -> bool {
        self.db.builtin_derive_fast_path()
    }

    fn expand_proc_attr_macros(&self) -> bool {
        self.db.expand_proc_attr_macros()
    }
}
