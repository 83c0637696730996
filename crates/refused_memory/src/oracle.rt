//! An oracle that has no memory for one of its answers.
ghost use Rattle.def_database.specs.Database.{answers_of, states_of};

use crate::maps::workspace_of;
use def_collector::collect_defs;
use def_database::Database;
use def_ids::{BuiltinAttr, Edition, EnumLoc};
use def_map::{
    AssocItemsOwner, AssocList, AttrCallQuery, CallAnswer, CallQuery, CrateData, DefMap,
    DeriveCallQuery, EnumVariant, LocalDefMap, MacroResolver, SourceDatabase, UnresolvedMacro,
};
use def_workspace::{Fault, Part, Workspace, read_row};
use either::Either;
use item_tree::{
    BlockId, Crate, FileAstId, FileId, HirFileId, InFile, ItemTree, MacroCallId, MacroCallStyles,
    Name, TreeId,
};
use std::alloc::{AllocError, Global};

/// The row whose calls are asked for: items 1 and 3, of which the second waits for a pass.
static ROW: &str = "
-- file
macro_rules! foo {} foo!(); pub macro bar {} crate::bar!();
-- shows";

/// The items of the row that are calls.
const CALLS: [usize; 2] = [1, 3];

/// How many items the row has.
const ITEMS: usize = 4;

/// The root file of the row.
const ROOT: TreeId = TreeId {
    file: HirFileId::File(FileId(0)),
    block: None,
};

/// A database that has no memory for the answer of the call at a position.
#[derive(Clone, Copy)]
pub struct Wanting<'a> {
    pub db: &'a Database,
    pub position: InFile<FileAstId>,
}

impl SourceDatabase for Wanting<'_> {
    ghost oracle = { λ wanting. answers_of wanting.db.now };

    ghost states = { λ wanting. states_of wanting.db.now };

    fn item_tree(&self, id: TreeId) -> Option<&ItemTree> {
        self.db.item_tree(id)
    }

    fn crate_data(&self, krate: Crate) -> Option<&CrateData> {
        self.db.crate_data(krate)
    }

    fn crate_def_map(&self, krate: Crate) -> Option<&DefMap> {
        self.db.crate_def_map(krate)
    }

    fn outer_map(&self, block: BlockId) -> Option<&DefMap> {
        self.db.outer_map(block)
    }

    fn local_def_map(&self, krate: Crate) -> Option<&LocalDefMap> {
        self.db.local_def_map(krate)
    }

    fn resolve_path(&self, anchor: FileId, path: &str) -> Option<FileId> {
        self.db.resolve_path(anchor, path)
    }

    fn original_file(&self, file: HirFileId) -> FileId {
        self.db.original_file(file)
    }

    fn expansion_depth(&self, file: HirFileId) -> u32 {
        self.db.expansion_depth(file)
    }

    fn macro_call<R: MacroResolver>(
        &self,
        alloc: Global,
        query: CallQuery<'_>,
        resolver: &R,
    ) -> Result<Result<CallAnswer, UnresolvedMacro>, AllocError> {
        if query.position == self.position {
            return Err(AllocError);
        }
        self.db.macro_call(alloc, query, resolver)
    }

    fn make_attr_call(&self, query: AttrCallQuery<'_>) -> MacroCallId {
        self.db.make_attr_call(query)
    }

    fn make_derive_call(&self, query: DeriveCallQuery) -> MacroCallId {
        self.db.make_derive_call(query)
    }

    fn is_include(&self, call: MacroCallId) -> bool {
        self.db.is_include(call)
    }

    fn enum_variants(&self, loc: &EnumLoc) -> Option<&[EnumVariant]> {
        self.db.enum_variants(loc)
    }

    fn assoc_items(&self, owner: AssocItemsOwner) -> Option<&AssocList> {
        self.db.assoc_items(owner)
    }

    fn rule_styles(&self, position: InFile<FileAstId>, krate: Crate) -> MacroCallStyles {
        self.db.rule_styles(position, krate)
    }

    fn proc_macros(&self, krate: Crate) -> &[(Name, u32, bool)] {
        self.db.proc_macros(krate)
    }

    fn find_builtin_macro(&self, name: Name) -> Option<Either<u32, u32>> {
        self.db.find_builtin_macro(name)
    }

    fn find_builtin_derive(&self, name: Name) -> Option<u32> {
        self.db.find_builtin_derive(name)
    }

    fn find_builtin_attr(&self, name: Name) -> Option<BuiltinAttr> {
        self.db.find_builtin_attr(name)
    }

    fn builtin_type(&self, name: Name) -> Option<u32> {
        self.db.builtin_type(name)
    }

    fn is_builtin_attr(&self, name: Name) -> bool {
        self.db.is_builtin_attr(name)
    }

    fn has_builtin_derive_impl(&self, derive: u32) -> bool {
        self.db.has_builtin_derive_impl(derive)
    }

    fn derive_traits(&self, derive: u32) -> &[u32] {
        self.db.derive_traits(derive)
    }

    fn cfg_flag(&self, krate: Crate, name: Name) -> bool {
        self.db.cfg_flag(krate, name)
    }

    fn builtin_derive_fast_path(&self) -> bool {
        self.db.builtin_derive_fast_path()
    }

    fn expand_proc_attr_macros(&self) -> bool {
        self.db.expand_proc_attr_macros()
    }
}

/// Whether `collect_defs` answers want of memory where the oracle has none for the item of this
/// number.
fn wants(workspace: &mut Workspace, item: usize) -> Result<bool, AllocError> {
    let Workspace {
        alloc,
        session,
        db,
        ..
    } = workspace;
    let position = InFile {
        file: ROOT.file,
        value: FileAstId(item),
    };
    let seeded = DefMap::seed(*alloc, Crate(0), Edition::Edition2021, None)?;
    let oracle = Wanting { db, position };
    Ok(collect_defs(*alloc, &oracle, session, seeded, ROOT, None).is_err())
}

/// The item that is answered otherwise than by want of memory where the oracle has none for it and
/// it is one of the calls, and not so where it is another item; none where all are right.
pub fn told_otherwise(alloc: Global) -> Result<Option<usize>, Fault> {
    let row = read_row(alloc, Part { text: ROW, line: 1 })?;
    for item in 0..ITEMS {
        let mut workspace = workspace_of(alloc, &row)?;
        if wants(&mut workspace, item)? != CALLS.contains(&item) {
            return Ok(Some(item));
        }
    }
    Ok(None)
}
