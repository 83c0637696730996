//! Calls that take memory, each with an answer that is known.

use crate::copies::copy;
use crate::locations::{KINDS, add_location, count};
use crate::maps::asked;
use crate::trial::Trial;
use def_collector::AttrResolution;
use def_ids::{Edition, ModuleId};
use def_interner::Interner;
use def_map::{BlockInfo, DefMap};
use def_parts::{
    ModDir, parse_macro_name_and_helper_attrs, parse_proc_macro_decl, parse_proc_macro_derive,
};
use def_workspace::{Fault, Fixture, Workspace};
use item_tree::{
    Attr, AttrId, Attrs, AttrsOrCfg, BlockId, Crate, FileAstId, FileId, HirFileId, InFile,
    ModItemId, Name, NameTable, TreeId,
};
use std::alloc::{AllocError, Global};

/// The row in whose workspace the calls are made.
pub static ROW: &str = "
path a.rs file 1
-- file
#[nope(a, b)] pub fn f() {} #[proc_macro_derive(D, attributes(a, b))] pub fn d() {}
#[proc_macro] pub fn p() {}
-- file
-- shows";

/// The root file of the row.
const ROOT: TreeId = TreeId {
    file: HirFileId::File(FileId(0)),
    block: None,
};

/// The attributes of an item of the row.
fn attrs_of(workspace: &Workspace, item: usize) -> Option<&Attrs> {
    let tree = workspace.db.files.trees.get(&ROOT)?;
    match tree.attrs(ModItemId(item))? {
        AttrsOrCfg::Enabled(attrs) => Some(attrs),
        AttrsOrCfg::CfgDisabled(..) => None,
    }
}

/// The first attribute of an item of the row.
fn attr_of(workspace: &Workspace, item: usize) -> Option<&Attr> {
    attrs_of(workspace, item)?.get(AttrId(0))
}

/// A new session.
fn session(alloc: Global) -> Result<bool, AllocError> {
    let session = Interner::new(alloc)?;
    Ok(session.text(Name(0)) == Some("self"))
}

/// A name in a new table.
fn table_name(alloc: Global) -> Result<bool, AllocError> {
    let mut table = NameTable::new(alloc)?;
    let name = table.intern("new")?;
    Ok(table.text(name) == Some("new"))
}

/// A name in the session.
fn session_name(workspace: &mut Workspace) -> Result<bool, AllocError> {
    let name = workspace.session.names.intern("a new name")?;
    Ok(workspace.session.text(name) == Some("a new name"))
}

/// A map of a crate.
fn seed(alloc: Global) -> Result<bool, AllocError> {
    let map = DefMap::seed(alloc, Crate(3), Edition::Edition2021, None)?;
    Ok(map.is_fresh())
}

/// A map of a block in the root of the crate.
fn block(workspace: &Workspace) -> Result<bool, AllocError> {
    let alloc = workspace.alloc;
    let Some(map) = workspace.db.crates.maps.get(&Crate(0)) else {
        return Ok(false);
    };
    let root = ModuleId {
        map: map.id(),
        index: 0,
    };
    let containing = vec![in alloc; root]?;
    match BlockInfo::new(alloc, BlockId(0), containing, map)? {
        Some(info) => {
            let seeded = DefMap::seed(alloc, Crate(0), Edition::Edition2021, Some(info))?;
            Ok(seeded.is_fresh())
        }
        None => Ok(false),
    }
}

/// Directories of modules in braces.
fn descend(alloc: Global) -> Result<bool, AllocError> {
    let root = ModDir::root(alloc);
    let Some(dir) = root.descend_into_definition("a", Some("./b\\c"))? else {
        return Ok(false);
    };
    match dir.descend_into_definition("d", None)? {
        Some(below) => Ok(below.dir_path().as_str() == "b/c/d/"),
        None => Ok(false),
    }
}

/// A file that is there.
fn found_file(workspace: &Workspace) -> Result<bool, AllocError> {
    let root = ModDir::root(workspace.alloc);
    match root.resolve_declaration(&workspace.db, ROOT.file, "a", None)? {
        Ok((file, _, dir)) => Ok(file == FileId(1) && dir.dir_path().as_str() == "a/"),
        Err(_) => Ok(false),
    }
}

/// A file that is not there.
fn no_file(workspace: &Workspace) -> Result<bool, AllocError> {
    let root = ModDir::root(workspace.alloc);
    match root.resolve_declaration(&workspace.db, ROOT.file, "gone", None)? {
        Ok(_) => Ok(false),
        Err(files) => Ok(files.len() == 2),
    }
}

/// What a function declares by an attribute, that of a derive.
fn declared(workspace: &Workspace) -> Result<bool, AllocError> {
    let Some(attrs) = attrs_of(workspace, 1) else {
        return Ok(false);
    };
    let found = parse_proc_macro_decl(workspace.alloc, attrs, Name(0))?;
    Ok(found.is_some())
}

/// Whether a derive with two helpers was read.
fn has_helpers(found: &Option<(Name, Vec<Name>)>) -> bool {
    match found {
        Some((_, helpers)) => helpers.len() == 2,
        None => false,
    }
}

/// What a function declares as a derive.
fn derive_declared(workspace: &Workspace) -> Result<bool, AllocError> {
    let Some(attrs) = attrs_of(workspace, 1) else {
        return Ok(false);
    };
    let found = parse_proc_macro_derive(workspace.alloc, attrs)?;
    Ok(has_helpers(&found))
}

/// What the arguments of a derive say.
fn derive_read(workspace: &Workspace) -> Result<bool, AllocError> {
    let Some(attr) = attr_of(workspace, 1) else {
        return Ok(false);
    };
    let Some(tokens) = attr.tokens() else {
        return Ok(false);
    };
    let found = parse_macro_name_and_helper_attrs(workspace.alloc, tokens)?;
    Ok(has_helpers(&found))
}

/// An attribute that no macro has.
fn no_macro(workspace: &Workspace) -> Result<bool, AllocError> {
    let crates = &workspace.db.crates;
    let (Some(map), Some(local), Some(attr)) = (
        crates.maps.get(&Crate(0)),
        crates.local_maps.get(&Crate(0)),
        attr_of(workspace, 0),
    ) else {
        return Ok(false);
    };
    let (alloc, db, session) = (workspace.alloc, &workspace.db, &workspace.session);
    let root = ModuleId {
        map: map.id(),
        index: 0,
    };
    let position = InFile {
        file: ROOT.file,
        value: FileAstId(0),
    };
    let found = map.resolve_attr_macro(
        alloc,
        local,
        db,
        session,
        root,
        position,
        attr,
        AttrId(0),
        0,
    )?;
    match found {
        Ok(_) => Ok(false),
        Err(unresolved) => Ok(unresolved.path == attr.path),
    }
}

/// The names of the calls, by their numbers.
const NAMES: [&str; 22] = [
    "Interner::new",
    "NameTable::new, intern",
    "Interner::names, intern",
    "DefMap::seed",
    "BlockInfo::new, DefMap::seed",
    "ModDir::descend_into_definition",
    "ModDir::resolve_declaration, found",
    "ModDir::resolve_declaration, not found",
    "parse_proc_macro_decl",
    "parse_proc_macro_derive",
    "parse_macro_name_and_helper_attrs",
    "resolve_attr_macro",
    "ModPath::clone",
    "RawVisibility::clone",
    "Seq::clone",
    "Text::clone",
    "Leaf::clone",
    "TopSubtree::clone",
    "DefDiagnostic::clone, of a file",
    "DefDiagnostic::clone, of a macro",
    "TraitItems::clone",
    "ModDir::clone, DirPath::clone",
];

/// How many locations of each kind are interned.
const LOCATIONS: usize = 20;

/// The number of the first that copies.
const COPIES: usize = 12;

/// How many calls there are: behind those that have names one for each kind of location.
pub const CALLS: usize = NAMES.len() + KINDS;

/// What a call is called.
pub fn name_of(number: usize) -> &'static str {
    NAMES.get(number).copied().unwrap_or("Location::intern")
}

/// Interns locations of a kind, of which the session knows one. One that is refused changes
/// nothing.
fn intern(session: &mut Interner, kind: usize) -> Result<bool, AllocError> {
    for number in count(session, kind)..LOCATIONS {
        let added = add_location(session, kind, number);
        let known = if added.is_ok() {
            number.saturating_add(1)
        } else {
            number
        };
        if count(session, kind) != known {
            return Ok(false);
        }
        added?;
    }
    Ok(true)
}

/// Makes a call, and answers whether it answers what it should.
fn call(workspace: &mut Workspace, number: usize) -> Result<bool, AllocError> {
    let alloc = workspace.alloc;
    match number {
        0 => session(alloc),
        1 => table_name(alloc),
        2 => session_name(workspace),
        3 => seed(alloc),
        4 => block(workspace),
        5 => descend(alloc),
        6 => found_file(workspace),
        7 => no_file(workspace),
        8 => declared(workspace),
        9 => derive_declared(workspace),
        10 => derive_read(workspace),
        11 => no_macro(workspace),
        _ if number < NAMES.len() => copy(alloc, number.saturating_sub(COPIES)),
        _ => intern(&mut workspace.session, number.saturating_sub(NAMES.len())),
    }
}

/// A call, in the workspace of a row.
#[derive(Clone, Copy)]
pub struct CallOf<'r, 't> {
    pub row: &'r Fixture<'t>,
    pub number: usize,
}

impl Trial for CallOf<'_, '_> {
    type Answer = bool;

    fn ready(&self, alloc: Global) -> Result<Workspace, Fault> {
        asked(alloc, self.row)
    }

    // Another answer than it should be is a fault.
    fn answer(&self, workspace: &mut Workspace) -> Result<bool, Fault> {
        if call(workspace, self.number)? {
            Ok(true)
        } else {
            Err(Fault::Output)
        }
    }

    fn write(
        &self,
        _workspace: &Workspace,
        _answer: &bool,
        _lines: &mut Vec<u8>,
    ) -> Result<(), Fault> {
        Ok(())
    }
}
