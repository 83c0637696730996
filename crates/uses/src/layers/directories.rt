//! Where the files of modules are looked for.

use def_database::Database;
use def_parts::ModDir;
use item_tree::{FileId, HirFileId};
use std::alloc::{AllocError, Global};
use std::test::Fail;

/// The file in which the modules are declared.
const DECLARING: FileId = FileId(0);

/// The file of a module.
const FOUND: FileId = FileId(1);

/// A module that a file declares: its name, and the path of an attribute.
type Declared = (&'static str, Option<&'static str>);

/// What a row shows: a module that has a file at a path, if it is not the root, and inline modules
/// in it, one in the other. Then their directory: its path, how many modules it lies in, and
/// whether a path is relative to the directory above. At last a module that is declared there, and
/// the files that are looked for.
struct Row {
    rule: &'static str,
    file: Option<(&'static str, Declared)>,
    inside: &'static [&'static str],
    directory: (&'static str, u32, bool),
    declared: Declared,
    sought: &'static [&'static str],
}

static ROWS: [Row; 5] = [
    Row {
        rule: "missing files are named",
        file: None,
        inside: &[],
        directory: ("", 0, false),
        declared: ("foo", None),
        sought: &["foo.rs", "foo/mod.rs"],
    },
    Row {
        rule: "missing files of inline modules are named",
        file: None,
        inside: &["foo", "bar"],
        directory: ("foo/bar/", 2, false),
        declared: ("x", None),
        sought: &["foo/bar/x.rs", "foo/bar/x/mod.rs"],
    },
    Row {
        rule: "an inline module has a directory",
        file: None,
        inside: &["foo"],
        directory: ("foo/", 1, false),
        declared: ("x", None),
        sought: &["foo/x.rs", "foo/x/mod.rs"],
    },
    Row {
        rule: "an attribute is relative to the file",
        file: Some(("foo.rs", ("foo", None))),
        inside: &[],
        directory: ("foo/", 1, true),
        declared: ("x", Some("./a\\b.rs")),
        sought: &["a/b.rs"],
    },
    Row {
        rule: "a file named by an attribute has no directory",
        file: Some(("mod.rs", ("foo", Some("mod.rs")))),
        inside: &[],
        directory: ("", 1, false),
        declared: ("x", None),
        sought: &["x.rs", "x/mod.rs"],
    },
];

/// Looks for a module where there is one file, if there is a path to it.
fn resolve(
    dir: &ModDir,
    path: Option<&str>,
    declared: Declared,
) -> Result<Result<(FileId, bool, ModDir), Vec<String>>, AllocError> {
    let mut db = Database::new(dir.dir_path().allocator());
    if let Some(path) = path {
        db.add_path(DECLARING, path, FOUND)?;
    }
    dir.resolve_declaration(&db, HirFileId::File(DECLARING), declared.0, declared.1)
}

/// The directory of a module of the root that has a file at a path, and is not found as a `mod.rs`.
fn found(alloc: Global, path: &str, declared: Declared) -> Result<Option<ModDir>, AllocError> {
    match resolve(&ModDir::root(alloc), Some(path), declared)? {
        Ok((FOUND, false, dir)) => Ok(Some(dir)),
        _ => Ok(None),
    }
}

/// Whether these files have these paths.
fn are_paths(files: &[String], paths: &[&str]) -> bool {
    let mut files = files.iter();
    for path in paths {
        match files.next() {
            Some(file) if file.as_str() == *path => {}
            _ => return false,
        }
    }
    files.next().is_none()
}

/// Whether the files of a row are looked for where there is none.
fn are_sought(dir: &ModDir, row: &Row) -> Result<bool, AllocError> {
    match resolve(dir, None, row.declared)? {
        Ok(_) => Ok(false),
        Err(files) => Ok(are_paths(files.as_slice(), row.sought)),
    }
}

/// Whether this is the directory of a row.
fn is_there(dir: &ModDir, row: &Row) -> bool {
    let (path, depth, is_relative_above) = row.directory;
    dir.dir_path().as_str() == path
        && dir.depth() == depth
        && dir.root_non_dir_owner() == is_relative_above
}

/// The directory of inline modules, one in the other, unless that is too deep.
fn inside(dir: ModDir, names: &[&str]) -> Result<Option<ModDir>, AllocError> {
    let mut dir = dir;
    for name in names {
        match dir.descend_into_definition(name, None)? {
            Some(below) => dir = below,
            None => return Ok(None),
        }
    }
    Ok(Some(dir))
}

/// The directory in which the inline modules of a row lie.
fn outside(alloc: Global, row: &Row) -> Result<Option<ModDir>, AllocError> {
    match row.file {
        Some((path, declared)) => found(alloc, path, declared),
        None => Ok(Some(ModDir::root(alloc))),
    }
}

/// The directory of the inline modules of a row.
fn directory(alloc: Global, row: &Row) -> Result<Option<ModDir>, AllocError> {
    match outside(alloc, row)? {
        Some(dir) => inside(dir, row.inside),
        None => Ok(None),
    }
}

/// Whether a row holds.
fn holds(alloc: Global, row: &Row) -> Result<bool, AllocError> {
    match directory(alloc, row)? {
        Some(dir) => Ok(is_there(&dir, row) && are_sought(&dir, row)?),
        None => Ok(false),
    }
}

#[test]
fn files_are_looked_for_in_directories(rt: HostRuntime) -> Result<(), Fail> {
    for row in &ROWS {
        assert!(rt; holds(rt.alloc(), row)?, "{}", row.rule);
    }
    Ok(())
}

/// How many inline modules the directory of so many lies in, unless that is too deep.
fn depth_of(alloc: Global, names: &[&str]) -> Result<Option<u32>, AllocError> {
    match inside(ModDir::root(alloc), names)? {
        Some(dir) => Ok(Some(dir.depth())),
        None => Ok(None),
    }
}

/// Inline modules, and how many of them their directory lies in, unless that is too deep.
static LIMITS: [(&[&str], Option<u32>); 2] = [(&["foo"; 32], Some(32)), (&["foo"; 33], None)];

#[test]
fn inline_modules_descend_to_a_limit(rt: HostRuntime) -> Result<(), Fail> {
    for (names, depth) in &LIMITS {
        assert!(rt; depth_of(rt.alloc(), names)? == *depth);
    }
    Ok(())
}
