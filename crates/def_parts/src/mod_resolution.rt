//! Where the file of a `mod foo;` lies.
ghost use Rattle.std.specs.Prelude.{◌≡◌, ◌||◌, IfOk, map};
ghost use Rattle.def_readings.specs.Directories.{HasParent, pieces_of, is_mod_rs};

mod dir_path;

use arrayvec::ArrayVec;
use def_map::SourceDatabase;
pub use dir_path::DirPath;
use item_tree::{FileId, HirFileId};
use std::alloc::{AllocError, Global};
use std::marker::Model;

/// How deep files of modules may lie in one another.
const MOD_DEPTH_LIMIT: u32 = 32;

/// Where the files of a module's children lie. A contract sees its parts.
#[derive(Debug, Drop)]
pub struct ModDir {
    /// Empty for `mod.rs` and `lib.rs`, `foo/` for `foo.rs`, and `foo/bar/` for
    /// `mod bar { mod x; }` in `foo.rs`.
    dir_path: DirPath,
    /// In `foo.rs` a `#[path]` is relative to where `foo.rs` lies, and not to `foo/`.
    root_non_dir_owner: bool,
    depth: u32,
}

impl Model for ModDir {
    ghost use Rattle.def_readings.specs.Directories.{Directory, HasParent};

    ghost Value = { Directory };

    ghost view = { λ d. record {
      pieces = d.dir_path;
      root_non_dir_owner = d.root_non_dir_owner;
      depth = d.depth;
    } };

    ghost invariant = { λ d. HasParent d.dir_path d.root_non_dir_owner };
}

impl ModDir {
    ghost use Rattle.def_readings.specs.Directories.{root_directory, child, below, descend, candidates, split_text, text_in, child_of_file, in_candidate, first_found, files_of, resolve_declaration, AnswersFile};

    /// The directory of a crate's root.
    pub fn root(alloc: Global) -> ModDir
        ensures { result ≡ root_directory }
    {
        ModDir {
            dir_path: DirPath::empty(alloc),
            root_non_dir_owner: false,
            depth: 0,
        }
    }

    /// The path of the directory. It is not empty where a `#[path]` is relative to the directory
    /// above.
    pub fn dir_path(&self) -> &DirPath
        ensures path { result.now ≡ self.now.pieces }
        ensures parent { HasParent self.now.pieces self.now.root_non_dir_owner }
    {
        &self.dir_path
    }

    /// Whether a `#[path]` is relative to the directory above.
    pub fn root_non_dir_owner(&self) -> bool
        ensures { result ≡ self.now.root_non_dir_owner }
    {
        self.root_non_dir_owner
    }

    /// How many modules it lies in.
    pub fn depth(&self) -> u32
        ensures { result ≡ self.now.depth }
    {
        self.depth
    }

    /// A copy of this directory.
    pub fn clone(&self) -> Result<ModDir, AllocError>
        ensures { IfOk result (λ copy. copy ≡ self.now) }
    {
        Ok(ModDir {
            dir_path: self.dir_path.clone()?,
            root_non_dir_owner: self.root_non_dir_owner,
            depth: self.depth,
        })
    }

    /// A directory one level deeper, unless that is too deep.
    fn child(&self, dir_path: DirPath, root_non_dir_owner: bool) -> Option<ModDir>
        requires { HasParent dir_path root_non_dir_owner }
        ensures { result ≡ child self.now dir_path root_non_dir_owner }
    {
        if self.depth < MOD_DEPTH_LIMIT {
            Some(ModDir {
                dir_path,
                root_non_dir_owner,
                depth: self.depth + 1,
            })
        } else {
            None
        }
    }

    /// The path of an inline module's directory.
    fn path_below(&self, name: &str, attr_path: Option<&str>) -> Result<DirPath, AllocError>
        ensures { IfOk result (λ path. path ≡ below self.now name.now (text_in attr_path.entry)) }
    {
        let Some(attr) = attr_path else {
            return self.dir_path.join_name(name);
        };
        let path = self.dir_path.join_attr(attr, self.root_non_dir_owner)?;
        let dir = DirPath::closed(path)?;
        Ok(dir)
    }

    /// The directory of an inline module, by its name and the text of its `#[path]`; none where
    /// that is too deep.
    pub fn descend_into_definition(
        &self,
        name: &str,
        attr_path: Option<&str>,
    ) -> Result<Option<ModDir>, AllocError>
        ensures { IfOk result (λ dir. dir ≡ descend self.now name.now (text_in attr_path.entry)) }
    {
        let path = self.path_below(name, attr_path)?;
        Ok(self.child(path, false))
    }

    /// The files in which an outline module may lie.
    fn candidate_files(
        &self,
        name: &str,
        attr_path: Option<&str>,
    ) -> Result<ArrayVec<String, 2, Global>, AllocError>
        ensures { IfOk result (λ files. map split_text files.items
            ≡ candidates self.now name.now (text_in attr_path.entry)) }
    {
        let mut files = ArrayVec::new_in(self.dir_path.allocator());
        if let Some(attr) = attr_path {
            files.push(self.dir_path.join_attr(attr, self.root_non_dir_owner)?);
            return Ok(files);
        }
        files.push(self.dir_path.join_file(name, ".rs")?);
        files.push(self.dir_path.join_file(name, "/mod.rs")?);
        Ok(files)
    }

    /// The directory of a module that was found in a file; none where that is too deep.
    fn dir_of_file(
        &self,
        name: &str,
        is_mod_rs: bool,
        has_attr: bool,
    ) -> Result<Option<ModDir>, AllocError>
        ensures { IfOk result
            (λ dir. dir ≡ child_of_file self.now name.now (is_mod_rs || has_attr)) }
    {
        let alloc = self.dir_path.allocator();
        if is_mod_rs || has_attr {
            return Ok(self.child(DirPath::empty(alloc), false));
        }
        let dir_path = DirPath::of_name(alloc, name)?;
        Ok(self.child(dir_path, true))
    }

    /// The module in this candidate, if the file is there and not too deep.
    fn find_in<D: SourceDatabase>(
        &self,
        db: &D,
        anchor: FileId,
        candidate: &str,
        name: &str,
        attr_path: Option<&str>,
    ) -> Result<Option<(FileId, bool, ModDir)>, AllocError>
        ensures { IfOk result (λ found. found ≡ in_candidate (files_of (D.oracle db.now)) anchor
            self.now name.now (text_in attr_path.entry) (pieces_of candidate.now)) }
    {
        let Some(file) = db.resolve_path(anchor, candidate) else {
            return Ok(None);
        };
        let is_mod_rs = is_mod_rs(candidate);
        match self.dir_of_file(name, is_mod_rs, attr_path.is_some())? {
            Some(dir) => Ok(Some((file, is_mod_rs, dir))),
            None => Ok(None),
        }
    }

    /// The module in the first of these candidates where there is one.
    fn find_among<D: SourceDatabase>(
        &self,
        db: &D,
        anchor: FileId,
        candidates: &[String],
        name: &str,
        attr_path: Option<&str>,
    ) -> Result<Option<(FileId, bool, ModDir)>, AllocError>
        ensures { IfOk result (λ found. found ≡ first_found (files_of (D.oracle db.now)) anchor
            self.now name.now (text_in attr_path.entry) (map split_text candidates.now)) }
    {
        'candidates: for candidate in candidates {
            let found = self.find_in(db, anchor, candidate.as_str(), name, attr_path)?;
            if found.is_some() {
                return Ok(found);
            }
        }
        Ok(None)
    }

    /// The file in which an outline module lies, whether that is a `mod.rs`, and the module's
    /// directory, by the module's name and the text of its `#[path]`; or all files that were looked
    /// for.
    pub fn resolve_declaration<D: SourceDatabase>(
        &self,
        db: &D,
        file: HirFileId,
        name: &str,
        attr_path: Option<&str>,
    ) -> Result<Result<(FileId, bool, ModDir), Vec<String>>, AllocError>
        ensures { IfOk result (λ answer. AnswersFile answer
            (resolve_declaration (files_of (D.oracle db.now)) file self.now name.now
            (text_in attr_path.entry))) }
    {
        let candidates = self.candidate_files(name, attr_path)?;
        let anchor = db.original_file(file);
        if let Some(found) = self.find_among(db, anchor, candidates.as_slice(), name, attr_path)? {
            return Ok(Ok(found));
        }
        let files = into_vec(self.dir_path.allocator(), candidates)?;
        Ok(Err(files))
    }
}

/// Whether a file is a `mod.rs` in a directory.
fn is_mod_rs(path: &str) -> bool
    ensures { result ≡ is_mod_rs (pieces_of path.now) }
{
    path.ends_with("/mod.rs")
}

/// The candidates, as an answer has them.
fn into_vec(
    alloc: Global,
    mut files: ArrayVec<String, 2, Global>,
) -> Result<Vec<String>, AllocError>
    ensures { IfOk result (λ copy. copy.items ≡ files.items) }
{
    let mut copy = Vec::with_capacity(alloc, files.len())?;
    'moving: while !files.is_empty() {
        copy.push(files.remove(0))?;
    }
    Ok(copy)
}
