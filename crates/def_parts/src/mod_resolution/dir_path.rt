//! Paths of directories.
ghost use Rattle.std.specs.Prelude.{◌≡◌, ◌++◌, List, [], IsTrue, IfOk, OnOk, MatchOption, map, string_bytes};
ghost use Rattle.std.specs.Bool.{MatchBool};
ghost use Rattle.def_readings.specs.Directories.{dir_text, dir_pieces, without_last, without_last_empty, base_of, clean, without_dot, as_slash, pieces_of};
ghost use Rattle.def_parts.specs.DirectoriesLaws.{IsDirText};

use std::alloc::{AllocError, Global};
use std::marker::Model;

/// The path of a directory: empty, or closed by `/`. A contract sees the list of its parts.
#[derive(Debug, Drop)]
pub struct DirPath {
    path: String,
}

impl Model for DirPath {
    ghost use Rattle.std.specs.Prelude.{List, ℕ, string_bytes};
    ghost use Rattle.def_readings.specs.Directories.{dir_pieces};
    ghost use Rattle.def_parts.specs.DirectoriesLaws.{IsDirText};

    ghost Value = { List (List ℕ) };

    ghost view = { λ d. dir_pieces (string_bytes d.path) };

    ghost invariant = { λ d. IsDirText (string_bytes d.path) };
}

impl DirPath {
    /// The path of a crate's root.
    pub(crate) fn empty(alloc: Global) -> DirPath
        ensures { result ≡ [] }
    {
        DirPath {
            path: String::new(alloc),
        }
    }

    /// The directory of this name in an empty path.
    pub(crate) fn of_name(alloc: Global, name: &str) -> Result<DirPath, AllocError>
        ensures { IfOk result (λ dir. dir ≡ pieces_of name.now) }
    {
        DirPath::empty(alloc).join_name(name)
    }

    /// The directory of this name in this one.
    pub(crate) fn join_name(&self, name: &str) -> Result<DirPath, AllocError>
        ensures { IfOk result (λ dir. dir ≡ self.now ++ pieces_of name.now) }
    {
        let mut path = self.path.clone()?;
        path.push_str(name)?;
        path.push_str("/")?;
        Ok(DirPath { path })
    }

    /// The directory at a path, which is closed by `/` unless it is empty or ends with it.
    pub(crate) fn closed(mut path: String) -> Result<DirPath, AllocError>
        ensures { IfOk result (λ dir. dir ≡ without_last_empty (pieces_of (string_bytes path))) }
    {
        if !is_dir_text(path.as_str()) {
            path.push_str("/")?;
        }
        Ok(DirPath { path })
    }

    /// The path of a file in this directory.
    pub(crate) fn join_file(&self, name: &str, end: &str) -> Result<String, AllocError>
        ensures { IfOk result (λ path. pieces_of (string_bytes path)
            ≡ self.now ++ pieces_of (name.now ++ end.now)) }
    {
        let mut file = self.path.clone()?;
        file.push_str(name)?;
        file.push_str(end)?;
        Ok(file)
    }

    /// The path.
    pub fn as_str(&self) -> &str
        ensures text { result.now ≡ dir_text self.now }
        ensures pieces { dir_pieces result.now ≡ self.now }
        ensures closed { IsDirText result.now }
    {
        self.path.as_str()
    }

    /// A copy of this path.
    pub fn clone(&self) -> Result<DirPath, AllocError>
        ensures { IfOk result (λ copy. copy ≡ self.now) }
    {
        Ok(DirPath {
            path: self.path.clone()?,
        })
    }

    /// The allocator of the path.
    pub fn allocator(&self) -> Global {
        *self.path.allocator()
    }

    /// The path of the directory above, if there is one.
    fn parent(&self) -> Option<&str>
        ensures { MatchOption result (self.now ≡ [])
            (λ path. (dir_pieces path.now ≡ without_last self.now) × IsDirText path.now) }
    {
        let inner = self.path.as_str().strip_suffix('/')?;
        match inner.rfind('/') {
            Some(at) => Some(&inner[..at + 1]),
            None => Some(""),
        }
    }

    /// The path of this directory, or of the one above.
    fn base(&self, relative_to_parent: bool) -> &str
        requires { IsTrue relative_to_parent → self.now ≡ [] → ⊥ }
        ensures pieces { dir_pieces result.now ≡ base_of self.now relative_to_parent }
        ensures closed { IsDirText result.now }
    {
        if relative_to_parent {
            self.parent().unwrap()
        } else {
            self.as_str()
        }
    }

    /// The text of an attribute, behind this directory's or the parent's.
    pub(crate) fn join_attr(
        &self,
        attr: &str,
        relative_to_parent: bool,
    ) -> Result<String, AllocError>
        requires { IsTrue relative_to_parent → self.now ≡ [] → ⊥ }
        ensures { IfOk result (λ path. pieces_of (string_bytes path)
            ≡ base_of self.now relative_to_parent ++ pieces_of (clean attr.now)) }
    {
        let mut path = String::from_str(self.allocator(), self.base(relative_to_parent))?;
        push_slashed(&mut path, skip_dot(attr))?;
        Ok(path)
    }
}

/// Whether a text is empty or ends with `/`.
fn is_dir_text(text: &str) -> bool
    ensures { MatchBool result (IsDirText text.now) (IsDirText text.now → ⊥) }
{
    text.is_empty() || text.ends_with('/')
}

/// The text without one leading `./`.
fn skip_dot(text: &str) -> &str
    ensures { result.now ≡ without_dot text.now }
{
    match text.strip_prefix("./") {
        Some(rest) => rest,
        None => text,
    }
}

/// Appends a text with `/` for each backslash.
fn push_slashed(path: &mut String, text: &str) -> Result<(), AllocError>
    ensures { OnOk result
        (string_bytes path.new ≡ string_bytes path.old ++ map as_slash text.now) }
{
    let mut left = text;
    'parts: while let Some((part, rest)) = left.split_once('\\') {
        path.push_str(part)?;
        path.push_str("/")?;
        left = rest;
    }
    path.push_str(left)?;
    Ok(())
}
