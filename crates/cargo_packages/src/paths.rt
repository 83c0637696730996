//! Names of packages and of files.

use std::alloc::{AllocError, Global};

/// A name as code has it: `_` in place of `-`.
pub(crate) fn code_name(alloc: Global, name: &str) -> Result<String, AllocError> {
    name.replace(alloc, "-", "_")
}

/// Whether a path is that of a root file, and not of a folder.
pub(crate) fn is_root_file(path: &str) -> bool {
    path.ends_with(".rs")
}

/// The folder of a path, which may be empty, and the name in it.
fn last_name(path: &str) -> (&str, &str) {
    path.rsplit_once('/').unwrap_or(("", path))
}

/// The name of a crate by its root file alone: the file's without its `.rs`. Where that tells nothing, as
/// `lib` and `main` do, it is that of the folder in which the file lies, or above `src`.
pub(crate) fn plain_name(root: &str) -> &str {
    let (folder, file) = last_name(root);
    let stem = file.strip_suffix(".rs").unwrap_or(file);
    if !matches!(stem, "lib" | "main") {
        return stem;
    }
    let (above, name) = last_name(folder);
    let name = if name == "src" {
        last_name(above).1
    } else {
        name
    };
    if matches!(name, "" | "." | "..") {
        stem
    } else {
        name
    }
}
