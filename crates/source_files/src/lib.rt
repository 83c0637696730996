//! Files as they are read, and the paths that lead from one to another.
#![tactic(auto)]

use std::alloc::{AllocError, Global};

/// A folder of files, and a clock.
pub trait Files {
    /// The bytes of the file at a path. None where there is no such file.
    fn read(&self, path: &str) -> Result<Option<Vec<u8>>, AllocError>;

    /// Microseconds since some moment. 0 where there is no clock.
    fn microseconds(&self) -> u64;
}

/// Goes on by a part of a path, `..` being the folder above.
fn push_part<'a>(parts: &mut Vec<&'a str>, part: &'a str) -> Result<(), AllocError> {
    if part.is_empty() || part == "." {
        return Ok(());
    }
    if part == ".." && parts.last().is_some_and(|last| *last != "..") {
        parts.pop();
        return Ok(());
    }
    parts.push(part)?;
    Ok(())
}

/// Goes on by each part of a path.
fn push_parts<'a>(parts: &mut Vec<&'a str>, path: &'a str) -> Result<(), AllocError> {
    for part in path.split('/') {
        push_part(parts, part)?;
    }
    Ok(())
}

/// A path of these parts, behind what it begins with.
fn path_of(alloc: Global, begin: &str, parts: &[&str]) -> Result<String, AllocError> {
    let mut path = String::from_str(alloc, begin)?;
    for (number, part) in parts.iter().enumerate() {
        if number > 0 {
            path.push_str("/")?;
        }
        path.push_str(part)?;
    }
    Ok(path)
}

/// The path to which one leads from a folder, without `.` and, as far as it can be, without `..`.
pub fn join(alloc: Global, folder: &str, path: &str) -> Result<String, AllocError> {
    let mut parts = Vec::new(alloc);
    let is_absolute = path.starts_with("/");
    if !is_absolute {
        push_parts(&mut parts, folder)?;
    }
    push_parts(&mut parts, path)?;
    let begin = if is_absolute || folder.starts_with("/") {
        "/"
    } else {
        ""
    };
    path_of(alloc, begin, parts.as_slice())
}

/// The folder of a file, by its path.
fn folder_of(file: &str) -> &str {
    match file.rsplit_once('/') {
        Some(("", _)) => "/",
        Some((folder, _)) => folder,
        None => "",
    }
}

/// The path to which a path leads that is written in a file.
pub fn path_from(alloc: Global, file: &str, path: &str) -> Result<String, AllocError> {
    join(alloc, folder_of(file), path)
}
