//! The folders and the clock of the system.

use cargo_packages::Folders;
use source_files::Files;
use std::alloc::AllocError;
use std::time::Instant;
use std::{fs, io};

/// The system, and when the program began.
pub(crate) struct System<'r> {
    rt: &'r HostRuntime,
    begin: Option<Instant>,
}

impl<'r> Drop for System<'r> {
    fn drop(self) {
        let System { rt: _, begin: _ } = self;
    }
}

impl<'r> System<'r> {
    /// The system, from now on.
    pub(crate) fn new(rt: &'r HostRuntime) -> System<'r> {
        let begin = Instant::now(rt).ok();
        System { rt, begin }
    }
}

/// What was read, if it could be.
fn read_or_none<T: Drop>(read: io::Result<T>) -> Result<Option<T>, AllocError> {
    match read {
        Ok(read) => Ok(Some(read)),
        Err(error) if error.kind() == io::ErrorKind::OutOfMemory => Err(AllocError),
        Err(_) => Ok(None),
    }
}

impl<'r> Files for System<'r> {
    fn read(&self, path: &str) -> Result<Option<Vec<u8>>, AllocError> {
        read_or_none(fs::read(self.rt, path))
    }

    fn microseconds(&self) -> u64 {
        let elapsed = match &self.begin {
            Some(begin) => begin.elapsed(self.rt).ok(),
            None => None,
        };
        elapsed.map_or(0, |elapsed| {
            let seconds = elapsed.as_secs().saturating_mul(1_000_000);
            seconds.saturating_add(u64::from(elapsed.subsec_micros()))
        })
    }
}

impl<'r> Folders for System<'r> {
    fn list(&self, path: &str) -> Result<Vec<String>, AllocError> {
        let mut names = Vec::new(self.rt.alloc());
        let Some(entries) = read_or_none(fs::read_dir(self.rt, path))? else {
            return Ok(names);
        };
        for entry in entries {
            if let Some(entry) = read_or_none(entry)? {
                names.push(String::from_str(self.rt.alloc(), entry.file_name())?)?;
            }
        }
        names.sort_unstable();
        Ok(names)
    }
}
