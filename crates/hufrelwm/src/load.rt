//! The crates that are asked for, read and collected.

use crate::words::Words;
use cargo_packages::{Folders, Package, PackageError, RootKind, Settings, find_packages};
use def_ids::Edition;
use def_map::LangCrate;
use item_tree::Crate;
use rust_cfg::{CfgOptions, CfgWordError};
use rust_reports::CrateNotes;
use rust_workspace::{CrateRequest, Workspace};
use std::alloc::{AllocError, AllocFailed, Global};

/// Why nothing is collected.
#[derive(Drop)]
pub(crate) enum Stop {
    Memory,
    Package(PackageError),
    /// A word of `--cfg`, and what is wrong with it.
    Cfg(String, CfgWordError),
}

impl From<AllocError> for Stop {
    fn from(_error: AllocError) -> Self {
        Stop::Memory
    }
}

impl<T: Drop> From<AllocFailed<T>> for Stop {
    fn from(_error: AllocFailed<T>) -> Self {
        Stop::Memory
    }
}

/// What was read and collected, and the crate that was asked for.
#[derive(Drop)]
pub(crate) struct Loaded {
    pub(crate) workspace: Workspace,
    pub(crate) notes: Vec<CrateNotes>,
    pub(crate) krate: Crate,
}

/// The edition of a word.
fn edition_of(word: &str) -> Edition {
    match word {
        "2015" => Edition::Edition2015,
        "2018" => Edition::Edition2018,
        "2024" => Edition::Edition2024,
        _ => Edition::Edition2021,
    }
}

/// The root that a word means.
fn kind_of(word: &str) -> RootKind {
    match word {
        "bin" => RootKind::Program,
        _ => RootKind::Library,
    }
}

/// What is looked for, as the words say.
fn settings_of<'a>(alloc: Global, words: &Words<'a>) -> Result<Settings<'a>, AllocError> {
    let mut features = Vec::new(alloc);
    for feature in words.features.iter() {
        features.push(String::from_str(alloc, feature)?)?;
    }
    let mut externs = Vec::new(alloc);
    for given in words.externs.iter() {
        externs.push(*given)?;
    }
    Ok(Settings {
        at: words.at,
        kind: words.kind.map(kind_of),
        edition: words.edition.map(edition_of),
        features,
        has_default_features: words.has_default_features,
        externs,
        crates: words.crates,
    })
}

/// What is set for a package.
fn options_of(alloc: Global, package: &Package) -> Result<CfgOptions, AllocError> {
    let mut options = CfgOptions::linux(alloc)?;
    for feature in package.features.iter() {
        options.add_value("feature", feature.as_str())?;
    }
    Ok(options)
}

/// Sets what the words say for the crate that is asked for.
fn add_words(alloc: Global, options: &mut CfgOptions, words: &Words<'_>) -> Result<(), Stop> {
    if words.is_test {
        options.add_flag("test")?;
    }
    for word in words.cfgs.iter() {
        if let Err(error) = options.add_word(word)? {
            return Err(Stop::Cfg(String::from_str(alloc, word)?, error));
        }
    }
    // A file alone has no manifest that would say which of them are its features.
    for feature in words.features.iter() {
        options.add_value("feature", feature)?;
    }
    Ok(())
}

/// Which of the standard library's crates a package is.
fn lang_of(package: &Package) -> Option<LangCrate> {
    match package.name.as_str() {
        "core" => Some(LangCrate::Core),
        "std" => Some(LangCrate::Std),
        _ => None,
    }
}

/// The crates that a package depends on, by the places of their packages.
fn dependencies_of(
    alloc: Global,
    package: &Package,
    crates: &[Crate],
) -> Result<Vec<(String, Crate)>, AllocError> {
    let mut dependencies = Vec::new(alloc);
    for (name, place) in package.dependencies.iter() {
        if let Some(krate) = crates.get(*place) {
            dependencies.push((name.clone()?, *krate))?;
        }
    }
    Ok(dependencies)
}

/// What is asked of the workspace for a package.
fn request_of(
    alloc: Global,
    package: &Package,
    options: CfgOptions,
    crates: &[Crate],
    words: &Words<'_>,
    is_last: bool,
) -> Result<CrateRequest, AllocError> {
    let is_asked = is_last && words.kind == Some("proc-macro");
    Ok(CrateRequest {
        name: package.name.clone()?,
        root: package.root.clone()?,
        edition: package.edition,
        options,
        is_proc_macro: package.is_proc_macro || is_asked,
        dependencies: dependencies_of(alloc, package, crates)?,
        lang: lang_of(package),
    })
}

/// What is to be known of a crate beside its map.
fn notes_of(alloc: Global, package: &Package, krate: Crate) -> Result<CrateNotes, AllocError> {
    let mut absent = Vec::new(alloc);
    for name in package.absent.iter() {
        absent.push(name.clone()?)?;
    }
    Ok(CrateNotes {
        krate,
        edition: package.edition,
        absent,
    })
}

/// Reads the crate that is asked for, and those that it depends on, and collects them.
pub(crate) fn load<F: Folders>(
    alloc: Global,
    folders: &F,
    words: &Words<'_>,
) -> Result<Loaded, Stop> {
    let settings = settings_of(alloc, words)?;
    let packages = match find_packages(alloc, folders, &settings)? {
        Ok(packages) => packages,
        Err(error) => return Err(Stop::Package(error)),
    };
    let mut workspace = Workspace::new(alloc)?;
    let (mut crates, mut notes) = (Vec::new(alloc), Vec::new(alloc));
    let mut last = Crate(0);
    for (number, package) in packages.iter().enumerate() {
        let is_last = number.saturating_add(1) == packages.len();
        let mut options = options_of(alloc, package)?;
        if is_last {
            add_words(alloc, &mut options, words)?;
        }
        let crates_so_far = crates.as_slice();
        let request = request_of(alloc, package, options, crates_so_far, words, is_last)?;
        last = workspace.add_crate(folders, request)?;
        notes.push(notes_of(alloc, package, last)?)?;
        crates.push(last)?;
    }
    Ok(Loaded {
        workspace,
        notes,
        krate: last,
    })
}
