//! The packages that one depends on, and which of their features are on.

use crate::fault::PackageError;
use crate::locate::{asked_root, dependency_folder, first_file, library_at, manifest_in};
use crate::node::{Asked, Found, LibraryKey, Node, new_node};
use crate::paths::is_root_file;
use crate::settings::{Folders, RootKind, STANDARD, Settings, is_standard};
use cargo_manifest::{Manifest, ManifestDependency, WantedDependency};
use indexmap::IndexMap;
use source_files::join;
use std::alloc::{AllocError, Global};

/// Packages while they are found.
pub(crate) struct Finding<'f, 's, 'a, F> {
    pub(crate) alloc: Global,
    pub(crate) folders: &'f F,
    pub(crate) settings: &'s Settings<'a>,
    /// What lies in the folder of packages side by side.
    pub(crate) side_by_side: Vec<String>,
    pub(crate) nodes: Vec<Node>,
    /// By the paths of their roots.
    pub(crate) by_root: IndexMap<LibraryKey, usize>,
    /// The libraries that were looked for, by their folders.
    pub(crate) by_folder: IndexMap<LibraryKey, Option<usize>>,
    /// The packages of which more is asked than was looked at.
    pub(crate) changed: Vec<usize>,
}

impl<'f, 's, 'a, F> Drop for Finding<'f, 's, 'a, F> {
    fn drop(self) {
        let Finding {
            alloc: _,
            folders: _,
            settings: _,
            side_by_side: _,
            nodes: _,
            by_root: _,
            by_folder: _,
            changed: _,
        } = self;
    }
}

impl<'f, 's, 'a, F: Folders> Finding<'f, 's, 'a, F> {
    /// Takes a package in, and answers its number.
    fn add(&mut self, found: Node) -> Result<usize, AllocError> {
        let number = self.nodes.len();
        let key = LibraryKey {
            path: found.root.clone()?,
            is_below_std: found.is_below_std,
        };
        self.by_root.insert(key, number)?;
        self.nodes.push(found)?;
        self.changed.push(number)?;
        Ok(number)
    }

    /// Finds the package whose library lies in a folder, or has this root file. None where no library is
    /// there, or its manifest is not read. Without a manifest it is called as its user calls it.
    fn find_library(
        &mut self,
        at: String,
        called: Option<&str>,
        is_below_std: bool,
    ) -> Result<Option<usize>, AllocError> {
        let library = library_at(self.alloc, self.folders, at.as_str())?;
        let Some((root, manifest)) = library else {
            return Ok(None);
        };
        let key = LibraryKey {
            path: root.clone()?,
            is_below_std,
        };
        if let Some(number) = self.by_root.get(&key) {
            return Ok(Some(*number));
        }
        let mut found = new_node(self.alloc, at, root, manifest, called)?;
        found.is_below_std = is_below_std;
        Ok(Some(self.add(found)?))
    }

    /// The package whose library lies in a folder or has this root file, which is looked for at the first
    /// time.
    fn library_in(
        &mut self,
        at: String,
        called: Option<&str>,
        is_below_std: bool,
    ) -> Result<Option<usize>, AllocError> {
        let key = LibraryKey {
            path: at.clone()?,
            is_below_std,
        };
        if let Some(found) = self.by_folder.get(&key) {
            return Ok(*found);
        }
        let found = self.find_library(at, called, is_below_std)?;
        self.by_folder.insert(key, found)?;
        Ok(found)
    }

    /// Asks a package for features.
    pub(crate) fn ask(
        &mut self,
        number: usize,
        features: &[String],
        has_default: bool,
    ) -> Result<(), AllocError> {
        let Some(node) = self.nodes.get_mut(number) else {
            return Ok(());
        };
        let mut has_changed = has_default && !node.has_default;
        node.has_default = node.has_default || has_default;
        for feature in features {
            if !node.wanted.contains(feature.as_str()) {
                node.wanted.insert(feature.clone()?)?;
                has_changed = true;
            }
        }
        if has_changed {
            self.changed.push(number)?;
        }
        Ok(())
    }

    /// The package that another one depends on, asked for what that wants of it.
    fn dependency(
        &mut self,
        asked: &Asked,
        dependency: &ManifestDependency,
        wanted: &WantedDependency,
    ) -> Result<Option<usize>, AllocError> {
        let side_by_side = self.side_by_side.as_slice();
        let folder = asked.folder.as_str();
        let found = dependency_folder(self.alloc, self.settings, side_by_side, folder, dependency)?;
        let Some(found) = found else {
            return Ok(None);
        };
        let name = dependency.name.as_str();
        let is_below_std = asked.is_below_std || self.settings.gives_standard(name);
        let Some(number) = self.library_in(found, Some(name), is_below_std)? else {
            return Ok(None);
        };
        let has_default = dependency.has_default_features;
        self.ask(number, wanted.features.as_slice(), has_default)?;
        Ok(Some(number))
    }

    /// Adds a crate by its name and place that is there without being depended on.
    fn add_given(&mut self, found: &mut Found, name: &str, at: String) -> Result<(), AllocError> {
        let text = String::from_str(self.alloc, name)?;
        match self.library_in(at, Some(name), is_standard(name))? {
            Some(number) => {
                self.ask(number, &[], true)?;
                found.links.push((text, number))?;
            }
            None => found.absent.push(text)?,
        }
        Ok(())
    }

    /// Adds the crates that are there without being depended on. For a package of the standard library,
    /// and for one below it, that is `core` alone: all else they name.
    fn add_standard(&mut self, asked: &Asked, found: &mut Found) -> Result<(), AllocError> {
        let settings = self.settings;
        for (name, folder) in settings.externs.iter() {
            let folder = join(self.alloc, folder, "")?;
            let is_core = *name == "core" && folder.as_str() != asked.folder.as_str();
            if (!asked.is_below_std || is_core) && !found.has_link(name) {
                self.add_given(found, name, folder)?;
            }
        }
        for name in STANDARD.iter() {
            if !found.has_link(name) {
                found.absent.push(String::from_str(self.alloc, name)?)?;
            }
        }
        Ok(())
    }

    /// What is asked of a package.
    fn asked(&self, number: usize) -> Result<Option<Asked>, AllocError> {
        let Some(node) = self.nodes.get(number) else {
            return Ok(None);
        };
        let mut wanted = Vec::new(self.alloc);
        for feature in node.wanted.iter() {
            wanted.push(feature.clone()?)?;
        }
        Ok(Some(Asked {
            folder: node.folder.clone()?,
            is_below_std: node.is_below_std,
            wanted,
            has_default: node.has_default,
            library: node.library,
        }))
    }

    /// Finds a package that another one depends on.
    fn find_one(
        &mut self,
        asked: &Asked,
        dependency: &ManifestDependency,
        wanted: &WantedDependency,
        found: &mut Found,
    ) -> Result<(), AllocError> {
        let name = dependency.name.clone()?;
        match self.dependency(asked, dependency, wanted)? {
            Some(number) => found.links.push((name, number))?,
            None => found.absent.push(name)?,
        }
        Ok(())
    }

    /// Finds what a package depends on by its manifest, as far as its features want it.
    fn find_wanted(
        &mut self,
        asked: &Asked,
        manifest: &Manifest,
        found: &mut Found,
    ) -> Result<(), AllocError> {
        let wanted = asked.wanted.as_slice();
        found.features = manifest.features_on(self.alloc, wanted, asked.has_default)?;
        let all = manifest.dependencies_on(self.alloc, found.features.as_slice())?;
        for (dependency, wanted) in manifest.dependencies.iter().zip(all.iter()) {
            if wanted.is_wanted {
                self.find_one(asked, dependency, wanted, found)?;
            }
        }
        Ok(())
    }

    /// Adds the library beside a program.
    fn add_library(&mut self, asked: &Asked, found: &mut Found) -> Result<(), AllocError> {
        let Some(library) = asked.library else {
            return Ok(());
        };
        self.ask(library, asked.wanted.as_slice(), asked.has_default)?;
        if let Some(node) = self.nodes.get(library) {
            found.links.push((node.name.clone()?, library))?;
        }
        Ok(())
    }

    /// Finds what a package depends on.
    fn look(&mut self, number: usize, manifest: &Option<Manifest>) -> Result<(), AllocError> {
        let Some(asked) = self.asked(number)? else {
            return Ok(());
        };
        let mut found = Found::new(self.alloc);
        if let Some(manifest) = manifest {
            self.find_wanted(&asked, manifest, &mut found)?;
        }
        self.add_library(&asked, &mut found)?;
        self.add_standard(&asked, &mut found)?;
        if let Some(node) = self.nodes.get_mut(number) {
            node.take(found);
        }
        Ok(())
    }

    /// Looks at packages until nothing more is asked of any.
    pub(crate) fn look_all(&mut self) -> Result<(), AllocError> {
        for _ in 0..u64::MAX {
            let Some(number) = self.changed.pop() else {
                break;
            };
            let manifest = match self.nodes.get_mut(number) {
                Some(node) => node.manifest.take(),
                None => None,
            };
            self.look(number, &manifest)?;
            if let Some(node) = self.nodes.get_mut(number) {
                node.manifest = manifest;
            }
        }
        Ok(())
    }

    /// The package that is asked for.
    pub(crate) fn begin(&mut self) -> Result<Result<(), PackageError>, AllocError> {
        let (alloc, settings) = (self.alloc, self.settings);
        if is_root_file(settings.at) {
            let Some(root) = first_file(alloc, self.folders, settings.at, &[""])? else {
                let path = join(alloc, settings.at, "")?;
                return Ok(Err(PackageError::NoRoot(path)));
            };
            let found = new_node(alloc, String::new(alloc), root, None, None)?;
            self.add(found)?;
            return Ok(Ok(()));
        }
        let manifest = match manifest_in(alloc, self.folders, settings.at)? {
            Ok(manifest) => manifest,
            Err(error) => return Ok(Err(error)),
        };
        let root = asked_root(alloc, self.folders, settings, manifest.as_ref())?;
        let Some((root, kind)) = root else {
            let path = String::from_str(alloc, settings.at)?;
            return Ok(Err(PackageError::NoRoot(path)));
        };
        let folder = join(alloc, settings.at, "")?;
        let number = self.add(new_node(alloc, folder, root, manifest, None)?)?;
        if kind == RootKind::Program {
            let folder = join(alloc, settings.at, "")?;
            let library = self.library_in(folder, None, false)?;
            if let Some(node) = self.nodes.get_mut(number) {
                node.library = library;
            }
        }
        Ok(Ok(()))
    }
}
