//! Features: what a manifest declares, and which of them are on.

use crate::manifest::{Manifest, ManifestDependency, WantedDependency};
use crate::read::{table_in, texts};
use indexmap::{IndexMap, IndexSet};
use std::alloc::{AllocError, Global};
use toml::Table;

/// What a feature may turn on, by how it is written.
#[derive(Clone, Copy)]
enum Turn<'a> {
    /// `dep:NAME`
    Dependency(&'a str),
    /// `NAME/FEATURE`
    WithFeature(&'a str, &'a str),
    /// `NAME?/FEATURE`
    OnlyFeature(&'a str, &'a str),
    Feature(&'a str),
}

/// What an entry of a feature's list turns on.
fn turned_on_by(entry: &str) -> Turn<'_> {
    if let Some(name) = entry.strip_prefix("dep:") {
        return Turn::Dependency(name);
    }
    match entry.split_once('/') {
        Some((name, feature)) => match name.strip_suffix('?') {
            Some(name) => Turn::OnlyFeature(name, feature),
            None => Turn::WithFeature(name, feature),
        },
        None => Turn::Feature(entry),
    }
}

/// The names that features turn on by `dep:`.
fn hidden(
    alloc: Global,
    features: &IndexMap<String, Vec<String>>,
) -> Result<IndexSet<String>, AllocError> {
    let mut names = IndexSet::new(alloc);
    for entries in features.values() {
        for entry in entries.iter() {
            if let Turn::Dependency(name) = turned_on_by(entry.as_str()) {
                names.insert(String::from_str(alloc, name)?)?;
            }
        }
    }
    Ok(names)
}

/// Adds a feature for each optional dependency that no feature hides.
fn add_implicit(
    alloc: Global,
    features: &mut IndexMap<String, Vec<String>>,
    dependencies: &[ManifestDependency],
) -> Result<(), AllocError> {
    let hidden = hidden(alloc, features)?;
    for dependency in dependencies.iter() {
        let key = dependency.key.as_str();
        if dependency.is_optional && !hidden.contains(key) && !features.contains_key(key) {
            let mut entries = Vec::new(alloc);
            entries.push(format!(in alloc; "dep:{key}")?)?;
            features.insert(String::from_str(alloc, key)?, entries)?;
        }
    }
    Ok(())
}

/// The features that a manifest declares, and those that its optional dependencies are.
pub(crate) fn read_features(
    alloc: Global,
    document: &Table,
    dependencies: &[ManifestDependency],
) -> Result<IndexMap<String, Vec<String>>, AllocError> {
    let mut features = IndexMap::new(alloc);
    if let Some(table) = table_in(document, "features") {
        for (name, value) in table.iter() {
            let name = name.clone()?;
            let entries = texts(alloc, Some(value))?;
            features.insert(name, entries)?;
        }
    }
    add_implicit(alloc, &mut features, dependencies)?;
    Ok(features)
}

/// Notes what an entry of a feature that is on says of a dependency: that it is wanted, and which
/// feature of it.
fn want(
    alloc: Global,
    all: &mut IndexMap<String, WantedDependency>,
    entry: &str,
) -> Result<(), AllocError> {
    let (name, feature, is_wanted) = match turned_on_by(entry) {
        Turn::Dependency(name) => (name, None, true),
        Turn::WithFeature(name, feature) => (name, Some(feature), true),
        Turn::OnlyFeature(name, feature) => (name, Some(feature), false),
        Turn::Feature(_) => return Ok(()),
    };
    let Some(dependency) = all.get_mut(name) else {
        return Ok(());
    };
    if is_wanted {
        dependency.is_wanted = true;
    }
    if let Some(feature) = feature {
        dependency.features.push(String::from_str(alloc, feature)?)?;
    }
    Ok(())
}

impl Manifest {
    /// Adds a feature, if the manifest has it.
    fn turn_on(
        &self,
        alloc: Global,
        on: &mut IndexSet<String>,
        name: &str,
    ) -> Result<(), AllocError> {
        if self.features.contains_key(name) && !on.contains(name) {
            on.insert(String::from_str(alloc, name)?)?;
        }
        Ok(())
    }

    /// The features that are on where some are wanted: those, and what they turn on, and so on.
    /// What the manifest does not have is left out.
    pub fn features_on(
        &self,
        alloc: Global,
        wanted: &[String],
        with_default: bool,
    ) -> Result<Vec<String>, AllocError> {
        let mut on = IndexSet::new(alloc);
        if with_default {
            self.turn_on(alloc, &mut on, "default")?;
        }
        for name in wanted.iter() {
            self.turn_on(alloc, &mut on, name.as_str())?;
        }
        // What is added stands behind, and there is no more than the manifest has.
        for at in 0..self.features.len() {
            let name = on.get_index(at);
            let Some(entries) = name.and_then(|name| self.features.get(name.as_str())) else {
                break;
            };
            for entry in entries.iter() {
                match turned_on_by(entry.as_str()) {
                    Turn::Feature(name) | Turn::WithFeature(name, _) => {
                        self.turn_on(alloc, &mut on, name)?;
                    }
                    Turn::Dependency(_) | Turn::OnlyFeature(..) => {}
                }
            }
        }
        let mut names = Vec::new(alloc);
        for name in on.iter() {
            names.push(name.clone()?)?;
        }
        Ok(names)
    }

    /// What each dependency is where no feature of the package is on, and its place by its key.
    fn dependencies_alone(
        &self,
        alloc: Global,
    ) -> Result<IndexMap<String, WantedDependency>, AllocError> {
        let mut all = IndexMap::new(alloc);
        for dependency in self.dependencies.iter() {
            let mut features = Vec::new(alloc);
            for feature in dependency.features.iter() {
                features.push(feature.clone()?)?;
            }
            let key = dependency.key.clone()?;
            let is_wanted = !dependency.is_optional;
            all.insert(
                key,
                WantedDependency {
                    is_wanted,
                    features,
                },
            )?;
        }
        Ok(all)
    }

    /// For each dependency, in their order, whether it is wanted where these features are on, and
    /// which of its features are.
    pub fn dependencies_on(
        &self,
        alloc: Global,
        on: &[String],
    ) -> Result<Vec<WantedDependency>, AllocError> {
        let mut all = self.dependencies_alone(alloc)?;
        for name in on.iter() {
            if let Some(entries) = self.features.get(name.as_str()) {
                for entry in entries.iter() {
                    want(alloc, &mut all, entry.as_str())?;
                }
            }
        }
        all.into_values().collect(alloc)
    }
}
