//! The dependencies that a manifest names.

use crate::manifest::ManifestDependency;
use crate::read::{owned, table_in, text_in, texts, truth_in};
use indexmap::IndexMap;
use rust_cfg::{CfgOptions, holds};
use rust_items::Span;
use rust_lexer::{Sources, tokenize};
use rust_trees::Trees;
use std::alloc::{AllocError, Global};
use toml::{Table, Value};

/// A package's name as code has it.
fn name_in_code(alloc: Global, name: &str) -> Result<String, AllocError> {
    let mut text = String::new(alloc);
    for ch in name.chars() {
        text.push(if ch == '-' { '_' } else { ch })?;
    }
    Ok(text)
}

/// A dependency, by its name and what the manifest says of it: its version, or a table.
fn read_dependency(
    alloc: Global,
    name: &str,
    value: &Value,
) -> Result<ManifestDependency, AllocError> {
    let empty = Table::new(alloc);
    let table = match value {
        Value::Table(table) => table,
        _ => &empty,
    };
    let dashed = truth_in(table, "default-features");
    let default_features = dashed.or(truth_in(table, "default_features"));
    Ok(ManifestDependency {
        name: name_in_code(alloc, name)?,
        key: String::from_str(alloc, name)?,
        package: String::from_str(alloc, text_in(table, "package").unwrap_or(name))?,
        is_optional: truth_in(table, "optional").unwrap_or(false),
        has_default_features: default_features.unwrap_or(true),
        features: texts(alloc, table.get("features"))?,
        path: owned(alloc, text_in(table, "path"))?,
    })
}

/// Adds the dependencies of a table that has them, those left out that are known by name.
fn add_dependencies(
    alloc: Global,
    dependencies: &mut IndexMap<String, ManifestDependency>,
    table: &Table,
) -> Result<(), AllocError> {
    let Some(named) = table_in(table, "dependencies") else {
        return Ok(());
    };
    for (key, value) in named.iter() {
        let name = name_in_code(alloc, key.as_str())?;
        if !dependencies.contains_key(name.as_str()) {
            let dependency = read_dependency(alloc, key.as_str(), value)?;
            dependencies.insert(name, dependency)?;
        }
    }
    Ok(())
}

/// Whether the platform of `[target.PLATFORM]` is Linux on x86-64: a name of it, or `cfg(..)` that
/// holds there. What is no predicate is taken for one that holds.
fn is_meant(alloc: Global, platform: &str, options: &CfgOptions) -> Result<bool, AllocError> {
    if !platform.trim_start().starts_with("cfg") {
        return Ok(platform == "x86_64-unknown-linux-gnu");
    }
    let mut sources = Sources::new(alloc);
    let Some(id) = sources.add(String::from_str(alloc, platform)?)? else {
        return Ok(true);
    };
    let Ok(tokens) = tokenize(alloc, id, sources.text(id))? else {
        return Ok(true);
    };
    let Ok(trees) = Trees::new(alloc, &sources, tokens)? else {
        return Ok(true);
    };
    let predicate = Span {
        from: 2,
        to: u32::try_from(trees.partner(1)).unwrap_or(0),
    };
    let answer = holds(alloc, &sources, &trees, predicate, options)?;
    Ok(answer.unwrap_or(true))
}

/// The dependencies that a document names for all platforms, and for Linux on x86-64.
pub(crate) fn read_dependencies(
    alloc: Global,
    document: &Table,
) -> Result<Vec<ManifestDependency>, AllocError> {
    let mut dependencies = IndexMap::new(alloc);
    add_dependencies(alloc, &mut dependencies, document)?;
    if let Some(platforms) = table_in(document, "target") {
        let options = CfgOptions::linux(alloc)?;
        for (platform, value) in platforms.iter() {
            if let Value::Table(table) = value {
                if is_meant(alloc, platform.as_str(), &options)? {
                    add_dependencies(alloc, &mut dependencies, table)?;
                }
            }
        }
    }
    dependencies.into_values().collect(alloc)
}
