//! The path of the prelude.
ghost use Rattle.std.specs.Prelude.{◌≡◌, ℕ, IfOk};
ghost use Rattle.def_modules.specs.Locals.{local_view};
ghost use Rattle.def_rules.specs.Crates as crates;

use def_ids::Edition;
use def_map::LocalDefMap;
use item_tree::{ModPath, Name, PathKind, Seq, sym};
use std::alloc::{AllocError, Global};

/// The path of a crate's prelude, by its edition, whether it does without `std`, and the names that
/// its paths may begin with.
pub fn prelude_path(
    alloc: Global,
    edition: Edition,
    no_std: bool,
    local: &LocalDefMap,
) -> Result<ModPath, AllocError>
    ensures { IfOk result (λ path. path ≡ crates.prelude_path edition no_std (local_view local.now)) }
{
    let mut segments = Seq::from_vec(Vec::new(alloc));
    segments.push(prelude_crate(no_std, local))?;
    segments.push(sym::PRELUDE)?;
    segments.push(edition_name(edition))?;
    Ok(ModPath {
        kind: prelude_kind(edition),
        segments,
    })
}

/// The crate of the prelude. Where paths may not begin with `std`, it is `core`.
fn prelude_crate(no_std: bool, local: &LocalDefMap) -> Name
    ensures { result ≡ crates.prelude_crate no_std (local_view local.now) }
{
    if no_std {
        return sym::CORE;
    }
    match local.extern_entry(sym::STD) {
        Some(_) => sym::STD,
        None => sym::CORE,
    }
}

/// The module of an edition in the prelude's crate.
fn edition_name(edition: Edition) -> Name
    ensures { result ≡ crates.edition_name edition }
{
    match edition {
        Edition::Edition2015 => sym::RUST_2015,
        Edition::Edition2018 => sym::RUST_2018,
        Edition::Edition2021 => sym::RUST_2021,
        Edition::Edition2024 => sym::RUST_2024,
    }
}

/// How the prelude's path begins.
fn prelude_kind(edition: Edition) -> PathKind
    ensures { result ≡ crates.prelude_kind edition }
{
    match edition {
        Edition::Edition2015 => PathKind::Plain,
        Edition::Edition2018 | Edition::Edition2021 | Edition::Edition2024 => PathKind::Abs,
    }
}
