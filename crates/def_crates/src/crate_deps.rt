//! The crates that a crate depends on.
ghost use Rattle.std.specs.Prelude.{◌≡◌, IfOk, OnOk};
ghost use Rattle.def_modules.specs.Locals.{local_view};
ghost use Rattle.def_modules.specs.Maps.{crate_state};
ghost use Rattle.def_rules.specs.Crates as crates;
ghost use Rattle.def_crates.specs.Places.{with_last, with_lasts};

use def_ids::ModuleId;
use def_map::{
    DefMapCrateData, Dependency, ExternPreludeEntry, LangCrate, LocalDefMap, SourceDatabase,
};
use item_tree::Crate;
use std::alloc::{AllocError, Global};

/// The crates that a crate depends on. A crate that is not known depends on none.
pub(crate) fn dependencies<D: SourceDatabase>(db: &D, krate: Crate) -> &[Dependency]
    ensures { result.now ≡ crates.deps_of (D.oracle db.now) krate }
{
    match db.crate_data(krate) {
        Some(known) => known.deps.as_slice(),
        None => &[],
    }
}

/// The crates that a crate depends on, by their names. Of two of one name the later stands.
pub fn deps_by_name<D: SourceDatabase>(
    alloc: Global,
    db: &D,
    krate: Crate,
) -> Result<LocalDefMap, AllocError>
    ensures { IfOk result (λ known. local_view known ≡ crates.deps_by_name (D.oracle db.now) krate) }
{
    let mut known = LocalDefMap::new(alloc);
    name_all(&mut known, dependencies(db, krate))?;
    Ok(known)
}

/// Names all of these dependencies, one after the other.
fn name_all(known: &mut LocalDefMap, deps: &[Dependency]) -> Result<(), AllocError>
    ensures { OnOk result (local_view known.new ≡ crates.with_all_deps deps.now (local_view known.old)) }
{
    'deps: for dep in deps {
        known.insert(
            dep.name,
            ExternPreludeEntry {
                root: ModuleId::crate_root(dep.krate),
                by: None,
            },
        )?;
    }
    Ok(())
}

/// Names these dependencies. Of two of one name the later stands, at the place of the first.
#[tactic(auto, using(crate::proofs::PlacesLemmas::last_decides))]
pub(crate) fn add_all<D: SourceDatabase>(
    db: &D,
    krate: &DefMapCrateData,
    local: &mut LocalDefMap,
    deps: &[Dependency],
) -> Result<(), AllocError>
    ensures { OnOk result (local_view local.new
        ≡ crates.after_deps (D.oracle db.now) (crate_state krate.now) deps.now (local_view local.old)) }
{
    let mut last = LocalDefMap::new(*local.extern_prelude.allocator());
    add_each(db, krate, &mut last, deps)?;
    place_all(local, &last, deps)
}

/// Names these dependencies, one after the other.
fn add_each<D: SourceDatabase>(
    db: &D,
    krate: &DefMapCrateData,
    local: &mut LocalDefMap,
    deps: &[Dependency],
) -> Result<(), AllocError>
    ensures { OnOk result (local_view local.new
        ≡ crates.after_deps (D.oracle db.now) (crate_state krate.now) deps.now (local_view local.old)) }
{
    'deps: for dep in deps {
        add_dependency(db, krate, local, *dep)?;
    }
    Ok(())
}

/// Names these dependencies as `last` has them. Each name stands at the place of the first.
fn place_all(
    local: &mut LocalDefMap,
    last: &LocalDefMap,
    deps: &[Dependency],
) -> Result<(), AllocError>
    ensures { OnOk result (local_view local.new
        ≡ with_lasts (local_view last.now) deps.now (local_view local.old)) }
{
    'deps: for dep in deps {
        place(local, last, *dep)?;
    }
    Ok(())
}

/// Names a dependency as `last` has its name, at the place where that stands.
fn place(local: &mut LocalDefMap, last: &LocalDefMap, dep: Dependency) -> Result<(), AllocError>
    ensures { OnOk result (local_view local.new
        ≡ with_last (local_view last.now) dep (local_view local.old)) }
{
    match last.extern_entry(dep.name) {
        Some(entry) => local.insert(dep.name, entry),
        None => {
            let _ = local.extern_prelude.shift_remove(&dep.name);
            Ok(())
        }
    }
}

/// Names a dependency, in the place of an earlier one of its name.
fn add_dependency<D: SourceDatabase>(
    db: &D,
    krate: &DefMapCrateData,
    local: &mut LocalDefMap,
    dep: Dependency,
) -> Result<(), AllocError>
    ensures { OnOk result (local_view local.new
        ≡ crates.after_dep (D.oracle db.now) (crate_state krate.now) dep (local_view local.old)) }
{
    if !is_named(db, krate, dep) {
        let _ = local.extern_prelude.swap_remove(&dep.name);
        return Ok(());
    }
    local.insert(
        dep.name,
        ExternPreludeEntry {
            root: ModuleId::crate_root(dep.krate),
            by: None,
        },
    )
}

/// Whether paths may begin with a dependency. The graph of crates has those that come with the
/// compiler in any case, so `no_core` and `no_std` leave them out here.
fn is_named<D: SourceDatabase>(db: &D, krate: &DefMapCrateData, dep: Dependency) -> bool
    ensures { result ≡ crates.is_named (D.oracle db.now) (crate_state krate.now) dep }
{
    dep.prelude && !(dep.sysroot && is_left_out(krate, lang_of(db, dep.krate)))
}

/// Which crate of the language a crate is, if it is one.
fn lang_of<D: SourceDatabase>(db: &D, krate: Crate) -> Option<LangCrate>
    ensures { result ≡ crates.lang_of (D.oracle db.now) krate }
{
    match db.crate_data(krate) {
        Some(known) => known.lang,
        None => None,
    }
}

/// Whether a crate does without a crate of the language.
fn is_left_out(krate: &DefMapCrateData, lang: Option<LangCrate>) -> bool
    ensures { result ≡ crates.is_left_out (crate_state krate.now) lang }
{
    match lang {
        Some(LangCrate::Core) => krate.no_core,
        Some(LangCrate::Std) => krate.no_core || krate.no_std,
        None => false,
    }
}

/// Whether a crate's data say that it is one of procedural macros.
pub fn is_proc_macro_crate<D: SourceDatabase>(db: &D, krate: Crate) -> bool
    ensures { result ≡ crates.is_proc_macro_crate (D.oracle db.now) krate }
{
    match db.crate_data(krate) {
        Some(known) => known.proc_macro,
        None => false,
    }
}
