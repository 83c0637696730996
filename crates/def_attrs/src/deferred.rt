//! Builtin derives that are deferred: with the fast path, one whose impls are known is not expanded. Its
//! item gives its impls once it is handled, and expands it only where an attribute replaces the item.
ghost use Rattle.std.specs.Prelude.{◌≡◌, ◌++◌, ◌∷◌, [], true, map, unwrap_or, OnOk};
ghost use Rattle.def_attrs.specs.Shown.{deferrals_of};
ghost use Rattle.def_calls.specs.Shown.{expansion_shown};
ghost use Rattle.def_modules.specs.EqualityLaws.{derived_position_eq};
ghost use Rattle.def_rules.specs.Deferred as rules;
ghost use Rattle.indexmap.specs.IndexMap.{get, insert_entry};

use def_calls::Expansion;
use def_interner::{MacroDefId, MacroDefKind};
use def_map::SourceDatabase;
use def_rules::DeferredDerive;
use indexmap::IndexMap;
use item_tree::{FileAstId, InFile, Seq};
use std::alloc::{AllocError, Global};
use std::collections::VecDeque;

/// The derives that are deferred, by the positions of their items.
pub struct DeferredDerives {
    by_item: IndexMap<InFile<FileAstId>, Seq<DeferredDerive>>,
}

impl Drop for DeferredDerives {
    fn drop(self) {
        let DeferredDerives { by_item: _ } = self;
    }
}

impl DeferredDerives {
    /// None is deferred.
    pub fn new(alloc: Global) -> DeferredDerives
        ensures { deferrals_of result ≡ [] }
    {
        DeferredDerives {
            by_item: IndexMap::new(alloc),
        }
    }

    /// Whether none is deferred.
    pub fn is_empty(&self) -> bool
        ensures none { result ≡ true → deferrals_of self.now ≡ [] }
        ensures told { deferrals_of self.now ≡ [] → result ≡ true }
    {
        self.by_item.is_empty()
    }

    /// Defers a derive of the item at a position, behind the others. On `Err` nothing but safety is
    /// promised.
    pub fn defer(
        &mut self,
        position: InFile<FileAstId>,
        derive: DeferredDerive,
    ) -> Result<(), AllocError>
        ensures { OnOk result (deferrals_of self.new ≡ rules.with_deferred (deferrals_of self.old) position derive) }
    {
        push_derive(&mut self.by_item, position, derive)?;
        Ok(())
    }

    /// Takes out the derives that are deferred for the item at a position.
    pub fn take(&mut self, position: InFile<FileAstId>) -> Option<Seq<DeferredDerive>>
        ensures taken { unwrap_or result [] ≡ rules.deferred_in (deferrals_of self.old) position }
        ensures left { deferrals_of self.new ≡ rules.without_deferred (deferrals_of self.old) position }
    {
        self.by_item.swap_remove(&position)
    }
}

/// Adds a derive behind the others of a position.
fn push_derive(
    by_item: &mut IndexMap<InFile<FileAstId>, Seq<DeferredDerive>>,
    position: InFile<FileAstId>,
    derive: DeferredDerive,
) -> Result<(), AllocError>
    ensures { OnOk result (by_item.new.entries
        ≡ insert_entry derived_position_eq by_item.old.entries position (unwrap_or (get derived_position_eq by_item.old position) [] ++ derive ∷ [])) }
{
    let alloc = *by_item.allocator();
    let none = Seq::from_vec(Vec::new(alloc));
    let derives = by_item.entry(position)?.or_insert(none);
    derives.push(derive)?;
    Ok(())
}

/// The builtin derive that a macro is, where it is to be deferred: where the fast path is on, and its
/// impls are known.
pub fn deferred_derive<D: SourceDatabase>(db: &D, found: MacroDefId) -> Option<u32>
    ensures { result ≡ rules.deferred_derive (D.oracle db.now) found }
{
    if !db.builtin_derive_fast_path() {
        return None;
    }
    match found.kind {
        MacroDefKind::BuiltInDerive(derive) => {
            if db.has_builtin_derive_impl(derive) {
                Some(derive)
            } else {
                None
            }
        }
        _ => None,
    }
}

/// Lets the expansions of the derives that are deferred for an item be walked, in place of being
/// deferred. On `Err` nothing but safety is promised.
pub fn expand_deferred(
    deferred: &mut DeferredDerives,
    expansions: &mut VecDeque<Expansion>,
    position: InFile<FileAstId>,
) -> Result<(), AllocError>
    ensures { OnOk result (
        (map expansion_shown expansions.new.items
        ≡ map expansion_shown expansions.old.items ++ map rules.deferred_expansion (rules.deferred_in (deferrals_of deferred.old) position))
        × (deferrals_of deferred.new ≡ rules.without_deferred (deferrals_of deferred.old) position)) }
{
    let Some(derives) = deferred.take(position) else {
        return Ok(());
    };
    'derives: for derive in derives.as_slice() {
        expansions.push_back(Expansion::deferred(derive))?;
    }
    Ok(())
}
