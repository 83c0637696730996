//! What is written to what names stand for, by whatever names are found by.
ghost use Rattle.std.specs.Prelude.{◌≡◌, ◌++◌, ◌∷◌, ◌||◌, [], cond, Some, None, is_none, is_some, false, IfOk, OnOk, OnErr};
ghost use Rattle.std.specs.List.{zip};
ghost use Rattle.def_tables.specs.IndexedVec.{get};
ghost use Rattle.def_bindings.specs.Content.{listed_as, without_name};
ghost use Rattle.def_bindings.specs.Puts.{if_vacant};
ghost use Rattle.def_tables.specs.BoundName.{meaning_of, stands_for, with_namespace, written_in};
ghost use Rattle.def_tables.specs.Lists.{AreDistinct, lists_of};

use crate::bound_name::BoundName;
use crate::indexed_vec::IndexedVec;
use crate::kept::Kept;
use crate::lists::Lists;
use def_bindings::{Binding, Namespace};
use def_ids::{MapId, ModuleId};
use std::alloc::{AllocError, Global};
use std::hash::Hash;
use tree_ids::Name;

/// Where a binding is put: at a name of a module, where nothing is bound, or over what is.
#[derive(Clone, Copy)]
pub struct Put {
    pub at: ModuleId,
    pub name: Name,
    pub ns: Namespace,
    pub over: bool,
}

/// Binds a name beside its other bindings, and answers whether it did. A refused call changes nothing.
#[inline(never)]
fn put_beside<V: Copy, K: Kept<V>>(
    alloc: Global,
    map: MapId,
    bound: &mut BoundName<V, K>,
    put: Put,
    binding: &Binding<V>,
) -> Result<bool, AllocError>
    ensures wrote { IfOk result (λ wrote. wrote ≡ (put.over || is_none (stands_for K.meaning map bound.old put.ns))) }
    ensures done { IfOk result (λ wrote. stands_for K.meaning map bound.new
        ≡ written_in (stands_for K.meaning map bound.old) put.ns (if_vacant wrote binding.now)) }
    ensures refused { OnErr result (bound.new ≡ bound.old) }
{
    if !put.over && bound.is_bound_in(put.ns) {
        return Ok(false);
    }
    bound.set(alloc, map, put.ns, binding)?;
    Ok(true)
}

/// A name without bindings goes last among those of its module, and is given with the one that is put.
#[inline(always)]
fn begin<V: Copy, K: Kept<V>>(
    alloc: Global,
    map: MapId,
    names: &mut Lists<Name>,
    put: Put,
    binding: &Binding<V>,
) -> Result<BoundName<V, K>, AllocError>
    ensures begun { IfOk result (λ name. stands_for K.meaning map name ≡ with_namespace (λ n. None) put.ns (Some binding.now)) }
    ensures names { OnOk result (lists_of names.new
        ≡ listed_as (lists_of names.old) put.at (lists_of names.old put.at ++ put.name ∷ [])) }
    ensures refused { OnErr result (lists_of names.new ≡ lists_of names.old) }
{
    let begun = BoundName::of(alloc, map, put.ns, binding)?;
    names.push(put.at, put.name)?;
    Ok(begun)
}

/// Puts a binding at a key, and a name without bindings last among those of its module. Answers whether
/// it did. A refused call changes nothing.
#[inline(always)]
pub fn put_at<P: Copy + Eq + Hash, V: Copy, K: Kept<V>>(
    alloc: Global,
    map: MapId,
    bound: &mut IndexedVec<P, BoundName<V, K>>,
    names: &mut Lists<Name>,
    key: P,
    put: Put,
    binding: &Binding<V>,
) -> Result<bool, AllocError>
    ensures wrote { IfOk result (λ wrote. wrote ≡ (put.over || is_none (meaning_of K.meaning map (get P.eq (zip bound.old.keys.keys bound.old.values.items) key) put.ns))) }
    ensures done { IfOk result (λ wrote. meaning_of K.meaning map (get P.eq (zip bound.new.keys.keys bound.new.values.items) key)
        ≡ written_in (meaning_of K.meaning map (get P.eq (zip bound.old.keys.keys bound.old.values.items) key)) put.ns (if_vacant wrote binding.now)) }
    ensures names { OnOk result (lists_of names.new
        ≡ cond (is_some (get P.eq (zip bound.old.keys.keys bound.old.values.items) key)) (lists_of names.old)
        (listed_as (lists_of names.old) put.at (lists_of names.old put.at ++ put.name ∷ []))) }
    ensures refused { OnErr result ((meaning_of K.meaning map (get P.eq (zip bound.new.keys.keys bound.new.values.items) key) ≡ meaning_of K.meaning map (get P.eq (zip bound.old.keys.keys bound.old.values.items) key))
        × (lists_of names.new ≡ lists_of names.old)) }
    ensures others { (q : P) → P.eq key q ≡ false → get P.eq (zip bound.new.keys.keys bound.new.values.items) q ≡ get P.eq (zip bound.old.keys.keys bound.old.values.items) q }
{
    // With room for the value, nothing fails behind it.
    bound.values.reserve(1)?;
    let (number, is_new) = bound.keys.insert_full(key)?;
    if !is_new {
        return put_beside(alloc, map, &mut bound.values[number], put, binding);
    }
    match begin(alloc, map, names, put, binding) {
        Ok(begun) => {
            bound.values.push_reserved(begun);
            Ok(true)
        }
        Err(error) => {
            let _ = bound.keys.pop();
            Err(error)
        }
    }
}

/// Takes a binding out, and answers whether its name has another.
fn take_out<P: Copy + Eq + Hash, V: Copy, K: Kept<V>>(
    map: MapId,
    bound: &mut IndexedVec<P, BoundName<V, K>>,
    key: P,
    ns: Namespace,
) -> bool
    ensures left { meaning_of K.meaning map (get P.eq (zip bound.new.keys.keys bound.new.values.items) key)
        ≡ with_namespace (meaning_of K.meaning map (get P.eq (zip bound.old.keys.keys bound.old.values.items) key)) ns None }
    ensures stays { result ≡ is_some (get P.eq (zip bound.new.keys.keys bound.new.values.items) key) }
    ensures others { (q : P) → P.eq key q ≡ false → get P.eq (zip bound.new.keys.keys bound.new.values.items) q ≡ get P.eq (zip bound.old.keys.keys bound.old.values.items) q }
{
    let _ = bound.keys.len();
    let Some(number) = bound.keys.get_index_of(&key) else {
        return false;
    };
    if bound.values[number].take(map, ns) {
        return true;
    }
    let _ = bound.keys.swap_remove_index(number);
    let _ = bound.values.swap_remove(number);
    false
}

/// Takes the binding at a key out, and with the last one its name out of those of its module.
pub fn remove_at<P: Copy + Eq + Hash, V: Copy, K: Kept<V>>(
    map: MapId,
    bound: &mut IndexedVec<P, BoundName<V, K>>,
    names: &mut Lists<Name>,
    key: P,
    module: ModuleId,
    name: Name,
    ns: Namespace,
)
    requires { AreDistinct (lists_of names.old «module») }
    ensures left { meaning_of K.meaning map (get P.eq (zip bound.new.keys.keys bound.new.values.items) key)
        ≡ with_namespace (meaning_of K.meaning map (get P.eq (zip bound.old.keys.keys bound.old.values.items) key)) ns None }
    ensures names { lists_of names.new ≡ cond (is_some (get P.eq (zip bound.new.keys.keys bound.new.values.items) key)) (lists_of names.old)
        (listed_as (lists_of names.old) «module» (without_name (lists_of names.old «module») name)) }
    ensures others { (q : P) → P.eq key q ≡ false → get P.eq (zip bound.new.keys.keys bound.new.values.items) q ≡ get P.eq (zip bound.old.keys.keys bound.old.values.items) q }
{
    if !take_out(map, bound, key, ns) {
        names.remove(module, name);
    }
}
