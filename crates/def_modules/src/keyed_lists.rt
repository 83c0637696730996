//! Lists under keys.
ghost use Rattle.std.specs.Prelude.{◌≡◌, [], OnOk};
ghost use Rattle.indexmap.specs.IndexMap.{get};
ghost use Rattle.def_modules.specs.KeyedLists.{PushesUnder};

use indexmap::IndexMap;
use std::alloc::{AllocError, Global};
use std::hash::Hash;
use tree_ids::Seq;

/// The list without elements.
pub(crate) fn no_items<T>(alloc: Global) -> Seq<T>
    ensures { result ≡ [] }
{
    Seq::from_vec(Vec::new(alloc))
}

/// Adds an item behind the others of a key.
pub(crate) fn push_under<K: Copy + Eq + Hash, V: Drop>(
    lists: &mut IndexMap<K, Seq<V>>,
    key: K,
    item: V,
) -> Result<(), AllocError>
    ensures { OnOk result (PushesUnder K.eq (get K.eq lists.old) (get K.eq lists.new) key item) }
{
    let alloc = *lists.allocator();
    let list = lists.entry(key)?.or_insert(no_items(alloc));
    list.push(item)?;
    Ok(())
}
