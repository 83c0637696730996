//! What is noted of items whose attributes are macros.
ghost use Rattle.std.specs.Prelude.{◌≡◌, [], None, OnOk};
ghost use Rattle.def_attrs.specs.ItemAttrs.{active_of, skipped_of};
ghost use Rattle.def_modules.specs.EqualityLaws.{derived_position_eq};
ghost use Rattle.def_modules.specs.KeyedLists.{PushesUnder};
ghost use Rattle.def_rules.specs.Attributes.{with_active, with_skipped};
ghost use Rattle.indexmap.specs.IndexMap.{get};

use indexmap::IndexMap;
use item_tree::{AttrId, FileAstId, HirFileId, InFile, ModItemId, Seq};
use std::alloc::{AllocError, Global};

/// Of each item of a file, the attribute that was passed over, with those before it; and of the item
/// at each position, the attributes that expansions are not to see.
pub struct ItemAttrs {
    skipped: IndexMap<InFile<ModItemId>, AttrId>,
    active: IndexMap<InFile<FileAstId>, Seq<AttrId>>,
}

impl Drop for ItemAttrs {
    fn drop(self) {
        let ItemAttrs {
            skipped: _,
            active: _,
        } = self;
    }
}

impl ItemAttrs {
    /// Nothing is noted.
    pub fn new(alloc: Global) -> ItemAttrs
        ensures skipped { skipped_of result ≡ (λ file id. None) }
        ensures active { active_of result ≡ (λ position. []) }
    {
        ItemAttrs {
            skipped: IndexMap::new(alloc),
            active: IndexMap::new(alloc),
        }
    }

    /// The attribute of an item that was passed over, with those before it.
    pub fn skipped(&self, file: HirFileId, item: ModItemId) -> Option<AttrId>
        ensures { result ≡ skipped_of self.now file item }
    {
        self.skipped.get(&InFile { file, value: item }).copied()
    }

    /// The attributes that expansions of the item at a position are not to see.
    pub fn active(&self, position: InFile<FileAstId>) -> &[AttrId]
        ensures { result.now ≡ active_of self.now position }
    {
        match self.active.get(&position) {
            Some(ids) => ids.as_slice(),
            None => &[],
        }
    }

    /// Passes over an attribute of an item, and over those before it. On `Err` nothing but safety is
    /// promised.
    pub fn pass_over(
        &mut self,
        file: HirFileId,
        item: ModItemId,
        id: AttrId,
    ) -> Result<(), AllocError>
        ensures skipped { OnOk result (skipped_of self.new ≡ with_skipped (skipped_of self.old) file item id) }
        ensures active { active_of self.new ≡ active_of self.old }
    {
        self.skipped.insert(InFile { file, value: item }, id)?;
        Ok(())
    }

    /// Adds an attribute to those that expansions of the item at a position are not to see. On `Err`
    /// nothing but safety is promised.
    pub fn activate(&mut self, position: InFile<FileAstId>, id: AttrId) -> Result<(), AllocError>
        ensures active { OnOk result (active_of self.new ≡ with_active (active_of self.old) position id) }
        ensures skipped { skipped_of self.new ≡ skipped_of self.old }
    {
        push_active(&mut self.active, position, id)?;
        Ok(())
    }
}

/// Adds an attribute behind the others of a position.
fn push_active(
    active: &mut IndexMap<InFile<FileAstId>, Seq<AttrId>>,
    position: InFile<FileAstId>,
    id: AttrId,
) -> Result<(), AllocError>
    ensures { OnOk result (PushesUnder derived_position_eq (get derived_position_eq active.old) (get derived_position_eq active.new) position id) }
{
    let alloc = *active.allocator();
    let none = Seq::from_vec(Vec::new(alloc));
    let ids = active.entry(position)?.or_insert(none);
    ids.push(id)?;
    Ok(())
}
