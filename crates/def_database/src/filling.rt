//! Writing answers down. Each call answers anew what it is given, in the place of an earlier answer.
ghost use Rattle.std.specs.Prelude.{◌≡◌, Some, bytes_eq, OnOk, OnErr};
ghost use Rattle.indexmap.specs.IndexMap.{get_by_text};
ghost use Rattle.def_modules.specs.Updates.{set_where};
ghost use Rattle.def_database.specs.Calls.{with_attr_call, with_attr_call_at, with_call, with_call_at, with_derive_call, with_derive_call_at, with_include, with_styles};
ghost use Rattle.def_database.specs.Database.{answers_of, leads};
ghost use Rattle.def_database.specs.Filling.{with_tree, with_path, with_crate, with_maps, with_outer_map, with_variants, with_assoc_items, with_builtin, with_builtin_attr, with_builtin_derive, with_builtin_macro, with_depth, with_derive_fast_path, with_derive_traits, with_expand_proc_attr_macros, with_flag, with_inert_attr, with_lead, with_proc_macros};

use crate::by_macro::{write_for, write_for_any};
use crate::database::{CfgFlag, Database, DeriveCallKey, DerivePlace, assoc_key};
use def_ids::{BuiltinAttr, MacroId};
use def_map::{
    AssocItemsOwner, AssocList, CallAnswer, CrateData, DefMap, EnumVariant, LocalDefMap,
};
use either::Either;
use indexmap::IndexMap;
use item_tree::{
    BlockId, Crate, FileAstId, FileId, HirFileId, InFile, ItemTree, MacroCallId, MacroCallStyles,
    Name, TreeId,
};
use std::alloc::AllocError;

impl Database {
    /// Gives a file or a block its items.
    pub fn add_tree(&mut self, id: TreeId, tree: ItemTree) -> Result<(), AllocError>
        ensures ok { OnOk result (answers_of self.new ≡ with_tree (answers_of self.old) id tree) }
        ensures err { OnErr result (answers_of self.new ≡ answers_of self.old) }
    {
        self.files.trees.insert(id, tree)?;
        Ok(())
    }

    /// Leads a path, seen from a file, to a file.
    pub fn add_path(&mut self, from: FileId, path: &str, to: FileId) -> Result<(), AllocError>
        ensures ok { OnOk result (answers_of self.new ≡ with_path (answers_of self.old) from path.now to) }
        ensures err { OnErr result (answers_of self.new ≡ answers_of self.old) }
    {
        lead_from(&mut self.files.paths, from, path, to)?;
        Ok(())
    }

    /// Says how deep in expansions of macros a file lies.
    pub fn add_depth(&mut self, file: HirFileId, depth: u32) -> Result<(), AllocError>
        ensures ok { OnOk result (answers_of self.new ≡ with_depth (answers_of self.old) file depth) }
        ensures err { OnErr result (answers_of self.new ≡ answers_of self.old) }
    {
        self.files.depths.insert(file, depth)?;
        Ok(())
    }

    /// Says what is known of a crate.
    pub fn add_crate(&mut self, krate: Crate, data: CrateData) -> Result<(), AllocError>
        ensures ok { OnOk result (answers_of self.new ≡ with_crate (answers_of self.old) krate «data») }
        ensures err { OnErr result (answers_of self.new ≡ answers_of self.old) }
    {
        self.crates.known.insert(krate, data)?;
        Ok(())
    }

    /// Says which procedural macros were built for a crate: the name and the number of each, and
    /// whether it is switched off.
    pub fn add_proc_macros(
        &mut self,
        krate: Crate,
        macros: Vec<(Name, u32, bool)>,
    ) -> Result<(), AllocError>
        ensures ok { OnOk result (answers_of self.new ≡ with_proc_macros (answers_of self.old) krate macros.items) }
        ensures err { OnErr result (answers_of self.new ≡ answers_of self.old) }
    {
        self.crates.proc_macros.insert(krate, macros)?;
        Ok(())
    }

    /// Says whether attribute macros are expanded.
    pub fn set_expand_proc_attr_macros(&mut self, on: bool)
        ensures { answers_of self.new ≡ with_expand_proc_attr_macros (answers_of self.old) on }
    {
        self.calls.expand_proc_attr_macros = on;
    }

    /// Hands a crate's finished maps to the crates that depend on it: both, or on `Err` neither.
    pub fn add_map(
        &mut self,
        krate: Crate,
        def_map: DefMap,
        local_def_map: LocalDefMap,
    ) -> Result<(), AllocError>
        ensures ok { OnOk result (answers_of self.new ≡ with_maps (answers_of self.old) krate def_map local_def_map) }
        ensures err { OnErr result (answers_of self.new ≡ answers_of self.old) }
    {
        self.crates.local_maps.reserve(1)?;
        self.crates.maps.insert(krate, def_map)?;
        self.crates.local_maps.insert(krate, local_def_map)?;
        Ok(())
    }

    /// Hands a block's finished map to the blocks within it.
    pub fn add_outer_map(&mut self, block: BlockId, def_map: DefMap) -> Result<(), AllocError>
        ensures ok { OnOk result (answers_of self.new ≡ with_outer_map (answers_of self.old) block def_map) }
        ensures err { OnErr result (answers_of self.new ≡ answers_of self.old) }
    {
        self.crates.outer_maps.insert(block, def_map)?;
        Ok(())
    }

    /// Gives the enum at a position its variants.
    pub fn add_variants(
        &mut self,
        position: InFile<FileAstId>,
        variants: Vec<EnumVariant>,
    ) -> Result<(), AllocError>
        ensures ok { OnOk result (answers_of self.new ≡ with_variants (answers_of self.old) position variants.items) }
        ensures err { OnErr result (answers_of self.new ≡ answers_of self.old) }
    {
        self.types.variants.insert(position, variants)?;
        Ok(())
    }

    /// Gives a trait, an impl or the expansion of a call among associated items its items.
    pub fn add_assoc_items(
        &mut self,
        owner: AssocItemsOwner,
        items: AssocList,
    ) -> Result<(), AllocError>
        ensures ok { OnOk result (answers_of self.new ≡ with_assoc_items (answers_of self.old) owner items) }
        ensures err { OnErr result (answers_of self.new ≡ answers_of self.old) }
    {
        self.types.assoc_items.insert(assoc_key(owner), items)?;
        Ok(())
    }

    /// Makes a name that of a builtin type, by its number.
    pub fn add_builtin(&mut self, name: Name, number: u32) -> Result<(), AllocError>
        ensures ok { OnOk result (answers_of self.new ≡ with_builtin (answers_of self.old) name number) }
        ensures err { OnErr result (answers_of self.new ≡ answers_of self.old) }
    {
        self.types.builtin.insert(name, number)?;
        Ok(())
    }

    /// Makes a name that of a builtin macro, by its number: on the left one that is expanded as it
    /// stands, on the right an eager one.
    pub fn add_builtin_macro(
        &mut self,
        name: Name,
        number: Either<u32, u32>,
    ) -> Result<(), AllocError>
        ensures ok { OnOk result (answers_of self.new ≡ with_builtin_macro (answers_of self.old) name number) }
        ensures err { OnErr result (answers_of self.new ≡ answers_of self.old) }
    {
        self.builtins.macros.insert(name, number)?;
        Ok(())
    }

    /// Makes a name that of a builtin derive, by its number.
    pub fn add_builtin_derive(&mut self, name: Name, number: u32) -> Result<(), AllocError>
        ensures ok { OnOk result (answers_of self.new ≡ with_builtin_derive (answers_of self.old) name number) }
        ensures err { OnErr result (answers_of self.new ≡ answers_of self.old) }
    {
        self.builtins.derives.insert(name, number)?;
        Ok(())
    }

    /// Lets a builtin derive, by its number, give impls of these traits with no expansion.
    pub fn add_derive_traits(&mut self, number: u32, traits: Vec<u32>) -> Result<(), AllocError>
        ensures ok { OnOk result (answers_of self.new ≡ with_derive_traits (answers_of self.old) number traits.items) }
        ensures err { OnErr result (answers_of self.new ≡ answers_of self.old) }
    {
        self.builtins.derive_traits.insert(number, traits)?;
        Ok(())
    }

    /// Says whether builtin derives give impls with no expansion where they can.
    pub fn set_derive_fast_path(&mut self, on: bool)
        ensures { answers_of self.new ≡ with_derive_fast_path (answers_of self.old) on }
    {
        self.builtins.derive_fast_path = on;
    }

    /// Makes a name that of a builtin attribute.
    pub fn add_builtin_attr(&mut self, name: Name, attr: BuiltinAttr) -> Result<(), AllocError>
        ensures ok { OnOk result (answers_of self.new ≡ with_builtin_attr (answers_of self.old) name attr) }
        ensures err { OnErr result (answers_of self.new ≡ answers_of self.old) }
    {
        self.builtins.attrs.insert(name, attr)?;
        Ok(())
    }

    /// Gives the call at a position its answer, for where this macro is found for its path.
    pub fn add_call(
        &mut self,
        position: InFile<FileAstId>,
        macro_id: MacroId,
        answer: CallAnswer,
    ) -> Result<(), AllocError>
        ensures ok { OnOk result (answers_of self.new ≡ with_call (answers_of self.old) position macro_id answer) }
        ensures err { OnErr result (answers_of self.new ≡ answers_of self.old) }
    {
        write_for(&mut self.calls.answers, position, macro_id, answer)?;
        Ok(())
    }

    /// Gives the call at a position its answer, for whichever macro is found for its path.
    pub fn add_call_at(
        &mut self,
        position: InFile<FileAstId>,
        answer: CallAnswer,
    ) -> Result<(), AllocError>
        ensures ok { OnOk result (answers_of self.new ≡ with_call_at (answers_of self.old) position answer) }
        ensures err { OnErr result (answers_of self.new ≡ answers_of self.old) }
    {
        write_for_any(&mut self.calls.answers, position, answer)?;
        Ok(())
    }

    /// Gives an attribute macro its call on the item at a position.
    pub fn add_attr_call(
        &mut self,
        position: InFile<FileAstId>,
        macro_id: MacroId,
        call: MacroCallId,
    ) -> Result<(), AllocError>
        ensures ok { OnOk result (answers_of self.new ≡ with_attr_call (answers_of self.old) position macro_id call) }
        ensures err { OnErr result (answers_of self.new ≡ answers_of self.old) }
    {
        write_for(&mut self.calls.attrs, position, macro_id, call)?;
        Ok(())
    }

    /// Gives the attribute macros on the item at a position their call, whichever they are.
    pub fn add_attr_call_at(
        &mut self,
        position: InFile<FileAstId>,
        call: MacroCallId,
    ) -> Result<(), AllocError>
        ensures ok { OnOk result (answers_of self.new ≡ with_attr_call_at (answers_of self.old) position call) }
        ensures err { OnErr result (answers_of self.new ≡ answers_of self.old) }
    {
        write_for_any(&mut self.calls.attrs, position, call)?;
        Ok(())
    }

    /// Gives a derive its call, at a place of an attribute's list.
    pub fn add_derive_call(
        &mut self,
        key: DeriveCallKey,
        call: MacroCallId,
    ) -> Result<(), AllocError>
        ensures ok { OnOk result (answers_of self.new ≡ with_derive_call (answers_of self.old) key call) }
        ensures err { OnErr result (answers_of self.new ≡ answers_of self.old) }
    {
        let place = DerivePlace {
            position: key.position,
            attr_id: key.attr_id,
            pos: key.pos,
        };
        write_for(&mut self.calls.derives, place, key.macro_id, call)?;
        Ok(())
    }

    /// Gives the derive at a place of an attribute's list its call, whichever macro is found for its
    /// path.
    pub fn add_derive_call_at(
        &mut self,
        place: DerivePlace,
        call: MacroCallId,
    ) -> Result<(), AllocError>
        ensures ok { OnOk result (answers_of self.new ≡ with_derive_call_at (answers_of self.old) place call) }
        ensures err { OnErr result (answers_of self.new ≡ answers_of self.old) }
    {
        write_for_any(&mut self.calls.derives, place, call)?;
        Ok(())
    }

    /// Says in which ways the macro at a position may be called.
    pub fn add_styles(
        &mut self,
        position: InFile<FileAstId>,
        styles: MacroCallStyles,
    ) -> Result<(), AllocError>
        ensures ok { OnOk result (answers_of self.new ≡ with_styles (answers_of self.old) position styles) }
        ensures err { OnErr result (answers_of self.new ≡ answers_of self.old) }
    {
        self.calls.styles.insert(position, styles)?;
        Ok(())
    }

    /// Makes attributes of a name no macros.
    pub fn add_inert_attr(&mut self, name: Name) -> Result<(), AllocError>
        ensures ok { OnOk result (answers_of self.new ≡ with_inert_attr (answers_of self.old) name) }
        ensures err { OnErr result (answers_of self.new ≡ answers_of self.old) }
    {
        self.builtins.inert.insert(name)?;
        Ok(())
    }

    /// Compiles a crate with a condition of one word.
    pub fn add_flag(&mut self, krate: Crate, name: Name) -> Result<(), AllocError>
        ensures ok { OnOk result (answers_of self.new ≡ with_flag (answers_of self.old) krate name) }
        ensures err { OnErr result (answers_of self.new ≡ answers_of self.old) }
    {
        self.crates.flags.insert(CfgFlag { krate, name })?;
        Ok(())
    }

    /// Makes a call one of `include!`.
    pub fn add_include(&mut self, call: MacroCallId) -> Result<(), AllocError>
        ensures ok { OnOk result (answers_of self.new ≡ with_include (answers_of self.old) call) }
        ensures err { OnErr result (answers_of self.new ≡ answers_of self.old) }
    {
        self.calls.includes.insert(call)?;
        Ok(())
    }
}

/// Leads a path to a file.
fn lead(paths: &mut IndexMap<String, FileId>, path: &str, to: FileId) -> Result<(), AllocError>
    ensures ok { OnOk result (get_by_text paths.new ≡ set_where (bytes_eq path.now) (Some to) (get_by_text paths.old)) }
    ensures err { OnErr result (get_by_text paths.new ≡ get_by_text paths.old) }
{
    let alloc = *paths.allocator();
    let path = String::from_str(alloc, path)?;
    paths.insert(path, to)?;
    Ok(())
}

/// Leads a path, seen from a file, to a file.
fn lead_from(
    paths: &mut IndexMap<FileId, IndexMap<String, FileId>>,
    from: FileId,
    path: &str,
    to: FileId,
) -> Result<(), AllocError>
    ensures ok { OnOk result (leads paths.new ≡ with_lead (leads paths.old) from path.now to) }
    ensures err { OnErr result (leads paths.new ≡ leads paths.old) }
{
    let alloc = *paths.allocator();
    let of_file = paths.entry(from)?.or_insert(IndexMap::new(alloc));
    lead(of_file, path, to)?;
    Ok(())
}
