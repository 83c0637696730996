//! A module of a map, and what its scope holds beside its bindings.
ghost use Rattle.std.specs.Prelude.{◌≡◌, [], OnOk, IfOk};
ghost use Rattle.indexmap.specs.IndexMap.{get};
ghost use Rattle.def_modules.specs.ScopeMaps.{PushesRecord, derive_state, textual_of, with_call};

use crate::keyed_lists::{no_items, push_under};
use def_bindings::Visibility;
use def_ids::{BuiltinDeriveImplId, ConstId, Def, ExternBlockId, ExternCrateId, ImplId, MacroId};
use either::Either;
use indexmap::map::Entry;
use indexmap::{IndexMap, IndexSet};
use std::alloc::{AllocError, Global};
use std::hash::Hash;
use std::rc::Rc;
use tree_ids::{AttrId, FileAstId, FileId, InFile, MacroCallId, Name, Seq, TreeId};

/// An item's place in its file.
pub type Position = InFile<FileAstId>;

/// A call that a derive gave, or the impl of a builtin derive.
pub type DeriveCall = Either<MacroCallId, BuiltinDeriveImplId>;

/// What made a module. The tree is that of its declaration.
#[derive(Clone, Copy, PartialEq, Eq, Debug)]
pub enum ModuleOrigin {
    /// The root of a crate's map.
    CrateRoot,
    /// The root of a block's map.
    Block,
    /// A module with its items in braces.
    Inline {
        definition: FileAstId,
        tree: TreeId,
    },
    /// A module in a file of its own; `is_mod_rs` for a `mod.rs`.
    File {
        declaration: FileAstId,
        tree: TreeId,
        file: FileId,
        is_mod_rs: bool,
    },
}

/// A derive attribute: its item, and its place among the item's attributes.
#[derive(Clone, Copy, PartialEq, Eq, Hash)]
pub struct DeriveKey {
    pub position: Position,
    pub attr: AttrId,
}

/// The call of a derive attribute, and what each path of its list gave, if anything yet.
#[derive(Drop)]
pub struct DeriveMacroInvocation {
    pub call: MacroCallId,
    pub calls: Vec<Option<DeriveCall>>,
}

/// The records of a derive attribute, in order. It has one, unless two calls were answered by one
/// expansion, in which it stands.
#[derive(Drop)]
pub struct DeriveRecords {
    pub first: DeriveMacroInvocation,
    pub later: Seq<DeriveMacroInvocation>,
}

/// A macro call, and the item that it stands at.
#[derive(Clone, Copy, PartialEq, Eq, Hash)]
pub struct Invocation {
    pub position: Position,
    pub call: MacroCallId,
}

/// The parts of a scope that few modules have. Lists are in the order of recording.
pub struct RareParts {
    pub extern_crates: Seq<ExternCrateId>,
    pub extern_blocks: Seq<ExternBlockId>,
    pub unnamed_consts: Seq<ConstId>,
    pub builtin_derive_impls: Seq<BuiltinDeriveImplId>,
    pub derives: IndexMap<DeriveKey, DeriveRecords>,
    pub invocations: IndexSet<Invocation>,
    /// The names that an import left over would have bound.
    pub failed: IndexSet<Name>,
}

impl Drop for RareParts {
    fn drop(self) {
        let RareParts {
            extern_crates: _,
            extern_blocks: _,
            unnamed_consts: _,
            builtin_derive_impls: _,
            derives: _,
            invocations: _,
            failed: _,
        } = self;
    }
}

/// What a module's scope holds beside its bindings. Lists are in the order of recording.
pub struct ScopeData {
    pub declarations: Seq<Def>,
    /// The textual macros of each name; the last one shadows the others. Modules share those of the
    /// module around them until one defines its own.
    pub legacy_macros: Rc<IndexMap<Name, Seq<MacroId>>>,
    /// Each impl, and whether it is one of a trait.
    pub impls: Seq<(ImplId, bool)>,
    /// Made when the first of its parts is recorded.
    pub rare: Option<Box<RareParts>>,
}

impl Drop for ScopeData {
    fn drop(self) {
        let ScopeData {
            declarations: _,
            legacy_macros: _,
            impls: _,
            rare: _,
        } = self;
    }
}

/// A module of a map. Its parent stands in the map's tree alone.
pub struct ModuleData {
    /// None for a root.
    pub name: Option<Name>,
    pub origin: ModuleOrigin,
    pub visibility: Visibility,
    /// The indices of its child modules.
    pub children: IndexMap<Name, usize>,
    pub scope: ScopeData,
    /// How many items it has, for whose declarations the first one makes room.
    items: usize,
}

impl Drop for ModuleData {
    fn drop(self) {
        let ModuleData {
            name: _,
            origin: _,
            visibility: _,
            children: _,
            scope: _,
            items: _,
        } = self;
    }
}

impl DeriveMacroInvocation {
    /// Records the call of one path, if there is such a path.
    fn set_call(&mut self, pos: usize, call: DeriveCall)
        ensures { derive_state self.new ≡ with_call pos call (derive_state self.old) }
    {
        if let Some(place) = self.calls.get_mut(pos) {
            *place = Some(call);
        }
    }
}

/// Adds a record of a derive attribute, behind the others.
fn push_record<K: Copy + Eq + Hash>(
    derives: &mut IndexMap<K, DeriveRecords>,
    key: K,
    derive: DeriveMacroInvocation,
) -> Result<(), AllocError>
    ensures { OnOk result (PushesRecord K.eq (get K.eq derives.old) (get K.eq derives.new) key derive) }
{
    let alloc = *derives.allocator();
    match derives.entry(key)? {
        Entry::Occupied(entry) => entry.into_mut().later.push(derive)?,
        Entry::Vacant(entry) => {
            entry.insert(DeriveRecords {
                first: derive,
                later: no_items(alloc),
            });
        }
    }
    Ok(())
}

/// A list has room for so many elements once it has one, and to ask for less would be in vain.
const FIRST_ROOM: usize = 4;

/// A list with nothing in it, and with room for so many elements.
fn room_for(alloc: Global, elements: usize) -> Result<Seq<Def>, AllocError>
    ensures { IfOk result (λ made. made ≡ []) }
{
    let mut list = Vec::new(alloc);
    if FIRST_ROOM < elements {
        list.reserve(elements)?;
    }
    Ok(Seq::from_vec(list))
}

impl RareParts {
    ghost use Rattle.def_modules.specs.RareParts.{rare_state, no_rare, rare_called_at};

    /// All parts, with nothing in them. It stands apart, since most writes find the box made.
    #[inline(never)]
    fn boxed(alloc: Global) -> Result<Box<RareParts>, AllocError>
        ensures { IfOk result (λ made. rare_state made.value ≡ no_rare) }
    {
        let empty = RareParts {
            extern_crates: no_items(alloc),
            extern_blocks: no_items(alloc),
            unnamed_consts: no_items(alloc),
            builtin_derive_impls: no_items(alloc),
            derives: IndexMap::new(alloc),
            invocations: IndexSet::new(alloc),
            failed: IndexSet::new(alloc),
        };
        Ok(Box::new(alloc, empty)?)
    }

    /// Records the call of one path of a derive attribute in its first record, where that has such a
    /// path.
    fn set_derive_call(&mut self, position: Position, attr: AttrId, pos: usize, call: DeriveCall)
        ensures { rare_state self.new ≡ rare_called_at position attr pos call (rare_state self.old) }
    {
        if let Some(records) = self.derives.get_mut(&DeriveKey { position, attr }) {
            records.first.set_call(pos, call);
        }
    }
}

impl ScopeData {
    ghost use Rattle.std.specs.Borrow.{sem};
    ghost use Rattle.def_modules.specs.RareParts.{rare_state, rare_in};
    ghost use Rattle.def_modules.specs.RareLends.{LendsRare};

    /// The rare parts, which are made where there are none.
    fn rare_mut(&mut self) -> Result<&mut Box<RareParts>, AllocError>
        ensures* writes_back { sem 𝓛 (LendsRare self.entry result) }
        ensures value { IfOk result (λ rare. rare_state rare.now.value ≡ rare_in self.old.rare) }
    {
        let alloc = *self.legacy_macros.as_ref().allocator();
        self.rare.get_or_try_insert_with(|| RareParts::boxed(alloc))
    }
}

impl ModuleData {
    ghost use Rattle.def_modules.specs.Scopes.{module_state, empty_module, declared_in, with_child, with_textual, with_extern_crate, with_extern_block, with_unnamed_const, with_impl, with_derive_impl, with_derive, called_at, with_textual_of, with_invocation, marked_failed};

    /// A module with nothing in it but these textual macros, which has so many items.
    fn with_legacy_macros(
        alloc: Global,
        name: Option<Name>,
        origin: ModuleOrigin,
        visibility: Visibility,
        legacy_macros: Rc<IndexMap<Name, Seq<MacroId>>>,
        items: usize,
    ) -> ModuleData
        ensures { module_state result ≡ with_textual_of (textual_of legacy_macros.value) (empty_module name origin visibility) }
    {
        ModuleData {
            name,
            origin,
            visibility,
            children: IndexMap::new(alloc),
            scope: ScopeData {
                declarations: no_items(alloc),
                legacy_macros,
                impls: no_items(alloc),
                rare: None,
            },
            items,
        }
    }

    /// A module with nothing in it.
    pub fn new(
        alloc: Global,
        name: Option<Name>,
        origin: ModuleOrigin,
        visibility: Visibility,
    ) -> Result<ModuleData, AllocError>
        ensures { IfOk result (λ made. module_state made ≡ empty_module name origin visibility) }
    {
        let none = Rc::new(alloc, IndexMap::new(alloc))?;
        Ok(ModuleData::with_legacy_macros(alloc, name, origin, visibility, none, 0))
    }

    /// A module with nothing in it but the textual macros of the module around it. They are shared.
    /// It has so many items, for whose declarations the first one makes room: a module of imports needs
    /// none.
    pub fn within(
        alloc: Global,
        name: Option<Name>,
        origin: ModuleOrigin,
        visibility: Visibility,
        around: &ModuleData,
        items: usize,
    ) -> Result<ModuleData, AllocError>
        ensures { IfOk result (λ made. module_state made
            ≡ with_textual_of (module_state around.now).textual (empty_module name origin visibility)) }
    {
        let shared = around.scope.legacy_macros.clone()?;
        Ok(ModuleData::with_legacy_macros(alloc, name, origin, visibility, shared, items))
    }

    /// Notes that it has so many items, for whose declarations the first one makes room.
    pub(crate) fn expect_items(&mut self, items: usize)
        ensures { module_state self.new ≡ module_state self.old }
    {
        self.items = items;
    }

    /// Makes room for the declarations of the module's items, before the first one.
    #[inline(never)]
    fn begin_declarations(&mut self) -> Result<(), AllocError>
        requires { (module_state self.old).declarations ≡ [] }
        ensures { OnOk result (module_state self.new ≡ module_state self.old) }
    {
        let alloc = *self.children.allocator();
        self.scope.declarations = room_for(alloc, self.items)?;
        Ok(())
    }

    /// Adds a declaration behind the others.
    pub(crate) fn declare(&mut self, def: Def) -> Result<(), AllocError>
        ensures { OnOk result (module_state self.new ≡ declared_in def (module_state self.old)) }
    {
        if self.scope.declarations.is_empty() {
            self.begin_declarations()?;
        }
        self.scope.declarations.push(def)?;
        Ok(())
    }

    /// Leads a child's name to its index.
    pub(crate) fn set_child(&mut self, name: Name, child: usize) -> Result<(), AllocError>
        ensures { OnOk result (module_state self.new ≡ with_child name child (module_state self.old)) }
    {
        self.children.insert(name, child)?;
        Ok(())
    }

    /// Defines a textual macro, which shadows the earlier ones of its name.
    pub(crate) fn define_legacy_macro(
        &mut self,
        name: Name,
        macro_id: MacroId,
    ) -> Result<(), AllocError>
        ensures { OnOk result (module_state self.new ≡ with_textual name macro_id (module_state self.old)) }
    {
        let own = Rc::make_mut(&mut self.scope.legacy_macros)?;
        push_under(own, name, macro_id)
    }

    /// Records an `extern crate` item.
    pub(crate) fn define_extern_crate_decl(&mut self, id: ExternCrateId) -> Result<(), AllocError>
        ensures { OnOk result (module_state self.new ≡ with_extern_crate id (module_state self.old)) }
    {
        self.scope.rare_mut()?.extern_crates.push(id)?;
        Ok(())
    }

    /// Records an extern block.
    pub(crate) fn define_extern_block(&mut self, id: ExternBlockId) -> Result<(), AllocError>
        ensures { OnOk result (module_state self.new ≡ with_extern_block id (module_state self.old)) }
    {
        self.scope.rare_mut()?.extern_blocks.push(id)?;
        Ok(())
    }

    /// Records a constant without a name.
    pub(crate) fn define_unnamed_const(&mut self, id: ConstId) -> Result<(), AllocError>
        ensures { OnOk result (module_state self.new ≡ with_unnamed_const id (module_state self.old)) }
    {
        self.scope.rare_mut()?.unnamed_consts.push(id)?;
        Ok(())
    }

    /// Records an impl, and whether it is one of a trait.
    pub(crate) fn define_impl(&mut self, id: ImplId, is_trait_impl: bool) -> Result<(), AllocError>
        ensures { OnOk result (module_state self.new ≡ with_impl id is_trait_impl (module_state self.old)) }
    {
        self.scope.impls.push((id, is_trait_impl))?;
        Ok(())
    }

    /// Records the impl of a builtin derive.
    pub(crate) fn define_builtin_derive_impl(
        &mut self,
        id: BuiltinDeriveImplId,
    ) -> Result<(), AllocError>
        ensures { OnOk result (module_state self.new ≡ with_derive_impl id (module_state self.old)) }
    {
        self.scope.rare_mut()?.builtin_derive_impls.push(id)?;
        Ok(())
    }

    /// Records a derive attribute's call and what each path of its list gave, behind earlier records
    /// of the same attribute.
    pub(crate) fn init_derive_attribute(
        &mut self,
        position: Position,
        attr: AttrId,
        derive: DeriveMacroInvocation,
    ) -> Result<(), AllocError>
        ensures { OnOk result (module_state self.new ≡ with_derive position attr (derive_state derive) (module_state self.old)) }
    {
        let rare = self.scope.rare_mut()?;
        push_record(&mut rare.derives, DeriveKey { position, attr }, derive)
    }

    /// Records the call of one path of a derive attribute, where the attribute has such a path.
    pub(crate) fn set_derive_call(
        &mut self,
        position: Position,
        attr: AttrId,
        pos: usize,
        call: DeriveCall,
    )
        ensures { module_state self.new ≡ called_at position attr pos call (module_state self.old) }
    {
        if let Some(rare) = &mut self.scope.rare {
            rare.set_derive_call(position, attr, pos, call);
        }
    }

    /// Records a macro call at its position.
    pub(crate) fn add_macro_invoc(
        &mut self,
        position: Position,
        call: MacroCallId,
    ) -> Result<(), AllocError>
        ensures { OnOk result (module_state self.new ≡ with_invocation position call (module_state self.old)) }
    {
        self.scope
            .rare_mut()?
            .invocations
            .insert(Invocation { position, call })?;
        Ok(())
    }

    /// Marks a name that an import left over would have bound.
    pub(crate) fn mark_failed(&mut self, name: Name) -> Result<(), AllocError>
        ensures { OnOk result (module_state self.new ≡ marked_failed name (module_state self.old)) }
    {
        self.scope.rare_mut()?.failed.insert(name)?;
        Ok(())
    }
}
