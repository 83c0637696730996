//! The items of a trait or an impl.
ghost use Rattle.std.specs.Prelude.{◌≡◌, IfOk, Some};
ghost use Rattle.def_ids.specs.declared.ids.ItemContainerId.TheVariants as contained_in;
ghost use Rattle.def_interner.specs.Session.{ImplItem, TraitItem, session_of};
ghost use Rattle.def_oracle.specs.declared.source_database.AssocItemsOwner.TheVariants as owned_by;
ghost use Rattle.def_assoc.specs.AssocItems.{first_named, function_in, type_alias_in, type_aliases};
ghost use Rattle.def_assoc.specs.Numbered.{AddsNamed};
ghost use Rattle.def_assoc.specs.Owners.{IsAnswer, owner_lists};

use crate::collector::Found;
use crate::iter::{AssocTypes, MacroCalls};
use crate::numbered::number_items;
use crate::owners::{collect_impl, collect_trait};
use def_ids::{ConstId, FunctionId, ImplId, ItemContainerId, TraitId, TypeAliasId};
use def_interner::Interner;
use def_map::SourceDatabase;
use def_rules::DefDiagnostics;
use item_tree::{FileAstId, InFile, MacroCallId, Name};
use std::alloc::{AllocError, Global};

/// A named item of a trait or an impl.
#[derive(Clone, Copy, PartialEq, Eq, Debug)]
pub enum AssocItemId {
    Function(FunctionId),
    Const(ConstId),
    TypeAlias(TypeAliasId),
}

/// The items of a trait, each under its name, and the macro calls among them, each with its position.
/// Both are in the order of the text, an expansion in the place of its call.
#[derive(Debug, PartialEq, Eq, Drop)]
pub struct TraitItems {
    pub items: Vec<(Name, AssocItemId)>,
    pub macro_calls: Vec<(InFile<FileAstId>, MacroCallId)>,
}

impl TraitItems {
    /// The items of a trait, those of expansions among them too, and what is reported of them. They are
    /// read against the finished map of the trait's module. An alias of traits has none, nor has a
    /// trait that the session does not know, nor one whose map is not there. On an error some items may
    /// have got numbers.
    pub fn query_with_diagnostics<D: SourceDatabase>(
        alloc: Global,
        db: &D,
        session: &mut Interner,
        tr: TraitId,
    ) -> Result<(TraitItems, DefDiagnostics), AllocError>
        ensures answer { let known = session_of session.old in
            let lists = owner_lists (D.oracle db.now) (D.states db.now) known (owned_by.Trait tr) (known.item TraitItem tr.0) in
            IfOk result (λ answer. IsAnswer lists (contained_in.Trait tr) (session_of session.new) answer.0.items.items answer.0.macro_calls.items answer.1) }
        ensures adds { let known = session_of session.old in
            let lists = owner_lists (D.oracle db.now) (D.states db.now) known (owned_by.Trait tr) (known.item TraitItem tr.0) in
            AddsNamed (contained_in.Trait tr) lists.named known (session_of session.new) }
    {
        let Found {
            named,
            macro_calls,
            diagnostics,
        } = collect_trait(alloc, db, session, tr)?;
        let items = number_items(alloc, session, ItemContainerId::Trait(tr), named.as_slice())?;
        Ok((TraitItems { items, macro_calls }, diagnostics))
    }

    /// The type aliases, in order.
    pub fn associated_types(&self) -> AssocTypes<'_>
        ensures { result ≡ type_aliases self.now.items.items }
    {
        AssocTypes::of(self.items.as_slice())
    }

    /// The macro calls, in order.
    pub fn macro_calls(&self) -> MacroCalls<'_>
        ensures { result ≡ self.now.macro_calls.items }
    {
        MacroCalls::of(self.macro_calls.as_slice())
    }

    /// The first type alias of this name.
    pub fn associated_type_by_name(&self, name: &Name) -> Option<TypeAliasId>
        ensures { result ≡ first_named type_alias_in name.now self.now.items.items }
    {
        'items: for item in self.items.as_slice() {
            match item.1 {
                AssocItemId::TypeAlias(id) if item.0 == *name => return Some(id),
                _ => {}
            }
        }
        None
    }

    /// The first function of this name.
    pub fn method_by_name(&self, name: &Name) -> Option<FunctionId>
        ensures { result ≡ first_named function_in name.now self.now.items.items }
    {
        'items: for item in self.items.as_slice() {
            match item.1 {
                AssocItemId::Function(id) if item.0 == *name => return Some(id),
                _ => {}
            }
        }
        None
    }

    /// The first item of this name, of any kind.
    pub fn assoc_item_by_name(&self, name: &Name) -> Option<AssocItemId>
        ensures { result ≡ first_named (λ id. Some id) name.now self.now.items.items }
    {
        'items: for item in self.items.as_slice() {
            if item.0 == *name {
                return Some(item.1);
            }
        }
        None
    }

    /// The same items and calls.
    pub fn clone(&self) -> Result<TraitItems, AllocError>
        ensures items { IfOk result (λ copy. copy.items.items ≡ self.now.items.items) }
        ensures macro_calls { IfOk result (λ copy. copy.macro_calls.items ≡ self.now.macro_calls.items) }
    {
        Ok(TraitItems {
            items: self.items.clone()?,
            macro_calls: self.macro_calls.clone()?,
        })
    }
}

/// The items of an impl, each under its name, and the macro calls among them, each with its position.
/// Both are in the order of the text, an expansion in the place of its call.
#[derive(Debug, PartialEq, Eq, Drop)]
pub struct ImplItems {
    pub items: Vec<(Name, AssocItemId)>,
    pub macro_calls: Vec<(InFile<FileAstId>, MacroCallId)>,
}

impl ImplItems {
    /// The items of an impl, those of expansions among them too, and what is reported of them. They are
    /// read against the finished map of the impl's module. An impl that the session does not know has
    /// none, nor has one whose map is not there. On an error some items may have got numbers.
    pub fn of<D: SourceDatabase>(
        alloc: Global,
        db: &D,
        session: &mut Interner,
        id: ImplId,
    ) -> Result<(ImplItems, DefDiagnostics), AllocError>
        ensures answer { let known = session_of session.old in
            let lists = owner_lists (D.oracle db.now) (D.states db.now) known (owned_by.Impl id) (known.item ImplItem id.0) in
            IfOk result (λ answer. IsAnswer lists (contained_in.Impl id) (session_of session.new) answer.0.items.items answer.0.macro_calls.items answer.1) }
        ensures adds { let known = session_of session.old in
            let lists = owner_lists (D.oracle db.now) (D.states db.now) known (owned_by.Impl id) (known.item ImplItem id.0) in
            AddsNamed (contained_in.Impl id) lists.named known (session_of session.new) }
    {
        let Found {
            named,
            macro_calls,
            diagnostics,
        } = collect_impl(alloc, db, session, id)?;
        let items = number_items(alloc, session, ItemContainerId::Impl(id), named.as_slice())?;
        Ok((ImplItems { items, macro_calls }, diagnostics))
    }

    /// The macro calls, in order.
    pub fn macro_calls(&self) -> MacroCalls<'_>
        ensures { result ≡ self.now.macro_calls.items }
    {
        MacroCalls::of(self.macro_calls.as_slice())
    }
}
