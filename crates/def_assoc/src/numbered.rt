//! Items with names, which get their numbers.
ghost use Rattle.std.specs.Prelude.{IfOk};
ghost use Rattle.std.specs.List.{AllZip};
ghost use Rattle.def_interner.specs.Session.{session_of};
ghost use Rattle.def_assoc.specs.Numbered.{AddsNamed, AddsOne, IsNumbered};

use crate::assoc::AssocItemId;
use def_ids::{ConstLoc, FunctionLoc, ItemContainerId, TypeAliasLoc};
use def_interner::{Interner, Location};
use item_tree::{FileAstId, InFile, Name};
use std::alloc::{AllocError, Global};

/// The kinds of items that have names.
#[derive(Clone, Copy)]
pub enum NamedKind {
    Function,
    Const,
    TypeAlias,
}

/// An item with a name, and where it stands.
#[derive(Clone, Copy)]
pub struct NamedItem {
    pub name: Name,
    pub kind: NamedKind,
    pub position: InFile<FileAstId>,
}

/// The items of a trait or an impl, each under its name and with its number. On an error some of them
/// may have got one.
pub fn number_items(
    alloc: Global,
    session: &mut Interner,
    container: ItemContainerId,
    named: &[NamedItem],
) -> Result<Vec<(Name, AssocItemId)>, AllocError>
    ensures numbered { IfOk result (λ items. AllZip (IsNumbered (session_of session.new) container) named.now items.items) }
    ensures adds { AddsNamed container named.now (session_of session.old) (session_of session.new) }
{
    let mut items = Vec::with_capacity(alloc, named.len())?;
    'items: for item in named {
        let id = number_item(session, container, *item)?;
        items.push((item.name, id))?;
    }
    Ok(items)
}

/// The number of an item of a trait or an impl: its own, or the next of its kind. On an error nothing
/// changes.
fn number_item(
    session: &mut Interner,
    container: ItemContainerId,
    item: NamedItem,
) -> Result<AssocItemId, AllocError>
    ensures numbered { IfOk result (λ id. IsNumbered (session_of session.new) container item (item.name, id)) }
    ensures adds { AddsOne container item (session_of session.old) (session_of session.new) }
{
    let position = item.position;
    match item.kind {
        NamedKind::Function => {
            let loc = FunctionLoc {
                container,
                position,
            };
            Ok(AssocItemId::Function(loc.intern(session)?))
        }
        NamedKind::Const => {
            let loc = ConstLoc {
                container,
                position,
            };
            Ok(AssocItemId::Const(loc.intern(session)?))
        }
        NamedKind::TypeAlias => {
            let loc = TypeAliasLoc {
                container,
                position,
            };
            Ok(AssocItemId::TypeAlias(loc.intern(session)?))
        }
    }
}
