//! Items that declare one name: each gets its number, and with it a definition.
ghost use Rattle.std.specs.Prelude.{◌≡◌, false, Some, IfNone, IfOk, IfSome, OnOk};
ghost use Rattle.def_interner.specs.Session.{AddsLocations, FunctionItem, session_of};
ghost use Rattle.def_items.specs.Numbered.{IsDeclared, is_declaring, is_type};
ghost use Rattle.def_parts.specs.Sites.{site_of};
ghost use Rattle.def_rules.specs.Deferred.{IsAdt};
ghost use Rattle.def_rules.specs.Derives.{derives_kind};
ghost use Rattle.def_rules.specs.Items.{loc_of};
ghost use Rattle.def_rules.specs.Locations.{AddsOwn, number_kind};
ghost use Rattle.def_rules.specs.State.{State};

use def_bindings::Namespace;
use def_ids::{
    Adt, ConstId, ConstLoc, Def, EnumLoc, FunctionId, FunctionLoc, StaticLoc, StructLoc, TraitLoc,
    TypeAliasLoc, UnionLoc,
};
use def_interner::{Interner, Location};
use def_parts::Site;
use item_tree::{ItemNode, ModItemKind, Name, RawVisibility};
use std::alloc::AllocError;

/// A definition that an item declares under a name in one namespace, and its visibility as it is
/// written.
#[derive(Clone, Copy)]
pub struct Declaration<'a> {
    pub name: Name,
    pub ns: Namespace,
    pub def: Def,
    pub vis: &'a RawVisibility,
}

/// What an item declares, where it is of a kind that declares one name.
#[derive(Clone, Copy)]
pub enum Declared<'a> {
    Name(Declaration<'a>),
    /// A constant without a name declares none.
    UnnamedConst(ConstId),
    /// The item is of another kind.
    Nothing,
}

/// Numbers an item of a kind that declares one name, and says what it declares.
pub fn number_item<'a>(
    session: &mut Interner,
    site: &Site,
    node: &'a ItemNode,
) -> Result<Declared<'a>, AllocError>
    ensures declared { IfOk result (λ declared.
        IsDeclared (session_of session.new) (site_of site.now) node.now declared) }
    ensures same { OnOk result (is_declaring node.now.kind ≡ false → session.new ≡ session.old) }
    ensures own { OnOk result (AddsOwn (site_of site.now) node.now (session_of session.old) (session_of session.new)) }
    ensures session { AddsLocations (session_of session.old) (session_of session.new) }
{
    match &node.kind {
        ModItemKind::Union { name, visibility } => {
            let id = UnionLoc {
                container: site.module_id,
                position: site.position(node),
            }
            .intern(session)?;
            let declaration = Declaration {
                name: *name,
                ns: Namespace::Types,
                def: Def::Union(id),
                vis: visibility,
            };
            Ok(Declared::Name(declaration))
        }
        ModItemKind::Enum { name, visibility } => {
            let id = EnumLoc {
                container: site.module_id,
                position: site.position(node),
            }
            .intern(session)?;
            let declaration = Declaration {
                name: *name,
                ns: Namespace::Types,
                def: Def::Enum(id),
                vis: visibility,
            };
            Ok(Declared::Name(declaration))
        }
        ModItemKind::Trait { name, visibility } => {
            let id = TraitLoc {
                container: site.module_id,
                position: site.position(node),
            }
            .intern(session)?;
            let declaration = Declaration {
                name: *name,
                ns: Namespace::Types,
                def: Def::Trait(id),
                vis: visibility,
            };
            Ok(Declared::Name(declaration))
        }
        ModItemKind::TypeAlias { name, visibility } => {
            let id = TypeAliasLoc {
                container: site.container,
                position: site.position(node),
            }
            .intern(session)?;
            let declaration = Declaration {
                name: *name,
                ns: Namespace::Types,
                def: Def::TypeAlias(id),
                vis: visibility,
            };
            Ok(Declared::Name(declaration))
        }
        _ => number_value(session, site, node),
    }
}

/// Numbers a struct, a union or an enum, as what gives the impls of its derives.
#[inline(never)]
pub fn number_adt(
    session: &mut Interner,
    site: &Site,
    node: &ItemNode,
) -> Result<Option<Adt>, AllocError>
    ensures numbered { IfOk result (λ found. IfSome found (λ adt. (s : State) →
        IsAdt (record s { session = session_of session.new }) (site_of site.now) node.now node.now.kind adt)) }
    ensures other { IfOk result (λ found. IfNone found (derives_kind node.now.kind ≡ false)) }
    ensures own { OnOk result (AddsOwn (site_of site.now) node.now (session_of session.old) (session_of session.new)) }
    ensures session { AddsLocations (session_of session.old) (session_of session.new) }
{
    let container = site.module_id;
    let position = site.position(node);
    match &node.kind {
        ModItemKind::Struct { .. } => {
            let id = StructLoc {
                container,
                position,
            }
            .intern(session)?;
            Ok(Some(Adt::Struct(id)))
        }
        ModItemKind::Union { .. } => {
            let id = UnionLoc {
                container,
                position,
            }
            .intern(session)?;
            Ok(Some(Adt::Union(id)))
        }
        ModItemKind::Enum { .. } => {
            let id = EnumLoc {
                container,
                position,
            }
            .intern(session)?;
            Ok(Some(Adt::Enum(id)))
        }
        _ => Ok(None),
    }
}

/// Numbers a function.
pub fn number_function(
    session: &mut Interner,
    site: &Site,
    node: &ItemNode,
) -> Result<FunctionId, AllocError>
    ensures numbered { IfOk result (λ id. (session_of session.new).item FunctionItem id.0 ≡ Some (loc_of (site_of site.now) FunctionItem node.now)) }
    ensures own { OnOk result (number_kind node.now.kind ≡ Some FunctionItem →
        AddsOwn (site_of site.now) node.now (session_of session.old) (session_of session.new)) }
    ensures session { AddsLocations (session_of session.old) (session_of session.new) }
{
    let id = FunctionLoc {
        container: site.container,
        position: site.position(node),
    }
    .intern(session)?;
    Ok(id)
}

/// Numbers an item of a kind that declares one name in values.
fn number_value<'a>(
    session: &mut Interner,
    site: &Site,
    node: &'a ItemNode,
) -> Result<Declared<'a>, AllocError>
    ensures declared { IfOk result (λ declared. is_type node.now.kind ≡ false →
        IsDeclared (session_of session.new) (site_of site.now) node.now declared) }
    ensures same { OnOk result (is_declaring node.now.kind ≡ false → session.new ≡ session.old) }
    ensures own { OnOk result (AddsOwn (site_of site.now) node.now (session_of session.old) (session_of session.new)) }
    ensures session { AddsLocations (session_of session.old) (session_of session.new) }
{
    match &node.kind {
        ModItemKind::Const { name, visibility } => {
            let id = ConstLoc {
                container: site.container,
                position: site.position(node),
            }
            .intern(session)?;
            let Some(name) = *name else {
                return Ok(Declared::UnnamedConst(id));
            };
            let declaration = Declaration {
                name,
                ns: Namespace::Values,
                def: Def::Const(id),
                vis: visibility,
            };
            Ok(Declared::Name(declaration))
        }
        ModItemKind::Static { name, visibility } => {
            let id = StaticLoc {
                container: site.container,
                position: site.position(node),
            }
            .intern(session)?;
            let declaration = Declaration {
                name: *name,
                ns: Namespace::Values,
                def: Def::Static(id),
                vis: visibility,
            };
            Ok(Declared::Name(declaration))
        }
        _ => Ok(Declared::Nothing),
    }
}
