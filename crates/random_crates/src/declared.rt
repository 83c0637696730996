//! Whether each declaration's place is bound, to it or to what was explicit there before.

use crate::answer::{Answer, bound_name, is_by_glob};
use def_bindings::{Binding, Namespace, Visibility};
use def_ids::{Def, ExternCrateId, MacroId, ModuleId};
use def_interner::LocationId;
use def_map::ItemScope;
use item_tree::{CtorVisibility, ModItemKind, Name};

/// The name of an item, and the namespace in which it is declared. Of a struct that is types.
fn declared_as(kind: &ModItemKind) -> Option<(Name, Namespace)> {
    match kind {
        ModItemKind::Mod { name, .. }
        | ModItemKind::Struct { name, .. }
        | ModItemKind::Union { name, .. }
        | ModItemKind::Enum { name, .. }
        | ModItemKind::Trait { name, .. }
        | ModItemKind::TypeAlias { name, .. } => Some((*name, Namespace::Types)),
        ModItemKind::Function { name, .. } | ModItemKind::Static { name, .. } => {
            Some((*name, Namespace::Values))
        }
        ModItemKind::Const { name, .. } => Some(((*name)?, Namespace::Values)),
        ModItemKind::Macro2 { name, .. } | ModItemKind::MacroRules { name } => {
            Some((*name, Namespace::Macros))
        }
        _ => None,
    }
}

/// The name of a struct without fields, which is declared in values too.
fn constructor_of(kind: &ModItemKind) -> Option<(Name, Namespace)> {
    match kind {
        ModItemKind::Struct {
            name,
            ctor: CtorVisibility::ValueNsCtorWithVis(_),
            ..
        } => Some((*name, Namespace::Values)),
        _ => None,
    }
}

/// Whether a binding is a declaration's, or an explicit one that may have been there before it.
fn stands_for(declarations: &[Def], def: Def, found: Option<Binding<Visibility>>) -> bool {
    let Some(there) = found else {
        return false;
    };
    if there.import.is_some() {
        return !is_by_glob(there.import);
    }
    for declared in declarations {
        if *declared == there.def || *declared == def {
            return *declared == there.def;
        }
    }
    false
}

/// Whether a definition is a procedural macro, which has another name than its item may have, or
/// the function of one, which is taken out.
fn is_exported(answer: &Answer<'_>, def: Def) -> bool {
    match def {
        Def::Function(id) => answer.collected.def_map.fn_as_proc_macro(id).is_some(),
        Def::Macro(MacroId::ProcMacro(_)) => true,
        _ => false,
    }
}

/// Whether a declaration of a module stands at each of its places.
fn is_declared(answer: &Answer<'_>, module: ModuleId, scope: ItemScope<'_>, def: Def) -> bool {
    let map = &answer.collected.def_map;
    let Some(position) = map.position_of(answer.world.session, def) else {
        return false;
    };
    let Some(node) = answer.node(position) else {
        return false;
    };
    for place in [declared_as(&node.kind), constructor_of(&node.kind)] {
        if let Some((name, ns)) = place {
            if !stands_for(scope.declarations(), def, answer.binding(module, name, ns)) {
                return false;
            }
        }
    }
    true
}

/// The name that an extern crate binds, if it is found and binds one.
fn crate_name(answer: &Answer<'_>, id: ExternCrateId) -> Option<Name> {
    let node = answer.node(id.lookup(answer.world.session)?.position)?;
    match &node.kind {
        ModItemKind::ExternCrate { name, alias, .. } if answer.has_crate(*name) => {
            bound_name(*name, *alias)
        }
        _ => None,
    }
}

/// Whether what an extern crate of a module binds is explicit there.
fn is_crate_bound(answer: &Answer<'_>, module: ModuleId, id: ExternCrateId) -> bool {
    match crate_name(answer, id) {
        Some(name) => answer
            .binding(module, name, Namespace::Types)
            .is_some_and(|there| !is_by_glob(there.import)),
        None => true,
    }
}

/// Whether the declarations and extern crates of a module stand at their places.
fn is_module_declared(answer: &Answer<'_>, module: ModuleId, scope: ItemScope<'_>) -> bool {
    for def in scope.declarations() {
        if !is_exported(answer, *def) && !is_declared(answer, module, scope, *def) {
            return false;
        }
    }
    for id in scope.extern_crates() {
        if !is_crate_bound(answer, module, *id) {
            return false;
        }
    }
    true
}

/// What is not declared as it should be, if something is not.
pub fn fault_of_declarations(answer: &Answer<'_>) -> Option<&'static str> {
    for index in 0..answer.collected.def_map.modules().len() {
        let module = answer.module(index);
        if let Some(scope) = answer.scope(module) {
            if !is_module_declared(answer, module, scope) {
                return Some("a declaration is not bound");
            }
        }
    }
    None
}
