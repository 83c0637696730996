//! What the collector writes into a module of a map. A module that is not there is left out, and
//! where memory is refused nothing but safety is promised.
ghost use Rattle.std.specs.Prelude.{◌≡◌, OnOk};
ghost use Rattle.def_modules.specs.Maps.{map_state, with_module};

use crate::map::MapData;
use crate::module_data::{DeriveCall, DeriveMacroInvocation, Position};
use def_ids::{BuiltinDeriveImplId, ConstId, Def, ExternBlockId, ExternCrateId, ImplId, MacroId};
use std::alloc::AllocError;
use tree_ids::{AttrId, MacroCallId, Name};

#[tactic(auto, using(crate::proofs::MapsLemmas::module_missing))]
impl MapData {
    ghost use Rattle.def_modules.specs.ScopeMaps.{derive_state};
    ghost use Rattle.def_modules.specs.Scopes.{declared_in, with_child, with_textual, with_extern_crate, with_extern_block, with_unnamed_const, with_impl, with_derive_impl, with_derive, called_at, with_invocation, marked_failed};

    /// Adds a declaration to a module, behind the others.
    pub fn declare(&mut self, module: usize, def: Def) -> Result<(), AllocError>
        ensures { OnOk result (map_state self.new ≡ with_module (map_state self.old) «module» (declared_in def)) }
    {
        match self.modules.get_mut(module) {
            Some(found) => found.declare(def),
            None => Ok(()),
        }
    }

    /// Leads the name of a module's child to its index.
    pub fn set_child(&mut self, module: usize, name: Name, child: usize) -> Result<(), AllocError>
        ensures { OnOk result (map_state self.new ≡ with_module (map_state self.old) «module» (with_child name child)) }
    {
        match self.modules.get_mut(module) {
            Some(found) => found.set_child(name, child),
            None => Ok(()),
        }
    }

    /// Defines a textual macro in a module, which shadows the earlier ones of its name.
    pub fn define_legacy_macro(
        &mut self,
        module: usize,
        name: Name,
        macro_id: MacroId,
    ) -> Result<(), AllocError>
        ensures { OnOk result (map_state self.new ≡ with_module (map_state self.old) «module» (with_textual name macro_id)) }
    {
        match self.modules.get_mut(module) {
            Some(found) => found.define_legacy_macro(name, macro_id),
            None => Ok(()),
        }
    }

    /// Records an `extern crate` item of a module.
    pub fn define_extern_crate_decl(
        &mut self,
        module: usize,
        id: ExternCrateId,
    ) -> Result<(), AllocError>
        ensures { OnOk result (map_state self.new ≡ with_module (map_state self.old) «module» (with_extern_crate id)) }
    {
        match self.modules.get_mut(module) {
            Some(found) => found.define_extern_crate_decl(id),
            None => Ok(()),
        }
    }

    /// Records an extern block of a module.
    pub fn define_extern_block(
        &mut self,
        module: usize,
        id: ExternBlockId,
    ) -> Result<(), AllocError>
        ensures { OnOk result (map_state self.new ≡ with_module (map_state self.old) «module» (with_extern_block id)) }
    {
        match self.modules.get_mut(module) {
            Some(found) => found.define_extern_block(id),
            None => Ok(()),
        }
    }

    /// Records a constant without a name.
    pub fn define_unnamed_const(&mut self, module: usize, id: ConstId) -> Result<(), AllocError>
        ensures { OnOk result (map_state self.new ≡ with_module (map_state self.old) «module» (with_unnamed_const id)) }
    {
        match self.modules.get_mut(module) {
            Some(found) => found.define_unnamed_const(id),
            None => Ok(()),
        }
    }

    /// Records an impl, and whether it is one of a trait.
    pub fn define_impl(
        &mut self,
        module: usize,
        id: ImplId,
        is_trait_impl: bool,
    ) -> Result<(), AllocError>
        ensures { OnOk result (map_state self.new ≡ with_module (map_state self.old) «module» (with_impl id is_trait_impl)) }
    {
        match self.modules.get_mut(module) {
            Some(found) => found.define_impl(id, is_trait_impl),
            None => Ok(()),
        }
    }

    /// Records the impl of a builtin derive.
    pub fn define_builtin_derive_impl(
        &mut self,
        module: usize,
        id: BuiltinDeriveImplId,
    ) -> Result<(), AllocError>
        ensures { OnOk result (map_state self.new ≡ with_module (map_state self.old) «module» (with_derive_impl id)) }
    {
        match self.modules.get_mut(module) {
            Some(found) => found.define_builtin_derive_impl(id),
            None => Ok(()),
        }
    }

    /// Records a macro call at its position.
    pub fn add_macro_invoc(
        &mut self,
        module: usize,
        position: Position,
        call: MacroCallId,
    ) -> Result<(), AllocError>
        ensures { OnOk result (map_state self.new ≡ with_module (map_state self.old) «module» (with_invocation position call)) }
    {
        match self.modules.get_mut(module) {
            Some(found) => found.add_macro_invoc(position, call),
            None => Ok(()),
        }
    }

    /// Marks a name that an import left over would have bound.
    pub fn mark_failed(&mut self, module: usize, name: Name) -> Result<(), AllocError>
        ensures { OnOk result (map_state self.new ≡ with_module (map_state self.old) «module» (marked_failed name)) }
    {
        match self.modules.get_mut(module) {
            Some(found) => found.mark_failed(name),
            None => Ok(()),
        }
    }

    /// Records a derive attribute of a module, behind its earlier records: its call, and what each path
    /// of its list gave. It is `init_derive_attribute` of rust-analyzer's `ItemScope`.
    pub fn init_derive_attribute(
        &mut self,
        module: usize,
        position: Position,
        attr: AttrId,
        derive: DeriveMacroInvocation,
    ) -> Result<(), AllocError>
        ensures { OnOk result (map_state self.new ≡ with_module (map_state self.old) «module» (with_derive position attr (derive_state derive))) }
    {
        match self.modules.get_mut(module) {
            Some(found) => found.init_derive_attribute(position, attr, derive),
            None => Ok(()),
        }
    }

    /// Records the call of one path of a derive attribute, where the module has such a path.
    pub fn set_derive_call(
        &mut self,
        module: usize,
        position: Position,
        attr: AttrId,
        pos: usize,
        call: DeriveCall,
    )
        ensures { map_state self.new ≡ with_module (map_state self.old) «module» (called_at position attr pos call) }
    {
        if let Some(found) = self.modules.get_mut(module) {
            found.set_derive_call(position, attr, pos, call);
        }
    }
}
