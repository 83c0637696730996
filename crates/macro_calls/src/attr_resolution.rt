//! What an attribute is in a finished map: of an item that may have no derives, as an associated item.
ghost use Rattle.std.specs.Prelude.{◌≡◌, Ok, Err, IfOk};
ghost use Rattle.def_interner.specs.Session.{session_of};
ghost use Rattle.def_map.specs.Asking.{world_lent};
ghost use Rattle.def_map.specs.DefMaps.{state_of, view_of};
ghost use Rattle.def_modules.specs.Locals.{local_view};
ghost use Rattle.def_modules.specs.Maps.{map_state};
ghost use Rattle.def_rules.specs.Attributes as rules;
ghost use Rattle.def_sources.specs.Sources.{world_of};
ghost use Rattle.def_sources.specs.Tables.{bound_by};
ghost use Rattle.macro_calls.specs.AttrResolution as resolution;

use crate::attr_macros::is_builtin_or_registered_attr;
use crate::path_resolver::PathResolver;
use def_ids::ModuleId;
use def_interner::{Interner, MacroDefId};
use def_map::{
    AttrCallQuery, BuiltinShadowMode, DefMap, LocalDefMap, MacroResolver, MacroSubNs,
    SourceDatabase, Table, UnresolvedMacro, World,
};
use item_tree::{Attr, AttrId, FileAstId, InFile, MacroCallId, ModPath};
use std::alloc::{AllocError, Global};

/// What an attribute is.
#[derive(Clone, Copy)]
pub enum AttrMeaning {
    /// It is builtin or a tool's, or its path names a macro that no attribute calls.
    Other,
    /// Its path names no macro.
    Unresolved,
    /// Its path names this macro, and this is its call.
    Macro(MacroDefId, MacroCallId),
}

/// What an attribute is that a finished map resolves.
#[derive(Clone, Copy, PartialEq, Eq, Debug)]
pub enum ResolvedAttr {
    /// An attribute macro, by its call.
    Macro(MacroCallId),
    /// Anything else, which expands to nothing.
    Other,
}

/// What an attribute of the item at a position is, read in a module. Expansions of the item are not to
/// see this attribute, and the call's lies at `depth`. An item that lists derives has others: their
/// attribute's macro is called here too.
pub fn attr_meaning<D: SourceDatabase>(
    world: &World<'_, D, Table>,
    module_id: ModuleId,
    position: InFile<FileAstId>,
    attr_id: AttrId,
    attr: &Attr,
    depth: u32,
) -> AttrMeaning
    ensures { let tools = (map_state world.now.map.now).krate.tools in
        result ≡ resolution.attr_meaning (world_lent D.oracle bound_by world.now) tools module_id position attr_id attr.now depth }
{
    let tools = world.map.krate.registered_tools.as_slice();
    if is_builtin_or_registered_attr(world.db, tools, &attr.path) {
        return AttrMeaning::Other;
    }
    let resolver = PathResolver {
        world: *world,
        module_id,
        shadow: BuiltinShadowMode::Module,
        sub: MacroSubNs::Attr,
    };
    let Some(found) = resolver.resolve(&attr.path) else {
        return AttrMeaning::Unresolved;
    };
    if !found.is_attribute() {
        return AttrMeaning::Other;
    }
    let call = world.db.make_attr_call(AttrCallQuery {
        krate: world.map.tree.map.krate,
        macro_def: found,
        position,
        attr_id,
        input: attr.input.as_ref(),
        ctxt: attr.ctxt,
        censored: &[attr_id],
        depth,
    });
    AttrMeaning::Macro(found, call)
}

/// A finished map: what attributes are in it. It is the attribute resolution that rust-analyzer does
/// once names are resolved.
pub trait AttrResolution {
    ghost use Rattle.def_modules.specs.MapState.{MapState};
    ghost use Rattle.def_modules.specs.MapView.{MapView};

    /// All that the map shows beside its bindings.
    ghost state: { Self → MapState };

    /// The map as paths see it.
    ghost view: { Self → MapView };

    /// What an attribute of the item at a position is, read in a module of this map: the call of its
    /// macro, if its path names one that attributes call, at this depth of expansion. Nothing else
    /// than this attribute is hidden from the expansion, so the call is not meant for items that may
    /// have derives. Where the path names no macro, that is answered with the path. `AllocError`
    /// where there is no memory for that path.
    fn resolve_attr_macro<D: SourceDatabase>(
        &self,
        alloc: Global,
        local_def_map: &LocalDefMap,
        db: &D,
        session: &Interner,
        original_module: ModuleId,
        ast_id: InFile<FileAstId>,
        attr: &Attr,
        attr_id: AttrId,
        macro_depth: u32,
    ) -> Result<Result<ResolvedAttr, UnresolvedMacro>, AllocError>
        ensures { let w = world_of (D.oracle db.now) (session_of session.now) (view self.now) (local_view local_def_map.now) in
            let meant = resolution.attr_meaning w (state self.now).krate.tools original_module ast_id attr_id attr.now macro_depth in
            IfOk result (λ answer. answer ≡ resolution.resolved attr.now meant) };

    /// Whether a path is that of a builtin attribute, or of a tool's of this map's crate. It takes no
    /// memory.
    fn is_builtin_or_registered_attr<D: SourceDatabase>(&self, db: &D, path: &ModPath) -> bool
        ensures { result ≡ rules.is_builtin_or_registered_attr (D.oracle db.now) (state self.now).krate.tools path.now };
}

impl AttrResolution for DefMap {
    ghost state = { state_of };

    ghost view = { view_of };

    fn resolve_attr_macro<D: SourceDatabase>(
        &self,
        alloc: Global,
        local_def_map: &LocalDefMap,
        db: &D,
        session: &Interner,
        original_module: ModuleId,
        ast_id: InFile<FileAstId>,
        attr: &Attr,
        attr_id: AttrId,
        macro_depth: u32,
    ) -> Result<Result<ResolvedAttr, UnresolvedMacro>, AllocError> {
        let world = self.world(local_def_map, db, session);
        match attr_meaning(&world, original_module, ast_id, attr_id, attr, macro_depth) {
            AttrMeaning::Other => Ok(Ok(ResolvedAttr::Other)),
            AttrMeaning::Macro(_, call) => Ok(Ok(ResolvedAttr::Macro(call))),
            AttrMeaning::Unresolved => {
                Ok(Err(UnresolvedMacro {
                    path: attr.path.clone()?,
                }))
            }
        }
    }

    fn is_builtin_or_registered_attr<D: SourceDatabase>(&self, db: &D, path: &ModPath) -> bool {
        is_builtin_or_registered_attr(db, self.registered_tools(), path)
    }
}
