//! What a macro call is asked with, how deep its expansion lies, and what it is answered.
ghost use Rattle.std.specs.Prelude.{◌≡◌, IfOk};
ghost use Rattle.def_map.specs.Asking.{world_lent};
ghost use Rattle.def_map.specs.Paths.{resolver};
ghost use Rattle.def_map.specs.Queries.{plain_call};
ghost use Rattle.def_modules.specs.Maps.{map_state};
ghost use Rattle.def_rules.specs.Calls as calls;
ghost use Rattle.def_sources.specs.Tables.{bound_by};
ghost use Rattle.def_sources.specs.declared.per_ns.MacroSubNs.TheVariants.{Bang};
ghost use Rattle.macro_calls.specs.Written.{written_of};

use crate::early_resolver::EarlyResolver;
use crate::path_resolver::PathResolver;
use def_ids::ModuleId;
use def_map::{
    BuiltinShadowMode, CallAnswer, CallQuery, MacroSubNs, MapData, SourceDatabase, Table,
    UnresolvedMacro, World,
};
use item_tree::{ExpandTo, FileAstId, InFile, ModPath, SyntaxContext};
use std::alloc::{AllocError, Global};

/// A macro call as it is written: its path with the context of that, and what its expansion is read
/// as.
#[derive(Clone, Copy)]
pub struct WrittenCall<'a> {
    pub path: &'a ModPath,
    pub expand_to: ExpandTo,
    pub ctxt: SyntaxContext,
}

/// The depth of an expansion at this depth. There is none below the greatest.
pub fn deeper(depth: u32) -> u32
    ensures { result ≡ calls.deeper depth }
{
    depth.saturating_add(1)
}

/// Whether an expansion of this depth is over the crate's limit, or at the greatest depth.
pub fn is_too_deep(def_map: &MapData, depth: u32) -> bool
    ensures { result ≡ calls.is_too_deep (map_state def_map.now) depth }
{
    def_map.recursion_limit() < depth || depth == u32::MAX
}

/// What a call at a position is asked with, by how deep its expansion would lie.
pub fn call_query<'a>(
    def_map: &MapData,
    position: InFile<FileAstId>,
    depth: u32,
    written: WrittenCall<'a>,
) -> CallQuery<'a>
    ensures { plain_call result ≡ calls.call_query (map_state def_map.now) position depth (written_of written.entry) }
{
    CallQuery {
        position,
        path: written.path,
        ctxt: written.ctxt,
        kind: written.expand_to,
        krate: def_map.tree.map.krate,
        depth,
        recursion_limit: def_map.recursion_limit(),
    }
}

/// Asks the database for a call of a module, by the macros that are found there before imports are
/// resolved. On `Err` nothing but safety is promised.
pub fn early_answer<D: SourceDatabase>(
    alloc: Global,
    world: &World<'_, D, Table>,
    module_id: ModuleId,
    query: CallQuery<'_>,
) -> Result<Result<CallAnswer, UnresolvedMacro>, AllocError>
    ensures { let w = world_lent D.oracle bound_by world.now in
        IfOk result (λ answer. answer ≡ calls.answer_by w.oracle (calls.early_meaning w module_id) (plain_call query.entry)) }
{
    let resolver = EarlyResolver {
        world: *world,
        module_id,
    };
    world.db.macro_call(alloc, query, &resolver)
}

/// Asks the database for a call of a module, by the macros that paths name there once imports are
/// resolved. On `Err` nothing but safety is promised.
pub fn call_answer<D: SourceDatabase>(
    alloc: Global,
    world: &World<'_, D, Table>,
    module_id: ModuleId,
    shadow: BuiltinShadowMode,
    query: CallQuery<'_>,
) -> Result<Result<CallAnswer, UnresolvedMacro>, AllocError>
    ensures { let w = world_lent D.oracle bound_by world.now in
        IfOk result (λ answer. answer ≡ calls.answer_by w.oracle (resolver w shadow Bang module_id) (plain_call query.entry)) }
{
    let resolver = PathResolver {
        world: *world,
        module_id,
        shadow,
        sub: MacroSubNs::Bang,
    };
    world.db.macro_call(alloc, query, &resolver)
}
