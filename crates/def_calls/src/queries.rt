//! What a call that waits is answered, and where the modules of its expansion have their files.
ghost use Rattle.std.specs.Prelude.{◌≡◌, IfOk};
ghost use Rattle.def_calls.specs.Shown.{macro_directive_of};
ghost use Rattle.def_parts.specs.Sites.{directories_of};
ghost use Rattle.def_map.specs.Asking.{world_lent};
ghost use Rattle.def_modules.specs.Maps.{map_state};
ghost use Rattle.def_sources.specs.Tables.{bound_by};
ghost use Rattle.def_rules.specs.Calls as calls;
ghost use Rattle.def_rules.specs.Directives.{answer_in};
ghost use Rattle.macro_calls.specs.Written.{written_of};

use crate::directives::MacroDirective;
use def_ids::ModuleId;
use def_map::{
    BuiltinShadowMode, CallAnswer, MapData, SourceDatabase, Table, UnresolvedMacro, World,
};
use def_parts::{ModDir, ModDirs};
use item_tree::MacroCallId;
use macro_calls::{WrittenCall, call_answer, call_query};
use std::alloc::{AllocError, Global};

/// Asks the database for a call that waits, by the macros that paths name once imports are resolved.
/// On `Err` nothing but safety is promised.
pub fn waiting_answer<D: SourceDatabase>(
    alloc: Global,
    world: &World<'_, D, Table>,
    def_map: &MapData,
    directive: &MacroDirective<'_>,
    written: WrittenCall<'_>,
) -> Result<Result<CallAnswer, UnresolvedMacro>, AllocError>
    ensures { IfOk result (λ answer. answer
        ≡ answer_in (world_lent D.oracle bound_by world.now) (map_state def_map.now) (macro_directive_of directive.now) (written_of written.entry)) }
{
    let query = call_query(def_map, directive.position, directive.depth, written);
    call_answer(
        alloc,
        world,
        directive.module_id,
        BuiltinShadowMode::Module,
        query,
    )
}

/// The directory in which the modules of an expansion have their files: of `include!` that of the
/// root, of any other call the one that is stored for its module.
pub fn expansion_dir<D: SourceDatabase>(
    alloc: Global,
    db: &D,
    mod_dirs: &ModDirs,
    module_id: ModuleId,
    call: MacroCallId,
) -> Result<ModDir, AllocError>
    ensures { IfOk result (λ dir. dir
        ≡ calls.expansion_directory (D.oracle db.now) (directories_of mod_dirs.now) module_id call) }
{
    if db.is_include(call) {
        return Ok(ModDir::root(alloc));
    }
    stored_dir(alloc, mod_dirs, module_id)
}

/// The directory that is stored for a module, else the root's.
pub fn stored_dir(
    alloc: Global,
    mod_dirs: &ModDirs,
    module_id: ModuleId,
) -> Result<ModDir, AllocError>
    ensures { IfOk result (λ dir. dir ≡ calls.stored_directory (directories_of mod_dirs.now) module_id) }
{
    match mod_dirs.get(module_id) {
        Some(dir) => Ok(dir.clone()?),
        None => Ok(ModDir::root(alloc)),
    }
}
