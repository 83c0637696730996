//! What the root of a crate of procedural macros shows other crates: these macros alone.
ghost use Rattle.std.specs.Prelude.{◌≡◌, IsFalse, IsTrue, OnOk, Some, slice_get};
ghost use Rattle.def_bindings.specs.declared.visibility.Visibility.TheVariants.{PubCrate, Public};
ghost use Rattle.def_ids.specs.Ids.{is_same_module};
ghost use Rattle.def_rules.specs.ProcMacros as proc_macros;
ghost use Rattle.def_sources.specs.Tables.{bound_by};
ghost use Rattle.def_macros.specs.Censored.{ListsOnce, censored_name, censored_names, censored_place, censored_trait, censored_traits};

use def_bindings::{Binding, BindingTable, Namespace, Visibility};
use def_ids::{Def, MacroId, ModuleId, TraitId};
use def_map::Table;
use item_tree::Name;
use std::alloc::AllocError;

/// Lets other crates see of a module only the procedural macros that are declared there: whatever
/// else is public may be seen in the crate alone. Want of memory is the only error, and then nothing
/// but safety is promised.
pub fn censor(table: &mut Table, root: ModuleId) -> Result<(), AllocError>
    requires { ListsOnce (bound_by table.old) root }
    ensures { OnOk result (bound_by table.new ≡ proc_macros.censored_in (is_same_module root) (bound_by table.old)) }
{
    censor_names(table, root)?;
    censor_traits(table, root)
}

/// Censors what each name of a module stands for.
fn censor_names(table: &mut Table, at: ModuleId) -> Result<(), AllocError>
    ensures { OnOk result (bound_by table.new ≡ censored_names at (bound_by table.old)) }
{
    let mut index = 0;
    'names: while let Some(name) = table.name_at(at, index) {
        censor_name(table, at, name)?;
        index += 1;
    }
    Ok(())
}

/// Censors what a name stands for in each namespace.
fn censor_name(table: &mut Table, at: ModuleId, name: Name) -> Result<(), AllocError>
    ensures { OnOk result (bound_by table.new ≡ censored_name at name (bound_by table.old)) }
{
    censor_place(table, at, name, Namespace::Types)?;
    censor_place(table, at, name, Namespace::Values)?;
    censor_place(table, at, name, Namespace::Macros)
}

/// Censors what a name stands for in a namespace. What stays is not written again.
fn censor_place(
    table: &mut Table,
    at: ModuleId,
    name: Name,
    ns: Namespace,
) -> Result<(), AllocError>
    ensures { OnOk result (bound_by table.new ≡ censored_place at name ns (bound_by table.old)) }
{
    let Some(held) = table.binding(at, name, ns) else {
        return Ok(());
    };
    if stays(held) {
        return Ok(());
    }
    table.set(
        at,
        name,
        ns,
        Binding {
            def: held.def,
            vis: Visibility::PubCrate,
            import: held.import,
        },
    )
}

/// Whether a binding is censored already: it is that of a procedural macro which is declared there,
/// or it is not public.
fn stays(held: Binding<Visibility>) -> bool
    ensures same { IsTrue result → proc_macros.censored_binding held ≡ held }
    ensures hidden { IsFalse result → proc_macros.censored_binding held ≡ record held { vis = PubCrate } }
{
    is_declared_macro(held) || is_hidden(held.vis)
}

/// Whether a binding is that of a procedural macro which is declared there, and not imported.
fn is_declared_macro(held: Binding<Visibility>) -> bool
    ensures { result ≡ proc_macros.is_declared_macro held }
{
    is_proc_macro(held.def) && held.import.is_none()
}

/// Whether a definition is a procedural macro.
fn is_proc_macro(def: Def) -> bool
    ensures { result ≡ proc_macros.is_proc_macro def }
{
    match def {
        Def::Macro(MacroId::ProcMacro(_)) => true,
        _ => false,
    }
}

/// Whether other crates do not see what has this visibility.
fn is_hidden(vis: Visibility) -> bool
    ensures same { IsTrue result → proc_macros.crate_only vis ≡ vis }
    ensures public { IsFalse result → vis ≡ Public }
{
    match vis {
        Visibility::Public => false,
        _ => true,
    }
}

/// Censors the unnamed traits of a module.
fn censor_traits(table: &mut Table, at: ModuleId) -> Result<(), AllocError>
    requires { ListsOnce (bound_by table.old) at }
    ensures { OnOk result (bound_by table.new ≡ censored_traits at (bound_by table.old)) }
{
    let mut index = 0;
    'traits: while let Some(held) = table.unnamed_at(at, index) {
        censor_trait(table, at, index, held)?;
        index += 1;
    }
    Ok(())
}

/// Censors the unnamed trait at a place of a module. What stays is not written again.
fn censor_trait(
    table: &mut Table,
    at: ModuleId,
    index: usize,
    held: (TraitId, Visibility),
) -> Result<(), AllocError>
    requires there { Some held ≡ slice_get ((bound_by table.old).unnamed at) index }
    requires once { ListsOnce (bound_by table.old) at }
    ensures { OnOk result (bound_by table.new ≡ censored_trait at index (bound_by table.old)) }
{
    if is_hidden(held.1) {
        return Ok(());
    }
    table.set_unnamed(at, held.0, Visibility::PubCrate)
}
