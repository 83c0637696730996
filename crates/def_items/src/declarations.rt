//! Names that items declare: each definition is recorded in its module, and put there.
ghost use Rattle.std.specs.Prelude.{◌≡◌, ◌∷◌, [], cond, Some, OnOk};
ghost use Rattle.def_bindings.specs.Content.{without_binding};
ghost use Rattle.def_bindings.specs.declared.bindings.Namespace.TheVariants.{Values};
ghost use Rattle.def_map.specs.Oracle.{Oracle};
ghost use Rattle.def_items.specs.Parts.{with_parts};
ghost use Rattle.def_laws.specs.Performs.{Performs, Updated};
ghost use Rattle.def_rules.specs.Items.{declared_effect, declared_entry, struct_effect};
ghost use Rattle.def_rules.specs.ProcMacros.{binds_function, is_function};
ghost use Rattle.def_rules.specs.State.{State};
ghost use Rattle.def_sources.specs.Tables.{bound_by};

use def_bindings::{BindingTable, Entry, Namespace, Visibility, lesser_or_import};
use def_globs::Globs;
use def_ids::{Def, FunctionId, ModuleId};
use def_map::{MapData, Table};
use item_tree::Name;
use std::alloc::AllocError;

/// A definition, the name that it is declared under, and how visible it is.
#[derive(Clone, Copy)]
pub struct Definition {
    pub name: Name,
    pub def: Def,
    pub vis: Visibility,
}

impl Definition {
    /// Its entry in a namespace.
    pub fn entry(self, ns: Namespace) -> Entry<Visibility>
        ensures { result ≡ declared_entry self.name ns self.def self.vis }
    {
        Entry {
            name: Some(self.name),
            ns,
            def: self.def,
            vis: self.vis,
            origin: None,
        }
    }
}

/// Puts entries in a module, and lets what changes travel along the edges of globs. On `Err`
/// nothing but safety is promised.
pub fn put(
    def_map: &MapData,
    table: &mut Globs<Table>,
    module_id: ModuleId,
    list: &[Entry<Visibility>],
) -> Result<(), AllocError>
    ensures { OnOk result ((s : State) →
        Updated module_id list.now (with_parts s def_map.now table.old) (with_parts s def_map.now table.new)) }
{
    table.update(&def_map.tree, module_id, list)?;
    Ok(())
}

/// Takes a function out of the values of a module, where the module binds it.
pub fn take_out(table: &mut Globs<Table>, module_id: ModuleId, name: Name, function: FunctionId)
    ensures { bound_by table.new ≡ cond (binds_function (bound_by table.old) module_id name function)
        (without_binding (bound_by table.old) module_id name Values) (bound_by table.old) }
{
    if binds_function(table.table(), module_id, name, function) {
        table.remove(module_id, name, Namespace::Values);
    }
}

/// Whether a module binds a function to a name in values.
fn binds_function(table: &Table, module_id: ModuleId, name: Name, function: FunctionId) -> bool
    ensures { result ≡ binds_function (bound_by table.now) module_id name function }
{
    match table.binding(module_id, name, Namespace::Values) {
        Some(held) => is_function(held.def, function),
        None => false,
    }
}

/// Whether a definition is this function.
fn is_function(def: Def, function: FunctionId) -> bool
    ensures { result ≡ is_function function def }
{
    match def {
        Def::Function(found) => function.0 == found.0,
        _ => false,
    }
}

/// Says how many names a module without names may get.
pub fn expect_names(table: &mut Globs<Table>, module_id: ModuleId, names: usize)
    ensures { bound_by table.new ≡ bound_by table.old }
{
    table.expect_names(module_id, names);
}

/// Declares a definition in one namespace. On `Err` nothing but safety is promised.
#[inline(always)]
pub fn define(
    def_map: &mut MapData,
    table: &mut Globs<Table>,
    module_id: ModuleId,
    ns: Namespace,
    defined: Definition,
) -> Result<(), AllocError>
    ensures { OnOk result ((oracle : Oracle) (s : State) →
        let effect = declared_effect (with_parts s def_map.old table.old) module_id defined.name ns defined.def defined.vis in
        Performs oracle effect.tasks effect.state (with_parts s def_map.new table.new)) }
{
    def_map.declare(module_id.index, defined.def)?;
    put(def_map, table, module_id, &[defined.entry(ns)])?;
    Ok(())
}

/// Declares a struct in types, and its constructor in values, where it has one. On `Err` nothing but
/// safety is promised.
pub fn define_struct(
    def_map: &mut MapData,
    table: &mut Globs<Table>,
    module_id: ModuleId,
    defined: Definition,
    ctor_vis: Option<Visibility>,
) -> Result<(), AllocError>
    ensures { OnOk result ((oracle : Oracle) (s : State) →
        let effect = struct_effect (with_parts s def_map.old table.old) module_id defined.name defined.def defined.vis ctor_vis in
        Performs oracle effect.tasks effect.state (with_parts s def_map.new table.new)) }
{
    match ctor_vis {
        Some(ctor_vis) => define_with_ctor(def_map, table, module_id, defined, ctor_vis),
        None => define(def_map, table, module_id, Namespace::Types, defined),
    }
}

/// Declares a struct in types, and in values its constructor, which is at most as visible as the
/// struct. It stands apart, since most structs have no constructor to declare. On `Err` nothing but
/// safety is promised.
#[inline(never)]
fn define_with_ctor(
    def_map: &mut MapData,
    table: &mut Globs<Table>,
    module_id: ModuleId,
    defined: Definition,
    ctor_vis: Visibility,
) -> Result<(), AllocError>
    ensures { OnOk result ((oracle : Oracle) (s : State) →
        let effect = struct_effect (with_parts s def_map.old table.old) module_id defined.name defined.def defined.vis (Some ctor_vis) in
        Performs oracle effect.tasks effect.state (with_parts s def_map.new table.new)) }
{
    let module = module_id.index;
    def_map.declare(module, defined.def)?;
    let types = defined.entry(Namespace::Types);
    let vis = lesser_or_import(&def_map.tree, ctor_vis, defined.vis);
    let values = Definition { vis, ..defined }.entry(Namespace::Values);
    put(def_map, table, module_id, &[types, values])?;
    Ok(())
}
