//! Scripts of calls over each table of bindings, whose answers are compared.

mod answers;
mod calls;
mod plain_table;
mod scripts;
mod travels;

use answers::{Answers, ask};
use calls::call;
use def_bindings::{Binding, BindingTable, ModuleTree, Namespace, Visibility};
use def_ids::{Def, FunctionId, GlobId, MapId, ModuleId, UseId};
use def_map::Table;
use def_parts::Globs;
use def_tables::{NumberedTable, ScopeTable};
use item_tree::{Crate, Name, Seq};
use plain_table::PlainTable;
use scripts::{CHAIN, SCRIPTS, Script, Step};
use std::alloc::{AllocError, Global};
use std::test::Fail;

/// The map of the modules.
const MAP: MapId = MapId {
    krate: Crate(0),
    block: None,
};

/// A map with a module that no script asks of.
const ANOTHER: MapId = MapId {
    krate: Crate(3),
    block: None,
};

/// How many modules the tree has.
const MODULES: usize = 5;

/// A module of the map.
fn module(index: usize) -> ModuleId {
    ModuleId { map: MAP, index }
}

/// A namespace, by its number.
fn namespace(k: usize) -> Namespace {
    match k % 3 {
        0 => Namespace::Types,
        1 => Namespace::Values,
        _ => Namespace::Macros,
    }
}

fn glob(number: usize) -> GlobId {
    GlobId {
        use_id: UseId(number),
        idx: 0,
    }
}

/// The order of a root with two modules, in each of which there is one more. None where no module
/// contains the map.
fn module_tree(alloc: Global) -> Result<Option<ModuleTree>, AllocError> {
    let Some(mut tree) = ModuleTree::new(alloc, MAP, Seq::from_vec(Vec::new(alloc)))? else {
        return Ok(None);
    };
    tree.add(0)?;
    tree.add(1)?;
    tree.add(0)?;
    tree.add(3)?;
    Ok(Some(tree))
}

/// Records the answers to the questions of a script.
fn record<T: BindingTable<Vis = Visibility>>(
    table: &T,
    script: &Script,
    found: &mut Vec<Answers>,
) -> Result<(), AllocError> {
    for number in 0..CHAIN + 1 {
        let Some(asked) = script.question(number) else {
            return Ok(());
        };
        found.push(ask(table, &asked))?;
    }
    Ok(())
}

/// Makes the calls of a script, and asks after each.
fn call_all<T: BindingTable<Vis = Visibility>>(
    table: &mut T,
    script: &Script,
    found: &mut Vec<Answers>,
) -> Result<(), AllocError> {
    for k in 0..script.calls() {
        call(table, k)?;
        record(table, script, found)?;
    }
    Ok(())
}

/// Takes a step.
fn take<T: BindingTable<Vis = Visibility>>(
    globs: &mut Globs<T>,
    order: &ModuleTree,
    step: &Step,
) -> Result<(), AllocError> {
    match step {
        Step::Edge(source, importer, vis, glob) => {
            globs.add_edge(order, *source, *importer, *vis, *glob)
        }
        Step::List(place, first, None) => globs.update(order, *place, &[*first]),
        Step::List(place, first, Some(second)) => globs.update(order, *place, &[*first, *second]),
    }
}

/// Takes the steps of a script, and asks where it asks.
fn take_all<T: BindingTable<Vis = Visibility>>(
    globs: &mut Globs<T>,
    order: &ModuleTree,
    script: &Script,
    found: &mut Vec<Answers>,
) -> Result<(), AllocError> {
    for number in 0..CHAIN + 1 {
        if let Some(step) = script.step(number) {
            take(globs, order, &step)?;
        }
        if script.asks_after(number) {
            record(globs.table(), script, found)?;
        }
    }
    Ok(())
}

/// What an empty table answers in the course of a script.
fn play<T: BindingTable<Vis = Visibility> + Drop>(
    alloc: Global,
    order: &ModuleTree,
    script: &Script,
    table: T,
) -> Result<Vec<Answers>, AllocError> {
    let mut found = Vec::new(alloc);
    let mut table = table;
    call_all(&mut table, script, &mut found)?;
    let mut globs = Globs::new(alloc, table);
    take_all(&mut globs, order, script, &mut found)?;
    Ok(found)
}

fn by_numbers(
    alloc: Global,
    order: &ModuleTree,
    script: &Script,
) -> Result<Vec<Answers>, AllocError> {
    play(alloc, order, script, NumberedTable::new(alloc)?)
}

/// The same, by the table that maps have, which keeps visibilities by number.
fn in_short(
    alloc: Global,
    order: &ModuleTree,
    script: &Script,
) -> Result<Vec<Answers>, AllocError> {
    let table = Table::of_map(alloc, MAP)?;
    play(alloc, order, script, table)
}

/// The same, by a table that is another map's, since that was bound in first.
fn by_whole_places(
    alloc: Global,
    order: &ModuleTree,
    script: &Script,
) -> Result<Vec<Answers>, AllocError> {
    let mut table = Table::of_map(alloc, MAP)?;
    let root = ModuleId {
        map: ANOTHER,
        index: 0,
    };
    let binding = Binding {
        def: Def::Function(FunctionId(0)),
        vis: Visibility::Module(root),
        import: None,
    };
    table.set(root, Name(0), Namespace::Values, binding)?;
    play(alloc, order, script, table)
}

fn by_scopes(
    alloc: Global,
    order: &ModuleTree,
    script: &Script,
) -> Result<Vec<Answers>, AllocError> {
    play(alloc, order, script, ScopeTable::new(alloc)?)
}

fn by_required_calls(
    alloc: Global,
    order: &ModuleTree,
    script: &Script,
) -> Result<Vec<Answers>, AllocError> {
    let table = ScopeTable::new(alloc)?;
    play(alloc, order, script, PlainTable { table })
}

/// Whether all that is wanted is answered.
fn are_wanted(script: &Script, found: &[Answers]) -> bool {
    for (number, answers) in found.iter().enumerate() {
        if !script.is_wanted(answers, number) {
            return false;
        }
    }
    found.len() == script.answers()
}

/// Whether all tables answer alike in the course of a script, and as is wanted.
fn are_alike(alloc: Global, order: &ModuleTree, script: &Script) -> Result<bool, AllocError> {
    let found = by_numbers(alloc, order, script)?;
    Ok(
        are_wanted(script, found.as_slice())
            && in_short(alloc, order, script)? == found
            && by_whole_places(alloc, order, script)? == found
            && by_scopes(alloc, order, script)? == found
            && by_required_calls(alloc, order, script)? == found,
    )
}

/// Whether a script runs as is wanted in modules of the tree.
fn holds(alloc: Global, script: &Script) -> Result<bool, AllocError> {
    match module_tree(alloc)? {
        Some(order) => are_alike(alloc, &order, script),
        None => Ok(false),
    }
}

#[test]
fn tables_answer_alike(rt: HostRuntime) -> Result<(), Fail> {
    for (rule, script) in &SCRIPTS {
        assert!(rt; holds(rt.alloc(), script)?, "{rule}");
    }
    Ok(())
}
