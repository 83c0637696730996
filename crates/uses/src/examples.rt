//! The examples of the library's use, at work.

mod assoc_items;
mod attributes;
mod blocks;
mod calls;
mod collecting;
mod dependencies;
mod derives;
pub mod items;
mod macros;
mod one_file;
mod oracle;
mod reading;
mod two_files;

use hir_def::{Collected, Def, FunctionId, Interner, Name, StructId};
use one_file::{CALL, position};
use oracle::database;
use reading::{derive_at, first_left_over, is_recorded, type_at_path, type_in_scope};
use std::alloc::{AllocError, Global};
use std::test::Fail;

/// The one struct of each example.
const STRUCT: Def = Def::Struct(StructId(0));

/// Whether a name means the struct in each of the first modules.
fn is_struct(collected: &Collected, modules: usize, name: Name) -> bool {
    for module in 0..modules {
        if type_in_scope(collected, module, name) != Some(STRUCT) {
            return false;
        }
    }
    true
}

/// Whether the second file of a crate is found.
fn finds_second_file(alloc: Global) -> Result<bool, AllocError> {
    let mut session = Interner::new(alloc)?;
    let db = database(alloc, &mut session)?;
    let collected = two_files::collect(alloc, &mut session, &db)?;
    let name = session.intern_name("S")?;
    let at_path = type_at_path(alloc, &mut session, &db, &collected, &["a", "S"])?;
    Ok(
        is_struct(&collected, 2, name)
            && at_path == Some(STRUCT)
            && first_left_over(&session, &collected) == Some("T"),
    )
}

/// Whether a crate takes a name of another one.
fn takes_of_another(alloc: Global) -> Result<bool, AllocError> {
    let mut session = Interner::new(alloc)?;
    let collected = dependencies::collect(alloc, &mut session)?;
    let name = session.intern_name("S")?;
    Ok(is_struct(&collected, 1, name) && collected.outcome.imports.is_empty())
}

/// Whether a block sees the names around it.
fn sees_around(alloc: Global) -> Result<bool, AllocError> {
    let mut session = Interner::new(alloc)?;
    let Some(collected) = blocks::collect(alloc, &mut session)? else {
        return Ok(false);
    };
    let name = session.intern_name("T")?;
    Ok(is_struct(&collected, 1, name))
}

/// Whether a call's expansion stands where the call does.
fn expands_a_call(alloc: Global) -> Result<bool, AllocError> {
    let mut session = Interner::new(alloc)?;
    let collected = calls::collect(alloc, &mut session)?;
    let name = session.intern_name("S")?;
    Ok(
        is_struct(&collected, 1, name)
            && is_recorded(&collected, position(calls::PLACE), CALL)
            && collected.outcome.macros.is_empty(),
    )
}

/// Whether an attribute's expansion stands in the place of its item.
fn replaces_an_item(alloc: Global) -> Result<bool, AllocError> {
    let mut session = Interner::new(alloc)?;
    let collected = attributes::collect(alloc, &mut session)?;
    let name = session.intern_name("S")?;
    let replaced = session.intern_name("T")?;
    Ok(
        is_struct(&collected, 1, name)
            && type_in_scope(&collected, 0, replaced).is_none()
            && is_recorded(&collected, position(attributes::PLACE), CALL),
    )
}

/// Whether a derive's expansion stands beside its item.
fn derives_beside_an_item(alloc: Global) -> Result<bool, AllocError> {
    let mut session = Interner::new(alloc)?;
    let collected = derives::collect(alloc, &mut session)?;
    let name = session.intern_name("S")?;
    let item = session.intern_name("T")?;
    Ok(
        type_in_scope(&collected, 0, name).is_some()
            && type_in_scope(&collected, 0, item).is_some()
            && derive_at(&collected, derives::place()) == Some(CALL),
    )
}

/// Whether a copy of a trait's items has the function that a macro gives beside those written.
fn has_given_items(alloc: Global) -> Result<bool, AllocError> {
    let mut session = Interner::new(alloc)?;
    let Some(items) = assoc_items::collect(alloc, &mut session)? else {
        return Ok(false);
    };
    let items = items.clone()?;
    Ok(
        items.method_by_name(&session.intern_name("b")?) == Some(FunctionId(1))
            && items
                .associated_type_by_name(&session.intern_name("c")?)
                .is_some()
            && items
                .assoc_item_by_name(&session.intern_name("m")?)
                .is_none(),
    )
}

/// Whether the trait of an oracle of one's own has the function that is written and the one that a
/// macro gives.
fn finds_both_methods(alloc: Global) -> Result<bool, AllocError> {
    Ok(own_oracle::methods(alloc)? == Some((FunctionId(0), FunctionId(1))))
}

#[test]
fn examples_find_what_they_name(rt: HostRuntime) -> Result<(), Fail> {
    let alloc = rt.alloc();
    let examples = [
        ("two files", finds_second_file(alloc)?),
        ("dependencies", takes_of_another(alloc)?),
        ("blocks", sees_around(alloc)?),
        ("calls", expands_a_call(alloc)?),
        ("attributes", replaces_an_item(alloc)?),
        ("derives", derives_beside_an_item(alloc)?),
        ("associated items", has_given_items(alloc)?),
        ("an oracle of one's own", finds_both_methods(alloc)?),
    ];
    for (example, finds) in examples {
        assert!(rt; finds, "{example}");
    }
    Ok(())
}
