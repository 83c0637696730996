//! Locations of each kind, and what a session knows after another one.

use def_ids::{
    Adt, BuiltinDeriveImplLoc, ConstLoc, CustomProcMacroExpander, Edition, EnumLoc, ExternBlockLoc,
    ExternCrateLoc, FunctionLoc, ImplLoc, ItemContainerId, Macro2Loc, MacroExpander, MacroRulesLoc,
    MapId, ModuleId, ProcMacroLoc, ProcMacroUse, StaticLoc, StructId, StructLoc, TraitLoc,
    TypeAliasLoc, UnionLoc, UseLoc,
};
use def_interner::{Exact, Interner, Location, Numbering};
use item_tree::{AttrId, Crate, FileAstId, FileId, HirFileId, InFile, MacroRulesLocFlags, Name};
use std::alloc::AllocError;
use std::hash::Hash;

/// How many kinds of locations there are.
pub const KINDS: usize = 16;

/// A module of a crate that no workspace has.
const MODULE: ModuleId = ModuleId {
    map: MapId {
        krate: Crate(1_000),
        block: None,
    },
    index: 0,
};

const CONTAINER: ItemContainerId = ItemContainerId::Module(MODULE);

/// The position of an item of a file that no workspace has.
fn position(number: usize) -> InFile<FileAstId> {
    InFile {
        file: HirFileId::File(FileId(1_000)),
        value: FileAstId(number),
    }
}

/// Interns a location, and forgets its id.
fn add<L: Location>(session: &mut Interner, loc: L) -> Result<(), AllocError> {
    loc.intern(session)?;
    Ok(())
}

/// Interns the location of an item in a module: one of a kind, and of a number.
fn add_item(session: &mut Interner, kind: usize, number: usize) -> Result<(), AllocError> {
    let (container, position) = (MODULE, position(number));
    match kind {
        0 => add(
            session,
            StructLoc {
                container,
                position,
            },
        ),
        1 => add(
            session,
            UnionLoc {
                container,
                position,
            },
        ),
        2 => add(
            session,
            EnumLoc {
                container,
                position,
            },
        ),
        3 => add(
            session,
            TraitLoc {
                container,
                position,
            },
        ),
        4 => add(
            session,
            ImplLoc {
                container,
                position,
            },
        ),
        5 => add(
            session,
            UseLoc {
                container,
                position,
            },
        ),
        6 => add(
            session,
            ExternCrateLoc {
                container,
                position,
            },
        ),
        _ => add(
            session,
            ExternBlockLoc {
                container,
                position,
            },
        ),
    }
}

/// Interns the location of an item that a trait may have.
fn add_value(session: &mut Interner, kind: usize, number: usize) -> Result<(), AllocError> {
    let (container, position) = (CONTAINER, position(number));
    match kind {
        8 => add(
            session,
            FunctionLoc {
                container,
                position,
            },
        ),
        9 => add(
            session,
            ConstLoc {
                container,
                position,
            },
        ),
        10 => add(
            session,
            StaticLoc {
                container,
                position,
            },
        ),
        _ => add(
            session,
            TypeAliasLoc {
                container,
                position,
            },
        ),
    }
}

/// Interns the location of a macro.
fn add_macro(session: &mut Interner, kind: usize, number: usize) -> Result<(), AllocError> {
    let (container, position) = (MODULE, position(number));
    let expander = MacroExpander::UnimplementedBuiltIn;
    let (flags, edition) = (MacroRulesLocFlags::LOCAL_INNER, Edition::Edition2021);
    match kind {
        12 => add(
            session,
            MacroRulesLoc {
                container,
                position,
                expander,
                flags,
                edition,
            },
        ),
        13 => add(
            session,
            Macro2Loc {
                container,
                position,
                expander,
                flags,
                edition,
            },
        ),
        _ => add(
            session,
            ProcMacroLoc {
                container,
                position,
                expander: CustomProcMacroExpander::Missing,
                kind: ProcMacroUse::Bang,
                edition,
            },
        ),
    }
}

/// Interns a location of a kind, that of the item of this number.
pub fn add_location(session: &mut Interner, kind: usize, number: usize) -> Result<(), AllocError> {
    match kind {
        0..=7 => add_item(session, kind, number),
        8..=11 => add_value(session, kind, number),
        12..=14 => add_macro(session, kind, number),
        _ => add(
            session,
            BuiltinDeriveImplLoc {
                adt: Adt::Struct(StructId(0)),
                derived: 0,
                attr: AttrId(0),
                pos: number,
            },
        ),
    }
}

/// How many locations of a kind a session knows.
pub fn count(session: &Interner, kind: usize) -> usize {
    match kind {
        0 => session.structs.len(),
        1 => session.unions.len(),
        2 => session.enums.len(),
        3 => session.traits.len(),
        4 => session.impls.len(),
        5 => session.uses.len(),
        6 => session.extern_crates.len(),
        7 => session.extern_blocks.len(),
        8 => session.functions.len(),
        9 => session.consts.len(),
        10 => session.statics.len(),
        11 => session.type_aliases.len(),
        12 => session.macro_rules.len(),
        13 => session.macro2s.len(),
        14 => session.proc_macros.len(),
        _ => session.builtin_derive_impls.len(),
    }
}

/// Interns a location of each kind, and a name.
pub fn fill(session: &mut Interner) -> Result<(), AllocError> {
    for kind in 0..KINDS {
        add_location(session, kind, 0)?;
    }
    session.intern_name("a name that no workspace has")?;
    Ok(())
}

/// Whether all values have the numbers that they had before.
fn has_all<T: Exact + Hash + Drop>(before: &Numbering<T>, after: &Numbering<T>) -> bool {
    for number in 0..before.len() {
        if before.value(number) != after.value(number) {
            return false;
        }
    }
    true
}

/// Whether all names have the texts that they had before.
fn has_names(before: &Interner, after: &Interner) -> bool {
    for number in 0..usize::MAX {
        let text = before.text(Name(number));
        if text.is_none() {
            break;
        }
        if after.text(Name(number)) != text {
            return false;
        }
    }
    true
}

/// Whether all items in modules have the locations that they had before.
fn has_items(before: &Interner, after: &Interner) -> bool {
    has_all(&before.structs, &after.structs)
        && has_all(&before.unions, &after.unions)
        && has_all(&before.enums, &after.enums)
        && has_all(&before.traits, &after.traits)
        && has_all(&before.impls, &after.impls)
        && has_all(&before.uses, &after.uses)
        && has_all(&before.extern_crates, &after.extern_crates)
        && has_all(&before.extern_blocks, &after.extern_blocks)
}

/// Whether all items that a trait may have have the locations that they had before.
fn has_values(before: &Interner, after: &Interner) -> bool {
    has_all(&before.functions, &after.functions)
        && has_all(&before.consts, &after.consts)
        && has_all(&before.statics, &after.statics)
        && has_all(&before.type_aliases, &after.type_aliases)
}

/// Whether all macros, and the impls of derives, have the locations that they had before.
fn has_macros(before: &Interner, after: &Interner) -> bool {
    has_all(&before.macro_rules, &after.macro_rules)
        && has_all(&before.macro2s, &after.macro2s)
        && has_all(&before.proc_macros, &after.proc_macros)
        && has_all(&before.builtin_derive_impls, &after.builtin_derive_impls)
}

/// Whether every name and every id of a session means in another one what it means in the first.
pub fn knows_all(before: &Interner, after: &Interner) -> bool {
    has_names(before, after)
        && has_items(before, after)
        && has_values(before, after)
        && has_macros(before, after)
}
