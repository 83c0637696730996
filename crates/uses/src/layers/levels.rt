//! Names that travel along globs whose visibilities are of another order: three levels.
#![tactic(auto)]

use def_bindings::{Binding, BindingTable, Entry, ImportOrExternCrate, Namespace, VisOrder};
use def_ids::{Def, GlobId, MapId, ModuleId, StructId, UseId};
use def_parts::Globs;
use def_tables::ScopeTable;
use item_tree::{Crate, Name};
use std::alloc::{AllocError, Global};
use std::test::Fail;

/// Levels, each greater than those before it.
#[derive(Clone, Copy, PartialEq)]
pub enum Level {
    Low,
    Middle,
    High,
}

/// What has a rank.
trait Ranked {
    ghost use Rattle.std.specs.Prelude.{◌≡◌, ℕ};

    ghost rank: { Self → ℕ };

    fn rank(self) -> usize
        ensures { result ≡ rank self };
}

impl Ranked for Level {
    ghost use Rattle.uses.specs.declared.layers.levels.Level.TheVariants.{Low, Middle, High};

    ghost rank = { elim [ Low ↦ 0 | Middle ↦ 1 | High ↦ 2 ] };

    fn rank(self) -> usize {
        match self {
            Level::Low => 0,
            Level::Middle => 1,
            Level::High => 2,
        }
    }
}

/// The order of levels. A module sees those whose rank is at least its place.
pub struct Levels;

impl VisOrder for Levels {
    ghost use Rattle.std.specs.Prelude.{◌==◌, if◌then◌else◌, refl};
    ghost use Rattle.uses.specs.declared.layers.levels.Level.TheVariants.{Low, Middle, High};
    ghost use Rattle.uses.specs.Levels.{order_by, order_by_is_lawful};

    type Vis = Level;

    ghost order = { λ _. order_by ⟦<Level as Ranked>⟧.rank };

    ghost height = { λ _. 3 };

    fn max(&self, a: Level, b: Level) -> Option<Level> {
        if a.rank() <= b.rank() {
            Some(b)
        } else {
            Some(a)
        }
    }

    fn min(&self, a: Level, b: Level) -> Option<Level> {
        if a.rank() <= b.rank() {
            Some(a)
        } else {
            Some(b)
        }
    }

    fn visible(&self, vis: Level, place: ModuleId) -> bool {
        place.index <= vis.rank()
    }

    fn same(&self, a: Level, b: Level) -> bool {
        a == b
    }

    ghost lawful = { λ _. order_by_is_lawful ⟦<Level as Ranked>⟧.rank 3
        (λ n. if n == 0 then Low else (if n == 1 then Middle else High))
        (elim [ Low ↦ refl | Middle ↦ refl | High ↦ refl ])
        (elim [ Low ↦ refl | Middle ↦ refl | High ↦ refl ]) };
}

/// What a name stands for in a module: at which level, and by which glob, if not by its declaration.
type Found = Option<(Level, Option<usize>)>;

/// The level at which a name is declared in module 0, and what it stands for in modules 0, 1 and 2.
type Row = (&'static str, Level, [Found; 3]);

static ROWS: [Row; 2] = [
    (
        "a name travels round a cycle",
        Level::High,
        [
            Some((Level::High, None)),
            Some((Level::High, Some(0))),
            Some((Level::Middle, Some(1))),
        ],
    ),
    (
        "a name stops where it is not seen",
        Level::Middle,
        [
            Some((Level::Middle, None)),
            Some((Level::Middle, Some(0))),
            None,
        ],
    ),
];

/// The name that travels.
const NAME: Name = Name(40);

/// What declares it.
const DEF: Def = Def::Struct(StructId(1));

fn module(index: usize) -> ModuleId {
    let map = MapId {
        krate: Crate(0),
        block: None,
    };
    ModuleId { map, index }
}

fn glob(number: usize) -> GlobId {
    GlobId {
        use_id: UseId(number),
        idx: 0,
    }
}

/// Lets each of three modules be imported by the next, and the last by the first, at lower and lower
/// levels.
fn add_cycle<T: BindingTable<Vis = Level>>(globs: &mut Globs<T>) -> Result<(), AllocError> {
    globs.add_edge(&Levels, module(0), module(1), Level::High, glob(0))?;
    globs.add_edge(&Levels, module(1), module(2), Level::Middle, glob(1))?;
    globs.add_edge(&Levels, module(2), module(0), Level::Low, glob(2))
}

/// Whether this is what a name stands for.
fn is_found(binding: Option<Binding<Level>>, found: Found) -> bool {
    match (binding, found) {
        (Some(binding), Some((level, number))) => {
            let import = match number {
                Some(number) => Some(ImportOrExternCrate::Glob(glob(number))),
                None => None,
            };
            binding.def == DEF && binding.vis == level && binding.import == import
        }
        (None, None) => true,
        _ => false,
    }
}

/// Whether this is what the name stands for in each module.
fn are_found<T: BindingTable<Vis = Level>>(table: &T, found: &[Found; 3]) -> bool {
    for index in 0..3 {
        let binding = table.binding(module(index), NAME, Namespace::Types);
        if !is_found(binding, found[index]) {
            return false;
        }
    }
    true
}

/// Whether a row holds.
fn holds(alloc: Global, row: &Row) -> Result<bool, AllocError> {
    let (_, level, found) = row;
    let mut globs = Globs::new(alloc, ScopeTable::new(alloc)?);
    add_cycle(&mut globs)?;
    let declared = Entry {
        name: Some(NAME),
        ns: Namespace::Types,
        def: DEF,
        vis: *level,
        origin: None,
    };
    globs.update(&Levels, module(0), &[declared])?;
    Ok(are_found(globs.table(), found))
}

#[test]
fn levels_are_an_order(rt: HostRuntime) -> Result<(), Fail> {
    for row in &ROWS {
        assert!(rt; holds(rt.alloc(), row)?, "{}", row.0);
    }
    Ok(())
}
