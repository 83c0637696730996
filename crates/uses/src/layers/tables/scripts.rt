//! What is done with a table, what is asked of it then, and what is wanted of its answers.

use super::answers::{Answers, Question};
use super::travels::travel;
use super::{MAP, MODULES, glob, module};
use def_bindings::{Binding, Entry, ImportOrExternCrate, Namespace, Visibility};
use def_ids::{Def, GlobId, ModuleId, StructId, UseId};
use item_tree::{Crate, Name};

/// How many calls a list of calls has.
const CALLS: usize = 200;

/// How many questions are asked after each call: of so many modules, at so many places.
const ASKED: usize = 6 * PLACES;

const PLACES: usize = 8;

/// The number of the first answer after the last call.
const LAST: usize = (CALLS - 1) * ASKED;

/// How many edges a chain has. No script has more steps before its last one.
pub const CHAIN: usize = 1_000;

/// How many modules import each other.
const CROWD: usize = 20;

/// The crates of the modules of a chain and of a crowd.
const CHAINED: Crate = Crate(1);

const CROWDED: Crate = Crate(2);

/// The name that travels.
const NAME: Name = Name(40);

/// What declares it.
const DEF: Def = Def::Struct(StructId(1));

/// What declares a name elsewhere.
const OTHER_DEF: Def = Def::Struct(StructId(2));

/// What the module 1 sees, in which the module 2 lies, and what the module 2 alone sees.
const MIDDLE_VIS: Visibility = Visibility::Module(ModuleId { map: MAP, index: 1 });

const LOW_VIS: Visibility = Visibility::Module(ModuleId { map: MAP, index: 2 });

/// The name, declared for all modules.
const DECLARED: Entry<Visibility> = Entry {
    name: Some(NAME),
    ns: Namespace::Types,
    def: DEF,
    vis: Visibility::Public,
    origin: None,
};

/// The name, declared for fewer.
const MIDDLE: Entry<Visibility> = Entry {
    vis: MIDDLE_VIS,
    ..DECLARED
};

/// The name, declared a second time.
const AGAIN: Entry<Visibility> = Entry {
    def: OTHER_DEF,
    ..DECLARED
};

/// Another name.
const OTHER: Entry<Visibility> = Entry {
    name: Some(Name(41)),
    ..AGAIN
};

/// The name where it is declared for all.
const BOUND: Binding<Visibility> = Binding {
    def: DEF,
    vis: Visibility::Public,
    import: None,
};

/// The name as the globs 0, 1 and 2 bring it.
const BY_0: Binding<Visibility> = Binding {
    import: Some(ImportOrExternCrate::Glob(GlobId {
        use_id: UseId(0),
        idx: 0,
    })),
    ..BOUND
};

const BY_1: Binding<Visibility> = Binding {
    import: Some(ImportOrExternCrate::Glob(GlobId {
        use_id: UseId(1),
        idx: 0,
    })),
    ..BOUND
};

const BY_2: Binding<Visibility> = Binding {
    import: Some(ImportOrExternCrate::Glob(GlobId {
        use_id: UseId(2),
        idx: 0,
    })),
    ..BOUND
};

/// The name as the globs 0 and 1 bring it where fewer see it.
const MIDDLE_BY_0: Binding<Visibility> = Binding {
    vis: MIDDLE_VIS,
    ..BY_0
};

const MIDDLE_BY_1: Binding<Visibility> = Binding {
    vis: MIDDLE_VIS,
    ..BY_1
};

/// The other name as the glob 0 brings it.
const OTHER_BY_0: Binding<Visibility> = Binding {
    def: OTHER_DEF,
    ..BY_0
};

/// The edge of a glob: its source, its importer, and from where it is seen.
type Edge = (usize, usize, Visibility);

/// A list that a module is given.
type List = (usize, &'static [Entry<Visibility>]);

/// A module, a place among its names, a name, and what that stands for in types. Where it stands
/// for something it is the name at the place.
type Want = (usize, usize, Name, Option<Binding<Visibility>>);

/// The edges of the globs 0, 1 and so on, the lists that modules are given then, and what is bound in
/// the end.
pub struct Row {
    edges: &'static [Edge],
    lists: &'static [List],
    want: &'static [Want],
}

/// What is done while names travel in a table.
#[derive(Clone, Copy)]
pub enum Step {
    /// An edge is recorded: its source, its importer, from where it is seen, and its glob.
    Edge(ModuleId, ModuleId, Visibility, GlobId),
    /// A module is given a list of one entry, or of two.
    List(ModuleId, Entry<Visibility>, Option<Entry<Visibility>>),
}

/// What is done with a table.
pub enum Script {
    /// Calls of the table itself.
    Calls,
    /// Calls while names travel in it.
    Travels,
    Row(Row),
    /// A name is declared in the first of many modules, each of which the next one imports.
    Chain,
    /// A name is declared in the first of some modules, each of which imports each.
    Crowd,
}

/// Each of three modules, which lie in each other, is imported by the one around it, and the last by
/// the first, with lower and lower visibilities.
const CYCLE: &[Edge] = &[
    (2, 1, Visibility::Public),
    (1, 0, MIDDLE_VIS),
    (0, 2, LOW_VIS),
];

/// The name, declared in the first module.
static IN_FIRST: List = (0, &[DECLARED]);

/// What each script shows.
pub static SCRIPTS: [(&str, Script); 9] = [
    ("tables answer alike", Script::Calls),
    ("names travel alike", Script::Travels),
    (
        "a name travels round a cycle",
        Script::Row(Row {
            edges: CYCLE,
            lists: &[(2, &[DECLARED])],
            want: &[
                (2, 0, NAME, Some(BOUND)),
                (1, 0, NAME, Some(BY_0)),
                (0, 0, NAME, Some(MIDDLE_BY_1)),
            ],
        }),
    ),
    (
        "a wave follows the first edge to its end",
        Script::Row(Row {
            edges: &[
                (0, 1, Visibility::Public),
                (0, 2, Visibility::Public),
                (1, 2, Visibility::Public),
            ],
            lists: &[(0, &[DECLARED])],
            want: &[(2, 0, NAME, Some(BY_2))],
        }),
    ),
    (
        "names travel in the order of the list",
        Script::Row(Row {
            edges: &[(0, 1, Visibility::Public)],
            lists: &[(0, &[DECLARED, OTHER])],
            want: &[(1, 0, NAME, Some(BY_0)), (1, 1, Name(41), Some(OTHER_BY_0))],
        }),
    ),
    (
        "a name stops where it is not seen",
        Script::Row(Row {
            edges: CYCLE,
            lists: &[(2, &[MIDDLE])],
            want: &[(1, 0, NAME, Some(MIDDLE_BY_0)), (0, 0, NAME, None)],
        }),
    ),
    (
        "the first of two globs keeps the place",
        Script::Row(Row {
            edges: &[(1, 0, Visibility::Public), (2, 0, Visibility::Public)],
            lists: &[(1, &[DECLARED]), (2, &[AGAIN])],
            want: &[(0, 0, NAME, Some(BY_0))],
        }),
    ),
    ("a late name travels to the end of a chain", Script::Chain),
    ("a name travels through a crowd", Script::Crowd),
];

impl Script {
    /// A module of the script.
    fn module(&self, index: usize) -> ModuleId {
        match self {
            Script::Chain => ModuleId {
                index,
                ..ModuleId::crate_root(CHAINED)
            },
            Script::Crowd => ModuleId {
                index,
                ..ModuleId::crate_root(CROWDED)
            },
            _ => module(index),
        }
    }

    /// The edge of this number. None leads from a module to itself.
    fn edge(&self, number: usize) -> Option<Edge> {
        match self {
            Script::Row(row) => row.edges.get(number).copied(),
            Script::Chain if number < CHAIN => {
                Some((number, number.wrapping_add(1), Visibility::Public))
            }
            Script::Crowd if number < CROWD * CROWD && number / CROWD != number % CROWD => {
                Some((number / CROWD, number % CROWD, Visibility::Public))
            }
            _ => None,
        }
    }

    /// The list that is put after so many edges and lists.
    fn list(&self, number: usize) -> Option<&'static List> {
        match self {
            Script::Row(row) => row.lists.get(number.checked_sub(row.edges.len())?),
            Script::Chain | Script::Crowd if number == CHAIN => Some(&IN_FIRST),
            _ => None,
        }
    }

    /// The step that puts this list.
    fn put(&self, list: &List) -> Option<Step> {
        let (index, entries) = *list;
        let first = entries.first()?;
        Some(Step::List(self.module(index), *first, entries.get(1).copied()))
    }

    /// The step of this number: first stand all edges.
    pub fn step(&self, number: usize) -> Option<Step> {
        if matches!(self, Script::Travels) {
            return (number < CALLS).then_some(travel(number));
        }
        match self.edge(number) {
            Some((source, importer, vis)) => {
                let source = self.module(source);
                Some(Step::Edge(source, self.module(importer), vis, glob(number)))
            }
            None => self.put(self.list(number)?),
        }
    }

    /// How many calls of the table itself are made.
    pub fn calls(&self) -> usize {
        match self {
            Script::Calls => CALLS,
            _ => 0,
        }
    }

    /// Whether questions are asked after the step of this number.
    pub fn asks_after(&self, number: usize) -> bool {
        match self {
            Script::Calls => false,
            Script::Travels => number < CALLS,
            _ => number == CHAIN,
        }
    }

    /// The question of this number that is asked in the end, or after each call.
    pub fn question(&self, number: usize) -> Option<Question> {
        let (index, place, name) = match self {
            Script::Row(row) => {
                let (index, place, name, _) = row.want.get(number)?;
                (*index, *place, *name)
            }
            Script::Chain if number <= CHAIN => (number, 0, NAME),
            Script::Crowd if number < CROWD => (number, 0, NAME),
            Script::Calls | Script::Travels if number < ASKED => {
                (number / PLACES, number % PLACES, Name(number % PLACES))
            }
            _ => return None,
        };
        Some(Question {
            place: self.module(index),
            name,
            index: place,
        })
    }

    /// How many answers there are.
    pub fn answers(&self) -> usize {
        match self {
            Script::Calls | Script::Travels => CALLS * ASKED,
            Script::Row(row) => row.want.len(),
            Script::Chain => CHAIN + 1,
            Script::Crowd => CROWD,
        }
    }

    /// Whether the name is bound in a module: in the first its own, in another one by a glob whose edge
    /// leads to it.
    fn is_bound(&self, found: Option<Binding<Visibility>>, index: usize) -> bool {
        if index == 0 {
            return found == Some(BOUND);
        }
        for number in 0..CHAIN {
            let import = Some(ImportOrExternCrate::Glob(glob(number)));
            if let Some((_, importer, _)) = self.edge(number)
                && importer == index
                && found == Some(Binding { import, ..BOUND })
            {
                return true;
            }
        }
        false
    }

    /// Whether this is wanted of the answer of this number: after the last of the calls there is a name
    /// and an edge at the root, and while names travel there is an edge from each module to each other
    /// one, and no further one.
    pub fn is_wanted(&self, found: &Answers, number: usize) -> bool {
        match self {
            Script::Calls => number != LAST || (found.name.is_some() && found.edge.is_some()),
            Script::Travels => {
                let place = number.saturating_sub(LAST);
                let is_there = place / PLACES < MODULES && place % PLACES < MODULES - 1;
                number < LAST || found.edge.is_some() == is_there
            }
            Script::Row(row) => match row.want.get(number) {
                Some((_, _, name, want)) => found.bound.types == *want
                    && (found.name == Some(*name)) == want.is_some(),
                None => false,
            },
            Script::Chain | Script::Crowd => self.is_bound(found.bound.types, number),
        }
    }
}
