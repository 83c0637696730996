//! What tables answer, in a form in which the answers of different tables are compared.

use def_bindings::{Binding, BindingTable, EdgeTo, NameBindings, Namespace, Visibility};
use def_ids::{ModuleId, TraitId};
use item_tree::Name;

/// What is asked of a table: a module, a name, and a place in the module's lists.
#[derive(Clone, Copy)]
pub struct Question {
    pub place: ModuleId,
    pub name: Name,
    pub index: usize,
}

/// What a name stands for in each namespace.
#[derive(Clone, Copy, PartialEq)]
pub struct Bound {
    pub types: Option<Binding<Visibility>>,
    pub values: Option<Binding<Visibility>>,
    pub macros: Option<Binding<Visibility>>,
}

/// What a table answers: the bindings of the name, one by one and together, what stands at the place,
/// the unnamed trait of that number, and the edge to the module of that number.
#[derive(Clone, Copy, PartialEq)]
pub struct Answers {
    pub bound: Bound,
    pub together: Bound,
    pub name: Option<Name>,
    pub unnamed: Option<(TraitId, Visibility)>,
    pub unnamed_vis: Option<Visibility>,
    pub edge: Option<EdgeTo<Visibility>>,
    pub edge_to: Option<EdgeTo<Visibility>>,
}

/// The bindings of a name, asked one by one.
fn one_by_one<T: BindingTable<Vis = Visibility>>(table: &T, place: ModuleId, name: Name) -> Bound {
    Bound {
        types: table.binding(place, name, Namespace::Types),
        values: table.binding(place, name, Namespace::Values),
        macros: table.binding(place, name, Namespace::Macros),
    }
}

/// The bindings of a name that were asked together.
fn together(all: &NameBindings<Visibility>) -> Bound {
    Bound {
        types: all.get(Namespace::Types).copied(),
        values: all.get(Namespace::Values).copied(),
        macros: all.get(Namespace::Macros).copied(),
    }
}

/// What a table answers.
pub fn ask<T: BindingTable<Vis = Visibility>>(table: &T, asked: &Question) -> Answers {
    let Question { place, name, index } = *asked;
    Answers {
        bound: one_by_one(table, place, name),
        together: together(&table.bindings(place, name)),
        name: table.name_at(place, index),
        unnamed: table.unnamed_at(place, index),
        unnamed_vis: table.unnamed_vis(place, TraitId(index)),
        edge: table.edge_at(place, index),
        edge_to: table.edge_to(place, ModuleId { index, ..place }),
    }
}
