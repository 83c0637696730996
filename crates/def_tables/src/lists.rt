//! Lists by module.
ghost use Rattle.std.specs.Prelude.{◌≡◌, ◌∷◌, [], ◌++◌, ◌+◌, ◌<◌, ◌≤◌, ◌^◌, None, Some, length, slice_get, option_map, IfOk, IfSome, OnOk, OnErr, IsTrue, cond, true};
ghost use Rattle.indexmap.specs.IndexMap.{get};
ghost use Rattle.def_ids.specs.declared.ids.ModuleId.{ModuleId};
ghost use Rattle.def_ids.specs.Ids.{is_same_module, is_same_map};
ghost use Rattle.def_bindings.specs.Content.{listed_as, without_name};
ghost use Rattle.def_tables.specs.Lists.{AreDistinct, lists_in, lists_of, row_in, row_items, rows_of, with_row};

use def_ids::{MapId, ModuleId};
use indexmap::IndexMap;
use std::alloc::{AllocError, Global};
use tree_ids::{Crate, Name};

/// A list for each module. Where modules are of the map of the first one that had a list, their lists
/// stand in rows by the modules' indices; the others, and those with great indices, are looked up.
#[derive(Drop)]
pub struct Lists<K> {
    alloc: Global,
    /// How many lists were begun.
    begun: usize,
    /// A module that may have no list yet, and how many elements that is to have room for.
    expected: Option<(ModuleId, usize)>,
    /// The map whose modules have rows.
    map: MapId,
    rows: Vec<Option<Vec<K>>>,
    others: IndexMap<ModuleId, Vec<K>>,
}

/// How many rows there may be for each list, so that no index asks for room without bound.
const ROWS_FOR_EACH: usize = 8;

/// A list has room for so many elements once it has one, and to ask for less would be in vain.
const FIRST_ROOM: usize = 4;

/// Makes rows without lists until there are so many.
fn pad<K: Copy>(rows: &mut Vec<Option<Vec<K>>>, len: usize) -> Result<(), AllocError>
    ensures rows { (map : _) → row_in map rows.new.items ≡ row_in map rows.old.items }
    ensures len { OnOk result (len ≤ length rows.new.items) }
{
    'rows: while rows.len() < len {
        rows.push(None)?;
    }
    Ok(())
}

/// Sets the list of a row.
fn set_row<K: Copy>(
    rows: &mut Vec<Option<Vec<K>>>,
    index: usize,
    list: Vec<K>,
) -> Result<(), AllocError>
    requires { index + 1 < 2 ^ 64 }
    ensures done { OnOk result ((map : _) (m : ModuleId) → is_same_map m.map map ≡ true → m.index ≡ index → (q : ModuleId) →
        row_in map rows.new.items q ≡ cond (is_same_module m q) (Some list.items) (row_in map rows.old.items q)) }
    ensures refused { OnErr result ((map : _) → row_in map rows.new.items ≡ row_in map rows.old.items) }
{
    pad(rows, index + 1)?;
    rows[index] = Some(list);
    Ok(())
}

/// Begins a list that is looked up.
fn begin_other<K: Copy>(
    others: &mut IndexMap<ModuleId, Vec<K>>,
    module: ModuleId,
    list: Vec<K>,
) -> Result<(), AllocError>
    requires { get is_same_module others.old «module» ≡ None }
    ensures done { OnOk result (lists_in others.new ≡ listed_as (lists_in others.old) «module» list.items) }
    ensures refused { OnErr result (lists_in others.new ≡ lists_in others.old) }
{
    others.insert(module, list)?;
    Ok(())
}

/// Adds an element at the end of a row's list.
#[inline(always)]
fn push_in_row<K: Copy>(row: &mut Option<Vec<K>>, item: K) -> Result<(), AllocError>
    ensures done { OnOk result (row_items row.new ≡ option_map (λ xs. xs ++ item ∷ []) (row_items row.old)) }
    ensures refused { OnErr result (row_items row.new ≡ row_items row.old) }
{
    match row {
        Some(list) => {
            list.push(item)?;
            Ok(())
        }
        None => Ok(()),
    }
}

impl<K: Copy> Lists<K> {
    /// Empty lists.
    pub fn new(alloc: Global) -> Self
        ensures { lists_of result ≡ (λ m. []) }
    {
        Lists {
            alloc,
            begun: 0,
            expected: None,
            map: MapId {
                krate: Crate(0),
                block: None,
            },
            rows: Vec::new(alloc),
            others: IndexMap::new(alloc),
        }
    }

    /// The list of a module that has a row.
    #[inline(always)]
    fn row(&self, module: ModuleId) -> Option<&[K]>
        ensures { option_map (λ list. list.now) result ≡ rows_of self.now «module» }
    {
        if module.map != self.map {
            return None;
        }
        match self.rows.as_slice().get(module.index) {
            Some(Some(list)) => Some(list.as_slice()),
            _ => None,
        }
    }

    /// The list of a module.
    pub fn of(&self, module: ModuleId) -> &[K]
        ensures { result.now ≡ lists_of self.now «module» }
    {
        if let Some(row) = self.row(module) {
            return row;
        }
        match self.others.get(&module) {
            Some(list) => list.as_slice(),
            None => &[],
        }
    }

    /// The element at this place of a module's list.
    pub fn at(&self, module: ModuleId, index: usize) -> Option<K>
        ensures item { result ≡ slice_get (lists_of self.now «module») index }
        ensures few { length (lists_of self.now «module») < 2 ^ 64 }
    {
        self.of(module).get(index).copied()
    }

    /// Whether a module that has no row may have one.
    fn takes_row(&mut self, module: ModuleId) -> bool
        ensures rows { rows_of self.new ≡ rows_of self.old }
        ensures others { self.new.others ≡ self.old.others }
        ensures map { IsTrue result → is_same_map «module».map self.new.map ≡ true }
        ensures few { IsTrue result → «module».index + 1 < 2 ^ 64 }
    {
        if self.rows.is_empty() {
            self.map = module.map;
        }
        let most = self.begun.saturating_mul(ROWS_FOR_EACH).saturating_add(64);
        module.map == self.map && module.index < most
    }

    /// Says how many elements the list of a module may get. Where it has none yet, one with so much
    /// room is begun, if no other module's is said meanwhile.
    pub fn expect(&mut self, module: ModuleId, elements: usize)
        ensures { lists_of self.new ≡ lists_of self.old }
    {
        if FIRST_ROOM < elements {
            self.expected = Some((module, elements));
        }
    }

    /// A list for a module that has none, with the room that was said.
    fn first_list(&self, module: ModuleId) -> Result<Vec<K>, AllocError>
        ensures { IfOk result (λ list. list.items ≡ []) }
    {
        let mut list = Vec::new(self.alloc);
        if let Some((expected, elements)) = self.expected {
            if expected == module {
                list.reserve(elements)?;
            }
        }
        Ok(list)
    }

    /// Begins the list of a module that has none.
    fn begin(&mut self, module: ModuleId, item: K) -> Result<(), AllocError>
        requires row { rows_of self.old «module» ≡ None }
        requires other { get is_same_module self.old.others «module» ≡ None }
        ensures done { OnOk result (lists_of self.new
            ≡ listed_as (lists_of self.old) «module» (item ∷ [])) }
        ensures refused { OnErr result (lists_of self.new ≡ lists_of self.old) }
    {
        let mut list = self.first_list(module)?;
        list.push(item)?;
        self.begun = self.begun.saturating_add(1);
        if self.takes_row(module) {
            return set_row(&mut self.rows, module.index, list);
        }
        begin_other(&mut self.others, module, list)
    }

    /// Adds an element at the end of a module's list.
    #[inline(always)]
    pub fn push(&mut self, module: ModuleId, item: K) -> Result<(), AllocError>
        ensures done { OnOk result (lists_of self.new
            ≡ listed_as (lists_of self.old) «module» (lists_of self.old «module» ++ item ∷ [])) }
        ensures refused { OnErr result (lists_of self.new ≡ lists_of self.old) }
    {
        if self.row(module).is_some() {
            return push_in_row(&mut self.rows[module.index], item);
        }
        match self.others.get_mut(&module) {
            Some(list) => {
                list.push(item)?;
                Ok(())
            }
            None => self.begin(module, item),
        }
    }
}

/// Takes a name out of names that stand there once. One that goes was mostly among the last to come.
fn take_out(names: &mut Vec<Name>, name: Name)
    requires { AreDistinct names.old.items }
    ensures { names.new.items ≡ without_name names.old.items name }
{
    if let Some(place) = names.iter().rposition(|other| name.0 == other.0) {
        let _ = names.remove(place);
    }
}

/// Takes a name out of a row's list.
fn take_out_of_row(row: &mut Option<Vec<Name>>, name: Name)
    requires { IfSome (row_items row.old) AreDistinct }
    ensures { row_items row.new ≡ option_map (λ xs. without_name xs name) (row_items row.old) }
{
    match row {
        Some(list) => take_out(list, name),
        None => (),
    }
}

impl Lists<Name> {
    /// Takes a name out of a module's list, where it stands once.
    pub fn remove(&mut self, module: ModuleId, name: Name)
        requires { AreDistinct (lists_of self.old «module») }
        ensures { lists_of self.new
            ≡ listed_as (lists_of self.old) «module» (without_name (lists_of self.old «module») name) }
    {
        if self.row(module).is_some() {
            take_out_of_row(&mut self.rows[module.index], name);
            return;
        }
        match self.others.get_mut(&module) {
            Some(list) => take_out(list, name),
            None => (),
        }
    }
}
