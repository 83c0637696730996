//! The tree of a map's modules, and the modules that contain a block.
ghost use Rattle.std.specs.Prelude.{◌≡◌, ◌∷◌, ◌+◌, ◌↔◌, IsTrue, List, [], length, slice_get, not, ◌++◌, ◌<◌, false, IfOk, OnOk, IfSome, MatchOption, option_map};
ghost use Rattle.std.specs.List.{list_any, filter};
ghost use Rattle.std.specs.Option.{option_map_or};
ghost use Rattle.def_ids.specs.Ids.{is_same_module as is_same};
ghost use Rattle.def_bindings.specs.Tree.{are_apart as apart_from, AreParentsLower, are_apart, parent_of, above_of, after_index, is_own as is_own_in, module_of};

use crate::visibility::{VisOrder, Visibility};
use def_ids::{MapId, ModuleId};
use std::alloc::{AllocError, Global};
use tree_ids::Seq;

/// The parents of a map's modules, and for a block the modules that contain it, the nearest first.
#[derive(Drop)]
pub struct ModuleTree {
    pub map: MapId,
    pub parents: Seq<Option<usize>>,
    pub containing: Seq<ModuleId>,
    ghost lower: { AreParentsLower parents },
    ghost apart: { IsTrue (are_apart map containing) },
}

/// Whether modules are of other maps, and no two are equal.
fn are_apart(own: MapId, containing: &[ModuleId]) -> bool
    ensures { result ≡ apart_from own containing.now }
{
    for i in 0..containing.len() {
        let place = containing[i];
        if place.map == own || is_among(place, &containing[i + 1..]) {
            return false;
        }
    }
    true
}

/// Whether a module is one of these.
fn is_among(place: ModuleId, others: &[ModuleId]) -> bool
    ensures { result ≡ list_any (is_same place) others.now }
{
    for other in others {
        if place == *other {
            return true;
        }
    }
    false
}

/// A module of a chain, and where the modules that contain the block go on after it.
#[derive(Clone, Copy)]
struct Position {
    at: ModuleId,
    next: usize,
}

impl ModuleTree {
    ghost use Rattle.def_bindings.specs.ModuleTree.{chain_in, next_in};
    ghost use Rattle.def_ids.specs.Ids.{is_same_module, is_block_root};
    ghost use Rattle.def_bindings.specs.Visibility.{home_of, is_at_most};

    /// The tree of one root, that of a block within these modules; none where two of them are equal
    /// or one is of this map.
    pub fn new(
        alloc: Global,
        map: MapId,
        containing: Seq<ModuleId>,
    ) -> Result<Option<Self>, AllocError>
        ensures { IfOk result (λ made. MatchOption made
            (are_apart map containing ≡ false)
            (λ tree. (tree.map ≡ map) × (tree.parents ≡ None ∷ []) × (tree.containing ≡ containing))) }
    {
        if !are_apart(map, containing.as_slice()) {
            return Ok(None);
        }
        let mut parents = Seq::from_vec(Vec::new(alloc));
        parents.push(None)?;
        Ok(Some(ModuleTree {
            map,
            parents,
            containing,
        }))
    }

    /// A further module, by its parent.
    pub fn add(&mut self, parent: usize) -> Result<(), AllocError>
        requires { parent < length self.old.parents }
        ensures ok { OnOk result (self.new.parents ≡ self.old.parents ++ Some parent ∷ []) }
        ensures map { self.new.map ≡ self.old.map }
        ensures containing { self.new.containing ≡ self.old.containing }
    {
        self.parents.push(Some(parent))?;
        Ok(())
    }

    /// The parent of a module of this map.
    fn parent(&self, index: usize) -> Option<usize>
        ensures { result ≡ parent_of self.now.parents index }
    {
        match self.parents.get(index) {
            Some(parent) => *parent,
            None => None,
        }
    }

    /// Whether a module is of this map.
    fn is_own(&self, start: ModuleId) -> bool
        ensures { result ≡ is_own_in self.now.map self.now.parents start }
    {
        start.map == self.map && start.index < self.parents.len()
    }

    /// Where what follows `start` stands among the modules that contain this block: at their end,
    /// if it is none of them.
    fn containing_index(&self, start: ModuleId) -> usize
        ensures { result ≡ after_index self.now.containing start }
    {
        let containing = self.containing.as_slice();
        for i in 0..containing.len() {
            if start == containing[i] {
                return i + 1;
            }
        }
        containing.len()
    }

    /// The chain from a place among the modules that contain this block.
    fn containing_from(&self, index: usize) -> Option<Position>
        ensures at { option_map (λ p. p.at) result ≡ slice_get self.now.containing index }
        ensures next { IfSome result (λ p. p.next ≡ next_in self.now p.at) }
    {
        let containing = self.containing.as_slice();
        if index < containing.len() {
            Some(Position {
                at: containing[index],
                next: index + 1,
            })
        } else {
            None
        }
    }

    /// Where the chain of a module begins.
    fn position(&self, start: ModuleId) -> Position
        ensures at { result.at ≡ start }
        ensures next { result.next ≡ next_in self.now start }
    {
        let next = if self.is_own(start) {
            0
        } else {
            self.containing_index(start)
        };
        Position { at: start, next }
    }

    /// What follows in a chain, without a search.
    fn step(&self, here: Position) -> Option<Position>
        requires { here.next ≡ next_in self.now here.at }
        ensures chain { chain_in self.now here.at
            ≡ here.at ∷ option_map_or (λ p. chain_in self.now p.at) result [] }
        ensures next { IfSome result (λ p. p.next ≡ next_in self.now p.at) }
    {
        self.follow(here)
    }

    /// What follows in a chain: the parent, or the next of the modules that contain the block.
    fn follow(&self, here: Position) -> Option<Position>
        requires { here.next ≡ next_in self.now here.at }
        ensures at { option_map (λ p. p.at) result
            ≡ above_of self.now.map self.now.parents self.now.containing here.at }
        ensures next { IfSome result (λ p. p.next ≡ next_in self.now p.at) }
    {
        if self.is_own(here.at) {
            if let Some(index) = self.parent(here.at.index) {
                let at = ModuleId {
                    map: self.map,
                    index,
                };
                return Some(self.position(at));
            }
        }
        self.containing_from(here.next)
    }

    /// The module after `start` in its chain.
    pub fn above(&self, start: ModuleId) -> Option<ModuleId>
        ensures { chain_in self.now start ≡ start ∷ option_map_or (chain_in self.now) result [] }
    {
        match self.step(self.position(start)) {
            Some(position) => Some(position.at),
            None => None,
        }
    }

    /// Whether a module of this map is in the chain of another one of it, both by their indices. Each
    /// parent has a lower index, so the search ends where it passes the module.
    fn is_own_in_chain(&self, start: usize, target: usize) -> bool
        requires { start < length self.now.parents }
        ensures { let own = module_of self.now.map in
            result ≡ list_any (is_same_module (own target)) (chain_in self.now (own start)) }
    {
        let mut here = start;
        'up: while target < here {
            match self.parent(here) {
                Some(parent) => here = parent,
                None => return false,
            }
        }
        here == target
    }

    /// Whether `target` is in the chain of `start`.
    pub fn is_in_chain(&self, start: ModuleId, target: ModuleId) -> bool
        ensures { result ≡ list_any (is_same_module target) (chain_in self.now start) }
    {
        // Most modules are of this map, and then their indices decide.
        if target.map == self.map && self.is_own(start) {
            return self.is_own_in_chain(start.index, target.index);
        }
        let mut here = Some(self.position(start));
        while let Some(position) = here {
            here = self.step(position);
            if target == position.at {
                return true;
            }
        }
        false
    }

    /// The first module of the chain that is no block's root, or the module itself.
    pub fn home(&self, start: ModuleId) -> ModuleId
        ensures { result ≡ home_of (chain_in self.now) start }
    {
        // Most modules are no block's root, and then nothing is followed.
        if !start.is_block_root() {
            return start;
        }
        let mut here = Some(self.position(start));
        while let Some(position) = here {
            here = self.step(position);
            if !position.at.is_block_root() {
                return position.at;
            }
        }
        start
    }

    /// Whether the first visibility is at most the second.
    fn is_at_most(&self, a: Visibility, b: Visibility) -> bool
        ensures { result ≡ is_at_most (chain_in self.now) a b }
    {
        match (a, b) {
            (Visibility::Module(lower), Visibility::Module(upper)) => {
                self.is_in_chain(lower, upper)
            }
            (_, Visibility::Public) => true,
            (Visibility::Public, _) => false,
            (_, Visibility::PubCrate) => true,
            (Visibility::PubCrate, _) => false,
        }
    }

    /// Entry `n`, from 0, of the chain without roots of blocks.
    pub fn ancestor(&self, start: ModuleId, n: usize) -> Option<ModuleId>
        ensures { result
            ≡ slice_get (filter (λ m. not (is_block_root m)) (chain_in self.now start)) n }
    {
        let mut left = n;
        let mut here = Some(self.position(start));
        while let Some(position) = here {
            here = self.step(position);
            if !position.at.is_block_root() {
                if left == 0 {
                    return Some(position.at);
                }
                left -= 1;
            }
        }
        None
    }
}

impl VisOrder for ModuleTree {
    ghost use Rattle.std.specs.Prelude.{◌+◌, suc, length};
    ghost use Rattle.def_bindings.specs.ModuleTree.{chain_in, are_chains_in, length-chain_in};
    ghost use Rattle.def_bindings.specs.Visibility.{order_over};
    ghost use Rattle.def_bindings.specs.VisibilityLaws.{visibility_order, visible_stays, length-rising};

    type Vis = Visibility;

    ghost order = { λ tree. order_over (chain_in tree) };

    ghost height = { λ tree. suc (length tree.parents + length tree.containing) + 2 };

    fn max(&self, a: Visibility, b: Visibility) -> Option<Visibility> {
        if self.is_at_most(a, b) {
            Some(b)
        } else if self.is_at_most(b, a) {
            Some(a)
        } else {
            None
        }
    }

    fn min(&self, a: Visibility, b: Visibility) -> Option<Visibility> {
        if self.is_at_most(a, b) {
            Some(a)
        } else if self.is_at_most(b, a) {
            Some(b)
        } else {
            None
        }
    }

    fn visible(&self, vis: Visibility, place: ModuleId) -> bool {
        match vis {
            Visibility::Module(limit) => self.is_in_chain(place, self.home(limit)),
            Visibility::PubCrate | Visibility::Public => true,
        }
    }

    fn same(&self, a: Visibility, b: Visibility) -> bool {
        a == b
    }

    ghost lawful = { λ tree. record {
      is_order = visibility_order (chain_in tree) (are_chains_in tree);
      stays_visible = visible_stays (chain_in tree) (are_chains_in tree);
      rise_ends = length-rising (chain_in tree) (are_chains_in tree) (suc (length tree.parents + length tree.containing)) (length-chain_in tree);
    } };
}
