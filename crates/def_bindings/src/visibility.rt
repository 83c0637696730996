//! Visibilities and their order.
ghost use Rattle.std.specs.Prelude.{◌≡◌, ◌↔◌, Bool, ℕ, IsTrue};
ghost use Rattle.def_bindings.specs.Order.{Order, IsLawful, greater_of, lesser_of, rises_to};
ghost use Rattle.def_bindings.specs.Puts.{lessened};

use def_ids::ModuleId;

/// From where an item is seen: from a module's home and below, in its crate, or from everywhere.
#[derive(Clone, Copy, PartialEq, Eq, Debug)]
pub enum Visibility {
    Module(ModuleId),
    PubCrate,
    Public,
}

/// A partial order of visibilities in which each rise ends, and what each lets a module see.
pub trait VisOrder {
    type Vis: Copy;

    /// Which visibility is at most which, and which modules see it.
    ghost order: { Self → Order Self.Vis };

    /// No strictly rising list is longer.
    ghost height: { Self → ℕ };

    /// The greater of two, or `None` where they are unrelated.
    fn max(&self, a: Self::Vis, b: Self::Vis) -> Option<Self::Vis>
        ensures { result ≡ greater_of (order self.now).at_most a b };

    /// The lesser of two, or `None` where they are unrelated.
    fn min(&self, a: Self::Vis, b: Self::Vis) -> Option<Self::Vis>
        ensures { result ≡ lesser_of (order self.now).at_most a b };

    /// Whether the module sees the visibility.
    fn visible(&self, vis: Self::Vis, place: ModuleId) -> bool
        ensures { result ≡ (order self.now).can_see place vis };

    /// Whether two are equal.
    fn same(&self, a: Self::Vis, b: Self::Vis) -> bool
        ensures { IsTrue result ↔ (a ≡ b) };

    ghost lawful: { (s : Self) → IsLawful (order s) (height s) };
}

/// Whether the second visibility is greater than the first.
pub fn is_raised<O: VisOrder>(order: &O, from: O::Vis, to: O::Vis) -> bool
    ensures { result ≡ rises_to (O.order order.now) from to }
{
    match order.max(from, to) {
        Some(top) => !order.same(top, from),
        None => false,
    }
}

/// The visibility that an import gives: the lesser of the item's and its own, and its own where
/// they are unrelated.
pub fn lesser_or_import<O: VisOrder>(order: &O, own: O::Vis, import: O::Vis) -> O::Vis
    ensures { result ≡ lessened (O.order order.now) own import }
{
    order.min(own, import).unwrap_or(import)
}
