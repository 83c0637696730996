//! Locations and their ids.
ghost use Rattle.std.specs.Prelude.{◌≡◌, ℕ, List, Option, Some, option_map, slice_get};
ghost use Rattle.std.specs.Prelude.{Contains, IfOk, OnOk, OnErr};
ghost use Rattle.std.specs.Option.{option_copied};
ghost use Rattle.item_tree.specs.Numbering.{IsInjective, IsGrownBy};

mod items;
mod macros;

use crate::exact::Exact;
use crate::interner::Interner;
use std::alloc::AllocError;
use std::hash::Hash;

/// The id of a location.
pub trait LocationId: Copy {
    ghost use Rattle.def_interner.specs.Session.{Session, session_of};
    ghost use Rattle.def_interner.specs.declared.interner.Interner.{Interner};

    type Loc: Copy;

    // The place of the id's location in the table of its kind.
    ghost number: { Self → ℕ };

    ghost entries: { Interner → List Self.Loc };

    ghost with_entries: { Interner → List Self.Loc → Interner };

    // What a session shows of a location.
    ghost Shown: { Type 0 };

    ghost shown: { Self.Loc → Shown };

    ghost shown_at: { Session → Self → Option Shown };

    /// The location of this id, if the session knows it.
    fn lookup<'a>(self, session: &'a Interner) -> Option<&'a Self::Loc>
        ensures entry { option_copied result ≡ slice_get (entries session.now) (number self) }
        ensures shown { option_map (λ loc. shown loc.now) result
            ≡ shown_at (session_of session.now) self };
}

/// A location, which has an id of its own.
pub trait Location: Exact + Hash + Copy {
    ghost use Rattle.def_interner.specs.Session.{AddsLocations, session_of};

    type Id: LocationId<Loc = Self>;

    /// The id of this location: its own if it has one, else the next of its kind.
    fn intern(self, session: &mut Interner) -> Result<Self::Id, AllocError>
        // On success the id has this location, and no other id has.
        ensures stored { IfOk result (λ id.
            slice_get (Self.Id.entries session.new) (Self.Id.number id) ≡ Some self) }
        ensures shown { IfOk result (λ id.
            Self.Id.shown_at (session_of session.new) id ≡ Some (Self.Id.shown self)) }
        ensures injective { IsInjective (Self.Id.entries session.new) }

        // The table of its kind has grown at its end, or is as it was; all else stays.
        ensures grown { OnOk result
            (IsGrownBy self (Self.Id.entries session.old) (Self.Id.entries session.new)) }
        ensures others { session.new
            ≡ Self.Id.with_entries session.old (Self.Id.entries session.new) }
        ensures adds { AddsLocations (session_of session.old) (session_of session.new) }

        // On failure nothing changes. Only a new location can fail.
        ensures unchanged { OnErr result (session.new ≡ session.old) }
        ensures fresh { OnErr result (¬ Contains (Self.Id.entries session.old) self) };
}
