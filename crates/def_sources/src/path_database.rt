//! What paths ask beside the map in which they are asked.
ghost use Rattle.std.specs.Prelude.{◌≡◌, option_map};
ghost use Rattle.std.specs.Option.{option_copied};

use crate::table::Table;
use def_ids::{EnumLoc, MapId};
use def_modules::MapData;
use def_oracle::EnumVariant;
use item_tree::Name;

/// The answers that paths ask for. Each is a function of its arguments.
pub trait PathDatabase {
    ghost use Rattle.def_interner.specs.Session.{in_module};
    ghost use Rattle.def_sources.specs.Tables.{bound_by};
    ghost use Rattle.def_oracle.specs.Oracle.{Oracle};
    ghost use Rattle.def_sources.specs.Asking.{map_with};
    ghost use Rattle.def_sources.specs.Sources.{finished_map as finished_map_of};

    /// All answers of the database.
    ghost oracle: { Self → Oracle };

    /// The finished map of a block or a crate, all but its bindings and the table with these.
    fn finished_map(&self, id: MapId) -> Option<(&MapData, &Table)>
        ensures { option_map (λ m. map_with m.0.now (bound_by m.1.now)) result ≡ finished_map_of (oracle self.now) id };

    /// The variants of an enum, in order.
    fn enum_variants(&self, loc: &EnumLoc) -> Option<&[EnumVariant]>
        ensures { option_copied result ≡ (oracle self.now).enum_variants (in_module loc.now.container loc.now.position) };

    fn builtin_type(&self, name: Name) -> Option<u32>
        ensures { result ≡ (oracle self.now).builtin_type name };
}
