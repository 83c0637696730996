//! What paths mean, in finished maps and in the map that is being made.
ghost use Rattle.std.specs.Prelude.{IfSome, ◌≡◌, None, false, option_map};
ghost use Rattle.def_interner.specs.Session.{session_of};
ghost use Rattle.def_map.specs.DefMaps.{state_of, view_of};
ghost use Rattle.def_map.specs.MapStates.{finished_state};
ghost use Rattle.def_modules.specs.Locals.{local_view};
ghost use Rattle.def_modules.specs.Maps.{map_state};
ghost use Rattle.def_sources.specs.declared.asked.ResolveMode.TheVariants.{Other};
ghost use Rattle.def_sources.specs.Asking.{map_with, world_lent};
ghost use Rattle.def_sources.specs.Modes.{asked_by};
ghost use Rattle.def_paths.specs.Answers.{reached};
ghost use Rattle.def_sources.specs.PerNs.{per_namespace};
ghost use Rattle.def_paths.specs.Paths.{for_module, macro_named, module_found, resolve, resolve_visibility as visibility_of};
ghost use Rattle.def_sources.specs.Sources.{world_of, finished_map as finished_map_of};
ghost use Rattle.def_sources.specs.Tables.{bound_by};

use crate::def_map::DefMap;
use crate::source_database::SourceDatabase;
use def_bindings::{BindingTable, Visibility};
use def_ids::{EnumLoc, MacroId, MapId, ModuleId};
use def_interner::Interner;
use def_modules::{LocalDefMap, MapData};
use def_oracle::EnumVariant;
use def_paths::{
    Asked, BuiltinShadowMode, MacroSubNs, PathDatabase, PerNs, ResolveMode, ResolvePathResult,
    Table, World,
};
use item_tree::{ModPath, Name, RawVisibility};

/// The finished map of a block or a crate.
pub fn finished_map<D: SourceDatabase>(db: &D, id: MapId) -> Option<&DefMap>
    ensures view { option_map (λ m. view_of m.now) result ≡ finished_map_of (D.oracle db.now) id }
    ensures state { option_map (λ m. state_of m.now) result ≡ finished_state (D.states db.now) id }
{
    match id.block {
        Some(block) => db.outer_map(block),
        None => db.crate_def_map(id.krate),
    }
}

/// A database, as paths ask it.
struct AskedByPaths<'a, D> {
    db: &'a D,
}

impl<'a, D> Drop for AskedByPaths<'a, D> {
    fn drop(self) {
        let AskedByPaths { db: _ } = self;
    }
}

impl<'a, D: SourceDatabase> PathDatabase for AskedByPaths<'a, D> {
    ghost oracle = { λ asked. D.oracle asked.db.now };

    fn finished_map(&self, id: MapId) -> Option<(&MapData, &Table)> {
        match finished_map(self.db, id) {
            Some(map) => Some((&map.data, &map.table)),
            None => None,
        }
    }

    fn enum_variants(&self, loc: &EnumLoc) -> Option<&[EnumVariant]> {
        self.db.enum_variants(loc)
    }

    fn builtin_type(&self, name: Name) -> Option<u32> {
        self.db.builtin_type(name)
    }
}

/// What a path means, asked from a module.
pub fn resolve_path_fp_with_macro<D: SourceDatabase, T: BindingTable<Vis = Visibility>>(
    world: &World<'_, D, T>,
    asked: Asked,
    original_module: ModuleId,
    path: &ModPath,
) -> ResolvePathResult
    ensures { result ≡ resolve (world_lent D.oracle T.content world.now) asked original_module path.now }
{
    let db = AskedByPaths { db: world.db };
    let world = World {
        map: world.map,
        table: world.table,
        local: world.local,
        db: &db,
        session: world.session,
    };
    def_paths::resolve_path_fp_with_macro(&world, asked, original_module, path)
}

/// Where the map that is asked has all that a path means, asked from a module: a module of it, and a
/// name there. So it is where the path leads through modules of its crate; else it may be `None`.
#[inline(always)]
pub fn resolve_path_scope<D: SourceDatabase, T: BindingTable<Vis = Visibility>>(
    world: &World<'_, D, T>,
    asked: Asked,
    original_module: ModuleId,
    path: &ModPath,
) -> Option<(ModuleId, Name)>
    ensures { IfSome result (λ there. resolve (world_lent D.oracle T.content world.now) asked original_module path.now
        ≡ reached (per_namespace ((T.content world.now.table.now).binding there.0 there.1)) None false) }
{
    let db = AskedByPaths { db: world.db };
    let world = World {
        map: world.map,
        table: world.table,
        local: world.local,
        db: &db,
        session: world.session,
    };
    def_paths::resolve_path_scope(&world, asked, original_module, path)
}

/// The macro that a path means, asked from a module: what `resolve_path_fp_with_macro` has of it in
/// macros, found without the other namespaces.
pub fn resolve_path_macro<D: SourceDatabase, T: BindingTable<Vis = Visibility>>(
    world: &World<'_, D, T>,
    asked: Asked,
    original_module: ModuleId,
    path: &ModPath,
) -> Option<MacroId>
    ensures { result ≡ macro_named (resolve (world_lent D.oracle T.content world.now) asked original_module path.now).resolved_def }
{
    let db = AskedByPaths { db: world.db };
    let world = World {
        map: world.map,
        table: world.table,
        local: world.local,
        db: &db,
        session: world.session,
    };
    def_paths::resolve_path_macro(&world, asked, original_module, path)
}

/// The module that a path gives, with no segment left.
pub fn resolve_module<D: SourceDatabase, T: BindingTable<Vis = Visibility>>(
    world: &World<'_, D, T>,
    original_module: ModuleId,
    path: &ModPath,
) -> Option<ModuleId>
    ensures { result ≡ module_found (resolve (world_lent D.oracle T.content world.now) for_module original_module path.now) }
{
    let db = AskedByPaths { db: world.db };
    let world = World {
        map: world.map,
        table: world.table,
        local: world.local,
        db: &db,
        session: world.session,
    };
    def_paths::resolve_module(&world, original_module, path)
}

/// What a visibility means that is written in a module. `None` where its path leads to no module.
pub fn resolve_visibility<D: SourceDatabase, T: BindingTable<Vis = Visibility>>(
    world: &World<'_, D, T>,
    original_module: ModuleId,
    visibility: &RawVisibility,
) -> Option<Visibility>
    ensures { result ≡ visibility_of (world_lent D.oracle T.content world.now) original_module visibility.now }
{
    let db = AskedByPaths { db: world.db };
    let world = World {
        map: world.map,
        table: world.table,
        local: world.local,
        db: &db,
        session: world.session,
    };
    def_paths::resolve_visibility(&world, original_module, visibility)
}

/// A map without its bindings, which stand in a table that is handed in: what paths mean there.
pub trait ResolvePaths {
    ghost use Rattle.def_bindings.specs.declared.visibility.Visibility.{Visibility};
    ghost use Rattle.def_bindings.specs.Content.{Content};
    ghost use Rattle.def_modules.specs.MapView.{MapView};

    /// The map as paths see it, with what its table contains.
    ghost view: { Self → Content Visibility → MapView };

    /// What a path means, asked from a module of this map. Of a name that stands alone, `shadow`
    /// says whether a builtin type goes before a module, and only the macros of
    /// `expected_macro_subns` count, if that is given.
    fn resolve_path_fp_with_macro<D: SourceDatabase, T: BindingTable<Vis = Visibility>>(
        &self,
        table: &T,
        local_def_map: &LocalDefMap,
        db: &D,
        session: &Interner,
        mode: ResolveMode,
        original_module: ModuleId,
        path: &ModPath,
        shadow: BuiltinShadowMode,
        expected_macro_subns: Option<MacroSubNs>,
    ) -> ResolvePathResult
        ensures { let oracle = D.oracle db.now in
            let m = view self.now (T.content table.now) in
            let w = world_of oracle (session_of session.now) m (local_view local_def_map.now) in
            result ≡ resolve w (asked_by mode shadow expected_macro_subns) original_module path.now };

    /// What a path that is no import's means, and the first segment that is left where it ends at a
    /// definition without names.
    fn resolve_path<D: SourceDatabase, T: BindingTable<Vis = Visibility>>(
        &self,
        table: &T,
        local_def_map: &LocalDefMap,
        db: &D,
        session: &Interner,
        original_module: ModuleId,
        path: &ModPath,
        shadow: BuiltinShadowMode,
        expected_macro_subns: Option<MacroSubNs>,
    ) -> (PerNs, Option<usize>)
        ensures { let oracle = D.oracle db.now in
            let m = view self.now (T.content table.now) in
            let w = world_of oracle (session_of session.now) m (local_view local_def_map.now) in
            let asked = asked_by Other shadow expected_macro_subns in
            let answer = resolve w asked original_module path.now in
            result ≡ (answer.resolved_def, answer.segment_index) };

    /// What a visibility means that is written in a module. `None` where its path leads to no module.
    fn resolve_visibility<D: SourceDatabase, T: BindingTable<Vis = Visibility>>(
        &self,
        table: &T,
        local_def_map: &LocalDefMap,
        db: &D,
        session: &Interner,
        original_module: ModuleId,
        visibility: &RawVisibility,
    ) -> Option<Visibility>
        ensures { let oracle = D.oracle db.now in
            let m = view self.now (T.content table.now) in
            let w = world_of oracle (session_of session.now) m (local_view local_def_map.now) in
            result ≡ visibility_of w original_module visibility.now };
}

impl ResolvePaths for MapData {
    ghost view = { map_with };

    fn resolve_path_fp_with_macro<D: SourceDatabase, T: BindingTable<Vis = Visibility>>(
        &self,
        table: &T,
        local_def_map: &LocalDefMap,
        db: &D,
        session: &Interner,
        mode: ResolveMode,
        original_module: ModuleId,
        path: &ModPath,
        shadow: BuiltinShadowMode,
        expected_macro_subns: Option<MacroSubNs>,
    ) -> ResolvePathResult {
        let world = World {
            map: self,
            table,
            local: local_def_map,
            db,
            session,
        };
        let asked = Asked {
            mode,
            shadow,
            sub: expected_macro_subns,
        };
        resolve_path_fp_with_macro(&world, asked, original_module, path)
    }

    fn resolve_path<D: SourceDatabase, T: BindingTable<Vis = Visibility>>(
        &self,
        table: &T,
        local_def_map: &LocalDefMap,
        db: &D,
        session: &Interner,
        original_module: ModuleId,
        path: &ModPath,
        shadow: BuiltinShadowMode,
        expected_macro_subns: Option<MacroSubNs>,
    ) -> (PerNs, Option<usize>) {
        let answer = self.resolve_path_fp_with_macro(
            table,
            local_def_map,
            db,
            session,
            ResolveMode::Other,
            original_module,
            path,
            shadow,
            expected_macro_subns,
        );
        (answer.resolved_def, answer.segment_index)
    }

    fn resolve_visibility<D: SourceDatabase, T: BindingTable<Vis = Visibility>>(
        &self,
        table: &T,
        local_def_map: &LocalDefMap,
        db: &D,
        session: &Interner,
        original_module: ModuleId,
        visibility: &RawVisibility,
    ) -> Option<Visibility> {
        let world = World {
            map: self,
            table,
            local: local_def_map,
            db,
            session,
        };
        resolve_visibility(&world, original_module, visibility)
    }
}

impl DefMap {
    /// The map with all that its paths are read against, for questions that ask several.
    pub fn world<'a, D: SourceDatabase>(
        &'a self,
        local_def_map: &'a LocalDefMap,
        db: &'a D,
        session: &'a Interner,
    ) -> World<'a, D, Table>
        ensures world { world_lent D.oracle bound_by result
            ≡ world_of (D.oracle db.now) (session_of session.now) (view_of self.now) (local_view local_def_map.now) }
        ensures state { map_state result.map.now ≡ state_of self.now }
    {
        World {
            map: &self.data,
            table: &self.table,
            local: local_def_map,
            db,
            session,
        }
    }

    /// What a path means, asked from a module of this map. Of a name that stands alone, `shadow`
    /// says whether a builtin type goes before a module, and only the macros of
    /// `expected_macro_subns` count, if that is given.
    pub fn resolve_path_fp_with_macro<D: SourceDatabase>(
        &self,
        local_def_map: &LocalDefMap,
        db: &D,
        session: &Interner,
        mode: ResolveMode,
        original_module: ModuleId,
        path: &ModPath,
        shadow: BuiltinShadowMode,
        expected_macro_subns: Option<MacroSubNs>,
    ) -> ResolvePathResult
        ensures { let oracle = D.oracle db.now in
            let w = world_of oracle (session_of session.now) (view_of self.now) (local_view local_def_map.now) in
            result ≡ resolve w (asked_by mode shadow expected_macro_subns) original_module path.now }
    {
        self.data.resolve_path_fp_with_macro(
            &self.table,
            local_def_map,
            db,
            session,
            mode,
            original_module,
            path,
            shadow,
            expected_macro_subns,
        )
    }

    /// What a path that is no import's means, and the first segment that is left where it ends at a
    /// definition without names.
    pub fn resolve_path<D: SourceDatabase>(
        &self,
        local_def_map: &LocalDefMap,
        db: &D,
        session: &Interner,
        original_module: ModuleId,
        path: &ModPath,
        shadow: BuiltinShadowMode,
        expected_macro_subns: Option<MacroSubNs>,
    ) -> (PerNs, Option<usize>)
        ensures { let oracle = D.oracle db.now in
            let w = world_of oracle (session_of session.now) (view_of self.now) (local_view local_def_map.now) in
            let asked = asked_by Other shadow expected_macro_subns in
            let answer = resolve w asked original_module path.now in
            result ≡ (answer.resolved_def, answer.segment_index) }
    {
        self.data.resolve_path(
            &self.table,
            local_def_map,
            db,
            session,
            original_module,
            path,
            shadow,
            expected_macro_subns,
        )
    }

    /// What a visibility means that is written in a module. `None` where its path leads to no module.
    pub fn resolve_visibility<D: SourceDatabase>(
        &self,
        local_def_map: &LocalDefMap,
        db: &D,
        session: &Interner,
        original_module: ModuleId,
        visibility: &RawVisibility,
    ) -> Option<Visibility>
        ensures { let oracle = D.oracle db.now in
            let w = world_of oracle (session_of session.now) (view_of self.now) (local_view local_def_map.now) in
            result ≡ visibility_of w original_module visibility.now }
    {
        self.data.resolve_visibility(
            &self.table,
            local_def_map,
            db,
            session,
            original_module,
            visibility,
        )
    }
}
