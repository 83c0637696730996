//! What is handed in: the answers on files, crates, macros and finished maps.
ghost use Rattle.std.specs.Prelude.{◌≡◌, map, option_map, IfOk};
ghost use Rattle.std.specs.Option.{option_copied};

use crate::def_map::DefMap;
use crate::macro_resolver::MacroResolver;
use def_ids::{BuiltinAttr, EnumLoc};
use def_modules::LocalDefMap;
use def_oracle::{
    AssocItemsOwner, AssocList, AttrCallQuery, CallAnswer, CallQuery, CrateData, DeriveCallQuery,
    EnumVariant, UnresolvedMacro,
};
use either::Either;
use item_tree::{
    BlockId, Crate, FileAstId, FileId, HirFileId, InFile, ItemTree, MacroCallId, MacroCallStyles,
    Name, TreeId,
};
use std::alloc::{AllocError, Global};

/// The answers on files, crates, macros and finished maps. Each is a function of its arguments.
///
/// A macro call asks the resolver only for paths that the call itself determines, and its answer
/// follows from what the resolver finds for them: resolvers of equal meaning get equal answers.
pub trait SourceDatabase {
    ghost use Rattle.def_interner.specs.Session.{in_module};
    ghost use Rattle.def_map.specs.DefMaps.{state_of, view_of};
    ghost use Rattle.def_map.specs.MapStates.{MapStates};
    ghost use Rattle.def_modules.specs.Locals.{local_view};
    ghost use Rattle.def_oracle.specs.Oracle.{Oracle};
    ghost use Rattle.def_oracle.specs.Queries.{plain_call, plain_attr_call};

    /// All answers.
    ghost oracle: { Self → Oracle };

    /// What finished maps show beside what paths read of them, as how deep their expansions may nest.
    ghost states: { Self → MapStates };

    /// The items of a file or a block. None counts as an empty tree.
    fn item_tree(&self, id: TreeId) -> Option<&ItemTree>
        ensures { option_copied result ≡ (oracle self.now).item_tree id };

    fn crate_data(&self, krate: Crate) -> Option<&CrateData>
        ensures { option_copied result ≡ (oracle self.now).crate_data krate };

    /// The finished map of a crate.
    fn crate_def_map(&self, krate: Crate) -> Option<&DefMap>
        ensures view { option_map (λ m. view_of m.now) result ≡ (oracle self.now).crate_def_map krate }
        ensures state { option_map (λ m. state_of m.now) result ≡ (states self.now).of_crate krate };

    /// The finished map of a block.
    fn outer_map(&self, block: BlockId) -> Option<&DefMap>
        ensures view { option_map (λ m. view_of m.now) result ≡ (oracle self.now).outer_map block }
        ensures state { option_map (λ m. state_of m.now) result ≡ (states self.now).of_block block };

    /// The finished local map of a crate.
    fn local_def_map(&self, krate: Crate) -> Option<&LocalDefMap>
        ensures { option_map (λ m. local_view m.now) result ≡ (oracle self.now).local_def_map krate };

    /// The file at a path, seen from another file.
    fn resolve_path(&self, anchor: FileId, path: &str) -> Option<FileId>
        ensures { result ≡ (oracle self.now).resolve_path anchor path.now };

    /// The source file behind expansions.
    fn original_file(&self, file: HirFileId) -> FileId
        ensures { result ≡ (oracle self.now).original_file file };

    /// How many expansions lead to a file.
    fn expansion_depth(&self, file: HirFileId) -> u32
        ensures { result ≡ (oracle self.now).expansion_depth file };

    /// Expands a macro call, if the resolver finds its macro.
    fn macro_call<R: MacroResolver>(
        &self,
        alloc: Global,
        query: CallQuery<'_>,
        resolver: &R,
    ) -> Result<Result<CallAnswer, UnresolvedMacro>, AllocError>
        ensures { let asked = (oracle self.now).asked_paths (plain_call query.entry) in
            let found = map (R.resolved resolver.now) asked in
            IfOk result (λ answer. answer ≡ (oracle self.now).macro_call (plain_call query.entry) found) };

    fn make_attr_call(&self, query: AttrCallQuery<'_>) -> MacroCallId
        ensures { result ≡ (oracle self.now).make_attr_call (plain_attr_call query.entry) };

    fn make_derive_call(&self, query: DeriveCallQuery) -> MacroCallId
        ensures { result ≡ (oracle self.now).make_derive_call query };

    /// Whether a call is one of `include!`.
    fn is_include(&self, call: MacroCallId) -> bool
        ensures { result ≡ (oracle self.now).is_include call };

    /// The variants of an enum, in order.
    fn enum_variants(&self, loc: &EnumLoc) -> Option<&[EnumVariant]>
        ensures { option_copied result ≡ (oracle self.now).enum_variants (in_module loc.now.container loc.now.position) };

    fn assoc_items(&self, owner: AssocItemsOwner) -> Option<&AssocList>
        ensures { option_copied result ≡ (oracle self.now).assoc_items owner };

    /// The ways in which the rules of a macro, in a crate, may be called.
    fn rule_styles(&self, position: InFile<FileAstId>, krate: Crate) -> MacroCallStyles
        ensures { result ≡ (oracle self.now).rule_styles position krate };

    /// The procedural macros that were built for a crate: name, number, and whether it is switched
    /// off.
    fn proc_macros(&self, krate: Crate) -> &[(Name, u32, bool)]
        ensures { result.now ≡ (oracle self.now).proc_macros krate };

    /// The builtin macro of a name: on the left one that is expanded as it stands, on the right an
    /// eager one.
    fn find_builtin_macro(&self, name: Name) -> Option<Either<u32, u32>>
        ensures { result ≡ (oracle self.now).find_builtin_macro name };

    fn find_builtin_derive(&self, name: Name) -> Option<u32>
        ensures { result ≡ (oracle self.now).find_builtin_derive name };

    fn find_builtin_attr(&self, name: Name) -> Option<BuiltinAttr>
        ensures { result ≡ (oracle self.now).find_builtin_attr name };

    fn builtin_type(&self, name: Name) -> Option<u32>
        ensures { result ≡ (oracle self.now).builtin_type name };

    /// Whether an attribute of this name is the compiler's own.
    fn is_builtin_attr(&self, name: Name) -> bool
        ensures { result ≡ (oracle self.now).is_builtin_attr name };

    /// Whether a builtin derive gives an impl with no expansion.
    fn has_builtin_derive_impl(&self, derive: u32) -> bool
        ensures { result ≡ (oracle self.now).has_builtin_derive_impl derive };

    /// The traits that a builtin derive implements.
    fn derive_traits(&self, derive: u32) -> &[u32]
        ensures { result.now ≡ (oracle self.now).derive_traits derive };

    /// Whether a crate is compiled with this condition of one word.
    fn cfg_flag(&self, krate: Crate, name: Name) -> bool
        ensures { result ≡ (oracle self.now).cfg_flag krate name };

    /// Whether builtin derives give impls with no expansion where they can.
    fn builtin_derive_fast_path(&self) -> bool
        ensures { result ≡ (oracle self.now).builtin_derive_fast_path };

    /// Whether attribute macros are expanded.
    fn expand_proc_attr_macros(&self) -> bool
        ensures { result ≡ (oracle self.now).expand_proc_attr_macros };
}
