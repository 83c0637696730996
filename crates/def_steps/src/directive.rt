//! Imports, and the namespaces that they were recorded from.
ghost use Rattle.std.specs.Prelude.{◌≡◌, ◌&&◌, true, length, nat_lt, option_copied, option_map};
ghost use Rattle.def_rules.specs.Imports as imports;
ghost use Rattle.def_rules.specs.Recording as recording;
ghost use Rattle.def_rules.specs.Items as items;
ghost use Rattle.def_rules.specs.ExternCrates as crate_rules;
ghost use Rattle.def_map.specs.PathAnswer.{whole};
ghost use Rattle.def_map.specs.PerNs.{per_namespace};
ghost use Rattle.def_map.specs.Tables.{found_by};
ghost use Rattle.def_steps.specs.Shown.{import_of, kept_of, ns_set};

use crate::answer::{found_in, is_foreign, is_missing, kept_in};
use def_bindings::{ImportOrExternCrate, Namespace, Visibility};
use def_ids::{Def, GlobId, ImportId, ModuleId, UseId};
use def_map::{FoundName, Item, PathAnswer};
use item_tree::{
    FileAstId, ImportAlias, ImportKind, InFile, ItemNode, ModPath, Name, PathKind, RawVisibility,
    UseImport, sym,
};

/// One import of a `use` item that was reached, with the module and the item that it stands in.
/// It refers to the item tree.
#[derive(Clone, Copy)]
pub struct Import<'a> {
    pub module_id: ModuleId,
    pub position: InFile<FileAstId>,
    pub use_id: UseId,
    /// Its path, alias and kind.
    pub written: &'a UseImport,
    pub vis: &'a RawVisibility,
    /// Whether the item has `#[prelude_import]`.
    pub is_prelude: bool,
}

/// A set of namespaces.
#[derive(Clone, Copy)]
pub struct NamespaceSet {
    pub types: bool,
    pub values: bool,
    pub macros: bool,
}

/// An import that may still be recorded, with the namespaces that it was recorded from so far. With
/// none it is unresolved, with some indeterminate.
#[derive(Clone, Copy)]
pub struct ImportDirective<'a> {
    pub import: Import<'a>,
    pub recorded: NamespaceSet,
}

impl NamespaceSet {
    /// No namespace.
    pub const NONE: NamespaceSet = NamespaceSet {
        types: false,
        values: false,
        macros: false,
    };

    /// The namespaces in which something was found.
    pub fn given(answer: &PathAnswer) -> NamespaceSet
        ensures { ns_set result ≡ imports.given_set (whole answer.now).resolved_def }
    {
        NamespaceSet {
            types: found_in(answer, Namespace::Types).is_some(),
            values: found_in(answer, Namespace::Values).is_some(),
            macros: found_in(answer, Namespace::Macros).is_some(),
        }
    }

    /// The namespaces that a name stands in.
    #[inline(always)]
    pub fn found(name: &FoundName) -> NamespaceSet
        ensures { ns_set result ≡ imports.given_set (per_namespace (found_by name.now)) }
    {
        NamespaceSet {
            types: name.is_in(Namespace::Types),
            values: name.is_in(Namespace::Values),
            macros: name.is_in(Namespace::Macros),
        }
    }

    /// Whether it has no namespace.
    pub fn is_empty(self) -> bool
        ensures { result ≡ imports.is_empty (ns_set self) }
    {
        !(self.types || self.values || self.macros)
    }

    /// All three namespaces.
    pub fn is_full(self) -> bool
        ensures { result ≡ imports.is_full (ns_set self) }
    {
        self.types && self.values && self.macros
    }

    /// The namespaces of either set.
    pub fn union(self, other: NamespaceSet) -> NamespaceSet
        ensures { ns_set result ≡ imports.union (ns_set self) (ns_set other) }
    {
        NamespaceSet {
            types: self.types || other.types,
            values: self.values || other.values,
            macros: self.macros || other.macros,
        }
    }

    /// Whether the other set has a namespace that this one lacks.
    pub fn is_extended_by(self, other: NamespaceSet) -> bool
        ensures { result ≡ imports.is_extended (ns_set self) (ns_set other) }
    {
        (other.types && !self.types)
            || (other.values && !self.values)
            || (other.macros && !self.macros)
    }
}

/// What an import that is recorded stays indeterminate with, after what it had recorded. It is
/// resolved where another crate was entered, or where it has all three namespaces.
pub fn kept_after(recorded: NamespaceSet, answer: &PathAnswer) -> Option<NamespaceSet>
    ensures { kept_of result ≡ imports.kept_after (ns_set recorded) (whole answer.now) }
{
    if is_foreign(answer) {
        return None;
    }
    let all = recorded.union(NamespaceSet::given(answer));
    if all.is_full() { None } else { Some(all) }
}

/// Whether an import that was recorded from these namespaces is to be recorded, for the first time
/// or once more.
pub fn is_ready(recorded: NamespaceSet, answer: &PathAnswer) -> bool
    ensures { result ≡ imports.is_ready (ns_set recorded) (whole answer.now) }
{
    !is_missing(answer)
        && (is_foreign(answer) || recorded.is_extended_by(NamespaceSet::given(answer)))
}

/// How visible what is taken in types of an import's answer is, before the import lessens it. An
/// extern crate that is imported by its name alone is as visible as the import.
pub fn reexported_vis(path: &ModPath, vis: Visibility, item: &Item) -> Visibility
    ensures { result ≡ (imports.reexported path.now vis item.now).vis }
{
    if is_by_crate(item.import) && is_lone_name(path) {
        vis
    } else {
        item.vis
    }
}

/// Whether an extern crate made a binding.
fn is_by_crate(import: Option<ImportOrExternCrate>) -> bool
    ensures { result ≡ imports.is_by_crate import }
{
    match import {
        Some(ImportOrExternCrate::ExternCrate(_)) => true,
        _ => false,
    }
}

/// Whether a path has fewer than two segments, and no word but `self` before them.
fn is_lone_name(path: &ModPath) -> bool
    ensures { result ≡ imports.is_plain_or_self path.now.kind && nat_lt (length path.now.segments) 2 }
{
    is_plain_or_self(path.kind) && path.segments.as_slice().len() < 2
}

/// Whether a path has no word before its first segment, or `self` alone.
fn is_plain_or_self(kind: PathKind) -> bool
    ensures { result ≡ imports.is_plain_or_self kind }
{
    match kind {
        PathKind::Plain => true,
        PathKind::Super(levels) => levels == 0,
        _ => false,
    }
}

/// The module that an import makes the prelude: that which the glob of an item with
/// `#[prelude_import]` leads to.
pub fn new_prelude(import: &Import, answer: &PathAnswer) -> Option<ModuleId>
    ensures { result ≡ recording.new_prelude (import_of import.now) (whole answer.now) }
{
    match import.written.kind {
        ImportKind::Plain | ImportKind::TypeOnly => None,
        ImportKind::Glob => {
            if !import.is_prelude {
                return None;
            }
            module_of(kept_in(answer, Namespace::Types))
        }
    }
}

/// The module that was found, if it is one.
fn module_of(item: Option<&Item>) -> Option<ModuleId>
    ensures { result ≡ recording.module_if true (option_map (λ i. i.def) (option_copied item.entry)) }
{
    item?.def.as_module()
}

/// Whether an item has `#[prelude_import]`.
pub fn is_prelude_import(node: &ItemNode) -> bool
    ensures { result ≡ items.is_prelude_import node.now.attrs }
{
    match &node.attrs {
        Some(attrs) => attrs.attrs().by_key(sym::PRELUDE_IMPORT).exists(),
        None => false,
    }
}

/// Whether an import of this kind keeps what it finds in a namespace.
pub fn keeps_ns(kind: ImportKind, ns: Namespace) -> bool
    ensures { result ≡ imports.keeps_ns kind ns }
{
    match kind {
        ImportKind::Plain | ImportKind::Glob => true,
        ImportKind::TypeOnly => match ns {
            Namespace::Types => true,
            Namespace::Values | Namespace::Macros => false,
        },
    }
}

/// The name that an import binds: its alias, else the last segment of its path. A glob binds none of
/// its own.
pub fn import_name(written: &UseImport) -> Option<Option<Name>>
    ensures { result ≡ imports.bound_name written.now }
{
    match written.kind {
        ImportKind::Plain | ImportKind::TypeOnly => plain_name(written),
        ImportKind::Glob => None,
    }
}

/// The name that an extern crate binds: its alias, else its own. None is `_`.
pub fn crate_name(name: Name, alias: Option<ImportAlias>) -> Option<Name>
    ensures { result ≡ crate_rules.crate_name name alias }
{
    match alias {
        Some(ImportAlias::Alias(name)) => Some(name),
        Some(ImportAlias::Underscore) => None,
        None => Some(name),
    }
}

/// The alias of an import, else the last segment of its path.
fn plain_name(written: &UseImport) -> Option<Option<Name>>
    ensures { result ≡ imports.name_or written.now.alias written.now.path.segments }
{
    match written.alias {
        Some(ImportAlias::Alias(name)) => Some(Some(name)),
        Some(ImportAlias::Underscore) => Some(None),
        None => match written.path.segments.as_slice().last() {
            Some(name) => Some(Some(*name)),
            None => None,
        },
    }
}

impl Import<'_> {
    /// Its number, as a glob.
    pub fn glob_id(&self) -> GlobId
        ensures { result ≡ recording.glob_id (import_of self.now) }
    {
        let idx = self.written.idx;
        GlobId {
            use_id: self.use_id,
            idx,
        }
    }

    /// What its bindings are brought by.
    pub fn origin(&self) -> ImportOrExternCrate
        ensures { result ≡ imports.origin_of (import_of self.now) }
    {
        ImportOrExternCrate::Import(ImportId {
            use_id: self.use_id,
            idx: self.written.idx,
        })
    }
}
