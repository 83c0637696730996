//! The imports that may still be recorded, and the lists that say in which order passes try them.
ghost use Rattle.std.specs.Prelude.{◌≡◌, IfSome, option_copied};
ghost use Rattle.def_rules.specs.Imports.{is_empty};
ghost use Rattle.def_steps.specs.Listed.{IsListed, entry_in, is_in, kept_entry, stands_in};
ghost use Rattle.def_steps.specs.Shown.{ns_set};

use crate::directive::{Import, ImportDirective, NamespaceSet};
use def_ids::{ModuleId, UseId};
use item_tree::{FileAstId, InFile, RawVisibility, UseImport};
use std::alloc::{AllocError, Global};

/// A list of imports: those that are unresolved, or those that are indeterminate.
#[derive(Clone, Copy)]
pub enum ImportList {
    Unresolved,
    Indeterminate,
}

/// An import, by its list and its place there.
#[derive(Clone, Copy)]
pub struct ImportAt {
    pub list: ImportList,
    pub index: usize,
}

/// What all imports of a `use` item share.
#[derive(Clone, Copy)]
pub struct WrittenUse<'a> {
    pub position: InFile<FileAstId>,
    pub use_id: UseId,
    pub vis: &'a RawVisibility,
    /// Whether the item has `#[prelude_import]`.
    pub is_prelude: bool,
}

/// The imports that may still be recorded. Each stays where it was queued, so one that is recorded
/// is neither copied nor moved, and passes go over lists of numbers.
pub struct PendingImports<'a> {
    /// The imports, in the order in which they were queued. One of which nothing more may be
    /// recorded leaves `None`.
    pub(crate) directives: Vec<Option<ImportDirective<'a>>>,
    /// The numbers of those that are unresolved, in order. One that is recorded stays listed until
    /// `drop_left`.
    pub(crate) unresolved: Vec<usize>,
    /// The numbers of those that are indeterminate, in the order in which they became so. One that
    /// left stays listed until `drop_left`.
    pub(crate) indeterminate: Vec<usize>,
    ghost listed: { IsListed directives.items unresolved.items indeterminate.items },
}

impl Drop for PendingImports<'_> {
    fn drop(self) {
        let PendingImports {
            directives: _,
            unresolved: _,
            indeterminate: _,
        } = self;
    }
}

impl ImportList {
    /// Whether an import that was recorded from these namespaces stands in this list.
    fn has(self, recorded: NamespaceSet) -> bool
        ensures { result ≡ is_in self (ns_set recorded) }
    {
        match self {
            ImportList::Unresolved => recorded.is_empty(),
            ImportList::Indeterminate => !recorded.is_empty(),
        }
    }

    /// The import of an entry, if it stands in this list.
    #[inline(always)]
    fn entry<'b, 'a>(
        self,
        entry: &'b Option<ImportDirective<'a>>,
    ) -> Option<&'b ImportDirective<'a>>
        ensures { option_copied result ≡ entry_in self entry.now }
    {
        match entry {
            Some(directive) if self.has(directive.recorded) => Some(directive),
            _ => None,
        }
    }
}

/// Whether the import of this number stands in a list.
fn stands_in(directives: &[Option<ImportDirective>], list: ImportList, number: usize) -> bool
    ensures { result ≡ stands_in list directives.now number }
{
    match directives.get(number) {
        Some(entry) => list.entry(entry).is_some(),
        None => false,
    }
}

/// Leaves of an import what may still be recorded of it: itself with these namespaces, or nothing.
fn keep_of(entry: &mut Option<ImportDirective>, kept: Option<NamespaceSet>)
    ensures { entry.new ≡ kept_entry entry.old kept }
{
    match kept {
        Some(recorded) => {
            if let Some(directive) = entry {
                directive.recorded = recorded;
            }
        }
        None => *entry = None,
    }
}

impl<'a> PendingImports<'a> {
    ghost use Rattle.std.specs.Prelude.{◌++◌, ◌∷◌, [], Some, true, false, length, slice_get, slice_set, OnOk};
    ghost use Rattle.def_rules.specs.Imports.{no_namespaces};
    ghost use Rattle.def_steps.specs.declared.directive.ImportDirective.{ImportDirective};
    ghost use Rattle.def_steps.specs.ImportLists.{IsInOrder, IsRetired, import_at, numbers_in, pending, queued};
    ghost use Rattle.def_steps.specs.Listed.{has_number, with_number};
    ghost use Rattle.def_steps.specs.Shown.{directive_of, directives_kept, import_of, kept_with};

    /// No imports.
    pub fn new(alloc: Global) -> Self
        ensures { pending result ≡ [] }
    {
        PendingImports {
            directives: Vec::new(alloc),
            unresolved: Vec::new(alloc),
            indeterminate: Vec::new(alloc),
        }
    }

    /// Makes room for so many more imports.
    pub fn reserve(&mut self, imports: usize) -> Result<(), AllocError>
        ensures { pending self.new ≡ pending self.old }
    {
        self.directives.reserve(imports)?;
        self.unresolved.reserve(imports)?;
        self.indeterminate.reserve(imports)
    }

    /// The numbers in one of the two lists.
    #[inline(always)]
    fn numbers(&self, list: ImportList) -> &[usize]
        ensures { result.now ≡ numbers_in list self.now }
    {
        match list {
            ImportList::Unresolved => self.unresolved.as_slice(),
            ImportList::Indeterminate => self.indeterminate.as_slice(),
        }
    }

    /// How many places one of the two lists has.
    pub fn places(&self, list: ImportList) -> usize
        ensures { result ≡ length (numbers_in list self.now) }
    {
        self.numbers(list).len()
    }

    /// The import at a place of a list, if one stands there. What left the list leaves its place.
    #[inline(always)]
    pub fn at(&self, at: ImportAt) -> Option<&ImportDirective<'a>>
        ensures { option_copied result ≡ import_at self.now at }
    {
        let number = self.numbers(at.list).get(at.index)?;
        let entry = self.directives.get(*number)?;
        at.list.entry(entry)
    }

    /// All imports, in the order in which they were queued, with `None` for those that left.
    pub fn entries(&self) -> &[Option<ImportDirective<'a>>]
        ensures { result.now ≡ self.now.directives.items }
    {
        self.directives.as_slice()
    }

    /// Appends an import that is unresolved. On `Err` nothing but safety is promised.
    #[inline(always)]
    fn push(&mut self, import: Import<'a>) -> Result<(), AllocError>
        ensures { OnOk result (pending self.new ≡ pending self.old ++ record { import = import_of import.entry; recorded = no_namespaces } ∷ []) }
    {
        self.unresolved.push(self.directives.len())?;
        self.directives.push(Some(ImportDirective {
            import,
            recorded: NamespaceSet::NONE,
        }))?;
        Ok(())
    }

    /// Appends the imports of a `use` item to those that are unresolved. On `Err` nothing but safety
    /// is promised.
    pub fn queue(
        &mut self,
        module_id: ModuleId,
        written: WrittenUse<'a>,
        imports: &'a [UseImport],
    ) -> Result<(), AllocError>
        ensures { OnOk result (pending self.new ≡ pending self.old ++ queued module_id written.entry imports.now) }
    {
        'imports: for import in imports {
            self.push(Import {
                module_id,
                position: written.position,
                use_id: written.use_id,
                written: import,
                vis: written.vis,
                is_prelude: written.is_prelude,
            })?;
        }
        Ok(())
    }

    /// Lists an import of one of the two lists among those that are indeterminate. On `Err` nothing but
    /// safety is promised.
    #[inline(always)]
    fn list_indeterminate(&mut self, list: ImportList, number: usize) -> Result<(), AllocError>
        requires { has_number (numbers_in list self.old) number ≡ true }
        ensures directives { self.new.directives ≡ self.old.directives }
        ensures unresolved { self.new.unresolved ≡ self.old.unresolved }
        ensures last { OnOk result (self.new.indeterminate.items ≡ with_number list number self.old.indeterminate.items) }
        ensures has { OnOk result (has_number self.new.indeterminate.items number ≡ true) }
    {
        match list {
            ImportList::Unresolved => {
                self.indeterminate.push(number)?;
                Ok(())
            }
            ImportList::Indeterminate => Ok(()),
        }
    }

    /// Leaves of the import of this number what may still be recorded of it.
    #[inline(always)]
    fn keep(&mut self, number: usize, kept: Option<NamespaceSet>)
        requires { IfSome kept (λ recorded. (is_empty (ns_set recorded) ≡ false) × (has_number self.old.indeterminate.items number ≡ true)) }
        ensures unresolved { self.new.unresolved ≡ self.old.unresolved }
        ensures indeterminate { self.new.indeterminate ≡ self.old.indeterminate }
        ensures entry { (d : ImportDirective) → slice_get self.old.directives.items number ≡ Some (Some d) →
            self.new.directives.items ≡ slice_set self.old.directives.items number (kept_with d.import kept) }
    {
        if let Some(entry) = self.directives.get_mut(number) {
            keep_of(entry, kept);
        }
    }

    /// Takes an import out. Where it stays indeterminate with these namespaces it stands last among
    /// the indeterminate ones, or where it stood among them. On `Err` nothing but safety is promised.
    #[inline(always)]
    pub fn retire(&mut self, at: ImportAt, kept: Option<NamespaceSet>) -> Result<(), AllocError>
        requires { IfSome kept (λ recorded. is_empty (ns_set recorded) ≡ false) }
        ensures retired { OnOk result ((d : ImportDirective) → import_at self.old at ≡ Some d →
            IsRetired (pending self.old) (directive_of d) (directives_kept (kept_with d.import kept)) (pending self.new)) }
        ensures order { OnOk result ((d : ImportDirective) → import_at self.old at ≡ Some d →
            IsInOrder self.old at d kept self.new) }
    {
        let Some(number) = self.numbers(at.list).get(at.index) else {
            return Ok(());
        };
        let number = *number;
        match kept {
            Some(_) => {
                self.list_indeterminate(at.list, number)?;
                self.keep(number, kept);
            }
            None => self.keep(number, None),
        }
        Ok(())
    }

    /// Drops from a list what stands there no longer.
    pub fn drop_left(&mut self, list: ImportList)
        ensures { pending self.new ≡ pending self.old }
    {
        let directives = self.directives.as_slice();
        match list {
            ImportList::Unresolved => self.unresolved.retain(|number| stands_in(
                directives,
                ImportList::Unresolved,
                *number,
            )),
            ImportList::Indeterminate => self.indeterminate.retain(|number| stands_in(
                directives,
                ImportList::Indeterminate,
                *number,
            )),
        }
    }
}
