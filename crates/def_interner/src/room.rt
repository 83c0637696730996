//! Room for the items of a tree.
ghost use Rattle.std.specs.Prelude.{◌≡◌};

use crate::interner::Interner;
use item_tree::{ItemTree, ModItemKind};
use std::alloc::AllocError;

/// How many items of the common kinds a tree has.
#[derive(Clone, Copy)]
struct Counts {
    functions: usize,
    structs: usize,
    enums: usize,
    consts: usize,
    statics: usize,
    traits: usize,
    type_aliases: usize,
    impls: usize,
    uses: usize,
}

impl Counts {
    fn none() -> Counts {
        Counts {
            functions: 0,
            structs: 0,
            enums: 0,
            consts: 0,
            statics: 0,
            traits: 0,
            type_aliases: 0,
            impls: 0,
            uses: 0,
        }
    }

    /// Counts one more item.
    fn add(&mut self, kind: &ModItemKind) {
        match kind {
            ModItemKind::Function { .. } => self.functions = self.functions.saturating_add(1),
            ModItemKind::Struct { .. } => self.structs = self.structs.saturating_add(1),
            ModItemKind::Enum { .. } => self.enums = self.enums.saturating_add(1),
            ModItemKind::Const { .. } => self.consts = self.consts.saturating_add(1),
            ModItemKind::Static { .. } => self.statics = self.statics.saturating_add(1),
            ModItemKind::Trait { .. } => self.traits = self.traits.saturating_add(1),
            ModItemKind::TypeAlias { .. } => {
                self.type_aliases = self.type_aliases.saturating_add(1);
            }
            ModItemKind::Impl { .. } => self.impls = self.impls.saturating_add(1),
            ModItemKind::Use { .. } => self.uses = self.uses.saturating_add(1),
            _ => (),
        }
    }
}

/// Counts the items of a tree.
fn count(tree: &ItemTree) -> Counts {
    let mut counts = Counts::none();
    for node in tree.items.as_slice() {
        counts.add(&node.kind);
    }
    counts
}

impl Interner {
    /// Makes room for the items of a tree, so that they are interned with no copy of what is there.
    pub fn reserve(&mut self, tree: &ItemTree) -> Result<(), AllocError>
        ensures { self.new ≡ self.old }
    {
        let counts = count(tree);
        self.functions.reserve(counts.functions)?;
        self.structs.reserve(counts.structs)?;
        self.enums.reserve(counts.enums)?;
        self.consts.reserve(counts.consts)?;
        self.statics.reserve(counts.statics)?;
        self.traits.reserve(counts.traits)?;
        self.type_aliases.reserve(counts.type_aliases)?;
        self.impls.reserve(counts.impls)?;
        self.uses.reserve(counts.uses)
    }
}
