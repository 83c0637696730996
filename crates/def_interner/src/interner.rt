//! The tables of a session.
ghost use Rattle.std.specs.Prelude.{◌≡◌, Some, IfOk, OnErr, option_map};

use crate::numbering::Numbering;
use def_ids::{
    BuiltinDeriveImplLoc, ConstLoc, EnumLoc, ExternBlockLoc, ExternCrateLoc, FunctionLoc, ImplLoc,
    Macro2Loc, MacroRulesLoc, ProcMacroLoc, StaticLoc, StructLoc, TraitLoc, TypeAliasLoc, UnionLoc,
    UseLoc,
};
use item_tree::{Name, NameTable};
use std::alloc::{AllocError, Global};

/// The names and locations of a session, each in the order in which they were first met.
pub struct Interner {
    pub names: NameTable,
    pub functions: Numbering<FunctionLoc>,
    pub structs: Numbering<StructLoc>,
    pub unions: Numbering<UnionLoc>,
    pub enums: Numbering<EnumLoc>,
    pub consts: Numbering<ConstLoc>,
    pub statics: Numbering<StaticLoc>,
    pub traits: Numbering<TraitLoc>,
    pub type_aliases: Numbering<TypeAliasLoc>,
    pub impls: Numbering<ImplLoc>,
    pub uses: Numbering<UseLoc>,
    pub extern_crates: Numbering<ExternCrateLoc>,
    pub extern_blocks: Numbering<ExternBlockLoc>,
    pub macro_rules: Numbering<MacroRulesLoc>,
    pub macro2s: Numbering<Macro2Loc>,
    pub proc_macros: Numbering<ProcMacroLoc>,
    pub builtin_derive_impls: Numbering<BuiltinDeriveImplLoc>,
}

impl Drop for Interner {
    fn drop(self) {
        let Interner {
            names: _,
            functions: _,
            structs: _,
            unions: _,
            enums: _,
            consts: _,
            statics: _,
            traits: _,
            type_aliases: _,
            impls: _,
            uses: _,
            extern_crates: _,
            extern_blocks: _,
            macro_rules: _,
            macro2s: _,
            proc_macros: _,
            builtin_derive_impls: _,
        } = self;
    }
}

impl Interner {
    ghost use Rattle.std.specs.Prelude.{OnOk, slice_get};
    ghost use Rattle.item_tree.specs.Names.{IsNameOf};
    ghost use Rattle.item_tree.specs.Numbering.{IsGrownBy};
    ghost use Rattle.def_interner.specs.Interner.{first_tables};
    ghost use Rattle.def_interner.specs.Session.{Grows, IsInjective, session_of};

    /// A session that knows the names with which every table begins, and no location.
    pub fn new(alloc: Global) -> Result<Interner, AllocError>
        ensures { IfOk result (λ session. session ≡ first_tables) }
    {
        Ok(Interner {
            names: NameTable::new(alloc)?,
            functions: Numbering::new(alloc),
            structs: Numbering::new(alloc),
            unions: Numbering::new(alloc),
            enums: Numbering::new(alloc),
            consts: Numbering::new(alloc),
            statics: Numbering::new(alloc),
            traits: Numbering::new(alloc),
            type_aliases: Numbering::new(alloc),
            impls: Numbering::new(alloc),
            uses: Numbering::new(alloc),
            extern_crates: Numbering::new(alloc),
            extern_blocks: Numbering::new(alloc),
            macro_rules: Numbering::new(alloc),
            macro2s: Numbering::new(alloc),
            proc_macros: Numbering::new(alloc),
            builtin_derive_impls: Numbering::new(alloc),
        })
    }

    /// The name of this text: its own if it has one, else the next.
    #[tactic(auto, using(crate::proofs::TableLemmas::grows_names))]
    pub fn intern_name(&mut self, text: &str) -> Result<Name, AllocError>
        // On success the name has this text.
        ensures stored { IfOk result (λ name. (session_of self.new).text name ≡ Some text.now) }

        // The names have grown at their end, or are as they were; all else stays.
        ensures grown { OnOk result (IsGrownBy text.now self.old.names self.new.names) }
        ensures others { self.new ≡ record self.old { names = self.new.names } }
        ensures grows { Grows (session_of self.old) (session_of self.new) }

        // On failure nothing changes.
        ensures unchanged { OnErr result (self.new ≡ self.old) }
    {
        self.names.intern(text)
    }

    /// The name of this text, if the session knows one.
    pub fn find_name(&self, text: &str) -> Option<Name>
        ensures { IsNameOf (session_of self.now).text text.now result }
    {
        self.names.find(text)
    }

    /// The text of a name, if the session knows it.
    pub fn text(&self, name: Name) -> Option<&str>
        ensures { option_map (λ t. t.now) result ≡ (session_of self.now).text name }
    {
        self.names.text(name)
    }

    /// A law for contracts: equal locations have equal ids, of items, of macros and of impls of
    /// derives. Nothing happens when it runs.
    #[tactic(auto, using(crate::proofs::SessionLemmas::injective_from_tables))]
    pub fn has_unique_ids(&self)
        ensures { IsInjective (session_of self.now) }
    {
        self.functions.len();
        self.structs.len();
        self.unions.len();
        self.enums.len();
        self.consts.len();
        self.statics.len();
        self.traits.len();
        self.type_aliases.len();
        self.impls.len();
        self.uses.len();
        self.extern_crates.len();
        self.extern_blocks.len();
        self.macro_rules.len();
        self.macro2s.len();
        self.proc_macros.len();
        self.builtin_derive_impls.len();
    }
}
