//! The ids of items.
#![tactic(auto, using(crate::proofs::TableLemmas::items), unfolding(crate::specs::Session::shown_item))]

ghost use Rattle.std.specs.Prelude.{◌≡◌};
ghost use Rattle.def_interner.specs.Session.{ItemLoc, in_container, in_module};
ghost use Rattle.def_interner.specs.Session.{FunctionItem, StructItem, UnionItem, EnumItem};
ghost use Rattle.def_interner.specs.Session.{ConstItem, StaticItem, TraitItem, TypeAliasItem};
ghost use Rattle.def_interner.specs.Session.{ImplItem, UseItem, ExternCrateItem, ExternBlockItem};

use crate::interner::Interner;
use crate::location::{Location, LocationId};
use def_ids::{
    ConstId, ConstLoc, EnumId, EnumLoc, ExternBlockId, ExternBlockLoc, ExternCrateId,
    ExternCrateLoc, FunctionId, FunctionLoc, ImplId, ImplLoc, StaticId, StaticLoc, StructId,
    StructLoc, TraitId, TraitLoc, TypeAliasId, TypeAliasLoc, UnionId, UnionLoc, UseId, UseLoc,
};
use std::alloc::AllocError;

impl LocationId for FunctionId {
    type Loc = FunctionLoc;

    ghost number = { λ id. id.0 };

    ghost entries = { λ s. s.functions };

    ghost with_entries = { λ s locations. record s { functions = locations } };

    ghost Shown = { ItemLoc };

    ghost shown = { λ loc. in_container loc.container loc.position };

    ghost shown_at = { λ session id. session.item FunctionItem id.0 };

    fn lookup<'a>(self, session: &'a Interner) -> Option<&'a FunctionLoc> {
        session.functions.value(self.0)
    }
}

impl Location for FunctionLoc {
    type Id = FunctionId;

    fn intern(self, session: &mut Interner) -> Result<FunctionId, AllocError> {
        Ok(FunctionId(session.functions.number(self)?))
    }
}

impl LocationId for StructId {
    type Loc = StructLoc;

    ghost number = { λ id. id.0 };

    ghost entries = { λ s. s.structs };

    ghost with_entries = { λ s locations. record s { structs = locations } };

    ghost Shown = { ItemLoc };

    ghost shown = { λ loc. in_module loc.container loc.position };

    ghost shown_at = { λ session id. session.item StructItem id.0 };

    fn lookup<'a>(self, session: &'a Interner) -> Option<&'a StructLoc> {
        session.structs.value(self.0)
    }
}

impl Location for StructLoc {
    type Id = StructId;

    fn intern(self, session: &mut Interner) -> Result<StructId, AllocError> {
        Ok(StructId(session.structs.number(self)?))
    }
}

impl LocationId for UnionId {
    type Loc = UnionLoc;

    ghost number = { λ id. id.0 };

    ghost entries = { λ s. s.unions };

    ghost with_entries = { λ s locations. record s { unions = locations } };

    ghost Shown = { ItemLoc };

    ghost shown = { λ loc. in_module loc.container loc.position };

    ghost shown_at = { λ session id. session.item UnionItem id.0 };

    fn lookup<'a>(self, session: &'a Interner) -> Option<&'a UnionLoc> {
        session.unions.value(self.0)
    }
}

impl Location for UnionLoc {
    type Id = UnionId;

    fn intern(self, session: &mut Interner) -> Result<UnionId, AllocError> {
        Ok(UnionId(session.unions.number(self)?))
    }
}

impl LocationId for EnumId {
    type Loc = EnumLoc;

    ghost number = { λ id. id.0 };

    ghost entries = { λ s. s.enums };

    ghost with_entries = { λ s locations. record s { enums = locations } };

    ghost Shown = { ItemLoc };

    ghost shown = { λ loc. in_module loc.container loc.position };

    ghost shown_at = { λ session id. session.item EnumItem id.0 };

    fn lookup<'a>(self, session: &'a Interner) -> Option<&'a EnumLoc> {
        session.enums.value(self.0)
    }
}

impl Location for EnumLoc {
    type Id = EnumId;

    fn intern(self, session: &mut Interner) -> Result<EnumId, AllocError> {
        Ok(EnumId(session.enums.number(self)?))
    }
}

impl LocationId for ConstId {
    type Loc = ConstLoc;

    ghost number = { λ id. id.0 };

    ghost entries = { λ s. s.consts };

    ghost with_entries = { λ s locations. record s { consts = locations } };

    ghost Shown = { ItemLoc };

    ghost shown = { λ loc. in_container loc.container loc.position };

    ghost shown_at = { λ session id. session.item ConstItem id.0 };

    fn lookup<'a>(self, session: &'a Interner) -> Option<&'a ConstLoc> {
        session.consts.value(self.0)
    }
}

impl Location for ConstLoc {
    type Id = ConstId;

    fn intern(self, session: &mut Interner) -> Result<ConstId, AllocError> {
        Ok(ConstId(session.consts.number(self)?))
    }
}

impl LocationId for StaticId {
    type Loc = StaticLoc;

    ghost number = { λ id. id.0 };

    ghost entries = { λ s. s.statics };

    ghost with_entries = { λ s locations. record s { statics = locations } };

    ghost Shown = { ItemLoc };

    ghost shown = { λ loc. in_container loc.container loc.position };

    ghost shown_at = { λ session id. session.item StaticItem id.0 };

    fn lookup<'a>(self, session: &'a Interner) -> Option<&'a StaticLoc> {
        session.statics.value(self.0)
    }
}

impl Location for StaticLoc {
    type Id = StaticId;

    fn intern(self, session: &mut Interner) -> Result<StaticId, AllocError> {
        Ok(StaticId(session.statics.number(self)?))
    }
}

impl LocationId for TraitId {
    type Loc = TraitLoc;

    ghost number = { λ id. id.0 };

    ghost entries = { λ s. s.traits };

    ghost with_entries = { λ s locations. record s { traits = locations } };

    ghost Shown = { ItemLoc };

    ghost shown = { λ loc. in_module loc.container loc.position };

    ghost shown_at = { λ session id. session.item TraitItem id.0 };

    fn lookup<'a>(self, session: &'a Interner) -> Option<&'a TraitLoc> {
        session.traits.value(self.0)
    }
}

impl Location for TraitLoc {
    type Id = TraitId;

    fn intern(self, session: &mut Interner) -> Result<TraitId, AllocError> {
        Ok(TraitId(session.traits.number(self)?))
    }
}

impl LocationId for TypeAliasId {
    type Loc = TypeAliasLoc;

    ghost number = { λ id. id.0 };

    ghost entries = { λ s. s.type_aliases };

    ghost with_entries = { λ s locations. record s { type_aliases = locations } };

    ghost Shown = { ItemLoc };

    ghost shown = { λ loc. in_container loc.container loc.position };

    ghost shown_at = { λ session id. session.item TypeAliasItem id.0 };

    fn lookup<'a>(self, session: &'a Interner) -> Option<&'a TypeAliasLoc> {
        session.type_aliases.value(self.0)
    }
}

impl Location for TypeAliasLoc {
    type Id = TypeAliasId;

    fn intern(self, session: &mut Interner) -> Result<TypeAliasId, AllocError> {
        Ok(TypeAliasId(session.type_aliases.number(self)?))
    }
}

impl LocationId for ImplId {
    type Loc = ImplLoc;

    ghost number = { λ id. id.0 };

    ghost entries = { λ s. s.impls };

    ghost with_entries = { λ s locations. record s { impls = locations } };

    ghost Shown = { ItemLoc };

    ghost shown = { λ loc. in_module loc.container loc.position };

    ghost shown_at = { λ session id. session.item ImplItem id.0 };

    fn lookup<'a>(self, session: &'a Interner) -> Option<&'a ImplLoc> {
        session.impls.value(self.0)
    }
}

impl Location for ImplLoc {
    type Id = ImplId;

    fn intern(self, session: &mut Interner) -> Result<ImplId, AllocError> {
        Ok(ImplId(session.impls.number(self)?))
    }
}

impl LocationId for UseId {
    type Loc = UseLoc;

    ghost number = { λ id. id.0 };

    ghost entries = { λ s. s.uses };

    ghost with_entries = { λ s locations. record s { uses = locations } };

    ghost Shown = { ItemLoc };

    ghost shown = { λ loc. in_module loc.container loc.position };

    ghost shown_at = { λ session id. session.item UseItem id.0 };

    fn lookup<'a>(self, session: &'a Interner) -> Option<&'a UseLoc> {
        session.uses.value(self.0)
    }
}

impl Location for UseLoc {
    type Id = UseId;

    fn intern(self, session: &mut Interner) -> Result<UseId, AllocError> {
        Ok(UseId(session.uses.number(self)?))
    }
}

impl LocationId for ExternCrateId {
    type Loc = ExternCrateLoc;

    ghost number = { λ id. id.0 };

    ghost entries = { λ s. s.extern_crates };

    ghost with_entries = { λ s locations. record s { extern_crates = locations } };

    ghost Shown = { ItemLoc };

    ghost shown = { λ loc. in_module loc.container loc.position };

    ghost shown_at = { λ session id. session.item ExternCrateItem id.0 };

    fn lookup<'a>(self, session: &'a Interner) -> Option<&'a ExternCrateLoc> {
        session.extern_crates.value(self.0)
    }
}

impl Location for ExternCrateLoc {
    type Id = ExternCrateId;

    fn intern(self, session: &mut Interner) -> Result<ExternCrateId, AllocError> {
        Ok(ExternCrateId(session.extern_crates.number(self)?))
    }
}

impl LocationId for ExternBlockId {
    type Loc = ExternBlockLoc;

    ghost number = { λ id. id.0 };

    ghost entries = { λ s. s.extern_blocks };

    ghost with_entries = { λ s locations. record s { extern_blocks = locations } };

    ghost Shown = { ItemLoc };

    ghost shown = { λ loc. in_module loc.container loc.position };

    ghost shown_at = { λ session id. session.item ExternBlockItem id.0 };

    fn lookup<'a>(self, session: &'a Interner) -> Option<&'a ExternBlockLoc> {
        session.extern_blocks.value(self.0)
    }
}

impl Location for ExternBlockLoc {
    type Id = ExternBlockId;

    fn intern(self, session: &mut Interner) -> Result<ExternBlockId, AllocError> {
        Ok(ExternBlockId(session.extern_blocks.number(self)?))
    }
}
