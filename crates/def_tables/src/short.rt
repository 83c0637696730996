//! Bindings in short, as numbers that say the rest together with the map that they are of.
ghost use Rattle.std.specs.Prelude.{◌≡◌, IfSome};
ghost use Rattle.def_tables.specs.Short as meant;

use crate::kept::Kept;
use def_bindings::{Binding, ImportOrExternCrate};
use def_ids::{
    ConstId, Def, EnumId, ExternCrateId, FunctionId, GlobId, ImportId, Macro2Id, MacroId,
    MacroRulesId, MapId, ModuleId, ProcMacroId, StaticId, StructId, TraitId, TypeAliasId, UnionId,
    UseId, VariantId,
};

/// What kind of definition it is, where a number says which one.
#[derive(Clone, Copy)]
pub enum Kind {
    Module,
    Function,
    Struct,
    Union,
    Enum,
    Variant,
    Const,
    Static,
    Trait,
    TypeAlias,
    MacroRules,
    Macro2,
    ProcMacro,
}

/// What brought a binding, where numbers say which import.
#[derive(Clone, Copy)]
pub enum Source {
    Declaration,
    Import,
    Glob,
    ExternCrate,
}

/// The definition of a kind with this number.
#[inline(always)]
fn long_def(map: MapId, kind: Kind, number: usize) -> Def
    ensures { result ≡ meant.long_def map kind number }
{
    match kind {
        Kind::Module => Def::Module(ModuleId { map, index: number }),
        Kind::Function => Def::Function(FunctionId(number)),
        Kind::Struct => Def::Struct(StructId(number)),
        Kind::Union => Def::Union(UnionId(number)),
        Kind::Enum => Def::Enum(EnumId(number)),
        Kind::Variant => Def::Variant(VariantId(number)),
        Kind::Const => Def::Const(ConstId(number)),
        Kind::Static => Def::Static(StaticId(number)),
        Kind::Trait => Def::Trait(TraitId(number)),
        Kind::TypeAlias => Def::TypeAlias(TypeAliasId(number)),
        Kind::MacroRules => Def::Macro(MacroId::MacroRules(MacroRulesId(number))),
        Kind::Macro2 => Def::Macro(MacroId::Macro2(Macro2Id(number))),
        Kind::ProcMacro => Def::Macro(MacroId::ProcMacro(ProcMacroId(number))),
    }
}

/// A definition in short. Modules of other maps have no short form, and builtin types none, since few
/// names stand for one.
#[inline(always)]
fn short_def(map: MapId, def: &Def) -> Option<(Kind, usize)>
    ensures { IfSome result (λ s. meant.long_def map s.0 s.1 ≡ def.now) }
{
    match def {
        Def::Module(module) => {
            if module.map == map {
                Some((Kind::Module, module.index))
            } else {
                None
            }
        }
        Def::Function(id) => Some((Kind::Function, id.0)),
        Def::Struct(id) => Some((Kind::Struct, id.0)),
        Def::Union(id) => Some((Kind::Union, id.0)),
        Def::Enum(id) => Some((Kind::Enum, id.0)),
        Def::Variant(id) => Some((Kind::Variant, id.0)),
        Def::Const(id) => Some((Kind::Const, id.0)),
        Def::Static(id) => Some((Kind::Static, id.0)),
        Def::Trait(id) => Some((Kind::Trait, id.0)),
        Def::TypeAlias(id) => Some((Kind::TypeAlias, id.0)),
        Def::Builtin(_) => None,
        Def::Macro(MacroId::MacroRules(id)) => Some((Kind::MacroRules, id.0)),
        Def::Macro(MacroId::Macro2(id)) => Some((Kind::Macro2, id.0)),
        Def::Macro(MacroId::ProcMacro(id)) => Some((Kind::ProcMacro, id.0)),
    }
}

/// A number in short, where it has few bits.
#[inline(always)]
pub fn short_number(number: usize) -> Option<u32>
    ensures { IfSome result (λ short. short ≡ number) }
{
    if number <= u32::MAX as usize {
        Some(number as u32)
    } else {
        None
    }
}

/// What brought a binding, by its source and numbers.
#[inline(always)]
fn long_import(source: Source, id: usize, idx: u32) -> Option<ImportOrExternCrate>
    ensures { result ≡ meant.long_import source id idx }
{
    match source {
        Source::Declaration => None,
        Source::Import => Some(ImportOrExternCrate::Import(ImportId {
            use_id: UseId(id),
            idx,
        })),
        Source::Glob => Some(ImportOrExternCrate::Glob(GlobId {
            use_id: UseId(id),
            idx,
        })),
        Source::ExternCrate => Some(ImportOrExternCrate::ExternCrate(ExternCrateId(id))),
    }
}

/// What brought a binding, in short.
#[inline(always)]
fn short_import(import: Option<ImportOrExternCrate>) -> (Source, usize, u32)
    ensures { meant.long_import result.0 result.1 result.2 ≡ import }
{
    match import {
        None => (Source::Declaration, 0, 0),
        Some(ImportOrExternCrate::Import(import)) => (Source::Import, import.use_id.0, import.idx),
        Some(ImportOrExternCrate::Glob(glob)) => (Source::Glob, glob.use_id.0, glob.idx),
        Some(ImportOrExternCrate::ExternCrate(id)) => (Source::ExternCrate, id.0, 0),
    }
}

/// A binding in short.
#[derive(Clone, Copy)]
pub struct Short<K> {
    pub kind: Kind,
    pub source: Source,
    pub idx: u32,
    pub def: u32,
    pub vis: K,
    pub import: u32,
}

/// A binding in short, where it has a short form.
#[inline(always)]
pub fn in_short<V: Copy, K: Kept<V>>(map: MapId, binding: &Binding<V>) -> Option<Short<K>>
    ensures { IfSome result (λ s. meant.long K.meaning map s ≡ binding.now) }
{
    let (kind, def) = short_def(map, &binding.def)?;
    let def = short_number(def)?;
    let vis = K::keep(map, binding.vis)?;
    let (source, import, idx) = short_import(binding.import);
    let import = short_number(import)?;
    Some(Short {
        kind,
        source,
        idx,
        def,
        vis,
        import,
    })
}

/// The binding.
#[inline(always)]
pub fn in_full<V: Copy, K: Kept<V>>(map: MapId, short: Short<K>) -> Binding<V>
    ensures { result ≡ meant.long K.meaning map short }
{
    Binding {
        def: long_def(map, short.kind, short.def as usize),
        vis: short.vis.vis(map),
        import: long_import(short.source, short.import as usize, short.idx),
    }
}
