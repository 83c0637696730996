//! The macro that the path of an attribute names, and why a procedural macro gives nothing.
ghost use Rattle.std.specs.Prelude.{◌≡◌};
ghost use Rattle.def_map.specs.Asking.{world_lent};
ghost use Rattle.def_rules.specs.Attributes as rules;
ghost use Rattle.def_sources.specs.Tables.{bound_by};

use crate::path_resolver::PathResolver;
use def_ids::{CustomProcMacroExpander, ModuleId};
use def_interner::MacroDefId;
use def_map::{BuiltinShadowMode, MacroResolver, MacroSubNs, SourceDatabase, Table, World};
use def_rules::ExpandErrorKind;
use item_tree::{Attr, ModPath, Name, PathKind};

/// Whether a path is that of a builtin attribute, or of one of these tools.
pub fn is_builtin_or_registered_attr<D: SourceDatabase>(
    db: &D,
    tools: &[Name],
    path: &ModPath,
) -> bool
    ensures { result ≡ rules.is_builtin_or_registered_attr (D.oracle db.now) tools.now path.now }
{
    match path.kind {
        PathKind::Plain => are_known(db, tools, path.segments.as_slice()),
        _ => false,
    }
}

/// Whether segments name a builtin attribute, or one of these tools'.
fn are_known<D: SourceDatabase>(db: &D, tools: &[Name], segments: &[Name]) -> bool
    ensures { result ≡ rules.are_known (D.oracle db.now) tools.now segments.now }
{
    match segments {
        [] => false,
        [name] => tools.contains(name) || db.is_builtin_attr(*name),
        [name, ..] => tools.contains(name),
    }
}

/// The macro of an attribute, once imports are resolved: a macro that no attribute calls is none.
pub fn attr_macro<D: SourceDatabase>(
    world: &World<'_, D, Table>,
    module_id: ModuleId,
    attr: &Attr,
) -> Option<MacroDefId>
    ensures { result ≡ rules.attr_macro (world_lent D.oracle bound_by world.now) module_id attr.now }
{
    let resolver = PathResolver {
        world: *world,
        module_id,
        shadow: BuiltinShadowMode::Module,
        sub: MacroSubNs::Attr,
    };
    let found = resolver.resolve(&attr.path)?;
    if found.is_attribute() {
        Some(found)
    } else {
        None
    }
}

/// Why a procedural macro gives nothing, by what would expand it. It is `as_expand_error` of
/// rust-analyzer's expanders.
pub fn expand_error(expander: CustomProcMacroExpander) -> Option<ExpandErrorKind>
    ensures { result ≡ rules.expand_error expander }
{
    match expander {
        CustomProcMacroExpander::Id(_) => None,
        CustomProcMacroExpander::Missing => Some(ExpandErrorKind::MissingProcMacroExpander),
        CustomProcMacroExpander::Disabled => Some(ExpandErrorKind::MacroDisabled),
        CustomProcMacroExpander::DisabledAttr => {
            Some(ExpandErrorKind::ProcMacroAttrExpansionDisabled)
        }
    }
}
