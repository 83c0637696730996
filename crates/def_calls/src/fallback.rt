//! Attributes whose macros are not found: which one is given up, and what becomes of its place.
ghost use Rattle.std.specs.Prelude.{◌≡◌, ◌≤◌, ◌++◌, ◌∷◌, [], List, Some, Contains, IfNone, IfSome, IsPermutation, OnOk, length, slice_get, take};
ghost use Rattle.std.specs.List.{insert};
ghost use Rattle.def_calls.specs.Shown.{IsLeft, kind_of, macro_directive_of, macros_in, written_attr_of};
ghost use Rattle.def_rules.specs.Fallback.{attr_diagnostic};
ghost use Rattle.def_rules.specs.Settled.{IsNoAttribute};
ghost use Rattle.def_rules.specs.Waiting as waits;
ghost use Rattle.def_calls.specs.declared.directives.MacroDirective.{MacroDirective};

use crate::directives::{MacroDirective, MacroDirectiveKind, WrittenAttr};
use def_rules::{DefDiagnostic, DefDiagnosticKind, LeftMacroKind};
use std::alloc::AllocError;
use std::collections::VecDeque;

/// An item that waits for the macro of an attribute: its place among what waits, and it.
#[derive(Clone, Copy)]
pub struct WaitingItem<'a> {
    pub at: usize,
    pub directive: MacroDirective<'a>,
    pub written: WrittenAttr<'a>,
}

/// The first item that waits for the macro of an attribute.
pub fn first_item<'a>(directives: &VecDeque<MacroDirective<'a>>) -> Option<WaitingItem<'a>>
    ensures here { IfSome result (λ item. slice_get directives.now.items item.at ≡ Some item.directive) }
    ensures attr { IfSome result (λ item. kind_of item.directive.kind ≡ waits.Attr (written_attr_of item.written)) }
    ensures first { IfSome result (λ item. (d : waits.MacroDirective) → Contains (macros_in (take item.at directives.now.items)) d → IsNoAttribute d.kind) }
    ensures none { IfNone result ((d : waits.MacroDirective) → Contains (macros_in directives.now.items) d → IsNoAttribute d.kind) }
{
    'directives: for at in 0..directives.len() {
        let item = item_at(directives, at);
        if item.is_some() {
            return item;
        }
    }
    None
}

/// The item that waits for the macro of an attribute at a place, if one does.
fn item_at<'a>(directives: &VecDeque<MacroDirective<'a>>, at: usize) -> Option<WaitingItem<'a>>
    ensures place { IfSome result (λ item. item.at ≡ at) }
    ensures here { IfSome result (λ item. slice_get directives.now.items item.at ≡ Some item.directive) }
    ensures attr { IfSome result (λ item. kind_of item.directive.kind ≡ waits.Attr (written_attr_of item.written)) }
    ensures none { IfNone result ((d : MacroDirective) →
        slice_get directives.now.items at ≡ Some d → IsNoAttribute (kind_of d.kind)) }
{
    let Some(directive) = directives.get(at) else {
        return None;
    };
    match directive.kind {
        MacroDirectiveKind::Attr(written) => {
            Some(WaitingItem {
                at,
                directive: *directive,
                written,
            })
        }
        MacroDirectiveKind::FnLike(_) | MacroDirectiveKind::Derive(_) => None,
    }
}

/// Reports an attribute whose macro is not found. On `Err` nothing but safety is promised.
pub fn report_attr(
    diagnostics: &mut Vec<DefDiagnostic>,
    directive: &MacroDirective<'_>,
    written: WrittenAttr<'_>,
) -> Result<(), AllocError>
    ensures { OnOk result (diagnostics.new.items
        ≡ diagnostics.old.items ++ attr_diagnostic (macro_directive_of directive.now) (written_attr_of written.entry) ∷ []) }
{
    diagnostics.push(DefDiagnostic {
        module: directive.module_id,
        ast_id: directive.position,
        kind: DefDiagnosticKind::UnresolvedMacroCall {
            kind: LeftMacroKind::Attr(written.attr_id),
            path: written.attr.path.clone()?,
        },
    })?;
    Ok(())
}

/// Lets what waits at a place leave; the others stay in order.
pub fn take_out<'a>(
    directives: &mut VecDeque<MacroDirective<'a>>,
    at: usize,
    directive: MacroDirective<'a>,
)
    requires { slice_get directives.old.items at ≡ Some directive }
    ensures { IsLeft (macros_in directives.old.items) (macro_directive_of directive.entry) (macros_in directives.new.items) }
{
    directives.remove(at);
}

/// Lets the last of what waits take the place of one that left, if there is any behind it. On `Err`
/// nothing but safety is promised.
pub fn fill_gap<'a>(
    directives: &mut VecDeque<MacroDirective<'a>>,
    at: usize,
) -> Result<(), AllocError>
    ensures filled { OnOk result ((before : List MacroDirective) (last : MacroDirective) →
        directives.old.items ≡ before ++ last ∷ [] → at ≤ length before → directives.new.items ≡ insert before at last) }
    ensures same { OnOk result (length directives.old.items ≤ at → directives.new.items ≡ directives.old.items) }
    ensures order { OnOk result (IsPermutation (macros_in directives.old.items) (macros_in directives.new.items)) }
{
    if directives.len() <= at {
        return Ok(());
    }
    let Some(last) = directives.pop_back() else {
        return Ok(());
    };
    directives.insert(at, last)?;
    Ok(())
}
