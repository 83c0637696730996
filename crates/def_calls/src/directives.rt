//! Calls as they are written, calls and items that wait for macros, and calls that were made.
ghost use Rattle.std.specs.Prelude.{◌≡◌, ◌++◌, ◌∷◌, [], List, false, not, Some, map, slice_get, filter, true, IfOk, OnOk};
ghost use Rattle.def_calls.specs.declared.directives.MacroDirective.{MacroDirective as Directive};
ghost use Rattle.def_calls.specs.Shown.{IsTurned, expansion_shown, kind_of, leaves, macro_directive_of, macros_in, with_inner, with_waiting, written_derive_of};
ghost use Rattle.def_modules.specs.Maps.{map_state};
ghost use Rattle.def_parts.specs.Sites.{site_of};
ghost use Rattle.def_rules.specs.Calls.{inner_call, invoking, recording_inner, waiting};
ghost use Rattle.def_rules.specs.Derives.{derive_directive};
ghost use Rattle.def_rules.specs.Directives.{GivesCall, call_told, expansion_of};
ghost use Rattle.def_rules.specs.Report.{answer_report, left_macro, unresolved_macro};
ghost use Rattle.def_rules.specs.State.{State};
ghost use Rattle.def_rules.specs.Waiting.{Derive, FnLike, WrittenCall as WrittenCallRule};

use def_ids::{ItemContainerId, ModuleId};
use def_map::{CallAnswer, MapData, UnresolvedMacro};
use def_parts::Site;
use def_rules::{DefDiagnostic, DefDiagnosticKind, InnerCall, LeftMacro, LeftMacroKind};
use item_tree::{
    Attr, AttrId, FileAstId, InFile, ItemNode, MacroCallId, ModItemId, ModPath, SyntaxContext,
    TreeId,
};
use macro_calls::{WrittenCall, deeper};
use std::alloc::{AllocError, Global};
use std::collections::VecDeque;

/// An attribute as it is written, its number, and the item that has it.
#[derive(Clone, Copy)]
pub struct WrittenAttr<'a> {
    pub tree_id: TreeId,
    pub item: ModItemId,
    pub attr_id: AttrId,
    pub attr: &'a Attr,
}

/// A path of a derive attribute's list as it is written: the number of the attribute, the place of
/// the path, the path with its context, and the attribute's call.
#[derive(Clone, Copy)]
pub struct WrittenDerive<'a> {
    pub attr_id: AttrId,
    pub pos: usize,
    pub path: &'a ModPath,
    pub ctxt: SyntaxContext,
    pub call: MacroCallId,
}

/// What waits for a macro: a call, an item for the macro of one of its attributes, or a derive.
#[derive(Clone, Copy)]
pub enum MacroDirectiveKind<'a> {
    FnLike(WrittenCall<'a>),
    Attr(WrittenAttr<'a>),
    Derive(WrittenDerive<'a>),
}

/// What waits for a macro: the module and the container in which the items of its expansion are to
/// stand, its position, how deep its expansion lies, and whether it had a turn and stays.
#[derive(Clone, Copy)]
pub struct MacroDirective<'a> {
    pub module_id: ModuleId,
    pub container: ItemContainerId,
    pub position: InFile<FileAstId>,
    pub depth: u32,
    pub kind: MacroDirectiveKind<'a>,
    pub asked: bool,
}

impl<'a> MacroDirective<'a> {
    /// The expansion of what waited, once it was given a call.
    pub fn expansion(&self, call: MacroCallId) -> Expansion
        ensures { expansion_shown result ≡ expansion_of (macro_directive_of self.now) call }
    {
        Expansion {
            module_id: self.module_id,
            container: self.container,
            depth: self.depth,
            call,
            replaces: match self.kind {
                MacroDirectiveKind::Attr(_) => Some(self.position),
                MacroDirectiveKind::FnLike(_) | MacroDirectiveKind::Derive(_) => None,
            },
        }
    }

    /// How a derive of the attribute that waited waits: one level deeper.
    pub fn derive(&self, written: WrittenDerive<'a>) -> MacroDirective<'a>
        ensures { macro_directive_of result ≡ derive_directive (macro_directive_of self.now) (written_derive_of written.entry) }
    {
        MacroDirective {
            depth: deeper(self.depth),
            kind: MacroDirectiveKind::Derive(written),
            asked: false,
            ..*self
        }
    }
}

/// An expansion that is to be walked: the module and the container in which its items are to stand,
/// how deep they lie, its call, and the item in whose place they stand, where an attribute was called.
#[derive(Clone, Copy)]
pub struct Expansion {
    pub module_id: ModuleId,
    pub container: ItemContainerId,
    pub depth: u32,
    pub call: MacroCallId,
    pub replaces: Option<InFile<FileAstId>>,
}

/// Lets an item wait for a macro, whose expansion is to stand one level deeper. On `Err` nothing but
/// safety is promised.
#[inline(never)]
pub fn queue_macro<'a>(
    directives: &mut VecDeque<MacroDirective<'a>>,
    site: &Site,
    node: &ItemNode,
    kind: MacroDirectiveKind<'a>,
) -> Result<(), AllocError>
    ensures { OnOk result (macros_in directives.new.items
        ≡ macros_in directives.old.items ++ waiting (site_of site.now) node.now (kind_of kind.entry) ∷ []) }
{
    directives.push_back(MacroDirective {
        module_id: site.module_id,
        container: site.container,
        position: site.position(node),
        depth: deeper(site.depth),
        kind,
        asked: false,
    })?;
    Ok(())
}

/// Gives a call that waits first its answer: the calls that were made for its arguments are to be
/// recorded, and with a call of its own it leaves, and its expansion is to be walked. Answers whether it
/// was given one. On `Err` nothing but safety is promised.
pub fn settle_call<'a>(
    def_map: &mut MapData,
    directives: &mut VecDeque<MacroDirective<'a>>,
    inner_calls: &mut Vec<InnerCall>,
    expansions: &mut VecDeque<Expansion>,
    directive: MacroDirective<'a>,
    answer: &Result<CallAnswer, UnresolvedMacro>,
) -> Result<bool, AllocError>
    requires { slice_get directives.old.items 0 ≡ Some directive }
    ensures turned { OnOk result ((s : State) →
        let d = macro_directive_of directive.entry in
        let before = with_inner (with_waiting s def_map.old directives.old.items expansions.old.items) inner_calls.old.items in
        IsTurned before d (call_told before d answer.now) (with_inner (with_waiting s def_map.new directives.new.items expansions.new.items) inner_calls.new.items)) }
    ensures given { IfOk result (λ given. (s : State) → given ≡ leaves (call_told s (macro_directive_of directive.entry) answer.now).turn) }
    ensures same { IfOk result (λ given. given ≡ false → directives.new.items ≡ directives.old.items) }
{
    let Ok(answer) = answer else {
        return Ok(false);
    };
    queue_inner(inner_calls, directive.module_id, answer.inner.as_slice())?;
    let Some(call) = answer.value else {
        return Ok(false);
    };
    give_call(def_map, directives, expansions, directive, call)?;
    Ok(true)
}

/// Gives what waits first a call: it leaves, the call is recorded, and its expansion is to be walked.
/// On `Err` nothing but safety is promised.
pub fn give_call<'a>(
    def_map: &mut MapData,
    directives: &mut VecDeque<MacroDirective<'a>>,
    expansions: &mut VecDeque<Expansion>,
    directive: MacroDirective<'a>,
    call: MacroCallId,
) -> Result<(), AllocError>
    requires { slice_get directives.old.items 0 ≡ Some directive }
    ensures { OnOk result ((s : State) →
        let before = with_waiting s def_map.old directives.old.items expansions.old.items in
        IsTurned before (macro_directive_of directive.entry) (record { state = before; turn = GivesCall call })
        (with_waiting s def_map.new directives.new.items expansions.new.items)) }
{
    def_map.add_macro_invoc(directive.module_id.index, directive.position, call)?;
    leave(directives, directive);
    expansions.push_back(directive.expansion(call))?;
    Ok(())
}

/// Lets what waits first leave.
pub fn leave<'a>(directives: &mut VecDeque<MacroDirective<'a>>, directive: MacroDirective<'a>)
    requires { slice_get directives.old.items 0 ≡ Some directive }
    ensures { directives.old.items ≡ directive.entry ∷ directives.new.items }
{
    directives.pop_front();
}

/// Lets what waits first stay: it goes behind the others, as one that had its turn. On `Err` nothing
/// but safety is promised.
pub fn stay<'a>(
    directives: &mut VecDeque<MacroDirective<'a>>,
    directive: MacroDirective<'a>,
) -> Result<(), AllocError>
    requires { slice_get directives.old.items 0 ≡ Some directive }
    ensures { OnOk result ((others : List Directive) → directives.old.items ≡ directive.entry ∷ others →
        directives.new.items ≡ others ++ record directive.entry { asked = true } ∷ []) }
{
    leave(directives, directive);
    let asked = MacroDirective {
        asked: true,
        ..directive
    };
    directives.push_back(asked)?;
    Ok(())
}

/// Puts what had its turn and stays before what was queued meanwhile, each in order. On `Err` nothing
/// but safety is promised.
pub fn put_asked_first<'a>(
    alloc: Global,
    directives: &mut VecDeque<MacroDirective<'a>>,
) -> Result<(), AllocError>
    ensures { OnOk result (directives.new.items
        ≡ filter (λ d. d.asked) directives.old.items ++ filter (λ d. not d.asked) directives.old.items) }
{
    let mut queued = VecDeque::new(alloc);
    'directives: for i in 0..directives.len() {
        let directive = directives[i];
        if !directive.asked {
            queued.push_back(directive)?;
        }
    }
    directives.retain(|directive| directive.asked);
    directives.append(&mut queued)?;
    Ok(())
}

/// Records calls in a module, each at its position. On `Err` nothing but safety is promised.
pub fn record_calls(
    def_map: &mut MapData,
    module: usize,
    calls: &[(InFile<FileAstId>, MacroCallId)],
) -> Result<(), AllocError>
    ensures { OnOk result (map_state def_map.new ≡ invoking «module» calls.now (map_state def_map.old)) }
{
    'calls: for call in calls {
        def_map.add_macro_invoc(module, call.0, call.1)?;
    }
    Ok(())
}

/// Lets calls that were made for arguments wait until they are recorded in a module. On `Err` nothing
/// but safety is promised.
fn queue_inner(
    inner_calls: &mut Vec<InnerCall>,
    module_id: ModuleId,
    calls: &[(InFile<FileAstId>, MacroCallId)],
) -> Result<(), AllocError>
    ensures { OnOk result (inner_calls.new.items ≡ inner_calls.old.items ++ map (inner_call module_id) calls.now) }
{
    'calls: for call in calls {
        inner_calls.push(InnerCall {
            module_id,
            position: call.0,
            call: call.1,
        })?;
    }
    Ok(())
}

/// Records the calls that wait for it, in order; none waits afterwards. On `Err` nothing but safety is
/// promised.
pub fn record_inner(
    def_map: &mut MapData,
    inner_calls: &mut Vec<InnerCall>,
) -> Result<(), AllocError>
    ensures recorded { OnOk result (map_state def_map.new ≡ recording_inner inner_calls.old.items (map_state def_map.old)) }
    ensures none { OnOk result (inner_calls.new.items ≡ []) }
{
    'calls: for call in inner_calls.as_slice() {
        def_map.add_macro_invoc(call.module_id.index, call.position, call.call)?;
    }
    inner_calls.clear();
    Ok(())
}

/// The macros that are left over, in order.
pub fn left_macros(
    alloc: Global,
    directives: &VecDeque<MacroDirective<'_>>,
) -> Result<Vec<LeftMacro>, AllocError>
    ensures { IfOk result (λ left. left.items ≡ map left_macro (macros_in directives.now.items)) }
{
    let mut left = Vec::new(alloc);
    'directives: for i in 0..directives.len() {
        left.push(left_macro(&directives[i])?)?;
    }
    Ok(left)
}

/// What waits for a macro, as it is left over.
fn left_macro(directive: &MacroDirective<'_>) -> Result<LeftMacro, AllocError>
    ensures { IfOk result (λ left. left ≡ left_macro (macro_directive_of directive.now)) }
{
    let (kind, path) = match directive.kind {
        MacroDirectiveKind::FnLike(written) => (LeftMacroKind::Fn, written.path.clone()?),
        MacroDirectiveKind::Attr(written) => {
            (
                LeftMacroKind::Attr(written.attr_id),
                written.attr.path.clone()?,
            )
        }
        MacroDirectiveKind::Derive(written) => {
            (
                LeftMacroKind::Derive(written.attr_id, written.pos),
                written.path.clone()?,
            )
        }
    };
    Ok(LeftMacro {
        module: directive.module_id,
        ast_id: directive.position,
        kind,
        path,
        depth: directive.depth,
    })
}

/// Reports a call that is left over, by its answer: only that its macro is not found. On `Err`
/// nothing but safety is promised.
pub fn report_left_call(
    diagnostics: &mut Vec<DefDiagnostic>,
    directive: &MacroDirective<'_>,
    answer: Result<CallAnswer, UnresolvedMacro>,
) -> Result<(), AllocError>
    ensures { OnOk result ((written : WrittenCallRule) → (macro_directive_of directive.now).kind ≡ FnLike written →
        diagnostics.new.items ≡ diagnostics.old.items ++ answer_report (macro_directive_of directive.now) answer) }
{
    let Err(unresolved) = answer else {
        return Ok(());
    };
    diagnostics.push(DefDiagnostic {
        module: directive.module_id,
        ast_id: directive.position,
        kind: DefDiagnosticKind::UnresolvedMacroCall {
            kind: LeftMacroKind::Fn,
            path: unresolved.path,
        },
    })?;
    Ok(())
}

/// Reports a derive that is left over. On `Err` nothing but safety is promised.
pub fn report_left_derive(
    diagnostics: &mut Vec<DefDiagnostic>,
    directive: &MacroDirective<'_>,
    written: WrittenDerive<'_>,
) -> Result<(), AllocError>
    ensures { OnOk result ((macro_directive_of directive.now).kind ≡ Derive (written_derive_of written.entry) →
        diagnostics.new.items ≡ diagnostics.old.items ++ unresolved_macro (macro_directive_of directive.now) written.entry.path.now ∷ []) }
{
    diagnostics.push(DefDiagnostic {
        module: directive.module_id,
        ast_id: directive.position,
        kind: DefDiagnosticKind::UnresolvedMacroCall {
            kind: LeftMacroKind::Derive(written.attr_id, written.pos),
            path: written.path.clone()?,
        },
    })?;
    Ok(())
}
