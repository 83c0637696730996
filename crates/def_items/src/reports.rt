//! What is reported of items and files.
ghost use Rattle.std.specs.Prelude.{◌≡◌, ◌∷◌, ◌++◌, [], false, Some, is_some, IfOk, IfSome, OnOk};
ghost use Rattle.item_tree.specs.Attrs.{disabled_by};
ghost use Rattle.def_modules.specs.Maps.{map_state};
ghost use Rattle.def_parts.specs.Sites.{site_of};
ghost use Rattle.def_rules.specs.declared.diagnostics.DefDiagnosticKind.TheVariants.{UnconfiguredCode};
ghost use Rattle.def_rules.specs.Items.{diagnostic};
ghost use Rattle.def_rules.specs.Start.{first_reports};

use def_ids::ModuleId;
use def_map::MapData;
use def_parts::Site;
use def_rules::{DefDiagnostic, DefDiagnosticKind};
use item_tree::{CfgExpr, FileAstId, InFile, ItemNode, TreeId};
use std::alloc::AllocError;

/// Reports something of an item. On `Err` nothing but safety is promised.
#[inline(never)]
pub fn report(
    diagnostics: &mut Vec<DefDiagnostic>,
    site: &Site,
    node: &ItemNode,
    kind: DefDiagnosticKind,
) -> Result<(), AllocError>
    ensures { OnOk result (diagnostics.new.items
        ≡ diagnostics.old.items ++ diagnostic (site_of site.now) node.now kind ∷ []) }
{
    diagnostics.push(DefDiagnostic {
        module: site.module_id,
        ast_id: site.position(node),
        kind,
    })?;
    Ok(())
}

/// Reports an item that cfg disables. Answers the condition that is not met, if there is one. On
/// `Err` nothing but safety is promised.
pub fn report_disabled_item(
    diagnostics: &mut Vec<DefDiagnostic>,
    site: &Site,
    node: &ItemNode,
) -> Result<Option<CfgExpr>, AllocError>
    ensures cfg { IfOk result (λ cfg. cfg ≡ disabled_by node.now.attrs) }
    ensures reported { IfOk result (λ cfg. IfSome cfg (λ c. diagnostics.new.items
        ≡ diagnostics.old.items ++ diagnostic (site_of site.now) node.now (UnconfiguredCode c) ∷ [])) }
    ensures same { IfOk result (λ cfg. is_some cfg ≡ false → diagnostics.new ≡ diagnostics.old) }
{
    let Some(cfg) = node.disabled_by() else {
        return Ok(None);
    };
    report(
        diagnostics,
        site,
        node,
        DefDiagnosticKind::UnconfiguredCode { cfg },
    )?;
    Ok(Some(cfg))
}

/// Reports a crate's root file that cfg disables. Of a block nothing is reported. On `Err` nothing
/// but safety is promised.
pub fn report_disabled(
    diagnostics: &mut Vec<DefDiagnostic>,
    def_map: &MapData,
    tree_id: TreeId,
    cfg: CfgExpr,
) -> Result<(), AllocError>
    ensures { OnOk result (let m = map_state def_map.now in
        diagnostics.new.items ≡ diagnostics.old.items ++ first_reports m tree_id (is_some m.id.block) (Some cfg)) }
{
    let map = def_map.tree.map;
    let in_block = map.block.is_some();
    if in_block {
        return Ok(());
    }
    diagnostics.push(DefDiagnostic {
        module: ModuleId { map, index: 0 },
        ast_id: InFile {
            file: tree_id.file,
            value: FileAstId(0),
        },
        kind: DefDiagnosticKind::UnconfiguredCode { cfg },
    })?;
    Ok(())
}
