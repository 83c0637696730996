//! What the path of an import gives, and what is kept of it.
ghost use Rattle.std.specs.Prelude.{◌≡◌, option_copied};
ghost use Rattle.def_map.specs.PathAnswer.{whole};
ghost use Rattle.def_map.specs.PerNs.{in_namespace};
ghost use Rattle.def_rules.specs.Globs.{is_public};
ghost use Rattle.def_rules.specs.Imports as imports;

use def_bindings::{Namespace, Visibility};
use def_map::{Item, PathAnswer, ReachedFixedPoint, ResolvePathResult};

/// Whether something is public.
pub fn is_public(vis: Visibility) -> bool
    ensures { result ≡ is_public vis }
{
    match vis {
        Visibility::Public => true,
        _ => false,
    }
}

/// Whether another crate was entered.
pub fn is_foreign(answer: &PathAnswer) -> bool
    ensures { result ≡ imports.is_foreign (whole answer.now) }
{
    match answer {
        PathAnswer::Lone(_, _) => false,
        PathAnswer::Whole(answer) => answer.prefix_info.differing_crate,
    }
}

/// Whether nothing is found, or a segment is left.
fn is_nothing_found(answer: &ResolvePathResult) -> bool
    ensures { result ≡ imports.is_missing answer.now }
{
    answer.reached_fixedpoint == ReachedFixedPoint::No
        || answer.resolved_def.is_none()
        || answer.segment_index.is_some()
}

/// Whether a path gives nothing for an import: a prefix or everything is missing, or a segment is
/// left.
pub fn is_missing(answer: &PathAnswer) -> bool
    ensures { result ≡ imports.is_missing (whole answer.now) }
{
    match answer {
        PathAnswer::Lone(_, _) => false,
        PathAnswer::Whole(answer) => is_nothing_found(answer),
    }
}

/// What a path gives in a namespace.
pub fn found_in<'a>(answer: &PathAnswer<'a>, ns: Namespace) -> Option<&'a Item>
    ensures { option_copied result ≡ in_namespace (whole answer.now).resolved_def ns }
{
    match answer {
        PathAnswer::Lone(lone, item) => { if lone.is_same(ns) { Some(*item) } else { None } }
        PathAnswer::Whole(answer) => match ns {
            Namespace::Types => answer.resolved_def.types.as_ref(),
            Namespace::Values => answer.resolved_def.values.as_ref(),
            Namespace::Macros => answer.resolved_def.macros.as_ref(),
        },
    }
}

/// What is kept of that: of another crate what is public.
pub fn kept_in<'a>(answer: &PathAnswer<'a>, ns: Namespace) -> Option<&'a Item>
    ensures { option_copied result
        ≡ imports.kept_item (whole answer.now) (in_namespace (whole answer.now).resolved_def ns) }
{
    let item = found_in(answer, ns)?;
    if !is_foreign(answer) || is_public(item.vis) {
        Some(item)
    } else {
        None
    }
}
