//! What a visibility means that is written nowhere.
ghost use Rattle.std.specs.Prelude.{◌≡◌, unwrap_or};
ghost use Rattle.def_bindings.specs.declared.visibility.Visibility.TheVariants.{Public};

use def_bindings::Visibility;

/// What a written visibility means. One that means nothing where it is written is public.
pub fn meant_or_public(meant: Option<Visibility>) -> Visibility
    ensures { result ≡ unwrap_or meant Public }
{
    match meant {
        Some(vis) => vis,
        None => Visibility::Public,
    }
}
