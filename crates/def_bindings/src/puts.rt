//! Puts of bindings, and their copies along the edges of globs.
ghost use Rattle.std.specs.Prelude.{◌≡◌, Some, is_some, option_map, IfOk, OnErr};
ghost use Rattle.def_bindings.specs.Puts.{held, fitted, settled, settled_over, settled_by_glob, written, put, slot_of, answer, copied, glob_of, unnamed_binding};

use crate::binding_table::BindingTable;
use crate::bindings::{Binding, EdgeTo, Entry, ImportOrExternCrate, Namespace, Slot};
use crate::visibility::{VisOrder, is_raised, lesser_or_import};
use def_ids::{Def, GlobId, ModuleId, TraitId, UseId};
use std::alloc::AllocError;

/// What a glob's offer makes of a place that a glob bound, or `None` where it changes nothing.
fn settle_by_glob<O: VisOrder>(
    order: &O,
    there: Binding<O::Vis>,
    offer: Binding<O::Vis>,
    glob: GlobId,
    later: GlobId,
) -> Option<Binding<O::Vis>>
    ensures { result ≡ settled_by_glob (O.order order.now) there offer glob later }
{
    if there.def == offer.def {
        if is_raised(order, there.vis, offer.vis) {
            Some(Binding {
                def: there.def,
                vis: offer.vis,
                import: there.import,
            })
        } else {
            None
        }
    } else if glob == later {
        Some(offer)
    } else {
        None
    }
}

/// What an offer makes of a place that holds a binding, or `None` where it changes nothing.
fn settle_over<O: VisOrder>(
    order: &O,
    there: Binding<O::Vis>,
    offer: Binding<O::Vis>,
) -> Option<Binding<O::Vis>>
    ensures { result
        ≡ settled_over (O.order order.now) there offer (glob_of there.import) (glob_of offer.import) }
{
    match (glob(there.import), glob(offer.import)) {
        (Some(first), Some(later)) => settle_by_glob(order, there, offer, first, later),
        (Some(_), None) => Some(offer),
        (None, _) => None,
    }
}

/// The glob that brought a binding, if one did.
fn glob(import: Option<ImportOrExternCrate>) -> Option<GlobId>
    ensures { result ≡ glob_of import }
{
    match import {
        Some(ImportOrExternCrate::Glob(glob)) => Some(glob),
        _ => None,
    }
}

/// An unnamed trait as a binding: by a glob, so that its visibility can rise.
fn as_binding<V: Copy>(item: TraitId, vis: V) -> Binding<V>
    ensures { result ≡ unnamed_binding item vis }
{
    Binding {
        def: Def::Trait(item),
        vis,
        import: Some(ImportOrExternCrate::Glob(GlobId {
            use_id: UseId(0),
            idx: 0,
        })),
    }
}

/// What a module binds at a slot.
#[inline(always)]
pub fn held_at<T: BindingTable>(table: &T, module: ModuleId, slot: Slot) -> Option<Binding<T::Vis>>
    ensures { result ≡ held (T.content table.now) «module» slot }
{
    match slot {
        Slot::Named(name, ns) => table.binding(module, name, ns),
        Slot::Unnamed(item) => match table.unnamed_vis(module, item) {
            Some(vis) => Some(as_binding(item, vis)),
            None => None,
        },
    }
}

/// The visibility of what a module binds at a slot.
#[inline(always)]
fn vis_at<T: BindingTable>(
    table: &T,
    module: ModuleId,
    slot: Slot,
    near: &mut usize,
) -> Option<T::Vis>
    ensures { result ≡ option_map (λ b. b.vis) (held (T.content table.now) «module» slot) }
{
    match slot {
        Slot::Named(name, ns) => table.visibility_near(module, name, ns, near),
        Slot::Unnamed(item) => table.unnamed_vis(module, item),
    }
}

/// Writes a binding, where there is one, and answers whether there was. A refused call changes
/// nothing.
pub fn write<T: BindingTable>(
    table: &mut T,
    module: ModuleId,
    slot: Slot,
    binding: Option<Binding<T::Vis>>,
) -> Result<bool, AllocError>
    ensures done { IfOk result (λ changed. (changed ≡ is_some binding)
        × (T.content table.new ≡ written (T.content table.old) «module» slot binding)) }
    ensures refused { OnErr result (T.content table.new ≡ T.content table.old) }
{
    let Some(binding) = binding else {
        return Ok(false);
    };
    match slot {
        Slot::Named(name, ns) => table.set(module, name, ns, binding)?,
        Slot::Unnamed(item) => table.set_unnamed(module, item, binding.vis)?,
    }
    Ok(true)
}

/// The binding as the slot can hold it.
pub fn fit<V: Copy>(slot: Slot, binding: Binding<V>) -> Binding<V>
    ensures { result ≡ fitted slot binding }
{
    match slot {
        Slot::Named(_, _) => binding,
        Slot::Unnamed(item) => as_binding(item, binding.vis),
    }
}

/// Puts an offer where something may be bound, and answers whether that changed it. A refused call
/// changes nothing. It stands apart, since most places are vacant.
#[inline(never)]
fn put_over<T: BindingTable, O: VisOrder<Vis = T::Vis>>(
    table: &mut T,
    order: &O,
    module: ModuleId,
    slot: Slot,
    offer: &Binding<T::Vis>,
) -> Result<bool, AllocError>
    ensures done { IfOk result (λ changed. let c = T.content table.old in
        let o = O.order order.now in
        (changed ≡ is_some (settled o (held c «module» slot) (fitted slot offer.now)))
        × (T.content table.new ≡ put o c «module» slot offer.now)) }
    ensures refused { OnErr result (T.content table.new ≡ T.content table.old) }
{
    let offer = fit(slot, *offer);
    let settled = match held_at(table, module, slot) {
        Some(there) => settle_over(order, there, offer),
        None => Some(offer),
    };
    write(table, module, slot, settled)
}

/// Puts an offer at a place, and answers whether that changed it. A refused call changes nothing.
#[inline(always)]
pub fn put_at<T: BindingTable, O: VisOrder<Vis = T::Vis>>(
    table: &mut T,
    order: &O,
    module: ModuleId,
    slot: Slot,
    offer: &Binding<T::Vis>,
) -> Result<bool, AllocError>
    ensures done { IfOk result (λ changed. let c = T.content table.old in
        let o = O.order order.now in
        (changed ≡ is_some (settled o (held c «module» slot) (fitted slot offer.now)))
        × (T.content table.new ≡ put o c «module» slot offer.now)) }
    ensures refused { OnErr result (T.content table.new ≡ T.content table.old) }
{
    if table.bind(module, slot, offer)? {
        return Ok(true);
    }
    put_over(table, order, module, slot, offer)
}

/// Where an entry goes. One without a name is an unnamed trait where it is in types; in another
/// namespace, or where it is no trait, it goes nowhere.
pub fn slot_of_entry<V: Copy>(entry: &Entry<V>) -> Option<Slot>
    ensures { result ≡ slot_of entry.now }
{
    match (entry.name, entry.ns, entry.def) {
        (Some(name), ns, _) => Some(Slot::Named(name, ns)),
        (None, Namespace::Types, Def::Trait(item)) => Some(Slot::Unnamed(item)),
        _ => None,
    }
}

/// Copies a slot along an edge, and answers whether that changed the importer. Only what the source
/// binds and the importer sees is copied. A refused call changes nothing.
pub fn copy_along<T: BindingTable, O: VisOrder<Vis = T::Vis>>(
    table: &mut T,
    order: &O,
    source: ModuleId,
    edge: EdgeTo<T::Vis>,
    slot: Slot,
    near: &mut usize,
) -> Result<bool, AllocError>
    ensures done { IfOk result (λ changed. let c = T.content table.old in
        let o = O.order order.now in
        (changed ≡ is_some (answer o edge slot (held c source slot) (held c edge.importer slot)))
        × (T.content table.new ≡ copied o source edge slot c)) }
    ensures refused { OnErr result (T.content table.new ≡ T.content table.old) }
{
    // Most of what is bound is seen by no importer, and then its visibility alone is read.
    let Some(vis) = vis_at(table, source, slot, near) else {
        return Ok(false);
    };
    if !order.visible(vis, edge.importer) {
        return Ok(false);
    }
    let Some(own) = held_at(table, source, slot) else {
        return Ok(false);
    };
    let offer = Binding {
        def: own.def,
        vis: lesser_or_import(order, own.vis, edge.vis),
        import: Some(ImportOrExternCrate::Glob(edge.glob)),
    };
    put_at(table, order, edge.importer, slot, &offer)
}
