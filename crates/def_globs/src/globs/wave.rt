//! Waves: what changed in a module travels along the edges of globs, to the end.
ghost use Rattle.std.specs.Prelude.{◌≡◌, [], ◌∷◌, ◌++◌, IfOk, OnErr, OnOk, cond, option_to_list};
ghost use Rattle.def_bindings.specs.Puts.{copied, offered, put_entry, puts, slot_of};
ghost use Rattle.def_globs.specs.Waves.{Copies, def_at};
ghost use Rattle.def_globs.specs.Pending.{changed_at, copied_all, is_changed, reached, carried_by, ClosesPending, CopiesFirst, MendsPending, PutsFirst};
ghost use Rattle.def_globs.specs.Raised.{RaisesPending};
ghost use Rattle.def_globs.specs.Globs.{Stays};

use super::changes::Changes;
use def_bindings::{
    Binding, BindingTable, EdgeTo, Entry, Slot, VisOrder, copy_along, put_at, slot_of_entry,
};
use def_ids::ModuleId;
use std::alloc::AllocError;

/// A module whose changed slots are still to be copied along its edges from the next one on.
#[derive(Drop)]
struct Frame {
    source: ModuleId,
    next: usize,
    slots: Vec<Slot>,
}

/// Puts an entry in a module, and answers its slot where that changed something. On `Err` the
/// table stays.
fn put_entry<T: BindingTable, O: VisOrder<Vis = T::Vis>>(
    table: &mut T,
    order: &O,
    module: ModuleId,
    entry: &Entry<T::Vis>,
) -> Result<Option<Slot>, AllocError>
    ensures done { IfOk result (λ slot. let c = T.content table.old in let o = O.order order.now in
        (option_to_list slot ≡ changed_at o «module» (slot_of entry.now) (offered entry.now) c)
        × (T.content table.new ≡ put_entry o «module» entry.now c)) }
    ensures refused { OnErr result (T.content table.new ≡ T.content table.old) }
{
    let Some(slot) = slot_of_entry(entry) else {
        return Ok(None);
    };
    let offer = Binding {
        def: entry.def,
        vis: entry.vis,
        import: entry.origin,
    };
    if put_at(table, order, module, slot, &offer)? {
        return Ok(Some(slot));
    }
    Ok(None)
}

/// Adds a slot that changed, if one did, of so many that may. On `Err` the list stays.
fn note(changed: &mut Vec<Slot>, slot: Option<Slot>, most: usize) -> Result<(), AllocError>
    ensures done { OnOk result (changed.new.items ≡ changed.old.items ++ option_to_list slot) }
    ensures refused { OnErr result (changed.new.items ≡ changed.old.items) }
{
    if let Some(slot) = slot {
        // Where one changes the others mostly do.
        if changed.is_empty() {
            changed.reserve(most)?;
        }
        changed.push(slot)?;
    }
    Ok(())
}

/// Puts a list in a module, and answers the slots that changed, where the module has an edge to
/// copy them along. On `Err` a beginning of the list was put.
pub fn put_list<T: BindingTable, O: VisOrder<Vis = T::Vis>>(
    table: &mut T,
    changes: &mut Changes,
    order: &O,
    module: ModuleId,
    list: &[Entry<T::Vis>],
) -> Result<Vec<Slot>, AllocError>
    ensures done { IfOk result (λ changed. let c = T.content table.old in
        let o = O.order order.now in
        (changed.items ≡ carried_by o «module» list.now c)
        × (T.content table.new ≡ puts o «module» list.now c)) }
    ensures refused { OnErr result
        (PutsFirst (O.order order.now) «module» list.now (T.content table.old) (T.content table.new)) }
    ensures stays { Stays (T.content table.old) (T.content table.new) }
{
    // Most modules have no edge, and then the changed slots need no memory.
    let has_edge = table.has_edges(module);
    let mut changed = Vec::new(changes.alloc);
    for entry in list {
        let slot = put_entry(table, order, module, entry)?;
        changes.add(module, slot)?;
        if has_edge {
            note(&mut changed, slot, list.len())?;
        }
    }
    Ok(changed)
}

/// Copies a slot along an edge, and answers it where that changed the importer. On `Err` the table
/// stays.
fn copy_slot<T: BindingTable, O: VisOrder<Vis = T::Vis>>(
    table: &mut T,
    order: &O,
    source: ModuleId,
    edge: EdgeTo<T::Vis>,
    slot: Slot,
    near: &mut usize,
) -> Result<Option<Slot>, AllocError>
    ensures done { IfOk result (λ noted. let c = T.content table.old in let o = O.order order.now in
        (option_to_list noted ≡ cond (is_changed o source edge slot c) (slot ∷ []) [])
        × (T.content table.new ≡ copied o source edge slot c)) }
    ensures refused { OnErr result (T.content table.new ≡ T.content table.old) }
{
    if copy_along(table, order, source, edge, slot, near)? {
        return Ok(Some(slot));
    }
    Ok(None)
}

/// Copies slots along an edge, and answers those that changed the importer. On `Err` the first of
/// them were copied.
fn copy_all<T: BindingTable, O: VisOrder<Vis = T::Vis>>(
    table: &mut T,
    changes: &mut Changes,
    order: &O,
    source: ModuleId,
    edge: EdgeTo<T::Vis>,
    slots: &[Slot],
) -> Result<Vec<Slot>, AllocError>
    ensures done { IfOk result (λ changed. let c = T.content table.old in
        let o = O.order order.now in
        (changed.items ≡ reached o source edge slots.now c)
        × (T.content table.new ≡ copied_all o source edge slots.now c)) }
    ensures refused { OnErr result
        (CopiesFirst (O.order order.now) source edge slots.now (T.content table.old) (T.content table.new)) }
    ensures stays { Stays (T.content table.old) (T.content table.new) }
{
    let mut changed = Vec::new(changes.alloc);
    let mut near = 0;
    for slot in slots {
        let copied = copy_slot(table, order, source, edge, *slot, &mut near)?;
        changes.add(edge.importer, copied)?;
        note(&mut changed, copied, slots.len())?;
    }
    Ok(changed)
}

/// Copies changed slots along the edges of a module, and what changes there on from there, until
/// nothing is left. On `Err` some of the copies were made.
pub fn spread<T: BindingTable, O: VisOrder<Vis = T::Vis>>(
    table: &mut T,
    changes: &mut Changes,
    order: &O,
    module: ModuleId,
    slots: Vec<Slot>,
) -> Result<(), AllocError>
    ensures copies { let c = T.content table.old in
        Copies (O.order order.now) slots.items (def_at c «module») c (T.content table.new) }
    ensures closed { OnOk result
        (ClosesPending (O.order order.now) «module» slots.items (T.content table.old)
        (T.content table.new)) }
    ensures coherent { OnOk result
        (MendsPending (O.order order.now) «module» slots.items (T.content table.old)
        (T.content table.new)) }
    ensures raised { OnOk result
        (RaisesPending (O.order order.now) «module» slots.items (T.content table.old)
        (T.content table.new)) }
    ensures stays { Stays (T.content table.old) (T.content table.new) }
{
    // Mostly there is no slot, and then there is nothing to keep a stack for.
    if slots.is_empty() {
        return Ok(());
    }
    let mut frames = Vec::new(changes.alloc);
    frames.push(Frame {
        source: module,
        next: 0,
        slots,
    })?;
    'frames: while let Some(frame) = frames.pop() {
        let Frame {
            source,
            next,
            slots,
        } = frame;
        if let Some(edge) = table.edge_at(source, next) {
            let changed = copy_all(table, changes, order, source, edge, slots.as_slice())?;
            frames.push(Frame {
                source,
                next: next + 1,
                slots,
            })?;
            if !changed.is_empty() {
                frames.push(Frame {
                    source: edge.importer,
                    next: 0,
                    slots: changed,
                })?;
            }
        }
    }
    Ok(())
}
