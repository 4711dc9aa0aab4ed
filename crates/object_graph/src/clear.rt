//! Weak slots become nil that hold a name which isn't flagged.

ghost use Rattle.std.specs.Prelude.{◌≡◌, ◌<◌, length, map, slice_set};
ghost use Rattle.heap_model.specs.Weak.{cleared_slot, cleared_names};
ghost use Rattle.object_graph.specs.Fields.{object_in};
ghost use Rattle.object_graph.specs.Reached.{flag_of};

use crate::objects::Objects;
use crate::pointer::Pointer;

/// What a weak slot holds once it was cleared: nil in place of a name below the limit that isn't flagged.
fn cleared(slot: Pointer, first_name: u64, limit: u64, flags: &[bool]) -> Pointer
    ensures { result ≡ cleared_slot (flag_of first_name flags.now) limit slot }
{
    let Some(name) = slot.name() else {
        return Pointer::nil();
    };
    if name >= limit {
        return slot;
    }
    if first_name > name {
        return Pointer::nil();
    }
    match flags.get((name - first_name) as usize) {
        Some(true) => slot,
        _ => Pointer::nil(),
    }
}

/// Each weak slot of one object is cleared.
fn clear_slots(objects: &mut Objects, place: usize, first_name: u64, limit: u64, flags: &[bool])
    requires { place < length objects.old }
    ensures { objects.new ≡ slice_set objects.old place (cleared_names (flag_of first_name flags.now) limit (object_in objects.old place)) }
{
    for slot in 0..u32::from(objects.weak_count(place)) {
        let Some(was) = objects.get_weak(place, slot) else {
            return;
        };
        objects.set_weak(place, slot, cleared(was, first_name, limit, flags));
    }
}

/// Each weak slot of every object is cleared.
pub(crate) fn clear_all(objects: &mut Objects, first_name: u64, limit: u64, flags: &[bool])
    ensures { objects.new ≡ map (cleared_names (flag_of first_name flags.now) limit) objects.old }
{
    for place in 0..objects.len() {
        clear_slots(objects, place, first_name, limit, flags);
    }
}
