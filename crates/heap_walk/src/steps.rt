//! The steps of a search: who holds the objects of a level, and isn't found yet.

ghost use Rattle.std.specs.Prelude.{◌≡◌, ◌<◌, ◌≤◌, ◌↔◌, IsSome, IsTrue, Some, length, slice_get};
ghost use Rattle.step_core.specs.Stands.{kept_of};
ghost use Rattle.heap_walk.specs.Searching.{GrowsTo, IsAmong, IsLinkOf, IsNewStepOf, IsPointerOf, IsRootOf, IsRootStepIn};

use crate::finding::root_count;
use crate::holders::{Holder, holder_in, root_holder_at};
use crate::kept::kept_from;
use crate::starts::{tile_above, tile_from};
use heap_words::addr::Addr;
use step_core::Core;

/// A step of a search that a root holds, by its place in the buffer.
#[derive(Drop)]
pub(crate) struct RootStep {
    pub(crate) at: usize,
    pub(crate) root: Holder,
}

/// The lowest root that holds the object of a name.
fn root_of(core: &Core, name: u64) -> Option<Holder>
    ensures { IsRootOf core.now name result }
{
    for place in 0..root_count(core) {
        if let Some(holder) = root_holder_at(core, place, name) {
            return Some(holder);
        }
    }
    None
}

/// A kept object, if a pointer of it leads to the object of a name.
fn pointer_of(core: &Core, object: Addr, name: u64) -> Option<Holder>
    requires { IsSome (kept_of core.now object) }
    ensures { IsPointerOf core.now object name result }
{
    match holder_in(core, object, name) {
        Some(holder) => { if holder.kind == 2 { Some(holder) } else { None } }
        None => None,
    }
}

/// The step at a place.
pub(crate) fn step_at(steps: &[Holder], at: usize) -> Holder
    requires { at < length steps.now }
    ensures { slice_get steps.now at ≡ Some result }
{
    steps[at]
}

/// Whether the object of a name has one of the steps from one place on to below another.
fn is_among(steps: &[Holder], from: usize, to: usize, name: u64) -> bool
    requires { to ≤ length steps.now }
    ensures { IsTrue result ↔ IsAmong steps.now from to name }
{
    for at in from..to {
        if step_at(steps, at).name == name {
            return true;
        }
    }
    false
}

/// A step of a kept object to one of the steps from one place on to below another, if a pointer of it leads there.
fn link_of(core: &Core, object: Addr, steps: &[Holder], from: usize, to: usize) -> Option<Holder>
    requires kept { IsSome (kept_of core.now object) }
    requires within { to ≤ length steps.now }
    requires few { to < 4294967296 }
    ensures { IsLinkOf core.now object steps.now from to result }
{
    for at in from..to {
        if let Some(holder) = pointer_of(core, object, step_at(steps, at).name) {
            return Some(Holder {
                name: holder.name,
                kind: holder.kind,
                mutator: at as u32,
                place: holder.place,
                fields: holder.fields,
            });
        }
    }
    None
}

/// The step of a kept object to a level, from one place on to below another, if the object isn't among those from `next` on yet.
fn new_step(
    core: &Core,
    object: Addr,
    steps: &[Holder],
    level: (usize, usize),
    next: usize,
    room: usize,
) -> Option<Holder>
    requires kept { IsSome (kept_of core.now object) }
    requires within { level.1 ≤ room }
    requires room { room ≤ length steps.now }
    requires few { room < 4294967296 }
    ensures { IsNewStepOf core.now object steps.now level.0 level.1 next room result }
{
    match link_of(core, object, steps, level.0, level.1) {
        Some(step) => {
            if is_among(steps, next, room, step.name) {
                None
            } else {
                Some(step)
            }
        }
        None => None,
    }
}

/// Adds a level to the steps, which are from `low` on, below them: all that hold an object of the last level, which is from `low` to
/// below `last`, and have no step yet. `None`: there is no room, and place 0 is kept free.
pub(crate) fn grow(
    core: &Core,
    steps: &mut [Holder],
    low: usize,
    last: usize,
    room: usize,
) -> Option<usize>
    requires positive { 0 < low }
    requires down { low ≤ last }
    requires within { last ≤ room }
    requires room { room ≤ length steps.old }
    requires few { room < 4294967296 }
    ensures { GrowsTo core.now steps.old steps.new low last room result }
{
    core.law_shaped();
    let mut next = low;
    let mut left = tile_from(core.table(), Addr::new(0));
    while let Some(object) = kept_from(core, left) {
        if let Some(step) = new_step(core, object, steps, (low, last), next, room) {
            if next == 1 {
                return None;
            }
            next -= 1;
            steps[next] = step;
        }
        left = tile_above(core.table(), object);
    }
    Some(next)
}

/// A root that holds an object of a level.
pub(crate) fn root_step(core: &Core, steps: &[Holder], from: usize, to: usize) -> Option<RootStep>
    requires { to ≤ length steps.now }
    ensures { IsRootStepIn core.now steps.now from to result }
{
    for at in from..to {
        if let Some(root) = root_of(core, step_at(steps, at).name) {
            return Some(RootStep { at, root });
        }
    }
    None
}
