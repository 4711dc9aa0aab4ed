//! A shortest way from a root to an object, out of a search.

ghost use Rattle.std.specs.Prelude.{◌≡◌, ◌+◌, ◌<◌, ℕ, IfOk, IsSome, Some, length, option_map, slice_get};
ghost use Rattle.step_core.specs.Stands.{kept_of, name_of, root_counts_of};
ghost use Rattle.heap_walk.specs.Holders.{root_holder};
ghost use Rattle.heap_view.specs.Search.{IsLink, IsPlaceOf, IsSearch, IsWayTo, PointsTo};
ghost use Rattle.heap_view.specs.Ways.{IsWayOf};

use crate::object_lines::next_holder;
use crate::search::{Stage, search};
use crate::snapshot::root_count;
use heap_walk::{Holder, root_holder};
use heap_words::addr::Addr;
use std::alloc::{AllocError, Global};
use step_core::Core;

/// Where an object is among those that are found.
fn place_of(stages: &[Stage], object: Addr) -> Option<usize>
    ensures { IsPlaceOf stages.now object result }
{
    for place in 0..stages.len() {
        if stages[place].at == object.word() {
            return Some(place);
        }
    }
    None
}

/// The entry of an object by its lowest pointer that leads to another one.
fn link_of(core: &Core, object: Addr, target: Addr) -> Holder
    requires kept { IsSome (kept_of core.now object) }
    requires leads { PointsTo core.now object target }
    ensures { IsLink core.now object target result }
{
    core.law_shaped();
    core.law_remembers();
    let name = core.table().name(target);
    let mut place = u64::from(root_count(core)) + u64::from(object.word());
    match next_holder(core, name, &mut place) {
        Some(holder) => holder,
        None => unreachable!(),
    }
}

/// The stage at a place.
fn stage_at(stages: &[Stage], place: usize) -> Stage
    requires { place < length stages.now }
    ensures { slice_get stages.now place ≡ Some result }
{
    stages[place]
}

/// The entry of a root place.
fn root_entry(core: &Core, place: usize) -> Holder
    requires { place < length core.now.roots }
    ensures { result ≡ root_holder (root_counts_of core.now.config) place }
{
    core.law_remembers();
    root_holder(core.roots().places(), place as u32)
}

/// The way to the object of a stage, by the stages that it comes from.
fn way_to(
    alloc: Global,
    core: &Core,
    stages: &[Stage],
    place: usize,
) -> Result<Vec<Holder>, AllocError>
    requires search { IsSearch core.now stages.now }
    requires place { place < length stages.now }
    ensures { IfOk result (λ way. (stage : Stage) → slice_get stages.now place ≡ Some stage
        → IsWayTo core.now stage.at stage.depth way.items) }
{
    core.law_remembers();
    let mut way = Vec::new(alloc);
    let mut stage = stage_at(stages, place);
    while stage.depth > 0 {
        let before = stage_at(stages, stage.from);
        way.push(link_of(core, Addr::new(before.at), Addr::new(stage.at)))?;
        stage = before;
    }
    way.push(root_entry(core, stage.from))?;
    way.reverse();
    Ok(way)
}

/// A shortest way from a root to a kept object. `None`: no root leads there. The error is want of memory.
pub(crate) fn way_of(
    alloc: Global,
    core: &Core,
    object: Addr,
) -> Result<Option<Vec<Holder>>, AllocError>
    requires { IsSome (kept_of core.now object) }
    ensures { IfOk result (λ way. (n : ℕ) → name_of (kept_of core.now object) ≡ Some n
        → IsWayOf core.now n (option_map (λ holders. holders.items) way)) }
{
    core.law_remembers();
    let stages = search(alloc, core)?;
    match place_of(&stages, object) {
        Some(place) => Ok(Some(way_to(alloc, core, &stages, place)?)),
        None => Ok(None),
    }
}
