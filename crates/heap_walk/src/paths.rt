//! A shortest way from a root to an object.

ghost use Rattle.std.specs.Prelude.{◌≡◌, ◌+◌, ◌-◌, ◌<◌, ◌≤◌, ℕ, None, Some, length, take};
ghost use Rattle.graph_runs.specs.State.{State};
ghost use Rattle.step_core.specs.Stands.{Stands};
ghost use Rattle.heap_walk.specs.Holders.{LinksShow};
ghost use Rattle.heap_walk.specs.Paths.{HasMany, HoldsByRoot, IsWay, TellsCount, TellsWay, WaysShow};
ghost use Rattle.heap_walk.specs.Searching.{Chain, name_at};

use crate::holders::Holder;
use crate::steps::{grow, root_step, step_at};
use step_core::Core;

/// Writes a way to the beginning of the buffer: a root, and the steps from a place on.
fn write_way(core: &Core, steps: &mut [Holder], root: Holder, at: usize, depth: usize, room: usize)
    requires positive { 0 < at }
    requires within { at < room }
    requires room { room ≤ length steps.old }
    requires chain { Chain core.now steps.old room at depth }
    ensures room { depth + 1 ≤ length steps.new }
    ensures way { (m n : ℕ) → name_at steps.old at ≡ Some m → name_at steps.old (room - 1) ≡ Some n → HoldsByRoot core.now m root
        → IsWay core.now (take (depth + 1) steps.new) n }
{
    let _core = core;
    let mut left = at;
    steps[0] = root;
    for place in 0..depth {
        let step = step_at(steps, left);
        left = step.mutator as usize;
        steps[place + 1] = Holder {
            name: step.name,
            kind: step.kind,
            mutator: 0,
            place: step.place,
            fields: step.fields,
        };
    }
}

/// Searches level by level: the first has the object alone, in the last place, and each further one the objects with a pointer into the
/// one before it that are in none yet.
fn search(core: &Core, name: u64, steps: &mut [Holder], room: usize) -> Option<usize>
    requires two { 2 ≤ room }
    requires room { room ≤ length steps.old }
    requires few { room < 4294967296 }
    requires named { name_at steps.old (room - 1) ≡ Some name }
    ensures none { result ≡ None → HasMany core.now name room }
    ensures told { (count : ℕ) → result ≡ Some count → TellsCount core.now name steps.new count }
{
    let mut depth = 0;
    let mut last = room;
    let mut low = room - 1;
    while low < last {
        if let Some(found) = root_step(core, steps, low, last) {
            write_way(core, steps, found.root, found.at, depth, room);
            return Some(depth + 1);
        }
        let Some(next) = grow(core, steps, low, last, room) else {
            return None;
        };
        depth += 1;
        last = low;
        low = next;
    }
    Some(0)
}

/// A shortest way from a root to the object of a name, written to a buffer's beginning: a root, and then objects, each held by the one
/// before it by a pointer, of which the last holds the object. It says how many entries these are: 0, if no root leads there. Weak slots
/// lead nowhere. `None`: the room was spent; as many objects lead there, with the object itself, as the buffer has room for, or
/// 4,294,967,295. What the buffer holds after the way, or where there is none, isn't said.
///
/// It goes over the heap once for each object of the way, and looks there at each pointer of the kept objects once for each object found
/// at the last distance.
///
/// ```rust
/// let mut way = [Holder { name: 0, kind: 0, mutator: 0, place: 0, fields: 0 }; 4];
/// core.step(new);
/// assert_eq!(rt; path(&core, 0, &mut way), Some(1));
/// assert_eq!(rt; way[0].kind, 1);
/// assert_eq!(rt; path(&core, 1, &mut way), Some(0));
/// ```
pub fn path(core: &Core, name: u64, steps: &mut [Holder]) -> Option<usize>
    ensures tells { TellsWay core.now name steps.old steps.new result }
    ensures shows { (s : State) → Stands s core.now → LinksShow s.graph core.now }
    ensures ways { (s : State) → Stands s core.now → WaysShow s.graph core.now }
{
    core.law_remembers();
    let room = steps.len().min(4_294_967_295);
    if room < 2 {
        return None;
    }
    steps[room - 1] = Holder {
        name,
        kind: 2,
        mutator: 0,
        place: 0,
        fields: 0,
    };
    search(core, name, steps, room)
}
