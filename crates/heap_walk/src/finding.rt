//! Who names an object, told one after another.

ghost use Rattle.std.specs.Prelude.{◌≡◌, ℕ, ◌+◌, ◌<◌, ◌≤◌, IsSome, IfSome, List, length};
ghost use Rattle.heap_words.specs.Configs.{max_roots};
ghost use Rattle.regions.specs.Table.{tile_in};
ghost use Rattle.graph_runs.specs.State.{State};
ghost use Rattle.step_core.specs.Stands.{Stands};
ghost use Rattle.heap_walk.specs.Starts.{place_of, word_count};
ghost use Rattle.heap_walk.specs.Walks.{FillsFrom, IsTelling};
ghost use Rattle.heap_walk.specs.Holders.{LinksShow, TellsHolders, holders_at, place_count};
ghost use Rattle.heap_walk.specs.declared.holders.Holder.{Holder};

use crate::holders::{Holder, holder_in, root_holder_at};
use crate::kept::kept_from;
use crate::objects::{Told, cursor_of, word_count};
use crate::starts::{tile_above, tile_from};
use heap_words::addr::Addr;
use step_core::Core;

/// How many items were told, and from which place on there may be more.
#[derive(Drop)]
struct Stop {
    count: usize,
    place: u64,
}

/// How many root places there are.
pub(crate) fn root_count(core: &Core) -> u32
    ensures value { result ≡ length core.now.roots }
    ensures few { result ≤ max_roots }
{
    core.law_remembers();
    core.roots().len() as u32
}

/// Tells the root places, from one on, that hold the object of a name.
fn tell_roots(core: &Core, name: u64, from: u32, out: &mut [Holder]) -> Stop
    requires { from ≤ length core.now.roots }
    ensures telling { IsTelling (holders_at core.now name) from result.place out.old out.new result.count }
    ensures room { result.count ≤ length out.old }
    ensures within { result.place ≤ length core.now.roots }
    ensures stops { result.place < length core.now.roots → result.count ≡ length out.old }
{
    let mut count = 0;
    let end = root_count(core);
    for place in from..end {
        if let Some(holder) = root_holder_at(core, place, name) {
            if count == out.len() {
                return Stop {
                    count,
                    place: u64::from(place),
                };
            }
            out[count] = holder;
            count += 1;
        }
    }
    Stop {
        count,
        place: u64::from(end),
    }
}

/// Tells the kept objects, from a tile on, that name the object of a name, behind the items that were told already.
fn tell_objects(core: &Core, name: u64, tile: Option<Addr>, out: &mut [Holder], told: usize) -> Told
    requires tile { IfSome tile (λ a. IsSome (tile_in core.now.table a)) }
    requires told { told ≤ length out.old }
    ensures { (from : ℕ) (before : List Holder) → length before ≡ length out.old
        → IsTelling (holders_at core.now name) from (length core.now.roots + place_of core.now.table tile) before out.old told
        → FillsFrom (holders_at core.now name) from (length core.now.roots + place_of core.now.table result.left) (place_count core.now)
        before out.new result.count }
{
    core.law_shaped();
    let mut count = told;
    let mut left = tile;
    while let Some(object) = kept_from(core, left) {
        if let Some(holder) = holder_in(core, object, name) {
            if count == out.len() {
                return Told {
                    count,
                    left: Some(object),
                };
            }
            out[count] = holder;
            count += 1;
        }
        left = tile_above(core.table(), object);
    }
    Told { count, left: None }
}

/// The same from an address on.
fn tell_from(core: &Core, name: u64, at: u32, out: &mut [Holder], told: usize) -> Stop
    requires at { at ≤ word_count core.now.table }
    requires told { told ≤ length out.old }
    ensures { (from : ℕ) (before : List Holder) → length before ≡ length out.old
        → IsTelling (holders_at core.now name) from (length core.now.roots + at) before out.old told
        → FillsFrom (holders_at core.now name) from result.place (place_count core.now) before out.new result.count }
{
    let tile = tile_from(core.table(), Addr::new(at));
    let all = tell_objects(core, name, tile, out, told);
    Stop {
        count: all.count,
        place: u64::from(root_count(core)) + u64::from(cursor_of(core.table(), all.left)),
    }
}

/// Tells who names the object of a name, from a cursor on, into a buffer, as many as this has room for, and says how many: root places, and
/// then the kept objects of which a pointer leads to it, or a weak slot shows it, by rising address. The cursor goes on: 0 is where this
/// begins, and fewer are told than there is room for only where no more are left. A cursor is right as long as the heap doesn't change. It
/// looks at each root, and at each pointer and weak slot of the kept objects on its way.
///
/// ```rust
/// let mut cursor = 0;
/// let mut holders = [Holder { name: 0, kind: 0, mutator: 0, place: 0, fields: 0 }; 4];
/// core.step(new);
/// assert_eq!(rt; who(&core, 0, &mut cursor, &mut holders), 1);
/// assert_eq!(rt; holders[0].kind, 1);
/// ```
pub fn who(core: &Core, name: u64, cursor: &mut u64, out: &mut [Holder]) -> usize
    ensures tells { TellsHolders core.now name cursor.old cursor.new out.old out.new result }
    ensures shows { (s : State) → Stands s core.now → LinksShow s.graph core.now }
{
    let roots = u64::from(root_count(core));
    let words = u64::from(word_count(core.table()));
    if *cursor >= roots + words {
        return 0;
    }
    if *cursor >= roots {
        let told = tell_from(core, name, (*cursor - roots) as u32, out, 0);
        *cursor = told.place;
        return told.count;
    }
    who_from_root(core, name, cursor, out)
}

/// The same from a root place on.
fn who_from_root(core: &Core, name: u64, cursor: &mut u64, out: &mut [Holder]) -> usize
    requires { cursor.old < length core.now.roots }
    ensures { TellsHolders core.now name cursor.old cursor.new out.old out.new result }
{
    let roots = root_count(core);
    let told = tell_roots(core, name, *cursor as u32, out);
    if told.place < u64::from(roots) {
        *cursor = told.place;
        return told.count;
    }
    let all = tell_from(core, name, 0, out, told.count);
    *cursor = all.place;
    all.count
}
