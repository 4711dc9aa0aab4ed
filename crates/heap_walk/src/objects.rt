//! The kept objects, one after another.

ghost use Rattle.std.specs.Prelude.{◌≡◌, ◌≤◌, ◌∷◌, [], IsSome, IfSome};
ghost use Rattle.heap_words.specs.Configs.{max_words};
ghost use Rattle.regions.specs.Table.{tile_in};
ghost use Rattle.graph_runs.specs.State.{State};
ghost use Rattle.step_core.specs.Stands.{kept_of, Stands};
ghost use Rattle.heap_walk.specs.Starts.{place_of, word_count};
ghost use Rattle.heap_walk.specs.Walks.{entries_at, EntriesShow, TellsObjects};

use crate::kept::kept_from;
use crate::starts::{tile_above, tile_from};
use heap_words::addr::Addr;
use regions::RegionTable;
use step_core::Core;

/// What is told of an object: its name, how many pointers, weak slots and data words it has, and its first data word, 0 if it has none.
#[repr(C)]
#[derive(Clone, Copy, Debug, PartialEq, Eq, Drop)]
pub struct Entry {
    pub name: u64,
    pub word: u64,
    pub pointers: u32,
    pub weaks: u32,
    pub values: u32,
}

/// What is told of a kept object.
///
/// ```rust
/// core.step(new);
/// assert_eq!(rt; entry_of(&core, Addr::new(0)).pointers, 1);
/// ```
pub fn entry_of(core: &Core, object: Addr) -> Entry
    requires { IsSome (kept_of core.now object) }
    ensures { entries_at core.now object ≡ result ∷ [] }
{
    let table = core.table();
    let values = table.value_count(object);
    Entry {
        name: table.name(object),
        word: if values == 0 {
            0
        } else {
            table.get_value(object, 0)
        },
        pointers: table.pointer_count(object),
        weaks: table.weak_count(object),
        values,
    }
}

/// How many items were told, and from which tile on there may be more.
#[derive(Drop)]
pub(crate) struct Told {
    pub(crate) count: usize,
    pub(crate) left: Option<Addr>,
}

/// Tells the kept objects from a tile on.
fn tell_from(core: &Core, tile: Option<Addr>, out: &mut [Entry]) -> Told
    requires { IfSome tile (λ a. IsSome (tile_in core.now.table a)) }
    ensures { TellsObjects core.now (place_of core.now.table tile) (place_of core.now.table result.left) out.old out.new result.count }
{
    core.law_shaped();
    let mut left = tile;
    for count in 0..out.len() {
        let Some(object) = kept_from(core, left) else {
            return Told { count, left: None };
        };
        out[count] = entry_of(core, object);
        left = tile_above(core.table(), object);
    }
    Told {
        count: out.len(),
        left,
    }
}

/// How many words the heap has.
pub(crate) fn word_count(table: &RegionTable) -> u32
    ensures value { result ≡ word_count table.now }
    ensures small { result ≤ max_words }
{
    table.law();
    table.region_count() * table.words_per_region()
}

/// An address, or the heap's end.
pub(crate) fn cursor_of(table: &RegionTable, left: Option<Addr>) -> u32
    ensures { result ≡ place_of table.now left }
{
    match left {
        Some(at) => at.word(),
        None => word_count(table),
    }
}

/// Tells the kept objects from a cursor on, by rising address, into a buffer, as many as this has room for, and says how many. The cursor
/// goes on: 0 is where a walk begins, and fewer objects than there is room for are told only where no more are left. A cursor is right as
/// long as the heap doesn't change. It looks at each tile on its way once, at each region without tiles once, and at the tiles of two cards
/// at most before the first one.
///
/// ```rust
/// let mut cursor = 0;
/// let mut entries = [Entry { name: 0, word: 0, pointers: 0, weaks: 0, values: 0 }; 4];
/// core.step(new);
/// assert_eq!(rt; walk(&core, &mut cursor, &mut entries), 1);
/// assert_eq!(rt; entries[0].pointers, 1);
/// assert_eq!(rt; walk(&core, &mut cursor, &mut entries), 0);
/// ```
pub fn walk(core: &Core, cursor: &mut u64, out: &mut [Entry]) -> usize
    ensures tells { TellsObjects core.now cursor.old cursor.new out.old out.new result }
    ensures shows { (s : State) → Stands s core.now → EntriesShow s.graph core.now }
{
    core.law_whole();
    core.law_shaped();
    let table = core.table();
    if *cursor >= u64::from(word_count(table)) {
        return 0;
    }
    let told = tell_from(core, tile_from(table, Addr::new(*cursor as u32)), out);
    *cursor = u64::from(cursor_of(table, told.left));
    told.count
}
