//! A pause and the cards that it visits, in small heaps: four regions of sixteen words, of which region 0 alone is in use, and
//! cards of eight.

ghost use Rattle.std.specs.Prelude.{◌≡◌, ◌*◌, ◌<◌, ◌∷◌, [], Some, IfOk, length};
ghost use Rattle.region_tests.specs.Evacuated.{IsSuited, by_weak_slot, itself, two_cards};

use crate::refining::one_object;
use bit_sets::bounded::BoundedBits;
use cards::CardTable;
use evacuation::{Moved, PauseRoom, evacuate};
use heap_words::addr::{Addr, Card, Ptr, RegionNo};
use heap_words::header::{Count, FillerSize, HeaderCounts};
use mark_bitmap::bitmaps::Bitmaps;
use mark_bitmap::tams::Tams;
use region_choice::LiveRow;
use regions::{RegionTable, Shape};
use remembered_sets::RememberedSets;
use root_table::{RootCounts, Roots};
use std::alloc::Global;
use std::test::Fail;

/// Region 0 is taken, and has an object at 0 whose one pointer and one weak slot name the object itself.
fn names_itself(alloc: Global) -> Result<RegionTable, Fail>
    ensures { IfOk result (λ table. table ≡ itself) }
{
    let mut table = one_object(alloc, 4, 1, 1, 0)?;
    let object = Addr::new(0);
    table.set_field(object, 0, Some(object));
    table.set_field(object, 1, Some(object));
    Ok(table)
}

/// Region 0 has an object at 0 of one weak slot, which names an object of no field, at 16 in region 1.
fn held_weakly(alloc: Global) -> Result<RegionTable, Fail>
    ensures { IfOk result (λ table. table ≡ by_weak_slot) }
{
    let mut table = one_object(alloc, 3, 0, 1, 0)?;
    let object = Addr::new(16);
    table.take_free();
    table.push_filler(RegionNo::new(1), FillerSize::new(2));
    let counts = HeaderCounts {
        pointers: Count::new(0),
        weaks: 0,
        values: Count::new(0),
    };
    table.make_object(object, FillerSize::new(2), 8, counts);
    table.set_weak(Addr::new(0), 0, Some(object));
    Ok(table)
}

/// A field of the object that holds a word, its pointers counted before its weak slots; nil where there is none.
fn field(table: &RegionTable, word: Addr, index: u32) -> Ptr
    requires { word < length table.now.regions * table.now.words_per_region }
{
    let at = table.first_tile(word)?;
    let Shape::Object { .. } = table.tile(at) else {
        return None;
    };
    if index < table.field_count(at) {
        table.get_field(at, index)
    } else {
        None
    }
}

/// What a pause leaves of a heap with one root.
struct Paused {
    table: RegionTable,
    moved: Moved,
    root: Ptr,
    queued: u32,
}

/// Its drop is one call, and not one for each of its parts.
impl Drop for Paused {
    fn drop(self) {
        let Paused {
            table: _,
            moved: _,
            root: _,
            queued: _,
        } = self;
    }
}

/// One global, which leads to an address.
fn one_root(alloc: Global, word: u32) -> Result<Roots, Fail>
    ensures { IfOk result (λ roots. roots.words ≡ Some word ∷ []) }
{
    let mut roots = Roots::new(alloc, RootCounts::new(1, 0, 0))?;
    roots.set_global(0, Some(Addr::new(word)));
    Ok(roots)
}

/// A pause that evacuates a row's region of a table that its sets and a root at 0 suit.
fn pause(
    alloc: Global,
    mut table: RegionTable,
    mut sets: RememberedSets,
    row: LiveRow,
    at_once: bool,
) -> Result<Paused, Fail>
    requires { IsSuited table sets row }
    ensures count { IfOk result (λ paused. length paused.table.regions ≡ 4) }
    ensures words { IfOk result (λ paused. paused.table.words_per_region ≡ 16) }
{
    let mut tams = Tams::new(alloc, 4, 16)?;
    let mut bitmaps = Bitmaps::new(alloc, 64)?;
    let mut cards = CardTable::new(alloc, 8, 1)?;
    let mut room = PauseRoom::new(alloc, 4, 8)?;
    let mut roots = one_root(alloc, 0)?;
    let rows = [row];
    let moved = evacuate(
        &mut table,
        &mut tams,
        &mut bitmaps,
        &mut cards,
        &mut sets,
        &mut roots,
        &mut room,
        &rows,
        at_once,
        8,
    );
    let root = match roots.next_named(0) {
        Some(place) => roots.get(place),
        None => None,
    };
    let queued = cards.queued();
    Ok(Paused {
        table,
        moved,
        root,
        queued,
    })
}

/// A pause that evacuates the region of the object that names itself.
fn pause_itself(alloc: Global) -> Result<Paused, Fail>
    ensures count { IfOk result (λ paused. length paused.table.regions ≡ 4) }
    ensures words { IfOk result (λ paused. paused.table.words_per_region ≡ 16) }
{
    let table = names_itself(alloc)?;
    let sets = RememberedSets::new(alloc, 4, 2, 0)?;
    let row = LiveRow {
        region: RegionNo::new(0),
        live_bound: 4,
    };
    pause(alloc, table, sets, row, false)
}

/// Region 1 covers card 0, and card 4 of region 2, which is free.
fn held_sets(alloc: Global) -> Result<RememberedSets, Fail>
    ensures { IfOk result (λ sets. sets ≡ two_cards) }
{
    let mut sets = RememberedSets::new(alloc, 4, 2, 0)?;
    let region = RegionNo::new(1);
    sets.add(region, Card::new(0));
    sets.add(region, Card::new(4));
    Ok(sets)
}

/// A pause that evacuates the region of the object that a weak slot alone names.
fn pause_held(alloc: Global, at_once: bool) -> Result<Paused, Fail>
    ensures count { IfOk result (λ paused. length paused.table.regions ≡ 4) }
    ensures words { IfOk result (λ paused. paused.table.words_per_region ≡ 16) }
{
    let table = held_weakly(alloc)?;
    let sets = held_sets(alloc)?;
    let row = LiveRow {
        region: RegionNo::new(1),
        live_bound: 2,
    };
    pause(alloc, table, sets, row, at_once)
}

/// The object is copied once, with its weak slot, to the lowest free region, and the root and the copy's fields name the copy.
#[test]
fn copies_what_names_itself(rt: HostRuntime) -> Result<(), Fail> {
    let paused = pause_itself(rt.alloc())?;
    let place = Addr::new(16);
    assert_eq!(rt; (paused.moved.regions, paused.moved.words), (1, 4));
    assert_eq!(rt; paused.root, Some(place));
    assert_eq!(rt; (paused.table.free_count(), paused.queued), (3, 0));
    let last = Addr::new(19);
    assert_eq!(rt; paused.table.first_tile(last), Some(place));
    assert_eq!(rt; field(&paused.table, last, 0), Some(place));
    assert_eq!(rt; field(&paused.table, last, 1), Some(place));
    Ok(())
}

/// A pause keeps what a weak slot outside the set names, though nothing else does. The slot names the copy afterwards, and its
/// card is dirty. That the set covers a card of a free region too, where the copy goes, changes nothing.
#[test]
fn updates_a_weak_slot_outside(rt: HostRuntime) -> Result<(), Fail> {
    let paused = pause_held(rt.alloc(), false)?;
    let place = Addr::new(32);
    assert_eq!(rt; (paused.moved.regions, paused.moved.words), (1, 2));
    assert_eq!(rt; (paused.table.free_count(), paused.queued), (2, 1));
    let last = Addr::new(33);
    assert_eq!(rt; paused.table.first_tile(last), Some(place));
    let holder = Addr::new(0);
    assert_eq!(rt; field(&paused.table, holder, 0), Some(place));
    Ok(())
}

/// The same where the set of the copy's region is to have the card at once: the card isn't dirty.
#[test]
fn notes_a_weak_slot_at_once(rt: HostRuntime) -> Result<(), Fail> {
    let paused = pause_held(rt.alloc(), true)?;
    let place = Addr::new(32);
    assert_eq!(rt; (paused.moved.regions, paused.moved.words), (1, 2));
    assert_eq!(rt; (paused.table.free_count(), paused.queued), (2, 0));
    let holder = Addr::new(0);
    assert_eq!(rt; field(&paused.table, holder, 0), Some(place));
    Ok(())
}
