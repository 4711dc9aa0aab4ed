//! The regions that a young pause moves: those that were taken for new objects since marking last began, in the order in which they were
//! taken, as many as the copy limit allows; and of these the ones that few cards lead into (`within`). The others stay young.
//!
//! ```text
//!   region     0      1      2      3      4          budget 20, the copy limit 20
//!              ord.   ord.   free   full   current
//!   taken      -      3rd           1st    2nd
//!   live       4      2             16     3
//!
//!   3 and 4 are moved: 19 words. With 1 they would be 21.
//! ```

ghost use Rattle.std.specs.Prelude.{◌≡◌, ℕ, ◌<◌, ◌≤◌, ◌+◌, IfNone, IfSome, IsPermutation, IsSorted, Some, length, slice_get, take};
ghost use Rattle.std.specs.Vec.{vec_capacity};
ghost use Rattle.mark_bitmap.specs.Live.{live_bound_of};
ghost use Rattle.marker.specs.Stands.{MarkerStands};
ghost use Rattle.remembered_sets.specs.Sets.{card_count};
ghost use Rattle.region_choice.specs.declared.LiveRow.{LiveRow};
ghost use Rattle.region_choice.specs.Ages.{age_cmp};
ghost use Rattle.region_choice.specs.Choice.{copy_limit, live_sum};
ghost use Rattle.step_core.specs.Pause.{AreYoung, IsByAge, IsYoungCandidate, IsYoungest};

use crate::within::take_within;
use evacuation::PauseRoom;
use heap_words::addr::RegionNo;
use marker::Marker;
use region_choice::{LiveRow, RegionAges, choose_by_age};
use regions::{Kind, RegionTable};
use remembered_sets::RememberedSets;

/// The row of a region that a young pause may move.
#[inline(always)]
fn young_row(
    table: &RegionTable,
    marker: &Marker,
    ages: &RegionAges,
    region: RegionNo,
) -> Option<LiveRow>
    requires known { region < length table.now.regions }
    requires stands { MarkerStands table.now marker.now }
    ensures region { IfSome result (λ row. row.region ≡ region) }
    ensures bound { IfSome result (λ row. row.live_bound
        ≡ live_bound_of table.now marker.now.tams.previous marker.now.bitmaps.previous region) }
    ensures some { IfSome result (λ row. IsYoungCandidate table.now marker.now.tams marker.now.running ages.now region) }
    ensures none { IfNone result (IsYoungCandidate table.now marker.now.tams marker.now.running ages.now region → ⊥) }
{
    if !ages.is_young(region) {
        return None;
    }
    match table.kind(region) {
        Kind::Ordinary => {}
        Kind::Free | Kind::First | Kind::Rest => return None,
    }
    table.law();
    if marker.running
        && marker.tams.next(region).word() != region.number() * table.words_per_region()
    {
        return None;
    }
    let live_bound = marker.live_bound(table, region);
    Some(LiveRow { region, live_bound })
}

/// Writes a row for each region that a young pause may move.
fn find_young(table: &RegionTable, marker: &Marker, ages: &RegionAges, rows: &mut Vec<LiveRow>)
    requires stands { MarkerStands table.now marker.now }
    requires room { length table.now.regions ≤ vec_capacity rows.old }
    ensures young { AreYoung table.now marker.now.tams marker.now.bitmaps.previous marker.now.running ages.now rows.new.items }
    ensures few { length rows.new.items ≤ length table.now.regions }
    ensures room { vec_capacity rows.new ≡ vec_capacity rows.old }
{
    rows.clear();
    for number in 0..table.region_count() {
        if let Some(row) = young_row(table, marker, ages, RegionNo::new(number)) {
            rows.push_reserved(row);
        }
    }
}

/// Sorts the rows by age, and answers how many are in front within the copy limit.
fn sort_rows(
    rows: &mut Vec<LiveRow>,
    ages: &RegionAges,
    words: u32,
    budget: u32,
    free: u32,
) -> usize
    ensures same { IsPermutation rows.old.items rows.new.items }
    ensures len { length rows.new.items ≡ length rows.old.items }
    ensures sorted { IsSorted (age_cmp ages.now) rows.new.items }
    ensures count { result ≤ length rows.new.items }
    ensures within { live_sum (take result rows.new.items) ≤ copy_limit words budget free }
    ensures next { (row : LiveRow) → slice_get rows.new.items result ≡ Some row
        → copy_limit words budget free < live_sum (take result rows.new.items) + row.live_bound }
    ensures room { vec_capacity rows.new ≡ vec_capacity rows.old }
{
    choose_by_age(rows.as_mut_slice(), ages, words, u64::from(budget), free).count
}

/// Makes the rows those of the regions that a young pause may move, the first by age in front. The result is how many are within the copy
/// limit. It costs a look at each region.
fn choose_front(
    table: &RegionTable,
    marker: &Marker,
    ages: &RegionAges,
    rows: &mut Vec<LiveRow>,
    budget: u32,
) -> usize
    requires stands { MarkerStands table.now marker.now }
    requires room { length table.now.regions ≤ vec_capacity rows.old }
    ensures count { result ≤ length rows.new.items }
    ensures few { result ≤ length table.now.regions }
    ensures by_age { IsByAge table.now marker.now.tams marker.now.bitmaps.previous marker.now.running ages.now budget
        (take result rows.new.items) }
    ensures room { vec_capacity rows.new ≡ vec_capacity rows.old }
{
    table.law();
    find_young(table, marker, ages, rows);
    sort_rows(
        rows,
        ages,
        table.words_per_region(),
        budget,
        table.free_count(),
    )
}

/// Puts the regions of a young pause to the front of the rows. The result is how many they are.
pub(crate) fn choose_youngest(
    table: &RegionTable,
    marker: &Marker,
    sets: &RememberedSets,
    ages: &RegionAges,
    room: &mut PauseRoom,
    rows: &mut Vec<LiveRow>,
    budget: u32,
    cards: u32,
) -> usize
    requires stands { MarkerStands table.now marker.now }
    requires each_region { length sets.now.sets ≡ length table.now.regions }
    requires each_card { room.old.cards ≡ card_count sets.now }
    requires room { length table.now.regions ≤ vec_capacity rows.old }
    ensures count { result ≤ length rows.new.items }
    ensures few { result ≤ length table.now.regions }
    ensures chosen { IsYoungest table.now marker.now.tams marker.now.bitmaps.previous marker.now.running sets.now ages.now budget cards
        (take result rows.new.items) }
    ensures room { vec_capacity rows.new ≡ vec_capacity rows.old }
    ensures pause_room { room.new ≡ room.old }
{
    let count = choose_front(table, marker, ages, rows, budget);
    take_within(sets, room, rows.as_mut_slice(), count, cards)
}
