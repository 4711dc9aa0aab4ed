//! The regions that a pause may reclaim, and the choice among them; and which regions are evacuated.
//!
//! ```text
//!   region       0        1         2         3        4        idle: candidates 0 2      marking runs: 2
//!                ordinary ordinary  ordinary  free     run
//!   live bound   5        16        3
//!   next top     5        22        32, its bottom
//! ```

ghost use Rattle.std.specs.Prelude.{◌≡◌, ◌<◌, ◌≤◌, ◌+◌, ℕ};
ghost use Rattle.std.specs.Prelude.{All, IfNone, IfSome, drop, length, take, IsPermutation, IsSorted};
ghost use Rattle.std.specs.Vec.{vec_capacity};
ghost use Rattle.mark_bitmap.specs.Live.{live_bound_of};
ghost use Rattle.remembered_sets.specs.Sets.{card_count};
ghost use Rattle.marker.specs.Stands.{MarkerStands};
ghost use Rattle.region_choice.specs.Choice.{copy_limit, live_sum, row_cmp, ComeFirst, IsBestWithin};
ghost use Rattle.step_core.specs.Pause.{IsCandidate, AreCandidatesWithin, IsChosen, IsSetOf};

use crate::highest::choose_highest;
use crate::within::choose_within;
use crate::youngest::choose_youngest;
use evacuation::PauseRoom;
use heap_words::addr::RegionNo;
use marker::Marker;
use region_choice::{LiveRow, RegionAges, choose, limit_of};
use regions::{Kind, RegionTable};
use remembered_sets::RememberedSets;

/// Which regions are evacuated: those that free the most, by a pause; of these the ones that few cards lead into, by a pause within so many
/// cards; the highest, by a compaction; or young ones that few cards lead into, by a young pause.
#[derive(Clone, Copy, Debug, PartialEq, Eq)]
pub enum Choice {
    Best,
    Within(u32),
    Highest,
    Youngest(u32),
}

/// The live bound of a region that is a candidate, where it is at most so many words, fewer than a region has. It is looked up, and
/// costs no walk.
#[inline(always)]
fn candidate(table: &RegionTable, marker: &Marker, most: u32, region: RegionNo) -> Option<u32>
    requires known { region < length table.now.regions }
    requires stands { MarkerStands table.now marker.now }
    requires less { most < table.now.words_per_region }
    ensures bound { IfSome result (λ n. n ≡ live_bound_of table.now marker.now.tams.previous marker.now.bitmaps.previous region) }
    ensures some { IfSome result (λ n. IsCandidate table.now marker.now.tams marker.now.bitmaps.previous marker.now.running region) }
    ensures within { IfSome result (λ n. n ≤ most) }
    ensures none { IfNone result (IsCandidate table.now marker.now.tams marker.now.bitmaps.previous marker.now.running region
        → most < live_bound_of table.now marker.now.tams.previous marker.now.bitmaps.previous region) }
{
    match table.kind(region) {
        Kind::Ordinary => {}
        Kind::Free | Kind::First | Kind::Rest => return None,
    }
    let live = marker.live_bound(table, region);
    if live > most {
        return None;
    }
    if marker.running
        && marker.tams.next(region).word() != region.number() * table.words_per_region()
    {
        return None;
    }
    Some(live)
}

/// The row of the lowest candidate from a region on whose live bound is at most so many words. The search writes nothing, so
/// that its loop keeps in registers where the tables stand.
#[inline(always)]
fn next_candidate(table: &RegionTable, marker: &Marker, most: u32, from: u32) -> Option<LiveRow>
    requires stands { MarkerStands table.now marker.now }
    requires less { most < table.now.words_per_region }
    requires start { from ≤ length table.now.regions }
    ensures from { IfSome result (λ row. from ≤ row.region) }
    ensures known { IfSome result (λ row. row.region < length table.now.regions) }
    ensures some { IfSome result (λ row. IsCandidate table.now marker.now.tams marker.now.bitmaps.previous marker.now.running row.region) }
    ensures bound { IfSome result (λ row. row.live_bound
        ≡ live_bound_of table.now marker.now.tams.previous marker.now.bitmaps.previous row.region) }
    ensures within { IfSome result (λ row. row.live_bound ≤ most) }
    ensures lowest { IfSome result (λ row. (k : ℕ) → from ≤ k → k < row.region
        → IsCandidate table.now marker.now.tams marker.now.bitmaps.previous marker.now.running k
        → most < live_bound_of table.now marker.now.tams.previous marker.now.bitmaps.previous k) }
    ensures none { IfNone result ((k : ℕ) → from ≤ k → k < length table.now.regions
        → IsCandidate table.now marker.now.tams marker.now.bitmaps.previous marker.now.running k
        → most < live_bound_of table.now marker.now.tams.previous marker.now.bitmaps.previous k) }
{
    for number in from..table.region_count() {
        let region = RegionNo::new(number);
        if let Some(live_bound) = candidate(table, marker, most, region) {
            return Some(LiveRow { region, live_bound });
        }
    }
    None
}

/// Writes a row for each candidate whose live bound is within the limit.
pub(crate) fn find_candidates(
    table: &RegionTable,
    marker: &Marker,
    limit: u32,
    rows: &mut Vec<LiveRow>,
)
    requires stands { MarkerStands table.now marker.now }
    requires room { length table.now.regions ≤ vec_capacity rows.old }
    ensures candidates { AreCandidatesWithin table.now marker.now.tams marker.now.bitmaps.previous marker.now.running limit
        (length table.now.regions)
        rows.new.items }
    ensures few { length rows.new.items ≤ length table.now.regions }
    ensures room { vec_capacity rows.new ≡ vec_capacity rows.old }
{
    table.law();
    let most = limit.min(table.words_per_region() - 1);
    rows.clear();
    let mut from = 0;
    while let Some(row) = next_candidate(table, marker, most, from) {
        from = row.region.number() + 1;
        rows.push_reserved(row);
    }
}

/// Puts the best of the rows to the front, and answers how many.
fn choose_rows(rows: &mut Vec<LiveRow>, words: u32, budget: u32, free: u32) -> usize
    requires { All (λ row. row.live_bound < words) rows.old.items }
    ensures same { IsPermutation rows.old.items rows.new.items }
    ensures len { length rows.new.items ≡ length rows.old.items }
    ensures sorted { IsSorted row_cmp (take result rows.new.items) }
    ensures first { ComeFirst (take result rows.new.items) (drop result rows.new.items) }
    ensures count { result ≤ length rows.new.items }
    ensures next { All (λ row. copy_limit words budget free < live_sum (take result rows.new.items) + row.live_bound)
        (drop result rows.new.items) }
    ensures best { IsBestWithin words (copy_limit words budget free) rows.old.items (take result rows.new.items) }
    ensures room { vec_capacity rows.new ≡ vec_capacity rows.old }
{
    choose(rows.as_mut_slice(), words, u64::from(budget), free).count
}

/// Finds the candidates within the copy limit, and puts the collection set to the front of the rows. The result is how many regions it has.
pub(crate) fn choose_regions(
    table: &RegionTable,
    marker: &Marker,
    rows: &mut Vec<LiveRow>,
    budget: u32,
) -> usize
    requires stands { MarkerStands table.now marker.now }
    requires room { length table.now.regions ≤ vec_capacity rows.old }
    ensures count { result ≤ length rows.new.items }
    ensures few { result ≤ length table.now.regions }
    ensures chosen { IsChosen table.now marker.now.tams marker.now.bitmaps.previous marker.now.running budget (take result rows.new.items) }
    ensures room { vec_capacity rows.new ≡ vec_capacity rows.old }
{
    table.law();
    let words = table.words_per_region();
    let free = table.free_count();
    let limit = limit_of(words, u64::from(budget), free) as u32;
    find_candidates(table, marker, limit, rows);
    choose_rows(rows, words, budget, free)
}

/// Puts the collection set to the front of the rows. The result is how many regions it has.
pub(crate) fn choose_set(
    choice: Choice,
    table: &RegionTable,
    marker: &Marker,
    sets: &RememberedSets,
    ages: &RegionAges,
    room: &mut PauseRoom,
    rows: &mut Vec<LiveRow>,
    budget: u32,
) -> usize
    requires stands { MarkerStands table.now marker.now }
    requires each_region { length sets.now.sets ≡ length table.now.regions }
    requires each_card { room.old.cards ≡ card_count sets.now }
    requires room { length table.now.regions ≤ vec_capacity rows.old }
    ensures count { result ≤ length rows.new.items }
    ensures few { result ≤ length table.now.regions }
    ensures chosen { IsSetOf choice table.now marker.now.tams marker.now.bitmaps.previous marker.now.running sets.now ages.now budget
        (take result rows.new.items) }
    ensures room { vec_capacity rows.new ≡ vec_capacity rows.old }
    ensures pause_room { room.new ≡ room.old }
{
    match choice {
        Choice::Best => choose_regions(table, marker, rows, budget),
        Choice::Within(cards) => choose_within(table, marker, sets, room, rows, budget, cards),
        Choice::Highest => choose_highest(table, marker, rows, budget),
        Choice::Youngest(cards) => {
            choose_youngest(table, marker, sets, ages, room, rows, budget, cards)
        }
    }
}
