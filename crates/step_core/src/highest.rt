//! The regions that a compaction moves: the highest ordinary ones, as long as all of their copies go down.
//!
//! ```text
//!   region     0     1     2     3     4     5     6     7      budget 16, the copy limit 16
//!              full  free  run   run   free  ord.  free  ord.
//!   live       16                            9           7
//!   free below 0     0     1     1     1     2     2     3
//!
//!   7 goes down: 1 is free below. 5 with it: 16 words, within the limit, but 2 regions need 3 free below 5, and there are 2.
//! ```

ghost use Rattle.std.specs.Prelude.{◌≡◌, ◌≢◌, ◌↔◌, ◌<◌, ◌≤◌, ℕ, IfNone, IfSome, IsTrue, length, take};
ghost use Rattle.std.specs.Vec.{vec_capacity};
ghost use Rattle.regions.specs.Table.{kind_of};
ghost use Rattle.regions.specs.declared.row.Kind.TheVariants as kinds;
ghost use Rattle.marker.specs.Stands.{MarkerStands};
ghost use Rattle.step_core.specs.Pause.{free_below, IsCompacted};

use heap_words::addr::RegionNo;
use marker::Marker;
use region_choice::{LiveRow, limit_of};
use regions::{Kind, RegionTable};

/// An ordinary region, and how many free ones lie below it.
#[derive(Clone, Copy)]
struct Ordinary {
    region: RegionNo,
    free_below: u32,
}

/// Whether a region is an ordinary one.
#[inline(always)]
fn is_ordinary(table: &RegionTable, region: RegionNo) -> bool
    requires { region < length table.now.regions }
    ensures { IsTrue result ↔ (kind_of table.now region ≡ kinds.Ordinary) }
{
    matches!(table.kind(region), Kind::Ordinary)
}

/// Whether a region is free.
#[inline(always)]
pub(crate) fn is_free(table: &RegionTable, region: RegionNo) -> bool
    requires { region < length table.now.regions }
    ensures { IsTrue result ↔ (kind_of table.now region ≡ kinds.Free) }
{
    matches!(table.kind(region), Kind::Free)
}

/// The highest ordinary region below one below which so many are free.
#[inline(always)]
fn highest_below(table: &RegionTable, from: u32, free: u32) -> Option<Ordinary>
    requires start { from ≤ length table.now.regions }
    requires free { free ≡ free_below table.now from }
    ensures below { IfSome result (λ o. o.region < from) }
    ensures ordinary { IfSome result (λ o. kind_of table.now o.region ≡ kinds.Ordinary) }
    ensures free { IfSome result (λ o. o.free_below ≡ free_below table.now o.region) }
    ensures highest { IfSome result (λ o. (k : ℕ) → o.region < k → k < from → kind_of table.now k ≢ kinds.Ordinary) }
    ensures none { IfNone result ((k : ℕ) → k < from → kind_of table.now k ≢ kinds.Ordinary) }
{
    let mut number = from;
    let mut free_below = free;
    while number > 0 {
        number -= 1;
        let region = RegionNo::new(number);
        if is_ordinary(table, region) {
            return Some(Ordinary { region, free_below });
        }
        if is_free(table, region) {
            free_below -= 1;
        }
    }
    None
}

/// Makes the rows those of the regions that a compaction moves, the highest first. The result is how many they are. It costs a look at
/// each region above the lowest of them, and at those above the next one.
pub(crate) fn choose_highest(
    table: &RegionTable,
    marker: &Marker,
    rows: &mut Vec<LiveRow>,
    budget: u32,
) -> usize
    requires stands { MarkerStands table.now marker.now }
    requires room { length table.now.regions ≤ vec_capacity rows.old }
    ensures count { result ≤ length rows.new.items }
    ensures few { result ≤ length table.now.regions }
    ensures chosen { IsCompacted table.now marker.now.tams marker.now.bitmaps.previous marker.now.running budget
        (take result rows.new.items) }
    ensures room { vec_capacity rows.new ≡ vec_capacity rows.old }
{
    rows.clear();
    if marker.running {
        return 0;
    }
    let free = table.free_count();
    let limit = limit_of(table.words_per_region(), u64::from(budget), free);
    let mut number = table.region_count();
    let mut free_below = free;
    let mut sum = 0;
    while let Some(next) = highest_below(table, number, free_below) {
        let live_bound = marker.live_bound(table, next.region);
        let live = u64::from(live_bound);
        if 2 * rows.len() as u64 + 1 > u64::from(next.free_below) || limit - sum < live {
            break;
        }
        number = next.region.number();
        free_below = next.free_below;
        sum += live;
        rows.push_reserved(LiveRow {
            region: next.region,
            live_bound,
        });
    }
    rows.len()
}
