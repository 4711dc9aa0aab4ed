//! Where tiles start, over all regions.

ghost use Rattle.std.specs.Prelude.{◌+◌, ◌*◌, IsSome};
ghost use Rattle.regions.specs.Table.{tile_in};
ghost use Rattle.heap_walk.specs.Starts.{IsTileFrom};

use heap_words::addr::{Addr, RegionNo};
use regions::RegionTable;

/// The lowest tile of the regions from one on.
fn tile_of_regions(table: &RegionTable, from: u32) -> Option<Addr>
    ensures { IsTileFrom table.now (from * table.now.words_per_region) result }
{
    table.law();
    for number in from..table.region_count() {
        if let Some(at) = table.lowest_tile(RegionNo::new(number)) {
            return Some(at);
        }
    }
    None
}

/// The lowest tile above the one at an address.
pub(crate) fn tile_above(table: &RegionTable, at: Addr) -> Option<Addr>
    requires { IsSome (tile_in table.now at) }
    ensures { IsTileFrom table.now (at + 1) result }
{
    table.law();
    match table.next_tile(at) {
        Some(next) => Some(next),
        None => tile_of_regions(table, table.region_of(at).number() + 1),
    }
}

/// The lowest tile at an address or above it.
pub(crate) fn tile_from(table: &RegionTable, at: Addr) -> Option<Addr>
    ensures { IsTileFrom table.now at result }
{
    table.law();
    if at.word() >= table.region_count() * table.words_per_region() {
        return None;
    }
    match table.first_tile(at) {
        Some(first) => {
            if first.word() == at.word() {
                Some(first)
            } else {
                tile_above(table, first)
            }
        }
        None => tile_of_regions(table, table.region_of(at).number() + 1),
    }
}
