//! Copying one object.

ghost use Rattle.std.specs.Prelude.{◌≡◌, ◌≢◌, ℕ, ◌≤◌, ◌<◌, ◌+◌, ◌/◌, ◌^◌, IfSome, IsSome, Some, length};
ghost use Rattle.heap_model.specs.Heap.{Stored};
ghost use Rattle.regions.specs.Table.{kind_of, object_at, object_words, EachForwardedIn, free_count};
ghost use Rattle.regions.specs.declared.row.Kind.TheVariants as kinds;
ghost use Rattle.object_copy.specs.Copies.{fill_of, CanTake, OpensLowest, Opens, CopiesAndForwards, CopiesObject};

use crate::destinations::Destinations;
use heap_words::addr::{Addr, RegionNo};
use regions::RegionTable;

/// A destination for so many words: the open one if they fit there, else the lowest free region.
fn destination_for(table: &mut RegionTable, destinations: &mut Destinations, size: u32) -> RegionNo
    requires known { IfSome destinations.old.last (λ k. k < length table.old.regions) }
    requires ordinary { IfSome destinations.old.last (λ k. kind_of table.old k ≡ kinds.Ordinary) }
    requires small { size ≤ table.old.words_per_region }
    requires room { CanTake table.old.words_per_region (free_count table.old) (fill_of table.old destinations.old.last) size }
    requires list { free_count table.old ≤ destinations.old.room }
    ensures { Opens table.old table.new destinations.old destinations.new size result }
{
    if let Some(region) = destinations.last() {
        if table.has_room(region, size) {
            return region;
        }
    }
    open_next(table, destinations)
}

/// The lowest free region becomes the open destination.
fn open_next(table: &mut RegionTable, destinations: &mut Destinations) -> RegionNo
    requires some { 0 < free_count table.old }
    requires list { free_count table.old ≤ destinations.old.room }
    ensures { OpensLowest table.old table.new destinations.old destinations.new result }
{
    match table.take_free() {
        Some(region) => {
            destinations.push(region);
            region
        }
        None => unreachable!(),
    }
}

/// Copies an object of an ordinary region to a destination, forwards it there, and says where its copy is.
pub fn copy(table: &mut RegionTable, destinations: &mut Destinations, from: Addr) -> Addr
    requires object { IsSome (object_at table.old from) }
    requires ordinary { kind_of table.old (from / table.old.words_per_region) ≡ kinds.Ordinary }
    requires untargeted { EachForwardedIn (λ to. to ≢ from) table.old.regions }
    requires known { IfSome destinations.old.last (λ k. k < length table.old.regions) }
    requires last { IfSome destinations.old.last (λ k. kind_of table.old k ≡ kinds.Ordinary) }
    requires small { object_words table.old from ≤ table.old.words_per_region }
    requires room { CanTake table.old.words_per_region (free_count table.old) (fill_of table.old destinations.old.last)
        (object_words table.old from) }
    requires list { free_count table.old ≤ destinations.old.room }
    requires count { destinations.old.words + object_words table.old from < 2 ^ 32 }
    ensures copies { (x : Stored) → object_at table.old from ≡ Some x
        → CopiesAndForwards table.old table.new destinations.old destinations.new from result x }
    ensures changes { (x : Stored) (k : ℕ) → object_at table.old from ≡ Some x → destinations.new.last ≡ Some k
        → CopiesObject table.old table.new k from result x }
{
    let size = table.object_size(from);
    let region = destination_for(table, destinations, size);
    table.law();
    let to = table.copy_object(from, region);
    table.forward(from, to);
    destinations.count_words(size);
    to
}
