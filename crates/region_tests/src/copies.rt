//! Copies in a small heap: four regions of sixteen words.
//!
//! ```text
//!               region 0              region 1
//!   before      | object of 4 words   free
//!   after       | to 16               | object of 4 words
//! ```

ghost use Rattle.std.specs.Prelude.{◌<◌, IfOk, IsSome, length};
ghost use Rattle.regions.specs.Table.{object_at, weaks_at};
ghost use Rattle.region_tests.specs.Copied.{IsCopyable};

use crate::refining::one_object;
use heap_words::addr::{Addr, Ptr, RegionNo};
use object_copy::{Destinations, copy};
use regions::RegionTable;
use std::alloc::Global;
use std::test::Fail;

/// Region 0 is taken and has an object of a weak slot, which names the object itself, and a data word; the others are free.
fn own_object(alloc: Global) -> Result<RegionTable, Fail>
    ensures { IfOk result IsCopyable }
{
    let mut table = one_object(alloc, 4, 0, 1, 1)?;
    let object = Addr::new(0);
    table.set_field(object, 0, Some(object));
    Ok(table)
}

/// How many weak slots an object has, and the first.
fn slots(table: &RegionTable, object: Addr) -> (u32, Ptr)
    requires object { IsSome (object_at table.now object) }
    requires weaks { 0 < length (weaks_at table.now object) }
{
    (table.weak_count(object), table.get_weak(object, 0))
}

/// The copy is at the bottom of the lowest free region, and the object is forwarded to it.
#[test]
fn copies_to_the_lowest_free_region(rt: HostRuntime) -> Result<(), Fail> {
    let mut table = own_object(rt.alloc())?;
    let mut destinations = Destinations::new(rt.alloc(), 4)?;
    let object = Addr::new(0);
    let place = Addr::new(16);
    let region = RegionNo::new(1);
    assert_eq!(rt; destinations.last(), None);
    assert_eq!(rt; copy(&mut table, &mut destinations, object), place);
    let regions = (destinations.region(0), destinations.region(1));
    assert_eq!(rt; regions, (destinations.last(), None));
    assert_eq!(rt; destinations.last(), Some(region));
    assert_eq!(rt; (destinations.words(), table.free_count()), (4, 2));
    assert_eq!(rt; table.first_tile(Addr::new(19)), Some(place));
    destinations.close();
    let closed = (destinations.last(), destinations.region(0));
    assert_eq!(rt; closed, (None, None));
    assert_eq!(rt; destinations.words(), 0);
    Ok(())
}

/// The copy has the weak slot, and it holds what it held: whoever copies an object updates its fields afterwards.
#[test]
fn copies_weak_slots(rt: HostRuntime) -> Result<(), Fail> {
    let mut table = own_object(rt.alloc())?;
    let mut destinations = Destinations::new(rt.alloc(), 4)?;
    let object = Addr::new(0);
    let place = copy(&mut table, &mut destinations, object);
    assert_eq!(rt; slots(&table, place), (1, Some(object)));
    Ok(())
}
