//! Tables of regions, changed call by call: what is written is read back.

ghost use Rattle.std.specs.Prelude.{◌≡◌, ◌*◌, ◌<◌, ◌^◌, length, IfOk, IsSome, Some};
ghost use Rattle.regions.specs.Table.{free_table, object_at, pointers_at, weaks_at, fields_at, values_at};
ghost use Rattle.region_tests.specs.Filled.{IsFilledTable, slotted, stepped, twice};
ghost use Rattle.region_tests.specs.Samples.{one_object};

use crate::refining::{add, free_regions, one_object, take_free};
use heap_words::addr::{Addr, Ptr, RegionNo};
use heap_words::config::{Config, Format, NewFault};
use heap_words::header::{Count, FillerSize, HeaderCounts};
use regions::{Kind, RegionTable, Shape};
use std::alloc::Global;
use std::process::Abort;
use std::test::Fail;

fn counts(pointers: u32, weaks: u8, values: u32) -> HeaderCounts
    requires pointers { pointers < 2 ^ 24 }
    requires values { values < 2 ^ 24 }
    ensures pointers_are { result.pointers ≡ pointers }
    ensures weaks_are { result.weaks ≡ weaks }
    ensures values_are { result.values ≡ values }
{
    HeaderCounts {
        pointers: Count::new(pointers),
        weaks,
        values: Count::new(values),
    }
}

/// Four free regions of 16 words.
fn small_table(alloc: Global) -> Result<RegionTable, NewFault>
    ensures { IfOk result (λ t. t ≡ free_table 4 16) }
{
    let config = Config {
        format: Format::V1,
        regions: 4,
        words: 16,
        buffer: 8,
        mutators: 1,
        first_name: 0,
    };
    RegionTable::new(alloc, &config)
}

/// An object's name, its counts and its size.
fn about(table: &RegionTable, object: Addr) -> (u64, u32, u32, u32)
    requires { IsSome (object_at table.now object) }
{
    (
        table.name(object),
        table.pointer_count(object),
        table.value_count(object),
        table.object_size(object),
    )
}

/// An object's first pointer and its first data word.
fn fields(table: &RegionTable, object: Addr) -> (Ptr, u64)
    requires pointers { 0 < length (pointers_at table.now object) }
    requires values { 0 < length (values_at table.now object) }
{
    (table.get_ptr(object, 0), table.get_value(object, 0))
}

/// How many weak slots an object has, and the first two.
fn slots(table: &RegionTable, object: Addr) -> (u32, Ptr, Ptr)
    requires object { IsSome (object_at table.now object) }
    requires weaks { 1 < length (weaks_at table.now object) }
{
    (
        table.weak_count(object),
        table.get_weak(object, 0),
        table.get_weak(object, 1),
    )
}

/// How many fields an object has, the first and the third.
fn ends(table: &RegionTable, object: Addr) -> (u32, Ptr, Ptr)
    requires object { IsSome (object_at table.now object) }
    requires fields { 2 < length (fields_at table.now object) }
{
    (
        table.field_count(object),
        table.get_field(object, 0),
        table.get_field(object, 2),
    )
}

/// Compares where the tile starts that a word is in.
fn check_first_tile(rt: &impl Abort, table: &RegionTable, word: Addr, tile: Option<Addr>)
    requires { word < length table.now.regions * table.now.words_per_region }
{
    assert_eq!(rt; table.first_tile(word), tile);
}

/// Compares where the first object with weak slots starts, from an address on.
fn check_next_with_weaks(rt: &impl Abort, table: &RegionTable, from: Addr, object: Option<Addr>) {
    assert_eq!(rt; table.next_with_weaks(from), object);
}

/// Compares a region's kind.
fn check_kind(rt: &impl Abort, table: &RegionTable, region: RegionNo, kind: Kind)
    requires { region < length table.now.regions }
{
    assert_eq!(rt; table.kind(region), kind);
}

/// Compares a region's top.
fn check_top(rt: &impl Abort, table: &RegionTable, region: RegionNo, top: Addr)
    requires { region < length table.now.regions }
{
    assert_eq!(rt; table.top(region), top);
}

#[test]
fn makes_what_suits(rt: HostRuntime) {
    for (sizes, fault) in [
        ((2, 16, 4, 1), None),
        ((1024, 1024, 8, 16), None),
        ((1, 16, 4, 1), Some(NewFault::BadRegions)),
        ((2, 24, 4, 1), Some(NewFault::BadWords)),
        ((512, 4096, 4, 1), Some(NewFault::BadWords)),
        ((2, 16, 9, 1), Some(NewFault::BadBuffer)),
        ((2, 16, 4, 0), Some(NewFault::BadMutators)),
    ] {
        let (regions, words, buffer, mutators) = sizes;
        let config = Config {
            format: Format::V1,
            regions,
            words,
            buffer,
            mutators,
            first_name: 0,
        };
        match RegionTable::new(rt.alloc(), &config) {
            Ok(table) => {
                assert_eq!(rt; fault, None);
                assert_eq!(rt; table.region_count(), regions);
                assert_eq!(rt; table.words_per_region(), words);
            }
            Err(found) => assert_eq!(rt; Some(found), fault),
        }
    }
}

/// A region is taken, a filler cut and split, and an object made in it.
fn filled(rt: &impl Abort, alloc: Global) -> Result<RegionTable, Fail>
    ensures { IfOk result IsFilledTable }
{
    let Ok(mut table) = small_table(alloc) else {
        return Err(Fail::from("a table is made"));
    };
    let region = RegionNo::new(0);
    let object = Addr::new(0);
    let rest = Addr::new(5);
    assert_eq!(rt; table.take_free(), Some(region));
    assert_eq!(rt; table.push_filler(region, FillerSize::new(10)), object);
    assert_eq!(rt;
        table.split_filler(object, FillerSize::new(10), FillerSize::new(5)),
        rest
    );
    table.make_object(object, FillerSize::new(5), 7, counts(1, 0, 1));
    table.set_ptr(object, 0, Some(rest));
    table.set_value(object, 0, 9);
    Ok(table)
}

/// What was written to the object is read back, and the region has room for six words more.
#[test]
fn fills_a_region(rt: HostRuntime) -> Result<(), Fail> {
    let table = filled(&rt, rt.alloc())?;
    let region = RegionNo::new(0);
    let object = Addr::new(0);
    let rest = Addr::new(5);
    assert_eq!(rt; about(&table, object), (7, 1, 1, 4));
    assert_eq!(rt; fields(&table, object), (Some(rest), 9));
    assert!(rt; table.has_room(region, 6));
    assert!(rt; !table.has_room(region, 7));
    check_first_tile(&rt, &table, Addr::new(4), Some(Addr::new(4)));
    check_first_tile(&rt, &table, Addr::new(9), Some(rest));
    check_first_tile(&rt, &table, Addr::new(10), None);
    Ok(())
}

/// Its tiles cover the words that are handed out, one after the other.
#[test]
fn walks_over_a_region(rt: HostRuntime) -> Result<(), Fail> {
    let table = filled(&rt, rt.alloc())?;
    let rest = Addr::new(5);
    let mut end = 0;
    for (at, shape) in table.walk(RegionNo::new(0)) {
        assert_eq!(rt; at.word(), end);
        end = at.word().saturating_add(shape.size());
    }
    assert_eq!(rt; end, 10);
    assert_eq!(rt;
        table.walk_from(rest).next(),
        Some((rest, Shape::Filler { size: 5 }))
    );
    Ok(())
}

/// Region 0 has an object of a pointer and a data word, and a filler after it, which the pointer names.
fn before_a_filler(alloc: Global) -> Result<RegionTable, Fail>
    ensures { IfOk result (λ table. table ≡ stepped (Some 4)) }
{
    let mut table = one_object(alloc, 6, 1, 0, 1)?;
    table.set_field(Addr::new(0), 0, Some(Addr::new(4)));
    Ok(table)
}

/// Free regions are counted, a field names a filler, and the filler is the tile after the field's object.
#[test]
fn steps_over_tiles(rt: HostRuntime) -> Result<(), Fail> {
    assert_eq!(rt; free_regions(rt.alloc())?.free_count(), 4);
    let table = before_a_filler(rt.alloc())?;
    let object = Addr::new(0);
    let rest = Addr::new(4);
    assert_eq!(rt; table.free_count(), 3);
    assert_eq!(rt; table.field_count(object), 1);
    assert_eq!(rt; table.get_field(object, 0), Some(rest));
    assert_eq!(rt; table.next_tile(object), Some(rest));
    assert_eq!(rt; table.next_tile(rest), None);
    Ok(())
}

/// An object of two weak slots is at 0, and its copy at 16, in region 1.
fn copied(rt: &impl Abort, alloc: Global) -> Result<RegionTable, Fail>
    ensures { IfOk result (λ table. table ≡ twice) }
{
    let mut table = one_object(alloc, 4, 0, 2, 0)?;
    let to = RegionNo::new(1);
    let object = Addr::new(0);
    let copy = Addr::new(16);
    assert_eq!(rt; table.take_free(), Some(to));
    check_next_with_weaks(rt, &table, object, Some(object));
    check_next_with_weaks(rt, &table, Addr::new(1), None);
    assert_eq!(rt; table.copy_object(object, to), copy);
    check_next_with_weaks(rt, &table, Addr::new(1), Some(copy));
    Ok(table)
}

/// An object is copied to another region and forwarded, and its old region released.
#[test]
fn moves_an_object(rt: HostRuntime) -> Result<(), Fail> {
    let mut table = copied(&rt, rt.alloc())?;
    let from = RegionNo::new(0);
    let to = RegionNo::new(1);
    let object = Addr::new(0);
    let copy = Addr::new(16);
    table.forward(object, copy);
    check_next_with_weaks(&rt, &table, object, Some(copy));
    assert_eq!(rt; table.target(object), Some(copy));
    assert_eq!(rt; table.tile(object), Shape::Forwarded { to: copy, size: 4 });
    table.release(from);
    check_kind(&rt, &table, from, Kind::Free);
    check_next_with_weaks(&rt, &table, object, Some(copy));
    check_next_with_weaks(&rt, &table, Addr::new(17), None);
    check_top(&rt, &table, to, Addr::new(20));
    Ok(())
}

/// A humongous object takes two adjacent regions, and both are released with it.
#[test]
fn holds_a_run(rt: HostRuntime) -> Result<(), Fail> {
    let Ok(mut table) = small_table(rt.alloc()) else {
        return Err(Fail::from("a table is made"));
    };
    let first = RegionNo::new(1);
    let later = RegionNo::new(2);
    assert_eq!(rt; table.take_free(), Some(RegionNo::new(0)));
    assert_eq!(rt; table.free_run(4), None);
    assert_eq!(rt; table.take_run(2, 8, counts(3, 1, 19)), Some(first));
    check_next_with_weaks(&rt, &table, Addr::new(0), Some(Addr::new(16)));
    check_next_with_weaks(&rt, &table, Addr::new(17), None);
    check_kind(&rt, &table, first, Kind::First);
    check_kind(&rt, &table, later, Kind::Rest);
    assert_eq!(rt; table.run_length(first), 2);
    check_top(&rt, &table, first, Addr::new(32));
    check_top(&rt, &table, later, Addr::new(41));
    check_first_tile(&rt, &table, Addr::new(40), Some(Addr::new(16)));
    check_first_tile(&rt, &table, Addr::new(41), None);
    table.release(first);
    check_kind(&rt, &table, first, Kind::Free);
    check_kind(&rt, &table, later, Kind::Free);
    check_next_with_weaks(&rt, &table, Addr::new(0), None);
    Ok(())
}

/// Fills the second weak slot, the first, and the data word of the object at 0.
fn fill_slots(table: &mut RegionTable)
    requires { table.old ≡ one_object 6 1 2 1 }
    ensures { table.new ≡ slotted }
{
    let object = Addr::new(0);
    table.set_weak(object, 1, Some(Addr::new(9)));
    table.set_field(object, 1, Some(object));
    table.set_value(object, 0, 9);
}

/// An object of one pointer, two weak slots and one data word: what is written to it is read back.
#[test]
fn holds_weak_slots(rt: HostRuntime) -> Result<(), Fail> {
    let region = RegionNo::new(0);
    let object = Addr::new(0);
    let other = Addr::new(9);
    check_next_with_weaks(&rt, &free_regions(rt.alloc())?, object, None);
    let mut table = one_object(rt.alloc(), 6, 1, 2, 1)?;
    assert_eq!(rt; table.lowest_tile(region), Some(object));
    check_next_with_weaks(&rt, &table, object, Some(object));
    check_next_with_weaks(&rt, &table, Addr::new(1), None);
    fill_slots(&mut table);
    assert_eq!(rt; about(&table, object), (7, 1, 1, 6));
    assert_eq!(rt; fields(&table, object), (None, 9));
    assert_eq!(rt; slots(&table, object), (2, Some(object), Some(other)));
    assert_eq!(rt; ends(&table, object), (3, None, Some(other)));
    table.release(region);
    check_next_with_weaks(&rt, &table, object, None);
    Ok(())
}

/// Regions 0, 1 and 2 have two objects each. Those without a weak slot, at 0, 3 and 32, are passed over, and the others are found one after
/// the other.
#[test]
fn finds_weak_slots_in_turn(rt: HostRuntime) -> Result<(), Fail> {
    let mut table = free_regions(rt.alloc())?;
    take_free(&mut table);
    take_free(&mut table);
    take_free(&mut table);
    add(&mut table, 0, 1, 0);
    add(&mut table, 0, 0, 0);
    add(&mut table, 1, 0, 1);
    add(&mut table, 1, 1, 2);
    add(&mut table, 2, 0, 0);
    add(&mut table, 2, 0, 8);
    check_next_with_weaks(&rt, &table, Addr::new(0), Some(Addr::new(16)));
    check_next_with_weaks(&rt, &table, Addr::new(17), Some(Addr::new(19)));
    check_next_with_weaks(&rt, &table, Addr::new(20), Some(Addr::new(34)));
    check_next_with_weaks(&rt, &table, Addr::new(35), None);
    Ok(())
}
