//! A table with an object of pairs, changed call by call: what is written is read back.

ghost use Rattle.std.specs.Prelude.{◌≡◌, IfOk, IsSome, None, Some, length};
ghost use Rattle.regions.specs.Table.{object_at, weaks_at, held_at, fields_at};
ghost use Rattle.region_tests.specs.Filled.{paired};

use crate::refining::free_regions;
use heap_words::addr::{Addr, Ptr, RegionNo};
use heap_words::header::{Count, FillerSize, PairCount, PairCounts};
use regions::RegionTable;
use std::alloc::Global;
use std::test::Fail;

/// Region 0 is taken, and has an object of one pointer, two pairs and one data word at its bottom, made in a filler of ten words.
fn one_of_pairs(alloc: Global) -> Result<RegionTable, Fail>
    ensures { IfOk result (λ table. table ≡ paired None None) }
{
    let mut table = free_regions(alloc)?;
    let region = RegionNo::new(0);
    let object = Addr::new(0);
    let size = FillerSize::new(10);
    if table.take_free() != Some(region) {
        return Err(Fail::from("region 0 is the lowest free one"));
    }
    if table.push_filler(region, size) != object {
        return Err(Fail::from("a filler is at the bottom"));
    }
    let counts = PairCounts {
        pointers: 1,
        pairs: PairCount::new(2),
        values: Count::new(1),
    };
    table.make_pairs(object, size, 7, counts);
    Ok(table)
}

/// The second pair of the object at 0 has a key, and holds the object.
fn fill_pair(table: &mut RegionTable)
    requires { table.old ≡ paired None None }
    ensures { table.new ≡ paired (Some 9) (Some 0) }
{
    let object = Addr::new(0);
    table.set_weak(object, 1, Some(Addr::new(9)));
    table.set_held(object, 1, Some(object));
}

/// What it holds is overwritten.
fn empty_pair(table: &mut RegionTable)
    requires { table.old ≡ paired (Some 9) (Some 0) }
    ensures { table.new ≡ paired (Some 9) None }
{
    table.set_held(Addr::new(0), 1, None);
}

/// How many pointers, weak slots, held slots, fields and words an object has.
fn counts(table: &RegionTable, object: Addr) -> (u32, u32, u32, u32, u32)
    requires { IsSome (object_at table.now object) }
{
    (
        table.pointer_count(object),
        table.weak_count(object),
        table.held_count(object),
        table.field_count(object),
        table.object_size(object),
    )
}

/// The two pairs of an object: each key with what it holds.
fn pairs(table: &RegionTable, object: Addr) -> (Ptr, Ptr, Ptr, Ptr)
    requires weaks { length (weaks_at table.now object) ≡ 2 }
    requires held { length (held_at table.now object) ≡ 2 }
{
    (
        table.get_weak(object, 0),
        table.get_held(object, 0),
        table.get_weak(object, 1),
        table.get_held(object, 1),
    )
}

/// The five fields of an object, in address order.
fn fields(table: &RegionTable, object: Addr) -> (Ptr, Ptr, Ptr, Ptr, Ptr)
    requires { length (fields_at table.now object) ≡ 5 }
{
    (
        table.get_field(object, 0),
        table.get_field(object, 1),
        table.get_field(object, 2),
        table.get_field(object, 3),
        table.get_field(object, 4),
    )
}

/// An object of one pointer, two pairs and one data word: its counts, its size, and where it is found. What is written to a pair is read
/// back, by its place and among the fields, which are the pointer, the keys, and what these hold.
#[test]
fn holds_pairs(rt: HostRuntime) -> Result<(), Fail> {
    let object = Addr::new(0);
    let key = Addr::new(9);
    let mut table = one_of_pairs(rt.alloc())?;
    assert_eq!(rt; counts(&table, object), (1, 2, 2, 5, 8));
    assert_eq!(rt; table.next_with_weaks(object), Some(object));
    assert_eq!(rt; pairs(&table, object), (None, None, None, None));
    fill_pair(&mut table);
    assert_eq!(rt;
        pairs(&table, object),
        (None, None, Some(key), Some(object))
    );
    assert_eq!(rt;
        fields(&table, object),
        (None, None, Some(key), None, Some(object))
    );
    empty_pair(&mut table);
    assert_eq!(rt; pairs(&table, object), (None, None, Some(key), None));
    assert_eq!(rt; fields(&table, object), (None, None, Some(key), None, None));
    Ok(())
}
