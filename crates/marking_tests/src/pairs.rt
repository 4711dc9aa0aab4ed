//! Pairs that are followed as marking ends, over tables made by hand.

ghost use Rattle.std.specs.Prelude.{◌≡◌, ℕ, Some, length, slice_get, IfOk, IfSome};
ghost use Rattle.regions.specs.Table.{HasObject};
ghost use Rattle.marking_tests.specs.Samples.{IsLinked, KeepsTable};

use crate::cycles::{Made, begun, begun_third, build, lead, link_listed, mark_third, roots_of};
use heap_words::addr::{Addr, RegionNo};
use heap_words::config::Format;
use heap_words::header::{Count, FillerSize, PairCount, PairCounts};
use regions::{Kind, RegionTable};
use std::alloc::Global;
use std::test::Fail;

/// Puts an object of so many pairs, whose keys are nil, at the top of an ordinary region, if there is room.
fn add_pairs(table: &mut RegionTable, region: RegionNo, name: u64, pairs: u32) -> Option<Addr>
    ensures keeps { KeepsTable table.old table.new }
    ensures object { IfSome result (HasObject table.new) }
{
    table.law();
    if pairs == 0 || pairs > 7 {
        return None;
    }
    if region.number() >= table.region_count() {
        return None;
    }
    if table.kind(region) != Kind::Ordinary {
        return None;
    }
    let words = 2 + pairs + pairs;
    if !table.has_room(region, words) {
        return None;
    }
    let size = FillerSize::new(words);
    let counts = PairCounts {
        pointers: 0,
        pairs: PairCount::new(pairs),
        values: Count::new(0),
    };
    let at = table.push_filler(region, size);
    table.law();
    table.make_pairs(at, size, name, counts);
    Some(at)
}

/// Objects of so many pointers and weak slots, and after them in the list maps of so many pairs, the i-th in region i % 3. Of a map of n
/// pairs field i is a key, and field n + i what it holds.
fn build_maps(
    alloc: Global,
    shapes: &[(u8, u8)],
    maps: &[u32],
    links: &[(usize, u32, usize)],
) -> Result<Made, Fail>
    ensures count { IfOk result (λ made. length made.table.regions ≡ 4) }
    ensures words { IfOk result (λ made. made.table.words_per_region ≡ 16) }
    ensures linked { IfOk result (λ made. IsLinked made.table) }
    ensures objects { IfOk result (λ made. (i a : ℕ) → slice_get made.objects.items i ≡ Some a → HasObject made.table a) }
{
    let mut made = build(alloc, shapes, &[])?;
    for i in 0..maps.len() {
        let region = RegionNo::new((i % 3) as u32);
        let Some(at) = add_pairs(&mut made.table, region, 100 + i as u64, maps[i]) else {
            return Err(Fail::from("a map is made"));
        };
        made.objects.push(at)?;
    }
    for (from, field, to) in links {
        link_listed(&mut made.table, &made.objects, *from, *field, *to);
    }
    Ok(made)
}

/// How many objects are marked in all, where the roots hold some of them: the same in the first and in the third format, and as many were
/// scanned.
fn count_pairs(
    alloc: Global,
    shapes: &[(u8, u8)],
    maps: &[u32],
    links: &[(usize, u32, usize)],
    held: &[(u32, usize)],
) -> Result<u32, Fail> {
    let made = build_maps(alloc, shapes, maps, links)?;
    let roots = roots_of(alloc, &made, held)?;
    let mut marker = begun(alloc, &made.table, &roots)?;
    let count = marker.finish(&made.table);
    let mut other = begun_third(alloc, &made.table, &roots)?;
    if other.finish(&made.table) != count {
        return Err(Fail::from("both formats mark as much"));
    }
    if marker.scans() != count || other.scans() != count {
        return Err(Fail::from("what is marked is scanned once"));
    }
    Ok(count)
}

/// A map whose value names its key: it keeps neither. Where something else keeps the key, the value stays too.
#[test]
fn a_value_that_names_its_key_goes(rt: HostRuntime) -> Result<(), Fail> {
    let links = [(1, 0, 0), (2, 0, 0), (2, 1, 1)];
    let shapes = [(0, 0), (1, 0)];
    for (held, count) in [
        (&[(0, 2)][..], 1),
        (&[(0, 2), (1, 0)][..], 3),
        (&[(0, 2), (1, 1)][..], 3),
        (&[(1, 0)][..], 1),
    ] {
        assert_eq!(rt;
            count_pairs(rt.alloc(), &shapes, &[1], &links, held)?,
            count
        );
    }
    let mut made = build_maps(rt.alloc(), &shapes, &[1], &links)?;
    let roots = roots_of(rt.alloc(), &made, &[(0, 2)])?;
    let mut marker = begun(rt.alloc(), &made.table, &roots)?;
    assert!(rt; lead(&made.table, 2, &[(0, Some(0)), (1, Some(16))]));
    assert_eq!(rt; marker.finish(&made.table), 1);
    marker.clear_rest(&mut made.table, Addr::new(0));
    assert!(rt; lead(&made.table, 2, &[(0, None), (1, None)]));
    Ok(())
}

/// A key that is its own value keeps nothing either.
#[test]
fn a_key_that_is_its_value_goes(rt: HostRuntime) -> Result<(), Fail> {
    let links = [(1, 0, 0), (1, 1, 0)];
    for (held, count) in [(&[(0, 1)][..], 1), (&[(0, 1), (5, 0)][..], 2)] {
        assert_eq!(rt;
            count_pairs(rt.alloc(), &[(0, 0)], &[1], &links, held)?,
            count
        );
    }
    Ok(())
}

/// What a nil key would hold is nothing, and what a map that isn't reached holds isn't marked.
#[test]
fn a_dead_map_keeps_nothing(rt: HostRuntime) -> Result<(), Fail> {
    let links = [(2, 0, 0), (2, 2, 1)];
    for (held, count) in [
        (&[(0, 0)][..], 1),
        (&[(0, 0), (1, 2)][..], 3),
        (&[(1, 2)][..], 1),
    ] {
        assert_eq!(rt;
            count_pairs(rt.alloc(), &[(0, 0), (0, 0)], &[2], &links, held)?,
            count
        );
    }
    Ok(())
}

/// A chain of three across two maps: the first map holds 1 for 0 and 3 for 2, the second one 2 for 1.
#[test]
fn a_chain_goes_across_maps(rt: HostRuntime) -> Result<(), Fail> {
    let shapes = [(0, 0), (0, 0), (0, 0), (0, 0)];
    let links = [
        (4, 0, 0),
        (4, 2, 1),
        (4, 1, 2),
        (4, 3, 3),
        (5, 0, 1),
        (5, 1, 2),
    ];
    for (held, count) in [
        (&[(0, 4), (1, 5), (2, 0)][..], 6),
        (&[(0, 4), (1, 5), (2, 1)][..], 5),
        (&[(0, 4), (1, 5), (2, 3)][..], 3),
        (&[(0, 4), (2, 0)][..], 3),
        (&[(0, 4), (1, 5)][..], 2),
    ] {
        assert_eq!(rt;
            count_pairs(rt.alloc(), &shapes, &[2, 1], &links, held)?,
            count
        );
    }
    Ok(())
}

/// A chain of five in one map, against the order of its slots and along it.
#[test]
fn a_chain_goes_against_the_order(rt: HostRuntime) -> Result<(), Fail> {
    let shapes = [(0, 0), (0, 0), (0, 0), (0, 0), (0, 0), (0, 0)];
    let against = [
        (6, 0, 1),
        (6, 5, 0),
        (6, 1, 2),
        (6, 6, 1),
        (6, 2, 3),
        (6, 7, 2),
        (6, 3, 4),
        (6, 8, 3),
        (6, 4, 5),
        (6, 9, 4),
    ];
    let along = [
        (6, 0, 0),
        (6, 5, 1),
        (6, 1, 1),
        (6, 6, 2),
        (6, 2, 2),
        (6, 7, 3),
        (6, 3, 3),
        (6, 8, 4),
        (6, 4, 4),
        (6, 9, 5),
    ];
    for (links, first, third) in [(&against, 5, 3), (&along, 0, 2)] {
        assert_eq!(rt;
            count_pairs(rt.alloc(), &shapes, &[5], links, &[(0, 6), (1, first)])?,
            7
        );
        assert_eq!(rt;
            count_pairs(rt.alloc(), &shapes, &[5], links, &[(0, 6), (1, third)])?,
            5
        );
        assert_eq!(rt;
            count_pairs(rt.alloc(), &shapes, &[5], links, &[(0, 6)])?,
            1
        );
    }
    Ok(())
}

/// A value leads by a pointer to a map, which holds another value for the same key: `mark` finds none of them, and `finish` all.
#[test]
fn what_is_held_is_scanned(rt: HostRuntime) -> Result<(), Fail> {
    let links = [(3, 0, 0), (3, 1, 1), (1, 0, 4), (4, 0, 0), (4, 1, 2)];
    let made = build_maps(rt.alloc(), &[(0, 0), (1, 0), (0, 0)], &[1, 1], &links)?;
    let roots = roots_of(rt.alloc(), &made, &[(0, 3), (1, 0)])?;
    let mut marker = begun(rt.alloc(), &made.table, &roots)?;
    assert_eq!(rt; marker.mark(&made.table, Format::V1, 9), 2);
    assert_eq!(rt; (marker.finish(&made.table), marker.scans()), (5, 5));
    let mut marker = begun_third(rt.alloc(), &made.table, &roots)?;
    assert_eq!(rt; mark_third(&mut marker, &made.table, 9), (4, 2));
    assert_eq!(rt; (marker.finish(&made.table), marker.scans()), (5, 5));
    Ok(())
}
