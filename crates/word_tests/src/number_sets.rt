//! Sets of numbers as bits: over the borders of words of 64 bits.

use bit_sets::bits::Bits;
use bit_sets::small_bits::SmallBits;
use std::alloc::{AllocError, Global};
use std::test::Fail;

/// The set of these numbers, all below 200.
fn set_of(alloc: Global, members: &[u32]) -> Result<Bits, AllocError> {
    set_below(alloc, 200, members)
}

/// The set of these numbers, all below another.
fn set_below(alloc: Global, count: u32, members: &[u32]) -> Result<Bits, AllocError> {
    let mut bits = Bits::new(alloc, count)?;
    for member in members {
        if *member < bits.len() {
            bits.set(*member);
        }
    }
    Ok(bits)
}

/// Whether the set has these numbers, in this order, and no other ones.
fn are(bits: &Bits, members: &[u32]) -> bool {
    let len = bits.len();
    let mut start = 0;
    for member in members {
        let Some(found) = bits.next(start) else {
            return false;
        };
        if found != *member || *member >= len || !bits.get(found) {
            return false;
        }
        start = found + 1;
    }
    bits.next(start).is_none()
}

/// Over the borders of words of 64 bits, from each place on.
#[test]
fn finds_the_lowest(rt: HostRuntime) -> Result<(), Fail> {
    let bits = set_of(rt.alloc(), &[199, 64, 0, 128, 63, 127])?;
    assert!(rt; are(&bits, &[0, 63, 64, 127, 128, 199]));
    for (from, found) in [
        (1, Some(63)),
        (64, Some(64)),
        (65, Some(127)),
        (129, Some(199)),
        (199, Some(199)),
        (200, None),
        (4_000_000_000, None),
    ] {
        assert_eq!(rt; bits.next(from), found, "from {from}");
    }
    for (from, to, found) in [
        (0, 1, Some(0)),
        (1, 63, None),
        (1, 64, Some(63)),
        (64, 64, None),
        (65, 128, Some(127)),
        (129, 199, None),
        (129, 4_000_000_000, Some(199)),
        (199, 3, None),
    ] {
        assert_eq!(rt; bits.next_below(from, to), found, "from {from} to {to}");
    }
    let none = Bits::new(rt.alloc(), 0)?;
    assert!(rt; none.len() == 0 && are(&none, &[]));
    Ok(())
}

/// In a group of 64 numbers, and beside another set: the first and the last number of a group, and a last group that is cut off.
#[test]
fn finds_the_lowest_of_a_group(rt: HostRuntime) -> Result<(), Fail> {
    let bits = set_of(rt.alloc(), &[0, 63, 191, 199])?;
    let other = set_of(rt.alloc(), &[0, 191])?;
    let mut small = SmallBits::new(rt.alloc(), 200)?;
    for member in [0, 63, 191, 199] {
        if member < small.len() {
            small.set(member);
        }
    }
    if small.len() == 200 && bits.len() == 200 && other.len() == 200 {
        for (group, found, without) in [
            (0, Some(0), Some(63)),
            (1, None, None),
            (2, Some(191), None),
            (3, Some(199), Some(199)),
        ] {
            assert_eq!(rt; small.lowest_in(group), found, "group {group}");
            assert_eq!(rt;
                bits.lowest_without(&other, group),
                without,
                "group {group}"
            );
        }
    }
    Ok(())
}

/// What is in the one and not in the other.
#[test]
fn finds_the_lowest_without(rt: HostRuntime) -> Result<(), Fail> {
    let bits = set_of(rt.alloc(), &[0, 63, 64, 128])?;
    let other = set_of(rt.alloc(), &[0, 64, 65, 191])?;
    if bits.len() == other.len() {
        for (from, to, found) in [
            (0, 63, None),
            (0, 64, Some(63)),
            (64, 200, Some(128)),
            (64, 128, None),
            (129, 200, None),
        ] {
            assert_eq!(rt;
                bits.next_without(&other, from, to),
                found,
                "from {from} to {to}"
            );
        }
    }
    Ok(())
}

/// A range within a word, over a border, of whole words, and empty ones: what is left of a set when the range is
/// cleared.
#[test]
fn clears_ranges(rt: HostRuntime) -> Result<(), Fail> {
    let all = [0, 1, 62, 63, 64, 65, 127, 128, 199];
    for (from, to, left) in [
        (1, 63, &[0, 63, 64, 65, 127, 128, 199][..]),
        (63, 65, &[0, 1, 62, 65, 127, 128, 199][..]),
        (64, 128, &[0, 1, 62, 63, 128, 199][..]),
        (0, 200, &[][..]),
        (64, 64, &all[..]),
        (100, 3, &all[..]),
    ] {
        let mut bits = set_of(rt.alloc(), &all)?;
        if to <= bits.len() {
            bits.clear_range(from, to);
        }
        assert!(rt; are(&bits, left), "from {from} to {to}");
        bits.clear();
        assert!(rt; are(&bits, &[]));
    }
    Ok(())
}

/// The numbers of a range, beside what was in the set before.
#[test]
fn sets_ranges(rt: HostRuntime) -> Result<(), Fail> {
    for (from, to, members) in [
        (5, 8, &[5, 6, 7, 64][..]),
        (62, 66, &[62, 63, 64, 65][..]),
        (198, 200, &[64, 198, 199][..]),
        (64, 64, &[64][..]),
        (100, 3, &[64][..]),
    ] {
        let mut bits = set_of(rt.alloc(), &[64])?;
        if to <= bits.len() {
            bits.set_range(from, to);
        }
        assert!(rt; are(&bits, members), "from {from} to {to}");
    }
    Ok(())
}

/// Five pages of words, 32,768 numbers each and the last one fewer, which are taken in any order: a search passes those that aren't.
#[test]
fn searches_pages_in_any_order(rt: HostRuntime) -> Result<(), Fail> {
    let members = [149_999, 40_000, 3, 98_304, 32_767];
    let bits = set_below(rt.alloc(), 150_000, &members)?;
    assert!(rt; are(&bits, &[3, 32_767, 40_000, 98_304, 149_999]));
    for (from, to, found) in [
        (40_001, 98_304, None),
        (40_001, 98_305, Some(98_304)),
        (65_536, 98_304, None),
        (98_305, 131_072, None),
        (98_305, 150_000, Some(149_999)),
    ] {
        assert_eq!(rt; bits.next_below(from, to), found, "from {from} to {to}");
    }
    let other = set_below(rt.alloc(), 150_000, &[32_767, 65_536, 98_304])?;
    assert!(rt; bits.len() == 150_000 && other.len() == 150_000);
    for (from, to, found) in [
        (4, 40_000, None),
        (4, 40_001, Some(40_000)),
        (40_001, 149_999, None),
        (40_001, 150_000, Some(149_999)),
    ] {
        assert_eq!(rt;
            bits.next_without(&other, from, to),
            found,
            "from {from} to {to}"
        );
    }
    Ok(())
}

/// Ranges over pages that are taken and others are set and cleared. A page that is taken after the set was cleared has none of what the
/// set had.
#[test]
fn changes_pages(rt: HostRuntime) -> Result<(), Fail> {
    let mut bits = set_below(rt.alloc(), 150_000, &[140_000, 3, 131_072])?;
    assert!(rt; bits.len() == 150_000);
    bits.clear_range(2, 131_073);
    assert!(rt; bits.len() == 150_000 && are(&bits, &[140_000]));
    bits.set_range(32_766, 98_305);
    assert!(rt; bits.len() == 150_000 && bits.next(0) == Some(32_766));
    bits.clear_range(32_767, 98_304);
    assert!(rt; bits.len() == 150_000 && are(&bits, &[32_766, 98_304, 140_000]));
    bits.remove(65_536);
    assert!(rt; bits.len() == 150_000 && are(&bits, &[32_766, 98_304, 140_000]));
    bits.clear();
    assert!(rt; bits.len() == 150_000 && are(&bits, &[]));
    assert!(rt; bits.insert(40_000));
    assert!(rt; bits.len() == 150_000 && are(&bits, &[40_000]));
    assert!(rt; !bits.insert(40_000));
    Ok(())
}
