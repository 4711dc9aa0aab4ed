//! Placements in a small heap.

use alloc_buffers::{AllocBuffers, Allocation, Full};
use heap_words::addr::RegionNo;
use heap_words::config::{Config, Format};
use regions::RegionTable;
use std::test::Fail;

/// Where a place for an object starts, regions having 16 words; a run's regions are as many as the object needs.
fn address(place: Allocation, size: u32) -> u32 {
    match place {
        Allocation::Filler(at) => at.word(),
        Allocation::Run { first, count } => {
            if count == size.div_ceil(16) {
                first.number().wrapping_mul(16)
            } else {
                u32::MAX
            }
        }
    }
}

/// Two regions of 16 words, buffers of 4 words, two mutators: each placement's address, None for Full.
#[test]
fn places(rt: HostRuntime) -> Result<(), Fail> {
    let config = Config {
        format: Format::V1,
        regions: 2,
        words: 16,
        buffer: 4,
        mutators: 2,
        first_name: 0,
    };
    // Mutator, size, address.
    let rows: [(u32, u32, Option<u32>); 12] = [
        (0, 32, Some(0)), // a run of both regions, which stay free until the object is made
        (0, 4, Some(0)), // a whole buffer
        (1, 17, None), // one region is free
        (1, 16, Some(16)), // a run of one region
        (1, 2, Some(4)), // the front of a buffer
        (1, 3, Some(8)), // the rest of 2 is too small: a new buffer
        (0, 8, Some(16)), // words of its own, in the next region
        (0, 9, None), // more than half a region, and no region is free
        (0, 5, Some(24)), // words of its own
        (0, 4, None), // 3 words are left there, and no region is free
        (0, 8, None),
        (1, 2, None), // a rest of 1
    ];
    let Ok(mut table) = RegionTable::new(rt.alloc(), &config) else {
        return Err(Fail::from("a table"));
    };
    let mut buffers = AllocBuffers::new(rt.alloc(), &config)?;
    assert!(rt; !buffers.is_current(RegionNo::new(0)));
    for (mutator, size, address_wanted) in rows {
        assert!(rt; mutator < 2 && size > 0 && size <= 32);
        match buffers.allocate(&mut table, mutator, size) {
            Ok(place) => assert_eq!(rt; Some(address(place, size)), address_wanted),
            Err(Full) => assert_eq!(rt; None, address_wanted),
        }
    }
    assert!(rt; buffers.is_current(RegionNo::new(1)));
    assert!(rt; !buffers.is_current(RegionNo::new(0)));
    buffers.retire_all();
    Ok(())
}
