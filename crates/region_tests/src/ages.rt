//! The order in which regions were taken.

ghost use Rattle.std.specs.Prelude.{◌≡◌};

use heap_words::addr::RegionNo;
use region_choice::{Chosen, LiveRow, RegionAges, choose_by_age};
use std::test::Fail;

fn row(region: u32, live_bound: u32) -> LiveRow
    ensures { result ≡ record { region = region; live_bound = live_bound } }
{
    LiveRow {
        region: RegionNo::new(region),
        live_bound,
    }
}

#[test]
fn none_is_young_in_a_new_heap(rt: HostRuntime) -> Result<(), Fail> {
    let ages = RegionAges::new(rt.alloc(), 2)?;
    assert!(rt; !ages.is_young(RegionNo::new(0)));
    assert!(rt; !ages.is_young(RegionNo::new(1)));
    Ok(())
}

#[test]
fn is_young_until_all_are_old(rt: HostRuntime) -> Result<(), Fail> {
    let mut ages = RegionAges::new(rt.alloc(), 3)?;
    ages.take(RegionNo::new(2));
    assert!(rt; ages.is_young(RegionNo::new(2)));
    ages.make_all_old();
    ages.take(RegionNo::new(1));
    assert!(rt; !ages.is_young(RegionNo::new(2)));
    assert!(rt; ages.is_young(RegionNo::new(1)));
    Ok(())
}

#[test]
fn is_forgotten_and_taken_again(rt: HostRuntime) -> Result<(), Fail> {
    let mut ages = RegionAges::new(rt.alloc(), 3)?;
    ages.take(RegionNo::new(2));
    ages.take(RegionNo::new(0));
    ages.forget(RegionNo::new(2));
    assert!(rt; !ages.is_young(RegionNo::new(2)));
    assert!(rt; ages.is_young(RegionNo::new(0)));
    ages.take(RegionNo::new(2));
    assert!(rt; ages.is_young(RegionNo::new(2)));
    Ok(())
}

/// Region 2 was taken first, then 0, then 1, though 1 has the fewest live words. Two fit into 12 words, and region 2 is full.
#[test]
fn takes_the_first_that_were_taken(rt: HostRuntime) -> Result<(), Fail> {
    let mut ages = RegionAges::new(rt.alloc(), 3)?;
    ages.take(RegionNo::new(2));
    ages.take(RegionNo::new(0));
    ages.take(RegionNo::new(1));
    let mut rows = [row(0, 4), row(1, 1), row(2, 8)];
    assert_eq!(rt;
        choose_by_age(&mut rows, &ages, 8, 12, 9),
        Chosen { count: 2, sum: 12 }
    );
    assert_eq!(rt;
        rows.as_slice(),
        [row(2, 8), row(0, 4), row(1, 1)].as_slice()
    );
    Ok(())
}

/// One free region of 8 words: 4 may be copied, whatever the budget. The first one doesn't fit, so none is taken.
#[test]
fn takes_none_past_one_that_is_too_large(rt: HostRuntime) -> Result<(), Fail> {
    let mut ages = RegionAges::new(rt.alloc(), 2)?;
    ages.take(RegionNo::new(1));
    ages.take(RegionNo::new(0));
    let mut rows = [row(0, 0), row(1, 5)];
    assert_eq!(rt;
        choose_by_age(&mut rows, &ages, 8, 100, 1),
        Chosen { count: 0, sum: 0 }
    );
    Ok(())
}
