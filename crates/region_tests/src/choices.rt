//! Choices that are told in advance, and drawn rows against all their subsets.

ghost use Rattle.std.specs.Prelude.{◌≡◌, ◌<◌, All};

use heap_words::addr::RegionNo;
use region_choice::{Chosen, LiveRow, choose};
use std::test::Fail;

fn row(region: u32, live_bound: u32) -> LiveRow
    ensures { result ≡ record { region = region; live_bound = live_bound } }
{
    LiveRow {
        region: RegionNo::new(region),
        live_bound,
    }
}

#[test]
fn takes_those_that_free_most(rt: HostRuntime) -> Result<(), Fail> {
    let mut rows = [row(7, 8), row(5, 4), row(3, 4)];
    assert_eq!(rt; choose(&mut rows, 16, 8, 4), Chosen { count: 2, sum: 8 });
    assert_eq!(rt;
        rows.as_slice(),
        [row(3, 4), row(5, 4), row(7, 8)].as_slice()
    );
    Ok(())
}

#[test]
fn stays_within_the_budget(rt: HostRuntime) -> Result<(), Fail> {
    let mut rows = [row(7, 8), row(5, 4), row(3, 4)];
    assert_eq!(rt; choose(&mut rows, 16, 7, 4), Chosen { count: 1, sum: 4 });
    assert_eq!(rt;
        rows.as_slice(),
        [row(3, 4), row(5, 4), row(7, 8)].as_slice()
    );
    Ok(())
}

/// One free region of 16 words: 8 may be copied, whatever the budget.
#[test]
fn stays_within_the_free_words(rt: HostRuntime) -> Result<(), Fail> {
    let mut rows = [row(7, 8), row(5, 4), row(3, 4)];
    assert_eq!(rt; choose(&mut rows, 16, 16, 1), Chosen { count: 2, sum: 8 });
    Ok(())
}

#[test]
fn takes_nothing_of_nothing(rt: HostRuntime) -> Result<(), Fail> {
    let mut rows: [LiveRow; 0] = [];
    assert_eq!(rt; choose(&mut rows, 16, 8, 4), Chosen { count: 0, sum: 0 });
    Ok(())
}

/// Regions without live words cost nothing: no budget is needed for them.
#[test]
fn takes_dead_regions_without_a_budget(rt: HostRuntime) -> Result<(), Fail> {
    let mut rows = [row(2, 0), row(1, 0), row(0, 1)];
    assert_eq!(rt; choose(&mut rows, 16, 0, 4), Chosen { count: 2, sum: 0 });
    assert_eq!(rt;
        rows.as_slice(),
        [row(1, 0), row(2, 0), row(0, 1)].as_slice()
    );
    Ok(())
}

#[test]
fn takes_no_live_region_without_a_free_one(rt: HostRuntime) -> Result<(), Fail> {
    let mut rows = [row(0, 3), row(1, 15), row(2, 1)];
    assert_eq!(rt; choose(&mut rows, 16, 1000, 0), Chosen { count: 0, sum: 0 });
    Ok(())
}

/// The next of a row of numbers that look drawn.
fn draw(seed: u32) -> u32 {
    seed.wrapping_mul(1_664_525).wrapping_add(1_013_904_223)
}

/// Eight rows of regions below 8, some of them the same, and live bounds below 16.
fn drawn_rows(from: u32) -> [LiveRow; 8]
    ensures { All (λ row. row.live_bound < 16) result }
{
    let mut seed = from;
    let mut rows = [row(0, 0); 8];
    for place in 0..8 {
        seed = draw(seed);
        rows[place] = row(seed >> 8 & 7, (seed >> 16) % 16);
    }
    rows
}

/// The most words that some of at most eight rows free within a limit, one set of them after another.
fn most_freed(rows: &[LiveRow], words: u32, limit: u64) -> u64 {
    let mut most = 0;
    for places in 0u32..256 {
        let mut live = 0u64;
        let mut freed = 0u64;
        for place in 0..8 {
            if let Some(row) = rows.get(place)
                && places >> place & 1 == 1
            {
                live = live.wrapping_add(u64::from(row.live_bound));
                freed = freed.wrapping_add(u64::from(words.saturating_sub(row.live_bound)));
            }
        }
        if live <= limit {
            most = most.max(freed);
        }
    }
    most
}

/// No set of the rows frees more than the chosen ones, for up to eight drawn rows, budgets and counts of free regions.
#[test]
fn no_set_frees_more(rt: HostRuntime) -> Result<(), Fail> {
    let mut seed = 1;
    for round in 0u32..200 {
        seed = draw(seed);
        let mut rows = drawn_rows(seed);
        let len = (round % 9) as usize;
        let budget = u64::from(draw(seed) >> 16 & 63);
        let free = round % 7;
        let chosen = choose(&mut rows[..len], 16, budget, free);
        let mut freed = 0u64;
        for row in rows.iter().take(chosen.count) {
            freed = freed.wrapping_add(u64::from(16u32.saturating_sub(row.live_bound)));
        }
        let limit = budget.min(u64::from(free) * 8);
        assert!(rt; chosen.sum <= limit, "round {round}");
        assert_eq!(rt; freed, most_freed(&rows[..len], 16, limit), "round {round}");
    }
    Ok(())
}

/// A hundred rows of regions below 64, some of them the same, and live bounds below 1024 in steps.
fn many_rows(from: u32, step: u32) -> [LiveRow; 100]
    requires { 0 < step }
    ensures { All (λ row. row.live_bound < 1024) result }
{
    let mut seed = from;
    let mut rows = [row(0, 0); 100];
    for place in 0..100 {
        seed = draw(seed);
        let live = (seed >> 16) % 1024;
        rows[place] = row(seed >> 8 & 63, live - live % step);
    }
    rows
}

/// Of many rows those are chosen, in the same order, that come first once they are sorted.
#[test]
fn chooses_what_sorting_puts_in_front(rt: HostRuntime) -> Result<(), Fail> {
    let mut seed = 1;
    for round in 0u32..300 {
        seed = draw(seed);
        let step = 1 + round % 5 * 100;
        let mut rows = many_rows(seed, step);
        let mut sorted = many_rows(seed, step);
        sorted.sort_unstable_by_key(|row| (row.live_bound, row.region.number()));
        let budget = u64::from((draw(seed) >> 8) % 60000 >> round % 12);
        let chosen = choose(&mut rows, 1024, budget, 200);
        let mut count = 0usize;
        let mut sum = 0u64;
        for row in sorted.iter() {
            sum = sum.wrapping_add(u64::from(row.live_bound));
            if budget < sum {
                break;
            }
            count = count.wrapping_add(1);
        }
        assert_eq!(rt; chosen.count, count, "round {round}");
        for (row, other) in rows.iter().zip(sorted.iter()).take(count) {
            assert_eq!(rt; *row, *other, "round {round}");
        }
    }
    Ok(())
}
