//! The copies, breadth first: each destination in turn, and in it each copy, those too that come meanwhile.

ghost use Rattle.std.specs.Prelude.{◌≡◌, ◌/◌, ℕ, false};
ghost use Rattle.evacuation.specs.Space.{IsSpaceObject, IsObjectSettled, IsRegionSettled, IsDestination};
ghost use Rattle.evacuation.specs.Turns.{Pause, PauseStands, PauseGoesOn, in_set, layout, space};

use crate::fields::settle_field;
use crate::room::Context;
use heap_words::addr::{Addr, RegionNo};
use regions::RegionTable;

/// Each field of a copy names the new place of its target.
fn settle_object(table: &mut RegionTable, context: &mut Context, at: Addr)
    ghost pause: { Pause }
    requires stands { PauseStands pause table.old context.old }
    requires outside { in_set pause at ≡ false }
    requires object { IsSpaceObject (space pause table.old) at }
    requires taken { IsDestination context.old.destinations (at / pause.start.words_per_region) }
    ensures goes_on { PauseGoesOn pause table.old table.new context.old context.new }
    ensures settled { IsObjectSettled (layout pause) context.new.noted (space pause table.new) at }
{
    let count = table.field_count(at);
    for field in 0..count {
        settle_field(table, context, at, field);
    }
}

/// The copies of one destination.
fn settle_region(table: &mut RegionTable, context: &mut Context, region: RegionNo)
    ghost pause: { Pause }
    requires stands { PauseStands pause table.old context.old }
    requires destination { IsDestination context.old.destinations region }
    ensures goes_on { PauseGoesOn pause table.old table.new context.old context.new }
    ensures settled { IsRegionSettled (layout pause) context.new.noted (space pause table.new) region }
{
    table.law();
    let bottom = region.number() * table.words_per_region();
    if table.top(region).word() == bottom {
        return;
    }
    let mut at = Addr::new(bottom);
    'tiles: loop {
        table.law();
        settle_object(table, context, at);
        let Some(next) = table.next_behind(at) else {
            break 'tiles;
        };
        at = next;
    }
}

/// The copies of all destinations.
pub(crate) fn settle_copies(table: &mut RegionTable, context: &mut Context)
    ghost pause: { Pause }
    requires stands { PauseStands pause table.old context.old }
    ensures goes_on { PauseGoesOn pause table.old table.new context.old context.new }
    ensures settled { (k : ℕ) → IsDestination context.new.destinations k
        → IsRegionSettled (layout pause) context.new.noted (space pause table.new) k }
{
    let mut n = 0;
    while let Some(region) = context.destinations.region(n) {
        settle_region(table, context, region);
        n += 1;
    }
}
