//! Which pace a run is shown by.

ghost use Rattle.std.specs.Prelude.{◌≡◌, ◌<◌, ◌≤◌, ◌*◌, ◌+◌, ◌/◌, ℕ, Some, max, length, slice_get};
ghost use Rattle.heap_words.specs.declared.config.Config.{Config};
ghost use Rattle.heap_steps.specs.Actors.{AreEvents, IsStep, IsStepOf};
ghost use Rattle.heap_life.specs.Paces.{counts, counted_with, one_if, IsRateFor, IsPaceFor};

use crate::pace::Pace;
use heap_steps::{Event, Step};

/// The event at a place, whose step is one of a plan.
pub(crate) fn event_at(events: &[Event], index: usize) -> Event
    requires { index < length events.now }
    ensures at { slice_get events.now index ≡ Some result }
    ensures own { (config : Config) → AreEvents config events.now → IsStepOf config result.actor result.step }
    ensures step { (config : Config) → AreEvents config events.now → IsStep config result.step }
{
    events[index]
}

/// The count of what counts, with a step more.
pub(crate) fn count_on(pace: &Pace, step: Step, counted: u64) -> u64
    requires { counted < 18446744073709551615 }
    ensures { result ≡ counted + one_if (counts pace.now step) }
{
    if pace.counts(step) {
        counted + 1
    } else {
        counted
    }
}

/// How many steps of the collector count.
fn count(events: &[Event], small: bool) -> u64
    ensures { result ≡ counted_with small events.now }
{
    let pace = Pace {
        every: 1,
        stride: 1,
        small,
    };
    let mut count = 0;
    for index in 0..events.len() {
        let event = event_at(events, index);
        count = count_on(&pace, event.step, count);
    }
    count
}

/// A whole in at most so many parts, or few more: how large a part is, at least 1.
fn part(whole: u64, most: u64) -> u64
    ensures some { 0 < result }
    ensures few { 0 < most → whole / result ≤ most }
    ensures near { (other : ℕ) → 0 < other → whole / other ≤ most → result ≤ 2 * other }
{
    let size = whole / most.max(1);
    if size < u64::MAX { size + 1 } else { size }
}

/// Each how many of a whole there is a moment, by a wish: more where these would be more than so many.
fn rate_for(whole: u64, wish: u64, most: u64) -> u64
    ensures rate { IsRateFor (max wish 1) whole most result }
    ensures some { 0 < result }
{
    let wished = wish.max(1);
    if whole / wished > most {
        part(whole, most)
    } else {
        wished
    }
}

/// The pace of a run of these events, by the wish for a moment each `every` events: where there would be more than about `most` moments,
/// fewer are shown, and where `mark` and `refine` would make too many, those don't count.
pub fn pace_of(events: &[Event], every: u64, most: u64) -> Pace
    ensures { IsPaceFor every most events.now result }
{
    let every = rate_for(events.len() as u64, every, most / 2);
    let small = count(events, true) <= most / 4;
    let stride = rate_for(count(events, small), 1, most / 4);
    Pace {
        every,
        stride,
        small,
    }
}
