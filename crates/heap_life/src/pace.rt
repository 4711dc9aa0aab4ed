//! Which moments of a run are shown.

ghost use Rattle.std.specs.Prelude.{◌≡◌, ◌<◌, ◌%◌, ◌==◌, ◌&&◌};

use heap_steps::{CollectorStep, Step};

/// Which moments of a run are shown: the first and the last; each that so many events are a multiple of; and those before and after each
/// step of the collector that counts, one of so many.
#[derive(Clone, Copy, Debug, PartialEq, Eq)]
pub struct Pace {
    /// A moment each time that so many events are done, 1 or more.
    pub every: u64,
    /// Of the collector's steps that count, one of so many has its moments, 1 or more.
    pub stride: u64,
    /// Whether `mark` and `refine` count.
    pub small: bool,
    ghost every_some: { 0 < every },
    ghost stride_some: { 0 < stride },
}

impl Pace {
    ghost use Rattle.heap_life.specs.Paces.{counts};

    /// Whether a step counts.
    pub fn counts(&self, step: Step) -> bool
        ensures { result ≡ counts self.now step }
    {
        match step {
            Step::Mutator(_) => false,
            Step::Collector(CollectorStep::Mark(_)) => self.small,
            Step::Collector(CollectorStep::Refine(_)) => self.small,
            Step::Collector(_) => true,
        }
    }

    /// Whether a step has moments before and after it, where so many counted before it.
    pub fn shows(&self, step: Step, counted: u64) -> bool
        ensures { result ≡ counts self.now step && counted % self.now.stride == 0 }
    {
        if !self.counts(step) {
            return false;
        }
        counted % self.stride == 0
    }

    /// Whether so many events done are a moment by themselves.
    pub fn is_stop(&self, done: u64) -> bool
        ensures { result ≡ (done % self.now.every == 0) }
    {
        done % self.every == 0
    }
}
