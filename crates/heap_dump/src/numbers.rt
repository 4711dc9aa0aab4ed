//! The numbers of a heap as a whole, at a moment.

ghost use Rattle.std.specs.Prelude.{◌≡◌, ◌<◌, ◌≤◌};
ghost use Rattle.step_core.specs.Measures.{sum_below};
ghost use Rattle.heap_dump.specs.Numbers.{logged_of, IsNumbersOf};

use step_core::Core;

/// The numbers of a heap.
#[derive(Clone, Copy, Debug, PartialEq, Eq)]
pub struct Numbers {
    /// How many words are handed out, in all regions.
    pub handed_out: u64,
    /// How many words are live, in all regions.
    pub live: u64,
    /// How many regions are free.
    pub free: u32,
    /// How many cards wait for refinement.
    pub queued: u32,
    /// How many cards are dirty: those that wait, and those in the logs of mutators.
    pub dirty: u64,
}

/// How many cards are in a mutator's log.
fn logged_by(core: &Core, mutator: u32) -> u32
    requires { mutator < core.now.config.mutators }
    ensures value { result ≡ logged_of core.now mutator }
    ensures few { result < 4 }
{
    core.law_remembers();
    core.cards().law();
    core.cards().logged(mutator) as u32
}

/// The cards in the logs of mutators.
fn logged(core: &Core) -> u64
    ensures value { result ≡ sum_below (logged_of core.now) core.now.config.mutators }
    ensures few { result ≤ 17179869184 }
{
    let mut sum = 0;
    for mutator in 0..core.config().mutators {
        sum += u64::from(logged_by(core, mutator));
    }
    sum
}

/// The numbers of a heap.
pub fn numbers_of(core: &Core) -> Numbers
    ensures { IsNumbersOf core.now result }
{
    let queued = core.queued();
    Numbers {
        handed_out: core.used_words(),
        live: core.live_words(),
        free: core.free_regions(),
        queued,
        dirty: u64::from(queued) + logged(core),
    }
}
