//! The life of a heap: a list of steps done in a new heap, with moments of it.
//!
//! ```text
//!   events      e1        e2        e3: gc pause        e4
//!   cores    c0 ---> c1 ------> c2 -----------> c3 -------> c4
//!   moments  0                  2               3           4       the first, the last, each `every`, and before and after the pause
//! ```

ghost use Rattle.std.specs.Prelude.{◌≡◌, IfOk, IfErr, OnOk, map};
ghost use Rattle.heap_words.specs.Configs.{Suits};
ghost use Rattle.heap_words.specs.declared.config.Config.{Config};
ghost use Rattle.heap_steps.specs.Actors.{AreEvents, IsStep, IsStepOf};
ghost use Rattle.heap_steps.specs.Faults.{IsRunFault};
ghost use Rattle.step_core.specs.Passages.{step_in, actor_in, actor_of};
ghost use Rattle.heap_life.specs.Paces.{most_moments};
ghost use Rattle.heap_life.specs.Lives.{IsLifeFrom, IsLifeOf};
ghost use Rattle.heap_life.specs.Tolds.{tells_tiles};

use crate::course::live_on;
use crate::moment_text::Teller;
use crate::pace::Pace;
use crate::pacing::pace_of;
use heap_dump::Numbers;
use heap_steps::{Actor, Event, Plan, Record, Reply, RunFault, Step, run_fault};
use heap_words::config::Config;
use std::alloc::{AllocError, Global};
use step_core::Core;

/// Up to how many words a heap has its tiles told.
const TOLD_WORDS: u32 = 1 << 16;

/// How many bytes are told before tiles aren't any more.
const TOLD_BYTES: usize = 8_000_000;

/// The most moments of a heap.
const MOST_MOMENTS: u32 = 8_000;

/// The most lines of regions, and the most words that are looked at, over all moments.
const MOST_LINES: u32 = 1 << 18;

const MOST_WORDS: u32 = 1 << 28;

/// A moment of a run.
#[derive(Clone, Copy, Debug, PartialEq, Eq)]
pub struct Moment {
    /// How many events are done.
    pub event: u64,
    /// How many words pauses have copied by then.
    pub copied: u64,
    /// The heap's numbers then.
    pub numbers: Numbers,
}

/// The life of a heap.
pub struct Life {
    /// The events with the replies that the heap gave.
    pub history: Record,
    /// Which moments are shown.
    pub pace: Pace,
    /// The moments, in their order.
    pub moments: Vec<Moment>,
    /// The moments as lines, which `docs/DRAWING.md` describes.
    pub told: Vec<u8>,
}

/// Its drop is one call, and not one for each of its parts.
impl Drop for Life {
    fn drop(self) {
        let Life {
            history: _,
            pace: _,
            moments: _,
            told: _,
        } = self;
    }
}

/// About how many moments a heap has at most.
fn most_moments(config: &Config) -> u64
    ensures { result ≡ most_moments config.now }
{
    let by_lines = MOST_LINES / config.regions.max(1);
    let words = u64::from(config.regions) * u64::from(config.words);
    let by_words = u64::from(MOST_WORDS) / words.max(1);
    by_words.min(u64::from(by_lines.min(MOST_MOMENTS))).max(64)
}

/// Whether a heap of these sizes has its tiles told.
fn tells_tiles(config: &Config) -> bool
    ensures { result ≡ tells_tiles config.now }
{
    u64::from(config.regions) * u64::from(config.words) <= u64::from(TOLD_WORDS)
}

/// Who takes a step of a script.
fn actor_of(step: &Step) -> Actor
    ensures actor { result ≡ actor_of step.now }
    ensures own { (config : Config) → IsStep config step.now → IsStepOf config result step.now }
{
    match step {
        Step::Mutator(op) => Actor::Mutator(op.mutator),
        Step::Collector(_) => Actor::Collector,
    }
}

/// The steps of a plan as events, before there are replies.
pub fn planned(alloc: Global, plan: &Plan) -> Result<Record, AllocError>
    ensures config { IfOk result (λ r. r.config ≡ plan.now.config) }
    ensures steps { IfOk result (λ r. map step_in r.events ≡ plan.now.steps) }
    ensures actors { IfOk result (λ r. map actor_in r.events ≡ map actor_of plan.now.steps) }
{
    let steps = plan.steps();
    let mut events = Record::with_room(alloc, plan.config(), steps.len())?;
    for step in steps {
        events.push(Event {
            actor: actor_of(step),
            step: *step,
            reply: Reply::Done,
        })?;
    }
    Ok(events)
}

/// The life of a core over the steps of events.
fn life_of(alloc: Global, core: &mut Core, events: &[Event], pace: Pace) -> Result<Life, AllocError>
    requires { AreEvents core.old.config events.now }
    ensures lived { IfOk result (λ l. IsLifeFrom core.old pace events.now core.new l) }
    ensures pace { IfOk result (λ l. l.pace ≡ pace) }
{
    let config = core.config();
    let teller = Teller::new(alloc, config.regions, tells_tiles(&config), TOLD_BYTES)?;
    let course = live_on(alloc, core, events, &pace, teller)?;
    let (history, moments, teller) = course.into_parts();
    let told = teller.into_text()?;
    Ok(Life {
        history,
        pace,
        moments,
        told,
    })
}

/// The life of a new heap over the steps of events, done again in their order; their replies don't matter. A moment is shown each `every`
/// events, and before and after each step of the collector, or fewer where they would be too many, as the life's pace says.
pub fn live(alloc: Global, events: &Record, every: u32) -> Result<Life, RunFault>
    ensures life { IfOk result (IsLifeOf every events.now) }
    ensures suits { OnOk result (Suits events.now.config) }
    ensures fault { IfErr result (IsRunFault events.now.config) }
{
    let config = events.config();
    let mut core = match Core::new(alloc, &config) {
        Ok(core) => core,
        Err(fault) => return Err(run_fault(fault)),
    };
    let pace = pace_of(events.events(), u64::from(every), most_moments(&config));
    match life_of(alloc, &mut core, events.events(), pace) {
        Ok(life) => Ok(life),
        Err(_) => Err(RunFault::NoMemory),
    }
}
