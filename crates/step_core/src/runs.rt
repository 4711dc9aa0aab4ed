//! A list of steps, one after another, in a new heap.

ghost use Rattle.std.specs.Prelude.{◌≡◌, ◌++◌, ◌∷◌, [], List, All, IfOk, IfErr, OnOk, map};
ghost use Rattle.heap_words.specs.Configs.{Suits};
ghost use Rattle.graph_runs.specs.State.{State, first_state};
ghost use Rattle.graph_runs.specs.Run.{IsRun};
ghost use Rattle.heap_steps.specs.Actors.{IsStep, IsStepOf};
ghost use Rattle.heap_words.specs.declared.config.Config.{Config};
ghost use Rattle.heap_steps.specs.declared.step.Event as events;
ghost use Rattle.heap_steps.specs.Faults.{IsRunFault};
ghost use Rattle.step_core.specs.Passages.{RunsTo, RunsFromNew, step_in, actor_in, actor_of};

use crate::heap::Core;
use heap_steps::{Actor, Event, Record, RunFault, Step, run_fault};
use heap_words::config::Config;
use std::alloc::{AllocError, Global};

/// Who takes a step of a script: the mutator itself, or the collector.
fn actor_of(step: &Step) -> Actor
    ensures actor { result ≡ actor_of step.now }
    ensures own { (config : Config) → IsStep config step.now → IsStepOf config result step.now }
{
    match step {
        Step::Mutator(op) => Actor::Mutator(op.mutator),
        Step::Collector(_) => Actor::Collector,
    }
}

impl Core {
    /// Does a step of a script, and answers its event: a mutator's own step, or the collector's. What the events before it were a run of,
    /// they are with it.
    ///
    /// ```rust
    /// let event = core.perform(&new);
    /// assert_eq!(rt; event, Event { actor: Actor::Mutator(0), step: new, reply: Reply::Named(Some(0)) });
    /// ```
    #[inline(always)]
    pub fn perform(&mut self, step: &Step) -> Event
        requires { IsStep self.old.config step.now }
        ensures step { result.step ≡ step.now }
        ensures actor { result.actor ≡ actor_of step.now }
        ensures config { self.new.config ≡ self.old.config }
        ensures runs { (config : Config) (es : List events.Event) → RunsTo config es self.old → RunsTo config (es ++ result ∷ []) self.new }
    {
        let actor = actor_of(step);
        let reply = self.step(*step);
        self.law_whole();
        self.law_remembers();
        Event {
            actor,
            step: *step,
            reply,
        }
    }
}

/// Does the steps in order, in a core.
fn run_on(alloc: Global, core: &mut Core, steps: &[Step]) -> Result<Record, AllocError>
    requires { All (IsStep core.old.config) steps.now }
    ensures config { IfOk result (λ r. r.config ≡ core.old.config) }
    ensures steps { IfOk result (λ r. map step_in r.events ≡ steps.now) }
    ensures actors { IfOk result (λ r. map actor_in r.events ≡ map actor_of steps.now) }
    ensures runs { IfOk result (λ r. (config : Config) → RunsTo config [] core.old → RunsTo config r.events core.new) }
{
    let config = core.config();
    let mut done = Record::with_room(alloc, config, steps.len())?;
    for step in steps {
        let event = core.perform(step);
        done.push(event)?;
    }
    Ok(done)
}

/// Does the steps in order, in a new heap, and answers the record and the core after the last step. The record's events
/// are the steps in their order, each with its actor and its reply; between them stand cores and states, each core
/// standing for its state, with every object that a root reaches whole and once in the heap.
///
/// ```rust
/// let (record, after) = run_to_core(alloc, &config, &[new, begin])?;
/// assert_eq!(rt; record.events().len(), 2);
/// assert!(rt; after.marking());
/// ```
pub fn run_to_core(
    alloc: Global,
    config: &Config,
    steps: &[Step],
) -> Result<(Record, Core), RunFault>
    requires { All (IsStep config.now) steps.now }
    ensures config { IfOk result (λ r. r.0.config ≡ config.now) }
    ensures steps { IfOk result (λ r. map step_in r.0.events ≡ steps.now) }
    ensures actors { IfOk result (λ r. map actor_in r.0.events ≡ map actor_of steps.now) }
    ensures cores { IfOk result (λ r. RunsTo config.now r.0.events r.1) }
    // The replies are those of the graph.
    ensures run { IfOk result (λ r. (last : State) × IsRun (first_state config.now) r.0.events last) }
    ensures suits { OnOk result (Suits config.now) }
    ensures fault { IfErr result (IsRunFault config.now) }
{
    let mut core = match Core::new(alloc, config) {
        Ok(core) => core,
        Err(fault) => return Err(run_fault(fault)),
    };
    let Ok(done) = run_on(alloc, &mut core, steps) else {
        return Err(RunFault::NoMemory);
    };
    Ok((done, core))
}

/// Does the steps in order, in a new heap, and answers the record: that of `run_to_core`. Else the fault is the first of the sizes, or want
/// of memory.
///
/// ```rust
/// let record = run(alloc, &config, &[new])?;
/// assert_eq!(rt; record.events()[0].reply, Reply::Named(Some(0)));
/// ```
pub fn run(alloc: Global, config: &Config, steps: &[Step]) -> Result<Record, RunFault>
    requires { All (IsStep config.now) steps.now }
    ensures config { IfOk result (λ r. r.config ≡ config.now) }
    ensures steps { IfOk result (λ r. map step_in r.events ≡ steps.now) }
    ensures actors { IfOk result (λ r. map actor_in r.events ≡ map actor_of steps.now) }
    ensures cores { IfOk result (λ r. RunsFromNew config.now r.events) }
    // The replies are those of the graph.
    ensures run { IfOk result (λ r. (last : State) × IsRun (first_state config.now) r.events last) }
    ensures suits { OnOk result (Suits config.now) }
    ensures fault { IfErr result (IsRunFault config.now) }
{
    let (done, _core) = match run_to_core(alloc, config, steps) {
        Ok(both) => both,
        Err(fault) => return Err(fault),
    };
    Ok(done)
}
