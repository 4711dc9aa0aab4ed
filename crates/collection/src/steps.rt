//! The steps that a policy takes, one by one, and who watches them.

ghost use Rattle.std.specs.Prelude.{◌≡◌, ◌≤◌, ℕ, ⊤};
ghost use Rattle.regions.specs.Table.{free_count};
ghost use Rattle.regions.specs.Shaped.{IsShaped};
ghost use Rattle.graph_runs.specs.State.{State};
ghost use Rattle.heap_steps.specs.Actors.{HasCollection, IsOp};
ghost use Rattle.heap_steps.specs.declared.step.Event.{Event};
ghost use Rattle.heap_steps.specs.declared.step.Step.TheVariants as steps;
ghost use Rattle.step_core.specs.Stands.{Stands, IsCore};
ghost use Rattle.step_core.specs.Answers.{Follows, IsWithin};
ghost use Rattle.step_core.specs.Cycle.{Collects};
ghost use Rattle.step_core.specs.Making.{HasMade};
ghost use Rattle.step_core.specs.Mutators.{ActsOn};
ghost use Rattle.collection.specs.Steps.{CollectsWithin, CollectsSome, TakesOwn};

use crate::numbers::Policy;
use heap_steps::{Actor, CollectorStep, Event, Op, Reply, Step};
use step_core::Core;

/// What is shown each step that a policy takes, as soon as it is taken.
pub trait Watch {
    /// What the event of a step does to it.
    ghost sees: { Self → Event → Self → Type 0 };

    fn took(&mut self, event: &Event)
        ensures { sees self.old event.now self.new };
}

/// Nobody watches.
#[derive(Drop)]
pub struct Unwatched;

impl Watch for Unwatched {
    ghost sees = { λ x e y. ⊤ };

    #[inline(always)]
    fn took(&mut self, _event: &Event) {}
}

/// Takes a step of the collector, which the policy counts, and shows it to the watch.
pub(crate) fn take<W: Watch>(
    core: &mut Core,
    policy: &mut Policy,
    step: CollectorStep,
    watch: &mut W,
) -> Reply
    requires known { HasCollection core.old.config.format step }
    ensures collects { CollectsWithin W.sees 1 core.old watch.old core.new watch.new }
    ensures some { CollectsSome W.sees 1 core.old watch.old core.new watch.new }
    ensures does { Collects step result core.old core.new }
    ensures follows { (s : State) → Stands s core.old → Follows s (steps.Collector step) result core.new }
    ensures config { core.new.config ≡ core.old.config }
    ensures before { IsCore core.old }
    ensures shaped_before { IsShaped core.old.table }
    ensures after { IsCore core.new }
    ensures shaped { IsShaped core.new.table }
{
    core.law_remembers();
    core.law_shaped();
    let taken = Step::Collector(step);
    let reply = core.step(taken);
    core.law_remembers();
    core.law_shaped();
    core.law_whole();
    let event = Event {
        actor: Actor::Collector,
        step: taken,
        reply,
    };
    watch.took(&event);
    policy.count(step, reply);
    reply
}

/// Takes a mutator's step, and shows it to the watch.
#[inline(always)]
pub(crate) fn take_own<W: Watch>(core: &mut Core, op: Op, watch: &mut W) -> Reply
    requires { IsOp core.old.config op }
    ensures own { TakesOwn W.sees op result core.old watch.old core.new watch.new }
    ensures does { ActsOn op.mutator op.action result core.old core.new }
    ensures within { IsWithin core.old.config op.action result }
    ensures made { HasMade op.mutator op.action result core.new }
    ensures config { core.new.config ≡ core.old.config }
    ensures core { IsCore core.new }
{
    let taken = Step::Mutator(op);
    let reply = core.step(taken);
    core.law_remembers();
    core.law_whole();
    let own = Event {
        actor: Actor::Mutator(op.mutator),
        step: taken,
        reply,
    };
    watch.took(&own);
    reply
}
