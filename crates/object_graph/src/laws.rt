//! A law of what the graph gives. The function has an empty body, and its contract is the law.

ghost use Rattle.std.specs.Prelude.{◌≡◌, ◌↔◌};
ghost use Rattle.graph_runs.specs.State.{State, IsSoundState};
ghost use Rattle.graph_runs.specs.Run.{Happens};
ghost use Rattle.object_graph.specs.Reasons.{IsGiven, MayStand};
ghost use Rattle.object_graph.specs.declared.given.Given.{Given};
ghost use Rattle.heap_steps.specs.declared.step.Step.{Step};
ghost use Rattle.heap_steps.specs.declared.step.Reply.{Reply};

/// What the graph gives for a step says which replies may be after it: exactly those with which some state may follow.
pub fn given_law()
    ensures { (old : State) (k : Step) (given : Given) (r : Reply) → IsSoundState old → IsGiven old.graph k given
        → ((new : State) × Happens old k r new) ↔ MayStand given r }
{}
