//! A law of runs. The function has an empty body, and its contract is the law.

ghost use Rattle.std.specs.Prelude.{List};
ghost use Rattle.heap_words.specs.declared.config.Config.{Config};
ghost use Rattle.heap_steps.specs.declared.step.Event.{Event};
ghost use Rattle.graph_runs.specs.State.{State, first_state};
ghost use Rattle.graph_runs.specs.Run.{IsRun};
ghost use Rattle.step_core.specs.Stands.{CoreState, Stands};
ghost use Rattle.step_core.specs.Passages.{IsPassage, RunsTo};

/// What takes cores from one to another is a run of the graph, between the states that they stand for. So what a new heap came to is a run
/// from the first state, to one that its core stands for.
pub fn passage_law()
    ensures passage { (s : State) (c : CoreState) (es : List Event) (last : State) (c' : CoreState) → IsPassage s c es last c'
        → IsRun s es last }
    ensures new_heap { (config : Config) (es : List Event) (c : CoreState) → RunsTo config es c
        → (last : State) × (IsRun (first_state config) es last × Stands last c) }
{}
