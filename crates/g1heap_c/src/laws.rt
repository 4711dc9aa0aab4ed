//! What calls on a heap, one after another, are.

ghost use Rattle.std.specs.Prelude.{All, List};
ghost use Rattle.heap_words.specs.declared.config.Config.{Config};
ghost use Rattle.heap_steps.specs.declared.step.Event.{Event};
ghost use Rattle.heap_steps.specs.declared.step.Step.{Step};
ghost use Rattle.graph_runs.specs.State.{State};
ghost use Rattle.step_core.specs.Stands.{CoreState};
ghost use Rattle.heap_calls.specs.declared.answer.Answer.{Answer};
ghost use Rattle.g1heap_c.specs.Calls.{Call, Called};
ghost use Rattle.g1heap_c.specs.Runs.{AreRun, HasCode, HasOneAnswer, HasOneEvent, NewHeapRuns};

/// Calls on a new heap are a run of the graph: each answer tells what a graph of objects from which nothing is ever freed or moved replies
/// to its call.
pub fn calls_law()
    ensures { (config : Config) (answer : Answer) (c : CoreState) (calls : List Called) → NewHeapRuns config answer c calls }
{}

/// The events of a call fix its answer, with the heap before and after it.
pub fn answer_law()
    ensures { (c : CoreState) (es : List Event) (call : Call) (after : CoreState) → HasOneAnswer c es call after }
{}

/// The answer of a step fixes its event, whatever the heap: no two replies are told alike.
pub fn event_law()
    ensures { (step : Step) (answer : Answer) → HasOneEvent step answer }
{}

/// Calls with an answer among theirs that has a code of no call are no run.
pub fn code_law()
    ensures { (s : State) (c : CoreState) (calls : List Called) → AreRun s c calls → All HasCode calls }
{}
