//! Laws of states and runs. Each function has an empty body, and its contract is a law.

ghost use Rattle.std.specs.Prelude.{◌≡◌, ℕ, List, Some, None, slice_get};
ghost use Rattle.heap_words.specs.declared.config.Config.{Config};
ghost use Rattle.heap_model.specs.Graph as model;
ghost use Rattle.heap_model.specs.Graph.{IsReachable, IsSound};
ghost use Rattle.heap_model.specs.Weak.{KeepsUnreached, Clears};
ghost use Rattle.graph_runs.specs.State.{State, HoldsNames, IsSoundState, first_state};
ghost use Rattle.graph_runs.specs.Since.{IsKnown, IsSinceState};
ghost use Rattle.graph_runs.specs.Run.{Happens, IsRun, BreaksAt};
ghost use Rattle.heap_steps.specs.declared.step.Step.{Step};
ghost use Rattle.heap_steps.specs.declared.step.Reply.{Reply};
ghost use Rattle.heap_steps.specs.declared.step.Event.{Event};

/// No events are both a run and broken at one of them.
pub fn judged_once()
    ensures { (first last : State) (es : List Event) (n : ℕ) → IsRun first es last → BreaksAt first es n → ⊥ }
{}

/// A run leads to one state.
pub fn run_once()
    ensures { (es : List Event) (first a b : State) → IsRun first es a → IsRun first es b → a ≡ b }
{}

/// In the state of a new heap, and after each step, every name that is in the graph or in the snapshot is an object's,
/// and the snapshot's names are the graph's up to some name.
pub fn sound_law()
    ensures begins { (c : Config) → IsSoundState (first_state c) }
    ensures step { (old new : State) (k : Step) (r : Reply) → IsSoundState old → Happens old k r new → IsSoundState new }
    ensures below { (g : model.Graph) → HoldsNames g → IsSound g }
{}

/// Since the snapshot was taken, all that a mutator can come by was reachable in it from a root or a touched name, or is newer; and
/// what is neither has the pointers that it had then.
pub fn since_law()
    ensures begins { (c : Config) → IsSinceState (first_state c) }
    ensures step { (old new : State) (k : Step) (r : Reply) → IsSoundState old → IsSinceState old → Happens old k r new → IsSinceState new }
    ensures reached { (st : State) (s : model.Graph) → IsSinceState st → st.snapshot ≡ Some s → (n : ℕ) → IsReachable st.graph n
        → IsKnown s n }
    ensures unreached { (st : State) (s : model.Graph) → IsSoundState st → IsSinceState st → st.snapshot ≡ Some s
        → KeepsUnreached s st.graph }
{}

/// No name whose weak slots become nil at the end of marking is reachable then.
pub fn cleared_law()
    ensures { (st : State) (s after : model.Graph) → IsSinceState st → st.snapshot ≡ Some s → Clears s st.graph after
        → (k i n : ℕ) (x y : model.Object) → slice_get st.graph.objects k ≡ Some x → slice_get after.objects k ≡ Some y
        → slice_get x.weaks i ≡ Some (Some n) → slice_get y.weaks i ≡ Some None → IsReachable after n → ⊥ }
{}

/// Every state of a run is sound, and so since its snapshot was taken.
pub fn run_is_sound()
    ensures sound { (c : Config) (es : List Event) (last : State) → IsRun (first_state c) es last → IsSoundState last }
    ensures since { (c : Config) (es : List Event) (last : State) → IsRun (first_state c) es last → IsSinceState last }
{}
