//! What the graph gives for a step.

ghost use Rattle.std.specs.Prelude.{◌≡◌, ◌↔◌, ℕ, IsTrue};
ghost use Rattle.heap_model.specs.Graph as model;
ghost use Rattle.graph_runs.specs.Machine.{act};
ghost use Rattle.graph_runs.specs.Run.{IsNew};
ghost use Rattle.object_graph.specs.Reasons.{IsGiven};
ghost use Rattle.heap_steps.specs.declared.step.Step.{Step};

use heap_steps::{Action, CollectorStep, Reply};

/// What may be after a step, at its place.
#[derive(Clone, Copy, Debug, PartialEq, Eq)]
pub enum Given {
    /// The graph's reply to a mutator's step, and nothing else.
    Reply(Reply),
    /// The name of the object that the step makes, or that the heap is full.
    Object(u64),
    /// Any reply of those that this step of the collector may have.
    Form(CollectorStep),
}

/// Whether an action asks for an object.
fn is_new(action: Action) -> bool
    ensures { IsTrue result ↔ IsNew action }
{
    matches!(action, Action::New { .. } | Action::NewWeak { .. })
}

/// What the graph gives for an action to which it replies so.
pub(crate) fn given_by(action: Action, reply: Reply) -> Given
    ensures { (g : model.Graph) (m : ℕ) → reply ≡ (act g m action).0
        → IsGiven g (Step.Mutator (record { mutator = m; action = action })) result }
{
    let Reply::Named(name) = reply else {
        return Given::Reply(reply);
    };
    let Some(name) = name else {
        return Given::Reply(reply);
    };
    if is_new(action) {
        Given::Object(name)
    } else {
        Given::Reply(reply)
    }
}
