//! The graph with its snapshot, which judges events.

ghost use Rattle.std.specs.Prelude.{◌≡◌, ◌++◌, None, reverse, IfOk, OnOk};
ghost use Rattle.heap_model.specs.Graph as model;
ghost use Rattle.heap_model.specs.Weak.{touched, AreReached};
ghost use Rattle.graph_runs.specs.State.{State, HoldsNames, HaveNoPairs, IsSoundState, first_state};
ghost use Rattle.object_graph.specs.Reached.{flag_of};
ghost use Rattle.heap_steps.specs.Roots.{IsOpAt};
ghost use Rattle.graph_runs.specs.Run.{IsCollectorReply, ClearsBy, ForMutator, snapshot_after};
ghost use Rattle.graph_runs.specs.Sparing.{SparingCollects, kept_snapshot};
ghost use Rattle.object_graph.specs.Reasons.{SparingJudges};

use crate::given::{Given, given_by};
use crate::graph::Graph;
use crate::pointer::Pointer;
use heap_steps::{Action, CollectorStep, Event, Op, Refusal, Reply, Step};
use heap_words::config::Config;
use std::alloc::{AllocError, Global};
use std::marker::Model;

/// The graph when marking began, and the names that were touched since then, last first.
struct Snapshot {
    graph: Graph,
    touched: Vec<Pointer>,
}

impl Model for Snapshot {
    ghost Value = { model.Graph };

    ghost view = { λ s. record s.graph { roots = reverse s.touched.items ++ s.graph.roots } };
}

/// Where it is dropped there is one call, and not a drop for each of its parts.
impl Drop for Snapshot {
    fn drop(self) {
        let Snapshot {
            graph: _,
            touched: _,
        } = self;
    }
}

impl Snapshot {
    /// The present graph, with nothing touched.
    fn of(graph: &Graph, alloc: Global) -> Result<Snapshot, AllocError>
        ensures { IfOk result (λ s. s ≡ graph.now) }
    {
        Ok(Snapshot {
            graph: graph.copy()?,
            touched: Vec::new(alloc),
        })
    }

    /// A name that a getweak replied with is touched, if it is one of the snapshot's.
    fn touch(&mut self, name: Option<u64>) -> Result<(), AllocError>
        ensures { OnOk result (self.new ≡ touched self.old name) }
    {
        let Some(name) = name else {
            return Ok(());
        };
        if name < self.graph.next_name() {
            self.touched.push(Pointer::to(name))?;
        }
        Ok(())
    }

    /// A flag for each object: whether it is reachable from a root or a touched name.
    fn reached(&self, alloc: Global) -> Result<Vec<bool>, AllocError>
        requires names { HoldsNames self.now }
        requires pairs { HaveNoPairs self.now }
        ensures { IfOk result (λ flags. AreReached self.now (flag_of self.now.first_name flags.items)) }
    {
        self.graph.search(alloc, self.touched.as_slice())
    }
}

/// The graph, and while a snapshot is kept, that.
pub(crate) struct Machine {
    alloc: Global,
    graph: Graph,
    snapshot: Option<Snapshot>,
}

impl Model for Machine {
    ghost Value = { State };

    ghost view = { λ m. record { graph = m.graph; snapshot = m.snapshot } };
}

/// Where it is dropped there is one call, and not a drop for each of its parts.
impl Drop for Machine {
    fn drop(self) {
        let Machine {
            alloc: _,
            graph: _,
            snapshot: _,
        } = self;
    }
}

impl Machine {
    /// The state of a new heap.
    pub(crate) fn new(alloc: Global, config: &Config) -> Result<Machine, AllocError>
        ensures { IfOk result (λ m. m ≡ first_state config.now) }
    {
        Ok(Machine {
            alloc,
            graph: Graph::new(alloc, config)?,
            snapshot: None,
        })
    }

    /// Takes the snapshot, where some object has a weak slot. Else nothing is to be cleared by it.
    fn begin(&mut self) -> Result<(), AllocError>
        ensures { OnOk result (self.new ≡ record { graph = self.old.graph; snapshot = kept_snapshot self.old.graph }) }
    {
        if self.graph.has_weaks() {
            let snapshot = Snapshot::of(&self.graph, self.alloc)?;
            self.snapshot = Some(snapshot);
        } else {
            self.snapshot = None;
        }
        Ok(())
    }

    /// Clears weak slots by the snapshot, and gives it up.
    fn remark(&mut self) -> Result<(), AllocError>
        requires { IsSoundState self.old }
        ensures cleared { OnOk result (ClearsBy self.old.snapshot self.old.graph self.new.graph) }
        ensures given_up { OnOk result (self.new.snapshot ≡ None) }
    {
        let Some(snapshot) = self.snapshot.take() else {
            return Ok(());
        };
        let flags = snapshot.reached(self.alloc)?;
        let limit = snapshot.graph.next_name();
        self.graph.clear(limit, flags.as_slice());
        Ok(())
    }

    /// What a mutator's step does to the snapshot.
    fn touch(&mut self, action: Action, reply: Reply) -> Result<(), AllocError>
        ensures { OnOk result (self.new ≡ record self.old { snapshot = snapshot_after self.old.snapshot action reply }) }
    {
        let Action::GetWeak { .. } = action else {
            return Ok(());
        };
        let Reply::Named(name) = reply else {
            return Ok(());
        };
        let Some(snapshot) = &mut self.snapshot else {
            return Ok(());
        };
        snapshot.touch(name)
    }

    fn collect(&mut self, step: CollectorStep, reply: Reply) -> Result<(), AllocError>
        requires sound { IsSoundState self.old }
        requires reply { IsCollectorReply step reply }
        ensures { OnOk result (SparingCollects self.old step reply self.new) }
    {
        match step {
            CollectorStep::Begin => {
                if reply == Reply::Done {
                    self.begin()?;
                }
                Ok(())
            }
            CollectorStep::Remark => {
                if let Reply::Marked(_) = reply {
                    self.remark()?;
                }
                Ok(())
            }
            _ => Ok(()),
        }
    }

    /// Judges an event: if it may happen, the state is the judge's after it, else it answers what the graph gives in its place. Once an
    /// event may not happen or memory was refused, the state is no longer that of the events.
    pub(crate) fn judge_event(&mut self, event: &Event) -> Result<Option<Given>, AllocError>
        requires op { ForMutator event.now.step (IsOpAt self.old.graph.places) }
        requires sound { IsSoundState self.old }
        ensures { IfOk result (SparingJudges self.old event.now.step event.now.reply self.new) }
    {
        match event.step {
            Step::Collector(step) => {
                if !step.verb().replies().has(event.reply) {
                    return Ok(Some(Given::Form(step)));
                }
                self.collect(step, event.reply)?;
                Ok(None)
            }
            Step::Mutator(op) => self.serve(op, event.reply),
        }
    }

    /// The same of a mutator's step.
    fn serve(&mut self, op: Op, reply: Reply) -> Result<Option<Given>, AllocError>
        requires { IsOpAt self.old.graph.places op }
        ensures { IfOk result (SparingJudges self.old (Step.Mutator op) reply self.new) }
    {
        if reply == Reply::Refused(Refusal::Full) && self.graph.creates(op) {
            return Ok(None);
        }
        let given = self.graph.apply(op)?;
        if given == reply {
            self.touch(op.action, reply)?;
            return Ok(None);
        }
        Ok(Some(given_by(op.action, given)))
    }
}
