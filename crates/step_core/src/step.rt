//! A step: a mutator's, or the collector's.

ghost use Rattle.std.specs.Prelude.{◌≡◌, ◌↔◌, ℕ};
ghost use Rattle.heap_steps.specs.Actors.{IsStep};
ghost use Rattle.heap_steps.specs.declared.step.Step.TheVariants as steps;
ghost use Rattle.heap_steps.specs.declared.step.Reply.TheVariants as replies;
ghost use Rattle.heap_steps.specs.declared.step.Refusal.TheVariants as refusals;
ghost use Rattle.graph_runs.specs.State.{State};
ghost use Rattle.step_core.specs.Stands.{Stands};
ghost use Rattle.step_core.specs.Answers.{Follows, IsFullStep, IsWithinStep};
ghost use Rattle.step_core.specs.Reclaimed.{IsReclaimed};
ghost use Rattle.step_core.specs.Cycle.{Does, MayReclaim};
ghost use Rattle.step_core.specs.Making.{HasMadeStep};
ghost use Rattle.step_core.specs.Words.{Takes};

use crate::heap::Core;
use heap_steps::{CollectorStep, Refusal, Reply, Step};

impl Core {
    /// Does a step of the collector, or refuses it.
    fn collect(&mut self, step: CollectorStep) -> Reply
        ensures { Takes self.old (steps.Collector step) result self.new }
    {
        match step {
            CollectorStep::Begin => {
                if self.marker.running {
                    return Reply::Refused(Refusal::MarkRunning);
                }
                self.settle();
                self.begin();
                Reply::Done
            }
            CollectorStep::Mark(units) => {
                if !self.marker.running {
                    return Reply::Refused(Refusal::NotMarking);
                }
                self.mark(units);
                Reply::Done
            }
            CollectorStep::Remark => {
                if !self.marker.running {
                    return Reply::Refused(Refusal::NotMarking);
                }
                let marked = self.remark();
                self.clear_by_format();
                Reply::Marked(marked)
            }
            CollectorStep::Cleanup => {
                if self.marker.running {
                    return Reply::Refused(Refusal::MarkRunning);
                }
                self.settle();
                Reply::Reclaimed(self.cleanup())
            }
            CollectorStep::Refine(cards) => Reply::Refined(self.refine(cards)),
            CollectorStep::Pause(budget) => {
                self.settle();
                let moved = self.pause(budget);
                Reply::Moved {
                    regions: moved.regions as u32,
                    words: moved.words,
                }
            }
            CollectorStep::Compact(budget) => {
                self.settle();
                let moved = self.compact(budget);
                Reply::Moved {
                    regions: moved.regions as u32,
                    words: moved.words,
                }
            }
            CollectorStep::Clear(objects) => {
                self.clear(objects);
                Reply::Done
            }
            CollectorStep::PauseWithin(limits) => {
                self.settle();
                let moved = self.pause_within(limits.words, limits.cards);
                Reply::Moved {
                    regions: moved.regions as u32,
                    words: moved.words,
                }
            }
            CollectorStep::Young(limits) => {
                self.settle();
                let moved = self.young(limits.words, limits.cards);
                Reply::Moved {
                    regions: moved.regions as u32,
                    words: moved.words,
                }
            }
        }
    }

    /// The same, taken apart: so the room that its step and its reply take in memory is made ready here, and not before a mutator's steps.
    #[inline(always)]
    fn collect_apart(&mut self, step: CollectorStep) -> Reply
        ensures { Takes self.old (steps.Collector step) result self.new }
    {
        self.collect(step)
    }

    /// Does a step. The reply is one that the graph and its snapshot give, and the core stands for those after it. It is Full exactly
    /// where the graph would create an object and the heap has no place for it; a step of the collector is refused exactly
    /// where marking runs and it mustn't, or doesn't and it must. Regions are reclaimed by a cleanup, those that
    /// hold nothing live, and by a pause or a compaction, those that it evacuates, or that the run leaves which it moves. No step takes
    /// memory.
    ///
    /// ```rust
    /// assert_eq!(rt; core.step(new), Reply::Named(Some(0)));
    /// assert_eq!(rt; core.step(begin), Reply::Done);
    /// assert_eq!(rt; core.step(begin), Reply::Refused(Refusal::MarkRunning));
    /// ```
    #[inline(always)]
    pub fn step(&mut self, step: Step) -> Reply
        requires { IsStep self.old.config step }
        ensures follows { (s : State) → Stands s self.old → Follows s step result self.new }
        ensures does { Does step result self.old self.new }
        ensures reclaims { (k : ℕ) → IsReclaimed self.old.table self.new.table k → MayReclaim step self.old k }
        ensures full { (s : State) → Stands s self.old → (result ≡ replies.Refused refusals.Full) ↔ IsFullStep s.graph step self.old }
        ensures within { IsWithinStep self.old.config step result }
        ensures made { HasMadeStep step result self.new }
        ensures config { self.new.config ≡ self.old.config }
    {
        match step {
            Step::Mutator(op) => self.act(op),
            Step::Collector(step) => self.collect_apart(step),
        }
    }
}
