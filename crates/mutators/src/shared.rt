//! What the workers share: the journal under its lock, and the queue of places.

ghost use Rattle.std.specs.Prelude.{◌≡◌, ℕ, ◌+◌, ◌^◌, ◌<◌, All, ⊤, [], length, IfSome, None};
ghost use Rattle.heap_words.specs.declared.config.Format.TheVariants.{V1};
ghost use Rattle.heap_steps.specs.Actors.{StepList};
ghost use Rattle.mutators.specs.Turns.{IsCast, steps_done};
ghost use Rattle.mutators.specs.Interleavings.{IsAsked, IsOf};

use crate::journal::{Journal, Turn};
use crossbeam_queue::RuledArrayQueue;
use crossbeam_queue::protocol::{Lesson, Outcome, Protocol, Split};
use heap_steps::Actor;
use std::marker::{Brand, PhantomData};
use std::sync::ledger::{Book, Ledger, Share};

/// A run's plan, its counts of background actors, and how many places there are.
pub trait Crew: Ledger {
    ghost plan: { StepList };

    ghost markers: { ℕ };

    ghost refiners: { ℕ };

    ghost places: { ℕ };
}

impl Crew for Brand {
    ghost plan = { record {
      config = record { format = V1; regions = 0; words = 0; buffer = 0; mutators = 0; first_name = 0 };
      steps = [];
    } };

    ghost markers = { 0 };

    ghost refiners = { 0 };

    ghost places = { 0 };
}

/// Each place is below the number of actors.
pub struct Below<C: Crew> {
    of: PhantomData<C>,
}

impl<C: Crew> Protocol<u32, ()> for Below<C> {
    ghost holds = { λ items views. All (λ x. x < C.places) items };

    ghost first = { tt };
}

impl<C: Crew> Outcome<u32, ()> for Below<C> {
    ghost then = { λ v x w. x < C.places };
}

impl<C: Crew> Lesson<u32, ()> for Below<C> {
    ghost fact = { λ v items. ⊤ };
}

impl<C: Crew> Split<()> for Below<C> {
    ghost left = { λ v. v };

    ghost right = { λ v. v };
}

pub type Places<C> = RuledArrayQueue<u32, (), Below<C>>;

/// The journal of a run's plan, whether memory was refused, and the book of the workers' counts, which has the number of events.
#[derive(Drop)]
pub struct Shared<C: Crew> {
    journal: Journal,
    fault: bool,
    done: Book<C>,
    ghost counted: { length journal.events ≡ done.total },
    ghost plan: { IsOf C.plan C.markers C.refiners journal },
}

impl<C: Crew> Shared<C> {
    pub fn new(journal: Journal, done: Book<C>) -> Shared<C>
        requires counted { length journal.events ≡ done.total }
        requires plan { IsOf C.plan C.markers C.refiners journal }
    {
        Shared {
            journal,
            fault: false,
            done,
        }
    }

    /// Whether nothing is left to do.
    pub fn is_over(&self) -> bool {
        self.fault || self.journal.is_ended()
    }

    /// One turn. A done one counts in the share. Where memory is refused that is noted, and the actor is idle.
    pub fn turn(&mut self, actor: Actor, mine: &mut Share<C>) -> Turn
        requires cast { IsCast C.plan.config.mutators actor }
        requires asked { IsAsked C.markers C.refiners actor }
        requires part { 0 < mine.old.parts }
        ensures parts { mine.new.parts ≡ mine.old.parts }
        ensures amount { mine.new.amount ≡ mine.old.amount + steps_done result }
        ensures fits { mine.new.amount < 2 ^ 64 }
    {
        let Shared {
            journal,
            fault,
            done,
        } = self;
        let answer = journal.turn(actor);
        let turn = match answer {
            Ok(Turn::Done) => {
                done.add(mine, 1);
                Turn::Done
            }
            Ok(Turn::Idle) => Turn::Idle,
            Ok(Turn::End) => Turn::End,
            Err(_) => {
                *fault = true;
                Turn::Idle
            }
        };
        done.audit(mine);
        let _events = journal.len();
        turn
    }

    /// One turn, where anything is left to do. A done one counts in the share.
    pub fn next_turn(&mut self, actor: Actor, mine: &mut Share<C>) -> Option<Turn>
        requires cast { IsCast C.plan.config.mutators actor }
        requires asked { IsAsked C.markers C.refiners actor }
        requires part { 0 < mine.old.parts }
        ensures parts { mine.new.parts ≡ mine.old.parts }
        ensures amount { IfSome result (λ turn. mine.new.amount ≡ mine.old.amount + steps_done turn) }
        ensures fits { IfSome result (λ turn. mine.new.amount < 2 ^ 64) }
        ensures over { result ≡ None → mine.new.amount ≡ mine.old.amount }
    {
        if self.is_over() {
            return None;
        }
        Some(self.turn(actor, mine))
    }

    /// Takes it apart. A share with every part has the number of events.
    pub fn close(self, all: &mut Share<C>) -> (Journal, bool)
        requires { all.old.parts ≡ C.parts }
        ensures whole { length result.0.events ≡ all.new.amount }
        ensures same { all.new.amount ≡ all.old.amount }
        ensures plan { IsOf C.plan C.markers C.refiners result.0 }
    {
        let Shared {
            journal,
            fault,
            mut done,
        } = self;
        done.audit(all);
        (journal, fault)
    }
}
