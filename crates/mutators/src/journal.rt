//! The heap with the scripts of its actors, and the events so far.

ghost use Rattle.std.specs.Prelude.{◌≡◌, ◌+◌, ◌<◌, ◌≤◌, ◌↔◌, ◌++◌, ◌∷◌};
ghost use Rattle.std.specs.Prelude.{false, Some, ℕ, [], length, IsTrue, IsFalse, IfOk, IfErr, OnErr, MatchResult, OnOk, vec_len};
ghost use Rattle.std.specs.Prelude.{vec_capacity, map, slice_index, slice_index_or, slice_set, replicate};
ghost use Rattle.heap_words.specs.Configs.{Suits, IsNewFault};
ghost use Rattle.heap_words.specs.declared.config.Config.{Config};
ghost use Rattle.step_core.specs.Cycle.{Does};
ghost use Rattle.heap_steps.specs.Actors.{IsStep, AreSteps};
ghost use Rattle.step_core.specs.Passages.{actor_of, RunsTo};
ghost use Rattle.mutators.specs.Scripts.{scripted, lines_of, is_scripted};
ghost use Rattle.mutators.specs.Journals.{event_of};

use heap_steps::{Actor, CollectorStep, Event, Plan, Record, Reply, Step};
use heap_words::config::{Config, NewFault};
use std::alloc::{AllocError, Global};
use std::marker::Model;
use step_core::Core;

/// What an actor's turn came to.
#[derive(Clone, Copy, Debug, PartialEq, Eq)]
pub enum Turn {
    /// A step was done, and is an event.
    Done,
    /// A background actor has nothing to do now.
    Idle,
    /// The actor's script is at its end.
    End,
}

/// A heap, the script of each of its mutators and of the collector, how many lines of each are done, and the events.
pub struct Journal {
    core: Core,
    scripts: Vec<Vec<Step>>,
    places: Vec<usize>,
    events: Vec<Event>,
}

impl Model for Journal {
    ghost use Rattle.std.specs.Prelude.{map};
    ghost use Rattle.mutators.specs.Journals.{JournalState, Keeps};

    ghost Value = { JournalState };

    ghost view = { λ j. record {
      core = j.core;
      scripts = map (λ s. s.items) j.scripts.items;
      places = j.places.items;
      events = j.events.items;
    } };

    ghost invariant = { λ j. Keeps (record {
      core = j.core;
      scripts = map (λ s. s.items) j.scripts.items;
      places = j.places.items;
      events = j.events.items;
    }) };
}

/// A journal's drop is one call, and not one for each of its parts.
impl Drop for Journal {
    fn drop(self) {
        let Journal {
            core: _,
            scripts: _,
            places: _,
            events: _,
        } = self;
    }
}

/// The place of a step's actor among the scripted ones: mutators by number, then the collector.
fn place_of(config: &Config, step: Step) -> usize
    requires { IsStep config.now step }
    ensures within { result ≤ config.now.mutators }
    ensures is { scripted config.now.mutators result ≡ actor_of step }
{
    match step {
        Step::Mutator(op) => op.mutator as usize,
        Step::Collector(_) => config.mutators as usize,
    }
}

/// How many lines each script is to have.
fn rooms_of(alloc: Global, config: &Config, steps: &[Step]) -> Result<Vec<usize>, AllocError>
    requires { AreSteps config.now steps.now }
    ensures len { IfOk result (λ v. length v.items ≡ config.now.mutators + 1) }
    ensures each { IfOk result (λ v. (k : ℕ) → k ≤ config.now.mutators
        → slice_index v.items k ≡ length (lines_of (scripted config.now.mutators k) steps.now)) }
{
    // No room is larger than this, so no count wraps.
    let _most = steps.len();
    let mut rooms = first_places(alloc, config.mutators as usize + 1)?;
    for step in steps {
        let place = place_of(config, *step);
        rooms[place] = rooms[place] + 1;
    }
    Ok(rooms)
}

/// Scripts of no lines, each with its room.
fn no_lines(alloc: Global, rooms: &[usize]) -> Result<Vec<Vec<Step>>, AllocError>
    ensures none { IfOk result (λ v. map (λ s. s.items) v.items ≡ replicate (length rooms.now) []) }
    ensures rooms { IfOk result (λ v. map (λ s. vec_capacity s) v.items ≡ rooms.now) }
{
    let mut scripts = Vec::new(alloc);
    for room in rooms {
        scripts.push(Vec::with_capacity(alloc, *room)?)?;
    }
    Ok(scripts)
}

/// Adds a line to the script at a place, which has room for it.
#[inline(always)]
fn add_line(scripts: &mut Vec<Vec<Step>>, place: usize, step: Step)
    requires place { place < length scripts.old.items }
    requires room { length (slice_index_or (map (λ s. s.items) scripts.old.items) place [])
        < slice_index (map (λ s. vec_capacity s) scripts.old.items) place }
    ensures lines { map (λ s. s.items) scripts.new.items
        ≡ slice_set (map (λ s. s.items) scripts.old.items) place
        (slice_index_or (map (λ s. s.items) scripts.old.items) place [] ++ step ∷ []) }
    ensures rooms { map (λ s. vec_capacity s) scripts.new.items ≡ map (λ s. vec_capacity s) scripts.old.items }
{
    scripts[place].push_reserved(step);
}

/// The script of each mutator, and then the collector's.
fn scripts_of(alloc: Global, config: &Config, steps: &[Step]) -> Result<Vec<Vec<Step>>, AllocError>
    requires few { config.now.mutators ≤ 64 }
    requires steps { AreSteps config.now steps.now }
    ensures len { IfOk result (λ v. length v.items ≡ config.now.mutators + 1) }
    ensures each { IfOk result (λ v. (k : ℕ) → k ≤ config.now.mutators
        → slice_index_or (map (λ s. s.items) v.items) k [] ≡ lines_of (scripted config.now.mutators k) steps.now) }
{
    let rooms = rooms_of(alloc, config, steps)?;
    let mut scripts = no_lines(alloc, &rooms)?;
    for step in steps {
        add_line(&mut scripts, place_of(config, *step), *step);
    }
    Ok(scripts)
}

/// Each script at its beginning.
fn first_places(alloc: Global, count: usize) -> Result<Vec<usize>, AllocError>
    ensures { IfOk result (λ v. v.items ≡ replicate count 0) }
{
    vec![in alloc; 0; count]
}

/// What a journal has beside its heap.
#[derive(Drop)]
struct Rows {
    scripts: Vec<Vec<Step>>,
    places: Vec<usize>,
    events: Vec<Event>,
}

/// The scripts of a plan's steps, each at its beginning, and no events, with room for one of each step.
fn rows_of(alloc: Global, config: &Config, steps: &[Step]) -> Result<Rows, AllocError>
    requires few { config.now.mutators ≤ 64 }
    requires steps { AreSteps config.now steps.now }
    ensures len { IfOk result (λ r. length r.scripts.items ≡ config.now.mutators + 1) }
    ensures each { IfOk result (λ r. (k : ℕ) → k ≤ config.now.mutators
        → slice_index_or (map (λ s. s.items) r.scripts.items) k [] ≡ lines_of (scripted config.now.mutators k) steps.now) }
    ensures places { IfOk result (λ r. r.places.items ≡ replicate (config.now.mutators + 1) 0) }
    ensures events { IfOk result (λ r. r.events.items ≡ []) }
{
    Ok(Rows {
        scripts: scripts_of(alloc, config, steps)?,
        places: first_places(alloc, config.mutators as usize + 1)?,
        events: Vec::with_capacity(alloc, steps.len())?,
    })
}

/// Adds an event, for which there is room.
#[inline(always)]
fn note(events: &mut Vec<Event>, actor: Actor, step: &Step, reply: Reply)
    requires { vec_len events.old < vec_capacity events.old }
    ensures { events.new.items ≡ events.old.items ++ event_of actor step.now reply ∷ [] }
{
    events.push_reserved(Event {
        actor,
        step: *step,
        reply,
    });
}

/// Does a step and notes it as an event, for which room is made before. Refused for memory, nothing has changed.
#[inline(always)]
fn record(
    core: &mut Core,
    events: &mut Vec<Event>,
    actor: Actor,
    step: &Step,
) -> Result<Reply, AllocError>
    requires { IsStep core.old.config step.now }
    ensures config { core.new.config ≡ core.old.config }
    ensures does { IfOk result (λ r. Does step.now r core.old core.new) }
    ensures events { IfOk result (λ r. events.new.items ≡ events.old.items ++ event_of actor step.now r ∷ []) }
    ensures runs { IfOk result (λ r. (config : Config) → RunsTo config events.old.items core.old
        → RunsTo config (events.old.items ++ event_of actor step.now r ∷ []) core.new) }
    ensures same_core { OnErr result (core.new ≡ core.old) }
    ensures same_events { OnErr result (events.new.items ≡ events.old.items) }
{
    events.reserve(1)?;
    let reply = core.step(*step);
    core.law_whole();
    core.law_remembers();
    note(events, actor, step, reply);
    Ok(reply)
}

/// Whether each script is at its end.
fn are_ended(scripts: &[Vec<Step>], places: &[usize]) -> bool
    requires { length scripts.now ≤ length places.now }
    ensures { IsTrue result ↔ ((k : ℕ) → k < length scripts.now
        → length (slice_index_or (map (λ s. s.items) scripts.now) k []) ≤ slice_index places.now k) }
{
    for k in 0..scripts.len() {
        if places[k] < scripts[k].len() {
            return false;
        }
    }
    true
}

impl Journal {
    ghost use Rattle.mutators.specs.Journals.{Keeps, mutators_of, script_at};
    ghost use Rattle.mutators.specs.Turns.{TurnIs, SamePlan, IsCast, next_step};

    /// A new heap of the plan, each script at its beginning, and no events.
    ///
    /// ```rust
    /// let journal = Journal::new(alloc, &plan)?;
    /// assert!(rt; !journal.is_ended());
    /// ```
    pub fn new(alloc: Global, plan: &Plan) -> Result<Journal, NewFault>
        ensures config { IfOk result (λ j. j.core.config ≡ plan.now.config) }
        ensures scripts { IfOk result (λ j. (k : ℕ) → k ≤ plan.now.config.mutators
            → script_at j k ≡ lines_of (scripted plan.now.config.mutators k) plan.now.steps) }
        ensures events { IfOk result (λ j. j.events ≡ []) }
        ensures places { IfOk result (λ j. (k : ℕ) → slice_index j.places k ≡ 0) }
        ensures keeps { IfOk result (λ j. Keeps j) }
        ensures suits { IfOk result (λ j. Suits plan.now.config) }
        ensures fault { IfErr result (IsNewFault plan.now.config) }
    {
        let config = plan.config();
        let core = match Core::new(alloc, &config) {
            Ok(core) => core,
            Err(fault) => return Err(fault),
        };
        let Ok(rows) = rows_of(alloc, &config, plan.steps()) else {
            return Err(NewFault::NoMemory);
        };
        let Rows {
            scripts,
            places,
            events,
        } = rows;
        Ok(Journal {
            core,
            scripts,
            places,
            events,
        })
    }

    /// The heap's sizes.
    ///
    /// ```rust
    /// let journal = Journal::new(alloc, &plan)?;
    /// assert_eq!(rt; journal.config(), config);
    /// ```
    pub fn config(&self) -> Config
        ensures value { result ≡ self.now.core.config }
        ensures keeps { Keeps self.now }
    {
        self.core.config()
    }

    /// How many mutators there are.
    #[inline(always)]
    pub(crate) fn mutators(&self) -> usize
        ensures value { result ≡ mutators_of self.now }
        ensures few { result ≤ 64 }
        ensures keeps { Keeps self.now }
    {
        self.places.len() - 1
    }

    /// How many events there are.
    ///
    /// ```rust
    /// let journal = Journal::new(alloc, &plan)?;
    /// assert_eq!(rt; journal.len(), 0);
    /// ```
    pub fn len(&self) -> usize
        ensures { result ≡ length self.now.events }
    {
        self.events.len()
    }

    /// One turn of an actor. A mutator or the collector does the next line of its script. A marker does `mark 4` while marking
    /// runs, a refiner `refine 2` while cards are queued. Refused for memory, the whole journal is as it was.
    ///
    /// ```rust
    /// let mut journal = Journal::new(alloc, &plan)?;
    /// assert_eq!(rt; journal.turn(Actor::Marker(0))?, Turn::Idle); // marking doesn't run
    /// assert_eq!(rt; journal.turn(Actor::Collector)?, Turn::Done);
    /// assert_eq!(rt; journal.turn(Actor::Marker(0))?, Turn::Done);
    /// assert_eq!(rt; journal.turn(Actor::Collector)?, Turn::End);
    /// ```
    #[inline(always)]
    pub fn turn(&mut self, actor: Actor) -> Result<Turn, AllocError>
        requires { IsCast (mutators_of self.old) actor }
        ensures plan { SamePlan self.old self.new }
        ensures turn { MatchResult result (λ t. TurnIs t self.old self.new actor) (λ _. self.new ≡ self.old) }
    {
        match actor {
            Actor::Mutator(i) => self.scripted_turn(actor, i as usize),
            Actor::Collector => self.scripted_turn(actor, self.mutators()),
            Actor::Marker(_) => {
                if !self.core.marking() {
                    return Ok(Turn::Idle);
                }
                self.background_turn(actor, Step::Collector(CollectorStep::Mark(4)))
            }
            Actor::Refiner(_) => {
                if self.core.queued() == 0 {
                    return Ok(Turn::Idle);
                }
                self.background_turn(actor, Step::Collector(CollectorStep::Refine(2)))
            }
        }
    }

    /// Does the next line of the script at a place, by a call.
    fn scripted_turn(&mut self, actor: Actor, k: usize) -> Result<Turn, AllocError>
        requires seat { k ≤ mutators_of self.old }
        requires actor { actor ≡ scripted (mutators_of self.old) k }
        ensures plan { SamePlan self.old self.new }
        ensures turn { MatchResult result (λ t. TurnIs t self.old self.new actor) (λ _. self.new ≡ self.old) }
    {
        self.turn_at(actor, k)
    }

    /// Does the next line of the script at a place, within its caller.
    #[inline(always)]
    pub(crate) fn turn_at(&mut self, actor: Actor, k: usize) -> Result<Turn, AllocError>
        requires seat { k ≤ mutators_of self.old }
        requires actor { actor ≡ scripted (mutators_of self.old) k }
        ensures plan { SamePlan self.old self.new }
        ensures turn { MatchResult result (λ t. TurnIs t self.old self.new actor) (λ _. self.new ≡ self.old) }
    {
        let place = self.places[k];
        let script = &self.scripts[k];
        if place >= script.len() {
            return Ok(Turn::End);
        }
        let step = &script[place];
        record(&mut self.core, &mut self.events, actor, step)?;
        self.places[k] = place + 1;
        Ok(Turn::Done)
    }

    /// Does a step that no script has.
    fn background_turn(&mut self, actor: Actor, step: Step) -> Result<Turn, AllocError>
        requires cast { IsCast (mutators_of self.old) actor }
        requires actor { is_scripted actor ≡ false }
        requires next { next_step self.old actor ≡ Some step }
        ensures plan { SamePlan self.old self.new }
        ensures turn { MatchResult result (λ t. TurnIs t self.old self.new actor) (λ _. self.new ≡ self.old) }
    {
        record(&mut self.core, &mut self.events, actor, &step)?;
        Ok(Turn::Done)
    }

    /// Whether each script is at its end.
    ///
    /// ```rust
    /// let mut journal = Journal::new(alloc, &plan)?;
    /// journal.turn(Actor::Mutator(0))?;
    /// journal.turn(Actor::Collector)?;
    /// assert!(rt; journal.is_ended());
    /// ```
    pub fn is_ended(&self) -> bool
        ensures { IsTrue result ↔ ((k : ℕ) → k ≤ mutators_of self.now → length (script_at self.now k) ≤ slice_index self.now.places k) }
    {
        are_ended(&self.scripts, &self.places)
    }

    /// Whether the scripted actor at a place has lines left.
    ///
    /// ```rust
    /// let mut journal = Journal::new(alloc, &plan)?;
    /// journal.turn(Actor::Mutator(0))?;
    /// assert!(rt; !journal.is_left(0));
    /// assert!(rt; journal.is_left(1)); // the collector's, after the mutators'
    /// ```
    pub fn is_left(&self, k: usize) -> bool
        requires { k ≤ mutators_of self.now }
        ensures left { IsTrue result → slice_index self.now.places k < length (script_at self.now k) }
        ensures over { IsFalse result → length (script_at self.now k) ≤ slice_index self.now.places k }
    {
        self.places[k] < self.scripts[k].len()
    }

    /// The record of the events. It takes no memory.
    ///
    /// ```rust
    /// let mut journal = Journal::new(alloc, &plan)?;
    /// journal.turn(Actor::Mutator(0))?;
    /// assert_eq!(rt; journal.into_record().events().len(), 1);
    /// ```
    pub fn into_record(self) -> Record
        ensures config { result.config ≡ self.core.config }
        ensures events { result.events ≡ self.events }
        ensures keeps { Keeps self }
    {
        let Journal {
            core,
            scripts: _,
            places: _,
            events,
        } = self;
        Record::of_events(core.config(), events)
    }
}
