//! The judge of records, which knows names and the heap line alone.

ghost use Rattle.std.specs.Prelude.{◌≡◌, List, [], IfOk};
ghost use Rattle.graph_runs.specs.State.{first_state};
ghost use Rattle.heap_steps.specs.Actors.{IsEvent};
ghost use Rattle.object_graph.specs.Judged.{Judged};
ghost use Rattle.object_graph.specs.Reasons.{Finds};
ghost use Rattle.heap_steps.specs.declared.step.Event as events;

use crate::given::Given;
use crate::machine::Machine;
use heap_steps::{Event, Record};
use heap_words::config::Config;
use std::alloc::{AllocError, Global};
use std::marker::Model;

/// What the judge says of a record.
#[derive(Clone, Copy, Debug, PartialEq, Eq)]
pub enum Verdict {
    /// So many events, which may happen one after another.
    Yes(u64),
    /// The first event that may not happen, counted from 1.
    No(u64),
}

/// What the judge finds in a record.
#[derive(Clone, Copy, Debug, PartialEq, Eq)]
pub enum Finding {
    /// So many events, which may happen one after another.
    Allowed(u64),
    /// The first event that may not happen, its number, counted from 1, and what the graph gives in its place.
    Refused {
        number: u64,
        event: Event,
        given: Given,
    },
}

impl Finding {
    ghost use Rattle.object_graph.specs.Reasons.{verdict_of};

    /// The finding without its reason.
    ///
    /// ```rust
    /// assert_eq!(rt; Finding::Allowed(3).verdict(), Verdict::Yes(3));
    /// ```
    pub fn verdict(self) -> Verdict
        ensures { result ≡ verdict_of self }
    {
        match self {
            Finding::Allowed(events) => Verdict::Yes(events),
            Finding::Refused { number, .. } => Verdict::No(number),
        }
    }
}

/// A judge of one event after another, as a record is written. What it holds grows with the graph, and not with the events.
///
/// ```text
///   Judge::new(config)   no event is judged yet
///   judge_event(event)   None: the event may follow those before it
///                        Some(given): it may not; in its place the graph gives this. Then the judge is of no more use
/// ```
pub struct Judge {
    config: Config,
    machine: Machine,
}

impl Model for Judge {
    ghost use Rattle.object_graph.specs.Reasons.{Judging};

    ghost Value = { Judging };

    ghost view = { λ j. record { config = j.config; state = j.machine } };
}

/// Where it is dropped there is one call, and not a drop for each of its parts.
impl Drop for Judge {
    fn drop(self) {
        let Judge {
            config: _,
            machine: _,
        } = self;
    }
}

impl Judge {
    ghost use Rattle.object_graph.specs.Reasons.{HasJudged, JudgesNext};

    /// A judge of a new heap of these sizes, which has judged no event yet.
    ///
    /// ```rust
    /// let mut judge = Judge::new(alloc, &config)?;
    /// assert!(rt; judge.judge_event(&event)?.is_none());
    /// ```
    pub fn new(alloc: Global, config: &Config) -> Result<Judge, AllocError>
        ensures config { IfOk result (λ j. j.config ≡ config.now) }
        ensures judged { IfOk result (λ j. HasJudged j []) }
    {
        Ok(Judge {
            config: *config,
            machine: Machine::new(alloc, config)?,
        })
    }

    /// Judges the next event: it answers none if the event may follow, else what the graph gives in its place. After that, or where
    /// memory is refused, the judge's state is no longer that of the events, and it can judge no more.
    ///
    /// ```rust
    /// let mut judge = Judge::new(alloc, &config)?;
    /// assert_eq!(rt; judge.judge_event(&event)?, None);
    /// assert_eq!(rt; judge.judge_event(&event)?, Some(Given::Object(1))); // the second object's name is 1
    /// ```
    pub fn judge_event(&mut self, event: &Event) -> Result<Option<Given>, AllocError>
        requires known { IsEvent self.old.config event.now }
        requires judged { (es : List events.Event) × HasJudged self.old es }
        ensures config { self.new.config ≡ self.old.config }
        ensures told { IfOk result (λ told. (es : List events.Event) → HasJudged self.old es
            → JudgesNext self.old self.new es event.now told) }
    {
        self.machine.judge_event(event)
    }
}

/// What the judge finds in a record, from the graph of a new heap: where memory suffices, all its events if and only if they are a run,
/// else the first one with which those before it cannot go on, and what the graph gives there.
///
/// ```rust
/// let mut record = Record::new(alloc, config);
/// record.push(event)?;
/// assert_eq!(rt; explain(alloc, &record)?, Finding::Allowed(1));
/// ```
pub fn explain(alloc: Global, history: &Record) -> Result<Finding, AllocError>
    ensures { IfOk result (Finds (first_state history.now.config) history.now.events) }
{
    let config = history.config();
    let mut judge = Judge::new(alloc, &config)?;
    let events = history.events();
    for (index, event) in events.iter().enumerate() {
        if let Some(given) = judge.judge_event(event)? {
            return Ok(Finding::Refused {
                number: index as u64 + 1,
                event: *event,
                given,
            });
        }
    }
    Ok(Finding::Allowed(events.len() as u64))
}

/// Whether the events of a record may happen one after another, from the graph of a new heap: where memory suffices, yes if and only if
/// they are a run, else the first event with which the ones before it cannot go on.
///
/// ```rust
/// let mut record = Record::new(alloc, config);
/// record.push(event)?;
/// record.push(event)?;
/// assert_eq!(rt; check(alloc, &record)?, Verdict::No(2)); // the second object's name is 1
/// ```
pub fn check(alloc: Global, history: &Record) -> Result<Verdict, AllocError>
    ensures { IfOk result (Judged (first_state history.now.config) history.now.events) }
{
    let found = explain(alloc, history)?;
    Ok(found.verdict())
}
