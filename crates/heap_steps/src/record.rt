//! Plans, which say what is to be done, and records, which say what was done.

ghost use Rattle.std.specs.Prelude.{◌≡◌, ◌++◌, ◌∷◌, [], IfOk, OnOk, OnErr};

use crate::step::{Event, Step};
use heap_words::config::Config;
use std::alloc::{AllocError, Global};
use std::marker::Model;

/// A heap line and the steps to be done, in order. Each mutator's number is below the heap line's count.
#[derive(Debug)]
pub struct Plan {
    config: Config,
    steps: Vec<Step>,
}

impl Model for Plan {
    ghost use Rattle.heap_steps.specs.Actors.{StepList, AreSteps};

    ghost Value = { StepList };

    ghost view = { λ p. record { config = p.config; steps = p.steps.items } };

    ghost invariant = { λ p. AreSteps p.config p.steps.items };
}

/// Where it is dropped there is one call, and not a drop for each of its parts.
impl Drop for Plan {
    fn drop(self) {
        let Plan {
            config: _,
            steps: _,
        } = self;
    }
}

impl Plan {
    ghost use Rattle.heap_steps.specs.Actors.{IsStep, AreSteps};

    /// A plan of no steps.
    ///
    /// ```rust
    /// let plan = Plan::new(alloc, config);
    /// assert_eq!(rt; plan.steps().len(), 0);
    /// ```
    pub fn new(alloc: Global, config: Config) -> Plan
        ensures { result ≡ record { config = config; steps = [] } }
    {
        Plan {
            config,
            steps: Vec::new(alloc),
        }
    }

    /// Adds a step at the end. Refused for memory, the plan is unchanged.
    ///
    /// ```rust
    /// let mut plan = Plan::new(alloc, config);
    /// plan.push(Step::Mutator(op))?;
    /// assert_eq!(rt; plan.steps().len(), 1);
    /// ```
    pub fn push(&mut self, step: Step) -> Result<(), AllocError>
        requires { IsStep self.old.config step }
        ensures ok { OnOk result (self.new ≡ record self.old { steps = self.old.steps ++ step ∷ [] }) }
        ensures err { OnErr result (self.new ≡ self.old) }
    {
        self.steps.push(step)?;
        Ok(())
    }

    /// The plan's heap line.
    ///
    /// ```rust
    /// assert_eq!(rt; Plan::new(alloc, config).config(), config);
    /// ```
    pub fn config(&self) -> Config
        ensures { result ≡ self.now.config }
    {
        self.config
    }

    /// The steps, in order.
    ///
    /// ```rust
    /// let mut plan = Plan::new(alloc, config);
    /// plan.push(Step::Mutator(op))?;
    /// assert_eq!(rt; plan.steps()[0], Step::Mutator(op));
    /// ```
    pub fn steps(&self) -> &[Step]
        ensures steps { result.now ≡ self.now.steps }
        ensures each { AreSteps self.now.config self.now.steps }
    {
        self.steps.as_slice()
    }
}

/// A heap line and the events of its heap, in order. Each mutator's number is below the heap line's
/// count, and each step is one of its actor's. A parameter that clauses name is called `history`, since `record` is a word of theirs.
#[derive(Debug)]
pub struct Record {
    config: Config,
    events: Vec<Event>,
}

impl Model for Record {
    ghost use Rattle.heap_steps.specs.Actors.{EventList, AreEvents};

    ghost Value = { EventList };

    ghost view = { λ r. record { config = r.config; events = r.events.items } };

    ghost invariant = { λ r. AreEvents r.config r.events.items };
}

/// Where it is dropped there is one call, and not a drop for each of its parts.
impl Drop for Record {
    fn drop(self) {
        let Record {
            config: _,
            events: _,
        } = self;
    }
}

impl Record {
    ghost use Rattle.heap_steps.specs.Actors.{IsEvent, AreEvents};

    /// A record of no events.
    ///
    /// ```rust
    /// let record = Record::new(alloc, config);
    /// assert_eq!(rt; record.events().len(), 0);
    /// ```
    pub fn new(alloc: Global, config: Config) -> Record
        ensures { result ≡ record { config = config; events = [] } }
    {
        Record {
            config,
            events: Vec::new(alloc),
        }
    }

    /// A record of no events, with room for so many.
    ///
    /// ```rust
    /// let mut record = Record::with_room(alloc, config, 100)?;
    /// record.push(event)?;
    /// assert_eq!(rt; record.events().len(), 1);
    /// ```
    pub fn with_room(alloc: Global, config: Config, events: usize) -> Result<Record, AllocError>
        ensures { IfOk result (λ r. r ≡ record { config = config; events = [] }) }
    {
        Ok(Record {
            config,
            events: Vec::with_capacity(alloc, events)?,
        })
    }

    /// A record of these events.
    ///
    /// ```rust
    /// let record = Record::of_events(config, vec![in alloc; event]?);
    /// assert_eq!(rt; record.events().len(), 1);
    /// ```
    pub fn of_events(config: Config, events: Vec<Event>) -> Record
        requires { AreEvents config events.items }
        ensures { result ≡ record { config = config; events = events.items } }
    {
        Record { config, events }
    }

    /// Adds an event at the end. Refused for memory, the record is unchanged.
    ///
    /// ```rust
    /// let mut record = Record::new(alloc, config);
    /// record.push(event)?;
    /// assert_eq!(rt; record.events().len(), 1);
    /// ```
    pub fn push(&mut self, event: Event) -> Result<(), AllocError>
        requires { IsEvent self.old.config event }
        ensures ok { OnOk result (self.new ≡ record self.old { events = self.old.events ++ event ∷ [] }) }
        ensures err { OnErr result (self.new ≡ self.old) }
    {
        self.events.push(event)?;
        Ok(())
    }

    /// The record's heap line.
    ///
    /// ```rust
    /// assert_eq!(rt; Record::new(alloc, config).config(), config);
    /// ```
    pub fn config(&self) -> Config
        ensures { result ≡ self.now.config }
    {
        self.config
    }

    /// The events, in order.
    ///
    /// ```rust
    /// let mut record = Record::new(alloc, config);
    /// record.push(event)?;
    /// assert_eq!(rt; record.events()[0].reply, Reply::Named(Some(0)));
    /// ```
    pub fn events(&self) -> &[Event]
        ensures events { result.now ≡ self.now.events }
        ensures each { AreEvents self.now.config self.now.events }
    {
        self.events.as_slice()
    }
}
