//! Which steps the sizes of a heap allow: tests of what plans, records and heaps ask for.

ghost use Rattle.std.specs.Prelude.{◌≡◌, ◌↔◌, ◌<◌, ◌&&◌, ℕ, IsTrue};
ghost use Rattle.heap_steps.specs.Roots.{has_register, has_global, has_value, names_roots, IsOpAt};
ghost use Rattle.heap_steps.specs.Actors.{has_action, has_row, has_root, is_third, allows, HasCollection, IsOp, IsStep, IsEvent};

use crate::form::{Operand, Row, Verb};
use crate::step::{Action, Actor, CollectorStep, Event, GlobalRoot, Op, Register, Step};
use heap_words::config::{Config, Format};
use root_table::RootCounts;

impl Register {
    /// Whether mutators have the register.
    fn is_in(self, places: &RootCounts) -> bool
        ensures { result ≡ has_register places.now self }
    {
        self.number < places.registers()
    }
}

/// Whether mutators have both registers: one test, of the larger number.
#[inline(always)]
fn are_in(one: Register, other: Register, places: &RootCounts) -> bool
    ensures { result ≡ (has_register places.now one && has_register places.now other) }
{
    one.number.max(other.number) < places.registers()
}

impl GlobalRoot {
    /// Whether there is the global.
    fn is_in(self, places: &RootCounts) -> bool
        ensures { result ≡ has_global places.now self }
    {
        self.number < places.globals()
    }
}

/// Whether a value is nil or a register that mutators have.
#[inline(always)]
fn is_value(value: Option<Register>, places: &RootCounts) -> bool
    ensures { result ≡ has_value places.now value }
{
    match value {
        None => true,
        Some(register) => register.is_in(places),
    }
}

impl Operand {
    /// Whether a heap of these sizes has the root of an operand's number, if the operand names one: of a value 0 is nil, and registers
    /// count from 1.
    ///
    /// ```rust
    /// assert!(rt; Operand::Register.has_root(&config, 7));
    /// assert!(rt; !Operand::Register.has_root(&config, 8));
    /// ```
    pub fn has_root(self, config: &Config, number: u64) -> bool
        ensures { result ≡ has_root config.now self number }
    {
        match self {
            Operand::Register => number < config.registers() as u64,
            Operand::Global => number < config.globals() as u64,
            Operand::Value => number <= config.registers() as u64,
            _ => true,
        }
    }
}

/// Whether a heap line's format has a row of the table of verbs.
///
/// ```rust
/// assert!(rt; has_row(config.format, ActionVerb::Get.row()));
/// assert!(rt; !has_row(config.format, ActionVerb::Scope.row())); // the third format alone has it
/// ```
pub fn has_row(format: Format, row: Row) -> bool
    ensures { result ≡ has_row format row.third }
{
    !row.third || is_third(format)
}

/// Whether a heap line's format is the third.
///
/// ```rust
/// assert!(rt; !is_third(config.format));
/// ```
#[inline(always)]
pub fn is_third(format: Format) -> bool
    ensures { result ≡ is_third format }
{
    matches!(format, Format::V3 { .. })
}

impl CollectorStep {
    /// Whether a heap line's format has the step.
    ///
    /// ```rust
    /// assert!(rt; CollectorStep::Pause(8).is_in(config.format));
    /// assert!(rt; !CollectorStep::Compact(8).is_in(config.format)); // the third format alone has it
    /// ```
    #[inline(always)]
    pub fn is_in(self, format: Format) -> bool
        ensures { IsTrue result ↔ HasCollection format self }
    {
        has_row(format, self.verb().row())
    }
}

impl Action {
    /// Whether there is each register and global that the action names.
    #[inline(always)]
    fn names_roots(self, places: &RootCounts) -> bool
        ensures { result ≡ names_roots places.now self }
    {
        match self {
            Action::New { to, .. } | Action::NewWeak { to, .. } => to.is_in(places),
            Action::Get { to, object, .. } | Action::GetWeak { to, object, .. } => {
                are_in(to, object, places)
            }
            Action::Put { object, value, .. } | Action::PutWeak { object, value, .. } => {
                object.is_in(places) && is_value(value, places)
            }
            Action::Read { object, .. }
            | Action::Write { object, .. }
            | Action::Shape { object }
            | Action::Weaks { object } => object.is_in(places),
            Action::Move { to, from } => are_in(to, from, places),
            Action::Drop { register } => register.is_in(places),
            Action::Load { to, from } => to.is_in(places) && from.is_in(places),
            Action::Save { to, from } => to.is_in(places) && from.is_in(places),
            Action::Scope { from } => from.is_in(places),
        }
    }

    /// Whether a heap line's format has the action.
    #[inline(always)]
    fn is_known(self, format: Format) -> bool
        ensures { result ≡ has_action format self }
    {
        match self {
            Action::Scope { .. } => is_third(format),
            _ => true,
        }
    }

    /// Whether a heap of these sizes has each root that the action names, and their format the action: so any of its mutators may do it.
    ///
    /// ```rust
    /// assert!(rt; op.action.is_in(&config));
    /// assert!(rt; !Action::Scope { from: r0 }.is_in(&config)); // the third format alone has it
    /// ```
    #[inline(always)]
    pub fn is_in(self, config: &Config) -> bool
        ensures allows { result ≡ allows config.now self }
        ensures op { (mutator : ℕ) → mutator < config.now.mutators
            → IsTrue result ↔ IsOp config.now (record { mutator = mutator; action = self }) }
    {
        self.names_roots(&RootCounts::of(config)) && self.is_known(config.format)
    }
}

impl Op {
    /// Whether the mutator is one of those, and each root that the step names is there.
    ///
    /// ```rust
    /// assert!(rt; op.is_at(&RootCounts::of(&config)));
    /// assert!(rt; !Op { mutator: 1, action: op.action }.is_at(&RootCounts::of(&config)));
    /// ```
    pub fn is_at(self, places: &RootCounts) -> bool
        ensures { IsTrue result ↔ IsOpAt places.now self }
    {
        self.mutator < places.mutators() && self.action.names_roots(places)
    }

    /// Whether a heap of these sizes has the mutator and the roots that the step names, and their format the action.
    #[inline(always)]
    fn is_in(self, config: &Config) -> bool
        ensures { IsTrue result ↔ IsOp config.now self }
    {
        self.mutator < config.mutators && self.action.is_in(config)
    }
}

impl Step {
    /// Whether a plan of these sizes may have the step: each of the collector's that the format has, and those of mutators whose
    /// number, registers and globals the sizes allow.
    ///
    /// ```rust
    /// assert!(rt; Step::Mutator(op).is_in(&config));
    /// assert!(rt; !Step::Mutator(Op { mutator: 1, action: op.action }).is_in(&config));
    /// ```
    #[inline(always)]
    pub fn is_in(self, config: &Config) -> bool
        ensures { IsTrue result ↔ IsStep config.now self }
    {
        match self {
            Step::Mutator(op) => op.is_in(config),
            Step::Collector(collection) => collection.is_in(config.format),
        }
    }
}

impl Event {
    /// Whether a record of these sizes may have the event: its step is one of its actor's, and the sizes allow it.
    ///
    /// ```rust
    /// assert!(rt; event.is_in(&config));
    /// assert!(rt; !Event { actor: Actor::Collector, ..event }.is_in(&config));
    /// ```
    pub fn is_in(&self, config: &Config) -> bool
        ensures { IsTrue result ↔ IsEvent config.now self.now }
    {
        match (self.actor, self.step) {
            (Actor::Mutator(mutator), Step::Mutator(op)) => {
                op.mutator == mutator && op.is_in(config)
            }
            (Actor::Collector, Step::Collector(collection)) => collection.is_in(config.format),
            (Actor::Marker(number), Step::Collector(CollectorStep::Mark(_))) => number < 8,
            (Actor::Refiner(number), Step::Collector(CollectorStep::Refine(_))) => number < 8,
            _ => false,
        }
    }
}
