//! A heap as C keeps it, and what each call does with it.

ghost use Rattle.std.specs.Prelude.{◌≡◌, ◌↔◌, ◌<◌, Some, None, IsTrue, true};
ghost use Rattle.heap_words.specs.Configs.{registers_of};
ghost use Rattle.heap_steps.specs.Actors.{IsStep};
ghost use Rattle.heap_steps.specs.declared.step.Step.TheVariants as steps;
ghost use Rattle.heap_steps.specs.declared.step.CollectorStep.TheVariants as collector;
ghost use Rattle.heap_calls.specs.Held.{is_held};
ghost use Rattle.heap_steps.specs.declared.step.Action.TheVariants as actions;
ghost use Rattle.heap_calls.specs.Numbers as spec;
ghost use Rattle.heap_calls.specs.Numbers.{by, no_step, told};
ghost use Rattle.heap_calls.specs.Steps.{IsUpTo, Steps, TakesStep, TakesNone, plain, scanned};

use crate::answer::{Answer, answer_of, counted, no_heap, no_step, told};
use crate::handle::Handle;
use crate::loose::Loose;
use crate::named::{by, register};
use heap_steps::{Action, CollectorStep, Op, Step, is_third};
use step_core::Core;

/// A heap, or none, and how many of its markings ended.
#[repr(C)]
#[derive(Drop)]
pub struct Heap {
    pub live: bool,
    pub handle: Handle,
    pub markings: u64,
    ghost says: { live ≡ is_held handle.core },
}

/// A handle of this core.
#[inline(always)]
pub fn handle_of(core: Box<Core>) -> Handle
    ensures { result.core ≡ Some core.value }
{
    Handle::of(Loose::of(core))
}

/// Whether the heap's sizes have a mutator's step.
#[inline(always)]
fn has_op(core: &Core, op: Op) -> bool
    ensures { IsTrue result ↔ IsStep core.now.config (steps.Mutator op) }
{
    let known = match op.action {
        Action::Scope { .. } => is_third(core.config().format),
        _ => true,
    };
    known && op.is_at(&core.roots().places())
}

/// Whether the heap's sizes have a step.
#[inline(always)]
pub fn has(core: &Core, step: Step) -> bool
    ensures { IsTrue result ↔ IsStep core.now.config step }
{
    match step {
        Step::Mutator(op) => has_op(core, op),
        Step::Collector(collection) => collection.is_in(core.config().format),
    }
}

#[inline(always)]
fn perform(core: &mut Core, step: Step) -> Answer
    requires { IsStep core.old.config step }
    ensures { Steps plain core.old step result (Some core.new) }
{
    answer_of(core.step(step))
}

/// Does a step, if the heap's sizes have it. The core stays in its handle.
#[inline(always)]
pub fn take(heap: &mut Heap, step: Step) -> Answer
    ensures takes { TakesStep plain heap.old.handle.core step result heap.new.handle.core }
    ensures same { heap.new.markings ≡ heap.old.markings }
{
    if !heap.live {
        return no_heap();
    }
    let core = heap.handle.core_mut();
    if !has(core, step) {
        return no_step();
    }
    perform(core, step)
}

/// Whether a heap has the mutator, and its mutators the register. Each heap has mutator 0: a compiler that knows that number leaves the
/// first test out.
#[inline(always)]
pub fn is_known(core: &Core, mutator: u32, register: u32) -> bool
    ensures { IsTrue result ↔ (mutator < core.now.config.mutators) × (register < registers_of core.now.config) }
{
    let _config = core.config();
    let places = core.roots().places();
    (mutator == 0 || mutator < places.mutators()) && register < places.registers()
}

/// The code where numbers name no step, by a call. Each heap has regions, so the other code is never told: it keeps the compiler from
/// putting a number in the place of the call.
#[cold]
#[inline(never)]
fn no_step_code(core: &Core) -> u32
    ensures { told result 0 0 ≡ no_step }
{
    if core.config().regions == 0 { 33 } else { 32 }
}

/// The answer where numbers name no step. A call's number isn't made before the tests that lead here, where each step would pay for it. But
/// where the step makes a call too, one more costs more than that.
#[inline(always)]
pub fn no_step_of(core: &Core, apart: bool) -> Answer
    ensures { result ≡ no_step }
{
    if apart {
        told(no_step_code(core), 0, 0)
    } else {
        no_step()
    }
}

/// Does a mutator's step, if the heap has the mutator and the register `highest`, above which the step names none.
#[inline(always)]
fn take_known(core: &mut Core, op: Op, highest: u32, apart: bool) -> Answer
    requires { IsUpTo highest op }
    ensures { TakesStep plain (Some core.old) (steps.Mutator op) result (Some core.new) }
{
    if is_known(core, op.mutator, highest) {
        perform(core, Step::Mutator(op))
    } else {
        no_step_of(core, apart)
    }
}

/// The same in a heap, for the calls that programs make most. `apart` tells whether a call answers that there is no such step.
#[inline(always)]
pub fn take_up_to(heap: &mut Heap, op: Op, highest: u32, apart: bool) -> Answer
    requires { IsUpTo highest op }
    ensures takes { TakesStep plain heap.old.handle.core (steps.Mutator op) result heap.new.handle.core }
    ensures same { heap.new.markings ≡ heap.old.markings }
{
    if !heap.live {
        return no_heap();
    }
    take_known(heap.handle.core_mut(), op, highest, apart)
}

/// Leaves a frame, if the heap's format has that step and its sizes the mutator and the register.
#[inline(always)]
fn leave_frame(core: &mut Core, mutator: u32, first: u32) -> Answer
    ensures { TakesStep plain (Some core.old) (by mutator (actions.Scope (spec.register first))) result (Some core.new) }
{
    if is_third(core.config().format) && is_known(core, mutator, first) {
        perform(
            core,
            by(
                mutator,
                Action::Scope {
                    from: register(first),
                },
            ),
        )
    } else {
        no_step()
    }
}

/// The same in a heap.
#[inline(always)]
pub fn take_scope(heap: &mut Heap, mutator: u32, first: u32) -> Answer
    ensures takes { TakesStep plain heap.old.handle.core (by mutator (actions.Scope (spec.register first))) result heap.new.handle.core }
    ensures same { heap.new.markings ≡ heap.old.markings }
{
    if !heap.live {
        return no_heap();
    }
    leave_frame(heap.handle.core_mut(), mutator, first)
}

/// The numbers name no step.
pub fn take_none(heap: &mut Heap) -> Answer
    ensures none { TakesNone heap.old.handle.core result heap.new.handle.core }
    ensures same { heap.new.markings ≡ heap.old.markings }
{
    if heap.live { no_step() } else { no_heap() }
}

fn scan(core: &mut Core, units: u32) -> Answer
    ensures { Steps scanned core.old (steps.Collector (collector.Mark units)) result (Some core.new) }
{
    let before = core.scans();
    let reply = core.step(Step::Collector(CollectorStep::Mark(units)));
    counted(core.scans() - before, reply)
}

/// Marks for so many units, words in the third format, and counts the objects that were scanned.
pub fn mark(heap: &mut Heap, units: u32) -> Answer
    ensures takes { TakesStep scanned heap.old.handle.core (steps.Collector (collector.Mark units)) result heap.new.handle.core }
    ensures same { heap.new.markings ≡ heap.old.markings }
{
    if !heap.live {
        return no_heap();
    }
    scan(heap.handle.core_mut(), units)
}
