//! Objects that are asked for, and collections, by the proved policy: the collector takes the steps that are due. Any numbers will do, the
//! policy's too.

ghost use Rattle.std.specs.Prelude.{◌≡◌, ◌↔◌, ◌+◌, ◌<◌, ◌≤◌, Some, IsTrue};
ghost use Rattle.heap_steps.specs.Actors.{IsOp};
ghost use Rattle.graph_runs.specs.Run.{IsNew};
ghost use Rattle.collection.specs.Markings.{CountsMarking};
ghost use Rattle.collection.specs.Steps.{IsDue};
ghost use Rattle.heap_calls.specs.Numbers.{config_of};
ghost use Rattle.heap_calls.specs.Steps.{HasRegister, IsUpTo};
ghost use Rattle.g1heap_c.specs.Calls.{CollectCall, IsCall, MakeCall, NoStepCall, CollectAllCall};
ghost use Rattle.g1heap_c.specs.Policies.{AsksFor, AsksOrNils, AsksOrNot, CollectsAllIn, CollectsDueIn, CollectsSomeIn, Starts, TakesDue};
ghost use Rattle.g1heap_c.specs.Policies.{asked};

use crate::caller::{CallerPolicy, nil_where_full};
use collection::{Policy, Watch, collect, collect_due, make};
use heap_calls::answer::{Answer, answer_of, done, no_heap, no_step};
use heap_calls::heap::{Heap, is_known, take_none};
use heap_calls::making::{Sizes, config_of};
use heap_steps::{Action, Counts, Op, Register};
use step_core::Core;

/// The step that makes the object that is asked for, a plain one.
#[inline(always)]
pub(crate) fn plain(mutator: u32, to: u32, pointers: u32, values: u32) -> Op
    ensures op { result ≡ asked mutator to pointers 0 values }
    ensures new { IsNew result.action }
    ensures known { IsUpTo to result }
{
    let to = Register { number: to };
    let counts = Counts { pointers, values };
    Op {
        mutator,
        action: Action::New { to, counts },
    }
}

/// The step that makes the object that is asked for, one with weak slots.
#[inline(always)]
pub(crate) fn with_weaks(mutator: u32, to: u32, pointers: u32, weaks: u8, values: u32) -> Op
    requires { 0 < weaks }
    ensures op { result ≡ asked mutator to pointers weaks values }
    ensures new { IsNew result.action }
    ensures known { IsUpTo to result }
{
    let to = Register { number: to };
    let counts = Counts { pointers, values };
    Op {
        mutator,
        action: Action::NewWeak { to, counts, weaks },
    }
}

#[inline(always)]
fn make_in<W: Watch>(
    core: &mut Core,
    policy: &mut CallerPolicy,
    op: Op,
    to: u32,
    watch: &mut W,
) -> Answer
    requires op { IsOp core.old.config op }
    requires new { IsNew op.action }
    requires to { HasRegister core.old op.mutator to }
    ensures { AsksOrNils W.sees policy.old.nil_on_full to core.old watch.old op result (Some core.new) watch.new }
{
    let reply = make(core, &mut policy.numbers, op, watch);
    nil_where_full(core, policy.nil_on_full, op.mutator, to, reply);
    answer_of(reply)
}

/// Makes the object, if the heap's sizes have the step: the mutator, and the register that takes the object.
#[inline(always)]
pub(crate) fn ask_in<W: Watch>(
    core: &mut Core,
    policy: &mut CallerPolicy,
    op: Op,
    to: u32,
    watch: &mut W,
) -> Answer
    requires new { IsNew op.action }
    requires known { IsUpTo to op }
    ensures { AsksOrNot W.sees policy.old.nil_on_full to core.old watch.old op result (Some core.new) watch.new }
{
    if !is_known(core, op.mutator, to) {
        return no_step();
    }
    make_in(core, policy, op, to, watch)
}

/// The same, if there is a heap, which counts the markings that end.
#[inline(always)]
fn ask(heap: &mut Heap, policy: &mut CallerPolicy, op: Op, to: u32) -> Answer
    requires new { IsNew op.action }
    requires known { IsUpTo to op }
    ensures { AsksFor CountsMarking policy.old.nil_on_full to heap.old.handle.core heap.old.markings op result
        heap.new.handle.core heap.new.markings }
{
    if !heap.live {
        return no_heap();
    }
    let core = heap.handle.core_mut();
    ask_in(core, policy, op, to, &mut heap.markings)
}

/// A policy for a new heap of these sizes.
#[unsafe(no_mangle)]
pub extern "C" fn g1_policy_start(policy: &mut CallerPolicy, sizes: &Sizes)
    ensures { Starts (config_of sizes.now) policy.new }
{
    *policy = CallerPolicy {
        numbers: Policy::new(&config_of(sizes)),
        nil_on_full: 0,
        reserved: [0; 11],
    };
}

/// `to` takes a new object of so many pointers, weak slots and data words, after the steps of the collector that are due.
#[unsafe(no_mangle)]
pub extern "C" fn g1_make(
    heap: &mut Heap,
    policy: &mut CallerPolicy,
    mutator: u32,
    to: u32,
    pointers: u32,
    weaks: u32,
    values: u32,
) -> Answer
    ensures few { weaks ≤ 255 → IsCall heap.old (MakeCall policy.old.nil_on_full mutator to pointers weaks values) result heap.new }
    ensures many { 255 < weaks → IsCall heap.old NoStepCall result heap.new }
{
    // Each call of `ask` is written out here with the kind of its action known.
    if weaks == 0 {
        let op = plain(mutator, to, pointers, values);
        return ask(heap, policy, op, to);
    }
    if 255 < weaks {
        return take_none(heap);
    }
    let op = with_weaks(mutator, to, pointers, weaks as u8, values);
    ask(heap, policy, op, to)
}

pub(crate) fn collect_in<W: Watch>(core: &mut Core, policy: &mut Policy, watch: &mut W) -> Answer
    ensures collects { CollectsDueIn W.sees core.old watch.old result (Some core.new) watch.new }
    ensures due { IsDue core.old policy.old.begin_at → CollectsSomeIn (core.old.config.regions + 5) core.old core.new }
{
    collect_due(core, policy, watch);
    done()
}

pub(crate) fn collect_all_in<W: Watch>(
    core: &mut Core,
    policy: &mut Policy,
    watch: &mut W,
) -> Answer
    ensures { CollectsAllIn W.sees core.old watch.old result (Some core.new) watch.new }
{
    collect(core, policy, watch);
    done()
}

/// Takes the steps of the collector that are due at a look.
#[unsafe(no_mangle)]
pub extern "C" fn g1_collect(heap: &mut Heap, policy: &mut CallerPolicy) -> Answer
    ensures call { IsCall heap.old CollectCall result heap.new }
    ensures due { TakesDue heap.old.handle.core policy.old.numbers.begin_at heap.new.handle.core }
{
    if !heap.live {
        return no_heap();
    }
    let core = heap.handle.core_mut();
    collect_in(core, &mut policy.numbers, &mut heap.markings)
}

/// A whole collection.
#[unsafe(no_mangle)]
pub extern "C" fn g1_collect_all(heap: &mut Heap, policy: &mut CallerPolicy) -> Answer
    ensures { IsCall heap.old CollectAllCall result heap.new }
{
    if !heap.live {
        return no_heap();
    }
    let core = heap.handle.core_mut();
    collect_all_in(core, &mut policy.numbers, &mut heap.markings)
}
