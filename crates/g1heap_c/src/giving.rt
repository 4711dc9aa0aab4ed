//! Memory that is given back to the system.

ghost use Rattle.std.specs.Prelude.{◌⊎◌, Some, false, true};
ghost use Rattle.collection.specs.Markings.{CountsMarking};
ghost use Rattle.g1heap_c.specs.Calls.{GiveBackCall, IsCall, ShrinkCall};
ghost use Rattle.g1heap_c.specs.Policies.{ShrinksIn};

use crate::caller::CallerPolicy;
use crate::noted::{Entry, Notes};
use collection::{Policy, Watch, collect_down};
use heap_calls::answer::{Answer, no_heap};
use heap_calls::giving::{give_back, give_back_of};
use heap_calls::heap::Heap;
use std::alloc::Global;
use step_core::Core;

/// The memory above the highest region in use goes back to the system.
#[unsafe(no_mangle)]
pub extern "C" fn g1_give_back(alloc: Global, heap: &mut Heap) -> Answer
    ensures { IsCall heap.old (GiveBackCall true) result heap.new ⊎ IsCall heap.old (GiveBackCall false) result heap.new }
{
    give_back(heap, alloc)
}

fn shrink_in<W: Watch>(core: &mut Core, policy: &mut Policy, alloc: Global, watch: &mut W) -> Answer
    ensures { ShrinksIn W.sees true core.old watch.old result (Some core.new) watch.new
        ⊎ ShrinksIn W.sees false core.old watch.old result (Some core.new) watch.new }
{
    collect_down(core, policy, watch);
    give_back_of(core, alloc)
}

/// The same, and the steps that were taken are noted.
fn shrink_noted(
    core: &mut Core,
    policy: &mut Policy,
    alloc: Global,
    markings: &mut u64,
    entries: &mut [Entry],
    count: &mut u32,
) -> Answer
    ensures { ShrinksIn CountsMarking true core.old markings.old result (Some core.new) markings.new
        ⊎ ShrinksIn CountsMarking false core.old markings.old result (Some core.new) markings.new }
{
    let mut notes = Notes {
        entries,
        count: 0,
        markings: *markings,
    };
    let answer = shrink_in(core, policy, alloc, &mut notes);
    *markings = notes.markings;
    *count = notes.count;
    answer
}

/// A whole collection, and compactions until none moves anything; then the memory above the highest region in use goes back to the system.
#[unsafe(no_mangle)]
pub extern "C" fn g1_shrink(alloc: Global, heap: &mut Heap, policy: &mut CallerPolicy) -> Answer
    ensures { IsCall heap.old (ShrinkCall true) result heap.new ⊎ IsCall heap.old (ShrinkCall false) result heap.new }
{
    if !heap.live {
        return no_heap();
    }
    let core = heap.handle.core_mut();
    shrink_in(core, &mut policy.numbers, alloc, &mut heap.markings)
}

/// The same, and the steps that were taken are noted, as by `g1_make_noted`.
#[unsafe(no_mangle)]
pub extern "C" fn g1_shrink_noted(
    alloc: Global,
    heap: &mut Heap,
    policy: &mut CallerPolicy,
    entries: &mut [Entry],
    count: &mut u32,
) -> Answer
    ensures { IsCall heap.old (ShrinkCall true) result heap.new ⊎ IsCall heap.old (ShrinkCall false) result heap.new }
{
    *count = 0;
    if !heap.live {
        return no_heap();
    }
    shrink_noted(
        heap.handle.core_mut(),
        &mut policy.numbers,
        alloc,
        &mut heap.markings,
        entries,
        count,
    )
}
