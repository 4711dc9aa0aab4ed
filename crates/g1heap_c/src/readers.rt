//! What a policy of collection steers by, a call for each. C declares these with a heap that doesn't change: what it points to is the same
//! after the call as before.

ghost use Rattle.g1heap_c.specs.Calls.{AskCall, IsCall, MarkingsCall};
ghost use Rattle.g1heap_c.specs.Calls.{FreeRegions, FreeRun, UsedWords, LiveWords, Marking, Grey, Clearing, Queued, Globals};
ghost use Rattle.g1heap_c.specs.Calls.{Registers, Name};

use heap_calls::answer::{Answer, no_heap, number};
use heap_calls::heap::Heap;
use heap_calls::readers::{longest_run, name_at};

/// How many regions are free.
#[unsafe(no_mangle)]
pub extern "C" fn g1_free_regions(heap: &mut Heap) -> Answer
    ensures { IsCall heap.old (AskCall FreeRegions) result heap.new }
{
    if !heap.live {
        return no_heap();
    }
    let core = heap.handle.core_mut();
    number(u64::from(core.free_regions()))
}

/// How many free regions lie side by side, at most.
#[unsafe(no_mangle)]
pub extern "C" fn g1_free_run(heap: &mut Heap) -> Answer
    ensures { IsCall heap.old (AskCall FreeRun) result heap.new }
{
    if !heap.live {
        return no_heap();
    }
    let core = heap.handle.core_mut();
    number(u64::from(longest_run(core.table())))
}

/// How many words are handed out.
#[unsafe(no_mangle)]
pub extern "C" fn g1_used_words(heap: &mut Heap) -> Answer
    ensures { IsCall heap.old (AskCall UsedWords) result heap.new }
{
    if !heap.live {
        return no_heap();
    }
    let core = heap.handle.core_mut();
    number(core.used_words())
}

/// How many words are live.
#[unsafe(no_mangle)]
pub extern "C" fn g1_live_words(heap: &mut Heap) -> Answer
    ensures { IsCall heap.old (AskCall LiveWords) result heap.new }
{
    if !heap.live {
        return no_heap();
    }
    let core = heap.handle.core_mut();
    number(core.live_words())
}

/// 1 while marking runs, else 0.
#[unsafe(no_mangle)]
pub extern "C" fn g1_marking(heap: &mut Heap) -> Answer
    ensures { IsCall heap.old (AskCall Marking) result heap.new }
{
    if !heap.live {
        return no_heap();
    }
    let core = heap.handle.core_mut();
    number(u64::from(core.marking()))
}

/// 1 while marking runs and something is left to be marked, else 0.
#[unsafe(no_mangle)]
pub extern "C" fn g1_grey(heap: &mut Heap) -> Answer
    ensures { IsCall heap.old (AskCall Grey) result heap.new }
{
    if !heap.live {
        return no_heap();
    }
    let core = heap.handle.core_mut();
    number(u64::from(core.grey()))
}

/// 1 while weak slots that read nil wait to be cleared, else 0.
#[unsafe(no_mangle)]
pub extern "C" fn g1_clearing(heap: &mut Heap) -> Answer
    ensures { IsCall heap.old (AskCall Clearing) result heap.new }
{
    if !heap.live {
        return no_heap();
    }
    let core = heap.handle.core_mut();
    number(u64::from(core.clearing()))
}

/// How many markings of the heap ended, whoever ended them.
#[unsafe(no_mangle)]
pub extern "C" fn g1_markings(heap: &mut Heap) -> Answer
    ensures { IsCall heap.old (MarkingsCall heap.old.markings) result heap.new }
{
    if !heap.live {
        return no_heap();
    }
    number(heap.markings)
}

/// How many cards wait for refinement.
#[unsafe(no_mangle)]
pub extern "C" fn g1_queued(heap: &mut Heap) -> Answer
    ensures { IsCall heap.old (AskCall Queued) result heap.new }
{
    if !heap.live {
        return no_heap();
    }
    let core = heap.handle.core_mut();
    number(u64::from(core.queued()))
}

/// How many globals there are.
#[unsafe(no_mangle)]
pub extern "C" fn g1_globals(heap: &mut Heap) -> Answer
    ensures { IsCall heap.old (AskCall Globals) result heap.new }
{
    if !heap.live {
        return no_heap();
    }
    let core = heap.handle.core_mut();
    number(u64::from(core.globals()))
}

/// How many registers each mutator has.
#[unsafe(no_mangle)]
pub extern "C" fn g1_registers(heap: &mut Heap) -> Answer
    ensures { IsCall heap.old (AskCall Registers) result heap.new }
{
    if !heap.live {
        return no_heap();
    }
    let core = heap.handle.core_mut();
    number(u64::from(core.registers()))
}

/// The name that a register holds.
#[unsafe(no_mangle)]
pub extern "C" fn g1_name(heap: &mut Heap, mutator: u32, which: u32) -> Answer
    ensures { IsCall heap.old (AskCall (Name mutator which)) result heap.new }
{
    if !heap.live {
        return no_heap();
    }
    let core = heap.handle.core_mut();
    name_at(core, mutator, which)
}
