//! The same calls as in `policy`, and the steps that were taken are noted: for who records them.

ghost use Rattle.std.specs.Prelude.{◌≡◌, ◌+◌, ◌<◌, ◌≤◌, Some};
ghost use Rattle.graph_runs.specs.Run.{IsNew};
ghost use Rattle.collection.specs.Markings.{CountsMarking};
ghost use Rattle.collection.specs.Steps.{IsDue};
ghost use Rattle.heap_calls.specs.Steps.{IsUpTo};
ghost use Rattle.g1heap_c.specs.Calls.{CollectAllCall, CollectCall, IsCall, MakeCall, NoStepCall};
ghost use Rattle.g1heap_c.specs.Policies.{AsksOrNot, CollectsAllIn, CollectsDueIn, CollectsSomeIn, TakesDue};

use crate::caller::CallerPolicy;
use crate::noted::{Entry, Notes};
use crate::policy::{ask_in, collect_all_in, collect_in, plain, with_weaks};
use collection::Policy;
use heap_calls::answer::{Answer, no_heap};
use heap_calls::heap::{Heap, take_none};
use heap_steps::Op;
use step_core::Core;

fn ask(
    core: &mut Core,
    policy: &mut CallerPolicy,
    op: Op,
    to: u32,
    markings: &mut u64,
    entries: &mut [Entry],
    count: &mut u32,
) -> Answer
    requires new { IsNew op.action }
    requires known { IsUpTo to op }
    ensures { AsksOrNot CountsMarking policy.old.nil_on_full to core.old markings.old op result (Some core.new) markings.new }
{
    let mut notes = Notes {
        entries,
        count: 0,
        markings: *markings,
    };
    let answer = ask_in(core, policy, op, to, &mut notes);
    *markings = notes.markings;
    *count = notes.count;
    answer
}

fn collect_due(
    core: &mut Core,
    policy: &mut Policy,
    markings: &mut u64,
    entries: &mut [Entry],
    count: &mut u32,
) -> Answer
    ensures collects { CollectsDueIn CountsMarking core.old markings.old result (Some core.new) markings.new }
    ensures due { IsDue core.old policy.old.begin_at → CollectsSomeIn (core.old.config.regions + 5) core.old core.new }
{
    let mut notes = Notes {
        entries,
        count: 0,
        markings: *markings,
    };
    let answer = collect_in(core, policy, &mut notes);
    *markings = notes.markings;
    *count = notes.count;
    answer
}

fn collect_all(
    core: &mut Core,
    policy: &mut Policy,
    markings: &mut u64,
    entries: &mut [Entry],
    count: &mut u32,
) -> Answer
    ensures { CollectsAllIn CountsMarking core.old markings.old result (Some core.new) markings.new }
{
    let mut notes = Notes {
        entries,
        count: 0,
        markings: *markings,
    };
    let answer = collect_all_in(core, policy, &mut notes);
    *markings = notes.markings;
    *count = notes.count;
    answer
}

/// The same as `g1_make`, and the steps that were taken are noted: their number, and as many of the first ones as there are entries.
#[unsafe(no_mangle)]
pub extern "C" fn g1_make_noted(
    heap: &mut Heap,
    policy: &mut CallerPolicy,
    mutator: u32,
    to: u32,
    pointers: u32,
    weaks: u32,
    values: u32,
    entries: &mut [Entry],
    count: &mut u32,
) -> Answer
    ensures few { weaks ≤ 255 → IsCall heap.old (MakeCall policy.old.nil_on_full mutator to pointers weaks values) result heap.new }
    ensures many { 255 < weaks → IsCall heap.old NoStepCall result heap.new }
{
    *count = 0;
    if 255 < weaks {
        return take_none(heap);
    }
    if !heap.live {
        return no_heap();
    }
    let op = if weaks == 0 {
        plain(mutator, to, pointers, values)
    } else {
        with_weaks(mutator, to, pointers, weaks as u8, values)
    };
    ask(
        heap.handle.core_mut(),
        policy,
        op,
        to,
        &mut heap.markings,
        entries,
        count,
    )
}

/// The same as `g1_collect`, with notes.
#[unsafe(no_mangle)]
pub extern "C" fn g1_collect_noted(
    heap: &mut Heap,
    policy: &mut CallerPolicy,
    entries: &mut [Entry],
    count: &mut u32,
) -> Answer
    ensures call { IsCall heap.old CollectCall result heap.new }
    ensures due { TakesDue heap.old.handle.core policy.old.numbers.begin_at heap.new.handle.core }
{
    *count = 0;
    if !heap.live {
        return no_heap();
    }
    collect_due(
        heap.handle.core_mut(),
        &mut policy.numbers,
        &mut heap.markings,
        entries,
        count,
    )
}

/// The same as `g1_collect_all`, with notes.
#[unsafe(no_mangle)]
pub extern "C" fn g1_collect_all_noted(
    heap: &mut Heap,
    policy: &mut CallerPolicy,
    entries: &mut [Entry],
    count: &mut u32,
) -> Answer
    ensures { IsCall heap.old CollectAllCall result heap.new }
{
    *count = 0;
    if !heap.live {
        return no_heap();
    }
    collect_all(
        heap.handle.core_mut(),
        &mut policy.numbers,
        &mut heap.markings,
        entries,
        count,
    )
}
