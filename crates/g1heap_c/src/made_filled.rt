//! Objects that are asked for by the policy, and filled in the same call.

ghost use Rattle.std.specs.Prelude.{◌≡◌, Some};
ghost use Rattle.collection.specs.Markings.{CountsMarking};
ghost use Rattle.heap_calls.specs.Filled.{AreFields};
ghost use Rattle.g1heap_c.specs.Calls.{IsCall, MakeFilledCall};
ghost use Rattle.g1heap_c.specs.MadeFilled.{AsksToFill, AsksToFillOrNot};

use crate::caller::{CallerPolicy, nil_where_full};
use crate::noted::{Entry, Notes};
use crate::policy::plain;
use collection::{Watch, make};
use heap_calls::answer::{Answer, answer_of, no_heap};
use heap_calls::filled::{fill_made, has_fields};
use heap_calls::heap::{Heap, no_step_of};
use step_core::Core;

/// Makes the object and fills it.
#[inline(always)]
fn make_and_fill<W: Watch>(
    core: &mut Core,
    policy: &mut CallerPolicy,
    mutator: u32,
    to: u32,
    from: &[u32],
    words: &[u64],
    watch: &mut W,
) -> Answer
    requires { AreFields core.old.config mutator to from.now words.now }
    ensures { AsksToFill W.sees policy.old.nil_on_full core.old watch.old mutator to from.now words.now result (Some core.new) watch.new }
{
    let op = plain(mutator, to, from.len() as u32, words.len() as u32);
    let reply = make(core, &mut policy.numbers, op, watch);
    fill_made(core, reply, mutator, to, from, words);
    nil_where_full(core, policy.nil_on_full, mutator, to, reply);
    answer_of(reply)
}

/// The same, if the numbers name steps of the heap's.
#[inline(always)]
fn make_in<W: Watch>(
    core: &mut Core,
    policy: &mut CallerPolicy,
    mutator: u32,
    to: u32,
    from: &[u32],
    words: &[u64],
    watch: &mut W,
) -> Answer
    ensures { AsksToFillOrNot W.sees policy.old.nil_on_full core.old watch.old mutator to from.now words.now result (Some core.new)
        watch.new }
{
    if !has_fields(core, mutator, to, from, words) {
        return no_step_of(core, true);
    }
    make_and_fill(core, policy, mutator, to, from, words, watch)
}

/// The same, and the steps up to the object's own are noted.
fn make_noted(
    core: &mut Core,
    policy: &mut CallerPolicy,
    mutator: u32,
    to: u32,
    from: &[u32],
    words: &[u64],
    markings: &mut u64,
    entries: &mut [Entry],
    count: &mut u32,
) -> Answer
    ensures { AsksToFillOrNot CountsMarking policy.old.nil_on_full core.old markings.old mutator to from.now words.now result
        (Some core.new) markings.new }
{
    let mut notes = Notes {
        entries,
        count: 0,
        markings: *markings,
    };
    let answer = make_in(core, policy, mutator, to, from, words, &mut notes);
    *markings = notes.markings;
    *count = notes.count;
    answer
}

/// `to` takes a new object, after the steps of the collector that are due. Its pointers are what registers hold, or nil, and its data words
/// are given.
#[unsafe(no_mangle)]
pub extern "C" fn g1_make_filled(
    heap: &mut Heap,
    policy: &mut CallerPolicy,
    mutator: u32,
    to: u32,
    from: &[u32],
    words: &[u64],
) -> Answer
    ensures { IsCall heap.old (MakeFilledCall policy.old.nil_on_full mutator to from.now words.now) result heap.new }
{
    if !heap.live {
        return no_heap();
    }
    let core = heap.handle.core_mut();
    let markings = &mut heap.markings;
    make_in(core, policy, mutator, to, from, words, markings)
}

/// The same as `g1_make_filled`, and the steps up to the object's own are noted.
#[unsafe(no_mangle)]
pub extern "C" fn g1_make_filled_noted(
    heap: &mut Heap,
    policy: &mut CallerPolicy,
    mutator: u32,
    to: u32,
    from: &[u32],
    words: &[u64],
    entries: &mut [Entry],
    count: &mut u32,
) -> Answer
    ensures { IsCall heap.old (MakeFilledCall policy.old.nil_on_full mutator to from.now words.now) result heap.new }
{
    *count = 0;
    if !heap.live {
        return no_heap();
    }
    make_noted(
        heap.handle.core_mut(),
        policy,
        mutator,
        to,
        from,
        words,
        &mut heap.markings,
        entries,
        count,
    )
}
