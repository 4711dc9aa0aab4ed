//! Several fields in one call, and registers one after another.

ghost use Rattle.heap_calls.specs.Rows.{Fill, FillWords, GetMany, PutMany};
ghost use Rattle.g1heap_c.specs.Calls.{IsCall, ManyCall};

use heap_calls::answer::{Answer, no_heap};
use heap_calls::heap::Heap;
use heap_calls::rows::{fill_pointers, fill_words, get_many, put_many};

/// Registers from `to` on take as many pointers of the object that `object` names, from one on.
#[unsafe(no_mangle)]
pub extern "C" fn g1_get_many(
    heap: &mut Heap,
    mutator: u32,
    to: u32,
    object: u32,
    field: u32,
    count: u32,
) -> Answer
    ensures { IsCall heap.old (ManyCall (GetMany mutator to object field count)) result heap.new }
{
    if !heap.live {
        return no_heap();
    }
    get_many(heap.handle.core_mut(), mutator, to, object, field, count)
}

/// Pointers of the object that `object` names, from one on, take what as many registers from `from` on hold.
#[unsafe(no_mangle)]
pub extern "C" fn g1_put_many(
    heap: &mut Heap,
    mutator: u32,
    object: u32,
    field: u32,
    from: u32,
    count: u32,
) -> Answer
    ensures { IsCall heap.old (ManyCall (PutMany mutator object field from count)) result heap.new }
{
    if !heap.live {
        return no_heap();
    }
    put_many(heap.handle.core_mut(), mutator, object, field, from, count)
}

/// Pointers of the object that `object` names, from one on, all take nil, or what a register holds.
#[unsafe(no_mangle)]
pub extern "C" fn g1_fill(
    heap: &mut Heap,
    mutator: u32,
    object: u32,
    field: u32,
    from: u32,
    count: u32,
) -> Answer
    ensures { IsCall heap.old (ManyCall (Fill mutator object field from count)) result heap.new }
{
    if !heap.live {
        return no_heap();
    }
    fill_pointers(heap.handle.core_mut(), mutator, object, field, from, count)
}

/// Data words of the object that `object` names, from one on, all take one word.
#[unsafe(no_mangle)]
pub extern "C" fn g1_fill_words(
    heap: &mut Heap,
    mutator: u32,
    object: u32,
    field: u32,
    value: u64,
    count: u32,
) -> Answer
    ensures { IsCall heap.old (ManyCall (FillWords mutator object field value count)) result heap.new }
{
    if !heap.live {
        return no_heap();
    }
    fill_words(heap.handle.core_mut(), mutator, object, field, value, count)
}
