//! A new object with its fields, in one call.

ghost use Rattle.g1heap_c.specs.Calls.{NewFilledCall, IsCall};

use heap_calls::answer::{Answer, no_heap};
use heap_calls::filled::make;
use heap_calls::heap::Heap;

/// `to` takes a new object, whose pointers are what registers hold, or nil, and whose data words are given.
#[unsafe(no_mangle)]
pub extern "C" fn g1_new_filled(
    heap: &mut Heap,
    mutator: u32,
    to: u32,
    from: &[u32],
    words: &[u64],
) -> Answer
    ensures { IsCall heap.old (NewFilledCall mutator to from.now words.now) result heap.new }
{
    if !heap.live {
        return no_heap();
    }
    make(heap.handle.core_mut(), mutator, to, from, words)
}
