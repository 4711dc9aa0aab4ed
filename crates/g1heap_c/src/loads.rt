//! A pointer that is loaded, and a data word of the object that it leads to, in one call.

ghost use Rattle.g1heap_c.specs.Calls.{GetWordCall, IsCall};

use heap_calls::answer::{Answer, no_heap};
use heap_calls::heap::Heap;
use heap_calls::loads::get_word;

/// `to` takes a pointer of the object that `object` names, and a data word of the object that it leads to is told.
#[unsafe(no_mangle)]
pub extern "C" fn g1_get_word(
    heap: &mut Heap,
    mutator: u32,
    to: u32,
    object: u32,
    field: u32,
    word: u32,
) -> Answer
    ensures { IsCall heap.old (GetWordCall mutator to object field word) result heap.new }
{
    if !heap.live {
        return no_heap();
    }
    get_word(heap.handle.core_mut(), mutator, to, object, field, word)
}
