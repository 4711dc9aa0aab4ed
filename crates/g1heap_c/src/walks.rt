//! The objects that a heap keeps, and who names one, told one after another.

ghost use Rattle.g1heap_c.specs.Calls.{IsCall, WalkCall, WhoCall};

use heap_calls::answer::{Answer, no_heap};
use heap_calls::heap::Heap;
use heap_calls::walks::{find_on, walk_on};
use heap_walk::{Entry, Holder};

/// A buffer takes what is told of the objects that the heap keeps, from a cursor on, which goes on.
#[unsafe(no_mangle)]
pub extern "C" fn g1_walk(heap: &mut Heap, cursor: &mut u64, objects: &mut [Entry]) -> Answer
    ensures { IsCall heap.old (WalkCall cursor.old cursor.new objects.old objects.new) result heap.new }
{
    if !heap.live {
        return no_heap();
    }
    let core = heap.handle.core_mut();
    walk_on(core, cursor, objects)
}

/// A buffer takes who names the object of a name, from a cursor on, which goes on.
#[unsafe(no_mangle)]
pub extern "C" fn g1_who(
    heap: &mut Heap,
    name: u64,
    cursor: &mut u64,
    holders: &mut [Holder],
) -> Answer
    ensures { IsCall heap.old (WhoCall name cursor.old cursor.new holders.old holders.new) result heap.new }
{
    if !heap.live {
        return no_heap();
    }
    let core = heap.handle.core_mut();
    find_on(core, name, cursor, holders)
}
