//! Several data words in one call, between an object and a buffer of C's.

ghost use Rattle.g1heap_c.specs.Calls.{IsCall, ReadWordsCall, WriteWordsCall};

use heap_calls::answer::{Answer, no_heap};
use heap_calls::heap::Heap;
use heap_calls::words::{read, write};

/// A buffer takes data words of the object that `object` names, from one on: as many as it has.
#[unsafe(no_mangle)]
pub extern "C" fn g1_read_words(
    heap: &mut Heap,
    mutator: u32,
    object: u32,
    from: u32,
    out: &mut [u64],
) -> Answer
    ensures { IsCall heap.old (ReadWordsCall mutator object from out.old out.new) result heap.new }
{
    if !heap.live {
        return no_heap();
    }
    let core = heap.handle.core_mut();
    read(core, mutator, object, from, out)
}

/// Data words of the object that `object` names, from one on, take those of a buffer.
#[unsafe(no_mangle)]
pub extern "C" fn g1_write_words(
    heap: &mut Heap,
    mutator: u32,
    object: u32,
    from: u32,
    words: &[u64],
) -> Answer
    ensures { IsCall heap.old (WriteWordsCall mutator object from words.now) result heap.new }
{
    if !heap.live {
        return no_heap();
    }
    let core = heap.handle.core_mut();
    write(core, mutator, object, from, words)
}
