//! A shortest way from a root to an object.

ghost use Rattle.std.specs.Prelude.{◌⊎◌, false, true};
ghost use Rattle.g1heap_c.specs.Calls.{IsCall, PathCall};

use heap_calls::answer::{Answer, no_heap};
use heap_calls::heap::Heap;
use heap_calls::paths::path_on;
use heap_walk::Holder;

/// A buffer takes a shortest way from a root to the object of a name.
#[unsafe(no_mangle)]
pub extern "C" fn g1_path(heap: &mut Heap, name: u64, way: &mut [Holder]) -> Answer
    ensures { IsCall heap.old (PathCall name true way.old way.new) result heap.new
        ⊎ IsCall heap.old (PathCall name false way.old way.new) result heap.new }
{
    if !heap.live {
        return no_heap();
    }
    let core = heap.handle.core_mut();
    path_on(core, name, way)
}
