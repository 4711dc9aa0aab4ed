//! How a heap begins, and how it ends.

ghost use Rattle.std.specs.Prelude.{◌≡◌};
ghost use Rattle.heap_calls.specs.Numbers.{config_of, told};
ghost use Rattle.g1heap_c.specs.Calls.{FreeCall, IsCall, NewCall};

use heap_calls::answer::fault_code;
use heap_calls::handle::Handle;
use heap_calls::heap::{Heap, handle_of};
use heap_calls::making::{Sizes, boxed, config_of};
use std::alloc::Global;
use std::mem::replace;

/// The value itself, of a type of which it is proved that its values may pass from one thread to another, as C may do with a heap.
#[inline(always)]
fn sendable<T: Send>(value: T) -> T
    ensures { result ≡ value }
{
    value
}

/// Makes a heap of these sizes, in the place of none. The answer is 0, or why none was made.
#[unsafe(no_mangle)]
pub extern "C" fn g1_new(alloc: Global, heap: &mut Heap, sizes: &Sizes) -> u32
    ensures { IsCall heap.old (NewCall (config_of sizes.now)) (told result 0 0) heap.new }
{
    if heap.live {
        return 34;
    }
    match boxed(alloc, &config_of(sizes)) {
        Ok(core) => {
            *heap = sendable(Heap {
                live: true,
                handle: handle_of(core),
                markings: 0,
            });
            0
        }
        Err(fault) => fault_code(fault),
    }
}

/// Frees a heap, if it is one. There is none from then on.
#[unsafe(no_mangle)]
pub extern "C" fn g1_free(alloc: Global, heap: &mut Heap)
    ensures { IsCall heap.old FreeCall (told 0 0 0) heap.new }
{
    if !heap.live {
        return;
    }
    let none = Heap {
        live: false,
        handle: Handle::empty(alloc),
        markings: 0,
    };
    let Heap {
        live: _,
        handle,
        markings: _,
    } = replace(heap, none);
    drop(handle.into_loose().into_box());
}
