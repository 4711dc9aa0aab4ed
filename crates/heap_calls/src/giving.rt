//! Memory that no region in use needs, given back to the system.

ghost use Rattle.std.specs.Prelude.{◌≡◌, ◌⊎◌, false, true};
ghost use Rattle.heap_calls.specs.Steps.{GivesBack, given_back};

use crate::answer::{Answer, done, no_heap, no_memory};
use crate::heap::Heap;
use std::alloc::Global;
use step_core::Core;

/// The memory above the highest region in use goes back to the system, unless what that asks for meanwhile is refused. The heap stays as it
/// is.
pub fn give_back(heap: &mut Heap, alloc: Global) -> Answer
    ensures gives { GivesBack true heap.old.handle.core result heap.new.handle.core
        ⊎ GivesBack false heap.old.handle.core result heap.new.handle.core }
    ensures same { heap.new.markings ≡ heap.old.markings }
{
    if !heap.live {
        return no_heap();
    }
    give_back_of(heap.handle.core_mut(), alloc)
}

/// The same of a core.
pub fn give_back_of(core: &mut Core, alloc: Global) -> Answer
    ensures given { (result ≡ given_back true) ⊎ (result ≡ given_back false) }
    ensures same { core.new ≡ core.old }
{
    match core.give_back(alloc) {
        Ok(()) => done(),
        Err(_) => no_memory(),
    }
}
