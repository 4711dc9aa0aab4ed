//! A core as C keeps it: a pointer to its box, or nothing.

ghost use Rattle.std.specs.Prelude.{◌≡◌, Option, Some, None, true};
ghost use Rattle.step_core.specs.Stands.{CoreState};
ghost use Rattle.heap_calls.specs.Held.{is_held};

use crate::loose::Loose;
use std::alloc::Global;
use std::marker::Model;
use step_core::Core;

/// Where the core stands, which is a box of its own.
#[repr(C)]
#[derive(Drop)]
pub struct Handle {
    at: *mut u8,
    alloc: Global,
    pub ghost core: { Option CoreState },
}

impl Model for Handle {
    ghost use Rattle.heap_calls.specs.Held.{held};

    ghost also_owns = { λ h. held h.at h.alloc h.core };
}

impl Handle {
    ghost use Rattle.std.specs.Borrow.{sem};
    ghost use Rattle.heap_calls.specs.Lending.{LendsCore};

    /// Lends the core where it is.
    #[inline(always)]
    pub fn core_mut(&mut self) -> &mut Core
        requires { is_held self.old.core ≡ true }
        ensures* writes_back { sem 𝓛 (LendsCore self.entry result) }
        ensures value { self.old.core ≡ Some result.now }
    {
        unsafe { &mut *(self.at as *mut Core) }
    }

    /// A handle of the core in a box.
    pub fn of(loose: Loose<Core, Global>) -> Handle
        ensures { result.core ≡ Some loose.value }
    {
        let Loose { at, alloc } = loose;
        Handle {
            at: at as *mut u8,
            alloc,
        }
    }

    /// The box of the core that is there.
    pub fn into_loose(self) -> Loose<Core, Global>
        requires { is_held self.core ≡ true }
        ensures { self.core ≡ Some result.value }
    {
        let Handle { at, alloc } = self;
        Loose {
            at: at as *mut Core,
            alloc,
        }
    }

    /// A handle of no core.
    pub fn empty(alloc: Global) -> Handle
        ensures { result.core ≡ None }
    {
        Handle {
            at: std::ptr::null_mut(),
            alloc,
        }
    }
}

// C may pass a heap from one thread to another.
unsafe impl Send for Handle {}
