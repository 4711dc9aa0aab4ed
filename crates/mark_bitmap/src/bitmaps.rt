//! The two sets of marks of a heap, and their roles.
//!
//! ```text
//!                 begin                 remark                     begin
//!   previous  ----- A: what is kept ------|------ B: what is kept -----
//!   next      stale | B: cleared, grows --|-- A: stale, not read ----| A: cleared, grows
//! ```
//!
//! `remark` exchanges the roles. From then on what is kept is told by the marks just made.

ghost use Rattle.std.specs.Prelude.{◌≡◌, false, IfOk, replicate};

use crate::marks::Marks;
use std::alloc::{AllocError, Global};

/// The marks of the marking that is over, and of the one that runs or comes.
pub struct Bitmaps {
    pub previous: Marks,
    pub next: Marks,
}

/// Where it is let go there is one call, and not a drop for each of its parts.
impl Drop for Bitmaps {
    fn drop(self) {
        let Bitmaps {
            previous: _,
            next: _,
        } = self;
    }
}

impl Bitmaps {
    /// Both empty, for the addresses below `count`. No call takes memory afterwards.
    pub fn new(alloc: Global, count: u32) -> Result<Bitmaps, AllocError>
        ensures previous { IfOk result (λ both. both.previous ≡ replicate count false) }
        ensures next { IfOk result (λ both. both.next ≡ replicate count false) }
    {
        Ok(Bitmaps {
            previous: Marks::new(alloc, count)?,
            next: Marks::new(alloc, count)?,
        })
    }

    /// The memory of pages of marks that neither set has any longer goes back to the system. Both sets stay, and so does their room. Where
    /// the memory that this asks for meanwhile is refused, less goes back.
    pub fn give_back(&mut self, alloc: Global) -> Result<(), AllocError>
        ensures { self.new ≡ self.old }
    {
        self.previous.give_back(alloc)?;
        self.next.give_back(alloc)
    }

    /// The two exchange their roles.
    pub fn swap_roles(&mut self)
        ensures previous { self.new.previous ≡ self.old.next }
        ensures next { self.new.next ≡ self.old.previous }
    {
        std::mem::swap(&mut self.previous, &mut self.next);
    }
}
