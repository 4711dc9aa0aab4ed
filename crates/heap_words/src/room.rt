//! The memory that a list has taken beyond its items, given back to the system.
//!
//! ```text
//!   list         items | taken once, and not needed      | never touched |
//!   spare list   never touched                                           |   room for all, asked for first
//!   list         items |                                                     cut: the system has the rest
//!   list         items | never touched                                   |   room for all again; the spare list goes
//! ```
//!
//! Where that room is refused the items move to the spare list. So nothing can fail once memory is given back, and items are copied
//! only then: malloc cuts and lengthens a large block in place.

ghost use Rattle.std.specs.Prelude.{◌≡◌, ◌≤◌, vec_capacity};

use std::alloc::{AllocError, Global};

/// The memory beyond the items goes back to the system, and there is room for so many items still. Where the memory for the spare list
/// is refused, none goes back.
pub fn give_back<T: Copy>(alloc: Global, items: &mut Vec<T>, room: usize) -> Result<(), AllocError>
    requires { room ≤ vec_capacity items.old }
    ensures items { items.new.items ≡ items.old.items }
    ensures room { room ≤ vec_capacity items.new }
{
    let len = items.len();
    let all = room.max(len);
    let mut spare = Vec::with_capacity(alloc, all)?;
    // An empty list keeps a place: malloc would free its block, and take the next one from where it gives nothing back.
    items.shrink_to(len.max(1));
    if items.reserve_exact(all - len).is_err() {
        spare.extend_from_slice(items).unwrap();
        *items = spare;
    }
    Ok(())
}
