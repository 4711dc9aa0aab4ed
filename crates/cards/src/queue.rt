//! The memory of the queue's free places, given back to the system.
//!
//! ```text
//!   queue        .. free | 7 2 9 | free, written before | never touched
//!   spare queue  never touched                                            room for all cards, asked for first
//!   queue        7 2 9 |                                                  cut: the system has the rest
//!   queue        7 2 9 | never touched                                  | room for all again; the spare one goes
//! ```
//!
//! Where that room is refused the cards move to the spare queue: so nothing can fail once memory is given back.

ghost use Rattle.std.specs.Prelude.{◌≡◌, ◌≤◌};
ghost use Rattle.std.specs.VecDeque.{deque_capacity};

use crate::log::append_all;
use std::alloc::{AllocError, Global};
use std::collections::VecDeque;

/// The memory beyond the cards goes back to the system, and there is room for so many cards still. Where the memory for the spare queue is
/// refused, none goes back.
pub(crate) fn give_back(
    alloc: Global,
    queue: &mut VecDeque<u32>,
    room: usize,
) -> Result<(), AllocError>
    requires { room ≤ deque_capacity queue.old }
    ensures items { queue.new.items ≡ queue.old.items }
    ensures room { room ≤ deque_capacity queue.new }
{
    let len = queue.len();
    let all = room.max(len);
    let mut spare = VecDeque::with_capacity(alloc, all)?;
    // An empty queue keeps a place: malloc would free its block, and take the next one from where it gives nothing back.
    queue.shrink_to(len.max(1));
    if queue.reserve_exact(all - len).is_err() {
        let (front, back) = queue.as_slices();
        append_all(&mut spare, front);
        append_all(&mut spare, back);
        *queue = spare;
    }
    Ok(())
}
