//! The card log of one mutator, and how it goes to the queue.

ghost use Rattle.std.specs.Prelude.{◌≡◌, ◌+◌, ◌≤◌, [], ◌++◌, length};
ghost use Rattle.std.specs.VecDeque.{deque_capacity, deque_len};

use heap_words::short_list::ShortList;
use std::collections::VecDeque;

/// How many cards a log holds when it goes to the queue.
pub(crate) const LOG_LEN: usize = 4;

/// Cards in the order in which they became dirty.
pub(crate) type CardLog = ShortList<LOG_LEN>;

/// All cards of a log go to the end of the queue, and the log is empty.
pub(crate) fn move_to(log: &mut CardLog, queue: &mut VecDeque<u32>)
    requires { deque_len queue.old + length log.old ≤ deque_capacity queue.old }
    ensures queue { queue.new.items ≡ queue.old.items ++ log.old }
    ensures capacity { deque_capacity queue.new ≡ deque_capacity queue.old }
    ensures emptied { log.new ≡ [] }
{
    append_all(queue, log.as_slice());
    log.clear();
}

/// The cards enter the queue at its end.
pub(crate) fn append_all(queue: &mut VecDeque<u32>, cards: &[u32])
    requires { deque_len queue.old + length cards.now ≤ deque_capacity queue.old }
    ensures queue { queue.new.items ≡ queue.old.items ++ cards.now }
    ensures capacity { deque_capacity queue.new ≡ deque_capacity queue.old }
{
    for card in cards {
        queue.push_back_reserved(*card);
    }
}
