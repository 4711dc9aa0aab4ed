//! Lists of fixed room.
//!
//! ```text
//!   new   | . . . . |      push(16), push(40)   | 16 40 . . |      up to as many as there is room for: full
//! ```

ghost use Rattle.std.specs.Prelude.{◌≡◌, ◌<◌, ◌≤◌, [], ◌∷◌, ◌++◌, ◌==◌, Some, length, slice_get};

use arrayvec::ArrayVec;
use std::marker::Model;

/// Numbers in the order in which they entered, at most as many as it has room for: a log of cards that became dirty, a log of addresses
/// that marking has to see, or the first cards of a set. They are in the value, so no call takes memory. Clauses see the list of them.
#[derive(Drop)]
pub struct ShortList<const ROOM: usize> {
    numbers: ArrayVec<u32, ROOM>,
}

impl<const ROOM: usize> Model for ShortList<ROOM> {
    ghost use Rattle.std.specs.Prelude.{List, ℕ};

    ghost Value = { List ℕ };

    ghost view = { λ list. list.numbers.items };
}

impl<const ROOM: usize> ShortList<ROOM> {
    /// The empty list.
    pub fn new() -> Self
        ensures { result ≡ [] }
    {
        ShortList {
            numbers: ArrayVec::new(),
        }
    }

    /// How many numbers are in the list.
    pub fn len(&self) -> usize
        ensures value { result ≡ length self.now }
        ensures at_most { result ≤ ROOM }
    {
        self.numbers.len()
    }

    /// Whether there is no room for another number.
    pub fn is_full(&self) -> bool
        ensures full { result ≡ (length self.now == ROOM) }
        ensures at_most { length self.now ≤ ROOM }
    {
        self.len() == ROOM
    }

    /// The numbers, in the order in which they entered.
    pub fn as_slice(&self) -> &[u32]
        ensures { result.now ≡ self.now }
    {
        self.numbers.as_slice()
    }

    /// The number at a place, in that order.
    pub fn get(&self, place: usize) -> u32
        requires { place < length self.now }
        ensures { slice_get self.now place ≡ Some result }
    {
        self.numbers.as_slice()[place]
    }

    /// A number enters at the end.
    #[inline(always)]
    pub fn push(&mut self, number: u32)
        requires { length self.old < ROOM }
        ensures { self.new ≡ self.old ++ number ∷ [] }
    {
        self.numbers.push(number);
    }

    /// The list is empty.
    pub fn clear(&mut self)
        ensures { self.new ≡ [] }
    {
        self.numbers.clear();
    }
}
