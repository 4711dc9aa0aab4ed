//! Small sets of numbers, as bits in words of 64, all of which are written when a set is made.
//!
//! ```text
//!   number    0  1  2 ..  63 | 64 65 ..  127 | 128 ..
//!   bit       0  1  0 ..   1 |  0  0 ..    0 |   1 ..
//!             word 0         | word 1: none  | word 2
//! ```
//!
//! So no access looks for the page of a word, as it does in a set that may be large (`bits`). Who asks for the lowest number of
//! a group looks at one word, and to clear a set touches each.

ghost use Rattle.std.specs.Prelude.{◌≡◌, ◌+◌, ◌*◌, ◌^◌, ◌<◌, false, true, IfOk, IfSome, length, MatchOption, replicate, slice_set};
ghost use Rattle.bit_sets.specs.Bits.{has, HasNone, HasNoneBelow, IsLowest};

use crate::groups::{lowest_if_any, lowest_of};
use std::alloc::{AllocError, Global};
use std::marker::Model;

/// A set of numbers below a length that is given when it is made. Clauses see a flag for each number.
#[derive(Drop)]
pub struct SmallBits {
    words: Vec<u64>,
    len: u32,
}

impl Model for SmallBits {
    ghost use Rattle.std.specs.Prelude.{List, Bool, ◌≤◌, ◌*◌, length};
    ghost use Rattle.bit_sets.specs.BitWords.{flags_of};

    ghost Value = { List Bool };

    ghost view = { λ s. flags_of s.words.items s.len };

    ghost invariant = { λ s. s.len ≤ 64 * length s.words.items };
}

impl SmallBits {
    /// The empty set of the numbers below `count`. No call takes memory afterwards.
    pub fn new(alloc: Global, count: u32) -> Result<SmallBits, AllocError>
        ensures { IfOk result (λ bits. bits ≡ replicate count false) }
    {
        let words = vec![in alloc; 0; count.div_ceil(64) as usize]?;
        Ok(SmallBits { words, len: count })
    }

    /// Tells a proof what is known of each set: its numbers are below 2 to the 32nd. It does nothing.
    pub fn law(&self)
        ensures { length self.now < 2 ^ 32 }
    {
        let _len = self.len;
    }

    /// How many numbers there are, in the set or not.
    pub fn len(&self) -> u32
        ensures { result ≡ length self.now }
    {
        self.len
    }

    /// Whether a number is in the set.
    pub fn get(&self, number: u32) -> bool
        requires { number < length self.now }
        ensures { result ≡ has self.now number }
    {
        self.words[number as usize / 64] >> (number % 64) & 1 == 1
    }

    /// A number is in the set.
    pub fn set(&mut self, number: u32)
        requires { number < length self.old }
        ensures { self.new ≡ slice_set self.old number true }
    {
        self.words[number as usize / 64] |= 1 << (number % 64);
    }

    /// A number is not in the set.
    pub fn remove(&mut self, number: u32)
        requires { number < length self.old }
        ensures { self.new ≡ slice_set self.old number false }
    {
        self.words[number as usize / 64] &= !(1 << (number % 64));
    }

    /// The set is empty.
    pub fn clear(&mut self)
        ensures { self.new ≡ replicate (length self.old) false }
    {
        self.words.fill(0);
    }

    /// The lowest number of the set at or above `from`.
    pub fn next(&self, from: u32) -> Option<u32>
        ensures lowest { MatchOption result (HasNone (has self.now) from) (IsLowest (has self.now) from) }
        ensures within { IfSome result (λ found. found < length self.now) }
    {
        for index in from / 64..self.len.div_ceil(64) {
            let low = from.saturating_sub(64 * index);
            let word = self.words[index as usize] & u64::MAX << low;
            if word != 0 {
                return lowest_of(word, index, self.len);
            }
        }
        None
    }

    /// The lowest number of the set in a group: group g has the 64 numbers from 64 g on. It looks at one word.
    pub fn lowest_in(&self, group: u32) -> Option<u32>
        requires { 64 * group < length self.now }
        ensures lowest { MatchOption result (HasNoneBelow (has self.now) (64 * group) (64 * group + 64))
            (IsLowest (has self.now) (64 * group)) }
        ensures below { IfSome result (λ found. found < 64 * group + 64) }
        ensures within { IfSome result (λ found. found < length self.now) }
    {
        self.law();
        lowest_if_any(self.words[group as usize], group, self.len)
    }

    /// The lowest number of the set in a group that has one. It looks at one word, and tests nothing.
    #[inline(always)]
    pub fn first_in(&self, group: u32) -> u32
        requires known { 64 * group < length self.now }
        requires some { HasNoneBelow (has self.now) (64 * group) (64 * group + 64) → ⊥ }
        ensures lowest { IsLowest (has self.now) (64 * group) result }
        ensures below { result < 64 * group + 64 }
        ensures within { result < length self.now }
    {
        self.law();
        let word = self.words[group as usize];
        64 * group + word.trailing_zeros()
    }
}
