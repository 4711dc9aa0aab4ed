//! Sets of numbers that know between which bounds their members are.
//!
//! ```text
//!   number     0 ..                 low                  high                 len
//!   members    none                 some, or none        none
//! ```
//!
//! To clear such a set, or to go over its members, touches the words between the bounds alone: of a set that is large and that
//! few members come into, few words. The bounds widen as members come, and close when the set is cleared.

ghost use Rattle.std.specs.Prelude.{◌≡◌, ◌+◌, ◌*◌, ◌^◌, ◌<◌, ◌≤◌, ◌||◌, ◌&&◌, if◌then◌else◌};
ghost use Rattle.std.specs.Prelude.{ℕ, count_by, max, false, true, IfOk, IfSome, length, MatchOption, replicate, slice_set};
ghost use Rattle.bit_sets.specs.Bits.{has, is_between, is_passing, HasNone, IsLowest};

use crate::bits::Bits;
use std::alloc::{AllocError, Global};
use std::marker::Model;

/// A set of numbers below a length that is given when it is made. Clauses see a flag for each number.
#[derive(Drop)]
pub struct BoundedBits {
    bits: Bits,
    low: u32,
    high: u32,
}

impl Model for BoundedBits {
    ghost use Rattle.std.specs.Prelude.{List, Bool};
    ghost use Rattle.bit_sets.specs.Bounded.{AreWithin};

    ghost Value = { List Bool };

    ghost view = { λ s. s.bits };

    ghost invariant = { λ s. AreWithin s.bits s.low s.high };
}

/// Bounds that take in the numbers from `from` up to `to`, which is not one of them, beside those that they had.
fn widened(low: u32, high: u32, from: u32, to: u32) -> (u32, u32)
    ensures more { from < to → (result.0 ≤ from) × (to ≤ result.1) }
    ensures old { low < high → (result.0 ≤ low) × (high ≤ result.1) }
    ensures no_more { result.1 ≤ max high to }
{
    (low.min(from), high.max(to))
}

impl BoundedBits {
    /// The empty set of the numbers below `count`. No call takes memory afterwards.
    pub fn new(alloc: Global, count: u32) -> Result<BoundedBits, AllocError>
        ensures { IfOk result (λ bits. bits ≡ replicate count false) }
    {
        let bits = Bits::new(alloc, count)?;
        Ok(BoundedBits {
            bits,
            low: u32::MAX,
            high: 0,
        })
    }

    /// Tells a proof what is known of each set: its numbers are below 2 to the 32nd. It does nothing.
    pub fn law(&self)
        ensures { length self.now < 2 ^ 32 }
    {
        self.bits.law();
    }

    /// How many numbers there are, in the set or not.
    pub fn len(&self) -> u32
        ensures { result ≡ length self.now }
    {
        self.bits.len()
    }

    /// Whether a number is in the set.
    pub fn get(&self, number: u32) -> bool
        requires { number < length self.now }
        ensures { result ≡ has self.now number }
    {
        self.bits.get(number)
    }

    /// A number is in the set.
    pub fn set(&mut self, number: u32)
        requires { number < length self.old }
        ensures { self.new ≡ slice_set self.old number true }
    {
        self.bits.law();
        let (low, high) = widened(self.low, self.high, number, number + 1);
        self.bits.set(number);
        self.low = low;
        self.high = high;
    }

    /// The set is empty.
    pub fn clear(&mut self)
        ensures { self.new ≡ replicate (length self.old) false }
    {
        self.bits.clear_range(self.low, self.high);
        self.low = u32::MAX;
        self.high = 0;
    }

    /// The numbers from `from` up to `to`, which is not one of them, are in the set.
    pub fn set_range(&mut self, from: u32, to: u32)
        requires { to ≤ length self.old }
        ensures len { length self.new ≡ length self.old }
        ensures flags { (a : ℕ) → has self.new a ≡ (if is_between from to a then true else has self.old a) }
    {
        let (low, high) = widened(self.low, self.high, from, to);
        self.bits.set_range(from, to);
        self.low = low;
        self.high = high;
    }

    /// The members of another set of as many numbers, of those from `from` up to `to`, which is not one of them, come into this one.
    pub fn set_members(&mut self, members: &Bits, from: u32, to: u32)
        requires within { to ≤ length self.old }
        requires even { length members.now ≡ length self.old }
        ensures len { length self.new ≡ length self.old }
        ensures flags { (a : ℕ) → has self.new a ≡ (has self.old a || (is_between from to a && has members.now a)) }
    {
        let Some(first) = members.next_below(from, to) else {
            return;
        };
        let (low, high) = widened(self.low, self.high, first, to);
        self.bits.set_members(members, first, to);
        self.low = low;
        self.high = high;
    }

    /// Of the 64 numbers of a group those come into this set that are members of another set of as many numbers, and whose places in two
    /// groups of a filter both are taken.
    pub fn set_passing(
        &mut self,
        members: &Bits,
        filter: &Bits,
        group: u32,
        first: u32,
        second: u32,
    )
        requires within { 64 * group + 64 ≤ length self.old }
        requires even { length members.now ≡ length self.old }
        requires first { 64 * first + 64 ≤ length filter.now }
        requires second { 64 * second + 64 ≤ length filter.now }
        ensures len { length self.new ≡ length self.old }
        ensures flags { (a : ℕ) → has self.new a ≡ (has self.old a || (is_between (64 * group) (64 * group + 64) a
            && (has members.now a && is_passing filter.now first second a))) }
    {
        self.bits.law();
        let (low, high) = widened(self.low, self.high, 64 * group, 64 * group + 64);
        self.bits.set_passing(members, filter, group, first, second);
        self.low = low;
        self.high = high;
    }

    /// The numbers from `from` up to `to`, which is not one of them, are not in the set. It touches nothing outside the
    /// bounds.
    pub fn clear_range(&mut self, from: u32, to: u32)
        requires { to ≤ length self.old }
        ensures len { length self.new ≡ length self.old }
        ensures flags { (a : ℕ) → has self.new a ≡ (if is_between from to a then false else has self.old a) }
    {
        if self.high <= from {
            return;
        }
        if to <= self.low {
            return;
        }
        self.bits.clear_range(from, to);
    }

    /// The lowest number of the set at or above `from`. Where members are in a row it looks at one bit for the next one, and above the
    /// highest one at nothing.
    #[inline(always)]
    pub fn next(&self, from: u32) -> Option<u32>
        ensures lowest { MatchOption result (HasNone (has self.now) from) (IsLowest (has self.now) from) }
        ensures within { IfSome result (λ found. found < length self.now) }
    {
        if self.high <= from {
            return None;
        }
        self.next_below_high(from)
    }

    /// The same, below the highest bound.
    #[inline(never)]
    fn next_below_high(&self, from: u32) -> Option<u32>
        requires { from < length self.now }
        ensures lowest { MatchOption result (HasNone (has self.now) from) (IsLowest (has self.now) from) }
        ensures within { IfSome result (λ found. found < length self.now) }
    {
        if self.bits.get(from) {
            return Some(from);
        }
        self.bits.search_below(from.max(self.low), self.high)
    }

    /// How many numbers are in the set. It looks at the words between the lowest and the highest of them, 64 numbers at once.
    pub fn count(&self) -> u32
        ensures { result ≡ count_by (λ is_in. is_in) self.now }
    {
        self.bits.count_between(self.low, self.high)
    }
}
