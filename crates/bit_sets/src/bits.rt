//! Sets of numbers, as bits in words of 64.
//!
//! ```text
//!   number    0  1  2 ..  63 | 64 65 ..  127 | 128 ..
//!   bit       0  1  0 ..   1 |  0  0 ..    0 |   1 ..
//!             word 0         | word 1: none  | word 2
//!                next(2) = 63                next(64) = 128, without a look at each number
//!                                            next_below(64, 128): none, without a look at word 2
//! ```
//!
//! A set takes one bit a number. Room for all is reserved when it is made, and none of it touched: the words are in pages of 512, which are
//! written when the first number of theirs comes (`pages`), so of a large set costs what is used, wherever that is. To clear a range of it
//! touches the range's words and not each number, to clear it whole none, and to go over its members costs the members, the words of the
//! pages that have some, and a look at each other page. A set of few numbers, which isn't to pay for that look, is a `SmallBits`.

ghost use Rattle.std.specs.Prelude.{◌≡◌, ◌+◌, ◌*◌, ◌/◌, ◌^◌, ◌<◌, ◌≤◌, ◌||◌, ◌&&◌, if◌then◌else◌};
ghost use Rattle.std.specs.Prelude.{ℕ, count_by, false, true, IfOk, IfSome, length, MatchOption, not, replicate, slice_set};
ghost use Rattle.std.specs.List.{range_with_len};
ghost use Rattle.bit_sets.specs.Bits.{has, has_alone, is_between, is_passing, HasNone, HasNoneBelow, IsLowest};

use crate::groups::{count_bits, join_bits, lowest_if_any, lowest_of, put_bits, whole_word};
use crate::pages::{PAGE, PagedWords};
use std::alloc::{AllocError, Global};
use std::marker::Model;

/// A set of numbers below a length that is given when it is made. Clauses see a flag for each number.
pub struct Bits {
    /// The words of the groups, in pages that are taken as they are reached.
    words: PagedWords,
    len: u32,
}

impl Model for Bits {
    ghost use Rattle.std.specs.Prelude.{List, Bool, ◌≤◌, ◌*◌, length};
    ghost use Rattle.bit_sets.specs.BitWords.{flags_of};

    ghost Value = { List Bool };

    ghost view = { λ s. flags_of s.words s.len };

    ghost invariant = { λ s. s.len ≤ 64 * length s.words };
}

/// Where it is let go there is one call, and not a drop for each of its parts.
impl Drop for Bits {
    fn drop(self) {
        let Bits { words: _, len: _ } = self;
    }
}

impl Bits {
    /// The empty set of the numbers below `count`. No call takes memory afterwards.
    pub fn new(alloc: Global, count: u32) -> Result<Bits, AllocError>
        ensures { IfOk result (λ bits. bits ≡ replicate count false) }
    {
        let words = PagedWords::new(alloc, count.div_ceil(64))?;
        Ok(Bits { words, len: count })
    }

    /// Tells a proof what is known of each set: its numbers are below 2 to the 32nd. It does nothing.
    pub fn law(&self)
        ensures { length self.now < 2 ^ 32 }
    {
        let _len = self.len;
    }

    /// How many numbers there are, in the set or not.
    pub fn len(&self) -> u32
        ensures { result ≡ length self.now }
    {
        self.len
    }

    /// Whether a number is in the set.
    #[inline(always)]
    pub fn get(&self, number: u32) -> bool
        requires { number < length self.now }
        ensures { result ≡ has self.now number }
    {
        self.words.get(number / 64) >> (number % 64) & 1 == 1
    }

    /// A number is in the set.
    #[inline(always)]
    pub fn set(&mut self, number: u32)
        requires { number < length self.old }
        ensures { self.new ≡ slice_set self.old number true }
    {
        self.words.join(number / 64, 1 << (number % 64));
    }

    /// A number comes into the set. Whether it wasn't there.
    #[inline(always)]
    pub fn insert(&mut self, number: u32) -> bool
        requires { number < length self.old }
        ensures came { result ≡ not (has self.old number) }
        ensures same { result ≡ false → self.new ≡ self.old }
        ensures set { self.new ≡ slice_set self.old number true }
    {
        self.words.insert(number / 64, number % 64)
    }

    /// A number is not in the set.
    pub fn remove(&mut self, number: u32)
        requires { number < length self.old }
        ensures { self.new ≡ slice_set self.old number false }
    {
        self.words.keep(number / 64, !(1 << (number % 64)));
    }

    /// The set is empty: none of the pages of its words counts as taken any more, and none of its words is touched.
    pub fn clear(&mut self)
        ensures { self.new ≡ replicate (length self.old) false }
    {
        self.words.clear();
    }

    /// The memory of pages that the set had before it was cleared, and no longer has, goes back to the system. The set stays, and so does
    /// its room. Where the memory that this asks for meanwhile is refused, none goes back.
    pub fn give_back(&mut self, alloc: Global) -> Result<(), AllocError>
        ensures { self.new ≡ self.old }
    {
        self.words.give_back(alloc)
    }

    /// The numbers of whole groups, from one up to another, which is not one of them, are in the set, or they aren't.
    fn put_groups(&mut self, first: u32, past: u32, value: bool)
        requires order { first < past }
        requires within { 64 * past ≤ length self.old }
        ensures len { length self.new ≡ length self.old }
        ensures flags { (a : ℕ) → has self.new a ≡ (if is_between (64 * first) (64 * past) a then value else has self.old a) }
    {
        self.words.fill(first, past, whole_word(value));
    }

    /// The numbers from `from` up to `to`, which is not one of them, are in the set, or they aren't: word by word, by the bits of each.
    #[inline(always)]
    fn put_part(&mut self, from: u32, to: u32, value: bool)
        requires { to ≤ length self.old }
        ensures len { length self.new ≡ length self.old }
        ensures flags { (a : ℕ) → has self.new a ≡ (if is_between from to a then value else has self.old a) }
    {
        put_bits(&mut self.words, from, to, value);
    }

    /// The same. Words whose numbers all are in the range are written whole.
    #[inline(always)]
    fn put_range(&mut self, from: u32, to: u32, value: bool)
        requires { to ≤ length self.old }
        ensures len { length self.new ≡ length self.old }
        ensures flags { (a : ℕ) → has self.new a ≡ (if is_between from to a then value else has self.old a) }
    {
        let first = from.div_ceil(64);
        let past = to / 64;
        if first < past {
            self.put_part(from, 64 * first, value);
            self.put_groups(first, past, value);
            self.put_part(64 * past, to, value);
        } else {
            self.put_part(from, to, value);
        }
    }

    /// The numbers from `from` up to `to`, which is not one of them, are in the set.
    pub fn set_range(&mut self, from: u32, to: u32)
        requires { to ≤ length self.old }
        ensures len { length self.new ≡ length self.old }
        ensures flags { (a : ℕ) → has self.new a ≡ (if is_between from to a then true else has self.old a) }
    {
        self.put_range(from, to, true);
    }

    /// The members of another set of as many numbers, of those from `from` up to `to`, which is not one of them, come into this one. It
    /// looks at the words of this range alone.
    pub fn set_members(&mut self, members: &Bits, from: u32, to: u32)
        requires within { to ≤ length self.old }
        requires even { length members.now ≡ length self.old }
        ensures len { length self.new ≡ length self.old }
        ensures flags { (a : ℕ) → has self.new a ≡ (has self.old a || (is_between from to a && has members.now a)) }
    {
        join_bits(&mut self.words, &members.words, from, to);
    }

    /// Of the 64 numbers of a group those come into this set that are members of another set of as many numbers, and whose places in two
    /// groups of a filter both are taken. It looks at one word of each.
    pub fn set_passing(
        &mut self,
        members: &Bits,
        filter: &Bits,
        group: u32,
        first: u32,
        second: u32,
    )
        requires within { 64 * group + 64 ≤ length self.old }
        requires even { length members.now ≡ length self.old }
        requires first { 64 * first + 64 ≤ length filter.now }
        requires second { 64 * second + 64 ≤ length filter.now }
        ensures len { length self.new ≡ length self.old }
        ensures flags { (a : ℕ) → has self.new a ≡ (has self.old a || (is_between (64 * group) (64 * group + 64) a
            && (has members.now a && is_passing filter.now first second a))) }
    {
        let passing = filter.words.get(first) & filter.words.get(second);
        let more = members.words.get(group) & passing;
        if more != 0 {
            self.words.join(group, more);
        }
    }

    /// How many numbers from `from` up to `to`, which is not one of them, are in the set. It looks at the words of this range alone.
    pub(crate) fn count_between(&self, from: u32, to: u32) -> u32
        requires { to ≤ length self.now }
        ensures { result ≡ count_by (λ a. is_between from to a && has self.now a) (range_with_len 0 to) }
    {
        count_bits(&self.words, from, to)
    }

    /// The numbers from `from` up to `to`, which is not one of them, are not in the set. Where it is whole words of one page that is a look
    /// at the page's place and one fill.
    #[inline(never)]
    pub fn clear_range(&mut self, from: u32, to: u32)
        requires { to ≤ length self.old }
        ensures len { length self.new ≡ length self.old }
        ensures flags { (a : ℕ) → has self.new a ≡ (if is_between from to a then false else has self.old a) }
    {
        if from >= to {
            return;
        }
        if from % 64 == 0 {
            if to % 64 == 0 {
                if from / 64 / PAGE == (to / 64 - 1) / PAGE {
                    self.clear_groups(from / 64, to / 64);
                    return;
                }
            }
        }
        self.clear_any(from, to);
    }

    /// The same, of any numbers.
    #[inline(never)]
    fn clear_any(&mut self, from: u32, to: u32)
        requires { to ≤ length self.old }
        ensures len { length self.new ≡ length self.old }
        ensures flags { (a : ℕ) → has self.new a ≡ (if is_between from to a then false else has self.old a) }
    {
        self.put_range(from, to, false);
    }

    /// The numbers of whole groups of one page, from one up to another, which is not one of them, are not in the set.
    #[inline(always)]
    fn clear_groups(&mut self, first: u32, past: u32)
        requires order { first < past }
        requires page { past ≤ 512 * (first / 512) + 512 }
        requires within { 64 * past ≤ length self.old }
        ensures len { length self.new ≡ length self.old }
        ensures flags { (a : ℕ) → has self.new a ≡ (if is_between (64 * first) (64 * past) a then false else has self.old a) }
    {
        self.words.clear_between(first, past);
    }

    /// Whether no number came into the set since it was made or cleared: then it is empty, and if not, it may be. It costs one look.
    #[inline(always)]
    pub fn is_untouched(&self) -> bool
        ensures { result ≡ true → self.now ≡ replicate (length self.now) false }
    {
        self.words.is_untouched()
    }

    /// The lowest number of the set at or above `from`.
    pub fn next(&self, from: u32) -> Option<u32>
        ensures lowest { MatchOption result (HasNone (has self.now) from) (IsLowest (has self.now) from) }
        ensures within { IfSome result (λ found. found < length self.now) }
    {
        self.next_below(from, self.len)
    }

    /// The lowest number of the set at or above `from` and below `to`. It looks at the words of this range alone. Where members stand
    /// in a row it looks at one bit for the next one.
    pub fn next_below(&self, from: u32, to: u32) -> Option<u32>
        ensures lowest { MatchOption result (HasNoneBelow (has self.now) from to) (IsLowest (has self.now) from) }
        ensures below { IfSome result (λ found. found < to) }
        ensures within { IfSome result (λ found. found < length self.now) }
    {
        let end = to.min(self.len);
        if from < end {
            if self.get(from) {
                return Some(from);
            }
        }
        self.search_below(from, to)
    }

    /// The same, word by word.
    #[inline(always)]
    pub(crate) fn search_below(&self, from: u32, to: u32) -> Option<u32>
        ensures lowest { MatchOption result (HasNoneBelow (has self.now) from to) (IsLowest (has self.now) from) }
        ensures below { IfSome result (λ found. found < to) }
        ensures within { IfSome result (λ found. found < length self.now) }
    {
        let end = to.min(self.len);
        if end <= from {
            return None;
        }
        let group = from / 64;
        let word = self.words.get(group) & u64::MAX << (from % 64);
        if word != 0 {
            return lowest_of(word, group, end);
        }
        let past = end.div_ceil(64);
        let next = self.words.next_written(group + 1, past);
        if next < past {
            return lowest_of(self.words.get_some(next), next, end);
        }
        None
    }

    /// The lowest number of the group of `number` that is in this set and not in `other`, which has `number`: so the page of
    /// that one's word is taken.
    #[inline(always)]
    pub fn lowest_left(&self, other: &Bits, number: u32) -> Option<u32>
        requires known { number < length self.now }
        requires even { length other.now ≡ length self.now }
        requires there { has other.now number ≡ true }
        ensures lowest { MatchOption result
            (HasNoneBelow (has_alone self.now other.now) (64 * (number / 64)) (64 * (number / 64) + 64))
            (IsLowest (has_alone self.now other.now) (64 * (number / 64))) }
        ensures below { IfSome result (λ found. found < 64 * (number / 64) + 64) }
        ensures within { IfSome result (λ found. found < length self.now) }
    {
        self.law();
        let group = number / 64;
        let word = self.words.get(group) & !other.words.get_some(group);
        lowest_if_any(word, group, self.len)
    }

    /// The lowest number of a group that is in this set and not in `other`. It looks at one word of each.
    pub fn lowest_without(&self, other: &Bits, group: u32) -> Option<u32>
        requires known { 64 * group < length self.now }
        requires even { length other.now ≡ length self.now }
        ensures lowest { MatchOption result
            (HasNoneBelow (has_alone self.now other.now) (64 * group) (64 * group + 64))
            (IsLowest (has_alone self.now other.now) (64 * group)) }
        ensures below { IfSome result (λ found. found < 64 * group + 64) }
        ensures within { IfSome result (λ found. found < length self.now) }
    {
        self.law();
        let word = self.words.get(group) & !other.words.get(group);
        lowest_if_any(word, group, self.len)
    }

    /// The lowest number at or above `from` and below `to` that is in this set and not in `other`. It looks at the words
    /// of this range alone.
    #[inline(never)]
    pub fn next_without(&self, other: &Bits, from: u32, to: u32) -> Option<u32>
        requires { length other.now ≡ length self.now }
        ensures lowest { MatchOption result (HasNoneBelow (has_alone self.now other.now) from to)
            (IsLowest (has_alone self.now other.now) from) }
        ensures below { IfSome result (λ found. found < to) }
        ensures within { IfSome result (λ found. found < length self.now) }
    {
        let end = to.min(self.len);
        let past = end.div_ceil(64);
        let mut index = from / 64;
        while index < past {
            index = self.words.next_written(index, past);
            if index < past {
                let low = from.saturating_sub(64 * index);
                let word = self.words.get_some(index) & !other.words.get(index) & u64::MAX << low;
                if word != 0 {
                    return lowest_of(word, index, end);
                }
                index += 1;
            }
        }
        None
    }
}
