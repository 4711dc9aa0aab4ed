//! The words of a set of numbers: each holds a group of 64.
//!
//! ```text
//!   word      0          1          2          3 ..
//!   bits      0 1 .. 1   0 0 .. 0   0 1 .. 0   its page isn't taken: no number of these groups is in the set
//!             number 1   64         129        193 is asked for: no          193 comes: its page is taken, the bit is set
//! ```
//!
//! The words are in pages (`pages`). What brings numbers into a set takes the pages of their groups. What takes numbers out of it, and what
//! looks for some, takes none.

ghost use Rattle.std.specs.Prelude.{◌≡◌, ◌+◌, ◌*◌, ◌^◌, ◌<◌, ◌≤◌, ◌⊎◌, ◌||◌, ◌&&◌, if◌then◌else◌};
ghost use Rattle.std.specs.Prelude.{ℕ, ◌-◌, bit_and, bit_or, count_by, length, slice_index, slice_set, IfSome, MatchOption};
ghost use Rattle.std.specs.Int.{bit_at, div_ceil, trailing_zeros, w64};
ghost use Rattle.std.specs.List.{range_with_len};
ghost use Rattle.bit_sets.specs.Bits.{is_between};
ghost use Rattle.bit_sets.specs.BitWords.{bit_of};

use crate::pages::PagedWords;

/// The bits of a word that stand for numbers from `from` up to `to`, which is not one of them. The word's first bit stands
/// for 64 times its index.
fn mask_of(index: u32, from: u32, to: u32) -> u64
    requires starts { from < 64 * index + 64 }
    requires ends { 64 * index < to }
    ensures { (j : ℕ) → j < 64 → bit_at result j ≡ (if is_between from to (64 * index + j) then 1 else 0) }
{
    let low = from.saturating_sub(64 * index);
    let high = (to - 64 * index).min(64);
    u64::MAX << low & u64::MAX >> (64 - high)
}

/// The word of a group whose numbers all are in the set, or none of them.
pub(crate) fn whole_word(value: bool) -> u64
    ensures { (j : ℕ) → j < 64 → bit_at result j ≡ (if value then 1 else 0) }
{
    if value { u64::MAX } else { 0 }
}

/// The bits of a mask are 1 in a group's word, or 0.
#[inline(always)]
fn put_word(words: &mut PagedWords, index: u32, mask: u64, value: bool)
    requires { index < length words.old }
    ensures { words.new ≡ slice_set words.old index (if value then bit_or (slice_index words.old index) mask
        else bit_and (slice_index words.old index) (2 ^ 64 - 1 - mask)) }
{
    if value {
        words.join(index, mask);
    } else {
        words.keep(index, !mask);
    }
}

/// The numbers from `from` up to `to`, which is not one of them, are in the set, or they aren't: word by word, by the bits of each.
#[inline(always)]
pub(crate) fn put_bits(words: &mut PagedWords, from: u32, to: u32, value: bool)
    requires { div_ceil to 64 ≤ length words.old }
    ensures len { length words.new ≡ length words.old }
    ensures bits { (a : ℕ) → bit_of words.new a ≡ (if is_between from to a then value else bit_of words.old a) }
{
    for index in from / 64..to.div_ceil(64) {
        put_word(words, index, mask_of(index, from, to), value);
    }
}

/// The members of another set, of those from `from` up to `to`, which is not one of them, come into this one. It looks at the words of
/// this range alone, and takes pages for members alone.
pub(crate) fn join_bits(words: &mut PagedWords, members: &PagedWords, from: u32, to: u32)
    requires own { div_ceil to 64 ≤ length words.old }
    requires theirs { div_ceil to 64 ≤ length members.now }
    ensures len { length words.new ≡ length words.old }
    ensures bits { (a : ℕ) → bit_of words.new a ≡ (bit_of words.old a || (is_between from to a && bit_of members.now a)) }
{
    for index in from / 64..to.div_ceil(64) {
        let more = members.get(index) & mask_of(index, from, to);
        if more == 0 {
            continue;
        }
        words.join(index, more);
    }
}

/// How many numbers from `from` up to `to`, which is not one of them, are in the set. It looks at the words of this range alone.
pub(crate) fn count_bits(words: &PagedWords, from: u32, to: u32) -> u32
    requires { div_ceil to 64 ≤ length words.now }
    ensures { result ≡ count_by (λ a. is_between from to a && bit_of words.now a) (range_with_len 0 to) }
{
    let mut count = 0;
    for index in from / 64..to.div_ceil(64) {
        let word = words.get(index) & mask_of(index, from, to);
        count += word.count_ones();
    }
    count
}

/// The lowest number of a group that its word has, where it is below `end`. The word isn't 0.
#[inline(always)]
pub(crate) fn lowest_of(word: u64, group: u32, end: u32) -> Option<u32>
    requires some { 0 < word }
    requires small { 64 * group < 2 ^ 32 }
    ensures lowest { MatchOption result (end ≤ 64 * group + trailing_zeros w64 word)
        (λ found. found ≡ 64 * group + trailing_zeros w64 word) }
    ensures near { IfSome result (λ found. found < 64 * group + 64) }
    ensures below { IfSome result (λ found. found < end) }
{
    let found = 64 * group + word.trailing_zeros();
    if found < end { Some(found) } else { None }
}

/// The same of a word that may be 0.
#[inline(always)]
pub(crate) fn lowest_if_any(word: u64, group: u32, end: u32) -> Option<u32>
    requires small { 64 * group < 2 ^ 32 }
    ensures lowest { MatchOption result ((word ≡ 0) ⊎ ((0 < word) × (end ≤ 64 * group + trailing_zeros w64 word)))
        (λ found. (0 < word) × (found ≡ 64 * group + trailing_zeros w64 word)) }
    ensures near { IfSome result (λ found. found < 64 * group + 64) }
    ensures below { IfSome result (λ found. found < end) }
{
    if word == 0 {
        return None;
    }
    lowest_of(word, group, end)
}
