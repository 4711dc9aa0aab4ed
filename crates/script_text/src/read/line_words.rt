//! Words that are read where they are in a line.
//!
//! ```text
//!   0 get r2 r0 1\n       a number, a verb, registers: what ends a word says where the next one starts
//!         ^^ ^
//!         at past
//! ```
//!
//! A word ends with a space where more words follow (`more`), else with the line.

ghost use Rattle.std.specs.Prelude.{◌≡◌, ◌≤◌, ◌<◌, ◌∷◌, All, IfSome, IsTrue, length, slice_index, if◌then◌else◌};
ghost use Rattle.std.specs.Fmt.{decimal};
ghost use Rattle.script_text.specs.Feeds.{end_of};
ghost use Rattle.script_text.specs.Reading.{small, most_weaks};
ghost use Rattle.script_text.specs.Spelling.{register_word, global_word, value_word};
ghost use Rattle.script_text.specs.Fits.{RegisterFits, GlobalFits, ValueFits};
ghost use Rattle.script_text.specs.Fronts.{part, words_from, words_behind, EndsAt, IsClear, IsNext, IsLastWord};

use crate::read::words::digit;
use heap_steps::{GlobalRoot, Register};

/// What is read in a line from a place on, and a place after it: where its last word ends, or where the next word starts.
#[derive(Clone, Copy)]
pub(crate) struct Found<T> {
    pub(crate) value: T,
    pub(crate) past: usize,
}

/// A number of digits that are in a line from a place on, and where they end; no digit, where it has ten digits or more. Most have two,
/// which take no turn of the loop. It is a function of its own, and answers no option, which would be written to memory.
#[inline(never)]
fn long_number(text: &[u8], at: usize) -> Found<u32>
    requires ended { end_of text.now < length text.now }
    requires within { at ≤ end_of text.now }
    ensures number { at < result.past → (slice_index text.now at ≡ 48 → ⊥)
        → (part text.now at result.past ≡ decimal result.value) × (result.value ≤ small) }
    ensures clear { IsClear text.now at result.past }
{
    let first = digit(text[at]);
    if first < 10 {
        let second = digit(text[at + 1]);
        if second < 10 {
            if digit(text[at + 2]) >= 10 {
                return Found {
                    value: first * 10 + second,
                    past: at + 2,
                };
            }
        }
    }
    let mut number = 0u32;
    let mut past = at;
    'digits: loop {
        let next = digit(text[past]);
        if next >= 10 {
            return Found {
                value: number,
                past,
            };
        }
        if number >= 100_000_000 {
            return Found { value: 0, past: at };
        }
        number = number * 10 + next;
        past += 1;
    }
}

/// The number in a line from a place on, and where its digits end.
#[inline(always)]
fn number_at(text: &[u8], at: usize) -> Option<Found<u32>>
    requires ended { end_of text.now < length text.now }
    requires within { at ≤ end_of text.now }
    ensures number { IfSome result (λ w. (part text.now at w.past ≡ decimal w.value) × (w.value ≤ small)) }
    ensures clear { IfSome result (λ w. IsClear text.now at w.past) }
{
    let first = digit(text[at]);
    if first >= 10 {
        return None;
    }
    if digit(text[at + 1]) >= 10 {
        return Some(Found {
            value: first,
            past: at + 1,
        });
    }
    if first == 0 {
        return None;
    }
    let word = long_number(text, at);
    if word.past == at {
        return None;
    }
    Some(word)
}

/// Whether a word ends at a place: with a space where more words follow, else with the line.
#[inline(always)]
pub(crate) fn ends_word(text: &[u8], past: usize, more: bool) -> bool
    requires ended { end_of text.now < length text.now }
    requires within { past ≤ end_of text.now }
    ensures { IsTrue result → slice_index text.now past ≡ (if more then 32 else 10) }
{
    text[past] == if more { b' ' } else { b'\n' }
}

/// The number in a line from a place on, where a space follows it.
#[inline(always)]
pub(crate) fn next_number(text: &[u8], at: usize) -> Option<Found<u32>>
    requires ended { end_of text.now < length text.now }
    requires within { at ≤ end_of text.now }
    ensures { IfSome result (λ w. IsNext text.now at (decimal w.value) w.past × (w.value ≤ small)) }
{
    let word = some!(number_at(text, at));
    if text[word.past] != b' ' {
        return None;
    }
    Some(Found {
        value: word.value,
        past: word.past + 1,
    })
}

/// The same where one more word follows, or the line ends. Its end is where its digits end.
#[inline(always)]
pub(crate) fn last_number(text: &[u8], at: usize, more: bool) -> Option<Found<u32>>
    requires ended { end_of text.now < length text.now }
    requires within { at ≤ end_of text.now }
    ensures { IfSome result (λ w. IsLastWord text.now at (decimal w.value) w.past more × (w.value ≤ small)) }
{
    let word = some!(number_at(text, at));
    if !ends_word(text, word.past, more) {
        return None;
    }
    Some(word)
}

/// The number after a letter in a line from a place on, and where its digits end.
#[inline(always)]
pub(crate) fn lettered_at(text: &[u8], at: usize, letter: u8) -> Option<Found<u32>>
    requires ended { end_of text.now < length text.now }
    requires within { at ≤ end_of text.now }
    requires letter { 32 < letter }
    ensures number { IfSome result (λ w. (part text.now at w.past ≡ letter ∷ decimal w.value) × (w.value ≤ small)) }
    ensures clear { IfSome result (λ w. IsClear text.now at w.past) }
{
    if text[at] != letter {
        return None;
    }
    number_at(text, at + 1)
}

/// The number after a letter in a line from a place on, where a space follows it.
#[inline(always)]
pub(crate) fn next_lettered(text: &[u8], at: usize, letter: u8) -> Option<Found<u32>>
    requires ended { end_of text.now < length text.now }
    requires within { at ≤ end_of text.now }
    requires letter { 32 < letter }
    ensures { IfSome result (λ w. IsNext text.now at (letter ∷ decimal w.value) w.past × (w.value ≤ small)) }
{
    let word = some!(lettered_at(text, at, letter));
    if text[word.past] != b' ' {
        return None;
    }
    Some(Found {
        value: word.value,
        past: word.past + 1,
    })
}

/// The same where one more word follows, or the line ends. Its end is where its digits end.
#[inline(always)]
pub(crate) fn last_lettered(text: &[u8], at: usize, letter: u8, more: bool) -> Option<Found<u32>>
    requires ended { end_of text.now < length text.now }
    requires within { at ≤ end_of text.now }
    requires letter { 32 < letter }
    ensures { IfSome result (λ w. IsLastWord text.now at (letter ∷ decimal w.value) w.past more × (w.value ≤ small)) }
{
    let word = some!(lettered_at(text, at, letter));
    if !ends_word(text, word.past, more) {
        return None;
    }
    Some(word)
}

/// The number of 8 bits in a line from a place on, where a space follows it.
#[inline(always)]
pub(crate) fn next_byte(text: &[u8], at: usize) -> Option<Found<u8>>
    requires ended { end_of text.now < length text.now }
    requires within { at ≤ end_of text.now }
    ensures { IfSome result (λ w. IsNext text.now at (decimal w.value) w.past × (w.value ≤ most_weaks)) }
{
    let word = some!(next_number(text, at));
    if word.value > 255 {
        return None;
    }
    Some(Found {
        value: word.value as u8,
        past: word.past,
    })
}

/// The register in a line from a place on, where a space follows it.
#[inline(always)]
pub(crate) fn next_register(text: &[u8], at: usize) -> Option<Found<Register>>
    requires ended { end_of text.now < length text.now }
    requires within { at ≤ end_of text.now }
    ensures { IfSome result (λ w. IsNext text.now at (register_word w.value) w.past × RegisterFits w.value) }
{
    let word = some!(next_lettered(text, at, b'r'));
    let value = Register { number: word.value };
    Some(Found {
        value,
        past: word.past,
    })
}

/// The same where one more word follows, or the line ends. Its end is where its digits end.
#[inline(always)]
pub(crate) fn last_register(text: &[u8], at: usize, more: bool) -> Option<Found<Register>>
    requires ended { end_of text.now < length text.now }
    requires within { at ≤ end_of text.now }
    ensures { IfSome result (λ w. IsLastWord text.now at (register_word w.value) w.past more × RegisterFits w.value) }
{
    let word = some!(last_lettered(text, at, b'r', more));
    let value = Register { number: word.value };
    Some(Found {
        value,
        past: word.past,
    })
}

/// The global in a line from a place on, where a space follows it.
#[inline(always)]
pub(crate) fn next_global(text: &[u8], at: usize) -> Option<Found<GlobalRoot>>
    requires ended { end_of text.now < length text.now }
    requires within { at ≤ end_of text.now }
    ensures { IfSome result (λ w. IsNext text.now at (global_word w.value) w.past × GlobalFits w.value) }
{
    let word = some!(next_lettered(text, at, b'g'));
    let value = GlobalRoot { number: word.value };
    Some(Found {
        value,
        past: word.past,
    })
}

/// The same where one more word follows, or the line ends. Its end is where its digits end.
#[inline(always)]
pub(crate) fn last_global(text: &[u8], at: usize, more: bool) -> Option<Found<GlobalRoot>>
    requires ended { end_of text.now < length text.now }
    requires within { at ≤ end_of text.now }
    ensures { IfSome result (λ w. IsLastWord text.now at (global_word w.value) w.past more × GlobalFits w.value) }
{
    let word = some!(last_lettered(text, at, b'g', more));
    let value = GlobalRoot { number: word.value };
    Some(Found {
        value,
        past: word.past,
    })
}

/// Where a word ends in a line from a place on, if it does.
#[inline(always)]
fn word_end(text: &[u8], at: usize, word: &[u8]) -> Option<usize>
    requires ended { end_of text.now < length text.now }
    requires within { at ≤ end_of text.now }
    requires letters { All (λ b. 32 < b) word.now }
    ensures word { IfSome result (λ past. part text.now at past ≡ word.now) }
    ensures clear { IfSome result (IsClear text.now at) }
{
    'bytes: for index in 0..word.len() {
        if text[at + index] != word[index] {
            return None;
        }
    }
    Some(at + word.len())
}

/// Where a word ends in a line from a place on, if it does, and one more word follows, or the line ends.
#[inline(always)]
pub(crate) fn last_literal(text: &[u8], at: usize, word: &[u8], more: bool) -> Option<usize>
    requires ended { end_of text.now < length text.now }
    requires within { at ≤ end_of text.now }
    requires letters { All (λ b. 32 < b) word.now }
    ensures { IfSome result (λ past. IsLastWord text.now at word.now past more) }
{
    let past = some!(word_end(text, at, word));
    if !ends_word(text, past, more) {
        return None;
    }
    Some(past)
}

/// Where the word after a verb starts, if the verb is in a line from a place on, and a space follows it.
#[inline(always)]
pub(crate) fn after_verb(text: &[u8], at: usize, verb: &[u8]) -> Option<usize>
    requires ended { end_of text.now < length text.now }
    requires within { at ≤ end_of text.now }
    requires letters { All (λ b. 32 < b) verb.now }
    ensures { IfSome result (IsNext text.now at verb.now) }
{
    let past = some!(word_end(text, at, verb));
    if text[past] != b' ' {
        return None;
    }
    Some(past + 1)
}

/// The number after a verb that is in a line from a place on, where one more word follows, or the line ends.
#[inline(always)]
pub(crate) fn number_after(text: &[u8], at: usize, verb: &[u8], more: bool) -> Option<Found<u32>>
    requires ended { end_of text.now < length text.now }
    requires within { at ≤ end_of text.now }
    requires letters { All (λ b. 32 < b) verb.now }
    ensures words { IfSome result (λ w. words_from text.now at ≡ verb.now ∷ decimal w.value ∷ words_behind text.now w.past more) }
    ensures fits { IfSome result (λ w. w.value ≤ small) }
    ensures ends { IfSome result (λ w. EndsAt text.now w.past more) }
{
    let next = some!(after_verb(text, at, verb));
    last_number(text, next, more)
}

/// The value, nil or a register, in a line from a place on, where one more word follows, or the line ends.
#[inline(always)]
pub(crate) fn last_value(text: &[u8], at: usize, more: bool) -> Option<Found<Option<Register>>>
    requires ended { end_of text.now < length text.now }
    requires within { at ≤ end_of text.now }
    ensures { IfSome result (λ v. IsLastWord text.now at (value_word v.value) v.past more × ValueFits v.value) }
{
    if text[at] == b'r' {
        let word = some!(last_register(text, at, more));
        return Some(Found {
            value: Some(word.value),
            past: word.past,
        });
    }
    let past = some!(last_literal(text, at, b"nil", more));
    Some(Found { value: None, past })
}
