//! Words of a line: numbers, registers, globals.

ghost use Rattle.std.specs.Prelude.{◌≡◌, ◌≤◌, ◌<◌, ◌+◌, ◌∷◌, ◌^◌, [], ℕ, Some, IfSome, IfNone, IsTrue, false, length, map, take, drop};
ghost use Rattle.std.specs.Fmt.{decimal};
ghost use Rattle.std.specs.Str.{bytes_eq};
ghost use Rattle.script_text.specs.Reading.{number_of, small, number_behind, operand_of};
ghost use Rattle.script_text.specs.Feeds.{end_of};
ghost use Rattle.script_text.specs.Lines.{pieces_of, words_of};

use heap_steps::Operand;
use memchr::memchr;

/// The line at the front of a text, without its line feed: how many bytes it has, and how many of its words are kept.
#[derive(Clone, Copy)]
pub(crate) struct Front {
    pub(crate) length: usize,
    pub(crate) count: usize,
}

/// Whether a word is this text.
#[inline(always)]
pub(crate) fn is_word(word: &[u8], text: &[u8]) -> bool
    ensures { result ≡ bytes_eq word.now text.now }
{
    if word.len() != text.len() {
        return false;
    }
    for at in 0..text.len() {
        if word[at] != text[at] {
            return false;
        }
    }
    true
}

/// Whether a line feed is in a text, looked for from its front.
#[inline(never)]
fn finds_feed(text: &[u8]) -> bool
    ensures found { IsTrue result → end_of text.now < length text.now }
    ensures none { result ≡ false → pieces_of text.now ≡ text.now ∷ [] }
{
    memchr(b'\n', text).is_some()
}

/// Whether a line feed is in a text. Most texts end in one.
#[inline(always)]
pub(crate) fn has_feed(text: &[u8]) -> bool
    ensures found { IsTrue result → end_of text.now < length text.now }
    ensures none { result ≡ false → pieces_of text.now ≡ text.now ∷ [] }
{
    let length = text.len();
    if length > 0 && text[length - 1] == b'\n' {
        return true;
    }
    finds_feed(text)
}

/// Puts the first twelve words of the line at the front of a text into `words`: no good line has more. A line feed ends the line, so no
/// byte is tested for the text's end.
#[inline(always)]
pub(crate) fn split_front<'a>(text: &'a [u8], words: &mut [&'a [u8]]) -> Front
    requires ended { end_of text.now < length text.now }
    requires room { length words.old ≡ 12 }
    ensures line { pieces_of text.now ≡ take result.length text.now ∷ pieces_of (drop (result.length + 1) text.now) }
    ensures ends { result.length ≡ end_of text.now }
    ensures kept { result.count ≤ 12 }
    ensures words { map (λ w. w.now) (take result.count words.new) ≡ take 12 (words_of (take result.length text.now)) }
    ensures room { length words.new ≡ 12 }
{
    let mut count = 0;
    let mut start = 0;
    let mut at = 0;
    'bytes: loop {
        let byte = text[at];
        if byte > b' ' {
            at += 1;
            continue;
        }
        if byte == b'\n' {
            if count < 12 {
                words[count] = &text[start..at];
                count += 1;
            }
            return Front { length: at, count };
        }
        if byte == b' ' && count < 12 {
            words[count] = &text[start..at];
            count += 1;
            start = at + 1;
        }
        at += 1;
    }
}

/// Finds the line at the front of a text, where a line feed ends it, and puts its first twelve words into `words`. No good
/// line has more. Where there is no line, `words` is as it was.
#[inline(always)]
pub(crate) fn split_line<'a>(text: &'a [u8], words: &mut [&'a [u8]]) -> Option<Front>
    requires { length words.old ≡ 12 }
    ensures line { IfSome result (λ f. pieces_of text.now ≡ take f.length text.now ∷ pieces_of (drop (f.length + 1) text.now)) }
    ensures within { IfSome result (λ f. f.length < length text.now) }
    ensures kept { IfSome result (λ f. f.count ≤ 12) }
    ensures words { IfSome result (λ f. map (λ w. w.now) (take f.count words.new) ≡ take 12 (words_of (take f.length text.now))) }
    ensures none { IfNone result (pieces_of text.now ≡ text.now ∷ []) }
{
    if has_feed(text) {
        Some(split_front(text, words))
    } else {
        None
    }
}

/// The number of which a word is the decimal spelling, where it is at most the limit.
fn spelled_number(word: &[u8], limit: u64) -> Option<u64>
    ensures some { IfSome result (λ n. (word.now ≡ decimal n) × (n ≤ limit)) }
    ensures none { IfNone result ((n : ℕ) → n ≤ limit → word.now ≡ decimal n → ⊥) }
{
    if word.is_empty() {
        return None;
    }
    if word.len() > 1 && word[0] == b'0' {
        return None;
    }
    let mut value = 0u64;
    let mut at = 0;
    while at < word.len() {
        let byte = word[at];
        if byte < b'0' || byte > b'9' {
            return None;
        }
        let Some(tens) = value.checked_mul(10) else {
            return None;
        };
        let Some(next) = tens.checked_add((byte - b'0') as u64) else {
            return None;
        };
        value = next;
        at += 1;
    }
    if value > limit {
        return None;
    }
    Some(value)
}

/// The number that a word spells, where it is at most the limit.
pub(crate) fn number(word: &[u8], limit: u64) -> Option<u64>
    ensures exact { result ≡ number_of limit word.now }
    ensures fits { IfSome result (λ n. n ≤ limit) }
{
    spelled_number(word, limit)
}

/// A byte's distance from the digit 0: a number below 10 for a digit alone.
#[inline(always)]
pub(crate) fn digit(byte: u8) -> u32
    ensures number { result < 10 → Some result ≡ number_of small (byte ∷ []) }
    ensures value { result < 10 → byte ≡ 48 + result }
{
    byte.wrapping_sub(b'0') as u32
}

/// The number that a word spells, where it fits 32 bits. Most have one digit; all else goes the longer way, so the short one has one end.
#[inline(always)]
pub(crate) fn small_number(word: &[u8]) -> Option<u32>
    ensures { result ≡ number_of small word.now }
{
    if word.len() == 1 {
        let value = digit(word[0]);
        if value < 10 {
            return Some(value);
        }
    }
    let value = some!(number(word, 0xffff_ffff));
    Some(value as u32)
}

/// The number after a letter.
#[tactic(auto, unfolding(crate::specs::Reading::number_behind))]
fn number_behind(letter: u8, word: &[u8]) -> Option<u64>
    ensures exact { result ≡ number_behind letter word.now }
    ensures small { IfSome result (λ n. n < 2 ^ 32) }
{
    let [first, digits @ ..] = word else {
        return None;
    };
    if *first != letter {
        return None;
    }
    number(digits, 0xffff_ffff)
}

/// The number that a word is as an operand.
#[tactic(auto, unfolding(crate::specs::Reading::operand_of))]
pub(crate) fn operand(kind: Operand, word: &[u8]) -> Option<u64>
    ensures { result ≡ operand_of kind word.now }
{
    match kind {
        Operand::Register => number_behind(b'r', word),
        Operand::Global => number_behind(b'g', word),
        Operand::Value => {
            if is_word(word, b"nil") {
                return Some(0);
            }
            let number = some!(number_behind(b'r', word));
            Some(number + 1)
        }
        Operand::Small => number(word, 0xffff_ffff),
        Operand::Byte => number(word, 255),
        Operand::Large => number(word, u64::MAX),
    }
}
