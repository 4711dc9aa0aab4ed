//! Replies, read from their words.

ghost use Rattle.std.specs.Prelude.{◌≡◌, map};
ghost use Rattle.script_text.specs.EventWords.{numbered, refusal_of, name_or_word, lone_reply_of, pair_reply_of, long_reply_of, reply_of};

use crate::read::words::{is_word, number, small_number};
use heap_steps::{Refusal, Reply};

/// The refusal, if this is its number.
#[tactic(auto, unfolding(crate::specs::EventWords::numbered))]
fn numbered(number: &[u8], digit: &[u8], why: Refusal) -> Option<Refusal>
    ensures { result ≡ numbered number.now digit.now why }
{
    if number == digit { Some(why) } else { None }
}

/// The refusal of this number and name.
#[tactic(auto, unfolding(crate::specs::EventWords::refusal_of))]
fn refusal(number: &[u8], name: &[u8]) -> Option<Refusal>
    ensures { result ≡ refusal_of number.now name.now }
{
    if is_word(name, b"Nil") {
        numbered(number, b"1", Refusal::Nil)
    } else if is_word(name, b"NoField") {
        numbered(number, b"2", Refusal::NoField)
    } else if is_word(name, b"Full") {
        numbered(number, b"3", Refusal::Full)
    } else if is_word(name, b"TooBig") {
        numbered(number, b"4", Refusal::TooBig)
    } else if is_word(name, b"NamesSpent") {
        numbered(number, b"5", Refusal::NamesSpent)
    } else if is_word(name, b"MarkRunning") {
        numbered(number, b"6", Refusal::MarkRunning)
    } else if is_word(name, b"NotMarking") {
        numbered(number, b"7", Refusal::NotMarking)
    } else {
        None
    }
}

/// An object's name, or a data word.
#[tactic(auto, unfolding(crate::specs::EventWords::name_or_word))]
fn name_or_word(word: &[u8]) -> Option<Reply>
    ensures { result ≡ name_or_word word.now }
{
    let [first, digits @ ..] = word else {
        return None;
    };
    if *first == b'#' {
        let name = some!(number(digits, u64::MAX));
        return Some(Reply::Named(Some(name)));
    }
    let value = some!(number(word, u64::MAX));
    Some(Reply::Word(value))
}

/// A reply of one word.
#[tactic(auto, unfolding(crate::specs::EventWords::lone_reply_of))]
fn lone_reply(a: &[u8]) -> Option<Reply>
    ensures { result ≡ lone_reply_of a.now }
{
    if is_word(a, b"ok") {
        Some(Reply::Done)
    } else if is_word(a, b"nil") {
        Some(Reply::Named(None))
    } else {
        name_or_word(a)
    }
}

/// A reply of two words.
#[tactic(auto, unfolding(crate::specs::EventWords::pair_reply_of))]
fn pair_reply(a: &[u8], b: &[u8]) -> Option<Reply>
    ensures { result ≡ pair_reply_of a.now b.now }
{
    if is_word(a, b"marked") {
        let objects = some!(small_number(b));
        Some(Reply::Marked(objects))
    } else if is_word(a, b"reclaimed") {
        let regions = some!(small_number(b));
        Some(Reply::Reclaimed(regions))
    } else if is_word(a, b"refined") {
        let cards = some!(small_number(b));
        Some(Reply::Refined(cards))
    } else {
        let pointers = some!(small_number(a));
        let values = some!(small_number(b));
        Some(Reply::Shape { pointers, values })
    }
}

/// A reply of three words.
#[tactic(auto, unfolding(crate::specs::EventWords::long_reply_of))]
fn long_reply(a: &[u8], b: &[u8], c: &[u8]) -> Option<Reply>
    ensures { result ≡ long_reply_of a.now b.now c.now }
{
    if is_word(a, b"moved") {
        let regions = some!(small_number(b));
        let words = some!(small_number(c));
        Some(Reply::Moved { regions, words })
    } else if is_word(a, b"refused") {
        let why = some!(refusal(b, c));
        Some(Reply::Refused(why))
    } else {
        None
    }
}

/// Any reply, whatever the step.
#[tactic(auto, unfolding(crate::specs::EventWords::reply_of))]
pub(crate) fn reply(words: &[&[u8]]) -> Option<Reply>
    ensures { result ≡ reply_of (map (λ w. w.now) words.now) }
{
    match words {
        [a] => lone_reply(a),
        [a, b] => pair_reply(a, b),
        [a, b, c] => long_reply(a, b, c),
        _ => None,
    }
}
