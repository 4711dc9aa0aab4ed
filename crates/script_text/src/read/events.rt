//! Events, read from the words of their lines.

ghost use Rattle.std.specs.Prelude.{◌≡◌, ◌≤◌, map, length};
ghost use Rattle.script_text.specs.EventWords.{background_of, marker_step, refiner_step, taken_of, equals_at, step_part, answer_of};
ghost use Rattle.script_text.specs.Events.{actor_of, counted_of, event_of};

use crate::fault::Kind;
use crate::read::replies::reply;
use crate::read::steps::{allowed, collection, mutator};
use crate::read::words::{is_word, number};
use heap_steps::{Actor, CollectorStep, Event, Op, Reply, Step};
use heap_words::config::Config;

/// The background actor that a word names, `m0` to `m7` or `f0` to `f7`.
#[tactic(auto, unfolding(crate::specs::EventWords::background_of))]
fn background(word: &[u8]) -> Option<Actor>
    ensures exact { result ≡ background_of word.now }
{
    let [first, digits @ ..] = word else {
        return None;
    };
    if *first == b'm' {
        let number = some!(number(digits, 7));
        Some(Actor::Marker(number as u8))
    } else if *first == b'f' {
        let number = some!(number(digits, 7));
        Some(Actor::Refiner(number as u8))
    } else {
        None
    }
}

/// The actor that a word names.
#[tactic(auto, unfolding(crate::specs::Events::actor_of, crate::specs::Events::foreground_of))]
pub(crate) fn actor(config: &Config, word: &[u8]) -> Result<Actor, Kind>
    ensures { result ≡ actor_of config.now word.now }
{
    if is_word(word, b"gc") {
        return Ok(Actor::Collector);
    }
    if let Some(actor) = background(word) {
        return Ok(actor);
    }
    let mutator = mutator(config, word)?;
    Ok(Actor::Mutator(mutator))
}

/// A step of a background marker.
#[tactic(auto, unfolding(crate::specs::EventWords::marker_step))]
fn marker_step(collection: CollectorStep) -> Option<Step>
    ensures { result ≡ marker_step collection }
{
    match collection {
        CollectorStep::Mark(units) => Some(Step::Collector(CollectorStep::Mark(units))),
        _ => None,
    }
}

/// A step of a background refiner.
#[tactic(auto, unfolding(crate::specs::EventWords::refiner_step))]
fn refiner_step(collection: CollectorStep) -> Option<Step>
    ensures { result ≡ refiner_step collection }
{
    match collection {
        CollectorStep::Refine(cards) => Some(Step::Collector(CollectorStep::Refine(cards))),
        _ => None,
    }
}

/// A step of its actor.
#[tactic(auto, unfolding(crate::specs::EventWords::taken_of))]
fn taken(config: &Config, actor: Actor, words: &[&[u8]]) -> Option<Step>
    ensures { result ≡ taken_of config.now actor (map (λ w. w.now) words.now) }
{
    match actor {
        Actor::Mutator(mutator) => {
            let action = some!(allowed(config, words));
            Some(Step::Mutator(Op { mutator, action }))
        }
        Actor::Collector => {
            let collection = some!(collection(config.format, words));
            Some(Step::Collector(collection))
        }
        Actor::Marker(_) => marker_step(some!(collection(config.format, words))),
        Actor::Refiner(_) => refiner_step(some!(collection(config.format, words))),
    }
}

/// The place of the first `=`; the count of words, where there is none.
fn equals_at(words: &[&[u8]]) -> usize
    ensures exact { result ≡ equals_at (map (λ w. w.now) words.now) }
    ensures within { result ≤ length words.now }
{
    let mut at = 0;
    while at < words.len() {
        if is_word(words[at], b"=") {
            return at;
        }
        at += 1;
    }
    at
}

/// The words before the first `=` that a word follows; all, where there is none.
fn step_part<'a, 'b>(words: &'b [&'a [u8]]) -> &'b [&'a [u8]]
    ensures { map (λ w. w.now) result.now ≡ step_part (map (λ w. w.now) words.now) }
{
    let end = equals_at(words);
    if words.len() - end > 1 {
        &words[..end]
    } else {
        words
    }
}

/// The reply after a step.
fn answer(words: &[&[u8]]) -> Option<Reply>
    ensures { result ≡ answer_of (map (λ w. w.now) words.now) }
{
    let end = equals_at(words);
    if words.len() - end > 1 {
        reply(&words[end + 1..])
    } else {
        None
    }
}

/// An event, of which the words after its count are given.
#[tactic(auto, unfolding(crate::specs::Events::counted_of))]
fn counted(config: &Config, words: &[&[u8]]) -> Result<Event, Kind>
    ensures { result ≡ counted_of config.now (map (λ w. w.now) words.now) }
{
    let [word, rest @ ..] = words else {
        return Err(Kind::BadActor);
    };
    let actor = actor(config, word)?;
    let Some(step) = taken(config, actor, step_part(rest)) else {
        return Err(Kind::BadStep);
    };
    let Some(reply) = answer(rest) else {
        return Err(Kind::BadReply);
    };
    Ok(Event { actor, step, reply })
}

/// The event of this count.
#[tactic(auto, unfolding(crate::specs::Events::event_of))]
pub(crate) fn event(expected: u64, config: &Config, words: &[&[u8]]) -> Result<Event, Kind>
    ensures { result ≡ event_of expected config.now (map (λ w. w.now) words.now) }
{
    let [word, rest @ ..] = words else {
        return Err(Kind::BadCount);
    };
    let Some(count) = number(word, u64::MAX) else {
        return Err(Kind::BadCount);
    };
    if count == expected {
        counted(config, rest)
    } else {
        Err(Kind::BadCount)
    }
}
