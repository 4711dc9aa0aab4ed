//! Steps, read from the words of their lines.

ghost use Rattle.std.specs.Prelude.{◌≡◌, ◌<◌, ◌≤◌, ℕ, List, None, Some, map, length, get_or, IfNone, IfOk, IfSome};
ghost use Rattle.heap_steps.specs.Forms.{numbers_in};
ghost use Rattle.script_text.specs.Reading.{operands_of, operand_at, verb_among, known_among, allowed_of, collection_of};
ghost use Rattle.script_text.specs.Lines.{mutator_of, step_of};
ghost use Rattle.heap_steps.specs.Actors.{IsStep};

use crate::fault::Kind;
use crate::read::words::{is_word, operand, small_number};
use heap_steps::{
    Action, ActionVerb, CollectionVerb, CollectorStep, Op, Operand, Step, Verb, has_row,
};
use heap_words::config::{Config, Format};

/// The number of the word at a place, as the operand there; 0 where there is none.
fn number_at(form: &[Operand], words: &[&[u8]], index: usize) -> Option<u64>
    ensures { result ≡ operand_at form.now (map (λ w. w.now) words.now) index }
{
    if index >= form.len() {
        return Some(0);
    }
    if index >= words.len() {
        return Some(0);
    }
    operand(form[index], words[index])
}

/// The numbers of the words after a verb, and zeros after these. `None`: a word doesn't fit, is missing, or is one too many.
fn numbers(form: &[Operand], words: &[&[u8]]) -> Option<[u64; 4]>
    requires { length form.now ≤ 4 }
    ensures some { IfSome result (λ numbers. (ns : List ℕ) × (operands_of form.now (map (λ w. w.now) words.now) ≡ Some ns)
        × ((i : ℕ) → numbers_in form.now numbers i ≡ get_or ns i 0)) }
    ensures none { IfNone result (operands_of form.now (map (λ w. w.now) words.now) ≡ None) }
{
    if form.len() != words.len() {
        return None;
    }
    let first = some!(number_at(form, words, 0));
    let second = some!(number_at(form, words, 1));
    let third = some!(number_at(form, words, 2));
    let fourth = some!(number_at(form, words, 3));
    Some([first, second, third, fourth])
}

/// The verb that a word is.
fn verb<V: Verb>(word: &[u8]) -> Option<V>
    ensures { result ≡ verb_among V.row_of V.verbs word.now }
{
    let verbs = V::all();
    for verb in verbs {
        if is_word(word, verb.row().word) {
            return Some(*verb);
        }
    }
    None
}

/// The same, if the format has it.
pub(crate) fn verb_in<V: Verb>(format: Format, word: &[u8]) -> Option<V>
    ensures { result ≡ known_among V.row_of format V.verbs word.now }
{
    let verb: V = some!(verb(word));
    if has_row(format, verb.row()) {
        Some(verb)
    } else {
        None
    }
}

/// A mutator's step that heaps of these sizes have: each root that it names is there, and their format knows it.
#[tactic(auto, unfolding(crate::specs::Reading::action_of, crate::specs::Reading::allowed_of))]
pub(crate) fn allowed(config: &Config, words: &[&[u8]]) -> Option<Action>
    ensures { result ≡ allowed_of config.now (map (λ w. w.now) words.now) }
{
    let [word, rest @ ..] = words else {
        return None;
    };
    let verb: ActionVerb = some!(verb(word));
    let numbers = some!(numbers(verb.row().operands, rest));
    let action = verb.action(&numbers);
    if action.is_in(config) {
        Some(action)
    } else {
        None
    }
}

/// A step of the collector, if the format has it.
#[tactic(auto, unfolding(crate::specs::Reading::collection_of))]
pub(crate) fn collection(format: Format, words: &[&[u8]]) -> Option<CollectorStep>
    ensures { result ≡ collection_of format (map (λ w. w.now) words.now) }
{
    let [word, rest @ ..] = words else {
        return None;
    };
    let verb: CollectionVerb = some!(verb_in(format, word));
    let numbers = some!(numbers(verb.row().operands, rest));
    Some(verb.step(&numbers))
}

/// The mutator that a word names.
#[tactic(auto, unfolding(crate::specs::Lines::mutator_of))]
pub(crate) fn mutator(config: &Config, word: &[u8]) -> Result<u32, Kind>
    ensures exact { result ≡ mutator_of config.now word.now }
    ensures known { IfOk result (λ m. m < config.now.mutators) }
{
    let Some(mutator) = small_number(word) else {
        return Err(Kind::BadActor);
    };
    if mutator < config.mutators {
        Ok(mutator)
    } else {
        Err(Kind::BadActor)
    }
}

/// A step of its actor.
#[tactic(auto, unfolding(crate::specs::Lines::step_of))]
pub(crate) fn step(config: &Config, words: &[&[u8]]) -> Result<Step, Kind>
    ensures exact { result ≡ step_of config.now (map (λ w. w.now) words.now) }
    ensures known { IfOk result (IsStep config.now) }
{
    let [actor, rest @ ..] = words else {
        return Err(Kind::BadActor);
    };
    if is_word(actor, b"gc") {
        let Some(collection) = collection(config.format, rest) else {
            return Err(Kind::BadStep);
        };
        return Ok(Step::Collector(collection));
    }
    let mutator = mutator(config, actor)?;
    let Some(action) = allowed(config, rest) else {
        return Err(Kind::BadStep);
    };
    Ok(Step::Mutator(Op { mutator, action }))
}
