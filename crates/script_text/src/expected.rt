//! What may be at each word's place in a line, and the first word that doesn't fit its place.

ghost use Rattle.std.specs.Prelude.{◌≡◌, ◌+◌, ◌^◌, ◌<◌, ◌≤◌, ◌++◌, ℕ, List, Some, IfErr, IfOk, IfSome, length, map, option_map, take, drop};
ghost use Rattle.std.specs.Prelude.{◌∷◌, [], None, if◌then◌else◌};
ghost use Rattle.std.specs.Str.{bytes_eq};
ghost use Rattle.heap_words.specs.declared.config.Config.{Config};
ghost use Rattle.script_text.specs.declared.expected.Expected.{Expected};
ghost use Rattle.script_text.specs.Expected.{actor_in, form_among, verb_expected, form_at, heap_form, fits_word, fits};
ghost use Rattle.script_text.specs.Expected.{actor_expected, expected_from_verb, expected_in_step, first_misfit, stop_in, no_sizes};
ghost use Rattle.script_text.specs.Expected.{heap_stop_in};

use crate::read::events::actor;
use crate::read::replies::reply;
use crate::read::steps::{mutator, verb_in};
use crate::read::words::{is_word, number, operand, small_number};
use heap_steps::{ActionVerb, Actor, CollectionVerb, Operand, Verb};
use heap_words::config::{Config, Format};

/// What a text is read as.
#[derive(Clone, Copy)]
pub enum TextKind {
    Script,
    Record,
}

/// What may be at a word's place in a line.
#[derive(Clone, Copy)]
pub(crate) enum Expected {
    /// The count of an event.
    Count(u64),
    /// An actor of a script.
    ScriptActor,
    /// An actor of a record.
    RecordActor,
    /// A verb of a mutator.
    Action,
    /// A verb of the collector.
    Collection,
    /// The verb of a background marker.
    Marking,
    /// The verb of a background refiner.
    Refining,
    /// An operand of a step.
    Operand(Operand),
    /// The sign `=`.
    Equals,
    /// All words of a reply.
    Reply,
    /// No word.
    End,
    /// The word of a heap line's format.
    Heap,
    /// The numbers after it.
    Regions,
    RegionWords,
    Buffer,
    Mutators,
    FirstName,
    Card,
    Globals,
    Registers,
}

/// A word of a line, counted from 1, and what may be in its place.
#[derive(Clone, Copy)]
pub(crate) struct Stop {
    pub(crate) word: u64,
    pub(crate) place: Expected,
}

/// The actor of a step in a text of this kind.
fn actor_in(kind: TextKind, config: &Config, word: &[u8]) -> Option<Actor>
    ensures { result ≡ actor_in kind config.now word.now }
{
    match kind {
        TextKind::Record => actor(config, word).ok(),
        TextKind::Script => {
            if is_word(word, b"gc") {
                return Some(Actor::Collector);
            }
            match mutator(config, word) {
                Ok(mutator) => Some(Actor::Mutator(mutator)),
                Err(_) => None,
            }
        }
    }
}

/// What may be after a verb. `None`: the word is none that the format has.
fn form<V: Verb>(format: Format, word: &[u8]) -> Option<&'static [Operand]>
    ensures form { option_map (λ form. map Expected.Operand form.now) result ≡ form_among V.row_of format V.verbs word.now }
    ensures short { IfSome result (λ form. length form.now ≤ 8) }
{
    let known: Option<V> = verb_in(format, word);
    let Some(verb) = known else {
        return None;
    };
    Some(verb.row().operands)
}

/// Where a verb of the actor is.
fn verb_expected(actor: Actor) -> Expected
    ensures { result ≡ verb_expected actor }
{
    match actor {
        Actor::Mutator(_) => Expected::Action,
        Actor::Collector => Expected::Collection,
        Actor::Marker(_) => Expected::Marking,
        Actor::Refiner(_) => Expected::Refining,
    }
}

/// What may be after a verb that a number follows. `None`: the word is another.
fn number_form(word: &[u8], verb: &'static [u8]) -> Option<&'static [Operand]>
    ensures form { option_map (λ form. map Expected.Operand form.now) result
        ≡ (if bytes_eq word.now verb.now then Some (Expected.Operand Operand.Small ∷ []) else None) }
    ensures short { IfSome result (λ form. length form.now ≤ 8) }
{
    if is_word(word, verb) {
        Some(&[Operand::Small])
    } else {
        None
    }
}

/// What may be after a verb at such a place. `None`: the word is no verb there.
#[tactic(auto, unfolding(crate::specs::Expected::action_form, crate::specs::Expected::collection_form))]
fn form_at(format: Format, place: Expected, verb: &[u8]) -> Option<&'static [Operand]>
    ensures form { option_map (λ form. map Expected.Operand form.now) result ≡ form_at format place verb.now }
    ensures short { IfSome result (λ form. length form.now ≤ 8) }
{
    match place {
        Expected::Action => form::<ActionVerb>(format, verb),
        Expected::Collection => form::<CollectionVerb>(format, verb),
        Expected::Marking => number_form(verb, b"mark"),
        Expected::Refining => number_form(verb, b"refine"),
        _ => None,
    }
}

/// What may be after the heap line's first word. `None`: it is no format's.
#[tactic(auto, unfolding(crate::specs::Expected::heap_form))]
fn heap_form(verb: &[u8]) -> Option<&'static [Expected]>
    ensures form { option_map (λ form. form.now) result ≡ heap_form verb.now }
    ensures short { IfSome result (λ form. length form.now ≤ 8) }
{
    if is_word(verb, b"heap") {
        Some(&[
            Expected::Regions,
            Expected::RegionWords,
            Expected::Buffer,
            Expected::Mutators,
            Expected::FirstName,
        ])
    } else if is_word(verb, b"heap2") {
        Some(&[
            Expected::Regions,
            Expected::RegionWords,
            Expected::Buffer,
            Expected::Mutators,
            Expected::FirstName,
            Expected::Card,
        ])
    } else if is_word(verb, b"heap3") {
        Some(&[
            Expected::Regions,
            Expected::RegionWords,
            Expected::Buffer,
            Expected::Mutators,
            Expected::FirstName,
            Expected::Card,
            Expected::Globals,
            Expected::Registers,
        ])
    } else {
        None
    }
}

/// Whether a word is such an operand, in heaps of these sizes.
fn is_operand(config: &Config, kind: Operand, word: &[u8]) -> bool
    ensures { result ≡ fits_word config.now (Expected.Operand kind) word.now }
{
    match operand(kind, word) {
        Some(number) => kind.has_root(config, number),
        None => false,
    }
}

/// Whether a word is this number.
fn is_count(count: u64, word: &[u8]) -> bool
    ensures { (config : Config) → result ≡ fits_word config (Expected.Count count) word.now }
{
    match number(word, u64::MAX) {
        Some(number) => number == count,
        None => false,
    }
}

/// Whether a word may be at a place.
#[tactic(auto, unfolding(crate::specs::Expected::action_form, crate::specs::Expected::collection_form))]
fn fits_word(config: &Config, place: Expected, word: &[u8]) -> bool
    ensures { result ≡ fits_word config.now place word.now }
{
    match place {
        Expected::Count(count) => is_count(count, word),
        Expected::ScriptActor => actor_in(TextKind::Script, config, word).is_some(),
        Expected::RecordActor => actor_in(TextKind::Record, config, word).is_some(),
        Expected::Operand(kind) => is_operand(config, kind, word),
        Expected::FirstName => number(word, u64::MAX).is_some(),
        Expected::Equals => is_word(word, b"="),
        Expected::Heap => heap_form(word).is_some(),
        Expected::Action => form::<ActionVerb>(config.format, word).is_some(),
        Expected::Collection => form::<CollectionVerb>(config.format, word).is_some(),
        Expected::Marking => is_word(word, b"mark"),
        Expected::Refining => is_word(word, b"refine"),
        Expected::Reply | Expected::End => false,
        _ => small_number(word).is_some(),
    }
}

/// Whether the words that are left may come from a place on.
fn fits(config: &Config, place: Expected, words: &[&[u8]]) -> bool
    ensures { result ≡ fits config.now place (map (λ w. w.now) words.now) }
{
    let [word, ..] = words else {
        return matches!(place, Expected::End);
    };
    match place {
        Expected::Reply => reply(words).is_some(),
        _ => fits_word(config, place, word),
    }
}

/// The first of the places, counted from a number, at which the words that are left don't fit; else those that are left behind them.
fn first_misfit<'a, 'b>(
    config: &Config,
    from: u64,
    places: &[Expected],
    words: &'b [&'a [u8]],
) -> Result<&'b [&'a [u8]], Stop>
    requires { from + length places.now < 2 ^ 64 }
    ensures stops { IfErr result (λ stop. (more : List Expected) → first_misfit config.now from (places.now ++ more)
        (map (λ w. w.now) words.entry.now) ≡ Some stop) }
    ensures passes { IfOk result (λ left. (more : List Expected) → first_misfit config.now from (places.now ++ more)
        (map (λ w. w.now) words.entry.now) ≡ first_misfit config.now (from + length places.now) more (map (λ w. w.now) left.now)) }
{
    let mut left = words;
    let mut word = from;
    'places: for place in places {
        if !fits(config, *place, left) {
            return Err(Stop {
                word,
                place: *place,
            });
        }
        left = behind_first(left);
        word += 1;
    }
    Ok(left)
}

/// The same of the operands of a verb.
fn first_operand_misfit<'a, 'b>(
    config: &Config,
    from: u64,
    form: &[Operand],
    words: &'b [&'a [u8]],
) -> Result<&'b [&'a [u8]], Stop>
    requires { from + length form.now < 2 ^ 64 }
    ensures stops { IfErr result (λ stop. (more : List Expected) → first_misfit config.now from (map Expected.Operand form.now ++ more)
        (map (λ w. w.now) words.entry.now) ≡ Some stop) }
    ensures passes { IfOk result (λ left. (more : List Expected) → first_misfit config.now from (map Expected.Operand form.now ++ more)
        (map (λ w. w.now) words.entry.now) ≡ first_misfit config.now (from + length form.now) more (map (λ w. w.now) left.now)) }
{
    let mut left = words;
    let mut word = from;
    'form: for kind in form {
        let place = Expected::Operand(*kind);
        if !fits(config, place, left) {
            return Err(Stop { word, place });
        }
        left = behind_first(left);
        word += 1;
    }
    Ok(left)
}

/// The words after the first one.
fn behind_first<'a, 'b>(words: &'b [&'a [u8]]) -> &'b [&'a [u8]]
    ensures { map (λ w. w.now) result.now ≡ drop 1 (map (λ w. w.now) words.entry.now) }
{
    match words {
        [_, rest @ ..] => rest,
        [] => words,
    }
}

/// The place of an actor.
fn actor_expected(kind: TextKind) -> Expected
    ensures { result ≡ actor_expected kind }
{
    match kind {
        TextKind::Script => Expected::ScriptActor,
        TextKind::Record => Expected::RecordActor,
    }
}

/// The first of a line's last places at which the words that are left don't fit.
fn last_stop(config: &Config, from: u64, end: &[Expected], words: &[&[u8]]) -> Option<Stop>
    requires { from + length end.now < 2 ^ 64 }
    ensures { result ≡ first_misfit config.now from end.now (map (λ w. w.now) words.now) }
{
    match first_misfit(config, from, end, words) {
        Err(stop) => Some(stop),
        Ok(_) => None,
    }
}

/// The first of the operands of a verb, and of the line's last places after these, at which the words don't fit.
fn form_stop(
    config: &Config,
    from: u64,
    form: &[Operand],
    end: &[Expected],
    words: &[&[u8]],
) -> Option<Stop>
    requires { from + length form.now + length end.now < 2 ^ 64 }
    ensures { result ≡ first_misfit config.now from (map Expected.Operand form.now ++ end.now) (map (λ w. w.now) words.now) }
{
    match first_operand_misfit(config, from, form, words) {
        Err(stop) => Some(stop),
        Ok(left) => last_stop(config, from + form.len() as u64, end, left),
    }
}

/// Where reading a step of an actor stops, from its verb on, after which the line has to go on so.
fn verb_stop(
    config: &Config,
    actor: Actor,
    from: u64,
    words: &[&[u8]],
    end: &[Expected],
) -> Option<Stop>
    requires { from + 9 + length end.now < 2 ^ 64 }
    ensures { result ≡ first_misfit config.now from (expected_from_verb config.now (Some actor) (map (λ w. w.now) words.now) end.now)
        (map (λ w. w.now) words.now) }
{
    let place = verb_expected(actor);
    let [verb, rest @ ..] = words else {
        return Some(Stop { word: from, place });
    };
    let Some(form) = form_at(config.format, place, verb) else {
        return Some(Stop { word: from, place });
    };
    form_stop(config, from + 1, form, end, rest)
}

/// Where reading a step stops, from its actor's word on, after which the line has to go on so.
fn step_stop(
    kind: TextKind,
    config: &Config,
    from: u64,
    words: &[&[u8]],
    end: &[Expected],
) -> Option<Stop>
    requires { from + 10 + length end.now < 2 ^ 64 }
    ensures { result ≡ first_misfit config.now from (expected_in_step kind config.now (map (λ w. w.now) words.now) end.now)
        (map (λ w. w.now) words.now) }
{
    let place = actor_expected(kind);
    let [word, rest @ ..] = words else {
        return Some(Stop { word: from, place });
    };
    let Some(actor) = actor_in(kind, config, word) else {
        return Some(Stop { word: from, place });
    };
    verb_stop(config, actor, from + 1, rest, end)
}

/// Where reading the line of a step, or of the event of this count, stops, whose first twelve words these are.
pub(crate) fn stop_in(kind: TextKind, config: &Config, count: u64, words: &[&[u8]]) -> Option<Stop>
    ensures { (all : List (List ℕ)) → map (λ w. w.now) words.now ≡ take 12 all → result ≡ stop_in kind config.now count all }
{
    match kind {
        TextKind::Script => step_stop(kind, config, 1, words, &[Expected::End]),
        TextKind::Record => {
            let place = Expected::Count(count);
            if !fits(config, place, words) {
                return Some(Stop { word: 1, place });
            }
            let rest = behind_first(words);
            step_stop(kind, config, 2, rest, &[Expected::Equals, Expected::Reply])
        }
    }
}

/// The sizes that stand for none.
pub(crate) fn no_sizes() -> Config
    ensures { result ≡ no_sizes }
{
    Config {
        format: Format::V1,
        regions: 0,
        words: 0,
        buffer: 0,
        mutators: 0,
        first_name: 0,
    }
}

/// Where reading a heap line stops, whose first twelve words these are.
pub(crate) fn heap_stop_in(words: &[&[u8]]) -> Option<Stop>
    ensures { (all : List (List ℕ)) → map (λ w. w.now) words.now ≡ take 12 all → result ≡ heap_stop_in all }
{
    let config = no_sizes();
    let [verb, rest @ ..] = words else {
        return Some(Stop {
            word: 1,
            place: Expected::Heap,
        });
    };
    let Some(form) = heap_form(verb) else {
        return Some(Stop {
            word: 1,
            place: Expected::Heap,
        });
    };
    match first_misfit(&config, 2, form, rest) {
        Err(stop) => Some(stop),
        Ok(left) => last_stop(&config, 2 + form.len() as u64, &[Expected::End], left),
    }
}
