//! Scripts, read line by line.

ghost use Rattle.std.specs.Prelude.{◌≡◌, ◌≢◌, ◌<◌, ◌+◌, ◌∷◌, None, Ok, Err, ℕ, List, length, map, take, drop};
ghost use Rattle.std.specs.Prelude.{IfOk, IfErr, IfSome, IfNone};
ghost use Rattle.heap_steps.specs.Actors.{IsStep};
ghost use Rattle.script_text.specs.Events.{record_of};
ghost use Rattle.script_text.specs.Feeds.{end_of, line_of};
ghost use Rattle.script_text.specs.Reading.{sizes_in, third_of, sizes_of};
ghost use Rattle.script_text.specs.Lines.{pieces_of, words_of, heap_line_of, step_line_of, Gives, script_of};

use crate::fault::{Kind, LineFault};
use crate::read::callers::PLAN;
use crate::read::steps::step;
use crate::read::usual::usual_step;
use crate::read::words::{Front, has_feed, is_word, number, small_number, split_front, split_line};
use heap_steps::{Plan, Step};
use heap_words::config::{Config, Format};
use std::alloc::Global;

/// The most bytes of a line before its line feed.
pub(crate) const LONGEST_LINE: usize = 120;

/// The heap line at a text's front: its sizes, and how many bytes it has before its line feed.
#[derive(Clone, Copy)]
pub(crate) struct HeapLine {
    pub(crate) config: Config,
    pub(crate) length: usize,
}

/// A step's line at a text's front: its step, and how many bytes it has before its line feed.
#[derive(Clone, Copy)]
pub(crate) struct StepLine {
    pub(crate) step: Step,
    pub(crate) length: usize,
}

/// The sizes that five words give, in a heap line of the format.
#[tactic(auto, unfolding(crate::specs::Reading::sizes_in))]
fn sizes(
    format: Format,
    regions: &[u8],
    size: &[u8],
    buffer: &[u8],
    mutators: &[u8],
    first_name: &[u8],
) -> Option<Config>
    ensures { result ≡ sizes_in format regions.now size.now buffer.now mutators.now first_name.now }
{
    let regions = some!(small_number(regions));
    let words = some!(small_number(size));
    let buffer = some!(small_number(buffer));
    let mutators = some!(small_number(mutators));
    let first_name = some!(number(first_name, u64::MAX));
    Some(Config {
        format,
        regions,
        words,
        buffer,
        mutators,
        first_name,
    })
}

/// The third format, by the words after the five sizes.
#[tactic(auto, unfolding(crate::specs::Reading::third_of))]
fn third(card: &[u8], globals: &[u8], registers: &[u8]) -> Option<Format>
    ensures { result ≡ third_of card.now globals.now registers.now }
{
    let card = some!(small_number(card));
    let globals = some!(small_number(globals));
    let registers = some!(small_number(registers));
    Some(Format::V3 {
        card,
        globals,
        registers,
    })
}

/// The format of a heap line, by its verb and the words after its five sizes.
#[tactic(auto, unfolding(crate::specs::Reading::sizes_of))]
fn format(verb: &[u8], rest: &[&[u8]]) -> Option<Format>
    ensures some { IfSome result (λ format. (n r b m f : List ℕ) →
        sizes_of (verb.now ∷ n ∷ r ∷ b ∷ m ∷ f ∷ map (λ w. w.now) rest.now) ≡ sizes_in format n r b m f) }
    ensures none { IfNone result ((n r b m f : List ℕ) → sizes_of (verb.now ∷ n ∷ r ∷ b ∷ m ∷ f ∷ map (λ w. w.now) rest.now) ≡ None) }
{
    match rest {
        [] => {
            if is_word(verb, b"heap") {
                Some(Format::V1)
            } else {
                None
            }
        }
        [card] => {
            if is_word(verb, b"heap2") {
                let card = some!(small_number(card));
                Some(Format::V2 { card })
            } else {
                None
            }
        }
        [card, globals, registers] => {
            if is_word(verb, b"heap3") {
                third(card, globals, registers)
            } else {
                None
            }
        }
        _ => None,
    }
}

/// The sizes that a heap line's words give.
#[tactic(auto, unfolding(crate::specs::Reading::sizes_of))]
fn heap(words: &[&[u8]]) -> Option<Config>
    ensures { result ≡ sizes_of (map (λ w. w.now) words.now) }
{
    let [verb, regions, size, buffer, mutators, first_name, rest @ ..] = words else {
        return None;
    };
    let format = some!(format(verb, rest));
    sizes(format, regions, size, buffer, mutators, first_name)
}

/// The sizes that the heap line gives, whose first words these are.
#[tactic(auto, unfolding(crate::specs::Lines::heap_line_of))]
pub(crate) fn heap_line(line: &[u8], words: &[&[u8]]) -> Result<Config, Kind>
    requires { map (λ w. w.now) words.now ≡ take 12 (words_of line.now) }
    ensures { result ≡ heap_line_of line.now }
{
    if line.len() > LONGEST_LINE {
        return Err(Kind::LongLine);
    }
    match heap(words) {
        Some(config) => Ok(config),
        None => Err(Kind::BadHeap),
    }
}

/// The heap line of a script's or a record's text, or the fault of the text's first line.
pub(crate) fn first_line(text: &[u8]) -> Result<HeapLine, LineFault>
    ensures within { IfOk result (λ h. h.length < length text.now) }
    ensures line { IfOk result (λ h. pieces_of text.now ≡ take h.length text.now ∷ pieces_of (drop (h.length + 1) text.now)) }
    ensures config { IfOk result (λ h. heap_line_of (take h.length text.now) ≡ Ok h.config) }
    ensures fault { IfErr result (λ fault. script_of text.now ≡ Err fault) }
    ensures history { IfErr result (λ fault. record_of text.now ≡ Err fault) }
    ensures memory { IfErr result (λ fault. fault.kind ≢ Kind.NoMemory) }
{
    let mut words: [&[u8]; 12] = [&text[..0]; 12];
    let Some(front) = split_line(text, &mut words) else {
        let kind = if text.is_empty() {
            Kind::BadHeap
        } else {
            Kind::Cut
        };
        return Err(LineFault { line: 1, kind });
    };
    match heap_line(&text[..front.length], &words[..front.count]) {
        Ok(config) => Ok(HeapLine {
            config,
            length: front.length,
        }),
        Err(kind) => Err(LineFault { line: 1, kind }),
    }
}

/// The step that a line gives, whose first words these are.
#[tactic(auto, unfolding(crate::specs::Lines::step_line_of))]
fn step_line(config: &Config, line: &[u8], words: &[&[u8]]) -> Result<Step, Kind>
    requires { map (λ w. w.now) words.now ≡ take 12 (words_of line.now) }
    ensures exact { result ≡ step_line_of config.now line.now }
    ensures known { IfOk result (IsStep config.now) }
{
    if line.len() > LONGEST_LINE {
        return Err(Kind::LongLine);
    }
    step(config, words)
}

/// The step of the line at a text's front, or the line's fault, by the line's words. The room for the words is made ready here, and not
/// before each line.
#[inline(always)]
fn parted_step(config: &Config, text: &[u8]) -> Result<StepLine, Kind>
    requires ended { end_of text.now < length text.now }
    ensures step { IfOk result (λ l. step_line_of config.now (line_of text.now) ≡ Ok l.step) }
    ensures length { IfOk result (λ l. l.length ≡ end_of text.now) }
    ensures known { IfOk result (λ l. IsStep config.now l.step) }
    ensures fault { IfErr result (λ kind. step_line_of config.now (line_of text.now) ≡ Err kind) }
{
    let mut words: [&[u8]; 12] = [&text[..0]; 12];
    let Front { length, count } = split_front(text, &mut words);
    let step = step_line(config, &text[..length], &words[..count])?;
    Ok(StepLine { step, length })
}

/// The same, where most lines are of the usual steps; the words of others are parted first. Each caller has a copy of its own (`callers`).
#[inline(always)]
pub(crate) fn front_step<const CALLER: usize>(
    config: &Config,
    text: &[u8],
) -> Result<StepLine, Kind>
    requires ended { end_of text.now < length text.now }
    ensures step { IfOk result (λ l. step_line_of config.now (line_of text.now) ≡ Ok l.step) }
    ensures length { IfOk result (λ l. l.length ≡ end_of text.now) }
    ensures known { IfOk result (λ l. IsStep config.now l.step) }
    ensures fault { IfErr result (λ kind. step_line_of config.now (line_of text.now) ≡ Err kind) }
{
    if let Some(line) = usual_step::<CALLER>(config, text) {
        return Ok(line);
    }
    parted_step(config, text)
}

/// The plan that a script's text spells, or the first fault of the text. Where memory is refused, the line at which it was wanted: no
/// line up to that one has a fault.
///
/// ```rust
/// let plan = parse(alloc, script)?;
/// assert_eq!(rt; plan.steps().len(), 1);
/// let fault = LineFault { line: 2, kind: Kind::BadActor };
/// assert_eq!(rt; parse(alloc, b"heap 4 16 8 1 0\n\n").err(), Some(fault));
/// ```
pub fn parse(alloc: Global, text: &[u8]) -> Result<Plan, LineFault>
    ensures { Gives result text.now (script_of text.now) }
{
    let HeapLine { config, length } = match first_line(text) {
        Ok(line) => line,
        Err(fault) => return Err(fault),
    };
    let mut plan = Plan::new(alloc, config);
    let mut rest = &text[length + 1..];
    let mut number = 2u64;
    'lines: while has_feed(rest) {
        let StepLine { step, length } = match front_step::<PLAN>(&config, rest) {
            Ok(line) => line,
            Err(kind) => return Err(LineFault { line: number, kind }),
        };
        let Ok(()) = plan.push(step) else {
            return Err(LineFault {
                line: number,
                kind: Kind::NoMemory,
            });
        };
        rest = &rest[length + 1..];
        number += 1;
    }
    if rest.is_empty() {
        Ok(plan)
    } else {
        Err(LineFault {
            line: number,
            kind: Kind::Cut,
        })
    }
}
