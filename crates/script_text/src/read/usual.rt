//! The usual steps, read in one go.
//!
//! ```text
//!   0 get r2 r0 1\n       each byte is looked at once: a word is read where it is, and what ends it says where the next one starts
//!   ^ ^   ^  ^  ^
//! ```
//!
//! Nearly all lines of a script are steps without a fault. They are read so: a mutator's here, the collector's, whose first word is no
//! number, in `usual_collections`. Of any other line nothing is told, and its words are parted first. So the functions promise that what
//! they answer is right, and not when they answer.
//!
//! More words may follow (`more`): so the same functions read a record's steps, which `=` and a reply follow.

ghost use Rattle.std.specs.Prelude.{◌≡◌, ◌≤◌, ◌<◌, ℕ, IfSome, Ok, length};
ghost use Rattle.heap_steps.specs.Actors.{IsOp, IsStep};
ghost use Rattle.script_text.specs.Feeds.{end_of, line_of};
ghost use Rattle.script_text.specs.Lines.{step_line_of};
ghost use Rattle.script_text.specs.Fronts.{words_from, IsAction};

use crate::read::line_words::{
    Found, after_verb, last_global, last_number, last_register, last_value, next_byte, next_global,
    next_number, next_register,
};
use crate::read::script::{LONGEST_LINE, StepLine};
use crate::read::usual_collections::collection_line;
use heap_steps::{Action, Counts, Op, Step};
use heap_words::config::Config;

/// The action, where heaps of these sizes have it, whose last word ends at a place.
#[inline(always)]
fn last_action(config: &Config, action: Action, past: usize) -> Option<Found<Action>>
    ensures same { IfSome result (λ a. (a.value ≡ action) × (a.past ≡ past)) }
    ensures owned { IfSome result (λ a. (m : ℕ) → m < config.now.mutators → IsOp config.now (record { mutator = m; action = a.value })) }
{
    if action.is_in(config) {
        Some(Found {
            value: action,
            past,
        })
    } else {
        None
    }
}

/// Where one of these verbs is next in the line, reads its words, each from where the one before it ends, and returns the action that they
/// make; None, where a word doesn't fit.
macro_rules! return_action_of {
    (
        $config:ident, $text:ident, $at:ident, $more:ident;
        $($verb:literal [$($word:ident: $next:ident),*] $last_word:ident: $last:ident => $action:expr;)*
    ) => {
        $(
            if let Some(past) = after_verb($text, $at, $verb) {
                $(
                    let Some(Found { value: $word, past }) = $next($text, past) else {
                        return None;
                    };
                )*
                let Some(Found { value: $last_word, past }) = $last($text, past, $more) else {
                    return None;
                };
                return last_action($config, $action, past);
            }
        )*
    };
}

/// The action in a line from a place on, where its verb is of weak slots.
#[inline(always)]
fn weak_action<const CALLER: usize>(
    config: &Config,
    text: &[u8],
    at: usize,
    more: bool,
) -> Option<Found<Action>>
    requires ended { end_of text.now < length text.now }
    requires within { at ≤ end_of text.now }
    ensures { IfSome result (λ a. IsAction config.now text.now (words_from text.now at) a.value a.past more) }
{
    return_action_of! {
        config, text, at, more;
        b"getweak" [to: next_register, object: next_register] slot: last_number => Action::GetWeak { to, object, slot };
        b"putweak" [object: next_register, slot: next_number] value: last_value => Action::PutWeak { object, slot, value };
        b"newweak" [to: next_register, pointers: next_number, weaks: next_byte] values: last_number
            => Action::NewWeak { to, counts: Counts { pointers, values }, weaks };
        b"weaks" [] object: last_register => Action::Weaks { object };
    }
    None
}

/// The same, where its verb is of globals, a shape or a scope, or else as `weak_action`.
#[inline(always)]
fn root_action<const CALLER: usize>(
    config: &Config,
    text: &[u8],
    at: usize,
    more: bool,
) -> Option<Found<Action>>
    requires ended { end_of text.now < length text.now }
    requires within { at ≤ end_of text.now }
    ensures { IfSome result (λ a. IsAction config.now text.now (words_from text.now at) a.value a.past more) }
{
    return_action_of! {
        config, text, at, more;
        b"load" [to: next_register] from: last_global => Action::Load { to, from };
        b"save" [to: next_global] from: last_register => Action::Save { to, from };
        b"shape" [] object: last_register => Action::Shape { object };
        b"scope" [] from: last_register => Action::Scope { from };
    }
    weak_action::<CALLER>(config, text, at, more)
}

/// The same, where its verb writes a register and reads no field, or else as `root_action`.
#[inline(always)]
fn register_action<const CALLER: usize>(
    config: &Config,
    text: &[u8],
    at: usize,
    more: bool,
) -> Option<Found<Action>>
    requires ended { end_of text.now < length text.now }
    requires within { at ≤ end_of text.now }
    ensures { IfSome result (λ a. IsAction config.now text.now (words_from text.now at) a.value a.past more) }
{
    return_action_of! {
        config, text, at, more;
        b"new" [to: next_register, pointers: next_number] values: last_number
            => Action::New { to, counts: Counts { pointers, values } };
        b"move" [to: next_register] from: last_register => Action::Move { to, from };
        b"drop" [] register: last_register => Action::Drop { register };
    }
    root_action::<CALLER>(config, text, at, more)
}

/// The action in a line from a place on. The verbs that are used most are tried first: those of fields. A caller gives a number of its own
/// (`callers`), and so gets a copy of its own, which is a part of it.
#[inline(always)]
pub(crate) fn usual_action<const CALLER: usize>(
    config: &Config,
    text: &[u8],
    at: usize,
    more: bool,
) -> Option<Found<Action>>
    requires ended { end_of text.now < length text.now }
    requires within { at ≤ end_of text.now }
    ensures { IfSome result (λ a. IsAction config.now text.now (words_from text.now at) a.value a.past more) }
{
    return_action_of! {
        config, text, at, more;
        b"get" [to: next_register, object: next_register] field: last_number => Action::Get { to, object, field };
        b"put" [object: next_register, field: next_number] value: last_value => Action::Put { object, field, value };
        b"read" [object: next_register] field: last_number => Action::Read { object, field };
        b"write" [object: next_register, field: next_number] word: last_number
            => Action::Write { object, field, value: u64::from(word) };
    }
    register_action::<CALLER>(config, text, at, more)
}

/// The step of the line at a text's front, where it is one of the usual ones.
#[inline(always)]
pub(crate) fn usual_step<const CALLER: usize>(config: &Config, text: &[u8]) -> Option<StepLine>
    requires ended { end_of text.now < length text.now }
    ensures length { IfSome result (λ l. l.length ≡ end_of text.now) }
    ensures step { IfSome result (λ l. step_line_of config.now (line_of text.now) ≡ Ok l.step) }
    ensures known { IfSome result (λ l. IsStep config.now l.step) }
{
    let Some(mutator) = next_number(text, 0) else {
        return collection_line(text);
    };
    if mutator.value >= config.mutators {
        return None;
    }
    let Found {
        value: action,
        past,
    } = usual_action::<CALLER>(config, text, mutator.past, false)?;
    if past > LONGEST_LINE {
        return None;
    }
    let op = Op {
        mutator: mutator.value,
        action,
    };
    Some(StepLine {
        step: Step::Mutator(op),
        length: past,
    })
}
