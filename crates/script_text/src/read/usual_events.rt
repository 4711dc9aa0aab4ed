//! The usual events, read in one go: a mutator's step, and a reply of one word. The collector's are read in `usual_collections`.
//!
//! ```text
//!   7 0 get r2 r0 1 = #3\n
//!   ^ ^               ^      the count, the step as in a script, and after `=` the reply, which ends the line
//! ```
//!
//! Of any other line nothing is told here, and its words are parted first.

ghost use Rattle.std.specs.Prelude.{◌≡◌, ◌≤◌, ◌<◌, ℕ, IfSome, Ok, length};
ghost use Rattle.heap_steps.specs.Actors.{IsEvent};
ghost use Rattle.script_text.specs.Events.{event_line_of};
ghost use Rattle.script_text.specs.Feeds.{end_of, line_of};
ghost use Rattle.script_text.specs.Fits.{ReplyFits};
ghost use Rattle.script_text.specs.Fronts.{words_from};
ghost use Rattle.script_text.specs.Records.{reply_words};

use crate::read::line_words::{
    Found, after_verb, last_lettered, last_literal, last_number, next_number,
};
use crate::read::script::LONGEST_LINE;
use crate::read::usual::usual_action;
use crate::read::usual_collections::collection_event;
use heap_steps::{Actor, Event, Op, Reply, Step};
use heap_words::config::Config;

/// An event's line at a text's front: its event, and how many bytes it has before its line feed.
#[derive(Clone, Copy)]
pub(crate) struct EventLine {
    pub(crate) event: Event,
    pub(crate) length: usize,
}

/// The name of an object in a line from a place on, which ends the line.
#[inline(always)]
fn named_reply(text: &[u8], at: usize) -> Option<Found<Reply>>
    requires ended { end_of text.now < length text.now }
    requires within { at ≤ end_of text.now }
    ensures words { IfSome result (λ r. words_from text.now at ≡ reply_words r.value) }
    ensures fits { IfSome result (λ r. ReplyFits r.value) }
    ensures ends { IfSome result (λ r. r.past ≡ end_of text.now) }
{
    let word = some!(last_lettered(text, at, b'#', false));
    Some(Found {
        value: Reply::Named(Some(u64::from(word.value))),
        past: word.past,
    })
}

/// The reply of one word in a line from a place on, which ends the line.
#[inline(always)]
fn usual_reply(text: &[u8], at: usize) -> Option<Found<Reply>>
    requires ended { end_of text.now < length text.now }
    requires within { at ≤ end_of text.now }
    ensures words { IfSome result (λ r. words_from text.now at ≡ reply_words r.value) }
    ensures fits { IfSome result (λ r. ReplyFits r.value) }
    ensures ends { IfSome result (λ r. r.past ≡ end_of text.now) }
{
    let first = text[at];
    if first == b'#' {
        return named_reply(text, at);
    }
    if first == b'o' {
        let past = some!(last_literal(text, at, b"ok", false));
        return Some(Found {
            value: Reply::Done,
            past,
        });
    }
    if first == b'n' {
        let past = some!(last_literal(text, at, b"nil", false));
        return Some(Found {
            value: Reply::Named(None),
            past,
        });
    }
    let word = some!(last_number(text, at, false));
    Some(Found {
        value: Reply::Word(u64::from(word.value)),
        past: word.past,
    })
}

/// The event of this count whose line is at a text's front, where it is one of the usual ones.
#[inline(always)]
pub(crate) fn usual_event<const CALLER: usize>(
    count: u64,
    config: &Config,
    text: &[u8],
) -> Option<EventLine>
    requires ended { end_of text.now < length text.now }
    ensures length { IfSome result (λ l. l.length ≡ end_of text.now) }
    ensures event { IfSome result (λ l. event_line_of count config.now (line_of text.now) ≡ Ok l.event) }
    ensures known { IfSome result (λ l. IsEvent config.now l.event) }
{
    let number = some!(next_number(text, 0));
    if u64::from(number.value) != count {
        return None;
    }
    let Some(mutator) = next_number(text, number.past) else {
        return collection_event(text, number.past);
    };
    if mutator.value >= config.mutators {
        return None;
    }
    let Found {
        value: action,
        past,
    } = some!(usual_action::<CALLER>(config, text, mutator.past, true));
    let at = some!(after_verb(text, past + 1, b"="));
    let Found {
        value: reply,
        past: length,
    } = some!(usual_reply(text, at));
    if length > LONGEST_LINE {
        return None;
    }
    let op = Op {
        mutator: mutator.value,
        action,
    };
    let event = Event {
        actor: Actor::Mutator(mutator.value),
        step: Step::Mutator(op),
        reply,
    };
    Some(EventLine { event, length })
}
