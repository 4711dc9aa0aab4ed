//! The collector's usual steps and events, read in one go.
//!
//! ```text
//!   gc mark 40\n                       a verb, and a number after some
//!   8 gc mark 40 = marked 3\n          the same after a count, and after `=` the reply, which ends the line
//!   9 f1 refine 2 = refined 0\n        of an actor in the background
//! ```
//!
//! Of any other line nothing is told here, and its words are parted first: so of `compact`, which the third format alone has.

ghost use Rattle.std.specs.Prelude.{◌≡◌, ◌≤◌, ◌<◌, IfSome, Ok, length};
ghost use Rattle.heap_words.specs.declared.config.Config.{Config};
ghost use Rattle.heap_steps.specs.Actors.{IsStep};
ghost use Rattle.script_text.specs.Feeds.{end_of, line_of};
ghost use Rattle.script_text.specs.Fits.{ReplyFits};
ghost use Rattle.script_text.specs.Fronts.{words_from, IsCollection, IsOwnCollection, IsCollectionEvent};
ghost use Rattle.script_text.specs.Lines.{step_line_of};
ghost use Rattle.script_text.specs.Records.{reply_words};

use crate::read::line_words::{
    Found, after_verb, last_literal, last_number, next_lettered, next_number, number_after,
};
use crate::read::script::{LONGEST_LINE, StepLine};
use crate::read::usual_events::EventLine;
use heap_steps::{Actor, CollectorStep, Event, Refusal, Reply, Step};

/// Where one of these verbs is next in the line with a number after it, returns what the number makes.
macro_rules! return_numbered {
    ($text:ident, $at:ident, $more:expr; $($verb:literal $number:ident => $made:expr;)*) => {
        $(
            if let Some(Found { value: $number, past }) = number_after($text, $at, $verb, $more) {
                return Some(Found { value: $made, past });
            }
        )*
    };
}

/// Where one of these words is the next one in the line, returns what it is.
macro_rules! return_literal {
    ($text:ident, $at:ident, $more:expr; $($word:literal => $made:expr;)*) => {
        $(
            if let Some(past) = last_literal($text, $at, $word, $more) {
                return Some(Found { value: $made, past });
            }
        )*
    };
}

/// The collector's step in a line from a place on. The verbs that are used most are tried first.
#[inline(always)]
fn usual_collection(text: &[u8], at: usize, more: bool) -> Option<Found<CollectorStep>>
    requires ended { end_of text.now < length text.now }
    requires within { at ≤ end_of text.now }
    ensures { IfSome result (λ k. IsCollection text.now (words_from text.now at) k.value k.past more) }
{
    return_numbered! {
        text, at, more;
        b"refine" cards => CollectorStep::Refine(cards);
        b"mark" units => CollectorStep::Mark(units);
        b"pause" budget => CollectorStep::Pause(budget);
    }
    return_literal! {
        text, at, more;
        b"begin" => CollectorStep::Begin;
        b"remark" => CollectorStep::Remark;
        b"cleanup" => CollectorStep::Cleanup;
    }
    None
}

/// The collector's step of the line at a text's front.
#[inline(always)]
pub(crate) fn collection_line(text: &[u8]) -> Option<StepLine>
    requires ended { end_of text.now < length text.now }
    ensures length { IfSome result (λ l. l.length ≡ end_of text.now) }
    ensures step { IfSome result (λ l. (c : Config) → step_line_of c (line_of text.now) ≡ Ok l.step) }
    ensures known { IfSome result (λ l. (c : Config) → IsStep c l.step) }
{
    let at = some!(after_verb(text, 0, b"gc"));
    let Found {
        value: collection,
        past,
    } = some!(usual_collection(text, at, false));
    if past > LONGEST_LINE {
        return None;
    }
    Some(StepLine {
        step: Step::Collector(collection),
        length: past,
    })
}

/// One of the collector's steps in a record's line, the actor that takes it, and where its last word ends.
#[derive(Clone, Copy)]
struct OwnCollection {
    actor: Actor,
    collection: CollectorStep,
    past: usize,
}

/// A step of the scripted collector, with its name, in a line from a place on.
#[inline(always)]
fn scripted_collection(text: &[u8], at: usize) -> Option<OwnCollection>
    requires ended { end_of text.now < length text.now }
    requires within { at ≤ end_of text.now }
    ensures { IfSome result (λ o. IsOwnCollection text.now at o.actor o.collection o.past) }
{
    let next = some!(after_verb(text, at, b"gc"));
    let Found {
        value: collection,
        past,
    } = some!(usual_collection(text, next, true));
    Some(OwnCollection {
        actor: Actor::Collector,
        collection,
        past,
    })
}

/// The same of a background marker.
#[inline(always)]
fn marker_collection(text: &[u8], at: usize) -> Option<OwnCollection>
    requires ended { end_of text.now < length text.now }
    requires within { at ≤ end_of text.now }
    ensures { IfSome result (λ o. IsOwnCollection text.now at o.actor o.collection o.past) }
{
    let marker = some!(next_lettered(text, at, b'm'));
    if marker.value > 7 {
        return None;
    }
    let units = some!(number_after(text, marker.past, b"mark", true));
    Some(OwnCollection {
        actor: Actor::Marker(marker.value as u8),
        collection: CollectorStep::Mark(units.value),
        past: units.past,
    })
}

/// The same of a background refiner.
#[inline(always)]
fn refiner_collection(text: &[u8], at: usize) -> Option<OwnCollection>
    requires ended { end_of text.now < length text.now }
    requires within { at ≤ end_of text.now }
    ensures { IfSome result (λ o. IsOwnCollection text.now at o.actor o.collection o.past) }
{
    let refiner = some!(next_lettered(text, at, b'f'));
    if refiner.value > 7 {
        return None;
    }
    let cards = some!(number_after(text, refiner.past, b"refine", true));
    Some(OwnCollection {
        actor: Actor::Refiner(refiner.value as u8),
        collection: CollectorStep::Refine(cards.value),
        past: cards.past,
    })
}

/// The same of any of these.
#[inline(always)]
fn own_collection(text: &[u8], at: usize) -> Option<OwnCollection>
    requires ended { end_of text.now < length text.now }
    requires within { at ≤ end_of text.now }
    ensures { IfSome result (λ o. IsOwnCollection text.now at o.actor o.collection o.past) }
{
    let first = text[at];
    if first == b'g' {
        return scripted_collection(text, at);
    }
    if first == b'm' {
        return marker_collection(text, at);
    }
    refiner_collection(text, at)
}

/// The reply to a pause in a line from a place on, which ends the line.
#[inline(always)]
fn moved_reply(text: &[u8], at: usize) -> Option<Found<Reply>>
    requires ended { end_of text.now < length text.now }
    requires within { at ≤ end_of text.now }
    ensures words { IfSome result (λ r. words_from text.now at ≡ reply_words r.value) }
    ensures fits { IfSome result (λ r. ReplyFits r.value) }
    ensures ends { IfSome result (λ r. r.past ≡ end_of text.now) }
{
    let next = some!(after_verb(text, at, b"moved"));
    let regions = some!(next_number(text, next));
    let words = some!(last_number(text, regions.past, false));
    Some(Found {
        value: Reply::Moved {
            regions: regions.value,
            words: words.value,
        },
        past: words.past,
    })
}

/// A refusal of one of the collector's steps in a line from a place on, which ends the line.
#[inline(always)]
fn refused_reply(text: &[u8], at: usize) -> Option<Found<Reply>>
    requires ended { end_of text.now < length text.now }
    requires within { at ≤ end_of text.now }
    ensures words { IfSome result (λ r. words_from text.now at ≡ reply_words r.value) }
    ensures fits { IfSome result (λ r. ReplyFits r.value) }
    ensures ends { IfSome result (λ r. r.past ≡ end_of text.now) }
{
    let number = some!(after_verb(text, at, b"refused"));
    if let Some(name) = after_verb(text, number, b"7") {
        return_literal! {
            text, name, false;
            b"NotMarking" => Reply::Refused(Refusal::NotMarking);
        }
    }
    if let Some(name) = after_verb(text, number, b"6") {
        return_literal! {
            text, name, false;
            b"MarkRunning" => Reply::Refused(Refusal::MarkRunning);
        }
    }
    None
}

/// The reply to one of the collector's steps in a line from a place on, which ends the line.
#[inline(always)]
fn collection_reply(text: &[u8], at: usize) -> Option<Found<Reply>>
    requires ended { end_of text.now < length text.now }
    requires within { at ≤ end_of text.now }
    ensures words { IfSome result (λ r. words_from text.now at ≡ reply_words r.value) }
    ensures fits { IfSome result (λ r. ReplyFits r.value) }
    ensures ends { IfSome result (λ r. r.past ≡ end_of text.now) }
{
    return_literal! {
        text, at, false;
        b"ok" => Reply::Done;
    }
    return_numbered! {
        text, at, false;
        b"refined" cards => Reply::Refined(cards);
        b"marked" objects => Reply::Marked(objects);
        b"reclaimed" regions => Reply::Reclaimed(regions);
    }
    if let Some(last) = moved_reply(text, at) {
        return Some(last);
    }
    refused_reply(text, at)
}

/// The event in a line after its count, where its step is one of the collector's. It is a function of its own, apart from a mutator's
/// events, which are more.
#[inline(never)]
fn event_apart(text: &[u8], at: usize) -> Option<EventLine>
    requires ended { end_of text.now < length text.now }
    requires within { at ≤ end_of text.now }
    ensures { IfSome result (λ l. IsCollectionEvent text.now at l.event l.length) }
{
    let OwnCollection {
        actor,
        collection,
        past,
    } = some!(own_collection(text, at));
    let next = some!(after_verb(text, past + 1, b"="));
    let Found {
        value: reply,
        past: length,
    } = some!(collection_reply(text, next));
    if length > LONGEST_LINE {
        return None;
    }
    let event = Event {
        actor,
        step: Step::Collector(collection),
        reply,
    };
    Some(EventLine { event, length })
}

/// The same, taken apart: so the room that its answer takes in memory is made ready here, and not before a mutator's events.
#[inline(always)]
pub(crate) fn collection_event(text: &[u8], at: usize) -> Option<EventLine>
    requires ended { end_of text.now < length text.now }
    requires within { at ≤ end_of text.now }
    ensures { IfSome result (λ l. IsCollectionEvent text.now at l.event l.length) }
{
    let EventLine { event, length } = some!(event_apart(text, at));
    Some(EventLine { event, length })
}
