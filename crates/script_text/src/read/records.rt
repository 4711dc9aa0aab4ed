//! Records, read line by line.

ghost use Rattle.std.specs.Prelude.{◌≡◌, ◌<◌, length, map, take, IfOk};
ghost use Rattle.heap_steps.specs.Actors.{IsEvent};
ghost use Rattle.script_text.specs.Feeds.{end_of, line_of};
ghost use Rattle.script_text.specs.Lines.{words_of, Gives};
ghost use Rattle.script_text.specs.Events.{event_line_of, record_of};

use crate::fault::{Kind, LineFault};
use crate::read::callers::RECORD;
use crate::read::events::event;
use crate::read::script::{HeapLine, LONGEST_LINE, first_line};
use crate::read::usual_events::{EventLine, usual_event};
use crate::read::words::{has_feed, split_front};
use heap_steps::{Event, Record};
use heap_words::config::Config;
use std::alloc::Global;

/// An event's line at a text's front: how many bytes it has before its line feed, and what it gives.
#[derive(Clone, Copy)]
pub(crate) struct FrontEvent {
    pub(crate) length: usize,
    pub(crate) event: Result<Event, Kind>,
}

/// The event of this count that a line gives, whose first words these are.
#[tactic(auto, unfolding(crate::specs::Events::event_line_of))]
fn event_line(count: u64, config: &Config, line: &[u8], words: &[&[u8]]) -> Result<Event, Kind>
    requires { map (λ w. w.now) words.now ≡ take 12 (words_of line.now) }
    ensures exact { result ≡ event_line_of count config.now line.now }
    ensures known { IfOk result (IsEvent config.now) }
{
    if line.len() > LONGEST_LINE {
        return Err(Kind::LongLine);
    }
    event(count, config, words)
}

/// What the line at a text's front gives as that of an event of this count, by its words, and how many bytes it has before its line
/// feed. It is a function of its own: so the room for the words is made ready where they are parted, and not before each line.
#[inline(never)]
fn parted_event(count: u64, config: &Config, text: &[u8]) -> FrontEvent
    requires ended { end_of text.now < length text.now }
    ensures length { result.length ≡ end_of text.now }
    ensures event { result.event ≡ event_line_of count config.now (line_of text.now) }
    ensures known { IfOk result.event (IsEvent config.now) }
{
    let mut words: [&[u8]; 12] = [&text[..0]; 12];
    let front = split_front(text, &mut words);
    FrontEvent {
        length: front.length,
        event: event_line(count, config, &text[..front.length], &words[..front.count]),
    }
}

/// The same, where most lines are of the usual events; the words of others are parted first. Each caller has a copy of its own
/// (`callers`).
pub(crate) fn front_event<const CALLER: usize>(
    count: u64,
    config: &Config,
    text: &[u8],
) -> FrontEvent
    requires ended { end_of text.now < length text.now }
    ensures length { result.length ≡ end_of text.now }
    ensures within { result.length < length text.now }
    ensures event { result.event ≡ event_line_of count config.now (line_of text.now) }
    ensures known { IfOk result.event (IsEvent config.now) }
{
    if let Some(EventLine { event, length }) = usual_event::<CALLER>(count, config, text) {
        return FrontEvent {
            length,
            event: Ok(event),
        };
    }
    parted_event(count, config, text)
}

/// The record that a text spells, or the first fault of the text. Where memory is refused, the line at which it was wanted: no
/// line up to that one has a fault.
///
/// ```rust
/// let history = parse_record(alloc, record)?;
/// assert_eq!(rt; history.events().len(), 1);
/// ```
pub fn parse_record(alloc: Global, text: &[u8]) -> Result<Record, LineFault>
    ensures { Gives result text.now (record_of text.now) }
{
    let HeapLine { config, length } = match first_line(text) {
        Ok(line) => line,
        Err(fault) => return Err(fault),
    };
    let mut history = Record::new(alloc, config);
    let mut rest = &text[length + 1..];
    let mut count = 1u64;
    'lines: while has_feed(rest) {
        let FrontEvent { length, event } = front_event::<RECORD>(count, &config, rest);
        let event = match event {
            Ok(event) => event,
            Err(kind) => {
                return Err(LineFault {
                    line: count + 1,
                    kind,
                });
            }
        };
        let Ok(()) = history.push(event) else {
            return Err(LineFault {
                line: count + 1,
                kind: Kind::NoMemory,
            });
        };
        rest = &rest[length + 1..];
        count += 1;
    }
    if rest.is_empty() {
        Ok(history)
    } else {
        Err(LineFault {
            line: count + 1,
            kind: Kind::Cut,
        })
    }
}
