//! A record's events, read from its text one by one, so that no list of them is kept and each line is read once.
//!
//! ```text
//!   heap 4 16 8 1 0            new reads this line alone
//!   1 0 new r0 1 1 = #0
//!   2 0 get r1 r0 0 = nil  <-- the lines that are left: next_event reads the first of them, next_usual does where it is a usual one,
//!   3 gc pause 100 = moved 0 0 check_rest reads all of them, for a fault alone
//! ```

ghost use Rattle.std.specs.Prelude.{◌≡◌, ◌≢◌, ◌<◌, ◌+◌, ◌^◌, ◌∷◌, [], length, Some, None, Ok, Err};
ghost use Rattle.std.specs.Prelude.{OnOk, IfOk, IfErr, IfSome, IfNone};
ghost use Rattle.heap_steps.specs.Actors.{IsEvent};
ghost use Rattle.script_text.specs.Lines.{pieces_of};
ghost use Rattle.script_text.specs.Events.{record_of};
ghost use Rattle.script_text.specs.EventsLeft.{fault_ahead, history_of};

use crate::fault::{Kind, LineFault};
use crate::read::callers::{CHECKED_EVENTS, NEXT_EVENT, USUAL_EVENT};
use crate::read::records::front_event;
use crate::read::script::{HeapLine, first_line};
use crate::read::usual_events::{EventLine, usual_event};
use crate::read::words::has_feed;
use heap_steps::Event;
use heap_words::config::Config;
use std::marker::Model;

/// Reads lines to their end for the first fault. The first of them is that of the event of this count.
fn check_events(first: u64, config: &Config, lines: &[u8]) -> Result<(), LineFault>
    requires { first + length lines.now < 2 ^ 64 }
    ensures ok { OnOk result (fault_ahead first config.now (pieces_of lines.now) ≡ None) }
    ensures fault { IfErr result (λ f. fault_ahead first config.now (pieces_of lines.now) ≡ Some f) }
    ensures memory { IfErr result (λ f. f.kind ≢ Kind.NoMemory) }
{
    let mut rest = lines;
    let mut count = first;
    'lines: while has_feed(rest) {
        let front = front_event::<CHECKED_EVENTS>(count, config, rest);
        if let Err(kind) = front.event {
            return Err(LineFault {
                line: count + 1,
                kind,
            });
        }
        rest = &rest[front.length + 1..];
        count += 1;
    }
    if rest.is_empty() {
        Ok(())
    } else {
        Err(LineFault {
            line: count + 1,
            kind: Kind::Cut,
        })
    }
}

/// A record's text after its heap line. Clauses see the heap line, the events that are left up to the first line with a fault, and that
/// fault, if there is one. The events are taken one by one.
#[derive(Drop)]
pub struct RecordEvents<'a> {
    config: Config,
    lines: &'a [u8],
    /// The count of the first event that is left.
    count: u64,
}

impl<'a> Model for RecordEvents<'a> {
    ghost use Rattle.std.specs.Prelude.{◌<◌, ◌+◌, ◌^◌, length};
    ghost use Rattle.script_text.specs.EventsLeft.{EventsLeft, left_in};

    ghost Value = { EventsLeft };

    ghost view = { λ r. left_in r.count r.config r.lines.now };

    ghost invariant = { λ r. r.count + length r.lines.now < 2 ^ 64 };
}

impl<'a> RecordEvents<'a> {
    /// The record that a text spells, or the fault of its first line. No other line is read yet, and no memory is taken.
    ///
    /// ```rust
    /// let events = RecordEvents::new(record)?;
    /// let fault = LineFault { line: 1, kind: Kind::BadHeap };
    /// assert_eq!(rt; RecordEvents::new(b"heap 4\n").err(), Some(fault));
    /// ```
    pub fn new(text: &'a [u8]) -> Result<RecordEvents<'a>, LineFault>
        ensures history { IfOk result (λ left. record_of text.now ≡ history_of left) }
        ensures few { IfOk result (λ left. length left.events < 2 ^ 64) }
        ensures fault { IfErr result (λ fault. record_of text.now ≡ Err fault) }
        ensures memory { IfErr result (λ fault. fault.kind ≢ Kind.NoMemory) }
    {
        match first_line(text) {
            Ok(line) => Ok(RecordEvents {
                config: line.config,
                lines: &text[line.length + 1..],
                count: 1,
            }),
            Err(fault) => Err(fault),
        }
    }

    /// The record's heap line.
    ///
    /// ```rust
    /// assert_eq!(rt; RecordEvents::new(record)?.config().regions, 4);
    /// ```
    pub fn config(&self) -> Config
        ensures { result ≡ self.now.config }
    {
        self.config
    }

    /// Takes the next event, where its line is one of the usual ones, which are read in one go. Where it isn't, or no event is left, none
    /// is taken and nothing changes: `next_event` takes whatever is left. The event is made where the caller has it, and not copied.
    ///
    /// ```rust
    /// let history = parse_record(alloc, record)?;
    /// let mut events = RecordEvents::new(record)?;
    /// assert_eq!(rt; events.next_usual(), Some(history.events()[0]));
    /// assert_eq!(rt; events.next_usual(), None);
    /// ```
    #[inline(always)]
    pub fn next_usual(&mut self) -> Option<Event>
        ensures config { self.new.config ≡ self.old.config }
        ensures kept { self.new.fault ≡ self.old.fault }
        ensures some { IfSome result (λ event. self.old.events ≡ event ∷ self.new.events) }
        ensures known { IfSome result (IsEvent self.old.config) }
        ensures same { IfNone result (self.new ≡ self.old) }
    {
        let lines = self.lines;
        if !has_feed(lines) {
            return None;
        }
        let Some(EventLine { event, length }) = usual_event::<USUAL_EVENT>(
            self.count,
            &self.config,
            lines,
        ) else {
            return None;
        };
        self.lines = &lines[length + 1..];
        self.count += 1;
        Some(event)
    }

    /// Takes the next event, read from its line. None where no event is left. There, and where the next line has a fault, nothing changes.
    ///
    /// ```rust
    /// let history = parse_record(alloc, record)?;
    /// let mut events = RecordEvents::new(record)?;
    /// assert_eq!(rt; events.next_event(), Ok(Some(history.events()[0])));
    /// assert_eq!(rt; events.next_event(), Ok(None));
    /// ```
    #[inline(never)]
    pub fn next_event(&mut self) -> Result<Option<Event>, LineFault>
        ensures config { self.new.config ≡ self.old.config }
        ensures kept { self.new.fault ≡ self.old.fault }
        ensures some { IfOk result (λ next. IfSome next (λ event. self.old.events ≡ event ∷ self.new.events)) }
        ensures known { IfOk result (λ next. IfSome next (IsEvent self.old.config)) }
        ensures none { IfOk result (λ next. IfNone next (self.old.events ≡ [])) }
        ensures good { IfOk result (λ next. IfNone next (self.old.fault ≡ None)) }
        ensures same { IfOk result (λ next. IfNone next (self.new ≡ self.old)) }
        ensures last { IfErr result (λ fault. self.old.events ≡ []) }
        ensures fault { IfErr result (λ fault. self.old.fault ≡ Some fault) }
        ensures memory { IfErr result (λ fault. fault.kind ≢ Kind.NoMemory) }
        ensures still { IfErr result (λ fault. self.new ≡ self.old) }
    {
        let lines = self.lines;
        if !has_feed(lines) {
            if lines.is_empty() {
                return Ok(None);
            }
            return Err(LineFault {
                line: self.count + 1,
                kind: Kind::Cut,
            });
        }
        let front = front_event::<NEXT_EVENT>(self.count, &self.config, lines);
        match front.event {
            Ok(event) => {
                self.lines = &lines[front.length + 1..];
                self.count += 1;
                Ok(Some(event))
            }
            Err(kind) => Err(LineFault {
                line: self.count + 1,
                kind,
            }),
        }
    }

    /// Reads all lines that are left for a fault, and takes none of them.
    ///
    /// ```rust
    /// assert_eq!(rt; RecordEvents::new(record)?.check_rest(), Ok(()));
    /// let fault = LineFault { line: 2, kind: Kind::BadCount };
    /// assert_eq!(rt; RecordEvents::new(b"heap 4 16 8 1 0\n\n")?.check_rest(), Err(fault));
    /// ```
    pub fn check_rest(&self) -> Result<(), LineFault>
        ensures good { OnOk result (self.now.fault ≡ None) }
        ensures fault { IfErr result (λ fault. self.now.fault ≡ Some fault) }
        ensures memory { IfErr result (λ fault. fault.kind ≢ Kind.NoMemory) }
    {
        check_events(self.count, &self.config, self.lines)
    }
}
