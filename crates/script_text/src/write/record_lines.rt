//! A record's lines on their way to a writer, put one by one: whoever makes the events one after another needs no list of them.
//!
//! ```text
//!   put       heap 4 16 8 1 0 | 1 0 new r0 1 1 = #0 | 2 0 read r0 0 = 0 |
//!   written   heap 4 16 8 1 0 | 1 0 new
//!   held                                r0 1 1 = #0 | 2 0 read r0 0 = 0 |
//! ```
//!
//! What is held is in one buffer of fixed room, which is written out when a line has no room in it.

ghost use Rattle.std.specs.Prelude.{◌≡◌, ◌≢◌, ◌≤◌, ◌<◌, ◌+◌, ◌^◌, ◌++◌, ◌∷◌, [], ℕ, List, IfOk, IfErr, OnOk, OnErr, take, length};
ghost use Rattle.heap_steps.specs.Actors.{EventList};
ghost use Rattle.heap_steps.specs.declared.step.Event as events;
ghost use Rattle.script_text.specs.Records.{record_text, IsToldBy};
ghost use Rattle.script_text.specs.Watched.{Writer, TookBytes, TakesPart, FailsToTake};
ghost use Rattle.script_text.specs.Written.{AreLinesOf, no_events, with_events};

use crate::fault::WriteFault;
use crate::watched::WatchedWriter;
use crate::write::counts::Count;
use crate::write::lines::{LINE_ROOM, put_event, put_heap, put_told};
use crate::write::writing::write_bytes;
use heap_steps::{Event, Record, Reply};
use heap_words::config::Config;
use std::alloc::{AllocError, Global};
use std::io::Write;
use std::marker::Model;

/// How many bytes are gathered before they are written out.
const ROOM: usize = 8192;

/// Makes room for a line after the first `at` bytes: where there is none, writes them out. Answers how many
/// bytes are still to be written.
fn make_room<W: Write>(
    writer: &mut WatchedWriter<W>,
    buffer: &[u8],
    at: usize,
) -> Result<usize, WriteFault>
    requires full { length buffer.now ≡ ROOM }
    requires within { at ≤ ROOM }
    ensures room { IfOk result (λ left. left + LINE_ROOM ≤ ROOM) }
    ensures ok { IfOk result (λ left. (written : List ℕ) ×
        TookBytes writer.old writer.new written × (take at buffer.now ≡ written ++ take left buffer.now)) }
    ensures err { OnErr result (TakesPart writer.old writer.new (take at buffer.now)) }
    ensures memory { result ≢ Err WriteFault.NoMemory }
{
    if at <= ROOM - LINE_ROOM {
        return Ok(at);
    }
    write_bytes(writer, &buffer[..at])?;
    Ok(0)
}

/// The lines of a record that are put and not yet written, in a buffer of fixed room.
#[derive(Drop)]
pub struct RecordLines {
    buffer: Vec<u8>,
    at: usize,
    count: Count,
    events: u64,
}

impl Model for RecordLines {
    ghost use Rattle.std.specs.Prelude.{◌≡◌, ◌≤◌, length, take};
    ghost use Rattle.script_text.specs.Counts.{Spells};
    ghost use Rattle.script_text.specs.Written.{Lines};

    ghost Value = { Lines };

    ghost view = { λ l. record { events = l.events; held = take l.at l.buffer.items } };

    ghost invariant = { λ l. (length l.buffer.items ≡ 8192) × (l.at ≤ 8192) × Spells l.count l.events };
}

impl RecordLines {
    /// The heap line, of which nothing is written yet.
    ///
    /// ```rust
    /// let history = parse_record(alloc, record)?;
    /// let mut writer = WatchedWriter::new(Vec::new(alloc));
    /// let lines = RecordLines::new(alloc, &history.config())?;
    /// lines.finish(&mut writer)?;
    /// assert_eq!(rt; writer.into_inner().as_slice(), b"heap 4 16 8 1 0\n".as_slice());
    /// ```
    pub fn new(alloc: Global, config: &Config) -> Result<RecordLines, AllocError>
        ensures { IfOk result (λ lines. (w : Writer) → AreLinesOf (no_events config.now) w w lines) }
    {
        let mut buffer = Vec::new(alloc);
        buffer.resize(ROOM, 0u8)?;
        let at = put_heap(&mut buffer, 0, config);
        Ok(RecordLines {
            buffer,
            at,
            count: Count::zero(),
            events: 0,
        })
    }

    /// Puts the line of the next event. Where there is no room for it what is held is written; where the writer refuses, a beginning of
    /// what was put before is written, and not all of it.
    ///
    /// ```rust
    /// let history = parse_record(alloc, record)?;
    /// let mut writer = WatchedWriter::new(Vec::new(alloc));
    /// let mut lines = RecordLines::new(alloc, &history.config())?;
    /// lines.put(&history.events()[0], &mut writer)?;
    /// lines.finish(&mut writer)?;
    /// assert_eq!(rt; writer.into_inner().as_slice(), record.as_slice());
    /// ```
    #[inline(always)]
    pub fn put<W: Write>(
        &mut self,
        event: &Event,
        writer: &mut WatchedWriter<W>,
    ) -> Result<(), WriteFault>
        requires { self.old.events + 1 < 2 ^ 64 }
        ensures ok { OnOk result ((first : Writer) (r : EventList) → AreLinesOf r first writer.old self.old
            → AreLinesOf (with_events r (event.now ∷ [])) first writer.new self.new) }
        ensures count { OnOk result (self.new.events ≡ self.old.events + 1) }
        ensures err { OnErr result ((first : Writer) (r : EventList) (more : List events.Event) → AreLinesOf r first writer.old self.old
            → TakesPart first writer.new (record_text (with_events r more))) }
        ensures memory { result ≢ Err WriteFault.NoMemory }
    {
        match make_room(writer, &self.buffer, self.at) {
            Ok(left) => {
                self.count.count_on(self.events);
                self.events += 1;
                self.at = put_event(&mut self.buffer, left, &self.count, event);
                Ok(())
            }
            Err(fault) => Err(fault),
        }
    }

    /// Puts the line of the next event as `put` does, where a script's line tells its actor and its step: the bytes are copied.
    ///
    /// ```rust
    /// let history = parse_record(alloc, record)?;
    /// let mut writer = WatchedWriter::new(Vec::new(alloc));
    /// let mut lines = RecordLines::new(alloc, &history.config())?;
    /// lines.put_line(b"0 new r0 1 1", Reply::Named(Some(0)), &mut writer)?;
    /// lines.finish(&mut writer)?;
    /// assert_eq!(rt; writer.into_inner().as_slice(), record.as_slice());
    /// ```
    #[inline(always)]
    pub fn put_line<W: Write>(
        &mut self,
        line: &[u8],
        reply: Reply,
        writer: &mut WatchedWriter<W>,
    ) -> Result<(), WriteFault>
        requires few { self.old.events + 1 < 2 ^ 64 }
        requires short { length line.now ≤ 120 }
        ensures ok { OnOk result ((first : Writer) (r : EventList) (e : events.Event) → IsToldBy line.now reply e
            → AreLinesOf r first writer.old self.old → AreLinesOf (with_events r (e ∷ [])) first writer.new self.new) }
        ensures count { OnOk result (self.new.events ≡ self.old.events + 1) }
        ensures err { OnErr result ((first : Writer) (r : EventList) (more : List events.Event) → AreLinesOf r first writer.old self.old
            → TakesPart first writer.new (record_text (with_events r more))) }
        ensures memory { result ≢ Err WriteFault.NoMemory }
    {
        match make_room(writer, &self.buffer, self.at) {
            Ok(left) => {
                self.count.count_on(self.events);
                self.events += 1;
                self.at = put_told(&mut self.buffer, left, &self.count, line, reply);
                Ok(())
            }
            Err(fault) => Err(fault),
        }
    }

    /// Writes what is held. Where the writer refuses, a beginning of the text is written, and not all of it.
    ///
    /// ```rust
    /// let mut writer = WatchedWriter::new(Vec::new(alloc));
    /// let lines = RecordLines::new(alloc, &parse_record(alloc, record)?.config())?;
    /// lines.finish(&mut writer)?;
    /// assert_eq!(rt; writer.into_inner().len(), 16);
    /// ```
    pub fn finish<W: Write>(self, writer: &mut WatchedWriter<W>) -> Result<(), WriteFault>
        ensures ok { OnOk result ((first : Writer) (r : EventList) → AreLinesOf r first writer.old self
            → TookBytes first writer.new (record_text r)) }
        ensures err { OnErr result ((first : Writer) (r : EventList) → AreLinesOf r first writer.old self
            → TakesPart first writer.new (record_text r)) }
        ensures memory { result ≢ Err WriteFault.NoMemory }
    {
        write_bytes(writer, &self.buffer[..self.at])
    }
}

/// Puts the lines of events, in their order.
fn put_lines<W: Write>(
    lines: &mut RecordLines,
    events: &[Event],
    writer: &mut WatchedWriter<W>,
) -> Result<(), WriteFault>
    requires { lines.old.events ≡ 0 }
    ensures ok { OnOk result ((first : Writer) (r : EventList) → AreLinesOf r first writer.old lines.old
        → AreLinesOf (with_events r events.now) first writer.new lines.new) }
    ensures err { OnErr result ((first : Writer) (r : EventList) → AreLinesOf r first writer.old lines.old
        → TakesPart first writer.new (record_text (with_events r events.now))) }
    ensures memory { result ≢ Err WriteFault.NoMemory }
{
    for index in 0..events.len() {
        match lines.put(&events[index], writer) {
            Ok(()) => {}
            Err(fault) => return Err(fault),
        }
    }
    Ok(())
}

/// Writes the text of a record. Where the writer refuses, a beginning of the text is written, and not all of it;
/// where memory is refused, nothing is.
///
/// ```rust
/// let history = parse_record(alloc, record)?;
/// let mut writer = WatchedWriter::new(Vec::new(alloc));
/// write_record(alloc, &history, &mut writer)?;
/// assert_eq!(rt; writer.into_inner().as_slice(), record.as_slice());
/// ```
pub fn write_record<W: Write>(
    alloc: Global,
    history: &Record,
    writer: &mut WatchedWriter<W>,
) -> Result<(), WriteFault>
    ensures ok { OnOk result (TookBytes writer.old writer.new (record_text history.now)) }
    ensures err { IfErr result (λ fault. FailsToTake fault writer.old writer.new (record_text history.now)) }
{
    let Ok(mut lines) = RecordLines::new(alloc, &history.config()) else {
        return Err(WriteFault::NoMemory);
    };
    match put_lines(&mut lines, history.events(), writer) {
        Ok(()) => lines.finish(writer),
        Err(fault) => Err(fault),
    }
}
