//! The lines of a record, each taken as soon as it is whole.
//!
//! ```text
//!   reader --fill--> | what waits           |
//!                    | line | line | line.. |   a line feed ends a line: only then is it taken
//!   next_heap, next_event take the first one
//! ```
//!
//! What waits is in one buffer of fixed room, so a text of any length takes no more memory.

ghost use Rattle.std.specs.Prelude.{◌≡◌, ◌≤◌, ◌<◌, ◌+◌, ◌-◌, ◌++◌, [], ℕ, List, length, take, drop};
ghost use Rattle.std.specs.Prelude.{Ok, Err, IfOk, IfErr, IfSome, IfNone, true, false};
ghost use Rattle.std.specs.Io.KnownBytes.{IsAtEnd};
ghost use Rattle.heap_steps.specs.Actors.{IsEvent};
ghost use Rattle.script_text.specs.Feeds.{end_of, line_of};
ghost use Rattle.script_text.specs.Lines.{heap_line_of};
ghost use Rattle.script_text.specs.Events.{event_line_of};
ghost use Rattle.script_text.specs.Watched.{Gives, FailsToGive};
ghost use Rattle.script_text.specs.Awaited.{EndsLine, IsUnended, IsNext};
ghost use Rattle.script_text.specs.Waiting.{EndsWhole};

use crate::fault::{Kind, ReadFault};
use crate::read::callers::AWAITED_EVENT;
use crate::read::records::front_event;
use crate::read::script::{LONGEST_LINE, heap_line};
use crate::read::words::split_front;
use crate::watched::WatchedReader;
use heap_steps::Event;
use heap_words::config::Config;
use memchr::memrchr;
use std::alloc::{AllocError, Global};
use std::io::Read;
use std::marker::Model;

/// How many bytes may wait.
const ROOM: usize = 8192;

/// Why the next line can't be taken.
#[derive(Clone, Copy, Debug, PartialEq, Eq)]
pub enum NextFault {
    /// The line has a fault.
    Line(Kind),
    /// Reading failed.
    Read(ReadFault),
}

/// A heap line at a text's front, without its line feed: how many bytes it has, and what it gives.
#[derive(Clone, Copy)]
struct FrontHeap {
    length: usize,
    config: Result<Config, Kind>,
}

/// What the line at a text's front gives as a heap line. A line feed ends it.
fn front_heap(text: &[u8]) -> FrontHeap
    requires ended { end_of text.now < length text.now }
    ensures length { result.length ≡ end_of text.now }
    ensures config { result.config ≡ heap_line_of (line_of text.now) }
{
    let mut words: [&[u8]; 12] = [&text[..0]; 12];
    let front = split_front(text, &mut words);
    FrontHeap {
        length: front.length,
        config: heap_line(&text[..front.length], &words[..front.count]),
    }
}

/// Where the whole lines of some bytes end: after the last line feed, or at the front, where there is none.
#[inline(never)]
fn whole_end(bytes: &[u8]) -> usize
    ensures { EndsWhole bytes.now 0 result (length bytes.now) }
{
    match memrchr(b'\n', bytes) {
        Some(at) => at + 1,
        None => 0,
    }
}

/// Moves the bytes between two places to the front, and reads once after them. Answers where what was read ends.
fn read_behind<R: Read>(
    reader: &mut WatchedReader<R>,
    bytes: &mut [u8],
    start: usize,
    end: usize,
) -> Result<usize, ReadFault>
    requires begun { start ≤ end }
    requires within { end ≤ length bytes.old }
    requires room { end - start < length bytes.old }
    ensures more { IfOk result (λ all. (more : List ℕ) ×
        Gives reader.old reader.new more × (take all bytes.new ≡ take (end - start) (drop start bytes.old) ++ more) ×
        (all ≡ end - start + length more) × (length more ≡ 0 → IsAtEnd reader.new.left)) }
    ensures within { IfOk result (λ all. all ≤ length bytes.old) }
    ensures fails { IfErr result (λ fault. FailsToGive fault reader.old reader.new) }
{
    bytes[..end].rotate_left(start);
    let waiting = end - start;
    match reader.read_some(&mut bytes[waiting..]) {
        Ok(count) => Ok(waiting + count),
        Err(fault) => Err(fault),
    }
}

/// The bytes of a record that were read and aren't taken yet. Clauses see the list of them; a line begins at its front.
#[derive(Drop)]
pub struct LineBuffer {
    bytes: Vec<u8>,
    start: usize,
    /// Where the whole lines end. It is found whenever more was read: so no line feed is looked for where a line is taken.
    whole: usize,
    end: usize,
}

impl Model for LineBuffer {
    ghost use Rattle.std.specs.Prelude.{◌≡◌, ◌≤◌, ◌-◌, ℕ, List, length, take, drop};
    ghost use Rattle.script_text.specs.Waiting.{EndsWhole};

    ghost Value = { List ℕ };

    ghost view = { λ b. take (b.end - b.start) (drop b.start b.bytes.items) };

    ghost invariant = { λ b. EndsWhole b.bytes.items b.start b.whole b.end × (b.end ≤ length b.bytes.items)
        × (length b.bytes.items ≡ 8192) };
}

impl LineBuffer {
    /// A buffer in which nothing waits.
    ///
    /// ```rust
    /// let mut lines = LineBuffer::new(alloc)?;
    /// let mut reader = WatchedReader::new(record.as_slice());
    /// assert!(rt; lines.next_heap(&mut reader)?.is_some());
    /// ```
    pub fn new(alloc: Global) -> Result<LineBuffer, AllocError>
        ensures { IfOk result (λ lines. lines ≡ []) }
    {
        let mut bytes = Vec::new(alloc);
        bytes.resize(ROOM, 0u8)?;
        Ok(LineBuffer {
            bytes,
            start: 0,
            whole: 0,
            end: 0,
        })
    }

    /// How many bytes wait.
    fn len(&self) -> usize
        ensures { result ≡ length self.now }
    {
        self.end - self.start
    }

    /// What the line at the front gives as a heap line, where it is whole. It is taken, unless it has a fault.
    fn take_heap(&mut self) -> Option<Result<Config, Kind>>
        ensures config { IfSome result (λ r. IfOk r (λ x. (line : List ℕ) × EndsLine self.old line self.new × (heap_line_of line ≡ Ok x))) }
        ensures fault { IfSome result (λ r. IfErr r (λ k. (line : List ℕ) × (rest : List ℕ) ×
            EndsLine self.old line rest × (heap_line_of line ≡ Err k) × (self.new ≡ self.old))) }
        ensures none { IfNone result (IsUnended self.old × (self.new ≡ self.old)) }
    {
        if self.start == self.whole {
            return None;
        }
        let front = front_heap(&self.bytes[self.start..self.end]);
        match front.config {
            Ok(config) => {
                self.start += front.length + 1;
                Some(Ok(config))
            }
            Err(kind) => Some(Err(kind)),
        }
    }

    /// The same of an event of this count.
    #[inline(always)]
    fn take_event(&mut self, count: u64, config: &Config) -> Option<Result<Event, Kind>>
        ensures event { IfSome result (λ r. IfOk r (λ e. (line : List ℕ) ×
            EndsLine self.old line self.new × (event_line_of count config.now line ≡ Ok e) × IsEvent config.now e)) }
        ensures fault { IfSome result (λ r. IfErr r (λ k. (line : List ℕ) × (rest : List ℕ) ×
            EndsLine self.old line rest × (event_line_of count config.now line ≡ Err k) × (self.new ≡ self.old))) }
        ensures none { IfNone result (IsUnended self.old × (self.new ≡ self.old)) }
    {
        if self.start == self.whole {
            return None;
        }
        let front = front_event::<AWAITED_EVENT>(count, config, &self.bytes[self.start..self.end]);
        match front.event {
            Ok(event) => {
                self.start += front.length + 1;
                Some(Ok(event))
            }
            Err(kind) => Some(Err(kind)),
        }
    }

    /// Reads once after what waits, and answers how many bytes that were.
    fn read_more<R: Read>(&mut self, reader: &mut WatchedReader<R>) -> Result<usize, ReadFault>
        requires { length self.old ≤ 120 }
        ensures more { IfOk result (λ count. (more : List ℕ) × Gives reader.old reader.new more ×
            (self.new ≡ self.old ++ more) × (length more ≡ count) × (count ≡ 0 → IsAtEnd reader.new.left)) }
        ensures fails { IfErr result (λ fault. FailsToGive fault reader.old reader.new) }
    {
        let waiting = self.len();
        match read_behind(reader, &mut self.bytes, self.start, self.end) {
            Ok(end) => {
                self.start = 0;
                self.whole = whole_end(&self.bytes[..end]);
                self.end = end;
                Ok(end - waiting)
            }
            Err(fault) => {
                self.start = 0;
                self.whole = 0;
                self.end = 0;
                Err(fault)
            }
        }
    }

    /// Reads more after what waits, where that is no whole line and no longer than one may be. Answers whether there was more.
    fn read_on<R: Read>(&mut self, reader: &mut WatchedReader<R>) -> Result<bool, NextFault>
        ensures more { result ≡ Ok true → (more : List ℕ) ×
            Gives reader.old reader.new more × (self.new ≡ self.old ++ more) × (0 < length more) × (length self.old ≤ 120) }
        ensures end { result ≡ Ok false → Gives reader.old reader.new [] × IsAtEnd reader.new.left × (self.new ≡ self.old) }
        ensures line { (k : Kind) → result ≡ Err (NextFault.Line k) →
            Gives reader.old reader.new [] × (self.new ≡ self.old) × (120 < length self.old) × (k ≡ Kind.LongLine) }
        ensures fails { (f : ReadFault) → result ≡ Err (NextFault.Read f) → FailsToGive f reader.old reader.new }
    {
        if self.len() > LONGEST_LINE {
            return Err(NextFault::Line(Kind::LongLine));
        }
        match self.read_more(reader) {
            Ok(count) => Ok(count > 0),
            Err(fault) => Err(NextFault::Read(fault)),
        }
    }

    /// Waits for the heap line, and takes it. `None`: the input ended before.
    ///
    /// ```rust
    /// let mut lines = LineBuffer::new(alloc)?;
    /// let mut reader = WatchedReader::new(record.as_slice());
    /// let config = lines.next_heap(&mut reader)?;
    /// assert_eq!(rt; config.map(|it| it.regions), Some(4));
    /// ```
    pub fn next_heap<R: Read>(
        &mut self,
        reader: &mut WatchedReader<R>,
    ) -> Result<Option<Config>, NextFault>
        ensures { IsNext heap_line_of self.old self.new reader.old reader.new result }
    {
        loop {
            if let Some(taken) = self.take_heap() {
                return match taken {
                    Ok(config) => Ok(Some(config)),
                    Err(kind) => Err(NextFault::Line(kind)),
                };
            }
            match self.read_on(reader) {
                Ok(true) => {}
                Ok(false) => return Ok(None),
                Err(fault) => return Err(fault),
            }
        }
    }

    /// Waits for the line of the event of this count, and takes it. `None`: the input ended before; what waits then is a beginning of a
    /// line. A line with a fault isn't taken.
    ///
    /// ```rust
    /// let mut lines = LineBuffer::new(alloc)?;
    /// let mut reader = WatchedReader::new(record.as_slice());
    /// if let Some(config) = lines.next_heap(&mut reader)? {
    ///     assert!(rt; lines.next_event(&mut reader, 1, &config)?.is_some());
    ///     assert!(rt; lines.next_event(&mut reader, 2, &config)?.is_none());
    /// }
    /// ```
    pub fn next_event<R: Read>(
        &mut self,
        reader: &mut WatchedReader<R>,
        count: u64,
        config: &Config,
    ) -> Result<Option<Event>, NextFault>
        ensures next { IsNext (event_line_of count config.now) self.old self.new reader.old reader.new result }
        ensures known { IfOk result (λ taken. IfSome taken (IsEvent config.now)) }
    {
        loop {
            if let Some(taken) = self.take_event(count, config) {
                return match taken {
                    Ok(event) => Ok(Some(event)),
                    Err(kind) => Err(NextFault::Line(kind)),
                };
            }
            match self.read_on(reader) {
                Ok(true) => {}
                Ok(false) => return Ok(None),
                Err(fault) => return Err(fault),
            }
        }
    }
}
