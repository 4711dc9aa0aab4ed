//! A record that is read, and its replies compared with those of its steps done again.

ghost use Rattle.std.specs.Prelude.{◌≡◌, ◌≢◌, ◌<◌, IfSome, None, Some, false, true, length, map, slice_get};
ghost use Rattle.jobs.specs.Replays.{reply_in, DifferFrom};
ghost use Rattle.job_ends.specs.Runs.{ReadsRecord};

use heap_steps::{Event, Record, Reply};
use job_ends::JobFault;
use script_text::{WatchedReader, parse_record, read_text};
use std::alloc::Global;
use std::io::Read;

/// Reads a record to the end of input.
pub fn read_record<R: Read>(
    alloc: Global,
    reader: &mut WatchedReader<R>,
) -> Result<Record, JobFault>
    ensures { ReadsRecord reader.old reader.new result }
{
    let text = match read_text(alloc, reader) {
        Ok(text) => text,
        Err(fault) => return Err(JobFault::Read(fault)),
    };
    match parse_record(alloc, text.as_slice()) {
        Ok(history) => Ok(history),
        Err(fault) => Err(JobFault::Line(fault)),
    }
}

/// Whether a reply is another one.
fn is_other(given: Reply, ran: Reply) -> bool
    ensures same { result ≡ false → ran ≡ given }
    ensures other { result ≡ true → ran ≢ given }
{
    given != ran
}

/// The reply of the event at a place.
fn reply_at(events: &[Event], index: usize) -> Reply
    requires { index < length events.now }
    ensures { slice_get (map reply_in events.now) index ≡ Some result }
{
    events[index].reply
}

/// The place of the first event whose reply was another one when its step was done again, counted from 0.
pub fn first_other(given: &[Event], ran: &[Event]) -> Option<usize>
    requires { length ran.now ≡ length given.now }
    ensures none { result ≡ None → map reply_in ran.now ≡ map reply_in given.now }
    ensures some { IfSome result (DifferFrom given.now ran.now) }
{
    for index in 0..given.len() {
        if is_other(reply_at(given, index), reply_at(ran, index)) {
            return Some(index);
        }
    }
    None
}
