//! A record whose steps are done again, answered by the page of its heap's life.

ghost use Rattle.std.specs.Prelude.{IfOk, IfErr};
ghost use Rattle.heap_life.specs.Redrawings.{Redraws, IsPageOfHistory, IsHistoryFault};

use crate::life::live;
use crate::page::page_of;
use heap_steps::{Record, RunFault};
use job_ends::JobFault;
use jobs::{first_other, read_record};
use script_text::{WatchedReader, WatchedWriter, write_bytes};
use std::alloc::Global;
use std::io::{Read, Write};

/// The page of a new heap's life over the steps of a record, whose replies have to be the heap's, drawn of a file of this name, with
/// these names for shapes.
fn page_over_history(
    alloc: Global,
    name: &str,
    names: &[u8],
    history: &Record,
    every: u32,
) -> Result<Vec<u8>, JobFault>
    ensures page { IfOk result (λ page. IsPageOfHistory name.now names.now every history.now page.items) }
    ensures fault { IfErr result (IsHistoryFault history.now) }
{
    let life = match live(alloc, history, every) {
        Ok(life) => life,
        Err(fault) => return Err(JobFault::Run(fault)),
    };
    if let Some(place) = first_other(history.events(), life.history.events()) {
        return Err(JobFault::Differs(place as u64 + 1));
    }
    match page_of(alloc, name, names, &life) {
        Ok(page) => Ok(page),
        Err(_) => Err(JobFault::Run(RunFault::NoMemory)),
    }
}

/// Reads a record to the end of input, does its steps again in their order in a new heap, and writes the page of the heap's life as
/// `draw_script` does. A record to whose event the heap gives another reply is refused, and the fault names the first such event. Nothing
/// is written before the page is whole.
pub fn draw_record<R: Read, W: Write>(
    alloc: Global,
    name: &str,
    names: &[u8],
    every: u32,
    reader: &mut WatchedReader<R>,
    writer: &mut WatchedWriter<W>,
) -> Result<(), JobFault>
    ensures { Redraws name.now names.now every reader.old reader.new writer.old writer.new result }
{
    let history = read_record(alloc, reader)?;
    let page = match page_over_history(alloc, name, names, &history, every) {
        Ok(page) => page,
        Err(fault) => return Err(fault),
    };
    match write_bytes(writer, page.as_slice()) {
        Ok(()) => Ok(()),
        Err(fault) => Err(JobFault::Write(fault)),
    }
}
