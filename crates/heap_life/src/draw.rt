//! A script that is read and run, and answered by the page of its heap's life.

ghost use Rattle.std.specs.Prelude.{IfOk, IfErr};
ghost use Rattle.heap_steps.specs.Faults.{IsRunFault};
ghost use Rattle.heap_life.specs.declared.life.Life.{Life};
ghost use Rattle.heap_life.specs.Lives.{IsLifeOf};
ghost use Rattle.heap_life.specs.Pages.{IsPageOf};
ghost use Rattle.heap_life.specs.Drawings.{Draws, IsPageOfPlan};

use crate::life::{live, planned};
use crate::page::page_of;
use heap_steps::{Plan, Record, RunFault};
use job_ends::{JobFault, read_plan};
use script_text::{WatchedReader, WatchedWriter, write_bytes};
use std::alloc::Global;
use std::io::{Read, Write};

/// The page of a new heap's life over the steps of events, drawn of a file of this name, with these names for shapes.
fn page_over(
    alloc: Global,
    name: &str,
    names: &[u8],
    events: &Record,
    every: u32,
) -> Result<Vec<u8>, RunFault>
    ensures page { IfOk result (λ page. (life : Life) × IsLifeOf every events.now life × IsPageOf name.now names.now life page.items) }
    ensures fault { IfErr result (IsRunFault events.now.config) }
{
    let life = match live(alloc, events, every) {
        Ok(life) => life,
        Err(fault) => return Err(fault),
    };
    match page_of(alloc, name, names, &life) {
        Ok(page) => Ok(page),
        Err(_) => Err(RunFault::NoMemory),
    }
}

/// The page of a new heap's life over the steps of a plan, drawn of a file of this name, with these names for shapes.
fn page_over_plan(
    alloc: Global,
    name: &str,
    names: &[u8],
    plan: &Plan,
    every: u32,
) -> Result<Vec<u8>, RunFault>
    ensures page { IfOk result (λ page. IsPageOfPlan name.now names.now every plan.now page.items) }
    ensures fault { IfErr result (IsRunFault plan.now.config) }
{
    let config = plan.config();
    if let Err(fault) = config.check() {
        return Err(RunFault::Heap(fault));
    }
    let Ok(events) = planned(alloc, plan) else {
        return Err(RunFault::NoMemory);
    };
    page_over(alloc, name, names, &events, every)
}

/// Reads a script to the end of input, does its steps in their order in a new heap, and writes the page of the heap's life, with a moment
/// each `every` events, and before and after each step of the collector, or fewer where they would be too many. Nothing is written before
/// the page is whole. The page tells `name` as the name of the script's file, and `names` as names for shapes,
/// none where they are empty; any name and any bytes are safe.
pub fn draw_script<R: Read, W: Write>(
    alloc: Global,
    name: &str,
    names: &[u8],
    every: u32,
    reader: &mut WatchedReader<R>,
    writer: &mut WatchedWriter<W>,
) -> Result<(), JobFault>
    ensures { Draws name.now names.now every reader.old reader.new writer.old writer.new result }
{
    let plan = read_plan(alloc, reader)?;
    let page = match page_over_plan(alloc, name, names, &plan, every) {
        Ok(page) => page,
        Err(fault) => return Err(JobFault::Run(fault)),
    };
    match write_bytes(writer, page.as_slice()) {
        Ok(()) => Ok(()),
        Err(fault) => Err(JobFault::Write(fault)),
    }
}
