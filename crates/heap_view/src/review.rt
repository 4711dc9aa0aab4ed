//! A record whose steps are done again, answered by a view of its heap.

ghost use Rattle.std.specs.Prelude.{◌≡◌, IfOk, IfErr, OnOk, All, map};
ghost use Rattle.heap_words.specs.Configs.{Suits};
ghost use Rattle.heap_words.specs.declared.config.Config.{Config};
ghost use Rattle.heap_steps.specs.Actors.{AreEvents, IsStep};
ghost use Rattle.step_core.specs.Passages.{step_in};
ghost use Rattle.heap_view.specs.Reviews.{GoesTo, IsRedoFault, IsReviewOf, Reviews, beginning_of};

use crate::glance::Glance;
use crate::view::{first_of, text_of};
use heap_steps::{Event, Record, RunFault, Step};
use heap_words::config::Config;
use job_ends::JobFault;
use jobs::{first_other, read_record};
use script_text::{WatchedReader, WatchedWriter, write_bytes};
use std::alloc::{AllocError, Global};
use std::io::{Read, Write};
use step_core::{Core, run_to_core};
use type_names::Types;

/// The steps of events.
fn steps_of(alloc: Global, events: &[Event]) -> Result<Vec<Step>, AllocError>
    ensures value { IfOk result (λ steps. steps.items ≡ map step_in events.now) }
    ensures known { IfOk result (λ steps. (config : Config) → AreEvents config events.now → All (IsStep config) steps.items) }
{
    let mut steps = Vec::with_capacity(alloc, events.len())?;
    for event in events {
        steps.push(event.step)?;
    }
    Ok(steps)
}

/// A new heap after the steps of events, whose replies have to be the heap's.
fn core_over(alloc: Global, config: &Config, events: &[Event]) -> Result<Core, JobFault>
    requires { AreEvents config.now events.now }
    ensures goes { IfOk result (GoesTo (record { config = config.now; events = events.now })) }
    ensures suits { OnOk result (Suits config.now) }
    ensures fault { IfErr result (IsRedoFault (record { config = config.now; events = events.now })) }
{
    if let Err(fault) = config.check() {
        return Err(JobFault::Run(RunFault::Heap(fault)));
    }
    let Ok(steps) = steps_of(alloc, events) else {
        return Err(JobFault::Run(RunFault::NoMemory));
    };
    let (ran, core) = match run_to_core(alloc, config, steps.as_slice()) {
        Ok(both) => both,
        Err(fault) => return Err(JobFault::Run(fault)),
    };
    match first_other(events, ran.events()) {
        Some(place) => Err(JobFault::Differs(place as u64 + 1)),
        None => Ok(core),
    }
}

/// What is viewed of a new heap after the first so many events of a record.
fn review_of(
    alloc: Global,
    history: &Record,
    glance: &Glance,
    types: &Types,
) -> Result<Vec<u8>, JobFault>
    ensures text { IfOk result (λ text. IsReviewOf glance.now types.now history.now text.items) }
    ensures fault { IfErr result (IsRedoFault (beginning_of glance.now.at history.now)) }
{
    let events = first_of(history.events(), glance.at);
    let core = match core_over(alloc, &history.config(), events) {
        Ok(core) => core,
        Err(fault) => return Err(fault),
    };
    match text_of(alloc, &core, glance, types) {
        Ok(text) => Ok(text),
        Err(fault) => Err(JobFault::Run(fault)),
    }
}

/// Reads a record to the end of input, does its steps again in their order in a new heap, and writes what is viewed of the heap as it
/// is then. A record to whose event the heap gives another reply is refused, and the fault names the first such event. Nothing is
/// written before the steps are done.
pub fn view_record<R: Read, W: Write>(
    alloc: Global,
    glance: &Glance,
    types: &Types,
    reader: &mut WatchedReader<R>,
    writer: &mut WatchedWriter<W>,
) -> Result<(), JobFault>
    ensures { Reviews glance.now types.now reader.old reader.new writer.old writer.new result }
{
    let history = read_record(alloc, reader)?;
    let text = match review_of(alloc, &history, glance, types) {
        Ok(text) => text,
        Err(fault) => return Err(fault),
    };
    match write_bytes(writer, text.as_slice()) {
        Ok(()) => Ok(()),
        Err(fault) => Err(JobFault::Write(fault)),
    }
}
