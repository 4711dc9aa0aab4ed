//! A script that is read, and the record by which its run is answered.

ghost use Rattle.job_ends.specs.Runs.{ReadsPlan, Answers};

use crate::faults::JobFault;
use heap_steps::{Plan, Record, RunFault};
use script_text::{WatchedReader, WatchedWriter, parse, read_text, write_record};
use std::alloc::Global;
use std::io::{Read, Write};

/// Reads a script to the end of input.
pub fn read_plan<R: Read>(alloc: Global, reader: &mut WatchedReader<R>) -> Result<Plan, JobFault>
    ensures { ReadsPlan reader.old reader.new result }
{
    let text = match read_text(alloc, reader) {
        Ok(text) => text,
        Err(fault) => return Err(JobFault::Read(fault)),
    };
    match parse(alloc, text.as_slice()) {
        Ok(plan) => Ok(plan),
        Err(fault) => Err(JobFault::Line(fault)),
    }
}

/// Writes the record that came of a run, and nothing where the run failed.
pub fn answer<W: Write>(
    alloc: Global,
    outcome: Result<Record, RunFault>,
    writer: &mut WatchedWriter<W>,
) -> Result<(), JobFault>
    ensures { Answers outcome writer.old writer.new result }
{
    let history = match outcome {
        Ok(history) => history,
        Err(fault) => return Err(JobFault::Run(fault)),
    };
    match write_record(alloc, &history, writer) {
        Ok(()) => Ok(()),
        Err(fault) => Err(JobFault::Write(fault)),
    }
}
