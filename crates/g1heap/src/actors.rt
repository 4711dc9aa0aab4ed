//! A script whose actors take turns, by a seed's draws or in threads, answered by its record.

ghost use Rattle.g1heap.specs.Runs.{EndsIn};

use command_line::Order;
use job_ends::{JobFault, answer, read_plan};
use mutators::{run_threads, simulate};
use script_text::{WatchedReader, WatchedWriter};
use std::alloc::Global;
use std::io::{Read, Write};
use std::sync::Wait;
use std::thread::Threads;

/// Reads a script to the end of input, does each actor's lines in their order, the actors in turns that the seed draws, and writes the
/// record. Nothing is written before the run has ended well.
pub fn simulate_script<R: Read, W: Write>(
    alloc: Global,
    seed: u64,
    refiners: u32,
    markers: u32,
    reader: &mut WatchedReader<R>,
    writer: &mut WatchedWriter<W>,
) -> Result<(), JobFault>
    ensures { EndsIn (Order.Drawn seed refiners markers) reader.old reader.new writer.old writer.new result }
{
    let plan = read_plan(alloc, reader)?;
    let outcome = simulate(alloc, &plan, seed, refiners, markers);
    drop(plan);
    answer(alloc, outcome, writer)
}

/// Reads a script to the end of input, does each actor's lines in their order, the actors in turns that the threads of so many workers
/// come to, and writes the record. Nothing is written before the run has ended well.
pub fn thread_script<H: Threads + Wait + Sync, R: Read, W: Write>(
    rt: &H,
    alloc: Global,
    workers: u32,
    refiners: u32,
    markers: u32,
    reader: &mut WatchedReader<R>,
    writer: &mut WatchedWriter<W>,
) -> Result<(), JobFault>
    ensures { EndsIn (Order.Concurrent workers refiners markers) reader.old reader.new writer.old writer.new result }
{
    let plan = read_plan(alloc, reader)?;
    let outcome = run_threads(rt, alloc, &plan, workers, refiners, markers);
    drop(plan);
    answer(alloc, outcome, writer)
}
