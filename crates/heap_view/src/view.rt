//! A script that is read and run, and answered by a view of its heap after the last step.
//!
//! The view is gathered in memory, so that nothing is written before it is whole.

ghost use Rattle.std.specs.Prelude.{◌≡◌, IfOk, IfErr};
ghost use Rattle.heap_steps.specs.Faults.{IsRunFault};
ghost use Rattle.heap_view.specs.Glances.{IsViewText};
ghost use Rattle.heap_view.specs.Views.{front, IsViewOf, Views};

use crate::glance::{Glance, view_text};
use heap_steps::{Plan, RunFault};
use job_ends::{JobFault, read_plan};
use script_text::{WatchedReader, WatchedWriter, write_bytes};
use std::alloc::Global;
use std::io::{Read, Write};
use step_core::{Core, run_to_core};
use type_names::Types;

/// The text of a view, whose only fault is want of memory.
pub(crate) fn text_of(
    alloc: Global,
    core: &Core,
    glance: &Glance,
    types: &Types,
) -> Result<Vec<u8>, RunFault>
    ensures text { IfOk result (λ text. IsViewText glance.now types.now core.now text.items) }
    ensures memory { IfErr result (λ fault. fault ≡ RunFault.NoMemory) }
{
    match view_text(alloc, core, glance, types) {
        Ok(text) => Ok(text),
        Err(_) => Err(RunFault::NoMemory),
    }
}

/// The first so many of a list, or all.
pub(crate) fn first_of<T>(items: &[T], at: Option<u32>) -> &[T]
    ensures { result.now ≡ front at items.now }
{
    match at {
        Some(count) => &items[..items.len().min(count as usize)],
        None => items,
    }
}

/// The view of a new heap after the first so many steps of a plan.
fn view_of(alloc: Global, plan: &Plan, glance: &Glance, types: &Types) -> Result<Vec<u8>, RunFault>
    ensures text { IfOk result (λ text. IsViewOf glance.now types.now plan.now text.items) }
    ensures fault { IfErr result (IsRunFault plan.now.config) }
{
    match run_to_core(alloc, &plan.config(), first_of(plan.steps(), glance.at)) {
        Ok((_record, core)) => text_of(alloc, &core, glance, types),
        Err(fault) => Err(fault),
    }
}

/// Reads a script to the end of input, does its steps in a new heap, and writes what is viewed of the heap as it is then, with the names of
/// these types in a census and in a snapshot. Nothing is written before the run has ended well.
pub fn view_script<R: Read, W: Write>(
    alloc: Global,
    glance: &Glance,
    types: &Types,
    reader: &mut WatchedReader<R>,
    writer: &mut WatchedWriter<W>,
) -> Result<(), JobFault>
    ensures { Views glance.now types.now reader.old reader.new writer.old writer.new result }
{
    let plan = read_plan(alloc, reader)?;
    let text = match view_of(alloc, &plan, glance, types) {
        Ok(text) => text,
        Err(fault) => return Err(JobFault::Run(fault)),
    };
    match write_bytes(writer, text.as_slice()) {
        Ok(()) => Ok(()),
        Err(fault) => Err(JobFault::Write(fault)),
    }
}
