//! A task whose faults are to be explained: its text is read first, and the task done over it.

ghost use Rattle.std.specs.Prelude.{◌≡◌, ◌≢◌, Bool, if◌then◌else◌};
ghost use Rattle.command_line.specs.declared.Task.TheVariants.{Check};
ghost use Rattle.g1heap.specs.Jobs.{DoesExplained, EndsAs, TellsOver, kind_of, no_counts, counts_in, counts_of};

use crate::job::{do_script, glance_of};
use command_line::{Order, Task};
use heap_life::{draw_record, draw_script};
use heap_view::{view_record, view_script};
use job_ends::JobFault;
use jobs::{Counts, conclude_explained, conclude_unread};
use script_text::{TextKind, WatchedReader, WatchedWriter, read_text};
use std::alloc::Global;
use std::io::{Read, Write};
use std::sync::Wait;
use std::thread::Threads;
use type_names::Types;

/// Does a task that does a heap's steps, of a file of this name, with these names for shapes in a page and for types in a view.
fn do_task<H: Threads + Wait + Sync, R: Read, W: Write>(
    rt: &H,
    alloc: Global,
    name: &str,
    names: &[u8],
    types: &Types,
    task: Task,
    reader: &mut WatchedReader<R>,
    out: &mut WatchedWriter<W>,
) -> Result<(), JobFault>
    requires { (followed : Bool) → task ≢ Check followed }
    ensures { EndsAs name.now names.now types.now task reader.old reader.new out.old out.new result }
{
    match task {
        Task::Script(order) => do_script(rt, alloc, order, reader, out),
        Task::View {
            recorded,
            at,
            viewed,
        } => {
            let glance = glance_of(at, viewed);
            if recorded {
                view_record(alloc, &glance, types, reader, out)
            } else {
                view_script(alloc, &glance, types, reader, out)
            }
        }
        Task::Draw { every, recorded } => {
            if recorded {
                draw_record(alloc, name, names, every, reader, out)
            } else {
                draw_script(alloc, name, names, every, reader, out)
            }
        }
        Task::Check { .. } => unreachable!(),
    }
}

/// What a text is read as that is a record or else a script.
fn kind_if(recorded: bool) -> TextKind
    ensures { result ≡ (if recorded then TextKind.Record else TextKind.Script) }
{
    if recorded {
        TextKind::Record
    } else {
        TextKind::Script
    }
}

/// What a task reads a text as.
fn kind_of(task: Task) -> TextKind
    ensures { result ≡ kind_of task }
{
    match task {
        Task::Script(_) => TextKind::Script,
        Task::Check { .. } => TextKind::Record,
        Task::View { recorded, .. } => kind_if(recorded),
        Task::Draw { recorded, .. } => kind_if(recorded),
    }
}

/// No threads, and no background actors.
fn no_counts() -> Counts
    ensures { result ≡ no_counts }
{
    Counts {
        workers: None,
        refiners: 0,
        markers: 0,
    }
}

/// How many threads and background actors an order has.
fn counts_in(order: Order) -> Counts
    ensures { result ≡ counts_in order }
{
    match order {
        Order::File => no_counts(),
        Order::Drawn {
            refiners,
            markers,
            ..
        } => Counts {
            workers: None,
            refiners,
            markers,
        },
        Order::Concurrent {
            workers,
            refiners,
            markers,
        } => Counts {
            workers: Some(workers),
            refiners,
            markers,
        },
    }
}

/// How many threads and background actors a task was asked for.
fn counts_of(task: Task) -> Counts
    ensures { result ≡ counts_of task }
{
    match task {
        Task::Script(order) => counts_in(order),
        Task::Check { .. } | Task::View { .. } | Task::Draw { .. } => no_counts(),
    }
}

/// Does a task over the text of a file of this name, and tells and explains its end.
fn do_over<H: Threads + Wait + Sync, W: Write, E: Write>(
    rt: &H,
    alloc: Global,
    name: &str,
    names: &[u8],
    types: &Types,
    task: Task,
    text: &[u8],
    out: &mut WatchedWriter<W>,
    err: &mut WatchedWriter<E>,
) -> u8
    requires { (followed : Bool) → task ≢ Check followed }
    ensures { TellsOver name.now names.now types.now task text.now out.old out.new err.old err.new result }
{
    let outcome = do_task(
        rt,
        alloc,
        name,
        names,
        types,
        task,
        &mut WatchedReader::new(text),
        out,
    );
    conclude_explained(outcome, kind_of(task), text, counts_of(task), err)
}

/// Reads a task's text, from a file of this name, does the task over it, and answers the program's status. Where the text can't be read,
/// standard error is told why.
pub(crate) fn do_explained<H: Threads + Wait + Sync, R: Read, W: Write, E: Write>(
    rt: &H,
    alloc: Global,
    name: &str,
    names: &[u8],
    types: &Types,
    task: Task,
    reader: &mut WatchedReader<R>,
    out: &mut WatchedWriter<W>,
    err: &mut WatchedWriter<E>,
) -> u8
    requires { (followed : Bool) → task ≢ Check followed }
    ensures { DoesExplained name.now names.now types.now task reader.old reader.new out.old out.new err.old err.new result }
{
    match read_text(alloc, reader) {
        Ok(text) => do_over(
            rt,
            alloc,
            name,
            names,
            types,
            task,
            text.as_slice(),
            out,
            err,
        ),
        Err(fault) => conclude_unread(fault, name, reader.reason(), err),
    }
}
