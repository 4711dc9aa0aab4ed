//! What the program does with a job.

ghost use Rattle.std.specs.Prelude.{◌≡◌, false, true};
ghost use Rattle.g1heap.specs.Runs.{EndsIn};
ghost use Rattle.command_line.specs.Asked.{asked_by};
ghost use Rattle.g1heap.specs.Jobs.{DoesCheck, DoesDraw, DoesJob, DoesView, glance_of};

use crate::actors::{simulate_script, thread_script};
use crate::explained::do_explained;
use command_line::{Job, Order, Task, Viewed};
use heap_life::{draw_record, draw_script};
use heap_view::{Glance, view_record, view_script};
use job_ends::{JobFault, conclude};
use jobs::{explain_and_conclude, follow_and_conclude, judge_and_conclude};
use script_runs::run_script;
use script_text::{WatchedReader, WatchedWriter};
use std::alloc::Global;
use std::io::{Read, Write};
use std::sync::Wait;
use std::thread::Threads;
use type_names::Types;

/// Does a script's steps in an order.
pub(crate) fn do_script<H: Threads + Wait + Sync, R: Read, W: Write>(
    rt: &H,
    alloc: Global,
    order: Order,
    reader: &mut WatchedReader<R>,
    out: &mut WatchedWriter<W>,
) -> Result<(), JobFault>
    ensures { EndsIn order reader.old reader.new out.old out.new result }
{
    match order {
        Order::File => run_script(alloc, reader, out),
        Order::Drawn {
            seed,
            refiners,
            markers,
        } => simulate_script(alloc, seed, refiners, markers, reader, out),
        Order::Concurrent {
            workers,
            refiners,
            markers,
        } => thread_script(rt, alloc, workers, refiners, markers, reader, out),
    }
}

/// Judges a record in a file of this name, with the reason of a no where it is to be explained, or as it is written, and answers the
/// program's status.
fn do_check<R: Read, W: Write, E: Write>(
    alloc: Global,
    name: &str,
    explained: bool,
    followed: bool,
    reader: &mut WatchedReader<R>,
    out: &mut WatchedWriter<W>,
    err: &mut WatchedWriter<E>,
) -> u8
    ensures { DoesCheck name.now explained followed reader.old reader.new out.old out.new err.old err.new result }
{
    if followed {
        follow_and_conclude(alloc, explained, reader, out, err)
    } else if explained {
        explain_and_conclude(alloc, name, reader, out, err)
    } else {
        judge_and_conclude(alloc, reader, out, err)
    }
}

/// What of a heap a task views.
pub(crate) fn glance_of(at: Option<u32>, viewed: Viewed) -> Glance
    ensures { result ≡ glance_of at viewed }
{
    match viewed {
        Viewed::Regions { region, summary } => Glance {
            at,
            viewed: heap_view::Viewed::Regions { region, summary },
        },
        Viewed::Object(name) => Glance {
            at,
            viewed: heap_view::Viewed::Object(name),
        },
        Viewed::Path(name) => Glance {
            at,
            viewed: heap_view::Viewed::Path(name),
        },
        Viewed::Census => Glance {
            at,
            viewed: heap_view::Viewed::Census,
        },
        Viewed::Snapshot => Glance {
            at,
            viewed: heap_view::Viewed::Snapshot,
        },
    }
}

/// Views the heap of a script, or of a record, with these names for types, and answers the program's status.
fn do_view<R: Read, W: Write, E: Write>(
    alloc: Global,
    recorded: bool,
    glance: &Glance,
    types: &Types,
    reader: &mut WatchedReader<R>,
    out: &mut WatchedWriter<W>,
    err: &mut WatchedWriter<E>,
) -> u8
    ensures { DoesView recorded glance.now types.now reader.old reader.new out.old out.new err.old err.new result }
{
    if recorded {
        let viewed = view_record(alloc, glance, types, reader, out);
        conclude(viewed, err)
    } else {
        let viewed = view_script(alloc, glance, types, reader, out);
        conclude(viewed, err)
    }
}

/// Draws the life of a script's heap, or of a record's, in a file of this name, with these names for shapes, and answers the program's
/// status.
fn do_draw<R: Read, W: Write, E: Write>(
    alloc: Global,
    name: &str,
    names: &[u8],
    recorded: bool,
    every: u32,
    reader: &mut WatchedReader<R>,
    out: &mut WatchedWriter<W>,
    err: &mut WatchedWriter<E>,
) -> u8
    ensures { DoesDraw name.now names.now recorded every reader.old reader.new out.old out.new err.old err.new result }
{
    if recorded {
        let drawn = draw_record(alloc, name, names, every, reader, out);
        conclude(drawn, err)
    } else {
        let drawn = draw_script(alloc, name, names, every, reader, out);
        conclude(drawn, err)
    }
}

/// Does a task with a file of this name and these names, whose faults aren't to be explained, and answers the program's status.
fn do_plain<H: Threads + Wait + Sync, R: Read, W: Write, E: Write>(
    rt: &H,
    alloc: Global,
    name: &str,
    names: &[u8],
    types: &Types,
    task: Task,
    reader: &mut WatchedReader<R>,
    out: &mut WatchedWriter<W>,
    err: &mut WatchedWriter<E>,
) -> u8
    ensures { DoesJob names.now types.now (name.now, task, false) reader.old reader.new out.old out.new err.old err.new result }
{
    match task {
        Task::Script(order) => {
            let outcome = do_script(rt, alloc, order, reader, out);
            conclude(outcome, err)
        }
        Task::Check { followed } => do_check(alloc, name, false, followed, reader, out, err),
        Task::View {
            recorded,
            at,
            viewed,
        } => {
            let glance = glance_of(at, viewed);
            do_view(alloc, recorded, &glance, types, reader, out, err)
        }
        Task::Draw { every, recorded } => {
            do_draw(alloc, name, names, recorded, every, reader, out, err)
        }
    }
}

/// Does a task with a file of this name and these names, and explains its fault, and answers the program's status.
fn do_explaining<H: Threads + Wait + Sync, R: Read, W: Write, E: Write>(
    rt: &H,
    alloc: Global,
    name: &str,
    names: &[u8],
    types: &Types,
    task: Task,
    reader: &mut WatchedReader<R>,
    out: &mut WatchedWriter<W>,
    err: &mut WatchedWriter<E>,
) -> u8
    ensures { DoesJob names.now types.now (name.now, task, true) reader.old reader.new out.old out.new err.old err.new result }
{
    match task {
        Task::Check { followed } => do_check(alloc, name, true, followed, reader, out, err),
        Task::Script(_) | Task::View { .. } | Task::Draw { .. } => {
            do_explained(rt, alloc, name, names, types, task, reader, out, err)
        }
    }
}

/// Does the job, with these names for shapes in a page and for types in a view, and answers the program's status.
pub fn do_job<H: Threads + Wait + Sync, R: Read, W: Write, E: Write>(
    rt: &H,
    alloc: Global,
    job: &Job,
    names: &[u8],
    types: &Types,
    reader: &mut WatchedReader<R>,
    out: &mut WatchedWriter<W>,
    err: &mut WatchedWriter<E>,
) -> u8
    ensures { DoesJob names.now types.now (asked_by job.now) reader.old reader.new out.old out.new err.old err.new result }
{
    let name = job.file();
    let task = job.task();
    let explained = job.explained();
    if explained {
        return do_explaining(rt, alloc, name, names, types, task, reader, out, err);
    }
    do_plain(rt, alloc, name, names, types, task, reader, out, err)
}
