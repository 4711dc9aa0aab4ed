//! The whole program: its words, the file that they name, and the status.

ghost use Rattle.std.specs.Prelude.{◌≡◌, ◌≢◌, ◌≤◌, ◌⊎◌, ℕ, Bool, List, Option, Some, map, string_bytes};
ghost use Rattle.clap.specs.Values.{kind_of};
ghost use Rattle.script_text.specs.Watched.{Reader, Writer, FailsToGive, WritesNothing};
ghost use Rattle.job_ends.specs.FaultLines.{TellsLine};
ghost use Rattle.command_line.specs.Asked.{Asked, Asks, asked_by, names_by, names_of, types_by, types_of};
ghost use Rattle.command_line.specs.declared.Task.TheVariants.{Check};
ghost use Rattle.g1heap.specs.Jobs.{DoesAsked, DoesBy, DoesCheck, DoesJob, DoesNamed, DoesTask, DoesTyped, DoesWith, DoesWithTypes};

use crate::job::do_job;
use clap::Error;
use clap::error::ErrorKind;
use command_line::{Job, Task, misspelt, read_words};
use heap_steps::RunFault;
use job_ends::{JobFault, conclude};
use jobs::{conclude_unread, conclude_verdict};
use script_text::{ReadFault, WatchedReader, WatchedWriter, read_text};
use std::alloc::Global;
use std::env::Env;
use std::fs::Files;
use std::io::{ErrorKind as Reason, Read, Write};
use std::sync::Wait;
use std::thread::Threads;
use std::{env, fs, io};
use type_names::{Types, TypesFault, conclude_types, read_types};

/// Tells that a record to be judged can't be opened, and why where that is to be explained, and answers the program's status.
fn unopened_check<E: Write>(
    name: &str,
    explained: bool,
    followed: bool,
    reason: Reason,
    err: &mut WatchedWriter<E>,
) -> u8
    ensures { (given left : Reader) (old new : Writer) → FailsToGive ReadFault.CannotRead given left → WritesNothing old new
        → DoesCheck name.now explained followed given left old new err.old err.new result }
{
    if followed {
        return conclude_verdict(Err(JobFault::Read(ReadFault::CannotRead)), err);
    }
    if explained {
        return conclude_unread(ReadFault::CannotRead, name, Some(reason), err);
    }
    conclude_verdict(Err(JobFault::Read(ReadFault::CannotRead)), err)
}

/// Tells that the file of another task can't be opened, and why where that is to be explained, and answers the program's status.
fn unopened_task<E: Write>(
    name: &str,
    task: Task,
    explained: bool,
    reason: Reason,
    err: &mut WatchedWriter<E>,
) -> u8
    requires { (followed : Bool) → task ≢ Check followed }
    ensures { (names types : List ℕ) (given left : Reader) (old new : Writer) → FailsToGive ReadFault.CannotRead given left
        → WritesNothing old new
        → DoesJob names types (name.now, task, explained) given left old new err.old err.new result }
{
    if explained {
        return conclude_unread(ReadFault::CannotRead, name, Some(reason), err);
    }
    conclude(Err(JobFault::Read(ReadFault::CannotRead)), err)
}

/// Tells that a job's file can't be opened, and why where that is to be explained, and answers the program's status.
fn conclude_unopened<E: Write>(job: &Job, reason: Reason, err: &mut WatchedWriter<E>) -> u8
    ensures { (names types : List ℕ) (given left : Reader) (old new : Writer) → FailsToGive ReadFault.CannotRead given left
        → WritesNothing old new
        → DoesJob names types (asked_by job.now) given left old new err.old err.new result }
{
    let name = job.file();
    let task = job.task();
    let explained = job.explained();
    match task {
        Task::Check { followed } => unopened_check(name, explained, followed, reason, err),
        Task::Script(_) | Task::View { .. } | Task::Draw { .. } => {
            unopened_task(name, task, explained, reason, err)
        }
    }
}

/// Opens the job's file and does the job, with these names for shapes in a page and for types in a view, and answers the program's
/// status. A file that can't be
/// opened is told as a reader that refused.
pub fn open_and_do<H: Files + Threads + Wait + Sync, W: Write, E: Write>(
    rt: &H,
    alloc: Global,
    job: &Job,
    names: &[u8],
    types: &Types,
    out: &mut WatchedWriter<W>,
    err: &mut WatchedWriter<E>,
) -> u8
    ensures { (given left : Reader) × DoesJob names.now types.now (asked_by job.now) given left out.old out.new err.old err.new result }
{
    match fs::open(rt, job.file()) {
        Ok(file) => do_job(
            rt,
            alloc,
            job,
            names,
            types,
            &mut WatchedReader::new(file),
            out,
            err,
        ),
        Err(error) => conclude_unopened(job, error.kind(), err),
    }
}

/// Does the job with the file that it names, or with `input` where that is `-`, and with these names for shapes in a page, and answers the
/// program's status.
fn do_asked<H: Files + Threads + Wait + Sync, I: Read, W: Write, E: Write>(
    rt: &H,
    alloc: Global,
    job: &Job,
    names: &[u8],
    types: &Types,
    input: &mut WatchedReader<I>,
    out: &mut WatchedWriter<W>,
    err: &mut WatchedWriter<E>,
) -> u8
    ensures { DoesAsked names.now types.now (asked_by job.now) input.old input.new out.old out.new err.old err.new result }
{
    let name = job.file();
    if name == "-" {
        return do_job(rt, alloc, job, names, types, input, out, err);
    }
    open_and_do(rt, alloc, job, names, types, out, err)
}

/// Reads names for shapes from the file of this path, to its end, and does the job with them, and answers the program's status. Where the
/// file can't be read, standard error is told its path, and why.
fn do_with<H: Files + Threads + Wait + Sync, N: Read, I: Read, W: Write, E: Write>(
    rt: &H,
    alloc: Global,
    job: &Job,
    path: &str,
    file: &mut WatchedReader<N>,
    input: &mut WatchedReader<I>,
    out: &mut WatchedWriter<W>,
    err: &mut WatchedWriter<E>,
) -> u8
    ensures { DoesWith path.now file.old file.new (asked_by job.now) input.old input.new out.old out.new err.old err.new result }
{
    match read_text(alloc, file) {
        Ok(names) => {
            let types = Types::new(alloc);
            do_asked(rt, alloc, job, names.as_slice(), &types, input, out, err)
        }
        Err(fault) => conclude_unread(fault, path, file.reason(), err),
    }
}

/// Opens the file of this path, and does the job with its names for shapes, and answers the program's status.
fn open_and_name<H: Files + Threads + Wait + Sync, I: Read, W: Write, E: Write>(
    rt: &H,
    alloc: Global,
    job: &Job,
    path: &str,
    input: &mut WatchedReader<I>,
    out: &mut WatchedWriter<W>,
    err: &mut WatchedWriter<E>,
) -> u8
    ensures { (types : Option (List ℕ))
        → DoesNamed (Some path.now) types (asked_by job.now) input.old input.new out.old out.new err.old err.new result }
{
    match fs::open(rt, path) {
        Ok(file) => do_with(
            rt,
            alloc,
            job,
            path,
            &mut WatchedReader::new(file),
            input,
            out,
            err,
        ),
        Err(error) => conclude_unread(ReadFault::CannotRead, path, Some(error.kind()), err),
    }
}

/// Does the job with the names for types that the text of a file of this path gives, and answers the program's status. Where a line has a
/// mistake, standard error is told which, with the path.
fn do_by<H: Files + Threads + Wait + Sync, I: Read, W: Write, E: Write>(
    rt: &H,
    alloc: Global,
    job: &Job,
    path: &str,
    text: &[u8],
    input: &mut WatchedReader<I>,
    out: &mut WatchedWriter<W>,
    err: &mut WatchedWriter<E>,
) -> u8
    ensures { DoesBy path.now text.now (asked_by job.now) input.old input.new out.old out.new err.old err.new result }
{
    match read_types(alloc, text) {
        Ok(types) => do_asked(rt, alloc, job, &[], &types, input, out, err),
        Err(TypesFault::Line { line, mistake }) => conclude_types(line, mistake, path, err),
        Err(TypesFault::NoMemory) => conclude(Err(JobFault::Run(RunFault::NoMemory)), err),
    }
}

/// Reads names for types from the file of this path, to its end, and does the job with them, and answers the program's status. Where the
/// file can't be read, standard error is told its path, and why.
fn do_with_types<H: Files + Threads + Wait + Sync, N: Read, I: Read, W: Write, E: Write>(
    rt: &H,
    alloc: Global,
    job: &Job,
    path: &str,
    file: &mut WatchedReader<N>,
    input: &mut WatchedReader<I>,
    out: &mut WatchedWriter<W>,
    err: &mut WatchedWriter<E>,
) -> u8
    ensures { DoesWithTypes path.now file.old file.new (asked_by job.now) input.old input.new out.old out.new err.old err.new result }
{
    match read_text(alloc, file) {
        Ok(text) => do_by(rt, alloc, job, path, text.as_slice(), input, out, err),
        Err(fault) => conclude_unread(fault, path, file.reason(), err),
    }
}

/// Opens the file of this path, and does the job with its names for types, and answers the program's status.
fn open_types<H: Files + Threads + Wait + Sync, I: Read, W: Write, E: Write>(
    rt: &H,
    alloc: Global,
    job: &Job,
    path: &str,
    input: &mut WatchedReader<I>,
    out: &mut WatchedWriter<W>,
    err: &mut WatchedWriter<E>,
) -> u8
    ensures { DoesTyped (Some path.now) (asked_by job.now) input.old input.new out.old out.new err.old err.new result }
{
    match fs::open(rt, path) {
        Ok(file) => do_with_types(
            rt,
            alloc,
            job,
            path,
            &mut WatchedReader::new(file),
            input,
            out,
            err,
        ),
        Err(error) => conclude_unread(ReadFault::CannotRead, path, Some(error.kind()), err),
    }
}

/// Does the job, with the names for types of the file that it names, and answers the program's status.
fn do_typed<H: Files + Threads + Wait + Sync, I: Read, W: Write, E: Write>(
    rt: &H,
    alloc: Global,
    job: &Job,
    input: &mut WatchedReader<I>,
    out: &mut WatchedWriter<W>,
    err: &mut WatchedWriter<E>,
) -> u8
    ensures { DoesTyped (types_by job.now) (asked_by job.now) input.old input.new out.old out.new err.old err.new result }
{
    match job.types() {
        Some(path) => open_types(rt, alloc, job, path, input, out, err),
        None => {
            let types = Types::new(alloc);
            do_asked(rt, alloc, job, &[], &types, input, out, err)
        }
    }
}

/// Does the job, with the names for shapes or types of the file that it names, and answers the program's status.
fn do_named<H: Files + Threads + Wait + Sync, I: Read, W: Write, E: Write>(
    rt: &H,
    alloc: Global,
    job: &Job,
    input: &mut WatchedReader<I>,
    out: &mut WatchedWriter<W>,
    err: &mut WatchedWriter<E>,
) -> u8
    ensures { DoesNamed (names_by job.now) (types_by job.now) (asked_by job.now) input.old input.new out.old out.new err.old err.new
        result }
{
    match job.names() {
        Some(path) => open_and_name(rt, alloc, job, path, input, out, err),
        None => do_typed(rt, alloc, job, input, out, err),
    }
}

/// Answers words that ask for no job: status 0 for help, which goes to standard output, and 2 for a mistake, whose text goes to
/// standard error; 1 where memory was refused.
pub fn refuse<W: Write, E: Write>(
    error: &Error,
    out: &mut WatchedWriter<W>,
    err: &mut WatchedWriter<E>,
) -> u8
    ensures memory { kind_of error.now ≡ ErrorKind.OutOfMemory
        → (result ≡ 1) × WritesNothing out.old out.new × TellsLine (JobFault.Run RunFault.NoMemory) err.old err.new }
    ensures mistake { kind_of error.now ≢ ErrorKind.OutOfMemory → kind_of error.now ≢ ErrorKind.DisplayHelp
        → kind_of error.now ≢ ErrorKind.DisplayVersion → (result ≡ 2) × WritesNothing out.old out.new }
    ensures help { (kind_of error.now ≡ ErrorKind.DisplayHelp) ⊎ (kind_of error.now ≡ ErrorKind.DisplayVersion)
        → (result ≡ 0) × WritesNothing err.old err.new }
{
    if error.kind() == ErrorKind::OutOfMemory {
        return conclude(Err(JobFault::Run(RunFault::NoMemory)), err);
    }
    if error.use_stderr() {
        let _ = write!(err, "{error}");
        2
    } else {
        let _ = write!(out, "{error}");
        0
    }
}

/// Does what words ask for, the program's name first, and answers the status.
pub fn do_words<H: Files + Threads + Wait + Sync, I: Read, W: Write, E: Write>(
    rt: &H,
    alloc: Global,
    words: &[String],
    input: &mut WatchedReader<I>,
    out: &mut WatchedWriter<W>,
    err: &mut WatchedWriter<E>,
) -> u8
    ensures asked { (asked : Asked) → Asks (map string_bytes words.now) asked
        → DoesTask (names_of (map string_bytes words.now)) (types_of (map string_bytes words.now)) asked
        input.old input.new out.old out.new err.old err.new result }
    ensures most { result ≤ 3 }
{
    match read_words(alloc, words) {
        Ok(job) => do_named(rt, alloc, &job, input, out, err),
        Err(error) => refuse(&error, out, err),
    }
}

/// The words of the command line, the program's name first. A fault is want of memory, or a word that isn't text.
fn words<R: Env + AllocGlobal>(rt: &R) -> io::Result<Vec<String>> {
    let args = env::args(rt)?;
    Ok(args.collect(rt.alloc())?)
}

/// Does what the command line asks for, and answers the program's status.
pub fn program<R: Env + Files + AllocGlobal + Threads + Wait + Sync, I: Read, W: Write, E: Write>(
    rt: &R,
    input: &mut WatchedReader<I>,
    out: &mut WatchedWriter<W>,
    err: &mut WatchedWriter<E>,
) -> u8
    ensures { result ≤ 3 }
{
    match words(rt) {
        Ok(words) => do_words(rt, rt.alloc(), words.as_slice(), input, out, err),
        Err(error) => {
            if error.kind() == io::ErrorKind::OutOfMemory {
                return conclude(Err(JobFault::Run(RunFault::NoMemory)), err);
            }
            refuse(&misspelt(rt.alloc()), out, err)
        }
    }
}
