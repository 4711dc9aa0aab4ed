//! Why a job wasn't done, and the lines on standard error, one for each fault.

ghost use Rattle.std.specs.Prelude.{◌≡◌, ◌≢◌, ◌≤◌, ◌+◌, ◌++◌, OnOk, OnErr, length, take};
ghost use Rattle.script_text.specs.Watched.{TookBytes, TakesPart};
ghost use Rattle.job_ends.specs.FaultLines.{sizes_words, run_words, judge_words, write_words, event_words, fault_words, fault_line};
ghost use Rattle.job_ends.specs.Runs.{TellsEnd};

use heap_steps::RunFault;
use heap_words::config::NewFault;
use script_text::{
    LineFault, ReadFault, WatchedWriter, WriteFault, put_fault, put_number, put_text, write_bytes,
};
use std::io::Write;
use thiserror::Error;

/// Why a record wasn't judged.
#[derive(Clone, Copy, Debug, PartialEq, Eq, Error)]
pub enum JudgeFault {
    /// No heap can have the sizes of the heap line.
    #[error("heap: {0}")]
    Heap(NewFault),
    /// Memory was refused.
    #[error("check: NoMemory")]
    NoMemory,
}

/// Why a job wasn't done, by the part that failed.
#[derive(Clone, Copy, Debug, PartialEq, Eq, Error)]
pub enum JobFault {
    #[error("cannot read")]
    Read(ReadFault),
    #[error("{0}")]
    Line(LineFault),
    #[error("run: {0}")]
    Run(RunFault),
    #[error("{0}")]
    Judge(JudgeFault),
    #[error("cannot write")]
    Write(WriteFault),
    /// To this event of a record, counted from 1, the heap gives another reply.
    #[error("event {0}: 1 OtherReply")]
    Differs(u64),
}

/// The bytes that a fault's line needs.
pub const FAULT_ROOM: usize = 64;

fn sizes_words(fault: NewFault) -> &'static [u8]
    ensures words { result.now ≡ sizes_words fault }
    ensures short { length result.now ≤ 40 }
{
    match fault {
        NewFault::BadRegions => b"heap: 1 BadRegions",
        NewFault::BadWords => b"heap: 2 BadWords",
        NewFault::BadBuffer => b"heap: 3 BadBuffer",
        NewFault::BadMutators => b"heap: 4 BadMutators",
        NewFault::NoMemory => b"heap: 5 NoMemory",
        NewFault::BadCard => b"heap: 6 BadCard",
        NewFault::BadGlobals => b"heap: 7 BadGlobals",
        NewFault::BadRegisters => b"heap: 8 BadRegisters",
        NewFault::BadRoots => b"heap: 9 BadRoots",
    }
}

fn run_words(fault: RunFault) -> &'static [u8]
    ensures words { result.now ≡ run_words fault }
    ensures short { length result.now ≤ 40 }
{
    match fault {
        RunFault::BadWorkers => b"run: 1 BadWorkers",
        RunFault::NoMemory => b"run: 2 NoMemory",
        RunFault::NoWorker => b"run: 3 NoWorker",
        RunFault::Unfinished => b"run: 4 Unfinished",
        RunFault::Heap(fault) => sizes_words(fault),
    }
}

fn judge_words(fault: JudgeFault) -> &'static [u8]
    ensures words { result.now ≡ judge_words fault }
    ensures short { length result.now ≤ 40 }
{
    match fault {
        JudgeFault::Heap(fault) => sizes_words(fault),
        JudgeFault::NoMemory => b"check: NoMemory",
    }
}

fn write_words(fault: WriteFault) -> &'static [u8]
    ensures words { result.now ≡ write_words fault }
    ensures short { length result.now ≤ 40 }
{
    match fault {
        WriteFault::CannotWrite => b"cannot write",
        WriteFault::NoMemory => b"run: 2 NoMemory",
    }
}

/// Puts the words that name an event with another reply.
fn put_event_words(buffer: &mut [u8], at: usize, event: u64) -> usize
    requires { at + 40 ≤ length buffer.old }
    ensures put { take result buffer.new ≡ take at buffer.old ++ event_words event }
    ensures end { result ≤ at + 40 }
{
    let at = put_text(buffer, at, b"event ");
    let at = put_number(buffer, at, event);
    put_text(buffer, at, b": 1 OtherReply")
}

/// Puts a fault's words after the first `at` bytes of a buffer, and answers where they end.
fn put_words(buffer: &mut [u8], at: usize, fault: JobFault) -> usize
    requires { at + 40 ≤ length buffer.old }
    ensures put { take result buffer.new ≡ take at buffer.old ++ fault_words fault }
    ensures end { result ≤ at + 40 }
{
    match fault {
        JobFault::Read(_) => put_text(buffer, at, b"cannot read"),
        JobFault::Line(fault) => put_fault(buffer, at, fault),
        JobFault::Run(fault) => put_text(buffer, at, run_words(fault)),
        JobFault::Judge(fault) => put_text(buffer, at, judge_words(fault)),
        JobFault::Write(fault) => put_text(buffer, at, write_words(fault)),
        JobFault::Differs(event) => put_event_words(buffer, at, event),
    }
}

/// Puts a fault's line at a buffer's front, and answers where it ends.
pub fn put_fault_line(buffer: &mut [u8], fault: JobFault) -> usize
    requires { FAULT_ROOM ≤ length buffer.old }
    ensures put { take result buffer.new ≡ fault_line fault }
    ensures end { result ≤ FAULT_ROOM }
{
    let at = put_text(buffer, 0, b"g1heap: ");
    let at = put_words(buffer, at, fault);
    put_text(buffer, at, b"\n")
}

/// Writes a fault's line. Where that fails, the writer refused, and a beginning of the line is written. It takes no memory.
pub fn tell<E: Write>(fault: JobFault, err: &mut WatchedWriter<E>) -> Result<(), WriteFault>
    ensures ok { OnOk result (TookBytes err.old err.new (fault_line fault)) }
    ensures err { OnErr result (TakesPart err.old err.new (fault_line fault)) }
    ensures memory { result ≢ Err WriteFault.NoMemory }
{
    let mut buffer = [0u8; FAULT_ROOM];
    let at = put_fault_line(&mut buffer, fault);
    write_bytes(err, &buffer[..at])
}

/// Tells how a job ended, and answers the program's status: 0 where it is done, else 1, with the fault's line on standard error. That a
/// write of this line fails changes nothing.
pub fn conclude<E: Write>(outcome: Result<(), JobFault>, err: &mut WatchedWriter<E>) -> u8
    ensures { TellsEnd err.old err.new outcome result }
{
    match outcome {
        Ok(()) => 0,
        Err(fault) => {
            let _ = tell(fault, err);
            1
        }
    }
}
