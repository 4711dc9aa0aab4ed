//! What is told after a fault's line where it is to be explained.
//!
//! ```text
//!   g1heap: line 5: 5 BadStep                    g1heap: heap: 3 BadBuffer
//!   line 5: 0 drop r9; word 3: a register ..     line 1: heap 4 16 9 1 0; word 4: 4 words or more, and at most half a region
//!
//!   g1heap: run: 1 BadWorkers                    g1heap: cannot read
//!   --workers 40: 1 to 32                        gone.heap: there is no such file
//! ```

ghost use Rattle.std.specs.Prelude.{◌≡◌, ◌≤◌, ◌+◌, ◌++◌, ℕ, List, Ok, length, take};
ghost use Rattle.std.specs.Fmt.{decimal};
ghost use Rattle.jobs.specs.Reasons.{sizes_hint, background_text, counts_text, reason_words, IsSizesReason, IsReason, IsReadReason};
ghost use Rattle.jobs.specs.Reasons.{TellsMore};
ghost use Rattle.jobs.specs.Reasons.{TellsExplained};

use heap_steps::RunFault;
use heap_words::config::{Format, NewFault};
use job_ends::{JobFault, JudgeFault, put_fault_line};
use script_text::{
    REASON_ROOM, ReadFault, TextKind, WatchedWriter, WriteFault, put_fault_reason, put_line_reason,
    put_number, put_shown, put_text, sizes_in, write_bytes,
};
use std::io::{ErrorKind, Write};

/// How many threads and background actors a run was asked for: workers only where it is one in threads.
#[derive(Clone, Copy, Debug, PartialEq, Eq)]
pub struct Counts {
    pub workers: Option<u32>,
    pub refiners: u32,
    pub markers: u32,
}

/// The room that a fault's line and its reason need.
const ROOM: usize = 544;

/// The word of a heap line that a heap can't have, and which it may have in this format.
fn sizes_hint(format: Format, fault: NewFault) -> &'static [u8]
    ensures hint { result.now ≡ sizes_hint format fault }
    ensures short { length result.now ≤ 120 }
{
    match fault {
        NewFault::BadRegions => match format {
            Format::V1 | Format::V2 { .. } => b"word 2: 2 to 1024",
            Format::V3 { .. } => b"word 2: 2 to 16384",
        },
        NewFault::BadWords => match format {
            Format::V1 =>
                b"word 3: a power of two, 16 to 4096, and at most 1048576 words in all regions",
            Format::V2 { .. } => {
                b"word 3: a power of two, 16 to 16384, and at most 16777216 words in all regions"
            }
            Format::V3 { .. } => {
                b"word 3: a power of two, 16 to 4194304, and at most 2147483648 words in all regions"
            }
        },
        NewFault::BadBuffer => b"word 4: 4 or more, and at most half the words of a region",
        NewFault::BadMutators => match format {
            Format::V1 | Format::V2 { .. } => b"word 5: 1 to 16",
            Format::V3 { .. } => b"word 5: 1 to 64",
        },
        NewFault::NoMemory => b"the system has too little memory for a heap of these sizes",
        NewFault::BadCard => match format {
            Format::V1 | Format::V2 { .. } => {
                b"word 7: 8, 16, 32 or 64, and at most the words of a region"
            }
            Format::V3 { .. } => {
                b"word 7: a power of two, 8 to 512, and at most the words of a region"
            }
        },
        NewFault::BadGlobals => b"word 8: 0 to 65536",
        NewFault::BadRegisters => b"word 9: 1 to 65536",
        NewFault::BadRoots => {
            b"words 8 and 9: at most 1048576 roots in all, GLOBALS + REGISTERS * MUTATORS"
        }
    }
}

/// Puts the line that shows the heap line, and which of its numbers no heap can have.
fn put_sizes_reason(buffer: &mut [u8], at: usize, text: &[u8], fault: NewFault) -> usize
    requires { at + REASON_ROOM ≤ length buffer.old }
    ensures put { (told : List ℕ) × IsSizesReason text.now fault told × (take result buffer.new ≡ take at buffer.old ++ told) }
    ensures end { result ≤ at + REASON_ROOM }
{
    match sizes_in(text) {
        Some(config) => put_line_reason(buffer, at, text, 1, sizes_hint(config.format, fault)),
        None => at,
    }
}

/// Puts the line that tells a count, and its range.
fn put_count(buffer: &mut [u8], at: usize, option: &[u8], count: u32, range: &[u8]) -> usize
    requires { at + length option.now + 20 + length range.now ≤ length buffer.old }
    ensures put { take result buffer.new ≡ take at buffer.old ++ (option.now ++ decimal count ++ range.now) }
    ensures end { result ≤ at + length option.now + 20 + length range.now }
{
    let at = put_text(buffer, at, option);
    let at = put_number(buffer, at, count as u64);
    put_text(buffer, at, range)
}

/// Puts the line that tells which count of background actors is out of its range.
fn put_background(buffer: &mut [u8], at: usize, refiners: u32, markers: u32) -> usize
    requires { at + 60 ≤ length buffer.old }
    ensures put { take result buffer.new ≡ take at buffer.old ++ background_text refiners markers }
    ensures end { result ≤ at + 60 }
{
    if 8 < refiners {
        return put_count(buffer, at, b"--refiners ", refiners, b": 0 to 8\n");
    }
    put_count(buffer, at, b"--markers ", markers, b": 0 to 8\n")
}

/// Puts the line that tells which count is out of its range.
fn put_counts(buffer: &mut [u8], at: usize, counts: Counts) -> usize
    requires { at + 60 ≤ length buffer.old }
    ensures put { take result buffer.new ≡ take at buffer.old ++ counts_text counts.workers counts.refiners counts.markers }
    ensures end { result ≤ at + 60 }
{
    match counts.workers {
        Some(workers) => {
            if 0 < workers && workers < 33 {
                return put_background(buffer, at, counts.refiners, counts.markers);
            }
            put_count(buffer, at, b"--workers ", workers, b": 1 to 32\n")
        }
        None => put_background(buffer, at, counts.refiners, counts.markers),
    }
}

/// What is told of a fault that nothing in the text has brought about.
fn reason_words(fault: JobFault) -> &'static [u8]
    ensures words { result.now ≡ reason_words fault }
    ensures short { length result.now ≤ 120 }
{
    match fault {
        JobFault::Read(ReadFault::NoMemory) => {
            b"the system has too little memory to hold the text twice\n"
        }
        JobFault::Run(RunFault::NoMemory) | JobFault::Write(WriteFault::NoMemory) => {
            b"the system has too little memory for the heap, the record or the page\n"
        }
        JobFault::Run(RunFault::NoWorker) => b"the system lets the program start no thread\n",
        JobFault::Run(RunFault::Unfinished) => {
            b"the threads have ended, and a script isn't at its end\n"
        }
        JobFault::Judge(JudgeFault::NoMemory) => {
            b"the system has too little memory for the graph of the record\n"
        }
        JobFault::Write(WriteFault::CannotWrite) => {
            b"standard output is full or closed; a beginning of it may have gone out\n"
        }
        _ => b"",
    }
}

/// Puts what explains a fault of a job on a text after the first `at` bytes of a buffer, and answers where it ends.
fn put_reason(
    buffer: &mut [u8],
    at: usize,
    kind: TextKind,
    text: &[u8],
    counts: Counts,
    fault: JobFault,
) -> usize
    requires { at + REASON_ROOM ≤ length buffer.old }
    ensures put { (told : List ℕ) × IsReason kind text.now counts fault told × (take result buffer.new ≡ take at buffer.old ++ told) }
    ensures end { result ≤ at + REASON_ROOM }
{
    match fault {
        JobFault::Line(fault) => put_fault_reason(buffer, at, kind, text, fault),
        JobFault::Run(RunFault::Heap(fault)) => put_sizes_reason(buffer, at, text, fault),
        JobFault::Judge(JudgeFault::Heap(fault)) => put_sizes_reason(buffer, at, text, fault),
        JobFault::Run(RunFault::BadWorkers) => put_counts(buffer, at, counts),
        JobFault::Differs(event) => {
            let line = event.saturating_add(1);
            put_line_reason(buffer, at, text, line, b"this heap gives another reply")
        }
        _ => put_text(buffer, at, reason_words(fault)),
    }
}

/// Tells how a job on a text ended, as `conclude` does, and after a fault's line what explains it: `kind` is what the text was read as.
pub fn conclude_explained<E: Write>(
    outcome: Result<(), JobFault>,
    kind: TextKind,
    text: &[u8],
    counts: Counts,
    err: &mut WatchedWriter<E>,
) -> u8
    ensures { TellsExplained kind text.now counts err.old err.new outcome result }
{
    match outcome {
        Ok(()) => 0,
        Err(fault) => {
            let mut buffer = [0u8; ROOM];
            let at = put_fault_line(&mut buffer, fault);
            let at = put_reason(&mut buffer, at, kind, text, counts, fault);
            let _ = write_bytes(err, &buffer[..at]);
            1
        }
    }
}

/// Why a file can't be read, as the system has it.
fn why(reason: Option<ErrorKind>) -> &'static [u8]
    ensures { length result.now ≤ 80 }
{
    match reason {
        Some(ErrorKind::NotFound) => b"there is no such file",
        Some(ErrorKind::IsADirectory) => b"it is a folder",
        Some(ErrorKind::NotADirectory) => b"a part of its path is no folder",
        Some(ErrorKind::PermissionDenied) => b"it may not be read",
        Some(ErrorKind::InvalidFilename) => b"its name is too long",
        Some(ErrorKind::FilesystemLoop) => b"its links lead in a circle",
        Some(_) => b"the system refused to read it",
        None => b"the system has too little memory to read it",
    }
}

/// Tells that a file of this name can't be read, and why, after the fault's line, and answers the program's status. Without a reason of
/// the system's memory was refused.
pub fn conclude_unread<E: Write>(
    fault: ReadFault,
    name: &str,
    reason: Option<ErrorKind>,
    err: &mut WatchedWriter<E>,
) -> u8
    ensures status { result ≡ 1 }
    ensures tells { TellsMore (JobFault.Read fault) (IsReadReason name.now) err.old err.new }
{
    let mut buffer = [0u8; ROOM];
    let at = put_fault_line(&mut buffer, JobFault::Read(fault));
    let at = put_shown(&mut buffer, at, name.as_bytes());
    let at = put_text(&mut buffer, at, b": ");
    let at = put_text(&mut buffer, at, why(reason));
    let at = put_text(&mut buffer, at, b"\n");
    let _ = write_bytes(err, &buffer[..at]);
    1
}
