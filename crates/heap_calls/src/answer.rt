//! What a call answers, in numbers.

ghost use Rattle.std.specs.Prelude.{◌≡◌};
ghost use Rattle.heap_calls.specs.Numbers as spec;

use heap_steps::{Refusal, Reply};
use heap_words::config::NewFault;

/// What came of a call: its code, and up to two numbers with it.
#[repr(C)]
#[derive(Clone, Copy, Debug, PartialEq, Eq, Drop)]
pub struct Answer {
    pub code: u32,
    pub second: u32,
    pub first: u64,
}

/// An answer of this code and these numbers.
pub fn told(code: u32, first: u64, second: u32) -> Answer
    ensures { result ≡ spec.told code first second }
{
    Answer {
        code,
        second,
        first,
    }
}

fn bare(code: u32) -> Answer
    ensures { result ≡ spec.told code 0 0 }
{
    told(code, 0, 0)
}

/// The answer where there is nothing to tell.
pub fn done() -> Answer
    ensures { result ≡ spec.told 0 0 0 }
{
    bare(0)
}

/// The answer where numbers name no step of the heap.
pub fn no_step() -> Answer
    ensures { result ≡ spec.no_step }
{
    bare(32)
}

/// The answer where there is no heap.
pub fn no_heap() -> Answer
    ensures { result ≡ spec.no_heap }
{
    bare(33)
}

/// The answer where memory was refused.
pub fn no_memory() -> Answer
    ensures { result ≡ spec.no_memory }
{
    bare(45)
}

/// A number of the heap.
pub fn number(count: u64) -> Answer
    ensures { result ≡ spec.told 10 count 0 }
{
    told(10, count, 0)
}

fn refused(refusal: Refusal) -> Answer
    ensures { result ≡ spec.refused refusal }
{
    bare(15 + refusal.number())
}

/// The reply in numbers.
pub fn answer_of(reply: Reply) -> Answer
    ensures { result ≡ spec.numbers reply }
{
    match reply {
        Reply::Done => bare(0),
        Reply::Named(None) => bare(1),
        Reply::Named(Some(name)) => told(2, name, 0),
        Reply::Word(value) => told(3, value, 0),
        Reply::Shape { pointers, values } => told(4, u64::from(pointers), values),
        Reply::Marked(count) => told(5, u64::from(count), 0),
        Reply::Reclaimed(count) => told(6, u64::from(count), 0),
        Reply::Refined(count) => told(7, u64::from(count), 0),
        Reply::Moved { regions, words } => told(8, u64::from(words), regions),
        Reply::Refused(refusal) => refused(refusal),
    }
}

/// The same, but that what is done is told by a count.
pub fn counted(count: u32, reply: Reply) -> Answer
    ensures { result ≡ spec.counted count reply }
{
    match reply {
        Reply::Done => told(9, u64::from(count), 0),
        _ => answer_of(reply),
    }
}

/// Why no heap was made, in a number.
pub fn fault_code(fault: NewFault) -> u32
    ensures { result ≡ spec.fault_code fault }
{
    match fault {
        NewFault::BadRegions => 41,
        NewFault::BadWords => 42,
        NewFault::BadBuffer => 43,
        NewFault::BadMutators => 44,
        NewFault::NoMemory => 45,
        NewFault::BadCard => 46,
        NewFault::BadGlobals => 47,
        NewFault::BadRegisters => 48,
        NewFault::BadRoots => 49,
    }
}
