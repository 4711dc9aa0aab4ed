//! Why a text could not be read or written.

ghost use Rattle.std.specs.Prelude.{◌≡◌, ◌≤◌, ◌+◌, ◌++◌, length, take};
ghost use Rattle.script_text.specs.Faults.{kind_text, fault_text};

use crate::write::bytes::{put_number, put_text};
use std::error::Error;
use std::fmt;

/// What is wrong with a line. Lines are tested in this order, and the first kind that holds is named.
#[derive(Clone, Copy, Debug, PartialEq, Eq)]
pub enum Kind {
    /// The last line has no line feed.
    Cut,
    /// More than 120 bytes are before the line feed.
    LongLine,
    /// The first line is no heap line.
    BadHeap,
    /// The actor's word is no actor that may be here.
    BadActor,
    /// The step is none of its actor's, or a register, a global or a number in it is misspelt or out of range.
    BadStep,
    /// In a record: the first word is not the event's count.
    BadCount,
    /// In a record: no reply follows the step.
    BadReply,
    /// Memory was refused while this line was read.
    NoMemory,
}

/// The kind's number and its name.
fn kind_text(kind: Kind) -> &'static str
    ensures text { result.now ≡ kind_text kind }
    ensures short { length result.now ≤ 10 }
{
    match kind {
        Kind::Cut => "1 Cut",
        Kind::LongLine => "2 LongLine",
        Kind::BadHeap => "3 BadHeap",
        Kind::BadActor => "4 BadActor",
        Kind::BadStep => "5 BadStep",
        Kind::BadCount => "6 BadCount",
        Kind::BadReply => "7 BadReply",
        Kind::NoMemory => "8 NoMemory",
    }
}

impl fmt::Display for Kind {
    ghost use Rattle.std.specs.Prelude.{Some};
    ghost use Rattle.script_text.specs.Faults.{kind_text};

    ghost output = { λ k. Some (kind_text k) };

    fn fmt<W: fmt::Write>(&self, f: &mut fmt::Formatter<W>) -> fmt::Result {
        f.write_str(kind_text(*self))
    }
}

/// The first line with a fault, counted from 1, and what is wrong with it.
#[derive(Clone, Copy, Debug, PartialEq, Eq)]
pub struct LineFault {
    pub line: u64,
    pub kind: Kind,
}

impl fmt::Display for LineFault {
    ghost use Rattle.std.specs.Prelude.{Some};
    ghost use Rattle.script_text.specs.Faults.{fault_text};

    ghost output = { λ f. Some (fault_text f) };

    fn fmt<W: fmt::Write>(&self, f: &mut fmt::Formatter<W>) -> fmt::Result {
        write!(f, "line {}: {}", self.line, self.kind)
    }
}

impl Error for LineFault {}

/// Puts a fault's text after the first `at` bytes of a buffer, and answers where it ends.
///
/// ```rust
/// let mut buffer = [0; 80];
/// let end = put_fault(&mut buffer, 0, LineFault { line: 2, kind: Kind::BadActor });
/// assert_eq!(rt; &buffer[..end], b"line 2: 4 BadActor".as_slice());
/// ```
pub fn put_fault(buffer: &mut [u8], at: usize, fault: LineFault) -> usize
    requires { at + 40 ≤ length buffer.old }
    ensures put { take result buffer.new ≡ take at buffer.old ++ fault_text fault }
    ensures end { result ≤ at + 40 }
{
    let at = put_text(buffer, at, b"line ");
    let at = put_number(buffer, at, fault.line);
    let at = put_text(buffer, at, b": ");
    put_text(buffer, at, kind_text(fault.kind).as_bytes())
}

/// Why a text could not be read.
#[derive(Clone, Copy, Debug, PartialEq, Eq)]
pub enum ReadFault {
    /// A read failed.
    CannotRead,
    /// Memory was refused.
    NoMemory,
}

impl fmt::Display for ReadFault {
    ghost use Rattle.std.specs.Prelude.{Some};
    ghost use Rattle.script_text.specs.Faults.{read_fault_text};

    ghost output = { λ f. Some (read_fault_text f) };

    fn fmt<W: fmt::Write>(&self, f: &mut fmt::Formatter<W>) -> fmt::Result {
        match self {
            ReadFault::CannotRead => f.write_str("1 CannotRead"),
            ReadFault::NoMemory => f.write_str("2 NoMemory"),
        }
    }
}

impl Error for ReadFault {}

/// Why a record could not be written.
#[derive(Clone, Copy, Debug, PartialEq, Eq)]
pub enum WriteFault {
    /// A write failed, or took no byte.
    CannotWrite,
    /// Memory was refused, and nothing was written.
    NoMemory,
}

impl fmt::Display for WriteFault {
    ghost use Rattle.std.specs.Prelude.{Some};
    ghost use Rattle.script_text.specs.Faults.{write_fault_text};

    ghost output = { λ f. Some (write_fault_text f) };

    fn fmt<W: fmt::Write>(&self, f: &mut fmt::Formatter<W>) -> fmt::Result {
        match self {
            WriteFault::CannotWrite => f.write_str("1 CannotWrite"),
            WriteFault::NoMemory => f.write_str("2 NoMemory"),
        }
    }
}

impl Error for WriteFault {}
