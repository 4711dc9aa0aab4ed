//! Why a text names no types, and the lines on standard error that tell it.
//!
//! ```text
//!   g1heap: types: line 3: 2 BadWord
//!   names.txt: a line begins with a data word, 0 to 18446744073709551615, and a space
//! ```

ghost use Rattle.std.specs.Prelude.{◌≡◌, ◌≤◌, ◌+◌, ◌++◌, length, take};
ghost use Rattle.type_names.specs.FaultTexts.{TellsTypes, mistake_reason, mistake_text, types_text};

use script_text::{WatchedWriter, put_number, put_shown, put_text, write_bytes};
use std::io::Write;

/// What is wrong with a line. Lines are tested in this order, and the first that holds is named.
#[derive(Clone, Copy, Debug, PartialEq, Eq)]
pub enum Mistake {
    /// It isn't UTF-8, or has a control character.
    BadText,
    /// What is before its first space is no number below 2 to the 64, as scripts spell it.
    BadWord,
    /// No name comes after its word.
    NoName,
    /// A line before it names its word.
    NamedTwice,
}

/// Why a text wasn't read.
#[derive(Clone, Copy, Debug, PartialEq, Eq)]
pub enum TypesFault {
    /// The first line with a mistake, counted from 1.
    Line { line: u64, mistake: Mistake },
    /// Memory was refused.
    NoMemory,
}

/// The bytes that a fault's lines need.
const ROOM: usize = 320;

/// A mistake's number and its name.
fn mistake_text(mistake: Mistake) -> &'static [u8]
    ensures text { result.now ≡ mistake_text mistake }
    ensures short { length result.now ≤ 20 }
{
    match mistake {
        Mistake::BadText => b"1 BadText",
        Mistake::BadWord => b"2 BadWord",
        Mistake::NoName => b"3 NoName",
        Mistake::NamedTwice => b"4 NamedTwice",
    }
}

/// What a line with a mistake lacks.
fn mistake_reason(mistake: Mistake) -> &'static [u8]
    ensures text { result.now ≡ mistake_reason mistake }
    ensures short { length result.now ≤ 90 }
{
    match mistake {
        Mistake::BadText => b"a line is UTF-8 text without control characters",
        Mistake::BadWord => {
            b"a line begins with a data word, 0 to 18446744073709551615, and a space"
        }
        Mistake::NoName => b"after the word come a space and its name",
        Mistake::NamedTwice => b"a line before it names this word",
    }
}

/// Puts the lines that tell a mistake at a buffer's front, and answers where they end.
fn put_types(buffer: &mut [u8], line: u64, mistake: Mistake, name: &[u8]) -> usize
    requires { ROOM ≤ length buffer.old }
    ensures put { take result buffer.new ≡ types_text line mistake name.now }
    ensures end { result ≤ ROOM }
{
    let at = put_text(buffer, 0, b"g1heap: types: line ");
    let at = put_number(buffer, at, line);
    let at = put_text(buffer, at, b": ");
    let at = put_text(buffer, at, mistake_text(mistake));
    let at = put_text(buffer, at, b"\n");
    let at = put_shown(buffer, at, name);
    let at = put_text(buffer, at, b": ");
    let at = put_text(buffer, at, mistake_reason(mistake));
    put_text(buffer, at, b"\n")
}

/// Tells that a line of the file of this name has a mistake, and answers the program's status, which is 1. That a write fails changes
/// nothing. It takes no memory.
///
/// ```rust
/// let mut writer = WatchedWriter::new(Vec::new(alloc));
/// assert_eq!(rt; conclude_types(2, Mistake::NoName, "names", &mut writer), 1);
/// ```
pub fn conclude_types<E: Write>(
    line: u64,
    mistake: Mistake,
    name: &str,
    err: &mut WatchedWriter<E>,
) -> u8
    ensures status { result ≡ 1 }
    ensures tells { TellsTypes line mistake name.now err.old err.new }
{
    let mut buffer = [0u8; ROOM];
    let at = put_types(&mut buffer, line, mistake, name.as_bytes());
    let _ = write_bytes(err, &buffer[..at]);
    1
}
