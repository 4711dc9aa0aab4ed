//! Texts of scripts and records.
//!
//! A script is a heap line and a line for each step. A record is a heap line and a line for each event: its
//! count, its actor, its step, `=` and its reply. The words of a line are parted by single spaces, and a line
//! feed ends each line, the last one too.
//!
//! ```text
//! reader --read_text--> bytes --parse--> Plan           Record --write_record--> writer
//!                        bytes --ScriptSteps--> its steps, one by one
//!                        bytes --parse_record--> Record
//!                        bytes --RecordEvents--> its events, one by one
//! ```
//!
//! - `WatchedReader` and `WatchedWriter` hold a reader or a writer, and remember whether it refused a call.
//! - `read_text` gives all bytes to the end of input, or says that a read was refused.
//! - `parse` gives the plan that a text spells, or the first line with a fault and the first fault of that line.
//!   What is read of a text is spelled so in the whole of it, and each script's text is read as that script.
//! - `ScriptSteps` holds a text that was read so and has no fault, and reads its steps again, one by one, each with its line: so a script
//!   is run without a list of its steps.
//! - `parse_record` does the same of a record's text, and so gives back the record that was written (`written_record_is_read`).
//!   `RecordEvents` reads its events one by one, so a record is judged without a list of them.
//! - `LineBuffer` takes a record's lines one by one, each as soon as it is whole: so a record can be read as it is written.
//! - `write_record` appends the text of a record and no more, or a beginning of it where the writer refused. `RecordLines` does
//!   the same event by event, or by a script's lines and the replies: so a record can be written as it is made. Either holds one buffer,
//!   however long the record is.
//! - `Text` is a text that is put together piece by piece, with no way out for each: its bytes, or none once memory was refused.
//! - `put_text`, `put_number`, `put_event_text`, `put_reply`, `put_fault` and `write_bytes` are for other lines of a program: they put
//!   texts into a buffer, and write bytes in their order.
//!
//! The modules of `read` make values of texts, those of `write` texts of values. Faults, what a line lacks, watched readers and writers,
//! and the laws are shared.
//!
//! Examples of calls go on from this one, in which `rt` is a test's `HostRuntime` and `alloc` its allocator:
//!
//! ```rust
//! use heap_steps::{Record, Reply};
//! use script_text::*;
//!
//! let script = b"heap 4 16 8 1 0\n0 new r0 1 1\n";
//! let record = b"heap 4 16 8 1 0\n1 0 new r0 1 1 = #0\n";
//! ```
#![tactic(auto)]

mod expected;
mod fault;
mod hints;
mod laws;
mod mistakes;
mod read;
mod watched;
mod write;

pub use expected::TextKind;
pub use fault::{Kind, LineFault, ReadFault, WriteFault, put_fault};
pub use hints::{REASON_ROOM, put_fault_reason, put_line_reason, put_shown, sizes_in};
pub use laws::{
    action_is_read, fitting_words_are_read, read_is_spelled, read_record_is_spelled, reply_is_read,
    spelled_is_read, spelled_record_is_read,
};
pub use read::awaited::{LineBuffer, NextFault};
pub use read::input::read_text;
pub use read::record_events::RecordEvents;
pub use read::records::parse_record;
pub use read::script::parse;
pub use read::script_steps::{ScriptLine, ScriptSteps};
pub use watched::{WatchedReader, WatchedWriter};
pub use write::bytes::{put_number, put_text};
pub use write::lines::{LINE_ROOM, put_event_text, put_heap, put_reply};
pub use write::record_lines::{RecordLines, write_record};
pub use write::text::Text;
pub use write::writing::write_bytes;
pub use write::written::written_record_is_read;
