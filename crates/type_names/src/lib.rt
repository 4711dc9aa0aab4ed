//! Names of types: the lines of a text, each of which gives a word a name.
//!
//! ```text
//!   # the first data word of an object says which type it has
//!   7 pair
//!   12 table of symbols
//! ```
//!
//! A line is a word as a decimal number, a space, and the name, which is the rest of the line. Empty lines are passed over, and lines that
//! begin with `#`. The last line needs no line feed.
//!
//! - `read_types` reads a text to its end, or tells the first line with a fault.
//! - `Types` answers the name of a word, and which word has a name first: so words with one name can be one type.
//! - `conclude_types` tells a fault on standard error.
//!
//! Clauses see `Types` as the text that was read, and `specs` says what a text names.
//!
//! Examples of calls go on from this one, in which `rt` is a test's `HostRuntime` and `alloc` its allocator:
//!
//! ```rust
//! use script_text::WatchedWriter;
//! use type_names::{Mistake, Types, TypesFault, conclude_types, read_types};
//! ```
#![tactic(auto)]

mod faults;
mod lines;
mod types;

pub use faults::{Mistake, TypesFault, conclude_types};
pub use types::{Types, read_types, types_law};
