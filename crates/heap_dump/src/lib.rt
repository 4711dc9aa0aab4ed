//! What is told of a heap as it is, whoever spells it: lines for a terminal (`heap_view`) or for a page (`heap_life`).
//!
//! ```text
//!   a moment     numbers_of: words handed out and live words, free regions, cards that wait
//!   a region     shares_of, grey_count; walk_region: its tiles; put_set: its remembered set
//!   a tile       part_of by the last marking, progress_of by the one that runs; put_fields of its object
//! ```
//!
//! All of it reads the heap and changes nothing. `put_..` adds to a text: a row of numbers, each after a space, or a line; what is spelled
//! otherwise for a terminal than for a page asks by a `Spelling` for whom.
#![tactic(auto)]

mod fields;
mod lists;
mod numbers;
mod shares;
mod tiles;

pub use fields::{Spelling, put_fields, put_pointer, put_spaced_pointer};
pub use lists::{put_logged, put_queued, put_set};
pub use numbers::{Numbers, numbers_of};
pub use shares::{Part, Shares, grey_count, part_of, shares_of, walk_region};
pub use tiles::{Progress, progress_of};
