//! The roots of a heap: what its globals and its mutators' registers hold.
//!
//! Roots are in places: the globals first, and after them the registers of one mutator after another. How many there are of each is
//! the configuration's.
//!
//! ```text
//!   place     0 .. globals | ..          | ..            |
//!             globals      | mutator 0's | mutator 1's   |
//!                          | registers   | registers     |
//!   used              ^       ^             ^              from here to the row's end all are nil
//! ```
//!
//! The globals and each mutator's registers are a row, and for each row a bound is kept above which all its roots are nil. It goes up when
//! a root above it is set, and down when a frame is left. So a look at all roots costs those below the bounds, and a frame that was left
//! costs nothing any more. No call but the making takes memory or fails.
//!
//! `held` is what a place holds, `places` where places are, `table` the table.
#![tactic(auto)]

mod held;
pub mod root_counts;
pub mod table;

pub use root_counts::RootCounts;
pub use table::Roots;
