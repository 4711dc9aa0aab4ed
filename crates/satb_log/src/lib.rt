//! The deletion logs of marking from a snapshot.
//!
//! While marking runs, a store that overwrites a pointer first saves the old value in its mutator's log, so that what the snapshot
//! reached is found even where its last pointer is gone. What is read from a weak slot is saved there too. Marking takes a log when it is
//! full, and all of them at its end.
//!
//! ```text
//!   mutator 0   | 16 40 16          |    log: an address enters at the end; "full" is answered with the eighth
//!   mutator 1   | 8 8 24 0 16 7 9 3 |    drain: the log's addresses are handed out, and it is empty
//!   mutator 2   |                   |
//! ```
//!
//! A log has room for its eight addresses from the beginning: no call but the making takes memory, and none fails.
#![tactic(auto)]

pub mod logs;
