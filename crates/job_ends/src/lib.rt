//! How a job on a file ends, whatever it was: the fault, its line and the program's status. And how a script's run ends: the script that
//! was read, and the record by which its run is answered.
//!
//! ```text
//!   FILE -- read_plan --> Plan -- a run, in some order --> Record -- answer --> output
//!   a fault of any of these, or of another job -- conclude --> its line on standard error, and status 1
//! ```
//!
//! `Ends` says once, for any order of a script's steps, how its whole path ended: at Ok the input was a script, read to its end, and the
//! text of a record was written, and no more, which a run made of it. `Performs` adds what was told of that end. No heap is needed here,
//! and no graph: the runs are those of the crates above.
#![tactic(auto)]

mod faults;
mod script;

pub use faults::{FAULT_ROOM, JobFault, JudgeFault, conclude, put_fault_line, tell};
pub use script::{answer, read_plan};
