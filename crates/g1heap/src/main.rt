//! A Garbage-First heap by steps: a script goes in, the record of every step with its reply comes out; or a record goes in, and the
//! verdict of the graph comes out.
//!
//! ```text
//!   words -- read_words --> Job -- open --> input -- do_job ---> run_script       steps in the file's order
//!                                                            --> simulate_script  in turns that a seed draws
//!                                                            --> thread_script    in turns of threads
//!                                                            --> judge_record     the verdict on a record
//!                                                            --> explain_record   the verdict with its reason
//!                                                            --> view_script      the heap as it is; view_record of a record
//!                                                            --> draw_script      the life of the heap, as a page; draw_record of a record
//! ```
//!
//! `program` reads the command line (crate `command_line`), opens the file and calls `do_job`, which does the job and tells its end (crates
//! `job_ends` and `jobs`). `run_script` is `script_runs`', since `g1heap_run` does it too; the two ways that take turns are here, since one
//! of them needs threads and waiting.
#![tactic(auto)]

mod actors;
mod explained;
mod job;
mod program;

use program::program;
use script_text::{WatchedReader, WatchedWriter};
use std::process::ExitCode;

fn main(rt: HostRuntime) -> ExitCode {
    let mut input = WatchedReader::new(rt.stdin());
    let mut out = WatchedWriter::new(rt.stdout());
    let mut err = WatchedWriter::new(rt.stderr());
    ExitCode::from(program(&rt, &mut input, &mut out, &mut err))
}
