//! A script's run, and nothing else: the words `run FILE`, which `g1heap` takes too, with the same answers. It needs no thread, no graph as
//! code and no reader of options, so it is proved and built much sooner: `./g1heap` at the top takes it while `g1heap` isn't built.
//!
//! ```text
//!   words -- path_in --> FILE -- open --> input -- run_script --> the record; its end -- conclude --> status
//! ```
#![tactic(auto)]

mod program;

use program::program;
use script_text::{WatchedReader, WatchedWriter};
use std::process::ExitCode;

fn main(rt: HostRuntime) -> ExitCode {
    let mut input = WatchedReader::new(rt.stdin());
    let mut out = WatchedWriter::new(rt.stdout());
    let mut err = WatchedWriter::new(rt.stderr());
    ExitCode::from(program(&rt, &mut input, &mut out, &mut err))
}
