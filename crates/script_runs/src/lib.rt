//! A script's run in the order of its lines, from bytes to bytes: the text of a script goes in, the text of its record comes out.
//!
//! ```text
//!   reader -- read_text --> text -- ScriptSteps::next_line --> step -- Core::perform --> reply -- RecordLines::put_line --> writer
//! ```
//!
//! `run_script` ends as `Ends` of `job_ends` has it for such a run, `IsRunInOrder`: what is written is the record of a run of the graph.
#![tactic(auto)]

mod in_order;

pub use in_order::run_script;
