//! What is done with a file beside a script's run, whatever heap does its steps: a record is judged, and answered by the verdict; and each
//! fault is explained.
//!
//! ```text
//!   FILE -- RecordEvents, one by one --> Event -- Judge::judge_event --> Finding -- write_verdict, write_finding --> output
//!   FILE -- LineBuffer, line by line --> Event -- Judge::judge_event --> Finding -- write_told --> output
//!   FILE -- read_record --> Record -- its steps done again, by the crates above, and compared: first_other
//!   a fault of any of these, or of a script's run -- conclude_explained --> its line on standard error, and what explains it
//! ```
//!
//! `judge_record` has the theorem: which text gets which verdict. No heap is needed here: the runs are those of the crates above, and how
//! they end is `job_ends`'.
#![tactic(auto)]

mod causes;
mod explain;
mod finding;
mod follow;
mod judge;
mod replay;

pub use causes::{Counts, conclude_explained, conclude_unread};
pub use explain::{explain_and_conclude, explain_record, explained_law};
pub use follow::{follow_and_conclude, follow_law, follow_record, follow_status_law};
pub use judge::{conclude_verdict, judge_and_conclude, judge_record, status_law, verdict_law};
pub use replay::{first_other, read_record};
