//! Tests of texts in and texts out: of scripts and records, views and pages; and of the graph and the judge, by steps, replies and records.
//! They go by public calls alone and are apart from the crates that they try, so that these are proved once. The crate has nothing else,
//! and nothing depends on it.
//!
//! `scripts` and `records` try `script_text`, `views` tries `heap_view`, `lives` a page of `heap_life`, and `judge` tries `object_graph`:
//! the graph's replies, and verdicts with their reasons. `actions` makes steps for them.
#![tactic(auto)]

#[cfg(test)]
mod actions;
#[cfg(test)]
mod judge;
#[cfg(test)]
mod lives;
#[cfg(test)]
mod records;
#[cfg(test)]
mod scripts;
#[cfg(test)]
mod views;
