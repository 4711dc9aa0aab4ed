//! Tests of marking, and of what it rests on. They go by public calls alone and are apart from the crates that they try, so that these are
//! proved once. The crate has nothing else, and nothing depends on it.
//!
//! `marks` tries `mark_bitmap`, `logs` tries `satb_log`, and `cycles` the `marker`, over tables made by hand, and `pairs` the same
//! with objects of pairs.
#![tactic(auto)]

#[cfg(test)]
mod cycles;
#[cfg(test)]
mod logs;
#[cfg(test)]
mod marks;
#[cfg(test)]
mod pairs;
