//! Tests of the lowest layers. They go by public calls alone and are apart from the crates that they try, so that these are proved once.
//! The crate has nothing else, and nothing depends on it.
//!
//! `headers`, `sizes` and `memory` try `heap_words`, `number_sets` and `bounded_sets` try `bit_sets`, `roots` tries `root_table`, and
//! `steps` tries `heap_steps`.
#![tactic(auto)]

#[cfg(test)]
mod bounded_sets;
#[cfg(test)]
mod headers;
#[cfg(test)]
mod memory;
#[cfg(test)]
mod number_sets;
#[cfg(test)]
mod roots;
#[cfg(test)]
mod sizes;
#[cfg(test)]
mod steps;
