//! Tests of whole steps of the heap. They are apart from `step_core`, so that it is proved once and its must-fail edits needn't
//! wait for them, and go by its public calls alone. Nothing depends on this crate.
//!
//! `steps` has each action and each step of the collector with its reply, `humongous` objects of more than half a region, `weak` weak
//! slots, `pauses` where copies go, and `places` pauses, ends of marking and steps on weak slots in drawn heaps, each compared
//! with a plain one.
#![tactic(auto)]

#[cfg(test)]
mod humongous;
#[cfg(test)]
mod pauses;
#[cfg(test)]
mod places;
#[cfg(test)]
mod steps;
#[cfg(test)]
mod weak;
