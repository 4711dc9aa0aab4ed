//! The heap as a C library: a heap is made, stepped and freed by calls from C, as `include/g1heap.h` declares them.
//!
//! ```text
//!   C                                    Rattle
//!   struct g1_heap { live, at,     --->  Heap: nothing, or a core in a box,
//!                    markings }          and how many of its markings ended
//!   g1_get(&heap, m, to, obj, i)   --->  Step -> Core::step -> Reply -> Answer
//! ```
//!
//! A call takes numbers, and any numbers will do: they name a step, and if the heap's sizes have it the core takes it. Where they name
//! none, or there is no heap, nothing changes. Each call's clause is `IsCall` of it: of the numbers it says what `Core::step` says of the
//! step.
#![tactic(auto)]

pub mod caller;
pub mod collector;
pub mod filled;
pub mod giving;
pub mod laws;
pub mod loads;
pub mod made_filled;
pub mod making;
pub mod memory;
pub mod mutator;
mod noted;
pub mod paths;
pub mod policy;
pub mod policy_noted;
pub mod readers;
pub mod rows;
pub mod version;
pub mod walks;
pub mod words;

pub use noted::Entry;
