//! The graph of objects by name, as steps change it: its states, its runs, and their laws. There is no code: each function has an empty
//! body, and its contract is a law.
//!
//! A mutator's step has one reply and leads to one graph; of the collector's steps only the end of marking changes it, and
//! weak slots alone: there those become nil that hold what the graph at the beginning of marking reached neither from a root
//! nor from a name that was read from a weak slot since then. So the graph tells what every reply of a heap must be, however
//! its objects are stored, moved and reclaimed. `object_graph` has the graph as code.
//!
//! ```text
//!   event                      reply    roots                objects
//!                                       r0 nil  r1 nil
//!   0 new r0 1 0               #0       r0 0    r1 nil       0: [nil]
//!   0 new r1 0 1               #1       r0 0    r1 1         0: [nil]   1: 0
//!   0 put r0 0 r1              ok       r0 0    r1 1         0: [1]     1: 0
//!   0 drop r1                  ok       r0 0    r1 nil       0: [1]     1: 0
//!   0 get r1 r0 0              #1       r0 0    r1 1         0: [1]     1: 0
//! ```
//!
//! From there on, with a weak slot of 0 in place of its pointer, marking begins with the present graph as its snapshot:
//!
//! ```text
//!   event                      reply    roots                objects                snapshot
//!   0 putweak r0 0 r1          ok       r0 0    r1 1         0: weak [1]     1: 0
//!   0 drop r1                  ok       r0 0    r1 nil       0: weak [1]     1: 0
//!   gc begin                   ok       r0 0    r1 nil       0: weak [1]     1: 0   the graph: 1 isn't reachable in it
//!   gc remark                  marked 1 r0 0    r1 nil       0: weak [nil]   1: 0   given up
//! ```
//!
//! A `getweak r1 r0 0` before the `remark` would reply `#1`, and touch it: then 1 counts as a root of the snapshot, and the slot stays.
//!
//! The definitions, in order of reading: `State`, `Machine` (what a mutator's step does), `Run` (what happens at an event; runs), `Since`
//! (what is known since the snapshot was taken), `Sparing` (which weak slots keep what they hold).
#![tactic(auto)]

mod laws;

pub use laws::{cleared_law, judged_once, run_is_sound, run_once, since_law, sound_law};
