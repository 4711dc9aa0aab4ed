//! The theory of a collected heap: what it shows of the objects that a program made, and why marking from a
//! snapshot, reclaiming and moving keep that. There are no words, regions or bitmaps here, and no code: each
//! function has an empty body, and its contract is a law.
//!
//! The theorem, in words. Take the graph of all objects ever made, by names that never change, from which nothing is
//! removed. As long as the heap shows that graph,
//!
//! - every read gives what the graph gives, and each object that a root reaches is in the heap, whole and once
//!   (`showing::read_law`, `stands_law`);
//! - a mutator's stores and allocations lead to a heap that shows the graph after them (`root_set_law`,
//!   `object_set_law`, `object_added_law`);
//! - marking begins with the present graph as its snapshot, goes on beside mutators whose overwritten pointers are
//!   saved, and ends with exactly those names marked that were reachable in the snapshot (`marking::begin_law`,
//!   `put_law` and the like, `done_law`);
//! - what a mutator reads from a weak slot meanwhile is saved, and its name counts as a root of the snapshot
//!   (`weak::touch_law`);
//! - what is marked, or was made since, still shows the graph once weak slots are cleared in both, so the rest may be
//!   reclaimed (`weak::clear_law`, `marking::done_law`); the heap's slots may be cleared later, in pieces, as long as a slot
//!   whose target isn't kept shows nil (`clearing::end_law`, `further_law`);
//! - a heap whose objects were moved shows the graph, and so does one whose reached objects were copied out of a set
//!   of regions that is then released (`relocation::move_law`, `evacuation::evacuation_law`).
//!
//! ```text
//!   graph                                        a heap that shows it
//!   roots  [7, nil]                              roots  [16, nil]
//!   7      pointers [9, nil]  values [5]         16     name 7  pointers [40, nil]  values [5]
//!   8      pointers [7]       values []                 (name 8 is unreachable, and may be gone)
//!   9      pointers []        values [1, 2]      40     name 9  pointers []         values [1, 2]
//! ```
//!
//! The definitions, in order of reading: `Graph` (objects by name, `IsReachable`), `Heap` (objects by address, `Shows`),
//! `Marking` (the snapshot-at-the-beginning invariant `KeepsSnapshot`, the steps that keep it, `MarksExactly`), `Weak` (touched names,
//! `KeepsUnreached`, `Clears`), `Clearing` (what the heap will show), `Kept` (what is kept by marks and tops at mark start),
//! `Relocation`, `Evacuation`; `Paths` and `Count` say
//! again what reachable is.
#![tactic(auto)]

pub mod clearing;
pub mod evacuation;
pub mod marking;
pub mod reaching;
pub mod redirection;
pub mod relocation;
pub mod showing;
pub mod weak;
