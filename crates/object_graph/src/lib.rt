//! The graph of objects by name, and the judge of records.
//!
//! What the graph is, and what a run of it, is said in `graph_runs`, which the heap's contracts speak of too. Here they are code.
//!
//! `Graph` takes the steps of mutators (`apply`); `check` says whether a record is a run, from the graph of a new heap, and if not, at
//! which event it breaks; `explain` says too what the graph gives there. A `Judge` takes events one by one, as they come. Steps,
//! replies and records are those of `heap_steps`, which the heap has too.
//!
//! Examples of calls go on from this one, in which `rt` is a test's `HostRuntime` and `alloc` its allocator:
//!
//! ```rust
//! use heap_steps::*;
//! use heap_words::config::{Config, Format};
//! use object_graph::*;
//!
//! let config = Config { format: Format::V1, regions: 4, words: 16, buffer: 8, mutators: 1, first_name: 0 };
//! let r0 = Register { number: 0 };
//! let op = Op { mutator: 0, action: Action::New { to: r0, counts: Counts { pointers: 1, values: 1 } } };
//! let event = Event { actor: Actor::Mutator(0), step: Step::Mutator(op), reply: Reply::Named(Some(0)) };
//! ```
#![tactic(auto)]

mod clear;
mod given;
mod graph;
mod judge;
mod laws;
mod machine;
mod objects;
mod pointer;
mod roots;
mod search;

pub use given::Given;
pub use graph::Graph;
pub use judge::{Finding, Judge, Verdict, check, explain};
pub use laws::given_law;
