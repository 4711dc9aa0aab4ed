//! Mutators, markers and refiners over one heap: their turns, in threads or by a schedule that a seed draws.
//!
//! Examples of calls go on from this one, in which `rt` is a test's `HostRuntime` and `alloc` its allocator:
//!
//! ```rust
//! use heap_words::config::{Config, Format};
//! use mutators::{Journal, Turn, run_threads, run_threads_seen, simulate};
//! use heap_steps::{Action, Actor, CollectorStep, Op, Plan, Register, Step};
//! use object_graph::{Verdict, check};
//!
//! let config = Config { format: Format::V1, regions: 4, words: 16, buffer: 8, mutators: 1, first_name: 0 };
//! let drop = Op { mutator: 0, action: Action::Drop { register: Register { number: 0 } } };
//! let mut plan = Plan::new(alloc, config);
//! plan.push(Step::Mutator(drop))?;
//! plan.push(Step::Collector(CollectorStep::Begin))?;
//! ```
#![tactic(auto)]

mod journal;
mod schedule;
mod shared;
mod threads;

pub use journal::{Journal, Turn};
pub use schedule::simulate;
pub use threads::{Threaded, run_threads, run_threads_seen};
