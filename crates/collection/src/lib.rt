//! A policy of collection: it takes the steps of the collector so that garbage comes back.
//!
//! ```text
//!   make ---- enough words left, more than two regions free? ---- yes ----> the mutator's own step
//!               | no
//!             look: what is due (a pause of new regions, marking, a cleanup, a pause)     }
//!             room beside two free regions? if not, the running cycle to its end          }  each by Core::step
//!             still not? then a whole collection                                          }
//!             a larger object, and no run for it? then compactions, in the third format   }
//!             room now, or a heap too small to leave two? ---- yes ----> the mutator's own step
//!               | no
//!             refused as Full
//! ```
//!
//! `steps` takes the steps, and shows each to who watches, `whole` is the whole collection, which `density` ends, `compaction` what brings
//! free regions side by side, above all that are in use, `cycle` what is due at a look, by the `numbers` of the policy, `room` whether
//! there is room for an object, `making` all together. `markings` counts markings that end. `laws` has what a pause that frees no region
//! says.
//!
//! Examples of calls go on from this one, in which `rt` is a test's `HostRuntime` and `alloc` its allocator:
//!
//! ```rust
//! use collection::{Policy, Unwatched, collect, collect_down, collect_due, make};
//! use heap_steps::{Action, Counts, Op, Register, Reply};
//! use heap_words::config::{Config, Format};
//! use step_core::Core;
//!
//! let config = Config { format: Format::V1, regions: 4, words: 16, buffer: 8, mutators: 1, first_name: 0 };
//! let r0 = Register { number: 0 };
//! let counts = Counts { pointers: 1, values: 1 };
//! let mut core = Core::new(alloc, &config)?;
//! let mut policy = Policy::new(&config);
//! ```
#![tactic(auto)]

mod compaction;
mod cycle;
mod density;
mod laws;
mod making;
mod markings;
mod numbers;
mod room;
mod steps;
mod whole;

pub use compaction::collect_down;
pub use cycle::collect_due;
pub use laws::choice_law;
pub use making::make;
pub use numbers::Policy;
pub use steps::{Unwatched, Watch};
pub use whole::collect;
