//! What is asked of a heap and what it answers: the steps of mutators and of the collector, their replies, and lists of them.
//!
//! ```text
//!   a script's line          Actor          Step                                   Reply
//!   0 new r0 1 1             mutator 0      a mutator's, New { to: r0, 1, 1 }      Named(Some(0))     #0
//!   0 read r0 0              mutator 0      a mutator's, Read { object: r0, .. }   Word(0)            0
//!   gc begin                 the collector  the collector's, Begin                 Done               ok
//! ```
//!
//! An `Event` is an actor, its step and the reply. A `Plan` holds a heap's sizes and the steps to be done, a `Record` the sizes and the
//! events that were; both keep that each step is one that the sizes allow (`is_in`). The graph, the heap and the texts rest on these
//! types, and none of them on another for them.
//!
//! Examples of calls go on from this one, in which `rt` is a test's `HostRuntime` and `alloc` its allocator:
//!
//! ```rust
//! use heap_steps::*;
//! use heap_words::config::{Config, Format};
//! use root_table::RootCounts;
//!
//! let config = Config { format: Format::V1, regions: 4, words: 16, buffer: 8, mutators: 1, first_name: 0 };
//! let r0 = Register { number: 0 };
//! let op = Op { mutator: 0, action: Action::New { to: r0, counts: Counts { pointers: 1, values: 1 } } };
//! let event = Event { actor: Actor::Mutator(0), step: Step::Mutator(op), reply: Reply::Named(Some(0)) };
//! ```
#![tactic(auto)]

mod allowed;
mod fault;
mod form;
mod record;
mod step;

pub use allowed::{has_row, is_third};
pub use fault::{RunFault, run_fault};
pub use form::{ActionVerb, CollectionVerb, DoneReply, Operand, Replies, Row, Verb};
pub use record::{Plan, Record};
pub use step::{
    Action, Actor, CollectorStep, Counts, Event, GlobalRoot, Limits, Op, Refusal, Register, Reply,
    Step,
};
