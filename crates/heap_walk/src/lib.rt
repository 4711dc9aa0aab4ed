//! What is told of the objects that a heap keeps, and of who names one, item by item, into a buffer of the caller's.
//!
//! ```text
//!   words     |   A   | filler | B |  C  | free ..     C isn't kept
//!   walk 0 -> A, B                                     entries, by rising address, as many as the buffer has
//!   cursor                        ^                    where the next walk goes on
//! ```
//!
//! A walk goes from tile to tile by the cursor, takes no memory and changes nothing. `starts` has where tiles start over all regions,
//! `kept` which of them are kept objects, `naming` which of these has a name, `objects` what is told of them; `holders` an object's links,
//! and whether a root or an object names another one, `finding` all that do, one after another; `paths` a shortest way from a root to an
//! object, by a search from this on, whose `steps` are in the buffer.
//!
//! Examples of calls go on from this one, in which `rt` is a test's `HostRuntime` and `alloc` its allocator:
//!
//! ```rust
//! use heap_steps::{Action, Counts, Op, Register, Step};
//! use heap_walk::{Entry, Holder, entry_of, kept_above, link_at, links, object_of, path, root_holder, walk, who};
//! use heap_words::addr::Addr;
//! use heap_words::config::{Config, Format};
//! use step_core::Core;
//!
//! let config = Config { format: Format::V1, regions: 4, words: 16, buffer: 8, mutators: 1, first_name: 0 };
//! let counts = Counts { pointers: 1, values: 1 };
//! let new = Step::Mutator(Op { mutator: 0, action: Action::New { to: Register { number: 0 }, counts } });
//! let mut core = Core::new(alloc, &config)?;
//! ```
#![tactic(auto)]

mod finding;
mod holders;
mod kept;
mod naming;
mod objects;
mod paths;
mod starts;
mod steps;

pub use finding::who;
pub use holders::{Holder, link_at, links, root_holder};
pub use kept::kept_above;
pub use naming::object_of;
pub use objects::{Entry, entry_of, walk};
pub use paths::path;
