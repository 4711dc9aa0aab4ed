//! Where objects go: allocation buffers, cut from the current region.
//!
//! Each mutator has a buffer of its own, so that small objects need no region of their own to be
//! looked for. An object of `size` words goes, in this order:
//!
//! 1. if it has more than half a region, to the bottom of the lowest run of as many adjacent free regions as it needs;
//! 2. into the rest of the mutator's buffer, if it fits there;
//! 3. if it is no larger than a buffer, to the start of a new one, and the old one is forgotten;
//! 4. else into words of its own, and the buffer stays.
//!
//! New buffers and words of their own are cut at the top of the current region. If there is none, or the
//! words don't fit, the lowest free region becomes the current one. If no region or run is free, the answer is
//! `Full`, and nothing changes.
//!
//! Placement knows no names, so the caller makes the object. A small one's place is an address at which the table has a
//! filler of exactly its size from then on, so that the tiles are right at every moment. A humongous one's place is a run,
//! in which nothing has changed yet.
//!
//! ```text
//!   cut      | objects ..     | object | rest of the buffer: one filler |           |
//!   next     | objects ..     | object | object | rest: one filler      |           |
//!   retired  | objects ..     | object | object | filler                | new buffer ..
//!                                                                       ^ top of the current region
//!   a run    | humongous object ..        | ..                         | .. end |                   |
//! ```
//!
//! Limits are an address for each region, as tops at mark start. If all tops and all open buffers lie at or
//! above them, so does the place of a new object, and so do all tops and open buffers once it is placed.
//!
//! `buffers` has the buffers and the current region, `placement` where an object goes, `laws` what holds of buffers as regions are
//! released and runs made.
#![tactic(auto)]

pub mod buffers;
pub mod laws;
pub mod placement;

pub use buffers::{AllocBuffers, Buffer};
pub use placement::{Allocation, Full};
