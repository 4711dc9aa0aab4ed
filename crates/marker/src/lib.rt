//! Marking from a snapshot: which objects were reachable when marking began.
//!
//! A `Marker` holds what marking knows beside the table of regions and the root words, which its calls are passed:
//! the marks and the tops at mark start of both roles, the grey objects, the roots that wait, and the mutators' deletion logs. What is
//! old was there when marking began: it lies below its region's next top. Only old objects are marked.
//!
//! ```text
//!             begin                     mark, scan               finish
//!   idle ---------------> running ---------------------+ ------------------> idle, and the next marks and tops
//!             next marks cleared;       a grey object's |      all logs and     are the previous ones
//!             what roots name is        old targets are |      roots are taken, |
//!             marked and grey, or       marked and grey |      all grey scanned,| clear   weak slots that lead to what isn't kept
//!             waits for `mark`                          |      pairs followed   |         become nil, so many objects a call
//!                              ^-----------------------+
//!                              | save     a store's overwritten pointer enters its mutator's log
//!                              | take_log what a log names is marked
//!
//!   while idle: forget   a region's marks go and its tops fall to its bottom, before it is released or once it is taken
//! ```
//!
//! What is promised, for every graph that the heap shows and every snapshot: `begin` makes the present graph the
//! snapshot; each further call keeps the snapshot invariant; and after `finish` the marked names are exactly those that
//! were reachable in the snapshot, the answer is their number, and what is kept from then on will show the graph, in which the weak
//! slots that held any other name of the snapshot are nil, once they are cleared. `clear` clears so many objects' slots, `clear_rest` all
//! from an address on.
//!
//! Each object is scanned once in a cycle: a scan takes a grey object, and leaves it scanned. The scans are counted from
//! `begin` on, only marked objects are scanned, and at the end the count is the number of marked objects.
//!
//! What a marked object holds for a marked key is marked by `finish` alone (`pairs`), if an object of pairs was made in the table.
//!
//! Where an object is marked, its words are added to its region's count. So how many words of a region are marked is known by a look
//! (`live`), and a pause walks no marks.
//!
//! A scan costs the object's pointers, and `begin` the bitmap, the regions and the roots in use. In the first two formats `begin` marks
//! what roots name and `mark` counts objects; in the third `begin` copies the roots alone, and `mark` counts the words that it looks at. It
//! scans an object of more words than are left in part, so no call looks at more than it is asked to. `clear` looks at the objects that
//! have weak slots alone, and no call walks a region. No call takes memory but `Marker::new`.
#![tactic(auto)]

pub mod clearing;
pub mod counts;
mod cycle;
pub mod laws;
pub mod live;
pub mod marker;
mod pairs;
mod scan;
pub mod waiting;

pub use marker::Marker;
