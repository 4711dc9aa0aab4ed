//! A view of a heap: its regions, objects, cards and roots as they are, as lines for a person's eyes.
//!
//! ```text
//!   heap 4 16 8 1 0                                  the script's first line: the sizes
//!   next name 3
//!   marking runs, objects scanned: 1
//!   region 0: ordinary, current, 16 of 16 words handed out
//!     top at mark start 0, next 8, live bound 16     addresses of the last marking and of the one that runs; words
//!     remembered cards: 2 4, all of region 3         fields in these cards may lead into this region
//!     at 0: #0, pointers #1 nil, data 7, kept, scanned
//!     at 5: filler of 3                              words of no object
//!     at 8: #2, weak slots #0 nil, kept, new         fields that marking doesn't follow
//!     ..
//!   region 1: free
//!   queue of cards: 0
//!   globals: g3 #0 at 0
//!   mutator 0: r0 #0 at 0, r2 #2 at 8
//!     open buffer at 12, 4 words left
//!     card log: 1
//!     deletion log: #1
//! ```
//!
//! Whether an object is kept is told by the last marking that came to its end: it is, if it was made since that marking began, or was
//! marked. While marking runs, `new` is an object that was made since it began, `unmarked` one that it hasn't found yet, `grey` one
//! that it has found and hasn't scanned, `scanned` one whose pointers it has followed.
//!
//! A summary has a line for each region in place of all this. In the third format free regions side by side are one line there, such as
//! `regions 17 to 4095: free`. One object has a line for each of its fields, and one for each root and each object that names it. A path is
//! a shortest way from a root to an object, by pointers: a line for the root, and one for each object on the way. A census has a line for
//! each class of kept objects: how many there are, and how many words they have, most words first. A snapshot is all kept objects, and who
//! names whom, in JSON that other tools read.
//!
//! A view reads the heap and changes nothing of it, and its cost grows with the heap. It is put together in memory, so that nothing is
//! written before it is whole: `view_text` gives the text of a heap's view, as `specs` says what that is. `view_script` reads a script,
//! does its steps in a new heap, and writes the view of that; `view_record` does the same of a record, whose replies have to be the heap's.
//! A `Glance` says when, and what of the heap: all regions or one, one object, a path to it, the census, or a snapshot.
#![tactic(auto)]

mod card_lines;
mod census;
mod census_lines;
mod classes;
mod folds;
mod glance;
mod heads;
mod object_lines;
mod region_lines;
mod review;
mod root_lines;
mod search;
mod snapshot;
mod snapshot_lines;
mod tile_lines;
mod view;
mod way_lines;
mod ways;

pub use glance::{Glance, Viewed, view_text};
pub use review::view_record;
pub use view::view_script;
