//! A table of equally large regions over the words of one heap.
//!
//! Callers see no words. To them an ordinary region is a list of tiles, from its bottom up to its top: objects,
//! fillers, and objects that were forwarded. A humongous object has a run of adjacent regions to itself. So
//! objects and fillers cover what is handed out, word for word, at every moment.
//!
//! What a region goes through, from when it is taken until it is released (dots lie above its top):
//!
//! ```text
//!   free       |                            |
//!   taken      |............................|  `take_free`
//!   cut        | filler       |.............|  `push_filler`, at the top
//!   filled     | object | rest|.............|  `make_object` or `make_pairs`, at a filler's start
//!   forwarded  | moved  | rest|.............|  `copy_object` into another region, then `forward`
//!   released   |                            |  `release`
//! ```
//!
//! A run is found by `free_run`, written with its object by `make_run` or `make_run_of_pairs`, and goes whole by `release`.
//!
//! A field is read or written by its address in constant time, and the first tile of a card is found from an entry of that card
//! (`first_tiles`). Where objects with weak slots start is a set (`weak_starts`), and keys of pairs are weak slots. Nothing but
//! `RegionTable::new` takes memory.
#![tactic(auto)]

mod first_tiles;
mod giving;
mod objects;
pub mod row;
mod runs;
pub mod table;
mod updates;
pub mod walk;
mod weak_starts;

pub use row::{Kind, Shape};
pub use table::RegionTable;
pub use walk::Walk;
