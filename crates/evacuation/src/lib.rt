//! Evacuation: what is reached of a set of regions is copied out of it, and the regions are released.
//!
//! Roots, fields of kept objects outside the set, and copied fields that name an object of the set name its copy afterwards.
//! Whatever isn't reached is gone with the set's regions. Fields are pointers and weak slots alike: a pause keeps what a weak slot
//! names, and only marking tells the two apart. Only cards that the set's remembered sets cover are looked at outside.
//!
//! ```text
//!                region 0          region 1 (chosen)         region 2 free     roots   card of f
//!   before       | a: f -> c |     | b | c: g -> d | d |     |            |    c, a    covered by region 1
//!   roots        | a: f -> c |     | b | to 2      | d |     | c: g -> d  |    c', a
//!   outside      | a: f -> c'|     | b | to 2      | d |     | c: g -> d  |            dirty: f leads to region 2
//!   copies       | a: f -> c'|     | b | to 2      | to 2|   | c: g -> d' | d |
//!   released     | a: f -> c'|     |                    |    | c: g -> d' | d |
//! ```
//!
//! `pause` has the whole, `visited` the cards to visit, `roots`, `outside` and `copied` the three loops in their order, `fields`
//! one word, `release` the end, `room` what is made with the heap: no call takes memory but its making.
//!
//! Each object of the set has at most half a region's words, so a destination that is closed for want of room is more than half
//! full: where twice the live bounds of the set are within the free regions' words, a free region is there whenever one is
//! needed.
//!
//! A pause costs the words copied, the roots in use, what the remembered sets of the chosen regions hold, the tiles and fields of the
//! cards that they cover, the cards that it notes, and a few looks at each region. Cards are flagged in sets of bits that are looked
//! at between the lowest and the highest of them alone.
#![tactic(auto)]

mod copied;
mod fields;
mod outside;
mod pause;
mod release;
pub mod room;
mod roots;
mod slide;
mod visited;

pub use pause::{Moved, evacuate};
pub use room::PauseRoom;
pub use slide::redirect_run;
