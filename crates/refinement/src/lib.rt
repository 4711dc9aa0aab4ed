//! Refinement: the fields of a dirty card, pointers and weak slots, enter the remembered sets of the regions that they lead
//! into.
//!
//! A card is a row of words, and a region is a whole number of cards. A field is crossing if it is one of a kept object
//! and leads into another region than the field's word is in. Crossing fields are remembered: the card of each is
//! dirty, or the set of the region that it leads into covers the card, the card has entered a set, and the set's filter
//! lets it through.
//!
//! ```text
//!             region 0               region 1        region 2
//!   card      0          1           2       3       4       5
//!   objects   | a: f     .  g | b: h | c    |        | d    |        |
//!
//!                                                      dirty    region 1    region 2
//!   store      f = c, g = d: the core's barrier        0 1      -           -
//!   refine_one card 0, the front, leads to region 1    1        0           -
//!   refine_one card 1: g is a's, though a starts in    -        0           1
//!              card 0; b is dead, so h isn't entered
//! ```
//!
//! `scan` looks at the tiles of one card, from the one that holds its first word on, `links` passes over nil fields, `refine`
//! takes a card from the queue and scans it, and `laws` says what keeps the fields remembered as the heap changes. Nothing but
//! what crossing fields ask for is entered: dead objects are skipped. No call takes memory or fails.
#![tactic(auto)]

pub mod laws;
pub mod links;
pub mod refine;
pub mod scan;

pub use links::{next_link, next_link_counted};
pub use refine::{refine_one, refine_one_counted};
pub use scan::{is_kept, scan_card, scan_card_counted};
