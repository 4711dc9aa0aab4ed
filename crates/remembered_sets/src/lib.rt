//! Remembered sets: for each region, cards that may hold a field, a pointer or a weak slot, that leads into it from another region.
//!
//! Refinement looks at a dirty card, and adds it to the set of each region that its fields lead into. A pause that reclaims the region
//! then looks at the cards of its set, and at no other card outside, for the fields that it has to set anew; the region's set is cleared
//! when it is freed.
//!
//! ```text
//!   2 cards a region: cards 6 and 7 lie in region 3
//!
//!   the set of region 1           inline                       sources, marked whole
//!   add(1, 6)                     6                            -
//!   add(1, 9), .., 16 cards       6 9 .. 40                    -
//!   add(1, 7): no room inline     6 9 .. 40                    3      covers card 7, and all others of region 3
//!   add(1, 6): covered already    6 9 .. 40                    3
//!   clear(1)                      -                            -
//! ```
//!
//! A set has a fixed size: room for sixteen cards, a bit for each region that may be marked whole, and a filter. It may cover
//! more than was added, never less, and no call but the making takes memory or fails.
//!
//! So that a pause doesn't look at all cards of a region that a set marks whole, one bit a card tells which cards entered a set,
//! whichever it was, since the set of their own region was last emptied. In another card that isn't dirty no field leads out of its
//! region, so `mark_cards` passes over it, and what a pause visits grows with the cards that were added, and not with the regions.
//!
//! These are all cards that were added to any set. So that a pause of one region passes over those of other regions' sets, each set has a
//! filter (`filter`), rows of flags that several regions' cards share: a card that is added takes two places, and one whose two places
//! aren't both taken was never added to this set. In a large heap whose fields lead anywhere it holds back most of these cards. The filters
//! of four neighbouring regions are in one table, so that making them asks for memory once.
#![tactic(auto)]

mod filter;
mod flags;
mod set;
pub mod sets;

pub use sets::RememberedSets;
