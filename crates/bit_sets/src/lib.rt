//! Sets of numbers as bits, in words of 64. Clauses see a flag for each number.
//!
//! ```text
//!   Bits           large sets: pages of words are written as they are reached    marks, flags of cards
//!   BoundedBits    the same, and between which bounds the members are            what a pause notes
//!   SmallBits      small sets: all words are written when a set is made          the fingers of marking
//! ```
//!
//! `groups` has the words of the large sets, `pages` where they are.
#![tactic(auto)]

pub mod bits;
pub mod bounded;
mod groups;
mod pages;
pub mod small_bits;
