//! Which objects of the heap are marked, which of them are scanned, and which are kept.
//!
//! To contracts marks are sets of addresses: lists of flags, one for each word of the heap. Two such sets take turns
//! with the tops at mark start that belong to them, and a third one holds the objects that marking has scanned. So a
//! heap pays three bits a word for its marking, and one for 63 words that tells where grey objects are, all reserved when it
//! is made. No call takes memory afterwards.
//!
//! ```text
//!   over a cycle      begin              mark                      remark               until the next begin
//!   previous marks    tell what is       (untouched)               roles exchanged:     tell what is kept
//!     and tops        kept                                         the next ones
//!   next marks        cleared            an object that is found   the previous ones    (stale)
//!     and tops        each region's top  below its top is marked
//!   scanned           cleared            an object that is         no object is grey    (stale)
//!                                        scanned is entered
//! ```
//!
//! `marks` is the set, `bitmaps` the two roles, `tams` the tops at mark start, `grey` the objects that are marked and not scanned: one that
//! is held, those on the `mark_stack`, and by fingers (`finger_set`) at the words that have some, with a `summary` above them, all others.
//! `kept` says what is kept, and `objects` that marks stand at objects, in words that a heap's invariant can carry, with the laws that each
//! change keeps them. `live` says what the words of a region's marked objects tell of its kept ones.
#![tactic(auto)]

pub mod bitmaps;
pub mod finger_set;
pub mod grey;
pub mod kept;
pub mod live;
pub mod mark_stack;
pub mod marks;
pub mod objects;
pub mod summary;
pub mod tams;
