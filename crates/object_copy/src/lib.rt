//! Copies of objects, and the regions that they go to.
//!
//! Copies go to free regions, in rising number. An object that doesn't fit into the open destination closes it, and the
//! lowest free region is the next one. The object that was copied is forwarded to its copy.
//!
//! ```text
//!                 region 1             region 2 free     region 3 free     destinations
//!                 | a  | b      | c |
//!   copy(b)       | a  | b to 2 | c |  | b        |                        2, open
//!   copy(c)       | a  | b to 2 | to 2 | b    | c |                        2, open
//!   copy(a)       | to 3 | ..          | b    | c |      | a        |      2, 3 open
//!   close                                                                  none
//! ```
//!
//! A copy costs the object's words. No call takes memory but the making.
#![tactic(auto)]

mod copies;
pub mod destinations;

pub use copies::copy;
pub use destinations::Destinations;
