//! The life of a heap over a list of steps, moment by moment, as a page for a person's eyes.
//!
//! ```text
//!   events -- live --> Life: the record, the moments, and the moments as lines -- page_of --> one file of HTML
//! ```
//!
//! `live` does the steps of events again in a new heap. The record that comes of it is a run; each moment has the numbers of a core of that
//! run, after as many events as it says; the moments are exactly those that the life's pace wants, in rising order; and what is told of
//! them are the lines that `docs/DRAWING.md` describes, of that core: what the crate `heap_dump` says of a heap, spelt. What is around the
//! record and the lines in the page is shown by tests.
//!
//! What else is in the page, its style and its scripts, is the crate `page_parts`.
#![tactic(auto)]

mod course;
mod draw;
mod file_name;
mod life;
mod moment_text;
mod pace;
mod pacing;
mod page;
mod redraw;
mod region_text;
mod tile_text;

pub use draw::draw_script;
pub use file_name::name_law;
pub use life::{Life, Moment, live, planned};
pub use pace::Pace;
pub use pacing::pace_of;
pub use page::page_of;
pub use redraw::draw_record;
