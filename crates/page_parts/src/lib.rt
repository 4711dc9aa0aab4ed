//! The parts of the page that `draw` writes, in their order: before, between, behind, the scripts, end.
//!
//! Made by `tools/embed_page` of the files of `page/`, as all of this crate: change those.
#![tactic(auto)]

mod before;
mod behind;
mod between;
mod end;
mod script_curves;
mod script_find;
mod script_fold;
mod script_lanes;
mod script_life;
mod script_objects;
mod script_over;
mod script_page;
mod script_panels;
mod script_reach;
mod script_runs;

pub use before::BEFORE;
pub use behind::BEHIND;
pub use between::BETWEEN;
pub use end::END;
pub use script_curves::SCRIPT_CURVES;
pub use script_find::SCRIPT_FIND;
pub use script_fold::SCRIPT_FOLD;
pub use script_lanes::SCRIPT_LANES;
pub use script_life::SCRIPT_LIFE;
pub use script_objects::SCRIPT_OBJECTS;
pub use script_over::SCRIPT_OVER;
pub use script_page::SCRIPT_PAGE;
pub use script_panels::SCRIPT_PANELS;
pub use script_reach::SCRIPT_REACH;
pub use script_runs::SCRIPT_RUNS;
