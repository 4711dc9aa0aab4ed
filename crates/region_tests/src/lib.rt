//! Tests of the table of regions, and of the layers that place, choose, remember and move what is in it. They go by public calls alone and
//! are apart from the crates that they try, so that these are proved once. The crate has nothing else, and nothing depends on it.
//!
//! `tables` and `pairs` try `regions`, `places` tries `alloc_buffers`, `choices` and `ages` try `region_choice`, `dirty_cards` tries
//! `cards`, `covered_cards` tries `remembered_sets` and how `evacuation` counts cards, `refining` tries `refinement`, `copies` tries
//! `object_copy`, and `pauses` tries `evacuation`.
#![tactic(auto)]

#[cfg(test)]
mod ages;
#[cfg(test)]
mod choices;
#[cfg(test)]
mod copies;
#[cfg(test)]
mod covered_cards;
#[cfg(test)]
mod dirty_cards;
#[cfg(test)]
mod pairs;
#[cfg(test)]
mod pauses;
#[cfg(test)]
mod places;
#[cfg(test)]
mod refining;
#[cfg(test)]
mod tables;
