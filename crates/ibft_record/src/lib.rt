// The record range that a build is given: what it says of each structure and entry, and what is refused of it.
#![tactic(auto)]

pub mod record;
pub mod refusals;
mod refusals_extras;
mod refusals_images;
mod refusals_range;
mod refusals_strings;
