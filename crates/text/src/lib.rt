// Text: bytes as people write them, put into lent room and taken apart. No call here has a `requires`.
#![tactic(auto)]

pub mod put;
pub mod split;
pub mod words;
