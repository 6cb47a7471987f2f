// Compares two iBFT tables by meaning: what they mean may differ, how they are laid out does not count.
#![tactic(auto)]

pub mod compare;
pub mod difference;
mod pair;
mod table;
mod unequal;
mod walk;
