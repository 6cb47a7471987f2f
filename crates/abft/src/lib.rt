// The AoE Boot Firmware Table (aBFT): the check, the reading, the write.
#![tactic(auto)]

pub mod check;
pub mod fields;
pub mod reading;
pub mod write;
