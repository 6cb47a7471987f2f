// The SRP Boot Firmware Table (sBFT): its check, its readings, its write.
#![tactic(auto)]

pub mod check;
pub mod fields;
pub mod layout;
pub mod reading;
pub mod write;
