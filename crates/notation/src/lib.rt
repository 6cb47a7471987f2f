// Notation: how values are written as text, read and put. No public call here has a `requires`.
#![tactic(auto)]

pub mod address;
pub mod escape;
pub mod mac;
pub mod number;
pub mod pairs;
pub mod pci;
pub mod value;
