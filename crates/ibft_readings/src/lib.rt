// Readings of the iSCSI Boot Firmware Table, each behind the check: its header, structures and entries, the login order.
#![tactic(auto)]

pub mod address;
mod control;
pub mod entry;
pub mod header;
pub mod initiator;
pub mod login;
pub mod nic;
pub mod pci;
mod reading;
mod slots;
pub mod structure;
pub mod target;
