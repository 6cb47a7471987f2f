// The layout of the iSCSI Boot Firmware Table as data: its structures, their fields and strings, the slots, the entries.
#![tactic(auto)]

pub mod control;
pub mod header;
pub mod initiator;
pub mod layout;
pub mod nic;
pub mod shape;
pub mod string_words;
pub mod target;
