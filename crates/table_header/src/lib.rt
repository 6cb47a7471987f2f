// What the tables of all families share: the verdict of a check, the header, the writing of a whole table.
#![tactic(auto)]

pub mod header;
pub mod verdict;
pub mod write;
