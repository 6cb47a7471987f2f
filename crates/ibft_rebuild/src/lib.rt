// Reading a table and building it again: the record range that says what it holds, and the build of that range.
#![tactic(auto)]

mod range;
pub mod rebuild;
