// A record as plain text: its fields by name, the values they are given, and the text that says what a table holds.
// docs/RECORD-FORMAT.md is the format. No public call here has a `requires`.
#![tactic(auto)]

pub mod enter;
pub mod fields;
pub mod tell;
pub mod value;
pub mod value_text;
