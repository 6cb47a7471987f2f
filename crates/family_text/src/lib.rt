// The text of aBFT and sBFT records: the family of a text, a text entered as an image of a table, a table told. No public call
// here has a `requires`.
#![tactic(auto)]

pub mod enter;
pub mod family;
pub mod fields;
pub mod tell;
pub mod value;
pub mod value_text;
