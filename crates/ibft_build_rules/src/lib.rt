// What a build makes: the record range, the refusals, the plan, the table's bytes, and the laws of these. No code but that of
// the record range, which is read in many places, and the type of a build's answer.
#![tactic(auto)]

pub mod range;

use table_header::verdict::Refusal;

// What a build answers: its refusal (all 0 where it is accepted) and the table's Length.
// (No Result: `answer_of` and the promises speak of both numbers in every case, and C is handed them.)
#[derive(Clone, Copy)]
pub struct Built {
    pub refusal: Refusal,
    pub length: u32,
}

// The largest Length that a build can have: every structure, and every string at its longest with bytes of its own.
pub const LARGEST_LENGTH: u16 = 13710;
