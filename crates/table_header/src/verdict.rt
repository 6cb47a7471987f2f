// What a check and the readings answer: accepted, or a refusal with its numbers. A refused reading is shown no bytes.
ghost use Rattle.std.specs.Prelude.{◌≡◌};
ghost use Rattle.table_header.specs.Verdict.{refusal, refusal_of, shown, refusal_with, Accepted, Refused};

// A refusal's number and place (RULES.md, Terms), and with 6 the checksum byte that would be right, which may be 0; with any
// other number that byte is 0. An accepted call has 0 in all three.
// (A number, and no enum of the refusals: RULES.md and `refusal` of specs/ speak of numbers, and C is handed them.)
#[derive(Clone, Copy)]
pub struct Refusal {
    pub number: u8,
    pub place: u32,
    pub checksum: u8,
}

// What a check answers: that it accepts, or its refusal.
pub type Verdict = Result<(), Refusal>;

// What a call returns where it accepts.
pub const ACCEPTED: Refusal = Refusal {
    number: 0,
    place: 0,
    checksum: 0,
};

// The refusal with this number and place, its checksum byte 0.
pub fn refuse(number: u8, place: u32) -> Verdict
    ensures { result ≡ Refused (refusal number place) }
{
    refuse_with(number, place, 0)
}

// The refusal with this number and place, and with the checksum byte that would be right.
pub fn refuse_with(number: u8, place: u32, checksum: u8) -> Verdict
    ensures { result ≡ Refused (record { number = number; place = place; checksum = checksum }) }
{
    Err(Refusal {
        number,
        place,
        checksum,
    })
}

// The number, place and checksum byte that a verdict returns.
pub fn refusal_of(verdict: Verdict) -> Refusal
    ensures { result ≡ refusal_of verdict }
{
    match verdict {
        Ok(()) => ACCEPTED,
        Err(refusal) => refusal,
    }
}

// What a reading with this verdict is shown of the bytes: nothing where it is refused, so that every field reads 0.
pub fn shown_of(verdict: Verdict, bytes: &[u8]) -> &[u8]
    ensures result_value { result.now ≡ shown verdict bytes.now }
    ensures stands { verdict ≡ Accepted → result.ref_ptr ≡ bytes.entry.ref_ptr }
{
    match verdict {
        Ok(()) => bytes,
        Err(_) => &bytes[..0],
    }
}
