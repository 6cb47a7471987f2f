// The reading of the initiator.
ghost use Rattle.std.specs.Prelude.{◌≡◌};
ghost use Rattle.ibft_readings.specs.Readings.{initiator_in, initiator_of};

use crate::slots::Slots;
use ibft_layout::initiator::Initiator;
use ibft_layout::shape::FLAGS_AT;
use ibft_layout::string_words::StringWords;
use octets::read::{array_at, byte_at};
use table_header::verdict::{Refusal, refusal_of};

// The fields of the initiator whose first byte is the part's.
fn initiator_in(part: &[u8]) -> Initiator
    ensures { result ≡ initiator_in part.now }
{
    Initiator {
        flags: byte_at(part, FLAGS_AT as usize),
        isns: array_at(part, Initiator::ISNS.at as usize),
        slp: array_at(part, Initiator::SLP.at as usize),
        radius: array_at(part, Initiator::RADIUS.at as usize),
        second_radius: array_at(part, Initiator::SECOND_RADIUS.at as usize),
        name: StringWords::read(part, Initiator::NAME.at as u32),
    }
}

#[derive(Clone, Copy)]
pub struct InitiatorReading {
    pub refusal: Refusal,
    pub fields: Initiator,
}

// The initiator.
pub fn read_initiator(t: &[u8]) -> InitiatorReading
    ensures { result ≡ initiator_of t.now }
{
    let slots = Slots::of(t);
    let verdict = slots.slot_verdict(0, 0);
    InitiatorReading {
        refusal: refusal_of(verdict),
        fields: initiator_in(slots.structure_part(verdict, 0)),
    }
}
