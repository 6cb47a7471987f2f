// The reading of Target n.
ghost use Rattle.std.specs.Prelude.{◌≡◌};
ghost use Rattle.ibft_readings.specs.Readings.{target_in, target_of};

use crate::slots::Slots;
use ibft_layout::layout::target_slot;
use ibft_layout::shape::FLAGS_AT;
use ibft_layout::string_words::StringWords;
use ibft_layout::target::Target;
use octets::read::{array_at, byte_at, u16_at, u64_at};
use table_header::verdict::{Refusal, refusal_of};

// The fields of the target whose first byte is the part's.
fn target_in(part: &[u8]) -> Target
    ensures { result ≡ target_in part.now }
{
    Target {
        flags: byte_at(part, FLAGS_AT as usize),
        address: array_at(part, Target::ADDRESS.at as usize),
        socket: u16_at(part, Target::SOCKET.at as usize),
        lun: u64_at(part, Target::LUN.at as usize),
        chap_type: byte_at(part, Target::CHAP_TYPE.at as usize),
        nic: byte_at(part, Target::NIC.at as usize),
        name: StringWords::read(part, Target::NAME.at as u32),
        chap_name: StringWords::read(part, Target::CHAP_NAME.at as u32),
        chap_secret: StringWords::read(part, Target::CHAP_SECRET.at as u32),
        reverse_name: StringWords::read(part, Target::REVERSE_NAME.at as u32),
        reverse_secret: StringWords::read(part, Target::REVERSE_SECRET.at as u32),
    }
}

#[derive(Clone, Copy)]
pub struct TargetReading {
    pub refusal: Refusal,
    pub index: u8,
    pub fields: Target,
}

// Target n.
pub fn read_target(t: &[u8], n: u8) -> TargetReading
    ensures { result ≡ target_of t.now n }
{
    let slot = target_slot(n);
    let slots = Slots::of(t);
    let verdict = slots.slot_verdict(slot, slot as u16);
    TargetReading {
        refusal: refusal_of(verdict),
        index: slots.index_shown(verdict, slot as u16),
        fields: target_in(slots.structure_part(verdict, slot as u16)),
    }
}
