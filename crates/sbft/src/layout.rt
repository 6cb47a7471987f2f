// The layout of an sBFT as data: its three parts, and where the parts of a table stand.
ghost use Rattle.std.specs.Prelude.{◌≡◌};
ghost use Rattle.sbft.specs.Layout.{part_of, offset_of, absent, end_of};

use octets::read::u16_at;

// A part: where its offset stands, how many bytes it has, whether it may be absent (offset 0), where a written table has it.
#[derive(Clone, Copy)]
pub struct Part {
    pub word: u16,
    pub size: u16,
    pub optional: bool,
    pub place: u16,
}

impl Part {
    // The parts by number, in the order of their offsets.
    pub const COUNT: u8 = 3;

    pub const SCSI: u8 = 0;

    pub const SRP: u8 = 1;

    pub const IB: u8 = 2;
}

// No part starts below the end of the table's start.
pub const START_END: u16 = 48;

// Part k. (Past the last part stands the IB part.)
pub fn part_of(k: u8) -> Part
    ensures { result ≡ part_of k }
{
    match k {
        0 => Part {
            word: 36,
            size: 8,
            optional: false,
            place: 48,
        },
        1 => Part {
            word: 38,
            size: 32,
            optional: false,
            place: 56,
        },
        _ => Part {
            word: 40,
            size: 48,
            optional: true,
            place: 88,
        },
    }
}

// Where part k starts, as the table says.
pub fn offset_of(t: &[u8], k: u8) -> u16
    ensures { result ≡ offset_of t.now k }
{
    u16_at(t, part_of(k).word as usize)
}

// Is it absent?
pub fn absent(t: &[u8], k: u8) -> bool
    ensures { result ≡ absent t.now k }
{
    if !part_of(k).optional {
        return false;
    }
    offset_of(t, k) == 0
}

// Where it ends, which may be past 16 bits.
pub(crate) fn end_of(t: &[u8], k: u8) -> u32
    ensures { result ≡ end_of t.now k }
{
    offset_of(t, k) as u32 + part_of(k).size as u32
}
