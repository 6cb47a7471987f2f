// The fields of an aBFT, and where they stand.
ghost use Rattle.std.specs.Prelude.{◌≡◌};
ghost use Rattle.abft.specs.Abft.{record_of};

use octets::read::{array_at, byte_at, u16_at};
use scan::Family;
use table_header::header::{OEM_ID_AT, OEM_TABLE_ID_AT};

#[derive(Clone, Copy)]
pub struct Abft {
    pub oem_id: [u8; 6],
    pub oem_table_id: [u8; 8],
    pub shelf: u16,
    pub slot: u8,
    pub mac: [u8; 6],
}

impl Abft {
    // What the family is known by: its signature, and its least Length, which is that of a written table.
    pub const SIGNATURE: u32 = Family::ABFT.signature;

    pub const LENGTH: u32 = Family::ABFT.least;

    // Where the fields behind the header stand.
    pub const SHELF_AT: u8 = 36;

    pub const SLOT_AT: u8 = 38;

    pub const MAC_AT: u8 = 40;

    // The reserved bytes: those behind the header, and the one behind the slot.
    pub const RESERVED_AT: u8 = 24;

    pub const RESERVED_SIZE: u8 = 12;

    pub const SECOND_RESERVED_AT: u8 = 39;

    // The fields of a table; of no bytes every field is 0.
    pub(crate) fn read(t: &[u8]) -> Abft
        ensures { result ≡ record_of t.now }
    {
        Abft {
            oem_id: array_at(t, OEM_ID_AT as usize),
            oem_table_id: array_at(t, OEM_TABLE_ID_AT as usize),
            shelf: u16_at(t, Self::SHELF_AT as usize),
            slot: byte_at(t, Self::SLOT_AT as usize),
            mac: array_at(t, Self::MAC_AT as usize),
        }
    }
}
