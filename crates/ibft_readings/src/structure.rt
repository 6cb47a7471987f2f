// A structure by its slot.
ghost use Rattle.std.specs.Prelude.{◌≡◌, ◌-◌, ◌≤◌, length};
ghost use Rattle.octets.specs.View.{Shows};
ghost use Rattle.ibft_layout.specs.Layout.{kind_of};
ghost use Rattle.ibft_table.specs.Table.{start_in};
ghost use Rattle.ibft_readings.specs.Readings.{slot_verdict, structure_in, index_shown, structure_of};
ghost use Rattle.ibft_readings.specs.Promises.{StructureView};
ghost use Rattle.table_header.specs.Verdict.{Accepted};

use crate::reading::verdict_of;
use crate::slots::Slots;
use ibft_layout::initiator::Initiator;
use ibft_layout::layout::{SLOT_COUNT, kind_of};
use ibft_layout::shape::FLAGS_AT;
use ibft_table::starts::{index_in, slot_at, start_in};
use octets::read::{byte_at, part};
use table_header::verdict::{ACCEPTED, Refusal, Verdict, shown_of};

// A structure by slot: its kind as its ID, its Index, its start, its flags.
#[derive(Clone, Copy)]
pub struct StructureReading {
    pub refusal: Refusal,
    pub id: u8,
    pub index: u8,
    pub start: u16,
    pub flags: u8,
}

impl<'a> Slots<'a> {
    // The verdict of a reading of slot k's structure, asked for by this number.
    pub(crate) fn slot_verdict(&self, number: u8, k: u16) -> Verdict
        ensures { result ≡ slot_verdict self.now.starts self.now.t.now number k }
    {
        verdict_of(self.t, SLOT_COUNT <= number, start_in(&self.starts, k) == 0)
    }

    // The part of the table from slot k's structure on: what the reader of that structure is lent.
    pub(crate) fn structure_part(&self, verdict: Verdict, k: u16) -> &'a [u8]
        ensures result_value { result.now ≡ structure_in self.now.starts self.now.t.now verdict k }
        ensures stands { verdict ≡ Accepted → start_in self.now.starts k ≤ length self.now.t.now
            → Shows self.now.t result (start_in self.now.starts k) (length self.now.t.now - start_in self.now.starts k) }
    {
        let start = start_in(&self.starts, k) as usize;
        shown_of(verdict, part(self.t, start, self.t.len()))
    }

    // Its Index; 0 where its reading is refused.
    pub(crate) fn index_shown(&self, verdict: Verdict, k: u16) -> u8
        ensures { result ≡ index_shown self.now.starts self.now.t.now verdict k }
    {
        match verdict {
            Ok(()) => index_in(&self.starts, self.t, k),
            Err(_) => 0,
        }
    }
}

// The ID of slot k's kind.
fn id_of(k: u16) -> u8
    ensures { result ≡ (kind_of k).id }
{
    if k < SLOT_COUNT as u16 {
        return kind_of(k as u8).id;
    }
    Initiator::ID
}

// The structure of the slot that callers call `number`, whatever its kind.
pub fn read_structure(t: &[u8], number: u8) -> StructureReading
    ensures { result ≡ structure_of t.now number }
{
    let slots = Slots::of(t);
    let k = slot_at(&slots.starts, number);
    match slots.slot_verdict(number, k) {
        Ok(()) => {
            let start = start_in(&slots.starts, k);
            StructureReading {
                refusal: ACCEPTED,
                id: id_of(k),
                index: index_in(&slots.starts, t, k),
                start,
                flags: byte_at(t, start as usize + FLAGS_AT as usize),
            }
        }
        Err(refusal) => StructureReading {
            refusal,
            id: 0,
            index: 0,
            start: 0,
            flags: 0,
        },
    }
}

// The table from the structure on of the slot that callers call `number`, shown and not copied: its bytes are what a reader of
// that structure is lent. No bytes where its reading is refused.
pub fn structure_view(t: &[u8], number: u8) -> &[u8]
    ensures { StructureView t.entry number result }
{
    let slots = Slots::of(t);
    let k = slot_at(&slots.starts, number);
    slots.structure_part(slots.slot_verdict(number, k), k)
}
