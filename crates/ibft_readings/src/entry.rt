// An entry by its number.
ghost use Rattle.std.specs.Prelude.{◌≡◌};
ghost use Rattle.ibft_readings.specs.Readings.{entry_verdict, entry_of};
ghost use Rattle.ibft_readings.specs.Promises.{EntryView};

use crate::reading::verdict_of;
use crate::slots::Slots;
use ibft_layout::layout::ENTRY_COUNT;
use ibft_table::starts::{entry_at, holds_entry, string_words_at};
use octets::read::{part, u16_at};
use table_header::verdict::{ACCEPTED, Refusal, Verdict};

// (Fields beside a refusal, here and in the other readings, and no Result: the promises of specs/ and the exports for C give a
// refused reading with every field 0.)
#[derive(Clone, Copy)]
pub struct EntryReading {
    pub refusal: Refusal,
    pub offset: u16,
    pub length: u16,
}

impl<'a> Slots<'a> {
    // The verdict of a reading of entry n, asked for by this number.
    fn entry_verdict(&self, number: u8, n: u16) -> Verdict
        ensures { result ≡ entry_verdict self.now.starts self.now.t.now number n }
    {
        verdict_of(
            self.t,
            ENTRY_COUNT <= number,
            !holds_entry(&self.starts, self.t, n),
        )
    }
}

// Where the entry that callers call `number` stands in the table.
pub fn read_entry(t: &[u8], number: u8) -> EntryReading
    ensures { result ≡ entry_of t.now number }
{
    let slots = Slots::of(t);
    let n = entry_at(&slots.starts, number);
    match slots.entry_verdict(number, n) {
        Ok(()) => {
            let field = string_words_at(&slots.starts, n) as usize;
            EntryReading {
                refusal: ACCEPTED,
                offset: u16_at(t, field + 2),
                length: u16_at(t, field),
            }
        }
        Err(refusal) => EntryReading {
            refusal,
            offset: 0,
            length: 0,
        },
    }
}

// The entry that callers call `number`, shown as that stretch of the table and not copied; no bytes where its reading is
// refused.
pub fn entry_view(t: &[u8], number: u8) -> &[u8]
    ensures { EntryView t.entry number result }
{
    let entry = read_entry(t, number);
    if entry.refusal.number != 0 {
        return &t[..0];
    }
    part(t, entry.offset as usize, entry.length as usize)
}
