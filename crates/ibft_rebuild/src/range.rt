// The record range of a table: what it holds, laid out as a build reads it. A structure's image is the structure as it stands,
// so its string words hold each string's length and its start in the table, which is the range of strings. Each writer answers
// where what it wrote ends.
ghost use Rattle.std.specs.Prelude.{◌≡◌, ℕ, ◌+◌, ◌*◌, ◌≤◌, ◌<◌, length};
ghost use Rattle.octets.specs.Counting.{tabulate, gather};
ghost use Rattle.ibft_layout.specs.Layout.{kind_of, named_count, extra_most, slot_count, entry_count, first_entry};
ghost use Rattle.ibft_table.specs.Table.{present_in};
ghost use Rattle.ibft_build_rules.specs.Rebuild.{mark, marks_in, image_in, extra_in, range_in};
ghost use Rattle.ibft_rebuild.specs.Writing.{Wrote, front};

use ibft_layout::control::Control;
use ibft_layout::layout::{
    EXTRA_MOST, EXTRA_NICS, EXTRA_TARGETS, NAMED_COUNT, NAMED_ENTRIES, kind_of,
};
use ibft_table::starts::{extras_in, holds_entry, start_in};
use octets::read::{byte_at, part};
use octets::write::{put_byte, put_bytes, put_zeros};
use table_header::header::OEM_ID_AT;

// Where the OEM fields stand in a table, and how long they are together; where Control's flags stand.
const OEM_AT: usize = OEM_ID_AT as usize;

const OEM_SIZE: usize = 14;

// How many strings an extra has.
const NIC_STRINGS: u8 = 1;

const TARGET_STRINGS: u8 = 5;

// A presence mark.
fn mark(there: bool) -> u8
    ensures { (result ≡ mark there) × (result ≤ 1) }
{
    there as u8
}

// A table, and the starts of its structures by slot.
#[derive(Clone, Copy)]
pub(crate) struct Source<'a> {
    pub table: &'a [u8],
    pub starts: &'a [u16],
}

impl Source<'_> {
    // Writes the OEM fields and Control's flags.
    fn put_front(&self, range: &mut [u8]) -> usize
        ensures { Wrote range.old 0 (front self.now.table.now) range.new result }
    {
        let oem = part(self.table, OEM_AT, OEM_SIZE);
        put_bytes(range, 0, oem);
        put_byte(
            range,
            oem.len(),
            byte_at(self.table, Control::FLAGS_AT as usize),
        );
        oem.len() + 1
    }

    // Writes the presence marks of the named slots.
    fn put_slot_marks(&self, range: &mut [u8], at: usize) -> usize
        requires { at ≤ 3000 }
        ensures { Wrote range.old at (tabulate (λ (k : ℕ). mark (present_in self.now.starts.now k)) 0 named_count)
            range.new result }
    {
        for k in 0..NAMED_COUNT {
            put_byte(
                range,
                at + k as usize,
                mark(start_in(self.starts, k as u16) != 0),
            );
        }
        at + NAMED_COUNT as usize
    }

    // Writes the presence marks of `count` entries from entry `first` on.
    fn put_entry_marks(&self, range: &mut [u8], at: usize, first: u8, count: u8) -> usize
        requires { (at ≤ 3000) × (first + count ≤ entry_count) }
        ensures { Wrote range.old at (marks_in self.now.starts.now self.now.table.now first count) range.new result }
    {
        for i in 0..count {
            put_byte(
                range,
                at + i as usize,
                mark(holds_entry(self.starts, self.table, (first + i) as u16)),
            );
        }
        at + count as usize
    }

    // Writes slot k's image: zeros where its structure is absent.
    fn put_image(&self, range: &mut [u8], at: usize, k: u8) -> usize
        requires { (at ≤ 3000) × (k < slot_count) }
        ensures { Wrote range.old at (image_in self.now.starts.now self.now.table.now k) range.new result }
    {
        let start = start_in(self.starts, k as u16) as usize;
        let size = kind_of(k).length as usize;
        if start == 0 {
            put_zeros(range, at, size);
            return at + size;
        }
        let image = part(self.table, start, size);
        put_bytes(range, at, image);
        at + image.len()
    }

    // Writes the images of the named slots.
    fn put_images(&self, range: &mut [u8], at: usize) -> usize
        requires { at ≤ 1000 }
        ensures { Wrote range.old at (gather (image_in self.now.starts.now self.now.table.now) 0 named_count) range.new result }
    {
        let mut end = at;
        for k in 0..NAMED_COUNT {
            end = self.put_image(range, end, k);
        }
        end
    }

    // Writes the extra of slot k, where it is present: its image and the marks of its entries, `count` from entry `first` on.
    fn put_extra(&self, range: &mut [u8], at: usize, k: u8, first: u8, count: u8) -> usize
        requires { (at ≤ 2500) × (k < slot_count) × (first ≡ first_entry k) × (count ≡ length (kind_of k).string_fields) }
        ensures { Wrote range.old at (extra_in self.now.starts.now self.now.table.now k) range.new result }
    {
        if start_in(self.starts, k as u16) == 0 {
            return at;
        }
        let behind = self.put_image(range, at, k);
        self.put_entry_marks(range, behind, first, count)
    }

    // Writes the extras of a kind, whose slots start with `slot` and whose entries, `count` for each, with entry `first`.
    fn put_extras(&self, range: &mut [u8], at: usize, slot: u8, first: u8, count: u8) -> usize
        requires { (at ≤ 1700) × (slot + extra_most ≤ slot_count)
            × ((i : ℕ) → i < extra_most → (first + count * i ≡ first_entry (slot + i))
            × (count ≡ length (kind_of (slot + i)).string_fields)) }
        ensures { Wrote range.old at (gather (extra_in self.now.starts.now self.now.table.now) slot extra_most)
            range.new result }
    {
        let mut end = at;
        for i in 0..EXTRA_MOST {
            end = self.put_extra(range, end, slot + i, first + count * i, count);
        }
        end
    }

    // Writes the range, and answers its size.
    pub(crate) fn put_range(&self, range: &mut [u8]) -> usize
        ensures { Wrote range.old 0 (range_in self.now.starts.now self.now.table.now) range.new result }
    {
        let marks = self.put_front(range);
        let entry_marks = self.put_slot_marks(range, marks);
        let images = self.put_entry_marks(range, entry_marks, 0, NAMED_ENTRIES);
        let counts = self.put_images(range, images);
        put_byte(range, counts, extras_in(self.starts, EXTRA_NICS));
        put_byte(range, counts + 1, extras_in(self.starts, EXTRA_TARGETS));
        let targets = self.put_extras(range, counts + 2, EXTRA_NICS, NAMED_ENTRIES, NIC_STRINGS);
        self.put_extras(
            range,
            targets,
            EXTRA_TARGETS,
            NAMED_ENTRIES + EXTRA_MOST,
            TARGET_STRINGS,
        )
    }
}
