// Writers of the structures. A structure's flags and fields are copied from its image; what it starts with and its string words
// are set.
ghost use Rattle.std.specs.Prelude.{◌≡◌, true, ◌++◌, ◌+◌, ◌-◌, ◌≤◌, ◌<◌, length};
ghost use Rattle.octets.specs.Counting.{gather};
ghost use Rattle.octets.specs.Octets.{zeros, write};
ghost use Rattle.string_heap.specs.Starts.{align8};
ghost use Rattle.ibft_layout.specs.Layout.{kind_of, slot_count, named_count, entry_count, first_entry, built_slot, control_end};
ghost use Rattle.ibft_build_rules.specs.RecordRange.{structure_given, index_given};
ghost use Rattle.ibft_build_rules.specs.TableBytes.{start_bytes};
ghost use Rattle.ibft_record.specs.Limits.{extras_given};
ghost use Rattle.ibft_build.specs.Planning.{end_given};
ghost use Rattle.ibft_build.specs.Writing.{words_with, structure_with, stretch_with};

use crate::plan::Plan;
use crate::starts::{EXTRA_NIC_TURN, EXTRA_TARGET_TURN, TARGET_TURN, aligned, built_slot};
use ibft_build_rules::range::{image_at, structure_given};
use ibft_layout::layout::{SLOT_COUNT, first_entry, kind_of, string_of};
use ibft_record::record::{extras_given, index_given};
use octets::read::part;
use octets::write::{put_bytes, put_u16, put_zeros};

// Where the string words of slot k's structure stand.
fn strings_at(k: u8) -> u16
    requires { k < slot_count }
    ensures { result ≡ (kind_of k).strings_at }
{
    string_of(first_entry(k)).at
}

// What slot k's structure starts with, up to its flags.
fn start_bytes(range: &[u8], k: u8) -> [u8; 5]
    ensures { result ≡ start_bytes (kind_of k) (index_given range.now k) }
{
    let index = index_given(range, k);
    kind_of(k).start(index)
}

impl<'a> Plan<'a> {
    // Writes entry n's length, 0 where it is missing, and its offset.
    fn put_entry_words(&self, structure: &mut [u8], at: usize, n: u8)
        requires { (at ≤ 1000) × (n < entry_count) }
        ensures { structure.new ≡ write structure.old at (words_with self.now.entries.wanted.now self.now.offsets.now n) }
    {
        put_u16(
            structure,
            at,
            self.entries.wanted[n as usize].saturating_sub(1),
        );
        put_u16(structure, at + 2, self.offsets[n as usize]);
    }

    // Writes the string words of slot k's structure.
    fn put_words(&self, structure: &mut [u8], at: usize, k: u8)
        requires { (at ≤ 500) × (k < slot_count) }
        ensures { structure.new ≡ write structure.old at
            (gather (words_with self.now.entries.wanted.now self.now.offsets.now) (first_entry k)
            (length (kind_of k).string_fields)) }
    {
        let first = first_entry(k) as u8;
        let end = first_entry(k + 1) as u8;
        for n in first..end {
            self.put_entry_words(structure, at + 4 * (n - first) as usize, n);
        }
    }

    // Writes slot k's structure, which is present, into its own stretch.
    fn put_structure(&self, structure: &mut [u8], k: u8)
        requires { (length structure.old ≡ (kind_of k).length) × (structure_given self.now.entries.range.now k ≡ true)
            × (k < slot_count) }
        ensures { structure.new
            ≡ structure_with self.now.entries.range.now self.now.entries.wanted.now self.now.offsets.now k }
    {
        let range = self.entries.range;
        let start = start_bytes(range, k);
        put_bytes(structure, 0, &start);
        let at = strings_at(k) as usize;
        let body = part(range, image_at(range, k) as usize + 5, at - 5);
        put_bytes(structure, 5, body);
        self.put_words(structure, at, k);
    }

    // Writes the gap behind `end` and slot k's structure, which is present and lent the part of the room where it starts.
    fn put_behind(&self, room: &mut [u8], end: u16, k: u8)
        requires { (end ≤ 2000) × (align8 end + (kind_of k).length ≤ length room.old)
            × (structure_given self.now.entries.range.now k ≡ true) × (k < slot_count) }
        ensures { room.new ≡ write room.old end (zeros (align8 end - end)
            ++ structure_with self.now.entries.range.now self.now.entries.wanted.now self.now.offsets.now k) }
    {
        let start = aligned(end) as usize;
        let behind = start + kind_of(k).length as usize;
        put_zeros(room, end as usize, start - end as usize);
        self.put_structure(&mut room[start..behind], k);
    }

    // Writes the gap and the structure that are j-th in the build's order, nothing where it is absent. (Inlined at the turn of
    // a named slot, its kind and its places are constants.)
    #[inline]
    fn put_stretch(&self, room: &mut [u8], j: u8)
        requires { (j < slot_count) × (end_given self.now.entries.range.now (j + 1) ≤ length room.old) }
        ensures { room.new ≡ write room.old (end_given self.now.entries.range.now j)
            (stretch_with self.now.entries.range.now self.now.ends.now self.now.entries.wanted.now self.now.offsets.now j) }
    {
        let k = built_slot(j);
        if structure_given(self.entries.range, k) {
            self.put_behind(room, self.ends[j as usize], k);
        }
    }

    // The same for the turn of an extra. (Without extras there is nothing to look at.)
    fn put_extra_stretch(&self, room: &mut [u8], j: u8)
        requires { (j < slot_count) × (named_count ≤ built_slot j)
            × (end_given self.now.entries.range.now (j + 1) ≤ length room.old) }
        ensures { room.new ≡ write room.old (end_given self.now.entries.range.now j)
            (stretch_with self.now.entries.range.now self.now.ends.now self.now.entries.wanted.now self.now.offsets.now j) }
    {
        if extras_given(self.entries.range) != 0 {
            self.put_stretch(room, j);
        }
    }

    // Writes all structures, from Control's end on. (The turns of named slots have loops of their own, so that LLVM unrolls
    // them.)
    pub(crate) fn put_structures(&self, room: &mut [u8])
        requires { end_given self.now.entries.range.now slot_count ≤ length room.old }
        ensures { room.new ≡ write room.old (control_end (extras_given self.now.entries.range.now))
            (gather (stretch_with self.now.entries.range.now self.now.ends.now self.now.entries.wanted.now self.now.offsets.now)
            0 slot_count) }
    {
        for j in 0..EXTRA_NIC_TURN {
            self.put_stretch(room, j);
        }
        for j in EXTRA_NIC_TURN..TARGET_TURN {
            self.put_extra_stretch(room, j);
        }
        for j in TARGET_TURN..EXTRA_TARGET_TURN {
            self.put_stretch(room, j);
        }
        for j in EXTRA_TARGET_TURN..SLOT_COUNT {
            self.put_extra_stretch(room, j);
        }
    }
}
