// Where entries stand: a stored one behind those stored before it, any other at the tail of its holder, the lowest-numbered
// stored entry that ends with it and is no secret.
ghost use Rattle.std.specs.Prelude.{◌≡◌, true, false, ℕ, ◌+◌, ◌*◌, ◌≤◌, ◌<◌, replicate};
ghost use Rattle.octets.specs.Counting.{sum_to};
ghost use Rattle.string_heap.specs.Stored.{stored};
ghost use Rattle.string_heap.specs.Places.{holder, place};
ghost use Rattle.ibft_layout.specs.Layout.{entry_count, may_share};
ghost use Rattle.ibft_build_rules.specs.RecordRange.{entry_given, bytes_given, content_given};
ghost use Rattle.ibft_build_rules.specs.Plan.{length_built, offset_built};
ghost use Rattle.ibft_build.specs.Planning.{entries_given, size_given, can_hold, entry_offsets};

use crate::plan::Heap;
use ibft_layout::layout::{ENTRY_COUNT, may_share};
use string_heap::tail::is_tail;

impl<'a> Heap<'a> {
    // What the entries below k take.
    fn sum_below(&self, k: u8) -> u32
        requires { k ≤ entry_count }
        ensures { (result ≡ sum_to k (size_given self.now.entries.range.now self.now.entries.strings.now))
            × (result ≤ 65535 * k) }
    {
        let sizes = self.sizes;
        let mut sum: u32 = 0;
        for size in &sizes[..k as usize] {
            sum += *size as u32;
        }
        sum
    }

    // Where the heap ends, and the table with it.
    pub(crate) fn end(&self) -> u32
        ensures { result ≡ length_built (content_given self.now.entries.range.now self.now.entries.strings.now) }
    {
        self.start as u32 + self.sum_below(self.entries.limit)
    }

    // Is entry j stored and no secret, and does it end with the bytes?
    fn is_holder(&self, bytes: &[u8], j: u8) -> bool
        requires { j < self.now.entries.limit }
        ensures { result ≡ can_hold self.now.entries.range.now self.now.entries.strings.now bytes.now j }
    {
        if self.sizes[j as usize] as usize <= bytes.len() {
            return false;
        }
        if !may_share(j as u16) {
            return false;
        }
        is_tail(bytes, self.entries.bytes(j))
    }

    // The holder of entry i, which is present and not stored.
    fn holder_of(&self, i: u8) -> u8
        requires { (i < self.now.entries.limit) × (entry_given self.now.entries.range.now i ≡ true)
            × (stored entry_count may_share (entries_given self.now.entries.range.now self.now.entries.strings.now) i ≡ false) }
        ensures { result ≡ holder entry_count may_share
            (entries_given self.now.entries.range.now self.now.entries.strings.now) i
            (bytes_given self.now.entries.range.now self.now.entries.strings.now i) }
    {
        let bytes = self.entries.bytes(i);
        for j in 0..self.entries.limit {
            if self.is_holder(bytes, j) {
                return j;
            }
        }
        self.entries.limit
    }

    // Where entry i, which is present, stands, counted from the heap's start. (A stored entry is its own holder.)
    fn heap_place(&self, i: u8) -> u32
        requires { (i < self.now.entries.limit) × (entry_given self.now.entries.range.now i ≡ true) }
        ensures { result ≡ place entry_count may_share
            (entries_given self.now.entries.range.now self.now.entries.strings.now) i
            (bytes_given self.now.entries.range.now self.now.entries.strings.now i) }
    {
        if self.sizes[i as usize] != 0 {
            return self.sum_below(i);
        }
        let j = self.holder_of(i);
        let spared = self.sizes[j as usize] - self.entries.wanted[i as usize];
        self.sum_below(j) + spared as u32
    }

    // The offset of entry i; 0 where it is missing.
    fn entry_offset(&self, i: u8) -> u16
        requires { i < self.now.entries.limit }
        ensures { result ≡ offset_built (content_given self.now.entries.range.now self.now.entries.strings.now) i }
    {
        if self.entries.wanted[i as usize] != 0 {
            return self.start + self.heap_place(i) as u16;
        }
        0
    }

    // The offset of each entry, into a list of zeros.
    pub(crate) fn entry_offsets(&self, offsets: &mut [u16; ENTRY_COUNT as usize])
        requires { offsets.old ≡ replicate entry_count 0 }
        ensures { offsets.new ≡ entry_offsets self.now.entries.range.now self.now.entries.strings.now }
    {
        for i in 0..self.entries.limit {
            offsets[i as usize] = self.entry_offset(i);
        }
    }
}
