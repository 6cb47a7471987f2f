// The heap's writer: stored entries by number, each with one zero.
ghost use Rattle.std.specs.Prelude.{◌≡◌, ◌≤◌, ◌<◌, length};
ghost use Rattle.octets.specs.Octets.{write};
ghost use Rattle.string_heap.specs.Stored.{stored, heap_size};
ghost use Rattle.string_heap.specs.Places.{bytes_of, heap_to};
ghost use Rattle.ibft_layout.specs.Layout.{entry_count, may_share};
ghost use Rattle.ibft_build.specs.Planning.{entries_given};

use crate::plan::Plan;
use octets::write::{put_byte, put_bytes};

impl<'a> Plan<'a> {
    // Writes entry n with its zero, where it is stored.
    fn put_entry(&self, heap: &mut [u8], at: usize, n: u8)
        requires { (at ≤ 4000000) × (n < self.now.entries.limit) }
        ensures { heap.new ≡ write heap.old at
            (bytes_of (entries_given self.now.entries.range.now self.now.entries.strings.now n)
            (stored entry_count may_share (entries_given self.now.entries.range.now self.now.entries.strings.now) n)) }
    {
        let size = self.sizes[n as usize] as usize;
        if size != 0 {
            put_bytes(heap, at, self.entries.bytes(n));
            put_byte(heap, at + (size - 1), 0);
        }
    }

    // Writes the heap into its own stretch.
    pub(crate) fn put_heap(&self, heap: &mut [u8])
        requires { length heap.old
            ≡ heap_size entry_count may_share (entries_given self.now.entries.range.now self.now.entries.strings.now) }
        ensures { heap.new
            ≡ heap_to entry_count may_share (entries_given self.now.entries.range.now self.now.entries.strings.now) entry_count }
    {
        let mut at: usize = 0;
        for n in 0..self.entries.limit {
            self.put_entry(heap, at, n);
            at += self.sizes[n as usize] as usize;
        }
    }
}
