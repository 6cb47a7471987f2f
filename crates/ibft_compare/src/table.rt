// A table as it is compared: what stands in it by slot and by entry.
ghost use Rattle.std.specs.Prelude.{◌≡◌, ◌+◌, ◌≤◌};
ghost use Rattle.octets.specs.Octets.{part};
ghost use Rattle.ibft_layout.specs.Layout.{slot_count, extra_most};
ghost use Rattle.ibft_table.specs.Table.{starts_of, start_of, offset_of, size_of, holds_entry};
ghost use Rattle.ibft_compare.specs.Pairs.{slot_with};
ghost use Rattle.ibft_compare.specs.Compare.{entry_stretch};
ghost use Rattle.ibft_compare.specs.Walk.{indices_of};

use crate::difference::{Stretch, no_stretch};
use ibft_layout::layout::{EXTRA_MOST, SLOT_COUNT};
use ibft_table::starts::{holds_entry, index_in, start_in, string_words_at};
use octets::read::{byte_at, part, u16_at};

// A table, the starts of its structures and their Indexes by slot, 0 for an extra that is absent.
#[derive(Clone, Copy)]
pub struct Table<'a> {
    pub bytes: &'a [u8],
    pub starts: &'a [u16],
    pub indices: &'a [u8],
    ghost starts_are: { starts.now ≡ starts_of bytes.now },
    ghost indices_are: { indices.now ≡ indices_of bytes.now },
}

// The Indexes of a table by slot, 0 for an extra that is absent.
pub(crate) fn indices_of(starts: &[u16], t: &[u8]) -> [u8; SLOT_COUNT as usize]
    requires { starts.now ≡ starts_of t.now }
    ensures { result ≡ indices_of t.now }
{
    let mut indices = [0u8; SLOT_COUNT as usize];
    for (k, index) in indices.iter_mut().enumerate() {
        *index = index_in(starts, t, k as u16);
    }
    indices
}

impl<'a> Table<'a> {
    // The start of slot k's structure; 0 where it is absent.
    pub(crate) fn start(&self, k: u8) -> u16
        ensures { result ≡ start_of self.now.bytes.now k }
    {
        start_in(self.starts, k as u16)
    }

    // The slot of the extra of this group and Index; `SLOT_COUNT` where there is none.
    pub(crate) fn slot_with(&self, group: u8, index: u8) -> u8
        requires { group + extra_most ≤ slot_count }
        ensures { result ≡ slot_with self.now.indices.now group index }
    {
        for i in 0..EXTRA_MOST {
            if byte_at(self.indices, (group + i) as usize) == index {
                return group + i;
            }
        }
        SLOT_COUNT
    }

    // Is entry n present?
    pub(crate) fn holds(&self, n: u16) -> bool
        ensures { result ≡ holds_entry self.now.bytes.now n }
    {
        holds_entry(self.starts, self.bytes, n)
    }

    // The bytes of entry n.
    pub(crate) fn entry(&self, n: u16) -> &'a [u8]
        ensures { result.now ≡ part self.now.bytes.now (offset_of self.now.bytes.now n) (size_of self.now.bytes.now n) }
    {
        let words = string_words_at(self.starts, n) as usize;
        let size = u16_at(self.bytes, words) as usize;
        let offset = u16_at(self.bytes, words + 2) as usize;
        part(self.bytes, offset, size)
    }

    // Where entry n stands; nothing where it is missing.
    pub(crate) fn entry_stretch(&self, n: u16) -> Stretch
        ensures { result ≡ entry_stretch (starts_of self.now.bytes.now) self.now.bytes.now n }
    {
        if !self.holds(n) {
            return no_stretch();
        }
        let words = string_words_at(self.starts, n) as usize;
        Stretch {
            start: u16_at(self.bytes, words + 2) as u32,
            length: u16_at(self.bytes, words),
        }
    }
}
