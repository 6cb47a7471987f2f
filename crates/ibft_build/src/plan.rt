// What a build works out before it writes, in three steps, each lent to what comes behind it: the entries as they are read off
// the range, then the heap, then the whole plan. The lists are lent too: they stand on the stack once. What each part is stands
// with it, so that no function asks for it again.
ghost use Rattle.std.specs.Prelude.{◌≡◌, ◌≤◌};
ghost use Rattle.ibft_layout.specs.Layout.{entry_count};
ghost use Rattle.ibft_build_rules.specs.RecordRange.{content_given};
ghost use Rattle.ibft_build_rules.specs.Plan.{heap_start};
ghost use Rattle.ibft_record.specs.Limits.{entry_limit};
ghost use Rattle.ibft_build.specs.Planning.{Readable, entry_fields, wanted_sizes, heap_sizes, Planned};

use ibft_layout::layout::{ENTRY_COUNT, SLOT_COUNT};

// The contents and, of each entry, where the range holds its length and what it would take in the heap, its bytes and one zero.
// Those from the limit on are missing: they are not looked at.
#[derive(Clone, Copy)]
pub(crate) struct Entries<'a> {
    pub(crate) range: &'a [u8],
    pub(crate) strings: &'a [u8],
    pub(crate) limit: u8,
    pub(crate) fields: &'a [u16; ENTRY_COUNT as usize],
    pub(crate) wanted: &'a [u16; ENTRY_COUNT as usize],
    ghost readable: { Readable range.now strings.now },
    ghost limit_is: { limit ≡ entry_limit range.now },
    ghost few: { limit ≤ entry_count },
    ghost fields_are: { fields.now ≡ entry_fields range.now },
    ghost wanted_are: { wanted.now ≡ wanted_sizes range.now },
}

// Where the heap starts, and what each entry takes in it: 0 of one that is not stored.
#[derive(Clone, Copy)]
pub(crate) struct Heap<'a> {
    pub(crate) entries: Entries<'a>,
    pub(crate) start: u16,
    pub(crate) sizes: &'a [u16; ENTRY_COUNT as usize],
    ghost start_is: { start ≡ heap_start (content_given entries.range.now entries.strings.now) },
    ghost sizes_are: { sizes.now ≡ heap_sizes entries.range.now entries.strings.now },
}

// The whole plan: where the structures end, each entry's size in the heap and its offset, and the table's Length.
#[derive(Clone, Copy)]
pub(crate) struct Plan<'a> {
    pub(crate) entries: Entries<'a>,
    pub(crate) ends: &'a [u16; SLOT_COUNT as usize + 1],
    pub(crate) sizes: &'a [u16; ENTRY_COUNT as usize],
    pub(crate) offsets: &'a [u16; ENTRY_COUNT as usize],
    pub(crate) length: u32,
    ghost planned: { Planned entries.range.now entries.strings.now ends.now entries.fields.now entries.wanted.now
        sizes.now offsets.now length },
}
