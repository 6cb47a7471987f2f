// Which entries are stored, and what they take in the heap: a secret always, with its own bytes; any other unless it is a tail
// of one that is no secret. What each entry would take is read off the range once, and lent to the tests: a missing entry wants
// 0, so that one comparison passes over missing and shorter entries alike.
ghost use Rattle.std.specs.Prelude.{◌≡◌, true, false, ℕ, ◌+◌, ◌≤◌, ◌<◌, length, replicate};
ghost use Rattle.octets.specs.Counting.{any};
ghost use Rattle.ibft_layout.specs.Layout.{entry_count, named_entries, may_share, owner_of, string_of};
ghost use Rattle.string_heap.specs.Tails.{is_tail};
ghost use Rattle.string_heap.specs.Stored.{covered_by, stored};
ghost use Rattle.ibft_build_rules.specs.RecordRange.{entry_given, bytes_given, image_at};
ghost use Rattle.ibft_record.specs.Limits.{entry_limit};
ghost use Rattle.ibft_build.specs.Planning.{Short, entry_fields, entries_given, wanted_given, wanted_sizes, size_given, heap_sizes};

use crate::plan::Entries;
use ibft_build_rules::range::{ENTRY_MARKS_AT, MARKS_AT, image_at};
use ibft_layout::layout::{ENTRY_COUNT, NAMED_ENTRIES, may_share, owner_of, string_of};
use ibft_record::record::{entry_given, entry_length, field_at};
use octets::read::{byte_at, u16_at};
use string_heap::tail::is_tail;

// Is entry n, of the named slots, present: is it marked, and its structure present?
fn named_given(range: &[u8], n: u8) -> bool
    requires { n < named_entries }
    ensures { result ≡ entry_given range.now n }
{
    if byte_at(range, MARKS_AT as usize + owner_of(n as u16) as usize) != 1 {
        return false;
    }
    byte_at(range, ENTRY_MARKS_AT as usize + n as usize) == 1
}

// Where the range holds the length of an entry of the named slots. (LLVM makes tables of both parts when the string comes
// first; the other way round it makes jumps.)
fn named_field(range: &[u8], n: u8) -> u16
    requires { n < named_entries }
    ensures { result ≡ image_at range.now (owner_of n) + (string_of n).at }
{
    let at = string_of(n as u16).at;
    image_at(range, owner_of(n as u16)) + at
}

// Where the range holds each entry's length, into a list of zeros; its start stands 2 further. (Those of the named slots have
// fixed places. Lists are filled where they stand: an array that a function answers is copied twice on the stack.)
pub(crate) fn entry_fields(range: &[u8], limit: u8, fields: &mut [u16; ENTRY_COUNT as usize])
    requires { (limit ≡ entry_limit range.now) × (fields.old ≡ replicate entry_count 0) }
    ensures { fields.new ≡ entry_fields range.now }
{
    for n in 0..NAMED_ENTRIES {
        fields[n as usize] = named_field(range, n);
    }
    for n in NAMED_ENTRIES..limit {
        fields[n as usize] = field_at(range, n) as u16;
    }
}

// What entry n, of the named slots, takes in the heap where it is stored, its bytes and one zero; 0 where it is missing.
fn named_size(range: &[u8], n: u8) -> u16
    requires { (n < named_entries) × Short range.now }
    ensures { result ≡ wanted_given range.now n }
{
    if named_given(range, n) {
        return u16_at(range, named_field(range, n) as usize) + 1;
    }
    0
}

// What any entry takes.
fn wanted_size(range: &[u8], n: u8) -> u16
    requires { (n < entry_count) × Short range.now }
    ensures { result ≡ wanted_given range.now n }
{
    if entry_given(range, n) {
        return entry_length(range, n) + 1;
    }
    0
}

// What each entry would take, into a list of zeros; those behind the limit are missing.
pub(crate) fn wanted_sizes(range: &[u8], limit: u8, sizes: &mut [u16; ENTRY_COUNT as usize])
    requires { Short range.now × (limit ≡ entry_limit range.now) × (sizes.old ≡ replicate entry_count 0) }
    ensures { sizes.new ≡ wanted_sizes range.now }
{
    for n in 0..NAMED_ENTRIES {
        sizes[n as usize] = named_size(range, n);
    }
    for n in NAMED_ENTRIES..limit {
        sizes[n as usize] = wanted_size(range, n);
    }
}

// Does the first byte differ from the byte as far from the end of the other entry, which is no shorter? Then it is no tail of
// that, and nothing need be counted: entries that end alike most often begin differently.
fn begins_differently(bytes: &[u8], other: &[u8]) -> bool
    requires { length bytes.now ≤ length other.now }
    ensures { result ≡ true → false ≡ is_tail bytes.now other.now }
{
    if bytes.len() == 0 {
        return false;
    }
    bytes[0] != other[other.len() - bytes.len()]
}

impl<'a> Entries<'a> {
    // The bytes of entry n, which is present.
    pub(crate) fn bytes(&self, n: u8) -> &'a [u8]
        requires { (n < self.now.limit) × (entry_given self.now.range.now n ≡ true) }
        ensures { result.now ≡ bytes_given self.now.range.now self.now.strings.now n }
    {
        let start = u16_at(self.range, self.fields[n as usize] as usize + 2) as usize;
        let size = self.wanted[n as usize] as usize - 1;
        &self.strings[start..start + size]
    }

    // Is it needless, for entry j, to store entry i, whose bytes are lent? They are compared only where entry j is longer, or
    // as long with a lower number, and is no secret.
    fn is_covered_by(&self, i: u8, bytes: &[u8], j: u8) -> bool
        requires { j < self.now.limit }
        ensures { result ≡ covered_by may_share i bytes.now j (entries_given self.now.range.now self.now.strings.now j) }
    {
        let wanted = self.wanted[j as usize] as usize;
        if wanted <= bytes.len() {
            return false;
        }
        if wanted == bytes.len() + 1 {
            if i <= j {
                return false;
            }
        }
        if !may_share(j as u16) {
            return false;
        }
        let other = self.bytes(j);
        if begins_differently(bytes, other) {
            return false;
        }
        is_tail(bytes, other)
    }

    // Is it for any entry?
    fn is_covered(&self, i: u8, bytes: &[u8]) -> bool
        ensures { result ≡ any entry_count (λ (j : ℕ). covered_by may_share i bytes.now j
            (entries_given self.now.range.now self.now.strings.now j)) }
    {
        for j in 0..self.limit {
            if self.is_covered_by(i, bytes, j) {
                return true;
            }
        }
        false
    }

    // Is entry i stored?
    fn is_stored(&self, i: u8) -> bool
        requires { i < self.now.limit }
        ensures { result ≡ stored entry_count may_share (entries_given self.now.range.now self.now.strings.now) i }
    {
        if self.wanted[i as usize] == 0 {
            return false;
        }
        if !may_share(i as u16) {
            return true;
        }
        !self.is_covered(i, self.bytes(i))
    }

    // What entry i takes in the heap.
    fn heap_size(&self, i: u8) -> u16
        requires { i < self.now.limit }
        ensures { result ≡ size_given self.now.range.now self.now.strings.now i }
    {
        if self.is_stored(i) {
            return self.wanted[i as usize];
        }
        0
    }

    // What each entry takes in the heap, into a list of zeros: 0 of one that is not stored.
    pub(crate) fn heap_sizes(&self, sizes: &mut [u16; ENTRY_COUNT as usize])
        requires { sizes.old ≡ replicate entry_count 0 }
        ensures { sizes.new ≡ heap_sizes self.now.range.now self.now.strings.now }
    {
        for i in 0..self.limit {
            sizes[i as usize] = self.heap_size(i);
        }
    }
}
