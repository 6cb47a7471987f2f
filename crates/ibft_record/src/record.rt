// What the record range says of each entry, how much of it there is to look at, and how callers number slots and entries. Every
// read is total, so what is given is settled for any bytes; the refusals say which ranges are good.
ghost use Rattle.std.specs.Prelude.{◌≡◌, ◌+◌, ◌≤◌, ◌<◌, min};
ghost use Rattle.ibft_layout.specs.Layout.{named_entries, slot_count, entry_count, extra_most, most_words, closed, owner_of, string_of, slot_number, entry_number};
ghost use Rattle.ibft_build_rules.specs.RecordRange.{nics_given, targets_given, image_at, index_given, entry_given, length_given, start_given};
ghost use Rattle.ibft_record.specs.Limits.{slot_limit, entry_limit, extras_given};

use ibft_build_rules::range::{image_at, mark_at, nics_given, structure_given, targets_given};
use ibft_layout::layout::{
    EXTRA_MOST, EXTRA_NICS, EXTRA_TARGETS, NAMED_COUNT, NAMED_ENTRIES, first_entry, index_of,
    owner_of, string_of,
};
use ibft_layout::shape::INDEX_AT;
use octets::read::{byte_at, u16_at};

// The Index of slot k's structure; 0 where an extra is absent.
pub fn index_given(range: &[u8], k: u8) -> u8
    ensures { result ≡ index_given range.now k }
{
    if k < NAMED_COUNT {
        return index_of(k);
    }
    if structure_given(range, k) {
        return byte_at(range, image_at(range, k) as usize + INDEX_AT as usize);
    }
    0
}

// Is entry n present: is it marked, and its structure present?
pub fn entry_given(range: &[u8], n: u8) -> bool
    ensures { result ≡ entry_given range.now n }
{
    if structure_given(range, owner_of(n as u16)) {
        return byte_at(range, mark_at(range, n) as usize) == 1;
    }
    false
}

// Where the range holds entry n's length; its start in the strings range stands 2 further.
pub fn field_at(range: &[u8], n: u8) -> u32
    ensures { result ≡ image_at range.now (owner_of n) + (string_of n).at }
{
    let at = string_of(n as u16).at;
    image_at(range, owner_of(n as u16)) as u32 + at as u32
}

// Entry n's length.
pub fn entry_length(range: &[u8], n: u8) -> u16
    ensures { result ≡ length_given range.now n }
{
    u16_at(range, field_at(range, n) as usize)
}

// Entry n's start in the strings range.
pub(crate) fn entry_start(range: &[u8], n: u8) -> u16
    ensures { result ≡ start_given range.now n }
{
    u16_at(range, field_at(range, n) as usize + 2)
}

fn at_most_six(n: u8) -> u8
    ensures { (result ≡ min extra_most n) × (result ≤ extra_most) }
{
    if EXTRA_MOST < n { EXTRA_MOST } else { n }
}

// How many slots of extra NICs are in use. (A seventh is refused.)
pub fn extra_nics(range: &[u8]) -> u8
    ensures { (result ≡ min extra_most (nics_given range.now)) × (result ≤ extra_most) }
{
    at_most_six(nics_given(range))
}

// How many slots of extra targets.
pub fn extra_targets(range: &[u8]) -> u8
    ensures { (result ≡ min extra_most (targets_given range.now)) × (result ≤ extra_most) }
{
    at_most_six(targets_given(range))
}

// How many extras there are.
pub fn extras_given(range: &[u8]) -> u8
    ensures { (result ≡ extras_given range.now) × (result ≤ most_words) }
{
    extra_nics(range) + extra_targets(range)
}

// How many slots there are to look at: those behind are of extras that are not given.
pub(crate) fn slot_limit(range: &[u8]) -> u8
    ensures { (result ≡ slot_limit range.now) × (result ≤ slot_count) }
{
    if targets_given(range) == 0 {
        return EXTRA_NICS + extra_nics(range);
    }
    EXTRA_TARGETS + extra_targets(range)
}

// How many entries.
pub fn entry_limit(range: &[u8]) -> u8
    ensures { (result ≡ entry_limit range.now) × (result ≤ entry_count) }
{
    first_entry(slot_limit(range)) as u8
}

// The number that callers use for k, where `nics` of the six extra NICs are in use and the first of them has the number
// `first`.
fn closed(first: u8, nics: u8, k: u8) -> u8
    ensures { result ≡ closed first nics k }
{
    if (k as u16) < first as u16 + EXTRA_MOST as u16 {
        return k;
    }
    if EXTRA_MOST <= nics {
        return k;
    }
    k - (EXTRA_MOST - nics)
}

// The number that callers use for slot k.
pub(crate) fn slot_number(range: &[u8], k: u8) -> u8
    ensures { result ≡ slot_number (nics_given range.now) k }
{
    closed(EXTRA_NICS, nics_given(range), k)
}

// The number that callers use for entry n.
pub(crate) fn entry_number(range: &[u8], n: u8) -> u8
    ensures { result ≡ entry_number (nics_given range.now) n }
{
    closed(NAMED_ENTRIES, nics_given(range), n)
}
