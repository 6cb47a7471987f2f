// The check of the entries: refusals 15 to 18, entry by entry; and where the heap starts.
ghost use Rattle.std.specs.Prelude.{◌≡◌, [], ◌∷◌, cond, not, ◌&&◌, ℕ, ◌≤◌, ◌<◌, length, ltb, eqb};
ghost use Rattle.octets.specs.Counting.{gather};
ghost use Rattle.octets.specs.Octets.{part};
ghost use Rattle.hostname.specs.Hostname.{is_host_name};
ghost use Rattle.ibft_layout.specs.Layout.{slot_count, named_count, entry_count, owner_of};
ghost use Rattle.table_header.specs.Header.{length_of};
ghost use Rattle.ibft_table.specs.Table.{word_count, used_at, end_at, end_below, heap_of, starts_of, start_in};
ghost use Rattle.table_header.specs.Verdict.{refuse, first_of};
ghost use Rattle.ibft_table.specs.Check.{entry_tests};

use crate::measured::Measured;
use crate::seats::starts_of;
use crate::starts::start_in;
use crate::words::{end_at, named_end, start_at};
use hostname::is_host_name;
use ibft_layout::layout::{
    EXTRA_NICS, EXTRA_TARGETS, NAMED_COUNT, NAMED_ENTRIES, SLOT_COUNT, TARGET_ENTRIES, owner_of,
    string_of,
};
use ibft_layout::shape::StringShape;
use ibft_layout::string_words::StringWords;
use ibft_layout::target::Target;
use octets::read::{byte_at, part};
use table_header::verdict::{Verdict, refuse};

// Where named word w's structure ends; 0 where the word is not used.
fn named_end_if_used(t: &[u8], w: u8) -> u32
    requires { w < named_count }
    ensures { result ≡ cond (used_at t.now w) (end_at t.now w) 0 }
{
    if start_at(t, w) == 0 {
        0
    } else {
        named_end(t, w)
    }
}

// Where the last structure of the named words ends, Control where there is none.
fn named_heap(table: Measured) -> u32
    ensures { result ≡ end_below table.entry.t.now named_count }
{
    let mut heap = table.least;
    for w in 0..NAMED_COUNT {
        heap = heap.max(named_end_if_used(table.t, w));
    }
    heap
}

// Where word w's structure ends; 0 where the word is not used.
fn end_if_used(t: &[u8], w: u8) -> u32
    ensures { result ≡ cond (used_at t.now w) (end_at t.now w) 0 }
{
    if start_at(t, w) == 0 { 0 } else { end_at(t, w) }
}

// Where the heap starts: where the last structure ends, Control where there is no other.
fn heap_start(table: Measured) -> u32
    ensures { result ≡ heap_of table.entry.t.now }
{
    let mut heap = named_heap(table);
    for w in NAMED_COUNT..table.words {
        heap = heap.max(end_if_used(table.t, w));
    }
    heap
}

// Length 0 with offset 0: missing. Length 0 with another offset: present and empty.
fn missing(size: u16, offset: u16) -> bool
    ensures { result ≡ eqb size 0 && eqb offset 0 }
{
    size == 0 && offset == 0
}

// The length and, where it is to be a host name, the form of an entry whose length field stands at `field`.
fn check_form(t: &[u8], field: u32, size: u16, offset: u16, string: StringShape) -> Verdict
    ensures { result ≡ first_of (
        refuse 17 field (ltb string.longest size)
        ∷ refuse 18 field (string.host && not (is_host_name (part t.now offset size)))
        ∷ []) }
{
    if string.longest < size {
        return refuse(17, field);
    }
    if !string.host {
        return Ok(());
    }
    if !is_host_name(part(t, offset as usize, size as usize)) {
        return refuse(18, field);
    }
    Ok(())
}

// Where the structure of entry n starts. A named slot's word says so; `starts` has those of the extras.
fn entry_start(starts: &[u16], t: &[u8], n: u8) -> u16
    requires { (k : ℕ) → named_count ≤ k → start_in starts.now k ≡ start_in (starts_of t.now) k }
    ensures { result ≡ start_in (starts_of t.now) (owner_of n) }
{
    let owner = owner_of(n as u16);
    if owner < NAMED_COUNT {
        return start_at(t, owner);
    }
    start_in(starts, owner as u16)
}

// Entry n, where it is present. (A length without an offset is no test of its own: it lies below the heap.)
fn check_entry(table: Measured, starts: &[u16], heap: u32, n: u8) -> Verdict
    requires { ((k : ℕ) → named_count ≤ k → start_in starts.now k ≡ start_in (starts_of table.t.now) k) × (heap ≡ heap_of table.t.now) }
    ensures { result ≡ first_of (entry_tests (starts_of table.entry.t.now) table.entry.t.now n) }
{
    let t = table.t;
    let start = entry_start(starts, t, n);
    if start == 0 {
        return Ok(());
    }
    let string = string_of(n as u16);
    let field = start as u32 + string.at as u32;
    let words = StringWords::read(t, field);
    let size = words.length;
    let offset = words.offset;
    if missing(size, offset) {
        return Ok(());
    }
    let end = offset as u32 + size as u32;
    if (offset as u32) < heap {
        return refuse(15, field);
    }
    if table.length < end {
        return refuse(15, field);
    }
    if table.length == end {
        return refuse(16, field);
    }
    if byte_at(t, end as usize) != 0 {
        return refuse(16, field);
    }
    check_form(t, field, size, offset, string)
}

// The starts of the extras by slot: zeros where there is no extra word. (What they take is spared in a table without extras.)
fn extra_starts(table: Measured) -> [u16; SLOT_COUNT as usize]
    ensures { (length result ≡ slot_count) × ((k : ℕ) → named_count ≤ k → start_in result k ≡ start_in (starts_of table.entry.t.now) k) }
{
    if table.words == NAMED_COUNT {
        return [0; SLOT_COUNT as usize];
    }
    starts_of(table.t)
}

// One past the last slot that is in use, of the extras.
fn slot_limit(starts: &[u16]) -> u8
    requires { length starts.now ≡ slot_count }
    ensures { (named_count ≤ result) × (result ≤ slot_count) × ((k : ℕ) → result ≤ k → start_in starts.now k ≡ 0) }
{
    let mut limit = NAMED_COUNT;
    for k in NAMED_COUNT..SLOT_COUNT {
        if start_in(starts, k as u16) != 0 {
            limit = k + 1;
        }
    }
    limit
}

// How many entries the slots below k have.
fn entries_below(k: u8) -> u8
    requires { (named_count ≤ k) × (k ≤ slot_count) }
    ensures { (result ≤ entry_count) × ((n : ℕ) → result ≤ n → k ≤ owner_of n) }
{
    if k <= EXTRA_TARGETS {
        return NAMED_ENTRIES + (k - EXTRA_NICS);
    }
    TARGET_ENTRIES + Target::STRINGS as u8 * (k - EXTRA_TARGETS)
}

// How many entries there are to check: those up to the last slot that is in use, without extra words those of the named slots.
fn entry_limit(starts: &[u16], words: u8) -> u8
    requires { (length starts.now ≡ slot_count) × (words ≡ named_count → (k : ℕ) → named_count ≤ k → start_in starts.now k ≡ 0) }
    ensures { (result ≤ entry_count) × ((n : ℕ) → result ≤ n → (named_count ≤ owner_of n) × (start_in starts.now (owner_of n) ≡ 0)) }
{
    if words == NAMED_COUNT {
        return NAMED_ENTRIES;
    }
    entries_below(slot_limit(starts))
}

// Entry by entry. (One loop, for the named slots and the extras: LLVM then keeps the tests of an
// entry inside it. With two loops they would be a call for each entry, and a table without extras would take a quarter longer
// at the least.)
pub(crate) fn check_entries(table: Measured) -> Verdict
    ensures { result ≡ first_of (gather (entry_tests (starts_of table.entry.t.now) table.entry.t.now) 0 entry_count) }
{
    let heap = heap_start(table);
    let starts = extra_starts(table);
    let limit = entry_limit(&starts, table.words);
    for n in 0..limit {
        check_entry(table, &starts, heap, n)?;
    }
    Ok(())
}
