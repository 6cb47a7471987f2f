// The check of the structures that Control's words point to: refusals 12, 13, 33, 34, 10 and 19, word by word.
ghost use Rattle.std.specs.Prelude.{◌≡◌, ◌||◌, ◌+◌, ◌-◌, ◌%◌, ◌≤◌, ◌<◌, ltb};
ghost use Rattle.octets.specs.Counting.{any, count, gather};
ghost use Rattle.octets.specs.Octets.{differs};
ghost use Rattle.ibft_layout.specs.Layout.{named_count, least_index};
ghost use Rattle.table_header.specs.Header.{length_of};
ghost use Rattle.ibft_table.specs.Table.{control_end_of, word_count, start_at, kind_at, index_at, alike};
ghost use Rattle.table_header.specs.Verdict.{first_of};
ghost use Rattle.ibft_table.specs.Check.{alien, twin, extra_tests, flag_tests, word_tests};

use crate::check_control::alien;
use crate::measured::Measured;
use crate::seats::alike;
use crate::words::{end_at, index_at, kind_at, start_at, word_at};
use ibft_layout::layout::{
    CHAP_AT, CHAP_LAST, EXTRA_MOST, LEAST_INDEX, NAMED_COUNT, index_of, kind_of,
};
use ibft_layout::shape::FLAGS_AT;
use octets::read::byte_at;
use table_header::verdict::{Verdict, refuse};

// Structures start at multiples of 8, where Control ends or above.
const ALIGNMENT: u16 = 8;

// What an extra's structure is known by: ID, Version, Length, Index, flags.
const START_SIZE: u16 = 6;

// Does a structure of this size stand at no multiple of 8, below `least`, or end past Length? (Its end may pass 16 bits.)
fn misplaced(length: u32, least: u32, start: u16, size: u16) -> bool
    ensures { result ≡ differs (start % 8) 0 || (ltb start least || ltb length (start + size)) }
{
    if start % ALIGNMENT != 0 {
        return true;
    }
    if (start as u32) < least {
        return true;
    }
    length < start as u32 + size as u32
}

// Named word w, where it is used. (The kind and the Index are constants once LLVM has unrolled the loop below; the flags are
// tested here, as with one function for these and an extra's the check of the largest tables takes a twentieth longer.)
fn check_named(table: Measured, w: u8) -> Verdict
    requires { w < named_count }
    ensures { result ≡ first_of (word_tests table.entry.t.now w) }
{
    let t = table.t;
    let start = start_at(t, w);
    if start == 0 {
        return Ok(());
    }
    let kind = kind_of(w);
    if misplaced(table.length, table.least, start, kind.length) {
        return refuse(12, word_at(w) as u32);
    }
    if alien(t, start, kind, index_of(w)) {
        return refuse(13, start as u32);
    }
    let flags_at = start as u32 + FLAGS_AT as u32;
    if byte_at(t, flags_at as usize) & kind.reserved != 0 {
        return refuse(10, flags_at);
    }
    if !kind.chap {
        return Ok(());
    }
    let chap_at = start as u32 + CHAP_AT as u32;
    if CHAP_LAST < byte_at(t, chap_at as usize) {
        return refuse(19, chap_at);
    }
    Ok(())
}

fn check_named_words(table: Measured) -> Verdict
    ensures { result ≡ first_of (gather (word_tests table.entry.t.now) 0 named_count) }
{
    for w in 0..NAMED_COUNT {
        check_named(table, w)?;
    }
    Ok(())
}

// Does another ID, version or length stand there than an extra has, or an Index that only a named structure has?
fn no_extra(t: &[u8], w: u8) -> bool
    ensures { result ≡ alien t.now (start_at t.now w) (kind_at t.now w)
        (index_at t.now w) || ltb (index_at t.now w) least_index }
{
    let index = index_at(t, w);
    if alien(t, start_at(t, w), kind_at(t, w), index) {
        return true;
    }
    index < LEAST_INDEX
}

// Is v an extra word of word w's kind and Index?
fn twin(t: &[u8], w: u8, v: u8) -> bool
    ensures { result ≡ twin t.now w v }
{
    if !alike(t, w, v) {
        return false;
    }
    index_at(t, v) == index_at(t, w)
}

// Is an earlier word one? (A named word is none.)
fn has_twin(t: &[u8], w: u8) -> bool
    ensures { result ≡ any w (twin t.now w) }
{
    for v in NAMED_COUNT..w {
        if twin(t, w, v) {
            return true;
        }
    }
    false
}

// How many earlier extra words there are of word w's kind.
fn count_alike(t: &[u8], w: u8) -> u8
    requires { named_count ≤ w }
    ensures { result ≡ count w (alike t.now w) }
{
    let mut n = 0;
    for v in NAMED_COUNT..w {
        n += u8::from(alike(t, w, v));
    }
    n
}

// What the structure of extra word w starts with, and that it is one more extra.
fn check_start(table: Measured, w: u8) -> Verdict
    requires { named_count ≤ w }
    ensures { result ≡ first_of (extra_tests table.entry.t.now w) }
{
    let t = table.t;
    let at = word_at(w) as u32;
    let start = start_at(t, w);
    if misplaced(table.length, table.least, start, START_SIZE) {
        return refuse(12, at);
    }
    if no_extra(t, w) {
        return refuse(13, start as u32);
    }
    if table.length < end_at(t, w) {
        return refuse(12, at);
    }
    if has_twin(t, w) {
        return refuse(33, at);
    }
    if EXTRA_MOST <= count_alike(t, w) {
        return refuse(34, at);
    }
    Ok(())
}

// Its flags and its CHAP type.
fn check_flags(t: &[u8], w: u8) -> Verdict
    ensures { result ≡ first_of (flag_tests t.now w) }
{
    let start = start_at(t, w);
    let kind = kind_at(t, w);
    let flags_at = start as u32 + FLAGS_AT as u32;
    if byte_at(t, flags_at as usize) & kind.reserved != 0 {
        return refuse(10, flags_at);
    }
    if !kind.chap {
        return Ok(());
    }
    let chap_at = start as u32 + CHAP_AT as u32;
    if CHAP_LAST < byte_at(t, chap_at as usize) {
        return refuse(19, chap_at);
    }
    Ok(())
}

// Extra word w, where it is used.
fn check_extra(table: Measured, w: u8) -> Verdict
    requires { named_count ≤ w }
    ensures { result ≡ first_of (word_tests table.entry.t.now w) }
{
    if start_at(table.t, w) == 0 {
        return Ok(());
    }
    check_start(table, w)?;
    check_flags(table.t, w)
}

fn check_extra_words(table: Measured) -> Verdict
    ensures { result ≡ first_of (gather (word_tests table.entry.t.now) named_count (word_count table.entry.t.now - named_count)) }
{
    for w in NAMED_COUNT..table.words {
        check_extra(table, w)?;
    }
    Ok(())
}

// The named words, then the extra ones.
pub(crate) fn check_words(table: Measured) -> Verdict
    ensures { result ≡ first_of (gather (word_tests table.entry.t.now) 0 (word_count table.entry.t.now)) }
{
    check_named_words(table)?;
    check_extra_words(table)
}
