// The check that no two structures share a byte: refusal 14, for the earliest later word.
ghost use Rattle.std.specs.Prelude.{◌≡◌, ◌&&◌, ℕ, ◌-◌, ◌≤◌, ◌<◌, ltb};
ghost use Rattle.octets.specs.Counting.{any, gather};
ghost use Rattle.octets.specs.Octets.{differs};
ghost use Rattle.ibft_layout.specs.Layout.{named_count, word_at};
ghost use Rattle.ibft_table.specs.Table.{word_count, start_at, used_at, end_at};
ghost use Rattle.table_header.specs.Verdict.{refusal, first_of, Refused};
ghost use Rattle.ibft_table.specs.Check.{overlap, overlap_tests};

use crate::measured::Measured;
use crate::words::{end_at, named_end, start_at, word_at};
use ibft_layout::layout::NAMED_COUNT;
use table_header::verdict::{Verdict, refuse};

// The refusal of the later one of two words whose structures share a byte.
fn refuse_overlap(w: u8) -> Verdict
    ensures { result ≡ Refused (refusal 14 (word_at w)) }
{
    refuse(14, word_at(w) as u32)
}

// Does the structure from `other` up to `other_end` share a byte with those from `start` up to `end`? (Where the other word is
// not used, `other` is 0.)
fn shares(start: u32, end: u32, other: u32, other_end: u32) -> bool
    ensures { result ≡ differs other 0 && (ltb other end && ltb start other_end) }
{
    if other == 0 {
        return false;
    }
    if end <= other {
        return false;
    }
    start < other_end
}

// Does the structure of one of the named words below w share a byte with those from `start` up to `end`?
fn shares_named(t: &[u8], start: u32, end: u32, w: u8) -> bool
    requires { w ≤ named_count }
    ensures { result ≡ any w (λ (v : ℕ). used_at t.now v && (ltb (start_at t.now v) end && ltb start (end_at t.now v))) }
{
    for v in 0..w {
        if shares(start, end, start_at(t, v) as u32, named_end(t, v)) {
            return true;
        }
    }
    false
}

// Does named word w's structure share a byte with an earlier word's?
fn named_overlaps(t: &[u8], w: u8) -> bool
    requires { w < named_count }
    ensures { result ≡ any w (overlap t.now w) }
{
    let start = start_at(t, w) as u32;
    if start == 0 {
        return false;
    }
    shares_named(t, start, named_end(t, w), w)
}

fn check_named_overlaps(t: &[u8]) -> Verdict
    ensures { result ≡ first_of (gather (overlap_tests t.now) 0 named_count) }
{
    for w in 0..NAMED_COUNT {
        if named_overlaps(t, w) {
            return refuse_overlap(w);
        }
    }
    Ok(())
}

// Does extra word w's structure share a byte with an earlier word's?
fn extra_overlaps(t: &[u8], w: u8) -> bool
    requires { named_count ≤ w }
    ensures { result ≡ any w (overlap t.now w) }
{
    let start = start_at(t, w) as u32;
    if start == 0 {
        return false;
    }
    let end = end_at(t, w);
    if shares_named(t, start, end, NAMED_COUNT) {
        return true;
    }
    for v in NAMED_COUNT..w {
        if shares(start, end, start_at(t, v) as u32, end_at(t, v)) {
            return true;
        }
    }
    false
}

fn check_extra_overlaps(table: Measured) -> Verdict
    ensures { result ≡ first_of (gather (overlap_tests table.entry.t.now) named_count (word_count table.entry.t.now - named_count)) }
{
    for w in NAMED_COUNT..table.words {
        if extra_overlaps(table.t, w) {
            return refuse_overlap(w);
        }
    }
    Ok(())
}

// The named words, then the extra ones.
pub(crate) fn check_overlaps(table: Measured) -> Verdict
    ensures { result ≡ first_of (gather (overlap_tests table.entry.t.now) 0 (word_count table.entry.t.now)) }
{
    check_named_overlaps(table.t)?;
    check_extra_overlaps(table)
}
