// The check of an sBFT: refusals 3 to 8 and 30 to 32, the first that applies.
ghost use Rattle.std.specs.Prelude.{◌≡◌, ◌++◌};
ghost use Rattle.octets.specs.Counting.{any, gather};
ghost use Rattle.table_header.specs.Verdict.{first_of};
ghost use Rattle.sbft.specs.Layout.{part_count};
ghost use Rattle.sbft.specs.Check.{outside, outside_tests, overlap, overlap_tests, ib_tests};
ghost use Rattle.sbft.specs.Promises.{Check};

use crate::fields::{Ib, Start};
use crate::layout::{Part, START_END, absent, end_of, offset_of, part_of};
use scan::Family;
use table_header::header::{check_header, check_reserved, length_of};
use table_header::verdict::{Verdict, refuse};

// Does part k stand before the end of the table's start, or end past Length? (An absent part does neither.)
fn outside(t: &[u8], k: u8) -> bool
    ensures { result ≡ outside t.now k }
{
    if absent(t, k) {
        return false;
    }
    if offset_of(t, k) < START_END {
        return true;
    }
    length_of(t) < end_of(t, k)
}

fn check_outside(t: &[u8]) -> Verdict
    ensures { result ≡ first_of (gather (outside_tests t.now) 0 part_count) }
{
    for k in 0..Part::COUNT {
        if outside(t, k) {
            return refuse(31, part_of(k).word as u32);
        }
    }
    Ok(())
}

// Do parts k and i share a byte?
fn overlap(t: &[u8], k: u8, i: u8) -> bool
    ensures { result ≡ overlap t.now k i }
{
    if absent(t, i) {
        return false;
    }
    if absent(t, k) {
        return false;
    }
    if end_of(t, k) <= offset_of(t, i) as u32 {
        return false;
    }
    (offset_of(t, k) as u32) < end_of(t, i)
}

// Does part k share a byte with an earlier one?
fn overlaps_earlier(t: &[u8], k: u8) -> bool
    ensures { result ≡ any k (overlap t.now k) }
{
    for i in 0..k {
        if overlap(t, k, i) {
            return true;
        }
    }
    false
}

fn check_overlaps(t: &[u8]) -> Verdict
    ensures { result ≡ first_of (gather (overlap_tests t.now) 0 part_count) }
{
    for k in 0..Part::COUNT {
        if overlaps_earlier(t, k) {
            return refuse(32, part_of(k).word as u32);
        }
    }
    Ok(())
}

// The reserved bytes of the IB part, where it is present.
fn check_ib(t: &[u8]) -> Verdict
    ensures { result ≡ first_of (ib_tests t.now) }
{
    if absent(t, Part::IB) {
        return Ok(());
    }
    check_reserved(t, offset_of(t, Part::IB), Ib::RESERVED_AT, Ib::RESERVED)
}

// The parts: what is outside comes before any overlap.
fn check_parts(t: &[u8]) -> Verdict
    ensures { result ≡ first_of (gather (outside_tests t.now) 0 part_count
        ++ (gather (overlap_tests t.now) 0 part_count ++ ib_tests t.now)) }
{
    let outside = check_outside(t);
    let overlaps = check_overlaps(t);
    outside?;
    overlaps?;
    check_ib(t)
}

pub fn check(t: &[u8]) -> Verdict
    ensures { Check t.now result }
{
    check_header(
        t,
        Family::SBFT.signature,
        Family::SBFT.least as usize,
        Family::SBFT.least,
    )?;
    check_reserved(t, 0, Start::RESERVED_AT, Start::RESERVED)?;
    check_reserved(t, 0, Start::LAST_RESERVED_AT, Start::LAST_RESERVED)?;
    check_parts(t)
}
