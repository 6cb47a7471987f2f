// The header that a table of every family starts with, and its check: refusals 3 to 8.
ghost use Rattle.std.specs.Prelude.{◌≡◌, not, [], ◌∷◌, ◌+◌, take};
ghost use Rattle.octets.specs.Octets.{part};
ghost use Rattle.table_header.specs.Verdict.{refuse, first_of};
ghost use Rattle.table_header.specs.Header.{length_of, padded, header_tests, reserved_tests};

use crate::verdict::{Verdict, refuse, refuse_with};
use octets::read::{all_zero, byte_at, part, u32_at};
use octets::sum::checksum;

// Where the header's fields stand.
pub const LENGTH_AT: u32 = 4;

pub const REVISION_AT: u32 = 8;

pub const CHECKSUM_AT: u32 = 9;

pub const OEM_ID_AT: u32 = 10;

pub const OEM_TABLE_ID_AT: u32 = 16;

// The one Revision that there is.
pub const REVISION: u8 = 1;

// The Length field.
pub fn length_of(t: &[u8]) -> u32
    ensures { result ≡ length_of t.now }
{
    u32_at(t, LENGTH_AT as usize)
}

// Are all bytes zero after the first zero byte? (Two loops, of which `all_zero` is the second: with one loop and a flag the check
// of an aBFT takes a third longer.)
pub fn is_padded(s: &[u8]) -> bool
    ensures { result ≡ padded s.now }
{
    for (i, b) in s.iter().enumerate() {
        if *b == 0 {
            return all_zero(&s[i + 1..]);
        }
    }
    true
}

// The OEM fields, as far as they are lent: refusal 8.
pub(crate) fn check_oem(t: &[u8]) -> Verdict
    ensures { result ≡ first_of (refuse 8 10 (not (padded (part t.now 10 6))) ∷ refuse 8 16 (not (padded (part t.now 16 8))) ∷ []) }
{
    if !is_padded(part(t, OEM_ID_AT as usize, 6)) {
        return refuse(8, OEM_ID_AT);
    }
    if !is_padded(part(t, OEM_TABLE_ID_AT as usize, 8)) {
        return refuse(8, OEM_TABLE_ID_AT);
    }
    Ok(())
}

// The header up to the OEM fields: refusals 3 to 7. The sum is over Length bytes, not over all that are lent; where it is not
// 0, the byte with which it would be is answered.
fn check_start(t: &[u8], signature: u32, least_lent: usize, least_length: u32) -> Verdict
    ensures { result ≡ first_of (take 6 (header_tests signature least_lent least_length t.now)) }
{
    if t.len() < least_lent {
        return refuse(3, 0);
    }
    if u32_at(t, 0) != signature {
        return refuse(4, 0);
    }
    let length = length_of(t);
    if length < least_length {
        return refuse(5, LENGTH_AT);
    }
    if t.len() < length as usize {
        return refuse(5, LENGTH_AT);
    }
    let table = part(t, 0, length as usize);
    let right = checksum(table, CHECKSUM_AT as usize);
    let stands = byte_at(table, CHECKSUM_AT as usize);
    if right != stands {
        return refuse_with(6, CHECKSUM_AT, right);
    }
    if byte_at(t, REVISION_AT as usize) != REVISION {
        return refuse(7, REVISION_AT);
    }
    Ok(())
}

// A family of tables has its signature, and a least number of bytes lent and a least Length. (Two functions: LLVM takes a call
// behind six tests for a rare one, and would leave the OEM fields' loops out of line.)
pub fn check_header(t: &[u8], signature: u32, least_lent: usize, least_length: u32) -> Verdict
    ensures { result ≡ first_of (header_tests signature least_lent least_length t.now) }
{
    check_start(t, signature, least_lent, least_length)?;
    check_oem(t)
}

// Is one of the `count` bytes from `first` on, counted from `start`, not zero? The lowest is refused.
pub fn check_reserved(t: &[u8], start: u16, first: u8, count: u8) -> Verdict
    ensures { result ≡ first_of (reserved_tests t.now (start + first) count) }
{
    let at = start as u32 + first as u32;
    for i in 0..count {
        let place = at + i as u32;
        if byte_at(t, place as usize) != 0 {
            return refuse(30, place);
        }
    }
    Ok(())
}
