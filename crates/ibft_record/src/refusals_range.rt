// What a build refuses of the range itself (25) and of the OEM fields (8).
ghost use Rattle.std.specs.Prelude.{◌≡◌, ◌&&◌, ℕ, ◌+◌, ◌≤◌, length};
ghost use Rattle.octets.specs.Counting.{any};
ghost use Rattle.octets.specs.Octets.{differs};
ghost use Rattle.ibft_layout.specs.Layout.{nic, target};
ghost use Rattle.table_header.specs.Verdict.{first_of};
ghost use Rattle.ibft_build_rules.specs.RecordRange.{base_size, range_size, nics_given, targets_given, nic_image, target_image};
ghost use Rattle.ibft_build_rules.specs.Refusals.{bad_mark, range_tests};

use ibft_build_rules::range::{
    BASE_SIZE, MARKS_AT, OEM_AT, nic_image, nics_given, range_size, target_image, targets_given,
};
use ibft_layout::layout::{NAMED_COUNT, NAMED_ENTRIES};
use ibft_layout::nic::Nic;
use ibft_layout::target::Target;
use octets::read::{byte_at, part};
use table_header::header::{OEM_ID_AT, OEM_TABLE_ID_AT, is_padded};
use table_header::verdict::{Verdict, refuse};

// The marks of the named entries follow those of the named slots.
const MARK_COUNT: u8 = NAMED_COUNT + NAMED_ENTRIES;

// The marks behind an extra's image: one of a NIC, five of a target.
const NIC_MARKS: u8 = 1;

const TARGET_MARKS: u8 = 5;

// The OEM Table ID follows the OEMID.
const OEM_ID_SIZE: usize = 6;

const TABLE_ID_AT: usize = OEM_AT as usize + OEM_ID_SIZE;

const TABLE_ID_SIZE: usize = 8;

// Does the range neither end behind the named slots nor have the size that its numbers of extras ask for?
fn has_wrong_size(range: &[u8]) -> bool
    ensures { result ≡ differs (length range.now) base_size && differs (length range.now) (range_size range.now) }
{
    if range.len() == BASE_SIZE as usize {
        return false;
    }
    range.len() != range_size(range) as usize
}

// Is one of the `count` presence marks from `at` on neither 0 nor 1? All of them count, also an entry's whose structure is
// absent.
fn has_bad_mark(range: &[u8], at: u32, count: u8) -> bool
    requires { at ≤ 65535 }
    ensures { result ≡ bad_mark range.now at count }
{
    for i in 0..count {
        if 1 < byte_at(range, at as usize + i as usize) {
            return true;
        }
    }
    false
}

// Is one behind an extra NIC's image?
fn has_bad_nic(range: &[u8]) -> bool
    ensures { result ≡ any (nics_given range.now)
        (λ (i : ℕ). bad_mark range.now (nic_image i + nic.length) (length nic.string_fields)) }
{
    let nics = nics_given(range);
    for i in 0..nics {
        if has_bad_mark(range, nic_image(i) as u32 + Nic::LENGTH as u32, NIC_MARKS) {
            return true;
        }
    }
    false
}

// Is one behind an extra target's image?
fn has_bad_target(range: &[u8]) -> bool
    ensures { result ≡ any (targets_given range.now)
        (λ (i : ℕ). bad_mark range.now (target_image range.now i + target.length)
        (length target.string_fields)) }
{
    let targets = targets_given(range);
    for i in 0..targets {
        if has_bad_mark(
            range,
            target_image(range, i) as u32 + Target::LENGTH as u32,
            TARGET_MARKS,
        ) {
            return true;
        }
    }
    false
}

// The places of 8 are where the table will have the OEM fields.
pub(crate) fn range_verdict(range: &[u8]) -> Verdict
    ensures { result ≡ first_of (range_tests range.now) }
{
    if has_wrong_size(range) {
        return refuse(25, 0);
    }
    if has_bad_mark(range, MARKS_AT as u32, MARK_COUNT) {
        return refuse(25, 0);
    }
    if has_bad_nic(range) {
        return refuse(25, 0);
    }
    if has_bad_target(range) {
        return refuse(25, 0);
    }
    if !is_padded(part(range, OEM_AT as usize, OEM_ID_SIZE)) {
        return refuse(8, OEM_ID_AT);
    }
    if !is_padded(part(range, TABLE_ID_AT, TABLE_ID_SIZE)) {
        return refuse(8, OEM_TABLE_ID_AT);
    }
    Ok(())
}
