// The record range: where its fields, marks and images stand, and which structures it gives. Every read is total, so what is
// given is settled for any bytes; the refusals say which ranges are good.
ghost use Rattle.std.specs.Prelude.{◌≡◌, ◌≤◌, ◌<◌};
ghost use Rattle.ibft_layout.specs.Layout.{named_count};
ghost use Rattle.ibft_build_rules.specs.RecordRange.{nics_given, targets_given, nic_image, target_image, range_size, named_image, image_at};
ghost use Rattle.ibft_build_rules.specs.RecordRange.{mark_at, structure_given, base_size};

use ibft_layout::initiator::Initiator;
use ibft_layout::layout::{
    EXTRA_MOST, EXTRA_NICS, EXTRA_TARGETS, NAMED_COUNT, NAMED_ENTRIES, SLOT_COUNT, first_entry,
    kind_of, owner_of,
};
use ibft_layout::nic::Nic;
use ibft_layout::target::Target;
use octets::read::byte_at;

// Where the OEM fields, Control's flags and the presence marks stand, the slots' marks before the entries'.
pub const OEM_AT: u16 = 0;

pub const CONTROL_FLAGS_AT: u16 = 14;

pub const MARKS_AT: u16 = 15;

pub const ENTRY_MARKS_AT: u16 = MARKS_AT + NAMED_COUNT as u16;

// Where the images of the named slots stand, in slot order.
pub const INITIATOR_AT: u16 = ENTRY_MARKS_AT + NAMED_ENTRIES as u16;

pub const NIC_0_AT: u16 = INITIATOR_AT + Initiator::LENGTH;

pub const TARGET_0_AT: u16 = NIC_0_AT + Nic::LENGTH;

pub const NIC_1_AT: u16 = TARGET_0_AT + Target::LENGTH;

pub const TARGET_1_AT: u16 = NIC_1_AT + Nic::LENGTH;

// A range may end here; else the numbers of extra NICs and of extra targets follow, and then the extras.
pub const BASE_SIZE: u16 = TARGET_1_AT + Target::LENGTH;

pub const EXTRAS_AT: u16 = BASE_SIZE + 2;

// What an extra takes: its image, and the marks of its entries.
pub const NIC_SIZE: u16 = Nic::LENGTH + 1;

pub const TARGET_SIZE: u16 = Target::LENGTH + Target::STRINGS;

// The size of the largest range: six extra NICs and six extra targets.
pub const LARGEST_SIZE: u16 = EXTRAS_AT + EXTRA_MOST as u16 * (NIC_SIZE + TARGET_SIZE);

// How many extra NICs the range gives. (A byte past its end reads 0.)
pub fn nics_given(range: &[u8]) -> u8
    ensures { result ≡ nics_given range.now }
{
    byte_at(range, BASE_SIZE as usize)
}

// How many extra targets.
pub fn targets_given(range: &[u8]) -> u8
    ensures { result ≡ targets_given range.now }
{
    byte_at(range, BASE_SIZE as usize + 1)
}

// Where the image of the i-th extra NIC starts.
pub fn nic_image(i: u8) -> u16
    ensures { (result ≡ nic_image i) × (result ≤ 26686) }
{
    EXTRAS_AT + NIC_SIZE * i as u16
}

// Where the image of the i-th extra target starts: behind the extra NICs.
pub fn target_image(range: &[u8], i: u8) -> u16
    ensures { (result ≡ target_image range.now i) × (result ≤ 41731) }
{
    nic_image(nics_given(range)) + TARGET_SIZE * i as u16
}

// The size that its numbers of extras ask for: the last extra target's marks end it.
pub fn range_size(range: &[u8]) -> u16
    ensures { result ≡ range_size range.now }
{
    target_image(range, targets_given(range))
}

// Where a named slot's image starts.
fn named_image(k: u8) -> u16
    requires { k < named_count }
    ensures { (result ≡ named_image k) × (result ≤ 419) }
{
    match k {
        1 => NIC_0_AT,
        2 => TARGET_0_AT,
        3 => NIC_1_AT,
        4 => TARGET_1_AT,
        _ => INITIATOR_AT,
    }
}

// Where slot k's image starts.
pub fn image_at(range: &[u8], k: u8) -> u16
    ensures { (result ≡ image_at range.now k) × (result ≤ 41731) }
{
    if k < NAMED_COUNT {
        return named_image(k);
    }
    if k < EXTRA_TARGETS {
        return nic_image(k - EXTRA_NICS);
    }
    target_image(range, k - EXTRA_TARGETS)
}

// Is slot k's structure present?
pub fn structure_given(range: &[u8], k: u8) -> bool
    ensures { result ≡ structure_given range.now k }
{
    if k < NAMED_COUNT {
        return byte_at(range, MARKS_AT as usize + k as usize) == 1;
    }
    if k < EXTRA_TARGETS {
        return k - EXTRA_NICS < nics_given(range);
    }
    if k < SLOT_COUNT {
        return k - EXTRA_TARGETS < targets_given(range);
    }
    false
}

// Where entry n's mark stands: an extra's behind its image. (Past the last entry, where it would stand behind an image of no
// slot.)
pub fn mark_at(range: &[u8], n: u8) -> u16
    ensures { result ≡ mark_at range.now n }
{
    if n < NAMED_ENTRIES {
        return ENTRY_MARKS_AT + n as u16;
    }
    let owner = owner_of(n as u16);
    let behind = image_at(range, owner) + kind_of(owner).length;
    behind + (n as u16 - first_entry(owner))
}
