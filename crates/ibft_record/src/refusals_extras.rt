// What a build refuses of the extras: a seventh of a kind (34), an Index below 2 (13), one that is not above its forerunner's
// (33); first the extra NICs, then the extra targets, each by its slot.
ghost use Rattle.std.specs.Prelude.{◌≡◌, [], ◌∷◌, ◌&&◌, ◌+◌, ◌-◌, leb, ltb};
ghost use Rattle.octets.specs.Counting.{gather};
ghost use Rattle.octets.specs.Octets.{byte};
ghost use Rattle.ibft_layout.specs.Layout.{extra_most, extra_nics, least_index};
ghost use Rattle.table_header.specs.Verdict.{refuse, first_of};
ghost use Rattle.ibft_build_rules.specs.RecordRange.{nics_given, targets_given, nic_image, target_image};
ghost use Rattle.ibft_build_rules.specs.Refusals.{index_tests, extras_tests};

use ibft_build_rules::range::{nic_image, nics_given, target_image, targets_given};
use ibft_layout::layout::{EXTRA_MOST, EXTRA_NICS, LEAST_INDEX};
use ibft_layout::shape::INDEX_AT;
use octets::read::byte_at;
use table_header::verdict::{Verdict, refuse};

// The i-th extra of a kind whose first has the slot number `slot`: its image starts at `at`, that of the one before it at
// `earlier`.
fn index_verdict(range: &[u8], at: u16, earlier: u16, slot: u16, i: u8) -> Verdict
    ensures { result ≡ first_of (
        refuse 34 (slot + i) (leb extra_most i)
        ∷ refuse 13 (slot + i) (ltb (byte range.now (at + 4)) least_index)
        ∷ refuse 33 (slot + i) (ltb 0 i && leb (byte range.now (at + 4)) (byte range.now (earlier + 4)))
        ∷ []) }
{
    let place = slot as u32 + i as u32;
    if EXTRA_MOST <= i {
        return refuse(34, place);
    }
    let index = byte_at(range, at as usize + INDEX_AT as usize);
    if index < LEAST_INDEX {
        return refuse(13, place);
    }
    if i == 0 {
        return Ok(());
    }
    if index <= byte_at(range, earlier as usize + INDEX_AT as usize) {
        return refuse(33, place);
    }
    Ok(())
}

// The i-th extra NIC. (Before the first there is none, and 0 stands for it.)
fn nic_verdict(range: &[u8], i: u8) -> Verdict
    ensures { result ≡ first_of (index_tests range.now nic_image extra_nics i) }
{
    index_verdict(
        range,
        nic_image(i),
        nic_image(i.saturating_sub(1)),
        EXTRA_NICS as u16,
        i,
    )
}

// The i-th extra target: the slots of extra targets follow those of the extra NICs.
fn target_verdict(range: &[u8], i: u8) -> Verdict
    ensures { result ≡ first_of (index_tests range.now (target_image range.now) (extra_nics + nics_given range.now) i) }
{
    index_verdict(
        range,
        target_image(range, i),
        target_image(range, i.saturating_sub(1)),
        EXTRA_NICS as u16 + nics_given(range) as u16,
        i,
    )
}

// The extra NICs.
fn nics_verdict(range: &[u8]) -> Verdict
    ensures { result ≡ first_of (gather (index_tests range.now nic_image extra_nics) 0 (nics_given range.now)) }
{
    let nics = nics_given(range);
    for i in 0..nics {
        nic_verdict(range, i)?;
    }
    Ok(())
}

// The extra targets.
fn targets_verdict(range: &[u8]) -> Verdict
    ensures { result ≡ first_of (gather (index_tests range.now (target_image range.now)
        (extra_nics + nics_given range.now)) 0 (targets_given range.now)) }
{
    let targets = targets_given(range);
    for i in 0..targets {
        target_verdict(range, i)?;
    }
    Ok(())
}

pub(crate) fn extras_verdict(range: &[u8]) -> Verdict
    ensures { result ≡ first_of (extras_tests range.now) }
{
    nics_verdict(range)?;
    targets_verdict(range)
}
