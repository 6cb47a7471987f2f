// What a build refuses of flags and CHAP types: Control's reserved flags (10), then reserved flags (10) and the CHAP type (19)
// of the images, slot by slot.
ghost use Rattle.std.specs.Prelude.{◌≡◌};
ghost use Rattle.octets.specs.Counting.{gather};
ghost use Rattle.ibft_layout.specs.Layout.{slot_count};
ghost use Rattle.table_header.specs.Verdict.{first_of};
ghost use Rattle.ibft_build_rules.specs.Refusals.{flags_tests, image_tests};

use crate::record::{slot_limit, slot_number};
use ibft_build_rules::range::{CONTROL_FLAGS_AT, image_at, structure_given};
use ibft_layout::control::Control;
use ibft_layout::layout::{CHAP_AT, CHAP_LAST, kind_of};
use ibft_layout::shape::FLAGS_AT;
use octets::read::byte_at;
use table_header::verdict::{Verdict, refuse};

// The place of a refusal of Control's flags: Control has no slot.
const CONTROL_PLACE: u32 = 255;

// Control's flags.
pub(crate) fn flags_verdict(range: &[u8]) -> Verdict
    ensures { result ≡ first_of (flags_tests range.now) }
{
    if byte_at(range, CONTROL_FLAGS_AT as usize) & Control::RESERVED != 0 {
        return refuse(10, CONTROL_PLACE);
    }
    Ok(())
}

// Slot k, where its structure is present; else what its image holds is no part of the record.
fn image_verdict(range: &[u8], k: u8) -> Verdict
    ensures { result ≡ first_of (image_tests range.now k) }
{
    if !structure_given(range, k) {
        return Ok(());
    }
    let image = image_at(range, k) as usize;
    let kind = kind_of(k);
    if byte_at(range, image + FLAGS_AT as usize) & kind.reserved != 0 {
        return refuse(10, slot_number(range, k) as u32);
    }
    if !kind.chap {
        return Ok(());
    }
    if CHAP_LAST < byte_at(range, image + CHAP_AT as usize) {
        return refuse(19, slot_number(range, k) as u32);
    }
    Ok(())
}

pub(crate) fn images_verdict(range: &[u8]) -> Verdict
    ensures { result ≡ first_of (gather (image_tests range.now) 0 slot_count) }
{
    let limit = slot_limit(range);
    for k in 0..limit {
        image_verdict(range, k)?;
    }
    Ok(())
}
