// Readings of an sBFT, of its start and of its parts: the check, then 22 for an IB part that is absent.
ghost use Rattle.std.specs.Prelude.{◌≡◌, drop};
ghost use Rattle.table_header.specs.Verdict.{shown};
ghost use Rattle.sbft.specs.Layout.{offset_of};
ghost use Rattle.sbft.specs.Readings.{start_of, part_verdict, scsi_of, srp_of, ib_of};
ghost use Rattle.sbft.specs.Promises.{PartView};

use crate::check::check;
use crate::fields::{Ib, Scsi, Srp, Start};
use crate::layout::{Part, absent, offset_of, part_of};
use octets::read::part;
use table_header::verdict::{Refusal, Verdict, refusal_of, refuse, shown_of};

// (Fields beside a refusal, here and below, and no Result: the promises and the exports for C give a refused reading with every
// field 0.)
#[derive(Clone, Copy)]
pub struct StartReading {
    pub refusal: Refusal,
    pub fields: Start,
}

#[derive(Clone, Copy)]
pub struct ScsiReading {
    pub refusal: Refusal,
    pub fields: Scsi,
}

#[derive(Clone, Copy)]
pub struct SrpReading {
    pub refusal: Refusal,
    pub fields: Srp,
}

#[derive(Clone, Copy)]
pub struct IbReading {
    pub refusal: Refusal,
    pub fields: Ib,
}

// The verdict of a reading of part k: the check's, then 22 where the part is absent.
fn part_verdict(t: &[u8], k: u8) -> Verdict
    ensures { result ≡ part_verdict t.now k }
{
    check(t)?;
    if absent(t, k) {
        return refuse(22, 0);
    }
    Ok(())
}

// The table from part k on, as far as this verdict shows it: what the reader of that part is lent.
fn part_in(t: &[u8], verdict: Verdict, k: u8) -> &[u8]
    ensures { result.now ≡ shown verdict (drop (offset_of t.now k) t.now) }
{
    shown_of(verdict, part(t, offset_of(t, k) as usize, t.len()))
}

// The OEM fields.
pub fn read_start(t: &[u8]) -> StartReading
    ensures { result ≡ start_of t.now }
{
    let verdict = check(t);
    StartReading {
        refusal: refusal_of(verdict),
        fields: Start::read(shown_of(verdict, t)),
    }
}

pub fn read_scsi(t: &[u8]) -> ScsiReading
    ensures { result ≡ scsi_of t.now }
{
    let verdict = part_verdict(t, Part::SCSI);
    ScsiReading {
        refusal: refusal_of(verdict),
        fields: Scsi::read(part_in(t, verdict, Part::SCSI)),
    }
}

pub fn read_srp(t: &[u8]) -> SrpReading
    ensures { result ≡ srp_of t.now }
{
    let verdict = part_verdict(t, Part::SRP);
    SrpReading {
        refusal: refusal_of(verdict),
        fields: Srp::read(part_in(t, verdict, Part::SRP)),
    }
}

pub fn read_ib(t: &[u8]) -> IbReading
    ensures { result ≡ ib_of t.now }
{
    let verdict = part_verdict(t, Part::IB);
    IbReading {
        refusal: refusal_of(verdict),
        fields: Ib::read(part_in(t, verdict, Part::IB)),
    }
}

// Part k, shown as that stretch of the table and not copied; no bytes where its reading is refused, and none where no part has
// that number.
pub fn part_view(t: &[u8], k: u8) -> &[u8]
    ensures { PartView t.entry k result }
{
    if Part::COUNT <= k {
        return &t[..0];
    }
    let verdict = part_verdict(t, k);
    shown_of(
        verdict,
        part(t, offset_of(t, k) as usize, part_of(k).size as usize),
    )
}
