// The readings of an sBFT, as bytes, and the view of a part.
ghost use Rattle.std.specs.Prelude.{◌≡◌, length};
ghost use Rattle.octets.specs.Octets.{write};
ghost use Rattle.sbft.specs.Readings.{start_of, scsi_of, srp_of, ib_of, part_view_of};
ghost use Rattle.host_test_exports.specs.Puts.{Puts};
ghost use Rattle.host_test_exports.specs.Packed.{packed_refusal};
ghost use Rattle.host_test_exports.specs.Laid.{laid_start, laid_scsi, laid_srp, laid_ib};

use crate::packed::packed_refusal;
use crate::put::{put_addresses, put_eight, put_six};
use octets::write::{put_bytes, put_u16};
use sbft::fields::{Ib, Scsi, Srp, Start};
use sbft::reading::{part_view, read_ib, read_scsi, read_srp, read_start};

// Writes the OEM fields.
fn put_start(out: &mut [u8], s: Start)
    ensures { Puts out.old out.new 0 14 (laid_start s) }
{
    let oem_id = s.oem_id;
    let oem_table_id = s.oem_table_id;
    put_six(out, 0, oem_id);
    put_eight(out, 6, oem_table_id);
}

#[unsafe(no_mangle)]
pub extern "C" fn test_sbft_start(t: &[u8], out: &mut [u8]) -> u64
    ensures value { result ≡ packed_refusal (start_of t.now).refusal }
    ensures out_after { out.new ≡ write out.old 0 (laid_start (start_of t.now).fields) }
{
    let read = read_start(t);
    put_start(out, read.fields);
    packed_refusal(read.refusal)
}

// Writes the LUN.
fn put_scsi(out: &mut [u8], s: Scsi)
    ensures { Puts out.old out.new 0 8 (laid_scsi s) }
{
    let lun = s.lun;
    put_eight(out, 0, lun);
}

#[unsafe(no_mangle)]
pub extern "C" fn test_sbft_scsi(t: &[u8], out: &mut [u8]) -> u64
    ensures value { result ≡ packed_refusal (scsi_of t.now).refusal }
    ensures out_after { out.new ≡ write out.old 0 (laid_scsi (scsi_of t.now).fields) }
{
    let read = read_scsi(t);
    put_scsi(out, read.fields);
    packed_refusal(read.refusal)
}

// Writes the two ports.
fn put_srp(out: &mut [u8], s: Srp)
    ensures { Puts out.old out.new 0 32 (laid_srp s) }
{
    let initiator_port = s.initiator_port;
    let target_port = s.target_port;
    put_addresses(out, 0, initiator_port, target_port);
}

#[unsafe(no_mangle)]
pub extern "C" fn test_sbft_srp(t: &[u8], out: &mut [u8]) -> u64
    ensures value { result ≡ packed_refusal (srp_of t.now).refusal }
    ensures out_after { out.new ≡ write out.old 0 (laid_srp (srp_of t.now).fields) }
{
    let read = read_srp(t);
    put_srp(out, read.fields);
    packed_refusal(read.refusal)
}

// Writes the two GIDs, the service and the partition key.
fn put_ib(out: &mut [u8], i: Ib)
    ensures { Puts out.old out.new 0 42 (laid_ib i) }
{
    let source_gid = i.source_gid;
    let destination_gid = i.destination_gid;
    let service = i.service;
    put_addresses(out, 0, source_gid, destination_gid);
    put_eight(out, 32, service);
    put_u16(out, 40, i.partition_key);
}

#[unsafe(no_mangle)]
pub extern "C" fn test_sbft_ib(t: &[u8], out: &mut [u8]) -> u64
    ensures value { result ≡ packed_refusal (ib_of t.now).refusal }
    ensures out_after { out.new ≡ write out.old 0 (laid_ib (ib_of t.now).fields) }
{
    let read = read_ib(t);
    put_ib(out, read.fields);
    packed_refusal(read.refusal)
}

// Writes the bytes of part k, as far as they fit, and answers how many it has.
#[unsafe(no_mangle)]
pub extern "C" fn test_sbft_part_view(t: &[u8], k: u8, out: &mut [u8]) -> usize
    ensures value { result ≡ length (part_view_of t.now k) }
    ensures written { out.new ≡ write out.old 0 (part_view_of t.now k) }
{
    let view = part_view(t, k);
    put_bytes(out, 0, view);
    view.len()
}
