// The reading of an aBFT, as bytes.
ghost use Rattle.std.specs.Prelude.{◌≡◌};
ghost use Rattle.octets.specs.Octets.{write};
ghost use Rattle.abft.specs.Abft.{abft_of};
ghost use Rattle.host_test_exports.specs.Puts.{Puts};
ghost use Rattle.host_test_exports.specs.Packed.{packed_refusal};
ghost use Rattle.host_test_exports.specs.Laid.{laid_abft};

use crate::packed::packed_refusal;
use crate::put::{put_eight, put_six};
use abft::fields::Abft;
use abft::reading::read_abft;
use octets::write::{put_byte, put_u16};

// Writes the OEM fields, shelf, slot and MAC.
fn put_abft(out: &mut [u8], a: Abft)
    ensures { Puts out.old out.new 0 23 (laid_abft a) }
{
    let oem_id = a.oem_id;
    let oem_table_id = a.oem_table_id;
    let mac = a.mac;
    put_six(out, 0, oem_id);
    put_eight(out, 6, oem_table_id);
    put_u16(out, 14, a.shelf);
    put_byte(out, 16, a.slot);
    put_six(out, 17, mac);
}

#[unsafe(no_mangle)]
pub extern "C" fn test_abft(t: &[u8], out: &mut [u8]) -> u64
    ensures value { result ≡ packed_refusal (abft_of t.now).refusal }
    ensures out_after { out.new ≡ write out.old 0 (laid_abft (abft_of t.now).fields) }
{
    let read = read_abft(t);
    put_abft(out, read.fields);
    packed_refusal(read.refusal)
}
