// The reading of the header, as bytes.
ghost use Rattle.std.specs.Prelude.{◌≡◌};
ghost use Rattle.octets.specs.Octets.{write};
ghost use Rattle.ibft_readings.specs.Readings.{header_of};
ghost use Rattle.host_test_exports.specs.Puts.{Puts};
ghost use Rattle.host_test_exports.specs.Packed.{packed_refusal};
ghost use Rattle.host_test_exports.specs.Laid.{laid_header};

use crate::packed::packed_refusal;
use crate::put::{put_eight, put_six};
use ibft_layout::header::Header;
use ibft_readings::header::read_header;
use octets::write::put_byte;

// Writes the OEM fields and Control's flags.
fn put_header(out: &mut [u8], h: Header)
    ensures { Puts out.old out.new 0 15 (laid_header h) }
{
    let oem_id = h.oem_id;
    let oem_table_id = h.oem_table_id;
    put_six(out, 0, oem_id);
    put_eight(out, 6, oem_table_id);
    put_byte(out, 14, h.flags);
}

#[unsafe(no_mangle)]
pub extern "C" fn test_header(t: &[u8], out: &mut [u8]) -> u64
    ensures value { result ≡ packed_refusal (header_of t.now).refusal }
    ensures out_after { out.new ≡ write out.old 0 (laid_header (header_of t.now).header) }
{
    let read = read_header(t);
    put_header(out, read.header);
    packed_refusal(read.refusal)
}
