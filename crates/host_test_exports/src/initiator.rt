// The reading of the initiator, as bytes.
ghost use Rattle.std.specs.Prelude.{◌≡◌};
ghost use Rattle.octets.specs.Octets.{write};
ghost use Rattle.ibft_readings.specs.Readings.{initiator_of};
ghost use Rattle.host_test_exports.specs.Puts.{Puts};
ghost use Rattle.host_test_exports.specs.Packed.{packed_refusal};
ghost use Rattle.host_test_exports.specs.Laid.{laid_initiator};

use crate::packed::packed_refusal;
use crate::put::{put_addresses, put_text};
use ibft_layout::initiator::Initiator;
use ibft_readings::initiator::read_initiator;
use octets::write::put_byte;

// Writes the flags, the four servers and the name's words.
fn put_initiator(out: &mut [u8], i: Initiator)
    ensures { Puts out.old out.new 0 69 (laid_initiator i) }
{
    let isns = i.isns;
    let slp = i.slp;
    let radius = i.radius;
    let second_radius = i.second_radius;
    put_byte(out, 0, i.flags);
    put_addresses(out, 1, isns, slp);
    put_addresses(out, 33, radius, second_radius);
    put_text(out, 65, i.name);
}

#[unsafe(no_mangle)]
pub extern "C" fn test_initiator(t: &[u8], out: &mut [u8]) -> u64
    ensures value { result ≡ packed_refusal (initiator_of t.now).refusal }
    ensures out_after { out.new ≡ write out.old 0 (laid_initiator (initiator_of t.now).fields) }
{
    let read = read_initiator(t);
    put_initiator(out, read.fields);
    packed_refusal(read.refusal)
}
