// The reading of a target, as bytes.
ghost use Rattle.std.specs.Prelude.{◌≡◌, ◌∷◌, ◌++◌};
ghost use Rattle.octets.specs.Octets.{le16, le64, write};
ghost use Rattle.ibft_readings.specs.Readings.{target_of};
ghost use Rattle.host_test_exports.specs.Puts.{Puts};
ghost use Rattle.host_test_exports.specs.Packed.{packed_refusal};
ghost use Rattle.host_test_exports.specs.Laid.{laid_text, laid_target};

use crate::packed::packed_refusal;
use crate::put::{put_address, put_text, put_texts};
use ibft_layout::target::Target;
use ibft_readings::target::read_target;
use octets::write::{put_byte, put_u16, put_u64};

// Writes where the target is.
fn put_target_address(out: &mut [u8], t: Target)
    ensures { Puts out.old out.new 0 27 (t.flags ∷ (t.address ++ (le16 t.socket ++ le64 t.lun))) }
{
    let address = t.address;
    put_byte(out, 0, t.flags);
    put_address(out, 1, address);
    put_u16(out, 17, t.socket);
    put_u64(out, 19, t.lun);
}

// Writes how to log in to it, and its name.
fn put_target_login(out: &mut [u8], t: Target)
    ensures { Puts out.old out.new 27 6 (t.chap_type ∷ t.nic ∷ laid_text t.name) }
{
    put_byte(out, 27, t.chap_type);
    put_byte(out, 28, t.nic);
    put_text(out, 29, t.name);
}

// Writes all fields: behind the name CHAP's two pairs of name and secret.
fn put_target(out: &mut [u8], t: Target)
    ensures { Puts out.old out.new 0 49 (laid_target t) }
{
    put_target_address(out, t);
    put_target_login(out, t);
    put_texts(out, 33, t.chap_name, t.chap_secret);
    put_texts(out, 41, t.reverse_name, t.reverse_secret);
}

#[unsafe(no_mangle)]
pub extern "C" fn test_target(t: &[u8], which: u8, out: &mut [u8]) -> u64
    ensures value { result ≡ packed_refusal (target_of t.now which).refusal }
    ensures out_after { out.new ≡ write out.old 0 (laid_target (target_of t.now which).fields) }
{
    let read = read_target(t, which);
    put_target(out, read.fields);
    packed_refusal(read.refusal)
}

// The Index that the same reading answers.
#[unsafe(no_mangle)]
pub extern "C" fn test_target_index(t: &[u8], which: u8) -> u8
    ensures { result ≡ (target_of t.now which).index }
{
    read_target(t, which).index
}
