// The reading of a NIC, as bytes.
ghost use Rattle.std.specs.Prelude.{◌≡◌, [], ◌∷◌, ◌++◌};
ghost use Rattle.octets.specs.Octets.{le16, write};
ghost use Rattle.ibft_readings.specs.Readings.{nic_of};
ghost use Rattle.host_test_exports.specs.Puts.{Puts};
ghost use Rattle.host_test_exports.specs.Packed.{packed_refusal};
ghost use Rattle.host_test_exports.specs.Laid.{laid_text, laid_nic};

use crate::packed::packed_refusal;
use crate::put::{put_address, put_addresses, put_six, put_text};
use ibft_layout::nic::Nic;
use ibft_readings::nic::read_nic;
use octets::write::{put_byte, put_u16};

// Writes the fields before the servers.
fn put_nic_address(out: &mut [u8], n: Nic)
    ensures { Puts out.old out.new 0 19 (n.flags ∷ (n.address ++ (n.prefix ∷ n.origin ∷ []))) }
{
    let address = n.address;
    put_byte(out, 0, n.flags);
    put_address(out, 1, address);
    put_byte(out, 17, n.prefix);
    put_byte(out, 18, n.origin);
}

// Writes the fields behind the servers.
fn put_nic_device(out: &mut [u8], n: Nic)
    ensures { Puts out.old out.new 83 14 (le16 n.vlan ++ (n.mac ++ (le16 n.pci ++ laid_text n.host))) }
{
    let mac = n.mac;
    put_u16(out, 83, n.vlan);
    put_six(out, 85, mac);
    put_u16(out, 91, n.pci);
    put_text(out, 93, n.host);
}

// Writes all fields: its own address, four servers, the device.
fn put_nic(out: &mut [u8], n: Nic)
    ensures { Puts out.old out.new 0 97 (laid_nic n) }
{
    let gateway = n.gateway;
    let dns = n.dns;
    let second_dns = n.second_dns;
    let dhcp = n.dhcp;
    put_nic_address(out, n);
    put_addresses(out, 19, gateway, dns);
    put_addresses(out, 51, second_dns, dhcp);
    put_nic_device(out, n);
}

#[unsafe(no_mangle)]
pub extern "C" fn test_nic(t: &[u8], which: u8, out: &mut [u8]) -> u64
    ensures value { result ≡ packed_refusal (nic_of t.now which).refusal }
    ensures out_after { out.new ≡ write out.old 0 (laid_nic (nic_of t.now which).fields) }
{
    let read = read_nic(t, which);
    put_nic(out, read.fields);
    packed_refusal(read.refusal)
}

// The Index that the same reading answers.
#[unsafe(no_mangle)]
pub extern "C" fn test_nic_index(t: &[u8], which: u8) -> u8
    ensures { result ≡ (nic_of t.now which).index }
{
    read_nic(t, which).index
}
