// The reading of NIC n.
ghost use Rattle.std.specs.Prelude.{◌≡◌};
ghost use Rattle.ibft_readings.specs.Readings.{nic_in, nic_of};

use crate::slots::Slots;
use ibft_layout::layout::nic_slot;
use ibft_layout::nic::Nic;
use ibft_layout::shape::FLAGS_AT;
use ibft_layout::string_words::StringWords;
use octets::read::{array_at, byte_at, u16_at};
use table_header::verdict::{Refusal, refusal_of};

// The fields of the NIC whose first byte is the part's.
fn nic_in(part: &[u8]) -> Nic
    ensures { result ≡ nic_in part.now }
{
    Nic {
        flags: byte_at(part, FLAGS_AT as usize),
        address: array_at(part, Nic::ADDRESS.at as usize),
        prefix: byte_at(part, Nic::PREFIX.at as usize),
        origin: byte_at(part, Nic::ORIGIN.at as usize),
        gateway: array_at(part, Nic::GATEWAY.at as usize),
        dns: array_at(part, Nic::DNS.at as usize),
        second_dns: array_at(part, Nic::SECOND_DNS.at as usize),
        dhcp: array_at(part, Nic::DHCP.at as usize),
        vlan: u16_at(part, Nic::VLAN.at as usize),
        mac: array_at(part, Nic::MAC.at as usize),
        pci: u16_at(part, Nic::PCI.at as usize),
        host: StringWords::read(part, Nic::HOST.at as u32),
    }
}

#[derive(Clone, Copy)]
pub struct NicReading {
    pub refusal: Refusal,
    pub index: u8,
    pub fields: Nic,
}

// NIC n.
// (The readings of a target and of the initiator differ from it in a public type and in the slot: one generic function is no
// shorter.)
pub fn read_nic(t: &[u8], n: u8) -> NicReading
    ensures { result ≡ nic_of t.now n }
{
    let slot = nic_slot(n);
    let slots = Slots::of(t);
    let verdict = slots.slot_verdict(slot, slot as u16);
    NicReading {
        refusal: refusal_of(verdict),
        index: slots.index_shown(verdict, slot as u16),
        fields: nic_in(slots.structure_part(verdict, slot as u16)),
    }
}
