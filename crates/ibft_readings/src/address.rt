// The kind of an address.
ghost use Rattle.std.specs.Prelude.{◌≡◌};
ghost use Rattle.ibft_readings.specs.Readings.{address_kind_of, address_number};

use octets::read::all_zero;

#[derive(Clone, Copy)]
pub enum AddressKind {
    Absent,
    Ipv4Mapped,
    Other,
}

// An address of all zeros is absent; ten zero bytes, FF FF, then four is IPv4-mapped.
pub fn address_kind(a: [u8; 16]) -> AddressKind
    ensures value { result ≡ address_kind_of a }
    ensures numbered { address_number result ≡ address_number (address_kind_of a) }
{
    if all_zero(&a[..]) {
        return AddressKind::Absent;
    }
    if a[10] == 0xFF && a[11] == 0xFF && all_zero(&a[..10]) {
        return AddressKind::Ipv4Mapped;
    }
    AddressKind::Other
}
