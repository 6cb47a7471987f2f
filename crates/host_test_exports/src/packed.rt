// The readings that fit one number, and the refusals of all of them. specs/Packed.antt says which bits hold what.
ghost use Rattle.std.specs.Prelude.{◌≡◌, ◌<◌, ◌^◌};
ghost use Rattle.octets.specs.Octets.{word64, bytes_at};
ghost use Rattle.ibft_readings.specs.Readings.{structure_of, entry_of, address_kind_of, address_number, pci_of};
ghost use Rattle.ibft_readings.specs.Login.{login_order_of};
ghost use Rattle.host_test_exports.specs.Packed.{packed_place, packed_refusal, packed_side, packed_structure, packed_order, packed_entry_place, packed_pci};

use ibft_readings::address::{AddressKind, address_kind};
use ibft_readings::entry::read_entry;
use ibft_readings::login::login_order;
use ibft_readings::pci::split_pci;
use ibft_readings::structure::read_structure;
use octets::read::{array_at, byte_at, u64_at};
use table_header::verdict::Refusal;

// Number and place of a refusal.
fn packed_place(refusal: Refusal) -> u64
    ensures { (result ≡ packed_place refusal) × (result < 2 ^ 32) }
{
    refusal.number as u64 + 256 * (refusal.place as u64 % 16777216)
}

// Number, place and checksum byte of a refusal.
pub(crate) fn packed_refusal(refusal: Refusal) -> u64
    ensures { result ≡ packed_refusal refusal }
{
    packed_place(refusal) + 4294967296 * refusal.checksum as u64
}

// The same of a refusal of one of two tables, and whose it is.
pub(crate) fn packed_side(refusal: Refusal, side: u8) -> u64
    ensures { (result ≡ packed_side refusal side) × (result < 2 ^ 48) }
{
    packed_place(refusal) + 4294967296 * refusal.checksum as u64 + 1099511627776 * side as u64
}

#[unsafe(no_mangle)]
pub extern "C" fn test_structure(t: &[u8], slot: u8) -> u64
    ensures { result ≡ packed_structure (structure_of t.now slot) }
{
    let read = read_structure(t, slot);
    packed_place(read.refusal)
        + 4294967296 * read.id as u64
        + 1099511627776 * read.start as u64
        + 72057594037927936 * read.flags as u64
}

// The Index that the same reading answers.
#[unsafe(no_mangle)]
pub extern "C" fn test_structure_index(t: &[u8], slot: u8) -> u8
    ensures { result ≡ (structure_of t.now slot).index }
{
    read_structure(t, slot).index
}

// The checksum byte of the same reading's refusal.
#[unsafe(no_mangle)]
pub extern "C" fn test_structure_checksum(t: &[u8], slot: u8) -> u8
    ensures { result ≡ (structure_of t.now slot).refusal.checksum }
{
    read_structure(t, slot).refusal.checksum
}

#[unsafe(no_mangle)]
pub extern "C" fn test_entry(t: &[u8], n: u8) -> u64
    ensures { result ≡ packed_refusal (entry_of t.now n).refusal }
{
    packed_refusal(read_entry(t, n).refusal)
}

#[unsafe(no_mangle)]
pub extern "C" fn test_entry_place(t: &[u8], n: u8) -> u64
    ensures { result ≡ packed_entry_place (entry_of t.now n) }
{
    let read = read_entry(t, n);
    read.offset as u64 + 65536 * read.length as u64
}

#[unsafe(no_mangle)]
pub extern "C" fn test_login_order(t: &[u8]) -> u64
    ensures { result ≡ packed_order (login_order_of t.now) }
{
    let order = login_order(t);
    let places = order.places;
    packed_place(order.refusal)
        + 4294967296 * order.used as u64
        + 1099511627776 * byte_at(&places[..], 0) as u64
        + 281474976710656 * byte_at(&places[..], 1) as u64
}

// All eight places of the order, the first in the lowest byte.
#[unsafe(no_mangle)]
pub extern "C" fn test_login_places(t: &[u8]) -> u64
    ensures { result ≡ word64 (login_order_of t.now).places 0 }
{
    let order = login_order(t);
    let places = order.places;
    u64_at(&places[..], 0)
}

// The checksum byte of the same order's refusal.
#[unsafe(no_mangle)]
pub extern "C" fn test_login_checksum(t: &[u8]) -> u8
    ensures { result ≡ (login_order_of t.now).refusal.checksum }
{
    login_order(t).refusal.checksum
}

// The kind of the address that the first sixteen bytes are.
#[unsafe(no_mangle)]
pub extern "C" fn test_address_kind(a: &[u8]) -> u64
    ensures { result ≡ address_number (address_kind_of (bytes_at a.now 0 16)) }
{
    match address_kind(array_at(a, 0)) {
        AddressKind::Absent => 0,
        AddressKind::Ipv4Mapped => 1,
        AddressKind::Other => 2,
    }
}

#[unsafe(no_mangle)]
pub extern "C" fn test_pci(word: u16) -> u64
    ensures { result ≡ packed_pci (pci_of word) }
{
    let pci = split_pci(word);
    pci.bus as u64 + 256 * pci.device as u64 + 65536 * pci.function as u64
}
