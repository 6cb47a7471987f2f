// Finds a table of a family in lent memory. The caller lends the bytes and gives the address of the first.
#![tactic(auto)]

ghost use Rattle.std.specs.Prelude.{◌≡◌, ◌+◌, ◌%◌, ◌<◌, ◌^◌, length, eqb};
ghost use Rattle.octets.specs.Octets.{sum};
ghost use Rattle.scan.specs.Scan.{sound_at, lowest, refused};
ghost use Rattle.scan.specs.Promises.{Promise, View};

use octets::read::{byte_at, part, u32_at};
use octets::sum::checksum;

// What marks a table: its first four bytes as a little-endian number, the window of addresses from `low` up to `high`,
// the least Length.
#[derive(Clone, Copy)]
pub struct Family {
    pub signature: u32,
    pub low: u64,
    pub high: u64,
    pub least: u32,
}

impl Family {
    // The iSCSI Boot Firmware Table: the bytes `iBFT`, the window 0x80000 to 0xFFFFF, a header of 48 bytes.
    pub const IBFT: Family = Family {
        signature: 0x54464269,
        low: 0x80000,
        high: 0x100000,
        least: 48,
    };

    // The AoE Boot Firmware Table: the bytes `aBFT`, the window 0x00000 to 0x9FFFF, 46 bytes.
    pub const ABFT: Family = Family {
        signature: 0x54464261,
        low: 0,
        high: 0xA0000,
        least: 46,
    };

    // The SRP Boot Firmware Table: the bytes `sBFT`, the same window, a start of 48 bytes.
    pub const SBFT: Family = Family {
        signature: 0x54464273,
        low: 0,
        high: 0xA0000,
        least: 48,
    };
}

// What a scan answers: its number, 0 where a table is found, with the table's address and Length. (No Result: the promises speak
// of these three numbers in every case, and C is handed them.)
#[derive(Clone, Copy)]
pub struct Scanned {
    pub number: u8,
    pub address: u64,
    pub length: u32,
}

impl Scanned {
    fn refused(number: u8) -> Scanned
        ensures { result ≡ refused number }
    {
        Scanned {
            number: number,
            address: 0,
            length: 0,
        }
    }
}

// Do the bytes of a table sum to 0 modulo 256? They do exactly where the checksum byte stands in its place.
fn sums_to_zero(table: &[u8]) -> bool
    ensures { result ≡ eqb (sum table.now % 256) 0 }
{
    checksum(table, 9) == byte_at(table, 9)
}

// Is the place at offset k sound (RULES.md, Finding)? The first byte is tested first, since nearly all places fail
// there.
fn sound(f: Family, mem: &[u8], address: u64, k: usize) -> bool
    requires { (address + length mem.now < 2 ^ 64) × (k < length mem.now) × ((address + k) % 16 ≡ 0) }
    ensures { result ≡ sound_at f mem.now address k }
{
    if mem[k] != (f.signature % 256) as u8 {
        return false;
    }
    if u32_at(mem, k) != f.signature {
        return false;
    }
    let size = u32_at(mem, k + 4);
    if size < f.least {
        return false;
    }
    let place = address + k as u64;
    if place < f.low {
        return false;
    }
    if mem.len() - k < size as usize {
        return false;
    }
    if f.high < place + size as u64 {
        return false;
    }
    let table = part(mem, k, size as usize);
    sums_to_zero(table)
}

// The offset of the lowest sound place, or the number of bytes lent where there is none. (No Option: so the definition has it.)
fn find(f: Family, mem: &[u8], address: u64) -> usize
    requires { address + length mem.now < 2 ^ 64 }
    ensures { result ≡ lowest f mem.now address }
{
    let mut k = ((16 - address % 16) % 16) as usize;
    // (Left by `break`, a form of docs/DECISIONS.md; with `step_by(16)`, which tests each sum for overflow, a scan takes 2.5 times
    // as long.)
    loop {
        if mem.len() <= k {
            break mem.len();
        }
        if sound(f, mem, address, k) {
            break k;
        }
        k += 16;
    }
}

// Looks for the lowest sound table of the family in the memory that is lent from `address` on.
pub fn scan_for(f: Family, mem: &[u8], address: u64) -> Scanned
    ensures { Promise f mem.now address result }
{
    if f.high < address {
        return Scanned::refused(1);
    }
    if f.high - address < mem.len() as u64 {
        return Scanned::refused(1);
    }
    let k = find(f, mem, address);
    if mem.len() <= k {
        return Scanned::refused(2);
    }
    Scanned {
        number: 0,
        address: address + k as u64,
        length: u32_at(mem, k + 4),
    }
}

// The table that the scan finds, as a part of the memory lent; empty where it refuses.
pub fn table_for(f: Family, mem: &[u8], address: u64) -> &[u8]
    ensures { View f mem.entry address result }
{
    let found = scan_for(f, mem, address);
    if found.number != 0 {
        return part(mem, 0, 0);
    }
    part(
        mem,
        (found.address - address) as usize,
        found.length as usize,
    )
}
