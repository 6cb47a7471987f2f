// The calls for C boot firmware: numbers and byte ranges in, one 64-bit number out. include/bootfw.h declares them.
#![tactic(auto)]

ghost use Rattle.std.specs.Prelude.{◌≡◌, ◌<◌, ◌^◌, length};
ghost use Rattle.scan.specs.Scan.{ibft, abft, sbft};
ghost use Rattle.table_header.specs.Verdict.{refusal_of};
ghost use Rattle.ibft_table.specs.Check.{check_tests as ibftTests, check_of as ibftCheck};
ghost use Rattle.abft.specs.Abft.{check_tests as abftTests, check_of as abftCheck, written_of as abftWritten};
ghost use Rattle.abft.specs.Promises.{Write as WriteAbft};
ghost use Rattle.sbft.specs.Check.{check_tests as sbftTests, check_of as sbftCheck};
ghost use Rattle.sbft.specs.Write.{written_of as sbftWritten};
ghost use Rattle.sbft.specs.Promises.{Write as WriteSbft};
ghost use Rattle.bootfw.specs.Pack.{Packs, upper_of};
ghost use Rattle.bootfw.specs.Promises.{ScanAnswer, CheckAnswer, BuildAnswer, RebuildAnswer, WriteAnswer};

use scan::Family;
use table_header::verdict::{Refusal, Verdict, refusal_of};
use table_header::write::Written;

// ---- answers as one number

// Bits 0 to 7 the number, bits 8 to 31 the place or the address, bits 32 to 63, the upper half, the Length or a checksum byte.
fn packed(number: u8, place: u32, upper: u32) -> u64
    requires { place < 2 ^ 24 }
    ensures { Packs number place upper result }
{
    number as u64 + 256 * place as u64 + 4294967296 * upper as u64
}

// The upper half where a call may return a Length or a checksum byte: a refused one returns no Length.
fn upper_of(refusal: Refusal, length: u32) -> u32
    ensures { result ≡ upper_of refusal length }
{
    if refusal.number == 0 {
        return length;
    }
    refusal.checksum as u32
}

// What a scan for a table of the family answers. (Windows end below 2^24, so an address fits.)
fn scan_answer(f: Family, memory: &[u8], address: u64) -> u64
    requires { f.high < 2 ^ 24 }
    ensures { ScanAnswer f memory.now address result }
{
    let found = scan::scan_for(f, memory, address);
    packed(found.number, found.address as u32, found.length)
}

// What a check with this verdict answers: with 6 the checksum byte that would be right is in bits 32 to 39.
fn check_answer(verdict: Verdict) -> u64
    requires { (refusal_of verdict).place < 2 ^ 24 }
    ensures { Packs (refusal_of verdict).number (refusal_of verdict).place (refusal_of verdict).checksum result }
{
    let refusal = refusal_of(verdict);
    packed(refusal.number, refusal.place, refusal.checksum as u32)
}

// What a write answers.
fn write_answer(written: Written) -> u64
    requires { written.refusal.place < 2 ^ 24 }
    ensures { Packs written.refusal.number written.refusal.place written.length result }
{
    let refusal = written.refusal;
    packed(refusal.number, refusal.place, written.length)
}

// ---- the iSCSI Boot Firmware Table

// Looks for the lowest sound iBFT in the memory lent from `address` on: number, address and Length.
#[unsafe(no_mangle)]
pub extern "C" fn ibft_scan(memory: &[u8], address: u64) -> u64
    ensures { ScanAnswer ibft memory.now address result }
{
    scan_answer(Family::IBFT, memory, address)
}

// Checks a table: number, place and checksum byte of the refusal, 0 where it is accepted.
#[unsafe(no_mangle)]
pub extern "C" fn ibft_check(table: &[u8]) -> u64
    ensures { CheckAnswer table.now (ibftTests table.now) (ibftCheck table.now) result }
{
    check_answer(ibft_table::check::check(table))
}

// Builds a table from a record range and the strings it points into: number, place and Length. A refused build leaves the room
// as it was. The room must share no byte with the record or the strings.
#[unsafe(no_mangle)]
pub extern "C" fn ibft_build(range: &[u8], strings: &[u8], room: &mut [u8]) -> u64
    ensures { BuildAnswer range.now strings.now room.old room.new result }
{
    let built = ibft_build::build::build(range, strings, room);
    let refusal = built.refusal;
    packed(refusal.number, refusal.place, built.length)
}

// Builds the record that a table holds again, in the least Length: number, place and Length, or the checksum byte where the sum
// is refused. A refused rebuild leaves the room as it was. The room must share no byte with the table.
#[unsafe(no_mangle)]
pub extern "C" fn ibft_rebuild(table: &[u8], room: &mut [u8]) -> u64
    ensures { RebuildAnswer table.now room.old room.new result }
{
    let rebuilt = ibft_rebuild::rebuild::rebuild(table, room);
    let refusal = rebuilt.refusal;
    let upper = upper_of(refusal, rebuilt.length);
    packed(refusal.number, refusal.place, upper)
}

// ---- the AoE Boot Firmware Table

// Looks for the lowest sound aBFT in the memory lent from `address` on: number, address and Length. It may stand at address 0.
#[unsafe(no_mangle)]
pub extern "C" fn abft_scan(memory: &[u8], address: u64) -> u64
    ensures { ScanAnswer abft memory.now address result }
{
    scan_answer(Family::ABFT, memory, address)
}

// Checks an aBFT: number, place and checksum byte of the refusal, 0 where it is accepted.
#[unsafe(no_mangle)]
pub extern "C" fn abft_check(table: &[u8]) -> u64
    ensures { CheckAnswer table.now (abftTests table.now) (abftCheck table.now) result }
{
    check_answer(abft::check::check(table))
}

// Writes the aBFT of an image: number, place and Length. A refused write leaves the room as it was. The room must share no byte
// with the image.
#[unsafe(no_mangle)]
pub extern "C" fn abft_write(image: &[u8], room: &mut [u8]) -> u64
    ensures { WriteAnswer (abftWritten image.now (length room.old))
        (λ answer. WriteAbft image.now room.old answer room.new) result }
{
    write_answer(abft::write::write(image, room))
}

// ---- the SRP Boot Firmware Table

// Looks for the lowest sound sBFT in the memory lent from `address` on: number, address and Length. It may stand at address 0.
#[unsafe(no_mangle)]
pub extern "C" fn sbft_scan(memory: &[u8], address: u64) -> u64
    ensures { ScanAnswer sbft memory.now address result }
{
    scan_answer(Family::SBFT, memory, address)
}

// Checks an sBFT: number, place and checksum byte of the refusal, 0 where it is accepted.
#[unsafe(no_mangle)]
pub extern "C" fn sbft_check(table: &[u8]) -> u64
    ensures { CheckAnswer table.now (sbftTests table.now) (sbftCheck table.now) result }
{
    check_answer(sbft::check::check(table))
}

// Writes the sBFT of an image: number, place and Length. A refused write leaves the room as it was. The room must share no byte
// with the image.
#[unsafe(no_mangle)]
pub extern "C" fn sbft_write(image: &[u8], room: &mut [u8]) -> u64
    ensures { WriteAnswer (sbftWritten image.now (length room.old))
        (λ answer. WriteSbft image.now room.old answer room.new) result }
{
    write_answer(sbft::write::write(image, room))
}
