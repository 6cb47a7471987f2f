// The scans of RULES.md, Worked cases, that are run and compared, and the edges of its rules: a line for each, with what the
// scan answers and how many bytes the view shows. Numbers are decimal: 524288 is 0x80000, 1048576 is 0x100000.
#![tactic(auto)]

use bench_io::console::Console;
use octets::read::part;
use octets::sum::checksum;
use octets::write::{put_byte, put_bytes, put_u32};
use scan::{Family, Scanned};
use std::fmt;

// Lays a table of this Length at offset k: the signature, the Length field, and the checksum byte with which it sums to 0.
fn lay_table(mem: &mut [u8], k: u32, length: u32) {
    let start = k as usize;
    put_bytes(mem, start, b"iBFT");
    put_u32(mem, start + 4, length);
    let byte = checksum(part(mem, start, length as usize), 9);
    put_byte(mem, start + 9, byte);
}

// Changes the byte at offset k, so that a table there no longer sums to 0.
fn spoil(mem: &mut [u8], k: u32) {
    put_byte(mem, k as usize, 1);
}

// A scan's answer, as a line says it.
#[derive(Clone, Copy)]
struct Answer(Scanned);

impl fmt::Display for Answer {
    fn fmt<W: fmt::Write>(&self, f: &mut fmt::Formatter<W>) -> fmt::Result {
        if self.0.number == 0 {
            return write!(f, "found {} {}", self.0.address, self.0.length);
        }
        write!(f, "refused {}", self.0.number)
    }
}

// Scans the memory, lent from this address on, and prints the case's line.
fn scan_case(rt: &impl Print, name: &str, mem: &[u8], address: u64) -> std::io::Result<()> {
    let scanned = Answer(scan::scan_for(Family::IBFT, mem, address));
    let view = scan::table_for(Family::IBFT, mem, address);
    println!(rt; "{name}: {scanned}, view {}", view.len())
}

// One table of this Length at offset k of 128 bytes, lent from this address on.
fn one_table(
    rt: &impl Print,
    name: &str,
    k: u32,
    length: u32,
    address: u64,
) -> std::io::Result<()> {
    let mut mem = [0u8; 128];
    lay_table(&mut mem, k, length);
    scan_case(rt, name, &mem, address)
}

fn bad_sum_below_a_good_table(rt: &impl Print) -> std::io::Result<()> {
    let mut mem = [0u8; 128];
    lay_table(&mut mem, 0, 48);
    spoil(&mut mem, 20);
    lay_table(&mut mem, 64, 48);
    scan_case(rt, "bad sum at 524288, good table at 524352", &mem, 0x80000)
}

// A signature with a Length of 64 whose bytes do not sum to 0, and a table that starts inside these bytes.
fn good_table_inside_a_bad_one(rt: &impl Print) -> std::io::Result<()> {
    let mut mem = [0u8; 128];
    lay_table(&mut mem, 0, 64);
    spoil(&mut mem, 12);
    lay_table(&mut mem, 16, 48);
    scan_case(
        rt,
        "bad sum over 64 bytes, good table at 524304 inside them",
        &mem,
        0x80000,
    )
}

fn cut_by_the_end(rt: &impl Print) -> std::io::Result<()> {
    let mut mem = [0u8; 128];
    lay_table(&mut mem, 80, 48);
    scan_case(
        rt,
        "table of 48 at 524368, all its bytes lent",
        &mem,
        0x80000,
    )?;
    scan_case(
        rt,
        "the same, its last byte not lent",
        part(&mem, 0, 127),
        0x80000,
    )
}

fn fills_the_window(rt: &impl Print) -> std::io::Result<()> {
    let mut mem = [0u8; 524288];
    lay_table(&mut mem, 0, 524288);
    scan_case(
        rt,
        "table of 524288 at 524288: the whole window",
        &mem,
        0x80000,
    )
}

fn nothing_lent(rt: &impl Print) -> std::io::Result<()> {
    let mem = [0u8; 16];
    let none = part(&mem, 0, 0);
    scan_case(rt, "no bytes at 1048576", none, 0x100000)?;
    scan_case(rt, "no bytes at 1048577", none, 0x100001)?;
    scan_case(rt, "16 bytes at 1048560", &mem, 0xFFFF0)?;
    scan_case(rt, "16 bytes at 1048561", &mem, 0xFFFF1)?;
    scan_case(
        rt,
        "16 bytes at 2^64 - 1: past 2^64",
        &mem,
        0xFFFFFFFFFFFFFFFF,
    )
}

fn run(console: &Console) -> std::io::Result<()> {
    one_table(
        console,
        "table of 48 at 524288, lent from 524280",
        8,
        48,
        0x7FFF8,
    )?;
    one_table(
        console,
        "table of 48 at 524296, lent from 524288",
        8,
        48,
        0x80000,
    )?;
    one_table(
        console,
        "table of 48 at 524272, below the window",
        0,
        48,
        0x7FFF0,
    )?;
    bad_sum_below_a_good_table(console)?;
    good_table_inside_a_bad_one(console)?;
    cut_by_the_end(console)?;
    one_table(console, "Length 47", 16, 47, 0x80000)?;
    one_table(console, "Length 48", 16, 48, 0x80000)?;
    one_table(console, "Length 65", 16, 65, 0x80000)?;
    one_table(console, "Length 4294967295", 16, 0xFFFFFFFF, 0x80000)?;
    one_table(
        console,
        "table of 48 at 1048528, up to the window's end",
        80,
        48,
        0xFFF80,
    )?;
    fills_the_window(console)?;
    nothing_lent(console)
}

fn main() {
    // (The console gives no error.)
    let _ = run(&Console);
}
