// Finds the tables in a memory dump, which stands on standard input: `find ADDRESS`, with the address of the dump's first byte,
// in decimal or behind 0x in hexadecimal. Prints a line for each family of which there is one, `table` with its address, its
// Length and its family; or `refused` with the number of the refusal and its place, which is 0. `find ADDRESS FAMILY` looks for
// that family alone, and `find ADDRESS FAMILY bytes` writes the table's bytes instead, and a refusal to standard error. Where
// there is no table and the dump begins with zero bytes only, that is said on standard error.
#![tactic(auto)]

ghost use Rattle.std.specs.Prelude.{◌≡◌, ℕ, ◌+◌, ◌^◌, ◌≤◌, ◌<◌, length};
ghost use Rattle.octets.specs.Counting.{first};
ghost use Rattle.octets.specs.Octets.{byte, differs};

use bench_io::console::{Console, Stream};
use bench_io::{argument, write_refusal};
use notation::number::read_number;
use octets::read::part;
use scan::{Family, scan_for, table_for};
use std::env::Env;
use std::fmt;
use table_header::verdict::Refusal;
use text::split::same;

// Room for all memory up to the end of the highest window, 0x100000, and one byte that tells a longer dump.
const MEMORY_SIZE: usize = 0x100001;

// An operating system that shows memory as zeros does so page by page.
const PAGE: usize = 4096;

// The families, in the order in which they are said.
#[derive(Clone, Copy)]
enum Kind {
    Ibft,
    Abft,
    Sbft,
}

impl Kind {
    fn family(self) -> Family {
        match self {
            Kind::Ibft => Family::IBFT,
            Kind::Abft => Family::ABFT,
            Kind::Sbft => Family::SBFT,
        }
    }
}

impl fmt::Display for Kind {
    fn fmt<W: fmt::Write>(&self, f: &mut fmt::Formatter<W>) -> fmt::Result {
        f.write_str(match self {
            Kind::Ibft => "iBFT",
            Kind::Abft => "aBFT",
            Kind::Sbft => "sBFT",
        })
    }
}

// What is looked for.
#[derive(Clone, Copy)]
enum Wanted {
    All,
    One(Kind),
}

// With how many zero bytes the memory begins.
fn zeros_of(memory: &[u8]) -> usize
    ensures { (result ≡ first (length memory.now) (λ (k : ℕ). differs (byte memory.now k) 0))
        × (result ≤ length memory.now) }
{
    for (n, b) in memory.iter().enumerate() {
        if *b != 0 {
            return n;
        }
    }
    memory.len()
}

// Says so where the memory that starts at the address is all zeros, or is so for a page or more.
fn tell_zeros(rt: &impl Eprint, memory: &[u8], address: u64) -> std::io::Result<()>
    requires { address + length memory.now < 2 ^ 64 }
{
    let n = zeros_of(memory);
    if n == 0 {
        return Ok(());
    }
    if n < memory.len() && n < PAGE {
        return Ok(());
    }
    let last = address + (n as u64 - 1);
    eprintln!(rt; "find: the dump holds nothing but zero bytes from 0x{address:x} to 0x{last:x}")
}

// The memory up to the end of the family's window: what a dump has above it is not the family's.
fn below_end(f: Family, memory: &[u8], address: u64) -> &[u8] {
    part(memory, 0, f.high.saturating_sub(address) as usize)
}

// Says the table of this family in a line, or writes its bytes, where there is one; answers whether there is.
fn tell_found(
    rt: &impl Print,
    kind: Kind,
    memory: &[u8],
    address: u64,
    bytes: bool,
) -> std::io::Result<bool> {
    let f = kind.family();
    let window = below_end(f, memory, address);
    let scanned = scan_for(f, window, address);
    if scanned.number != 0 {
        return Ok(false);
    }
    if bytes {
        rt.write_all(table_for(f, window, address))?;
    } else {
        println!(rt; "table 0x{:x} {} {kind}", scanned.address, scanned.length)?;
    }
    Ok(true)
}

fn tell_wanted(
    rt: &impl Print,
    wanted: Wanted,
    memory: &[u8],
    address: u64,
    bytes: bool,
) -> std::io::Result<bool> {
    match wanted {
        Wanted::One(kind) => tell_found(rt, kind, memory, address, bytes),
        Wanted::All => {
            let mut found = false;
            for kind in [Kind::Ibft, Kind::Abft, Kind::Sbft] {
                found |= tell_found(rt, kind, memory, address, false)?;
            }
            Ok(found)
        }
    }
}

fn refused(number: u8) -> Refusal {
    Refusal {
        number,
        place: 0,
        checksum: 0,
    }
}

// A refusal goes to standard error where the table's bytes would go to standard output.
fn tell_refusal(console: &Console, number: u8, bytes: bool) -> std::io::Result<()> {
    if bytes {
        return write_refusal(&mut std::io::writer(&Stream::Errors), refused(number));
    }
    write_refusal(&mut std::io::writer(&Stream::Output), refused(number))
}

// What is found in the memory that starts at the address. (No dump goes past the end of the iBFT's window, which is the
// highest.)
fn answer(
    console: &Console,
    wanted: Wanted,
    memory: &[u8],
    address: u64,
    bytes: bool,
) -> std::io::Result<()> {
    let scanned = scan_for(Family::IBFT, memory, address);
    if scanned.number == 1 {
        return tell_refusal(console, 1, bytes);
    }
    if tell_wanted(console, wanted, memory, address, bytes)? {
        return Ok(());
    }
    tell_refusal(console, 2, bytes)?;
    tell_zeros(console, memory, address)
}

// Reads the dump into the memory and looks through it.
fn find_in(
    console: &Console,
    memory: &mut [u8],
    wanted: Wanted,
    address: u64,
    bytes: bool,
) -> std::io::Result<()> {
    let n = io::read_full(0, memory);
    answer(console, wanted, part(memory, 0, n), address, bytes)
}

fn find(console: &Console, wanted: Wanted, address: u64, bytes: bool) -> std::io::Result<()> {
    let mut memory = [0u8; MEMORY_SIZE];
    find_in(console, &mut memory, wanted, address, bytes)
}

fn family_named(name: &[u8]) -> Option<Wanted> {
    match name {
        b"" => Some(Wanted::All),
        b"ibft" => Some(Wanted::One(Kind::Ibft)),
        b"abft" => Some(Wanted::One(Kind::Abft)),
        b"sbft" => Some(Wanted::One(Kind::Sbft)),
        _ => None,
    }
}

fn wanted_family(rt: &impl Env) -> Option<Wanted> {
    let mut text = [0u8; 32];
    let n = argument(rt, 2, &mut text);
    family_named(part(&text, 0, n))
}

fn wants_bytes(rt: &impl Env) -> bool {
    let mut text = [0u8; 32];
    let n = argument(rt, 3, &mut text);
    same(part(&text, 0, n), b"bytes")
}

fn run(rt: &impl Env, console: &Console) -> std::io::Result<()> {
    let mut text = [0u8; 32];
    let n = argument(rt, 1, &mut text);
    let Some(address) = read_number(u64::MAX, part(&text, 0, n)) else {
        return eprintln!(console; "find: give the address of the dump's first byte, as 0x9f000");
    };
    let Some(wanted) = wanted_family(rt) else {
        return eprintln!(console; "find: the families are ibft, abft and sbft");
    };
    find(console, wanted, address, wants_bytes(rt))
}

fn main(rt: HostRuntime) {
    // (The console gives no error.)
    let _ = run(&rt, &Console);
}
