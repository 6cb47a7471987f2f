// Compares two tables by meaning. It reads on standard input the size of the left table in digits, a line feed, the left table
// and the right one, each up to 16,384 bytes. It writes a line for each difference in the words of the record
// (docs/RECORD-FORMAT.md), then how many there are; or the one refusal that applies, with the side of the table that is
// refused, 0 the left and 1 the right. `compare hide-secrets` shows no secret.
#![tactic(auto)]

use bench_io::console::Console;
use bench_io::{LONGEST_TABLE, argument, hides};
use difference_text::{LINE_SIZE, put_difference};
use ibft_compare::compare::{compare, difference};
use notation::number::read_number;
use octets::read::part;
use refusal_text::{SIDE_LINE_SIZE, put_side_refusal};
use std::env::Env;
use table_header::verdict::Refusal;
use text::split::index_of;

// The largest size that is read as a number, and the line feed behind it is one of the first bytes.
const LARGEST_SIZE: u64 = 4294967295;

const LONGEST_SIZE_LINE: usize = 16;

// ---- answers

fn print_refusal(rt: &impl Print, refusal: Refusal, side: u8) -> std::io::Result<()> {
    let mut room = [0u8; SIDE_LINE_SIZE];
    let end = put_side_refusal(&mut room, 0, refusal, side);
    rt.write_all(part(&room, 0, end))
}

// (No line is longer than the room, since no field and no string of an accepted table has more than 255 bytes: `told-fits`.)
fn print_difference(
    rt: &impl Print,
    left: &[u8],
    right: &[u8],
    k: u16,
    hide: bool,
) -> std::io::Result<()> {
    let mut room = [0u8; LINE_SIZE];
    let end = put_difference(&mut room, 0, left, right, difference(left, right, k), hide);
    rt.write_all(part(&room, 0, end))
}

fn print_count(rt: &impl Print, count: u16) -> std::io::Result<()> {
    match count {
        0 => println!(rt; "no difference"),
        1 => println!(rt; "1 difference"),
        _ => println!(rt; "{count} differences"),
    }
}

fn compare_tables(rt: &impl Print, left: &[u8], right: &[u8], hide: bool) -> std::io::Result<()> {
    let compared = compare(left, right);
    let refusal = compared.refusal;
    if refusal.number != 0 {
        return print_refusal(rt, refusal, compared.side);
    }
    for k in 0..compared.count {
        print_difference(rt, left, right, k, hide)?;
    }
    print_count(rt, compared.count)
}

// ---- the input

fn say_no_size(rt: &impl Eprint) -> std::io::Result<()> {
    eprintln!(rt; "compare: the input does not start with the size of the left table")
}

fn say_too_long(rt: &impl Eprint) -> std::io::Result<()> {
    eprintln!(rt; "compare: a table has more than {LONGEST_TABLE} bytes")
}

// The tables, one behind the other, of which the left one has so many bytes.
fn compare_behind(
    rt: &(impl Print + Eprint),
    tables: &[u8],
    size: usize,
    hide: bool,
) -> std::io::Result<()> {
    if tables.len() < size {
        return eprintln!(rt; "compare: the left table has fewer bytes than its size says");
    }
    let right = part(tables, size, tables.len());
    if LONGEST_TABLE < right.len() {
        return say_too_long(rt);
    }
    compare_tables(rt, part(tables, 0, size), right, hide)
}

fn compare_input(rt: &(impl Print + Eprint), input: &[u8], hide: bool) -> std::io::Result<()> {
    let first = part(input, 0, LONGEST_SIZE_LINE);
    let end = index_of(first, b'\n');
    if end == first.len() {
        return say_no_size(rt);
    }
    let Some(size) = read_number(LARGEST_SIZE, part(first, 0, end)) else {
        return say_no_size(rt);
    };
    if (LONGEST_TABLE as u64) < size {
        return say_too_long(rt);
    }
    compare_behind(rt, part(input, end + 1, input.len()), size as usize, hide)
}

// With a word that it does not know it shows nothing. One byte more than is looked at is read, which tells a longer input.
fn run(rt: &impl Env, console: &Console) -> std::io::Result<()> {
    let mut word = [0u8; 32];
    let n = argument(rt, 1, &mut word);
    let Some(hide) = hides(part(&word, 0, n)) else {
        return eprintln!(console; "compare: the one word that may follow is hide-secrets");
    };
    let mut room = [0u8; LONGEST_SIZE_LINE + 2 * LONGEST_TABLE + 1];
    let n = io::read_full(0, &mut room);
    compare_input(console, part(&room, 0, n), hide)
}

fn main(rt: HostRuntime) {
    // (The console gives no error.)
    let _ = run(&rt, &Console);
}
