// The builds of RULES.md, Worked cases, that are run and compared: a line for each. Cases 1 to 12 are proved as one table in
// specs/. Standard input holds the table of case 5, the one that `show` is tested on.
#![tactic(auto)]

use bench_io::console::Console;
use ibft_build::build::build;
use ibft_build_rules::range::{
    BASE_SIZE, ENTRY_MARKS_AT, INITIATOR_AT, LARGEST_SIZE, MARKS_AT, TARGET_0_AT, image_at,
    nic_image, target_image,
};
use ibft_build_rules::{Built, LARGEST_LENGTH};
use ibft_layout::layout::{EXTRA_MOST, LEAST_INDEX, owner_of, string_of};
use ibft_layout::nic::Nic;
use ibft_layout::shape::INDEX_AT;
use ibft_layout::target::Target;
use ibft_table::check::check;
use octets::read::{byte_at, part};
use octets::write::{put_byte, put_bytes, put_u16};
use std::fmt;

// Where the record range has its marks and images.
const SLOT_MARKS: usize = MARKS_AT as usize;

const ENTRY_MARKS: usize = ENTRY_MARKS_AT as usize;

const INITIATOR: usize = INITIATOR_AT as usize;

const TARGET_0: usize = TARGET_0_AT as usize;

// A build's answer, as a line says it.
#[derive(Clone, Copy)]
struct Answer(Built);

impl fmt::Display for Answer {
    fn fmt<W: fmt::Write>(&self, f: &mut fmt::Formatter<W>) -> fmt::Result {
        let refusal = self.0.refusal;
        if refusal.number == 0 {
            return write!(f, "built, Length {}", self.0.length);
        }
        write!(f, "refused {} {}", refusal.number, refusal.place)
    }
}

// What the check says of a room, as a line says it.
fn checked(t: &[u8]) -> &'static str {
    match check(t) {
        Ok(()) => "check accepts",
        Err(_) => "check refuses",
    }
}

// The initiator alone, its name so many letters.
fn long_name(rt: &impl Print, letters: u16) -> std::io::Result<()> {
    let mut range = [0u8; BASE_SIZE as usize];
    put_byte(&mut range, SLOT_MARKS, 1);
    put_byte(&mut range, ENTRY_MARKS, 1);
    put_u16(&mut range, INITIATOR + 70, letters);
    let strings = [97u8; 256];
    let mut room = [0u8; 512];
    let built = build(&range, &strings, &mut room);
    println!(rt; "initiator name of {letters}: {}", Answer(built))
}

// Case 5's record: Target 0 alone, flags 1, CHAP name `depot7`, reverse name `7`, which is the last letter of that.
fn lay_case_5(range: &mut [u8]) {
    put_byte(range, SLOT_MARKS + 2, 1);
    put_byte(range, ENTRY_MARKS + 3, 1);
    put_byte(range, ENTRY_MARKS + 5, 1);
    put_byte(range, TARGET_0 + 5, 1);
    put_u16(range, TARGET_0 + 38, 6);
    put_u16(range, TARGET_0 + 46, 1);
    put_u16(range, TARGET_0 + 48, 5);
}

// Case 5 into this room: the answer, whether the room then holds the table on standard input, its bytes at 0 and 133 (0 where
// it has none), and what the check says of it.
fn case_5(rt: &impl Print, table: &[u8], room: &mut [u8]) -> std::io::Result<()> {
    let mut range = [0u8; BASE_SIZE as usize];
    lay_case_5(&mut range);
    let size = room.len();
    let built = build(&range, b"depot7", room);
    print!(rt; "case 5 into {size}: {}", Answer(built))?;
    let same = if (0..133).all(|i| byte_at(room, i) == byte_at(table, i)) {
        "yes"
    } else {
        "no"
    };
    print!(rt; ", the table of show: {same}")?;
    print!(rt;
        ", byte 0: {}, byte 133: {}",
        byte_at(room, 0),
        byte_at(room, 133)
    )?;
    println!(rt; ", {}", checked(room))
}

// Rooms of 132, 133 and 200 bytes, filled with 170.
fn case_5_rooms(rt: &impl Print, table: &[u8]) -> std::io::Result<()> {
    case_5(rt, table, &mut [170u8; 132])?;
    case_5(rt, table, &mut [170u8; 133])?;
    case_5(rt, table, &mut [170u8; 200])
}

// Entry n of the largest record has four labels of its own letter, small or capital.
fn letter(n: u8, k: u8) -> u8 {
    if k % 64 == 63 {
        return b'.';
    }
    if n < 26 {
        return b'a' + n;
    }
    b'A' + n % 26
}

// It stands at 256 x n of the strings.
fn lay_string(strings: &mut [u8], n: u8) {
    for k in 0..255u8 {
        put_byte(strings, 256 * n as usize + k as usize, letter(n, k));
    }
}

// Its words in the range, which is to have its numbers of extras by then. It is as long as it may be.
fn lay_entry(range: &mut [u8], strings: &mut [u8], n: u8) {
    lay_string(strings, n);
    let string = string_of(n as u16);
    let field = image_at(range, owner_of(n as u16)) as usize + string.at as usize;
    put_u16(range, field, string.longest);
    put_u16(range, field + 2, 256 * n as u16);
}

fn lay_entries(range: &mut [u8], strings: &mut [u8], count: u8) {
    for n in 0..count {
        lay_entry(range, strings, n);
    }
}

// The i-th extra NIC and the i-th extra target: their Index, and the marks of their entries.
fn lay_extras(range: &mut [u8], i: u8) {
    let nic = nic_image(i) as usize;
    put_byte(range, nic + INDEX_AT as usize, LEAST_INDEX + i % EXTRA_MOST);
    put_byte(range, nic + Nic::LENGTH as usize, 1);
    let target = target_image(range, i) as usize;
    put_byte(
        range,
        target + INDEX_AT as usize,
        LEAST_INDEX + i % EXTRA_MOST,
    );
    let marks = [1u8; 5];
    put_bytes(range, target + Target::LENGTH as usize, &marks);
}

fn lay_all_extras(range: &mut [u8]) {
    put_byte(range, BASE_SIZE as usize, EXTRA_MOST);
    put_byte(range, BASE_SIZE as usize + 1, EXTRA_MOST);
    for i in 0..EXTRA_MOST {
        lay_extras(range, i);
    }
}

// A record into a room: the answer, and what the check says of the room.
fn show_large(
    rt: &impl Print,
    name: &str,
    range: &[u8],
    strings: &[u8],
    room: &mut [u8],
) -> std::io::Result<()> {
    let size = room.len();
    let built = build(range, strings, room);
    println!(rt; "{name} into {size}: {}, {}", Answer(built), checked(room))
}

// The largest record without extras, into as many bytes as it takes and into one less.
fn largest_named(rt: &impl Print) -> std::io::Result<()> {
    let name = "largest record without extras";
    let mut range = [0u8; BASE_SIZE as usize];
    let mut strings = [0u8; 3328];
    let marks = [1u8; 18];
    put_bytes(&mut range, SLOT_MARKS, &marks);
    lay_entries(&mut range, &mut strings, 13);
    let mut exact = [0u8; 3702];
    show_large(rt, name, &range, &strings, &mut exact)?;
    let mut small = [0u8; 3701];
    show_large(rt, name, &range, &strings, &mut small)
}

// The largest record there is.
fn largest(rt: &impl Print) -> std::io::Result<()> {
    let name = "largest record";
    let mut range = [0u8; LARGEST_SIZE as usize];
    let mut strings = [0u8; 12544];
    let marks = [1u8; 18];
    put_bytes(&mut range, SLOT_MARKS, &marks);
    lay_all_extras(&mut range);
    lay_entries(&mut range, &mut strings, 49);
    let mut exact = [0u8; LARGEST_LENGTH as usize];
    show_large(rt, name, &range, &strings, &mut exact)?;
    let mut small = [0u8; 13709];
    show_large(rt, name, &range, &strings, &mut small)
}

fn run(console: &Console) -> std::io::Result<()> {
    let mut input = io::buffer();
    let n = io::read_full(0, &mut input);
    long_name(console, 223)?;
    long_name(console, 224)?;
    case_5_rooms(console, part(&input, 0, n))?;
    largest_named(console)?;
    largest(console)
}

fn main() {
    // (The console gives no error.)
    let _ = run(&Console);
}
