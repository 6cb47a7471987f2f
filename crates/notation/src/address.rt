// An IP address of 16 bytes, read from text and put as text. Bytes are gathered in room of one byte more than they may be: a
// text that is not of the form, and one of too many bytes, both end at the room's end. (No Option there: a full room settles
// the answer before the rest is read, and an Option would have to tell which of the two it is.)
ghost use Rattle.std.specs.Prelude.{◌≡◌, ◌+◌, ◌≤◌, ◌<◌, length};
ghost use Rattle.octets.specs.Octets.{bytes_at};
ghost use Rattle.text.specs.Put.{Puts};
ghost use Rattle.text.specs.Split.{pieces};
ghost use Rattle.notation.specs.Address.{dot, short, bytes_of, decimal, four_bytes, group, last_group, groups, side, gap_at, with_gap};
ghost use Rattle.notation.specs.Address.{without_gap, read_six, mapped_four, read_address, group_at, zero_run, longest};
ghost use Rattle.notation.specs.Address.{six_text, is_mapped, address_text};
ghost use Rattle.notation.specs.AddressSteps.{Gathers, separator, number_text, numbers_text};

use crate::number::{put_decimal, put_hex, read_numeral};
use octets::read::{array_at, byte_at, part};
use octets::write::put_bytes;
use text::put::{put_char, put_text};
use text::split::index_of;

// Groups of an address: the first of them, and how many they are.
#[derive(Clone, Copy)]
struct Run {
    start: u8,
    size: u8,
}

// ---- reading

// The number of one to `most` digits, where it is at most max.
fn short_numeral(base: u8, most: usize, max: u64, s: &[u8]) -> Option<u64>
    ensures { result ≡ short base most max s.now }
{
    if most < s.len() {
        return None;
    }
    read_numeral(base, max, s)
}

// Puts the byte that s is in decimal.
fn gather_decimal(room: &mut [u8], at: usize, s: &[u8]) -> usize
    ensures { Gathers room.old room.new at result (decimal s.now) }
{
    let Some(v) = short_numeral(10, 3, 255, s) else {
        return room.len();
    };
    put_char(room, at, v as u8)
}

// Puts the bytes that s is, decimal numbers with dots between. (A full room ends it: the answer is settled.)
fn gather_decimals(room: &mut [u8], at: usize, s: &[u8]) -> usize
    ensures { Gathers room.old room.new at result (bytes_of decimal decimal (pieces dot s.now)) }
{
    let n = index_of(s, b'.');
    if n == s.len() {
        return gather_decimal(room, at, s);
    }
    let end = gather_decimal(room, at, &s[..n]);
    if room.len() <= end {
        return end;
    }
    let next = n + 1;
    gather_decimals(room, end, &s[next..])
}

// The four bytes that s is as IPv4.
fn read_four(s: &[u8]) -> Option<[u8; 4]>
    ensures { result ≡ four_bytes s.now }
{
    let mut room = [0u8; 5];
    if gather_decimals(&mut room, 0, s) != 4 {
        return None;
    }
    Some(array_at(&room, 0))
}

// Puts the two bytes that s is as a group.
fn gather_group(room: &mut [u8], at: usize, s: &[u8]) -> usize
    ensures { Gathers room.old room.new at result (group s.now) }
{
    let Some(v) = short_numeral(16, 4, 65535, s) else {
        return room.len();
    };
    put_text(room, at, &(v as u16).to_be_bytes())
}

// Puts the bytes that s is as the last group: as IPv4 where it holds a dot and `four` allows it.
fn gather_last(room: &mut [u8], at: usize, s: &[u8], four: bool) -> usize
    ensures { Gathers room.old room.new at result (last_group four s.now) }
{
    if !four {
        return gather_group(room, at, s);
    }
    if s.len() <= index_of(s, b'.') {
        return gather_group(room, at, s);
    }
    match read_four(s) {
        Some(bytes) => put_text(room, at, &bytes),
        None => room.len(),
    }
}

// Puts the bytes that s is, groups with colons between. (A full room ends it: the answer is settled. Not one function with
// `gather_decimals`: the last group has a rule of its own, which calls that, so it would call itself through a closure.)
fn gather_groups(room: &mut [u8], at: usize, s: &[u8], four: bool) -> usize
    ensures { Gathers room.old room.new at result (groups four s.now) }
{
    let n = index_of(s, b':');
    if n == s.len() {
        return gather_last(room, at, s, four);
    }
    let end = gather_group(room, at, &s[..n]);
    if room.len() <= end {
        return end;
    }
    let next = n + 1;
    gather_groups(room, end, &s[next..], four)
}

// Puts the bytes that s is, groups with colons between or nothing, from the room's start on.
fn gather_side(room: &mut [u8], s: &[u8], four: bool) -> usize
    ensures { Gathers room.old room.new 0 result (side four s.now) }
{
    if s.len() == 0 {
        return 0;
    }
    gather_groups(room, 0, s, four)
}

// The place of the first `::`, or the length where there is none. (`&`, not `&&`: neither side can fail, so there is one path
// to prove.)
fn gap_at(s: &[u8]) -> usize
    ensures { result ≡ gap_at s.now }
{
    for (k, b) in s.iter().enumerate() {
        if (*b == b':') & (byte_at(s, k + 1) == b':') {
            return k;
        }
    }
    s.len()
}

// The address that s is as IPv6 without `::`.
fn read_plain(s: &[u8]) -> Option<[u8; 16]>
    ensures { result ≡ without_gap s.now }
{
    let mut room = [0u8; 17];
    if gather_groups(&mut room, 0, s, true) != 16 {
        return None;
    }
    Some(array_at(&room, 0))
}

// The address that s is as IPv6 with `::` at `gap`: the bytes before it from the start on, those behind it up to the end.
fn read_around(s: &[u8], gap: usize) -> Option<[u8; 16]>
    requires { gap < length s.now }
    ensures { result ≡ with_gap s.now gap }
{
    let mut room = [0u8; 17];
    let mut back = [0u8; 17];
    let n = gather_side(&mut room, part(s, 0, gap), false);
    let m = gather_side(&mut back, part(s, gap + 2, s.len()), true);
    if 14 < n + m {
        return None;
    }
    put_bytes(&mut room, 16 - m, part(&back, 0, m));
    Some(array_at(&room, 0))
}

// The address that s is as IPv6.
fn read_six(s: &[u8]) -> Option<[u8; 16]>
    ensures { result ≡ read_six s.now }
{
    let gap = gap_at(s);
    if gap < s.len() {
        return read_around(s, gap);
    }
    read_plain(s)
}

// The IPv4-mapped address that s is as IPv4.
fn read_mapped(s: &[u8]) -> Option<[u8; 16]>
    ensures { result ≡ mapped_four (four_bytes s.now) }
{
    let b = read_four(s)?;
    Some([
        0, 0, 0, 0, 0, 0, 0, 0, 0, 0, 255, 255, b[0], b[1], b[2], b[3],
    ])
}

// The address that s is: IPv6 where it holds a colon, IPv4 where it holds none.
pub fn read_address(s: &[u8]) -> Option<[u8; 16]>
    ensures { result ≡ read_address s.now }
{
    if index_of(s, b':') < s.len() {
        return read_six(s);
    }
    read_mapped(s)
}

// ---- writing

// The k-th group of the address a.
fn group_at(a: &[u8], k: u8) -> u16
    ensures { result ≡ group_at a.now k }
{
    let place = 2 * k as usize;
    u16::from_be_bytes([byte_at(a, place), byte_at(a, place + 1)])
}

// How many of the n groups from k on are zero before the first that is not.
fn zero_run(a: &[u8], k: u8, n: u8) -> u8
    requires { k + n ≤ 8 }
    ensures { result ≡ zero_run a.now k n }
{
    for j in 0..n {
        if group_at(a, k + j) != 0 {
            return j;
        }
    }
    n
}

// The first of the longest runs of zero groups among the n groups from k on.
fn longest_run(a: &[u8], k: u8, n: u8) -> Run
    requires { k + n ≤ 8 }
    ensures { result ≡ longest a.now k n }
{
    let mut best = Run { start: k, size: 0 };
    for j in 0..n {
        let size = zero_run(a, k + j, n - j);
        if best.size < size {
            best = Run { start: k + j, size };
        }
    }
    best
}

// Is the address IPv4-mapped?
#[tactic(auto, unfolding(crate::specs::Address::is_mapped))]
fn is_mapped(a: &[u8]) -> bool
    ensures { result ≡ is_mapped a.now }
{
    (zero_run(a, 0, 8) == 5) & (group_at(a, 5) == 65535)
}

// The byte between two numbers of an address: as IPv4 the dot, else the colon.
fn separator(four: bool) -> u8
    ensures { result ≡ separator four }
{
    if four {
        return b'.';
    }
    b':'
}

// Puts the k-th number of the address a at `at`: as IPv4 a byte in decimal, else a group in hexadecimal digits.
fn put_number(room: &mut [u8], at: usize, a: &[u8], four: bool, k: u8) -> usize
    ensures { Puts room.old room.new at result (number_text a.now four k) }
{
    if four {
        return put_decimal(room, at, byte_at(a, k as usize) as u64);
    }
    put_hex(room, at, group_at(a, k) as u64)
}

// Puts the n numbers from k on at `at`, with separators between. (No text first: `end` lies in the room where `at` does not.)
fn put_numbers(room: &mut [u8], at: usize, a: &[u8], four: bool, k: u8, n: u8) -> usize
    requires { k + n ≤ 16 }
    ensures { Puts room.old room.new at result (numbers_text a.now four k n) }
{
    let mut end = put_text(room, at, b"");
    for i in 0..n {
        if i != 0 {
            end = put_char(room, end, separator(four));
        }
        end = put_number(room, end, a, four, k + i);
    }
    end
}

// Puts the address a as IPv6 at `at`, the run of zero groups as `::` where they are two or more.
fn put_six(room: &mut [u8], at: usize, a: &[u8], run: Run) -> usize
    requires { run.start + run.size ≤ 8 }
    ensures { Puts room.old room.new at result (six_text a.now run) }
{
    if run.size < 2 {
        return put_numbers(room, at, a, false, 0, 8);
    }
    let end = put_numbers(room, at, a, false, 0, run.start);
    let next = put_text(room, end, b"::");
    let behind = run.start + run.size;
    put_numbers(room, next, a, false, behind, 8 - behind)
}

// Puts the text of the address of the first 16 bytes at `at` (a byte that is missing is 0); answers the place behind it.
pub fn put_address(room: &mut [u8], at: usize, bytes: &[u8]) -> usize
    ensures { Puts room.old room.new at result (address_text (bytes_at bytes.now 0 16)) }
{
    let a: [u8; 16] = array_at(bytes, 0);
    if is_mapped(&a) {
        return put_numbers(room, at, &a, true, 12, 4);
    }
    let run = longest_run(&a, 0, 8);
    put_six(room, at, &a, run)
}
