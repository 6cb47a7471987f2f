// Numbers as they are written: digits in a base of at most 16, read and put.
ghost use Rattle.std.specs.Prelude.{◌≡◌, ◌+◌, ◌≤◌};
ghost use Rattle.text.specs.Put.{Puts};
ghost use Rattle.notation.specs.Number.{hex_digit, below, digit, with_digit, numeral_up_to, number_up_to, hex_byte_at, digit_byte, digits, padded};

use octets::read::{byte_at, part};
use text::put::put_char;

// The value of a hexadecimal digit.
#[tactic(auto, unfolding(crate::specs::Number::hex_digit))]
fn hex_digit(b: u8) -> Option<u64>
    ensures { result ≡ hex_digit b }
{
    match b {
        b'0'..=b'9' => Some((b - b'0') as u64),
        b'a'..=b'f' => Some((b - b'a') as u64 + 10),
        b'A'..=b'F' => Some((b - b'A') as u64 + 10),
        _ => None,
    }
}

// The value of a digit in the base.
#[tactic(auto, unfolding(crate::specs::Number::below, crate::specs::Number::digit))]
pub(crate) fn digit_value(base: u8, b: u8) -> Option<u64>
    ensures { result ≡ digit base b }
{
    let d = hex_digit(b)?;
    if d < base as u64 { Some(d) } else { None }
}

// n with the digit b behind it, where it is at most max.
fn with_digit(base: u8, max: u64, n: u64, b: u8) -> Option<u64>
    ensures { result ≡ below (max + 1) (with_digit base n b) }
{
    let d = digit_value(base, b)?;
    let more = n.checked_mul(base as u64)?.checked_add(d)?;
    if more <= max { Some(more) } else { None }
}

// The number that s is in digits of the base, where it is at most max. (A number only grows with its digits: once it passes
// max, the answer is settled.)
pub fn read_numeral(base: u8, max: u64, s: &[u8]) -> Option<u64>
    ensures { result ≡ numeral_up_to base max s.now }
{
    if s.len() == 0 {
        return None;
    }
    let mut n: u64 = 0;
    for b in s {
        n = with_digit(base, max, n, *b)?;
    }
    Some(n)
}

// The number that s is, in decimal digits, or in hexadecimal ones behind 0x, where it is at most max.
pub fn read_number(max: u64, s: &[u8]) -> Option<u64>
    ensures { result ≡ number_up_to max s.now }
{
    if (byte_at(s, 0) == b'0') & (byte_at(s, 1) == b'x') {
        return read_numeral(16, max, part(s, 2, s.len()));
    }
    read_numeral(10, max, s)
}

// The byte that the two hexadecimal digits at `at` are. (No slice ends at the last `usize`, so at + 1 cannot wrap below its
// end.)
pub fn read_hex_byte(s: &[u8], at: usize) -> Option<u64>
    ensures { result ≡ hex_byte_at s.now at }
{
    if s.len() <= at {
        return None;
    }
    let pair = [byte_at(s, at), byte_at(s, at + 1)];
    read_numeral(16, 255, &pair[..])
}

// The byte of a digit.
pub(crate) fn digit_byte(d: u64) -> u8
    ensures { result ≡ digit_byte d }
{
    byte_at(b"0123456789abcdef", d as usize)
}

// Puts the digits of n at `at`: all but the last, and the last; answers the place behind them.
fn put_digits(room: &mut [u8], at: usize, base: u64, n: u64) -> usize
    requires { 2 ≤ base }
    ensures { Puts room.old room.new at result (digits base n) }
{
    if n < base {
        return put_char(room, at, digit_byte(n));
    }
    let last = put_digits(room, at, base, n / base);
    put_char(room, last, digit_byte(n % base))
}

// Puts n in decimal digits at `at`; answers the place behind them.
pub fn put_decimal(room: &mut [u8], at: usize, n: u64) -> usize
    ensures { Puts room.old room.new at result (digits 10 n) }
{
    put_digits(room, at, 10, n)
}

// Puts n in hexadecimal digits at `at`; answers the place behind them.
pub fn put_hex(room: &mut [u8], at: usize, n: u64) -> usize
    ensures { Puts room.old room.new at result (digits 16 n) }
{
    put_digits(room, at, 16, n)
}

// Puts b in two hexadecimal digits at `at`; answers the place behind them.
pub fn put_hex_byte(room: &mut [u8], at: usize, b: u8) -> usize
    ensures { Puts room.old room.new at result (padded 2 16 b) }
{
    let last = put_char(room, at, digit_byte((b / 16) as u64));
    put_char(room, last, digit_byte((b % 16) as u64))
}
