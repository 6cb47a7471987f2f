// Bytes as they are written: pairs of hexadecimal digits with colons between.
ghost use Rattle.std.specs.Prelude.{◌≡◌, true, ◌-◌, ◌≤◌, length};
ghost use Rattle.text.specs.Put.{Puts};
ghost use Rattle.notation.specs.Pairs.{pairs_form, read_pairs, is_read, read_into, pair_at, colon_pair, colon_pairs, pairs_text};

use crate::number::{put_hex_byte, read_hex_byte};
use octets::read::byte_at;
use text::put::put_char;

// Whether s has the bytes of n pairs, and a colon behind each pair but the last.
fn pairs_form(n: usize, s: &[u8]) -> bool
    ensures { result ≡ pairs_form n s.now }
{
    if s.len() % 3 != 2 {
        return false;
    }
    if s.len() / 3 + 1 != n {
        return false;
    }
    for k in 0..n - 1 {
        if s[3 * k + 2] != b':' {
            return false;
        }
    }
    true
}

// Whether s is n pairs.
fn is_pairs(n: usize, s: &[u8]) -> bool
    ensures { result ≡ is_read (read_pairs n s.now) }
{
    if !pairs_form(n, s) {
        return false;
    }
    for k in 0..n {
        if read_hex_byte(s, 3 * k).is_none() {
            return false;
        }
    }
    true
}

// The byte that the pair at `at` is; 0 where there is no pair.
fn pair_at(s: &[u8], at: usize) -> u8
    ensures { result ≡ pair_at s.now at }
{
    read_hex_byte(s, at).unwrap_or(0) as u8
}

// Reads as many pairs as bytes are lent. Where s is not so many pairs, the bytes stay as they were. (A bool beside lent bytes:
// how many they are is settled at run time, as `pairs_value` has it, so no array can be answered.)
pub fn read_pairs(s: &[u8], bytes: &mut [u8]) -> bool
    ensures { (result ≡ is_read (read_pairs (length bytes.old) s.now))
        × (bytes.new ≡ read_into bytes.old (read_pairs (length bytes.old) s.now)) }
{
    if !is_pairs(bytes.len(), s) {
        return false;
    }
    for k in 0..bytes.len() {
        bytes[k] = pair_at(s, 3 * k);
    }
    true
}

// Puts a colon and the byte b at `at`; answers the place behind them.
fn put_colon_pair(room: &mut [u8], at: usize, b: u8) -> usize
    ensures { Puts room.old room.new at result (colon_pair b) }
{
    let next = put_char(room, at, b':');
    put_hex_byte(room, next, b)
}

// Puts the bytes from 1 to before n at `at`, a colon before each; answers the place behind them.
fn put_colon_pairs(room: &mut [u8], at: usize, n: usize, bytes: &[u8]) -> usize
    requires { at ≤ length room.old }
    ensures { Puts room.old room.new at result (colon_pairs bytes.now (n - 1)) }
{
    let mut end = at;
    for k in 1..n {
        end = put_colon_pair(room, end, byte_at(bytes, k));
    }
    end
}

// Puts the text of n bytes at `at`, at least of one, a byte that is missing as 0; answers the place behind it.
pub fn put_pairs(room: &mut [u8], at: usize, n: usize, bytes: &[u8]) -> usize
    ensures { Puts room.old room.new at result (pairs_text n bytes.now) }
{
    let next = put_hex_byte(room, at, byte_at(bytes, 0));
    put_colon_pairs(room, next, n, bytes)
}
