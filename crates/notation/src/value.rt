// Values of the fields of tables and records, from text to bytes. A value is answered as 16 bytes, zeros behind those that it
// has. No value has a width of more than 16 bytes.
ghost use Rattle.std.specs.Prelude.{◌≡◌, ◌-◌, ◌^◌, Some, None, cond};
ghost use Rattle.notation.specs.Value.{is_width, number_value, pairs_value, string_value};

use crate::escape::{put_string, string_length};
use crate::number::read_number;
use crate::pairs::read_pairs;
use octets::read::array_at;

// The largest number of so many bytes, where numbers have that width.
fn largest(width: u8) -> Option<u64>
    ensures { result ≡ cond (is_width width) (Some (256 ^ width - 1)) None }
{
    match width {
        1 => Some(0xFF),
        2 => Some(0xFFFF),
        8 => Some(u64::MAX),
        _ => None,
    }
}

// A number of so many bytes, the lowest first.
pub fn number_value(width: u8, text: &[u8]) -> Option<[u8; 16]>
    ensures { result ≡ number_value width text.now }
{
    let n = read_number(largest(width)?, text)?;
    Some(array_at(&n.to_le_bytes(), 0))
}

// A string of at most so many bytes.
pub fn string_value(width: u8, text: &[u8]) -> Option<[u8; 16]>
    ensures { result ≡ string_value width text.now }
{
    if 16 < width {
        return None;
    }
    let size = string_length(text)?;
    if (width as usize) < size {
        return None;
    }
    let mut bytes = [0u8; 16];
    put_string(&mut bytes, 0, text);
    Some(bytes)
}

// So many bytes as pairs of hexadecimal digits.
pub fn pairs_value(width: u8, text: &[u8]) -> Option<[u8; 16]>
    ensures { result ≡ pairs_value width text.now }
{
    if 16 < width {
        return None;
    }
    let mut pairs = [0u8; 16];
    if !read_pairs(text, &mut pairs[..width as usize]) {
        return None;
    }
    Some(pairs)
}
