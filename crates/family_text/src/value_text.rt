// The text of a field's value, put into room.
ghost use Rattle.text.specs.Put.{Puts};
ghost use Rattle.family_text.specs.Value.{oem_text, value_text};

use crate::fields::Notation;
use notation::address::put_address;
use notation::escape::put_string_text;
use notation::number::put_decimal;
use notation::pairs::put_pairs;
use octets::read::u16_at;
use text::split::index_of;

// The string of an OEM field: its bytes before the first zero.
fn put_oem(room: &mut [u8], at: usize, bytes: &[u8]) -> usize
    ensures { Puts room.old room.new at result (oem_text bytes.now) }
{
    let n = index_of(bytes, 0);
    put_string_text(room, at, &bytes[..n])
}

// Puts the value of a field that is written so and has so many bytes, these; answers the place behind it.
pub fn put_value(room: &mut [u8], at: usize, notation: Notation, width: u8, bytes: &[u8]) -> usize
    ensures { Puts room.old room.new at result (value_text notation width bytes.now) }
{
    match notation {
        Notation::Oem => put_oem(room, at, bytes),
        Notation::Number => put_decimal(room, at, u16_at(bytes, 0) as u64),
        Notation::Pairs => put_pairs(room, at, width as usize, bytes),
        Notation::Address => put_address(room, at, bytes),
    }
}
