// The value of a field, from text to the bytes that it has in a table.
ghost use Rattle.std.specs.Prelude.{◌≡◌, true};
ghost use Rattle.notation.specs.Value.{value_read};
ghost use Rattle.family_text.specs.Value.{fits, value_bytes, field_bytes};

use crate::fields::{Notation, field_at};
use notation::address::read_address;
use notation::value::{number_value, pairs_value, string_value};

// The value of a field that is written so and has so many bytes.
fn value_as(notation: Notation, width: u8, text: &[u8]) -> Option<[u8; 16]>
    requires { fits notation width ≡ true }
    ensures { result ≡ value_read (value_bytes notation width text.now) }
{
    match notation {
        Notation::Oem => string_value(width, text),
        Notation::Number => number_value(width, text),
        Notation::Pairs => pairs_value(width, text),
        Notation::Address => read_address(text),
    }
}

// The value of a family's field n with this text: its bytes, and zeros behind them.
pub fn read_value(family: u8, n: u8, text: &[u8]) -> Option<[u8; 16]>
    ensures { result ≡ value_read (field_bytes family n text.now) }
{
    let field = field_at(family, n);
    value_as(field.notation, field.width, text)
}
