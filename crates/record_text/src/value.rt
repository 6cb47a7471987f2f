// The value of a field, from text to the bytes that it has in a record, and back. A value that is read is its bytes, with zeros
// behind them up to 16.
ghost use Rattle.std.specs.Prelude.{◌≡◌, ◌<◌, true, length, option_map};
ghost use Rattle.octets.specs.Octets.{le16};
ghost use Rattle.text.specs.Words.{read_word_set};
ghost use Rattle.notation.specs.Mac.{read_mac};
ghost use Rattle.notation.specs.Pci.{read_pci};
ghost use Rattle.notation.specs.Value.{value_read};
ghost use Rattle.record_text.specs.Value.{word_byte, set_byte, fits, value_bytes, field_bytes};
ghost use Rattle.record_text.specs.Fields.{group_of};

use crate::fields::{CHAP_TYPES, MODES, Notation, field_at, flags_of};
use notation::address::read_address;
use notation::mac::read_mac;
use notation::pci::read_pci;
use notation::value::{number_value, string_value};
use octets::read::array_at;
use text::words::{read_word_set, word_count, word_number};

// A word of the list as its number.
fn word_value(list: &[u8], text: &[u8]) -> Option<[u8; 16]>
    requires { length list.now < 255 }
    ensures { result ≡ value_read (word_byte list.now text.now) }
{
    let n = word_number(list, text);
    if word_count(list) <= n {
        return None;
    }
    Some(array_at(&[n as u8], 0))
}

// A MAC address.
fn mac_value(text: &[u8]) -> Option<[u8; 16]>
    ensures { result ≡ value_read (read_mac text.now) }
{
    let bytes = read_mac(text)?;
    Some(array_at(&bytes, 0))
}

// A PCI address.
fn pci_value(text: &[u8]) -> Option<[u8; 16]>
    ensures { result ≡ value_read (option_map le16 (read_pci text.now)) }
{
    let word = read_pci(text)?;
    Some(array_at(&word.to_le_bytes(), 0))
}

// The flags of a kind.
fn flags_value(kind: u8, text: &[u8]) -> Option<[u8; 16]>
    ensures { result ≡ value_read (set_byte (read_word_set (group_of kind).flags text.now)) }
{
    let set = read_word_set(flags_of(kind), text)?;
    Some(array_at(&[set], 0))
}

// The value of a kind's field that is written so and has so many bytes.
fn value_as(notation: Notation, width: u8, kind: u8, text: &[u8]) -> Option<[u8; 16]>
    requires { fits notation width ≡ true }
    ensures { result ≡ value_read (value_bytes (group_of kind).flags notation width text.now) }
{
    match notation {
        Notation::Oem => string_value(width, text),
        Notation::Mode => word_value(&MODES, text),
        Notation::Flags => flags_value(kind, text),
        Notation::Number => number_value(width, text),
        Notation::Port => number_value(width, text),
        Notation::Address => read_address(text),
        Notation::Mac => mac_value(text),
        Notation::Pci => pci_value(text),
        Notation::Chap => word_value(&CHAP_TYPES, text),
        Notation::Text => None,
    }
}

// The value of field n of a kind with this text; a string, which stands in the strings range, has none here.
pub fn read_value(kind: u8, n: u8, text: &[u8]) -> Option<[u8; 16]>
    ensures { result ≡ value_read (field_bytes kind n text.now) }
{
    let field = field_at(kind, n);
    value_as(field.notation, field.width, kind, text)
}
