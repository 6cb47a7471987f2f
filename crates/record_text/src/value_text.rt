// The text of a field's value, put into room.
ghost use Rattle.text.specs.Put.{Puts};
ghost use Rattle.text.specs.Words.{word_at};
ghost use Rattle.record_text.specs.Fields.{group_of};
ghost use Rattle.record_text.specs.Value.{oem_text, value_text, field_text};

use crate::fields::{CHAP_TYPES, MODES, Notation, field_at, flags_of};
use notation::address::put_address;
use notation::escape::put_string_text;
use notation::mac::put_mac;
use notation::number::put_decimal;
use notation::pci::put_pci;
use octets::read::{byte_at, u16_at, u64_at};
use text::put::put_text;
use text::split::index_of;
use text::words::{put_word_set, word_at};

// The string of an OEM field: its bytes before the first zero.
fn put_oem(room: &mut [u8], at: usize, bytes: &[u8]) -> usize
    ensures { Puts room.old room.new at result (oem_text bytes.now) }
{
    let n = index_of(bytes, 0);
    put_string_text(room, at, &bytes[..n])
}

// Word n of the list.
fn put_word(room: &mut [u8], at: usize, list: &[u8], n: u8) -> usize
    ensures { Puts room.old room.new at result (word_at list.now n) }
{
    put_text(room, at, word_at(list, n as usize))
}

// The value of a kind's field that is written so.
fn put_as(room: &mut [u8], at: usize, notation: Notation, kind: u8, bytes: &[u8]) -> usize
    ensures { Puts room.old room.new at result (value_text (group_of kind).flags notation bytes.now) }
{
    match notation {
        Notation::Oem => put_oem(room, at, bytes),
        Notation::Mode => put_word(room, at, &MODES, byte_at(bytes, 0)),
        Notation::Flags => put_word_set(room, at, flags_of(kind), byte_at(bytes, 0)),
        Notation::Number => put_decimal(room, at, u64_at(bytes, 0)),
        Notation::Port => put_decimal(room, at, u64_at(bytes, 0)),
        Notation::Address => put_address(room, at, bytes),
        Notation::Mac => put_mac(room, at, bytes),
        Notation::Pci => put_pci(room, at, u16_at(bytes, 0)),
        Notation::Chap => put_word(room, at, &CHAP_TYPES, byte_at(bytes, 0)),
        Notation::Text => put_string_text(room, at, bytes),
    }
}

// Puts the value of field n of a kind that has these bytes.
pub fn put_value(room: &mut [u8], at: usize, kind: u8, n: u8, bytes: &[u8]) -> usize
    ensures { Puts room.old room.new at result (field_text kind n bytes.now) }
{
    let field = field_at(kind, n);
    let notation = field.notation;
    put_as(room, at, notation, kind, bytes)
}
