// The fields of a record text, as data. A field is named by the kind of its group, the group's Index where the kind has one,
// and its number in the group. Where a structure's fields stand, and which of its strings are secrets, is the table's layout
// (ibft_layout); here is added what they are called and how their values are written.
ghost use Rattle.std.specs.Prelude.{◌≡◌, ◌+◌, ◌≤◌, ◌<◌, length};
ghost use Rattle.text.specs.Put.{Puts};
ghost use Rattle.text.specs.Split.{before, same};
ghost use Rattle.text.specs.Words.{word_at, word_number};
ghost use Rattle.notation.specs.Number.{digits};
ghost use Rattle.ibft_layout.specs.Shapes.{field_shape};
ghost use Rattle.record_text.specs.Fields.{oem, initiator, nic, target, group_of, field_count, plain_count, is_text, is_oem, is_always};
ghost use Rattle.record_text.specs.Fields.{notation_in, place_in, is_secret, field_of, index_text, dotted, name_of, index_in, is_digit};
ghost use Rattle.record_text.specs.Fields.{found_in, field_named};

use ibft_build_rules::range::{CONTROL_FLAGS_AT, OEM_AT};
use ibft_layout::layout::{field_of, first_entry, may_share};
use ibft_layout::shape::FieldShape;
use notation::number::{put_decimal, read_number};
use octets::read::part;
use text::put::{put_char, put_text};
use text::split::{index_of, same};
use text::words::{word_at, word_number};

// How a field's value is written.
#[derive(Clone, Copy)]
pub enum Notation {
    Oem,
    Mode,
    Flags,
    Number,
    Port,
    Address,
    Mac,
    Pci,
    Chap,
    Text,
}

// A field: how its value is written; where it stands, for a structure's field in the structure's image, else in the record
// range; how many bytes it has there (a string's are its two words).
#[derive(Clone, Copy)]
pub struct FieldLayout {
    pub notation: Notation,
    pub at: u16,
    pub width: u8,
}

// A field by name: the kind of its group, the group's Index (0 where the kind has none), its number in the group.
#[derive(Clone, Copy)]
pub struct FieldName {
    pub kind: u8,
    pub index: u8,
    pub field: u8,
}

// ---- kinds of group: the header's is 0, every other has its structure's ID

pub(crate) const KIND_COUNT: u8 = 5;

// The first kind that is a structure of its own, and the first whose groups have an Index.
pub(crate) const FIRST_STRUCTURE: u8 = 2;

pub(crate) const FIRST_INDEXED: u8 = 3;

// Their names, the names of the fields of each, and the names of the structures' flags.
const GROUP_NAMES: [u8; 32] = *b"oem control initiator nic target";

const OEM_NAMES: [u8; 8] = *b"id table";

const CONTROL_NAMES: [u8; 0] = *b"";

const INITIATOR_NAMES: [u8; 35] = *b"flags isns slp radius1 radius2 name";

const NIC_NAMES: [u8; 68] =
    *b"flags address prefix origin gateway dns1 dns2 dhcp vlan mac pci host";

const TARGET_NAMES: [u8; 86] =
    *b"flags address port lun chap nic name chap-name chap-secret reverse-name reverse-secret";

pub const INITIATOR_FLAGS: [u8; 14] = *b"valid selected";

pub const NIC_FLAGS: [u8; 21] = *b"valid selected global";

pub const TARGET_FLAGS: [u8; 39] = *b"valid selected radius-chap radius-rchap";

// The words of the login mode and of the CHAP type.
pub(crate) const MODES: [u8; 12] = *b"multi single";

pub(crate) const CHAP_TYPES: [u8; 19] = *b"none one-way mutual";

// The names of a kind's flags; of a kind that is no structure's, none.
pub(crate) fn flags_of(kind: u8) -> &'static [u8]
    ensures { result.now ≡ (group_of kind).flags }
{
    match kind {
        2 => &INITIATOR_FLAGS,
        3 => &NIC_FLAGS,
        4 => &TARGET_FLAGS,
        _ => b"",
    }
}

// ---- notations

// Is it a string, which stands in the strings range?
pub fn is_text(notation: Notation) -> bool
    ensures { result ≡ is_text notation }
{
    matches!(notation, Notation::Text)
}

// Is it an OEM field?
pub fn is_oem(notation: Notation) -> bool
    ensures { result ≡ is_oem notation }
{
    matches!(notation, Notation::Oem)
}

// Is such a field told where it is zero, too?
pub fn is_always(notation: Notation) -> bool
    ensures { result ≡ is_always notation }
{
    matches!(notation, Notation::Mode | Notation::Flags | Notation::Port)
}

// How the value of an initiator's field n is written; past the last, as its first's.
fn initiator_notation(n: u8) -> Notation
    ensures { result ≡ notation_in initiator n }
{
    match n {
        1 => Notation::Address,
        2 => Notation::Address,
        3 => Notation::Address,
        4 => Notation::Address,
        5 => Notation::Text,
        _ => Notation::Flags,
    }
}

// .. of a NIC's.
fn nic_notation(n: u8) -> Notation
    ensures { result ≡ notation_in nic n }
{
    match n {
        1 => Notation::Address,
        2 => Notation::Number,
        3 => Notation::Number,
        4 => Notation::Address,
        5 => Notation::Address,
        6 => Notation::Address,
        7 => Notation::Address,
        8 => Notation::Number,
        9 => Notation::Mac,
        10 => Notation::Pci,
        11 => Notation::Text,
        _ => Notation::Flags,
    }
}

// .. of a target's.
fn target_notation(n: u8) -> Notation
    ensures { result ≡ notation_in target n }
{
    match n {
        1 => Notation::Address,
        2 => Notation::Port,
        3 => Notation::Number,
        4 => Notation::Chap,
        5 => Notation::Number,
        6 => Notation::Text,
        7 => Notation::Text,
        8 => Notation::Text,
        9 => Notation::Text,
        10 => Notation::Text,
        _ => Notation::Flags,
    }
}

// .. of a kind's.
fn notation_of(kind: u8, n: u8) -> Notation
    ensures { result ≡ notation_in (group_of kind) n }
{
    match kind {
        1 => Notation::Mode,
        2 => initiator_notation(n),
        3 => nic_notation(n),
        4 => target_notation(n),
        _ => Notation::Oem,
    }
}

// ---- fields

// Where the header's fields stand in the record range.
const OEM_ID: FieldShape = FieldShape {
    at: OEM_AT,
    width: 6,
};

const OEM_TABLE_ID: FieldShape = FieldShape {
    at: OEM_AT + 6,
    width: 8,
};

// Field n of the header; past the last, the first.
fn oem_place(n: u8) -> FieldShape
    ensures { result ≡ field_shape (place_in oem n) }
{
    match n {
        1 => OEM_TABLE_ID,
        _ => OEM_ID,
    }
}

// Where field n of a kind stands. (Slots 0, 1 and 2 have a structure of each kind.)
fn field_shape(kind: u8, n: u8) -> FieldShape
    ensures { result ≡ field_shape (place_in (group_of kind) n) }
{
    match kind {
        1 => FieldShape {
            at: CONTROL_FLAGS_AT,
            width: 1,
        },
        2 => field_of(0, n),
        3 => field_of(1, n),
        4 => field_of(2, n),
        _ => oem_place(n),
    }
}

// Field n of a kind; past the last, its first.
pub fn field_at(kind: u8, n: u8) -> FieldLayout
    ensures { result ≡ field_of kind n }
{
    let notation = notation_of(kind, n);
    let place = field_shape(kind, n);
    FieldLayout {
        notation,
        at: place.at,
        width: place.width,
    }
}

// How many fields a kind has; past the last kind, the header's.
pub fn field_count(kind: u8) -> u8
    ensures { (result ≡ field_count kind) × (result ≤ 12) }
{
    match kind {
        1 => 1,
        2 => 6,
        3 => 12,
        4 => 11,
        _ => 2,
    }
}

// How many of them are no strings: these stand before the strings.
pub fn plain_count(kind: u8) -> u8
    ensures { (result ≡ plain_count kind) × (result ≤ 12) }
{
    match kind {
        1 => 1,
        2 => 5,
        3 => 11,
        4 => 6,
        _ => 2,
    }
}

// Is field n of a kind a secret, as the layout says of that string? (Slots 0, 1 and 2 have a structure of each kind.)
pub fn is_secret(kind: u8, n: u8) -> bool
    ensures { result ≡ is_secret kind n }
{
    let plain = plain_count(kind);
    if n < plain {
        return false;
    }
    if field_count(kind) <= n {
        return false;
    }
    !may_share(first_entry(kind - FIRST_STRUCTURE) + (n - plain) as u16)
}

// ---- names

// The names of a kind's fields; past the last kind, the header's.
fn names_of(kind: u8) -> &'static [u8]
    ensures { result.now ≡ (group_of kind).names }
{
    match kind {
        1 => &CONTROL_NAMES,
        2 => &INITIATOR_NAMES,
        3 => &NIC_NAMES,
        4 => &TARGET_NAMES,
        _ => &OEM_NAMES,
    }
}

// Is the number written as it is told: decimal, without a zero in front?
fn is_told(n: u64, text: &[u8]) -> bool
    requires { n < 256 }
    ensures { result ≡ same (digits 10 n) text.now }
{
    let mut room = [0u8; 4];
    let end = put_decimal(&mut room, 0, n);
    same(part(&room, 0, end), text)
}

// The Index that stands behind a kind's name.
fn index_in(kind: u8, text: &[u8]) -> Option<u64>
    ensures { result ≡ index_in kind text.now }
{
    if kind < FIRST_INDEXED {
        if text.len() == 0 {
            return Some(0);
        }
        return None;
    }
    let n = read_number(255, text)?;
    if is_told(n, text) { Some(n) } else { None }
}

// How many bytes stand before the first decimal digit.
fn before_digit(s: &[u8]) -> usize
    ensures { (result ≡ before is_digit s.now) × (result ≤ length s.now) }
{
    s.iter().position(|b| b.is_ascii_digit()).unwrap_or(s.len())
}

// The field of this name in the group of this name.
fn found_in(group: &[u8], own: &[u8]) -> Option<FieldName>
    ensures { result ≡ found_in group.now own.now }
{
    let letters = before_digit(group);
    let kind = word_number(&GROUP_NAMES, &group[..letters]);
    if KIND_COUNT as usize <= kind {
        return None;
    }
    let n = word_number(names_of(kind as u8), own);
    if field_count(kind as u8) as usize <= n {
        return None;
    }
    let index = index_in(kind as u8, part(group, letters, group.len()))?;
    Some(FieldName {
        kind: kind as u8,
        index: index as u8,
        field: n as u8,
    })
}

// The field that a name names.
pub fn field_named(name: &[u8]) -> Option<FieldName>
    ensures { result ≡ field_named name.now }
{
    let dot = index_of(name, b'.');
    if dot + 1 == name.len() {
        return None;
    }
    found_in(&name[..dot], part(name, dot + 1, name.len()))
}

// Puts word n of the list with a dot before it; nothing where it has no bytes.
fn put_dotted(room: &mut [u8], at: usize, list: &[u8], n: usize) -> usize
    ensures { Puts room.old room.new at result (dotted (word_at list.now n)) }
{
    let word = word_at(list, n);
    if word.len() == 0 {
        return put_text(room, at, word);
    }
    let place = put_char(room, at, b'.');
    put_text(room, place, word)
}

// Puts the Index of a group; nothing where its kind has none.
fn put_index(room: &mut [u8], at: usize, kind: u8, index: u8) -> usize
    ensures { Puts room.old room.new at result (index_text kind index) }
{
    if kind < FIRST_INDEXED {
        return put_text(room, at, b"");
    }
    put_decimal(room, at, index as u64)
}

// Puts the name of a field; answers the place behind it.
pub fn put_name(room: &mut [u8], at: usize, f: FieldName) -> usize
    ensures { Puts room.old room.new at result (name_of f.kind f.index f.field) }
{
    let kind = put_text(room, at, word_at(&GROUP_NAMES, f.kind as usize));
    let index = put_index(room, kind, f.kind, f.index);
    put_dotted(room, index, names_of(f.kind), f.field as usize)
}
