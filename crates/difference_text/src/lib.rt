// A difference between two tables as a line of text, in the words of the record (docs/RECORD-FORMAT.md): what differs, by name,
// and what each table has there. The public call has no `requires`.
#![tactic(auto)]

ghost use Rattle.std.specs.Prelude.{◌≡◌, ◌-◌};
ghost use Rattle.text.specs.Put.{Puts};
ghost use Rattle.difference_text.specs.DifferenceText.{field_number, field_at, hidden_name, bytes_in, with_value, both_values, only_in, shown_text};
ghost use Rattle.difference_text.specs.DifferenceText.{field_line, presence_line, held_line, differs_line, entry_line, difference_text};

use ibft_compare::difference::{Difference, DifferenceReading};
use notation::escape::put_string_text;
use notation::number::put_decimal;
use octets::read::part;
use record_text::fields::{FieldName, field_at, field_count, is_secret, put_name};
use record_text::value_text::put_value;
use text::put::{put_char, put_text};

// No line of two tables has more bytes, since no string of an accepted table has more than 255 (`told-fits`).
pub const LINE_SIZE: usize = 4096;

// The fields of the header, the group of kind 0, and of Control, of kind 1.
const OEM_ID: FieldName = FieldName {
    kind: 0,
    index: 0,
    field: 0,
};

const OEM_TABLE_ID: FieldName = FieldName {
    kind: 0,
    index: 0,
    field: 1,
};

const CONTROL_FLAGS: FieldName = FieldName {
    kind: 1,
    index: 0,
    field: 0,
};

// ---- names

// The number of the field of a kind that stands there; how many it has where none does.
fn field_number(kind: u8, at: u16) -> u8
    ensures { result ≡ field_number kind at }
{
    let count = field_count(kind);
    for n in 0..count {
        if field_at(kind, n).at == at {
            return n;
        }
    }
    count
}

// That field, of the structure of this Index.
fn name_at(id: u8, index: u8, at: u16) -> FieldName
    ensures { result ≡ field_at id index at }
{
    FieldName {
        kind: id,
        index,
        field: field_number(id, at),
    }
}

// Puts the name of a secret that is to be hidden: with a mark before it that makes the line a comment, so that nobody enters
// its words as the secret.
fn put_hidden_name(room: &mut [u8], at: usize, f: FieldName) -> usize
    ensures { Puts room.old room.new at result (hidden_name f) }
{
    let name = put_text(room, at, b"# ");
    put_name(room, name, f)
}

// ---- pieces of a line

// Puts a field's name and its value where it has these bytes.
fn put_with_value(room: &mut [u8], at: usize, f: FieldName, bytes: &[u8]) -> usize
    ensures { Puts room.old room.new at result (with_value f bytes.now) }
{
    let space = put_name(room, at, f);
    let value = put_char(room, space, b' ');
    put_value(room, value, f.kind, f.field, bytes)
}

// .. and the value it has in the other table.
fn put_both_values(room: &mut [u8], at: usize, f: FieldName, left: &[u8], right: &[u8]) -> usize
    ensures { Puts room.old room.new at result (both_values f left.now right.now) }
{
    let bar = put_with_value(room, at, f, left);
    let value = put_text(room, bar, b"\t| ");
    put_value(room, value, f.kind, f.field, right)
}

// Puts the end of a line: which table alone has it.
fn put_only_in(room: &mut [u8], at: usize, right: bool) -> usize
    ensures { Puts room.old room.new at result (only_in right) }
{
    if right {
        return put_text(room, at, b"\tonly in RIGHT\n");
    }
    put_text(room, at, b"\tonly in LEFT\n")
}

// Puts the end of a line: the bytes in which a string differs, from its byte n on.
fn put_shown(room: &mut [u8], at: usize, n: u32, shown: &[u8]) -> usize
    ensures { Puts room.old room.new at result (shown_text n shown.now) }
{
    let number = put_text(room, at, b"\tfrom byte ");
    let colon = put_decimal(room, number, n as u64);
    let bytes = put_text(room, colon, b": ");
    let end = put_string_text(room, bytes, shown);
    put_char(room, end, b'\n')
}

// Puts the line of an entry that one table alone has, there with these bytes; of a secret to hide, without them.
fn put_held_line(
    room: &mut [u8],
    at: usize,
    secret: bool,
    f: FieldName,
    bytes: &[u8],
    right: bool,
) -> usize
    ensures { Puts room.old room.new at result (held_line secret f bytes.now right) }
{
    if secret {
        let end = put_hidden_name(room, at, f);
        return put_only_in(room, end, right);
    }
    let end = put_with_value(room, at, f, bytes);
    put_only_in(room, end, right)
}

// ---- lines

// What a line tells: two tables, and a difference between them as it was read.
#[derive(Clone, Copy)]
struct Line<'a, 'b> {
    left: &'a [u8],
    right: &'b [u8],
    reading: DifferenceReading,
}

impl<'a, 'b> Line<'a, 'b> {
    // What differs, as the left table has it, and as the right one has it.
    fn in_left(&self) -> &'a [u8]
        ensures { result.now ≡ bytes_in self.now.left.now self.now.reading.left }
    {
        let l = self.reading.left;
        part(self.left, l.start as usize, l.length as usize)
    }

    fn in_right(&self) -> &'b [u8]
        ensures { result.now ≡ bytes_in self.now.right.now self.now.reading.right }
    {
        let r = self.reading.right;
        part(self.right, r.start as usize, r.length as usize)
    }

    // The bytes of the left table that are shown.
    fn shown(&self) -> &'a [u8]
        ensures { result.now ≡ bytes_in self.now.left.now self.now.reading.shown }
    {
        let s = self.reading.shown;
        part(self.left, s.start as usize, s.length as usize)
    }

    // Puts the line of a field that both tables have.
    fn put_field(&self, room: &mut [u8], at: usize, f: FieldName) -> usize
        ensures { Puts room.old room.new at result (field_line f self.now.left.now self.now.right.now self.now.reading) }
    {
        let end = put_both_values(room, at, f, self.in_left(), self.in_right());
        put_char(room, end, b'\n')
    }

    // Puts the line of a structure that one table alone has.
    fn put_presence(&self, room: &mut [u8], at: usize, id: u8, index: u8) -> usize
        ensures { Puts room.old room.new at result (presence_line id index self.now.reading) }
    {
        let f = FieldName {
            kind: id,
            index,
            field: field_count(id),
        };
        let end = put_name(room, at, f);
        put_only_in(room, end, self.reading.left.start == 0)
    }

    // Puts the line of an entry that both tables have.
    fn put_differs(&self, room: &mut [u8], at: usize, secret: bool, f: FieldName) -> usize
        ensures { Puts room.old room.new at result
            (differs_line secret f self.now.left.now self.now.right.now self.now.reading) }
    {
        if secret {
            let words = put_hidden_name(room, at, f);
            return put_text(room, words, b"\tdiffers, hidden\n");
        }
        let l = self.reading.left;
        let s = self.reading.shown;
        let n = s.start.saturating_sub(l.start);
        let end = put_both_values(room, at, f, self.in_left(), self.in_right());
        put_shown(room, end, n, self.shown())
    }

    // Puts the line of an entry.
    fn put_entry(&self, room: &mut [u8], at: usize, secret: bool, f: FieldName) -> usize
        ensures { Puts room.old room.new at result
            (entry_line secret f self.now.left.now self.now.right.now self.now.reading) }
    {
        if self.reading.right.start == 0 {
            return put_held_line(room, at, secret, f, self.in_left(), false);
        }
        if self.reading.left.start == 0 {
            return put_held_line(room, at, secret, f, self.in_right(), true);
        }
        self.put_differs(room, at, secret, f)
    }
}

// Puts the line of a difference between the two tables at `at`; answers the place behind it. Where secrets are to be hidden,
// all that is put of one is that it differs, or which table alone has it.
pub fn put_difference(
    room: &mut [u8],
    at: usize,
    left: &[u8],
    right: &[u8],
    reading: DifferenceReading,
    hide: bool,
) -> usize
    ensures { Puts room.old room.new at result (difference_text hide left.now right.now reading) }
{
    let line = Line {
        left,
        right,
        reading,
    };
    match reading.difference {
        Difference::Nothing => put_text(room, at, b""),
        Difference::OemId => line.put_field(room, at, OEM_ID),
        Difference::OemTableId => line.put_field(room, at, OEM_TABLE_ID),
        Difference::ControlFlags => line.put_field(room, at, CONTROL_FLAGS),
        Difference::Presence(id, index) => line.put_presence(room, at, id, index),
        Difference::Field(id, index, place) => line.put_field(room, at, name_at(id, index, place)),
        Difference::Entry(id, index, place) => {
            let f = name_at(id, index, place);
            let secret = hide & is_secret(f.kind, f.field);
            line.put_entry(room, at, secret, f)
        }
    }
}
