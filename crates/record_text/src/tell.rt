// What a table holds, as text: its record, group by group and in each field by field, put into room.
ghost use Rattle.std.specs.Prelude.{◌≡◌, ◌+◌, ◌≤◌, ◌<◌, length, Some};
ghost use Rattle.text.specs.Put.{Puts};
ghost use Rattle.ibft_layout.specs.Layout.{kind_of, slot_count};
ghost use Rattle.ibft_table.specs.Table.{starts_of};
ghost use Rattle.ibft_table.specs.Record.{record_of};
ghost use Rattle.record_text.specs.Fields.{field_count, plain_count};
ghost use Rattle.record_text.specs.Enter.{group_count};
ghost use Rattle.record_text.specs.Tell.{kind_number, index_held, record_field, is_told, hidden_line, line_of, group_text, record_text, table_text};

use crate::fields::{
    FIRST_STRUCTURE, FieldName, field_at, field_count, is_always, is_secret, is_text, plain_count,
    put_name,
};
use crate::value_text::put_value;
use ibft_layout::control::Control;
use ibft_layout::layout::{SLOT_COUNT, first_entry, kind_of};
use ibft_table::check::check;
use ibft_table::seats::starts_of;
use ibft_table::starts::{holds_entry, index_in, start_in, string_words_at};
use octets::read::{all_zero, byte_at, part, u16_at};
use table_header::header::{OEM_ID_AT, OEM_TABLE_ID_AT};
use text::put::{put_char, put_text};

// The groups: the header, Control, then the structures by slot.
const GROUP_COUNT: u8 = FIRST_STRUCTURE + SLOT_COUNT;

// ---- a line

// Whether a field of a kind is told where it has these bytes.
fn is_told(kind: u8, n: u8, bytes: &[u8]) -> bool
    ensures { result ≡ is_told kind n bytes.now }
{
    let field = field_at(kind, n);
    let notation = field.notation;
    if is_text(notation) {
        return true;
    }
    if is_always(notation) {
        return true;
    }
    !all_zero(bytes)
}

// Puts the line that stands in place of a secret's: a comment, which says that there is one.
fn put_hidden(room: &mut [u8], at: usize, f: FieldName) -> usize
    ensures { Puts room.old room.new at result (hidden_line f.kind f.index f.field) }
{
    let mark = put_text(room, at, b"# ");
    let name = put_name(room, mark, f);
    put_text(room, name, b" is hidden\n")
}

// Puts the line of a field that has these bytes; nothing where it is not told.
fn put_line(room: &mut [u8], at: usize, hide: bool, f: FieldName, bytes: &[u8]) -> usize
    ensures { Puts room.old room.new at result (line_of hide f.kind f.index f.field (Some bytes.now)) }
{
    if hide & is_secret(f.kind, f.field) {
        return put_hidden(room, at, f);
    }
    if !is_told(f.kind, f.field, bytes) {
        return put_text(room, at, b"");
    }
    let name = put_name(room, at, f);
    let space = put_char(room, name, b' ');
    let value = put_value(room, space, f.kind, f.field, bytes);
    put_char(room, value, b'\n')
}

// The kind of group g: the header, Control, then the structures by slot.
fn kind_number(g: u8) -> u8
    ensures { result ≡ kind_number g }
{
    if g < FIRST_STRUCTURE {
        return g;
    }
    kind_of(g - FIRST_STRUCTURE).id
}

// ---- the fields of a table

// A table as it is told: its bytes, its starts by slot, and whether its secrets are hidden.
#[derive(Drop)]
struct Told<'a> {
    t: &'a [u8],
    starts: [u16; SLOT_COUNT as usize],
    hide: bool,
    ghost are_its: { starts ≡ starts_of t.now },
}

impl Told<'_> {
    // Puts the line of an OEM field.
    fn put_oem_line(&self, room: &mut [u8], at: usize, f: FieldName) -> usize
        ensures { Puts room.old room.new at result
            (line_of self.now.hide f.kind f.index f.field (record_field (record_of self.now.t.now) 0 f.field)) }
    {
        if f.field == 1 {
            return put_line(
                room,
                at,
                self.hide,
                f,
                part(self.t, OEM_TABLE_ID_AT as usize, 8),
            );
        }
        put_line(room, at, self.hide, f, part(self.t, OEM_ID_AT as usize, 6))
    }

    // Puts the line of Control's flags.
    fn put_mode_line(&self, room: &mut [u8], at: usize, f: FieldName) -> usize
        ensures { Puts room.old room.new at result
            (line_of self.now.hide f.kind f.index f.field (record_field (record_of self.now.t.now) 1 f.field)) }
    {
        let flags = [byte_at(self.t, Control::FLAGS_AT as usize)];
        put_line(room, at, self.hide, f, &flags)
    }

    // Puts the line of a string of slot k's structure; nothing where the string is missing.
    fn put_string_line(&self, room: &mut [u8], at: usize, k: u8, f: FieldName) -> usize
        requires { (k < slot_count) × (f.kind ≡ (kind_of k).id) × (plain_count f.kind ≤ f.field) × (f.field < field_count f.kind) }
        ensures { Puts room.old room.new at result
            (line_of self.now.hide f.kind f.index f.field (record_field (record_of self.now.t.now) (2 + k) f.field)) }
    {
        let entry = first_entry(k) + (f.field - plain_count(f.kind)) as u16;
        if !holds_entry(&self.starts, self.t, entry) {
            return put_text(room, at, b"");
        }
        let words = string_words_at(&self.starts, entry) as usize;
        let size = u16_at(self.t, words) as usize;
        let offset = u16_at(self.t, words + 2) as usize;
        put_line(room, at, self.hide, f, part(self.t, offset, size))
    }

    // Puts the line of another field of slot k's structure; nothing where the structure is absent.
    fn put_plain_line(&self, room: &mut [u8], at: usize, k: u8, f: FieldName) -> usize
        requires { (k < slot_count) × (f.kind ≡ (kind_of k).id) × (f.field < plain_count f.kind) }
        ensures { Puts room.old room.new at result
            (line_of self.now.hide f.kind f.index f.field (record_field (record_of self.now.t.now) (2 + k) f.field)) }
    {
        let start = start_in(&self.starts, k as u16) as usize;
        if start == 0 {
            return put_text(room, at, b"");
        }
        let field = field_at(f.kind, f.field);
        let place = start + field.at as usize;
        put_line(
            room,
            at,
            self.hide,
            f,
            part(self.t, place, field.width as usize),
        )
    }

    // Puts the line of field f of group g.
    fn put_field(&self, room: &mut [u8], at: usize, g: u8, f: FieldName) -> usize
        requires { (g < group_count) × (f.kind ≡ kind_number g) × (f.field < field_count f.kind) }
        ensures { Puts room.old room.new at result
            (line_of self.now.hide f.kind f.index f.field (record_field (record_of self.now.t.now) g f.field)) }
    {
        if g == 0 {
            return self.put_oem_line(room, at, f);
        }
        if g == 1 {
            return self.put_mode_line(room, at, f);
        }
        if f.field < plain_count(f.kind) {
            return self.put_plain_line(room, at, g - FIRST_STRUCTURE, f);
        }
        self.put_string_line(room, at, g - FIRST_STRUCTURE, f)
    }

    // The Index of group g.
    fn index_held(&self, g: u8) -> u8
        requires { g < group_count }
        ensures { result ≡ index_held (record_of self.now.t.now) g }
    {
        if g < FIRST_STRUCTURE {
            return 0;
        }
        index_in(&self.starts, self.t, (g - FIRST_STRUCTURE) as u16)
    }

    // Puts the lines of group g.
    fn put_group(&self, room: &mut [u8], at: usize, g: u8) -> usize
        requires { (g < group_count) × (at ≤ length room.old) }
        ensures { Puts room.old room.new at result (group_text self.now.hide (record_of self.now.t.now) g) }
    {
        let kind = kind_number(g);
        let index = self.index_held(g);
        let count = field_count(kind);
        let mut end = at;
        for field in 0..count {
            let f = FieldName { kind, index, field };
            end = self.put_field(room, end, g, f);
        }
        end
    }

    // Puts the lines of all groups.
    fn put_record(&self, room: &mut [u8]) -> usize
        ensures { Puts room.old room.new 0 result (record_text self.now.hide (record_of self.now.t.now)) }
    {
        let mut end = 0;
        for g in 0..GROUP_COUNT {
            end = self.put_group(room, end, g);
        }
        end
    }
}

// Puts the text of a table into room, as far as it fits, and answers the place behind it; nothing where the check refuses the
// table. Where secrets are to be hidden a comment stands in place of each.
pub fn tell(room: &mut [u8], t: &[u8], hide: bool) -> usize
    ensures { Puts room.old room.new 0 result (table_text hide t.now) }
{
    match check(t) {
        Ok(()) => {
            let told = Told {
                t,
                starts: starts_of(t),
                hide,
            };
            told.put_record(room)
        }
        Err(_) => put_text(room, 0, b""),
    }
}
