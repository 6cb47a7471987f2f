// What an aBFT or an sBFT holds, as text: its fields one after another, put into room.
ghost use Rattle.std.specs.Prelude.{◌≡◌};
ghost use Rattle.octets.specs.Octets.{part};
ghost use Rattle.text.specs.Put.{Puts};
ghost use Rattle.family_text.specs.Tell.{start_in, is_there, bytes_in, is_told, line_of, lines_text, verdict_of, table_text};

use crate::enter::is_oem;
use crate::fields::{FieldLayout, SBFT, field_at, field_count, put_name};
use crate::value_text::put_value;
use octets::read::{all_zero, part};
use sbft::layout::{absent, offset_of};
use table_header::verdict::Verdict;
use text::put::{put_char, put_text};

// ---- where the fields of a table stand

// Where a part starts, as the table says.
fn start_in(t: &[u8], part: u8) -> u16
    ensures { result ≡ start_in t.now part }
{
    if part == 0 {
        return 0;
    }
    offset_of(t, part - 1)
}

// Is a part there?
fn is_there(t: &[u8], part: u8) -> bool
    ensures { result ≡ is_there t.now part }
{
    if part == 0 {
        return true;
    }
    !absent(t, part - 1)
}

// The bytes of a field.
fn bytes_in(t: &[u8], field: FieldLayout) -> &[u8]
    ensures { result.now ≡ bytes_in t.now field }
{
    let place = start_in(t, field.part) as usize + field.at as usize;
    part(t, place, field.width as usize)
}

// ---- a line

// Is a field told?
fn is_told(t: &[u8], field: FieldLayout) -> bool
    ensures { result ≡ is_told t.now field }
{
    if is_oem(field.notation) {
        return !all_zero(bytes_in(t, field));
    }
    is_there(t, field.part)
}

// Puts the line of field n; nothing where it is not told.
fn put_line(room: &mut [u8], at: usize, family: u8, t: &[u8], n: u8) -> usize
    ensures { Puts room.old room.new at result (line_of family t.now n) }
{
    let field = field_at(family, n);
    if !is_told(t, field) {
        return put_text(room, at, b"");
    }
    let name = put_name(room, at, family, n);
    let space = put_char(room, name, b' ');
    let value = put_value(room, space, field.notation, field.width, bytes_in(t, field));
    put_char(room, value, b'\n')
}

// ---- the text

// Puts the lines of all fields.
fn put_lines(room: &mut [u8], family: u8, t: &[u8]) -> usize
    ensures { Puts room.old room.new 0 result (lines_text family t.now) }
{
    let mut end: usize = 0;
    for n in 0..field_count(family) {
        end = put_line(room, end, family, t, n);
    }
    end
}

// The verdict of the family's check.
fn check_of(family: u8, t: &[u8]) -> Verdict
    ensures { result ≡ verdict_of family t.now }
{
    if family == SBFT {
        return sbft::check::check(t);
    }
    abft::check::check(t)
}

// Puts the text of a table into room, as far as it fits, and answers the place behind it; nothing where the family's check
// refuses the table.
pub fn tell(room: &mut [u8], family: u8, t: &[u8]) -> usize
    ensures { Puts room.old room.new 0 result (table_text family t.now) }
{
    match check_of(family, t) {
        Ok(()) => put_lines(room, family, t),
        Err(_) => put_text(room, 0, b""),
    }
}
