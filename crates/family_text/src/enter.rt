// The text of an aBFT or an sBFT read line by line into an image of the table, as the write of its family takes it.
ghost use Rattle.std.specs.Prelude.{◌≡◌, ◌≤◌};
ghost use Rattle.octets.specs.Octets.{write};
ghost use Rattle.text.specs.Split.{pieces};
ghost use Rattle.notation.specs.Escape.{string_of};
ghost use Rattle.family_text.specs.Fields.{field_of};
ghost use Rattle.family_text.specs.Value.{field_bytes};
ghost use Rattle.family_text.specs.Enter.{place_written, place_of, present, is_oem, number_of, reason_of, value_step, field_step, line_step, lines_from, Enters};
ghost use Rattle.family_text.specs.Entering.{draft_with, IsStep, outcome_with};

use crate::family::says_nothing;
use crate::fields::{IB_PART, Notation, field_at, field_count, field_named};
use crate::value::read_value;
use notation::escape::string_length;
use octets::read::{byte_at, part};
use octets::write::{put_byte, put_bytes, put_u16, put_zeros};
use sbft::layout::{Part, part_of};
use text::split::{field_text, trimmed, value_of};

// Why a line cannot be read.
#[derive(Clone, Copy)]
pub enum Reason {
    // It names no field of the family.
    NoSuchField,
    // It names one that a line above gives.
    GivenBefore,
    // Its value is not of the field's notation.
    Unreadable,
    // Its value has more bytes than an OEM field.
    TooLong,
}

// How many bytes of an image are a table's.
pub const IMAGE_SIZE: usize = 136;

// A mark for each field that was given.
const MARK_COUNT: usize = 16;

// The first line of a text that cannot be read: why, which it is, counted from 1, and the number of the field that it names.
#[derive(Clone, Copy)]
pub struct Unread {
    pub reason: Reason,
    pub line: usize,
    pub field: u8,
}

// What a text was read as.
pub type Entered = Result<(), Unread>;

// A line that cannot be read: why, and the number of the field that it names.
#[derive(Clone, Copy)]
struct LineUnread {
    reason: Reason,
    field: u8,
}

// ---- the image

// Where a written table has a part.
fn place_written(part: u8) -> u16
    ensures { (result ≡ place_written part) × (result ≤ 88) }
{
    if part == 0 {
        return 0;
    }
    part_of(part - 1).place
}

// Where field n stands.
fn place_of(family: u8, n: u8) -> usize
    ensures { result ≡ place_of family n }
{
    let field = field_at(family, n);
    place_written(field.part) as usize + field.at as usize
}

// Makes a part present.
fn put_present(image: &mut [u8], part: u8)
    ensures { image.new ≡ present image.old part }
{
    if part != IB_PART {
        return;
    }
    let ib = part_of(Part::IB);
    put_u16(image, ib.word as usize, ib.place);
}

// Puts a value's bytes where field n stands.
fn put_field(image: &mut [u8], family: u8, n: u8, bytes: &[u8])
    ensures { image.new ≡ write (present image.old (field_of family n).part) (place_of family n) bytes.now }
{
    let place = place_of(family, n);
    put_present(image, field_at(family, n).part);
    put_bytes(image, place, bytes);
}

// ---- a line

// Is it the notation of an OEM field?
#[tactic(auto, unfolding(crate::specs::Enter::is_oem))]
pub(crate) fn is_oem(notation: Notation) -> bool
    ensures { result ≡ is_oem notation }
{
    matches!(notation, Notation::Oem)
}

// Why a value that has no bytes cannot be read.
fn reason_of(oem: bool, text: &[u8]) -> Reason
    ensures { number_of result ≡ reason_of oem (string_of text.now) }
{
    if oem & string_length(text).is_some() {
        return Reason::TooLong;
    }
    Reason::Unreadable
}

// Field n is given its value.
fn value_step(
    image: &mut [u8],
    given: &mut [u8],
    family: u8,
    n: u8,
    text: &[u8],
) -> Result<(), LineUnread>
    ensures { IsStep result image.new given.new
        (value_step family (draft_with image.old given.old) n text.now
        (field_bytes family n text.now)) }
{
    let field = field_at(family, n);
    let Some(bytes) = read_value(family, n, text) else {
        let reason = reason_of(is_oem(field.notation), text);
        return Err(LineUnread { reason, field: n });
    };
    put_field(image, family, n, part(&bytes, 0, field.width as usize));
    put_byte(given, n as usize, 1);
    Ok(())
}

// Field n, where there is one, is given its value, unless it has one.
fn field_step(
    image: &mut [u8],
    given: &mut [u8],
    family: u8,
    n: usize,
    text: &[u8],
) -> Result<(), LineUnread>
    ensures { IsStep result image.new given.new
        (field_step family (draft_with image.old given.old) n text.now) }
{
    if field_count(family) as usize <= n {
        return Err(LineUnread {
            reason: Reason::NoSuchField,
            field: 0,
        });
    }
    if byte_at(given, n) == 1 {
        return Err(LineUnread {
            reason: Reason::GivenBefore,
            field: n as u8,
        });
    }
    value_step(image, given, family, n as u8, text)
}

// Reads a line.
fn line_step(image: &mut [u8], given: &mut [u8], family: u8, line: &[u8]) -> Result<(), LineUnread>
    ensures { IsStep result image.new given.new
        (line_step family (draft_with image.old given.old) line.now) }
{
    let said = trimmed(line);
    if says_nothing(said) {
        return Ok(());
    }
    let n = field_named(family, field_text(said));
    field_step(image, given, family, n, value_of(said))
}

// ---- the lines

// Reads the lines one after another, up to the first that cannot be read. (There is at most one line more than there are
// bytes.)
fn enter_lines(family: u8, text: &[u8], image: &mut [u8], given: &mut [u8]) -> Entered
    ensures { outcome_with result image.new given.new
        ≡ lines_from family (draft_with image.old given.old) 1 (pieces 10 text.now) }
{
    let mut line: usize = 1;
    for said in text.split(|b| *b == b'\n') {
        match line_step(image, given, family, said) {
            Ok(()) => {}
            Err(unread) => {
                return Err(Unread {
                    reason: unread.reason,
                    line,
                    field: unread.field,
                });
            }
        }
        line += 1;
    }
    Ok(())
}

// Reads the text of a table of this family: the image then has its fields at their own places, and zeros elsewhere. Where a
// line cannot be read, it has what the lines above it give. What would fall past the image is not written; 136 bytes are
// enough.
pub fn enter(family: u8, text: &[u8], image: &mut [u8]) -> Entered
    ensures { Enters family text.now image.old image.new result }
{
    put_zeros(image, 0, IMAGE_SIZE);
    let mut given = [0u8; MARK_COUNT];
    enter_lines(family, text, image, &mut given)
}
