// The fields of the text of an aBFT and of an sBFT, as data. A field has a number in its family's list; one description serves
// entering and telling.
ghost use Rattle.std.specs.Prelude.{◌≡◌, ◌≤◌, get_or};
ghost use Rattle.text.specs.Put.{Puts};
ghost use Rattle.family_text.specs.Fields.{field, abft_fields, sbft_fields, field_count, field_of, name_of, field_named};
ghost use Rattle.family_text.specs.declared.fields.Notation.TheVariants.{Oem};

use text::put::put_text;
use text::words::{word_at, word_number};

// The families by number. A line may be of none. The fields here are those of an aBFT and of an sBFT: every number but the
// sBFT's is taken for the aBFT's, since an iBFT has a text of its own (record_text). (Numbers and no enum: the public functions
// take every number, and `family_named` of the specs answers one of these four.)
pub const IBFT: u8 = 0;

pub const ABFT: u8 = 1;

pub const SBFT: u8 = 2;

pub const NONE: u8 = 3;

// How a value is written.
#[derive(Clone, Copy)]
pub enum Notation {
    Oem,
    Number,
    Pairs,
    Address,
}

// A field: its notation, the part of a table in which it stands (0 is the table's start; 1, 2, 3 are the SCSI, SRP and IB
// part), its place there, and how many bytes it has.
#[derive(Clone, Copy)]
pub struct FieldLayout {
    pub notation: Notation,
    pub part: u8,
    pub at: u8,
    pub width: u8,
}

// The IB part, which may be absent.
pub const IB_PART: u8 = 3;

// The names of the fields, in order.
const ABFT_NAMES: [u8; 46] = *b"oem.id oem.table abft.shelf abft.slot abft.mac";

const SBFT_NAMES: [u8; 131] =
    *b"oem.id oem.table sbft.lun sbft.initiator-port sbft.target-port sbft.source-gid sbft.destination-gid sbft.service sbft.partition-key";

// The field of this notation, so many bytes from `at` on in a part.
fn field(notation: Notation, part: u8, at: u8, width: u8) -> FieldLayout
    ensures { result ≡ field notation part at width }
{
    FieldLayout {
        notation,
        part,
        at,
        width,
    }
}

// Field n of an aBFT; past the last, the first. (A match and no array: the value of a constant cannot hold a call, and written
// out each field takes six lines.)
fn abft_field(n: u8) -> FieldLayout
    ensures { result ≡ get_or abft_fields.layout n (field Oem 0 10 6) }
{
    match n {
        0 => field(Notation::Oem, 0, 10, 6),
        1 => field(Notation::Oem, 0, 16, 8),
        2 => field(Notation::Number, 0, 36, 2),
        3 => field(Notation::Number, 0, 38, 1),
        4 => field(Notation::Pairs, 0, 40, 6),
        _ => field(Notation::Oem, 0, 10, 6),
    }
}

// .. of an sBFT.
fn sbft_field(n: u8) -> FieldLayout
    ensures { result ≡ get_or sbft_fields.layout n (field Oem 0 10 6) }
{
    match n {
        0 => field(Notation::Oem, 0, 10, 6),
        1 => field(Notation::Oem, 0, 16, 8),
        2 => field(Notation::Pairs, 1, 0, 8),
        3 => field(Notation::Pairs, 2, 0, 16),
        4 => field(Notation::Pairs, 2, 16, 16),
        5 => field(Notation::Address, 3, 0, 16),
        6 => field(Notation::Address, 3, 16, 16),
        7 => field(Notation::Pairs, 3, 32, 8),
        8 => field(Notation::Number, 3, 40, 2),
        _ => field(Notation::Oem, 0, 10, 6),
    }
}

// Field n of a family; past the last, the first.
pub fn field_at(family: u8, n: u8) -> FieldLayout
    ensures { result ≡ field_of family n }
{
    if family == SBFT {
        return sbft_field(n);
    }
    abft_field(n)
}

// How many fields a family has.
pub fn field_count(family: u8) -> u8
    ensures { (result ≡ field_count family) × (result ≤ 9) }
{
    if family == SBFT {
        return 9;
    }
    5
}

// The number of the field of this name; how many fields there are where none has it.
pub fn field_named(family: u8, name: &[u8]) -> usize
    ensures { result ≡ field_named family name.now }
{
    if family == SBFT {
        return word_number(&SBFT_NAMES, name);
    }
    word_number(&ABFT_NAMES, name)
}

// Puts the name of field n; answers the place behind it.
pub fn put_name(room: &mut [u8], at: usize, family: u8, n: u8) -> usize
    ensures { Puts room.old room.new at result (name_of family n) }
{
    if family == SBFT {
        return put_text(room, at, word_at(&SBFT_NAMES, n as usize));
    }
    put_text(room, at, word_at(&ABFT_NAMES, n as usize))
}
