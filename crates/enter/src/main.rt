// Enters a record: reads its text on standard input (docs/RECORD-FORMAT.md) and writes the table's bytes to standard output, an
// iBFT, an aBFT or an sBFT by the fields that the text names. A text that cannot be read, or a record that is refused, is
// answered on standard error, and no table is written.
#![tactic(auto)]

ghost use Rattle.std.specs.Prelude.{◌≤◌};

use bench_io::console::{Console, Stream};
use bench_io::write_refusal;
use family_text::enter::IMAGE_SIZE;
use family_text::family::{Stray, family_of, stray_line};
use family_text::fields::{ABFT, IBFT};
use ibft_build::build::build;
use ibft_build_rules::LARGEST_LENGTH;
use ibft_build_rules::range::{LARGEST_SIZE, image_at, nics_given};
use ibft_layout::layout::{
    ENTRY_COUNT, EXTRA_MOST, NAMED_COUNT, NAMED_ENTRIES, first_entry, index_of, kind_of, owner_of,
};
use ibft_layout::nic::Nic;
use ibft_layout::shape::INDEX_AT;
use ibft_layout::target::Target;
use octets::read::{byte_at, part};
use record_text::enter::{Reason, Unread, enter};
use record_text::fields::{
    FieldName, INITIATOR_FLAGS, NIC_FLAGS, Notation, TARGET_FLAGS, field_at, plain_count, put_name,
};
use table_header::write::Written;

// The most bytes that a text may have.
const LONGEST_TEXT: usize = 65536;

// ---- why a value cannot be read

// The largest number that a field of so many bytes holds.
fn say_range(err: &Stream, width: u8) -> std::io::Result<()> {
    let largest = match width {
        1 => u8::MAX as u64,
        2 => u16::MAX as u64,
        _ => u64::MAX,
    };
    println!(err; "the value is not a number from 0 to {largest}")
}

// The flags that a kind has.
fn say_flags(err: &Stream, kind: u8) -> std::io::Result<()> {
    print!(err; "the value is not made of the words: ")?;
    if kind == Nic::ID {
        err.write_all(&NIC_FLAGS)?;
    } else if kind == Target::ID {
        err.write_all(&TARGET_FLAGS)?;
    } else {
        err.write_all(&INITIATOR_FLAGS)?;
    }
    println!(err)
}

fn say_no_string(err: &Stream) -> std::io::Result<()> {
    print!(err; "the value is not a string: a backslash starts \\\\ or \\xHH, ")?;
    println!(err; "bytes below 0x20 are written \\xHH, an empty string \"\"")
}

fn say_no_mac(err: &Stream) -> std::io::Result<()> {
    println!(err; "the value is not a MAC address, as 02:00:5e:10:00:07")
}

// Why the value of the field cannot be read.
fn say_unreadable(err: &Stream, field: FieldName) -> std::io::Result<()> {
    let layout = field_at(field.kind, field.field);
    let notation = layout.notation;
    match notation {
        Notation::Oem => say_no_string(err),
        Notation::Mode => println!(err; "the value is not one of: multi single"),
        Notation::Flags => say_flags(err, field.kind),
        Notation::Number => say_range(err, layout.width),
        Notation::Port => say_range(err, layout.width),
        Notation::Address => println!(err; "the value is not an IP address"),
        Notation::Mac => say_no_mac(err),
        Notation::Pci => println!(err; "the value is not a PCI address, as 00:03.1"),
        Notation::Chap => println!(err; "the value is not one of: none one-way mutual"),
        Notation::Text => say_no_string(err),
    }
}

fn say_too_long(err: &Stream, width: u8) -> std::io::Result<()> {
    println!(err; "the string has more than {width} bytes")
}

fn say_too_many(err: &Stream, kind: u8) -> std::io::Result<()> {
    if kind == Nic::ID {
        return println!(err; "a record has at most six NICs beyond nic0 and nic1");
    }
    println!(err; "a record has at most six targets beyond target0 and target1")
}

fn say_no_such_field(err: &Stream) -> std::io::Result<()> {
    println!(err; "there is no such field")
}

fn say_given_before(err: &Stream) -> std::io::Result<()> {
    println!(err; "this field was given before")
}

fn say_reason(err: &Stream, unread: Unread) -> std::io::Result<()> {
    let field = unread.field;
    match unread.reason {
        Reason::NoSuchField => say_no_such_field(err),
        Reason::GivenBefore => say_given_before(err),
        Reason::Unreadable => say_unreadable(err, field),
        Reason::TooLong => say_too_long(err, field_at(field.kind, field.field).width),
        Reason::NoRoom => println!(err; "the strings together have more than 16384 bytes"),
        Reason::TooMany => say_too_many(err, field.kind),
    }
}

// ---- a line that cannot be read

fn family_name(family: u8) -> &'static str {
    match family {
        0 => "an iBFT",
        1 => "an aBFT",
        _ => "an sBFT",
    }
}

// The line that names a field of another family than the text's, where it is this one.
fn stray_at(text: &[u8], line: usize) -> Option<Stray> {
    stray_line(text).filter(|stray| stray.line == line)
}

fn say_stray(err: &Stream, stray: Stray, family: u8) -> std::io::Result<()> {
    let of = family_name(stray.family);
    let text = family_name(family);
    println!(err;
        "enter: line {}: this field is of {of}, and the text of {text}",
        stray.line
    )
}

fn say_unread(err: &Stream, text: &[u8], unread: Unread) -> std::io::Result<()> {
    if let Some(stray) = stray_at(text, unread.line) {
        return say_stray(err, stray, IBFT);
    }
    print!(err; "enter: line {}: ", unread.line)?;
    say_reason(err, unread)
}

// ---- a record that is refused

// The entry that a build calls `place`: the entries of extra targets follow those of the extra NICs that there are, without a
// gap.
fn entry_at(range: &[u8], place: u32) -> u16 {
    let nics = nics_given(range) as u32;
    if ENTRY_COUNT as u32 <= place {
        return 0;
    }
    if place < NAMED_ENTRIES as u32 + nics {
        return place as u16;
    }
    if EXTRA_MOST as u32 <= nics {
        return place as u16;
    }
    (place + EXTRA_MOST as u32 - nics) as u16
}

// The Index of slot k's structure.
fn index_at(range: &[u8], k: u8) -> u8 {
    if k < NAMED_COUNT {
        return index_of(k);
    }
    byte_at(range, image_at(range, k) as usize + INDEX_AT as usize)
}

// Which string of its structure an entry is, where the structure's first is entry `first`.
fn number_in(entry: u16, first: u16) -> u8
    ensures { result ≤ 4 }
{
    if entry <= first {
        return 0;
    }
    if first as u32 + 4 < entry as u32 {
        return 0;
    }
    (entry - first) as u8
}

// The field that is string `place` of a record.
fn string_field(range: &[u8], place: u32) -> FieldName {
    let entry = entry_at(range, place);
    let slot = owner_of(entry);
    let kind = kind_of(slot).id;
    FieldName {
        kind,
        index: index_at(range, slot),
        field: plain_count(kind) + number_in(entry, first_entry(slot)),
    }
}

// A field's name, and what is wrong with it.
fn say_of(err: &Stream, field: FieldName, wrong: &str) -> std::io::Result<()> {
    let mut room = [0u8; 64];
    let end = put_name(&mut room, 0, field);
    err.write_all(part(&room, 0, end))?;
    println!(err; ": {wrong}")
}

// An OEM field that goes on behind a zero byte.
fn say_oem(err: &Stream, place: u32) -> std::io::Result<()> {
    let field = FieldName {
        kind: 0,
        index: 0,
        field: if place == 10 { 0 } else { 1 },
    };
    say_of(err, field, "a zero byte is followed by another byte")
}

// The words of a refusal of the build. (The record range that `enter` makes has no reserved flag, no CHAP type above 2, no mark
// but 0 and 1, its strings in the strings range, and the room holds every table: 10, 19, 21, 24 and 25 are not met here.)
fn say_words(err: &Stream, range: &[u8], number: u8, place: u32) -> std::io::Result<()> {
    let wrong = match number {
        8 => return say_oem(err, place),
        17 => "a name has at most 223 bytes, any other string 255",
        18 => "this is not a host name",
        20 => "the string has a zero byte",
        _ => return println!(err; "docs/REFUSALS.md says what the number means"),
    };
    say_of(err, string_field(range, place), wrong)
}

// Builds the record's table and writes it.
fn write_table(console: &Console, range: &[u8], strings: &[u8]) -> std::io::Result<()> {
    let mut room = [0u8; LARGEST_LENGTH as usize];
    let built = build(range, strings, &mut room);
    let refusal = built.refusal;
    if refusal.number != 0 {
        write_refusal(&mut std::io::writer(&Stream::Errors), refusal)?;
        return say_words(&Stream::Errors, range, refusal.number, refusal.place);
    }
    console.write_all(part(&room, 0, built.length as usize))
}

fn enter_ibft(console: &Console, text: &[u8]) -> std::io::Result<()> {
    let mut range = [0u8; LARGEST_SIZE as usize];
    let mut strings = [0u8; 16384];
    let entered = enter(text, &mut range, &mut strings);
    if let Err(unread) = entered.read {
        return say_unread(&Stream::Errors, text, unread);
    }
    write_table(
        console,
        part(&range, 0, entered.size),
        part(&strings, 0, entered.used),
    )
}

// ---- an aBFT or an sBFT

// (Six pairs are a MAC address.)
fn say_no_pairs(err: &Stream, width: u8) -> std::io::Result<()> {
    if width == 6 {
        return say_no_mac(err);
    }
    println!(err; "the value is not {width} pairs of hexadecimal digits with colons between")
}

// Why the value of field n of the family cannot be read.
fn say_image_unreadable(err: &Stream, family: u8, n: u8) -> std::io::Result<()> {
    let layout = family_text::fields::field_at(family, n);
    let notation = layout.notation;
    match notation {
        family_text::fields::Notation::Oem => say_no_string(err),
        family_text::fields::Notation::Number => say_range(err, layout.width),
        family_text::fields::Notation::Pairs => say_no_pairs(err, layout.width),
        family_text::fields::Notation::Address => println!(err;
            "the value is not an address, as fe80::2:c903:0:1491"
        ),
    }
}

fn say_image_reason(
    err: &Stream,
    family: u8,
    unread: family_text::enter::Unread,
) -> std::io::Result<()> {
    let n = unread.field;
    match unread.reason {
        family_text::enter::Reason::NoSuchField => say_no_such_field(err),
        family_text::enter::Reason::GivenBefore => say_given_before(err),
        family_text::enter::Reason::Unreadable => say_image_unreadable(err, family, n),
        family_text::enter::Reason::TooLong => {
            say_too_long(err, family_text::fields::field_at(family, n).width)
        }
    }
}

fn say_image_unread(
    err: &Stream,
    family: u8,
    text: &[u8],
    unread: family_text::enter::Unread,
) -> std::io::Result<()> {
    if let Some(stray) = stray_at(text, unread.line) {
        return say_stray(err, stray, family);
    }
    print!(err; "enter: line {}: ", unread.line)?;
    say_image_reason(err, family, unread)
}

fn write_image(family: u8, image: &[u8], room: &mut [u8]) -> Written {
    if family == ABFT {
        return abft::write::write(image, room);
    }
    sbft::write::write(image, room)
}

// Writes the table of the image. (The room holds every table, so an OEM field is all that can be refused.)
fn write_family(console: &Console, family: u8, image: &[u8]) -> std::io::Result<()> {
    let mut room = [0u8; IMAGE_SIZE];
    let written = write_image(family, image, &mut room);
    let refusal = written.refusal;
    if refusal.number != 0 {
        write_refusal(&mut std::io::writer(&Stream::Errors), refusal)?;
        return say_oem(&Stream::Errors, refusal.place);
    }
    console.write_all(part(&room, 0, written.length as usize))
}

fn enter_family(console: &Console, family: u8, text: &[u8]) -> std::io::Result<()> {
    let mut image = [0u8; IMAGE_SIZE];
    if let Err(unread) = family_text::enter::enter(family, text, &mut image) {
        return say_image_unread(&Stream::Errors, family, text, unread);
    }
    write_family(console, family, &image)
}

// One byte more than a text may have is read, which tells a longer one.
fn run(console: &Console) -> std::io::Result<()> {
    let mut input = [0u8; LONGEST_TEXT + 1];
    let n = io::read_full(0, &mut input);
    if LONGEST_TEXT < n {
        return eprintln!(console; "enter: the text has more than {LONGEST_TEXT} bytes");
    }
    let text = part(&input, 0, n);
    let family = family_of(text);
    if family == IBFT {
        return enter_ibft(console, text);
    }
    enter_family(console, family, text)
}

fn main() {
    // (The console gives no error.)
    let _ = run(&Console);
}
