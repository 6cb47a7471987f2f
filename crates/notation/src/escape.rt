// Strings as text: any byte can be written, visible ones and spaces inside as they are, the others behind a backslash.
ghost use Rattle.std.specs.Prelude.{◌≡◌, List, ℕ, ◌+◌, ◌<◌, length, drop, Some, option_map};
ghost use Rattle.octets.specs.Counting.{gather};
ghost use Rattle.text.specs.Put.{Puts};
ghost use Rattle.notation.specs.Escape.{bare, first_shown, shown, is_quotes, bytes_of, escaped, numbered, string_of, content_of};
ghost use Rattle.notation.specs.Escape.{byte_text, text_at, string_text};
ghost use Rattle.notation.specs.EscapeWalk.{Begins};

use crate::number::{put_hex_byte, read_hex_byte};
use octets::read::byte_at;
use text::put::{put_char, put_text};

// A piece of a text: how many bytes it takes and the byte that it stands for.
#[derive(Clone, Copy)]
struct Piece {
    size: usize,
    byte: u8,
}

// May the byte stand for itself in a text that is read?
fn is_bare(b: u8) -> bool
    ensures { result ≡ bare b }
{
    (0x20 <= b) & (b != 0x7F)
}

// The first character that is written as itself: the space only inside a string, since blanks at its ends are trimmed.
fn first_shown(inner: bool) -> u8
    ensures { result ≡ first_shown inner }
{
    if inner {
        return 0x20;
    }
    0x21
}

// Is the byte written as itself?
fn is_shown(inner: bool, b: u8) -> bool
    ensures { result ≡ shown inner b }
{
    (first_shown(inner) <= b) & (b <= 0x7E) & (b != b'\\') & (b != b'"')
}

// Is the text two quotes, which stand for the empty string?
fn is_quotes(text: &[u8]) -> bool
    ensures { result ≡ is_quotes text.now }
{
    matches!(text, [b'"', b'"'])
}

// The piece whose `\x` stands at i.
fn number_at(text: &[u8], i: usize) -> Option<Piece>
    requires { i < length text.now }
    ensures { Begins text.now (numbered (drop (i + 2) text.now)) i result }
{
    let v = read_hex_byte(text, i + 2)?;
    Some(Piece {
        size: 4,
        byte: v as u8,
    })
}

// The piece whose backslash stands at i. (Past the end of the text its bytes read as 0, which is part of no piece.)
fn escape_at(text: &[u8], i: usize) -> Option<Piece>
    requires { i < length text.now }
    ensures { Begins text.now (escaped (drop (i + 1) text.now)) i result }
{
    match byte_at(text, i + 1) {
        b'\\' => Some(Piece {
            size: 2,
            byte: b'\\',
        }),
        b'x' => number_at(text, i),
        _ => None,
    }
}

// The piece that begins at i.
fn piece_at(text: &[u8], i: usize) -> Option<Piece>
    requires { i < length text.now }
    ensures { Begins text.now (bytes_of (drop i text.now)) i result }
{
    let b = text[i];
    if b == b'\\' {
        return escape_at(text, i);
    }
    if !is_bare(b) {
        return None;
    }
    Some(Piece { size: 1, byte: b })
}

// The number of bytes that a text stands for.
pub fn string_length(text: &[u8]) -> Option<usize>
    ensures { result ≡ option_map length (string_of text.now) }
{
    if text.len() == 0 {
        return None;
    }
    if is_quotes(text) {
        return Some(0);
    }
    let mut n: usize = 0;
    let mut i: usize = 0;
    // (A while: the step is the size of a piece.)
    while i < text.len() {
        let piece = piece_at(text, i)?;
        i += piece.size;
        n += 1;
    }
    Some(n)
}

// Puts the bytes of a text that is pieces from its beginning to its end.
fn put_pieces(room: &mut [u8], at: usize, text: &[u8]) -> usize
    ensures { (s : List ℕ) → bytes_of text.now ≡ Some s → Puts room.old room.new at result s }
{
    let mut place = put_text(room, at, b"");
    let mut i: usize = 0;
    // (A while: the step is the size of a piece.)
    while i < text.len() {
        let Some(piece) = piece_at(text, i) else {
            return place;
        };
        place = put_char(room, place, piece.byte);
        i += piece.size;
    }
    place
}

// Puts the bytes that a text stands for; none where it stands for no string. Answers the place behind them.
pub fn put_string(room: &mut [u8], at: usize, text: &[u8]) -> usize
    ensures { Puts room.old room.new at result (content_of (string_of text.now)) }
{
    if string_length(text).unwrap_or(0) == 0 {
        return put_text(room, at, b"");
    }
    put_pieces(room, at, text)
}

// Puts a byte as it is written inside a string, or as its first or last.
fn put_byte_text(room: &mut [u8], at: usize, inner: bool, b: u8) -> usize
    ensures { Puts room.old room.new at result (byte_text inner b) }
{
    if is_shown(inner, b) {
        return put_char(room, at, b);
    }
    let number = put_text(room, at, b"\\x");
    put_hex_byte(room, number, b)
}

// Puts the bytes of s one after another as they are written in a string.
fn put_bytes_text(room: &mut [u8], at: usize, s: &[u8]) -> usize
    ensures { Puts room.old room.new at result (gather (text_at s.now) 0 (length s.now)) }
{
    let mut place = put_text(room, at, b"");
    for (i, b) in s.iter().enumerate() {
        let inner = (0 < i) & (i + 1 < s.len());
        place = put_byte_text(room, place, inner, *b);
    }
    place
}

// Puts the text of the string s; answers the place behind it.
pub fn put_string_text(room: &mut [u8], at: usize, s: &[u8]) -> usize
    ensures { Puts room.old room.new at result (string_text s.now) }
{
    if s.len() == 0 {
        return put_text(room, at, b"\"\"");
    }
    put_bytes_text(room, at, s)
}
