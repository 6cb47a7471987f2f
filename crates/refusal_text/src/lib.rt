// A refusal as a line of text, as the bench programs print it: `refused 12 60`. With 6 the checksum byte that would be right
// stands last: `refused 6 9 211`. Where one of two tables is refused its side stands behind all of these: `refused 6 9 211 1`.
#![tactic(auto)]

ghost use Rattle.text.specs.Put.{Puts};
ghost use Rattle.refusal_text.specs.RefusalText.{next_number, checksum_text, refusal_words, refusal_text, side_refusal_text};

use notation::number::put_decimal;
use table_header::verdict::Refusal;
use text::put::{put_char, put_text};

// How many bytes the longest line has (`line-fits`).
pub const LINE_SIZE: usize = 25;

// .. with a side (`side-line-fits`).
pub const SIDE_LINE_SIZE: usize = 29;

// Puts a space and the number n at `at`; answers the place behind them.
fn put_next(room: &mut [u8], at: usize, n: u64) -> usize
    ensures { Puts room.old room.new at result (next_number n) }
{
    let digits = put_char(room, at, b' ');
    put_decimal(room, digits, n)
}

// Puts the checksum byte at `at`, with 6, and nothing with any other number; answers the place behind it.
fn put_checksum_byte(room: &mut [u8], at: usize, refusal: Refusal) -> usize
    ensures { Puts room.old room.new at result (checksum_text refusal) }
{
    if refusal.number != 6 {
        return put_text(room, at, b"");
    }
    put_next(room, at, refusal.checksum as u64)
}

// Puts the word and the numbers of the refusal at `at`; answers the place behind them.
fn put_words(room: &mut [u8], at: usize, refusal: Refusal) -> usize
    ensures { Puts room.old room.new at result (refusal_words refusal) }
{
    let number_at = put_text(room, at, b"refused");
    let place_at = put_next(room, number_at, refusal.number as u64);
    let checksum_at = put_next(room, place_at, refusal.place as u64);
    put_checksum_byte(room, checksum_at, refusal)
}

// Puts the line of the refusal at `at`; answers the place behind it.
pub fn put_refusal(room: &mut [u8], at: usize, refusal: Refusal) -> usize
    ensures { Puts room.old room.new at result (refusal_text refusal) }
{
    let end = put_words(room, at, refusal);
    put_char(room, end, b'\n')
}

// Puts the line of a refusal of one of two tables at `at`, with the side that the table stands on; answers the place behind it.
pub fn put_side_refusal(room: &mut [u8], at: usize, refusal: Refusal, side: u8) -> usize
    ensures { Puts room.old room.new at result (side_refusal_text refusal side) }
{
    let side_at = put_words(room, at, refusal);
    let end = put_next(room, side_at, side as u64);
    put_char(room, end, b'\n')
}
