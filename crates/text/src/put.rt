// Text put into lent room, piece behind piece. What would fall past the end of the room is not written, and the place behind it
// is then the room's end: a text whose end is below the room's is there whole.
ghost use Rattle.std.specs.Prelude.{◌≡◌, [], ◌∷◌, ◌+◌, min};
ghost use Rattle.text.specs.Put.{Puts};

use octets::write::{put_byte, put_bytes};

// The place n behind `at`, at most `size`.
fn place_behind(size: usize, at: usize, n: usize) -> usize
    ensures { result ≡ min size (at + n) }
{
    size.min(at.saturating_add(n))
}

// Puts the text s at `at`; answers the place behind it.
pub fn put_text(room: &mut [u8], at: usize, s: &[u8]) -> usize
    ensures { Puts room.old room.new at result s.now }
{
    put_bytes(room, at, s);
    place_behind(room.len(), at, s.len())
}

// Puts one byte at `at`; answers the place behind it.
pub fn put_char(room: &mut [u8], at: usize, b: u8) -> usize
    ensures { Puts room.old room.new at result (b ∷ []) }
{
    put_byte(room, at, b);
    place_behind(room.len(), at, 1)
}
