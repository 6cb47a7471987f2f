// The two words that a structure holds for one of its strings.
ghost use Rattle.std.specs.Prelude.{◌≡◌};
ghost use Rattle.ibft_layout.specs.Shapes.{string_words_at};

use octets::read::{byte_at, u16_at};

// An entry's length and offset, as its structure holds them.
#[derive(Clone, Copy)]
pub struct StringWords {
    pub length: u16,
    pub offset: u16,
}

impl StringWords {
    // The words that stand at `at`. (In a table that is accepted all four bytes are there, and one test says so; word by word
    // each byte would take a test of its own, and the check of a common table a tenth longer.)
    pub fn read(part: &[u8], at: u32) -> StringWords
        ensures { result ≡ string_words_at part.now at }
    {
        let at = at as usize;
        if at + 3 < part.len() {
            return StringWords {
                length: byte_at(part, at) as u16 + 256 * byte_at(part, at + 1) as u16,
                offset: byte_at(part, at + 2) as u16 + 256 * byte_at(part, at + 3) as u16,
            };
        }
        StringWords {
            length: u16_at(part, at),
            offset: u16_at(part, at + 2),
        }
    }
}
