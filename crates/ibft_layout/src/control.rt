// The Control structure.
ghost use Rattle.ibft_layout.specs.Layout.{control};
ghost use Rattle.ibft_layout.specs.Shapes.{shape_of};
ghost use Rattle.std.specs.Prelude.{◌≡◌};

use crate::shape::{FLAGS_AT, Shape};

// Its flags; the words that say where the other structures start are read one by one.
#[derive(Clone, Copy)]
pub struct Control {
    pub flags: u8,
}

impl Control {
    pub const ID: u8 = 1;

    pub const VERSION: u8 = 1;

    // Its Length without extra words, and with twelve.
    pub const LENGTH: u16 = 18;

    pub const LONGEST: u16 = Self::LENGTH + 2 * Self::MOST_WORDS as u16;

    pub const MOST_WORDS: u8 = 12;
    // The mask of the flag bits that are not named (flag bit 0: single login).
    pub const RESERVED: u8 = 0xFE;
    // The flag bit that asks for single login.
    pub const SINGLE_LOGIN: u8 = 1;
    // Where it starts, where it ends without extra words, where its Length and its flags stand.
    pub const AT: u16 = 48;

    pub const END: u16 = Self::AT + Self::LENGTH;

    pub const LENGTH_AT: u16 = Self::AT + 2;

    pub const FLAGS_AT: u16 = Self::AT + FLAGS_AT as u16;
    // Its words: Extensions, then word by word where a structure starts.
    pub const EXTENSIONS_AT: u16 = 54;

    pub const WORDS_AT: u16 = 56;

    // What the layout knows of the kind.
    pub(crate) const SHAPE: Shape = Shape {
        id: Self::ID,
        version: Self::VERSION,
        length: Self::LENGTH,
        reserved: Self::RESERVED,
        chap: false,
    };

    // The constant as a call, which promises what it is.
    pub(crate) fn shape() -> Shape
        ensures { result ≡ shape_of control }
    {
        Self::SHAPE
    }
}
