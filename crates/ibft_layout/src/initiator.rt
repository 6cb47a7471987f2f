// The initiator structure.
ghost use Rattle.std.specs.Prelude.{◌≡◌};
ghost use Rattle.ibft_layout.specs.Layout.{initiator, kind_field};
ghost use Rattle.ibft_layout.specs.Shapes.{shape_of, field_shape};

use crate::shape::{FLAGS, FieldShape, LONGEST_NAME, Shape, StringShape, words_of};
use crate::string_words::StringWords;

#[derive(Clone, Copy)]
pub struct Initiator {
    pub flags: u8,
    pub isns: [u8; 16],
    pub slp: [u8; 16],
    pub radius: [u8; 16],
    pub second_radius: [u8; 16],
    pub name: StringWords,
}

impl Initiator {
    pub const ID: u8 = 2;

    pub const VERSION: u8 = 1;

    pub const LENGTH: u16 = 74;
    // The mask of the flag bits that are not named (flag bits 0 and 1: valid, selected).
    pub const RESERVED: u8 = 0xFC;

    // Its fields behind the flags.
    pub const ISNS: FieldShape = FieldShape { at: 6, width: 16 };

    pub const SLP: FieldShape = FieldShape { at: 22, width: 16 };

    pub const RADIUS: FieldShape = FieldShape { at: 38, width: 16 };

    pub const SECOND_RADIUS: FieldShape = FieldShape { at: 54, width: 16 };

    // Its strings.
    pub const NAME: StringShape = StringShape {
        at: 70,
        longest: LONGEST_NAME,
        host: false,
        secret: false,
    };

    // What the layout knows of the kind.
    pub(crate) const SHAPE: Shape = Shape {
        id: Self::ID,
        version: Self::VERSION,
        length: Self::LENGTH,
        reserved: Self::RESERVED,
        chap: false,
    };

    // The constant as a call, which promises what it is.
    pub(crate) fn shape() -> Shape
        ensures { result ≡ shape_of initiator }
    {
        Self::SHAPE
    }

    // Field n of an initiator: its flags, then those behind them, then the two words of each string; past the last, its flags.
    #[tactic(auto, unfolding(crate::specs::Layout::kind_field))]
    pub(crate) fn field(n: u8) -> FieldShape
        ensures { result ≡ field_shape (kind_field initiator n) }
    {
        match n {
            1 => Self::ISNS,
            2 => Self::SLP,
            3 => Self::RADIUS,
            4 => Self::SECOND_RADIUS,
            5 => words_of(Self::NAME),
            _ => FLAGS,
        }
    }
}
