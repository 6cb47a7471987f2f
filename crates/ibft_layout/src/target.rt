// The target structure.
ghost use Rattle.std.specs.Prelude.{◌≡◌};
ghost use Rattle.ibft_layout.specs.Layout.{target, kind_field};
ghost use Rattle.ibft_layout.specs.Shapes.{shape_of, field_shape};

use crate::shape::{FLAGS, FieldShape, LONGEST, LONGEST_NAME, Shape, StringShape, words_of};
use crate::string_words::StringWords;

#[derive(Clone, Copy)]
pub struct Target {
    pub flags: u8,
    pub address: [u8; 16],
    pub socket: u16,
    pub lun: u64,
    pub chap_type: u8,
    pub nic: u8,
    pub name: StringWords,
    pub chap_name: StringWords,
    pub chap_secret: StringWords,
    pub reverse_name: StringWords,
    pub reverse_secret: StringWords,
}

impl Target {
    pub const ID: u8 = 4;

    pub const VERSION: u8 = 1;

    pub const LENGTH: u16 = 54;
    // The mask of the flag bits that are not named (flag bits 0 to 3: valid, selected, Radius CHAP, Radius rCHAP).
    pub const RESERVED: u8 = 0xF0;

    // Its fields behind the flags.
    pub const ADDRESS: FieldShape = FieldShape { at: 6, width: 16 };

    pub const SOCKET: FieldShape = FieldShape { at: 22, width: 2 };

    pub const LUN: FieldShape = FieldShape { at: 24, width: 8 };

    pub const CHAP_TYPE: FieldShape = FieldShape { at: 32, width: 1 };

    pub const NIC: FieldShape = FieldShape { at: 33, width: 1 };

    // Its strings.
    pub const NAME: StringShape = StringShape {
        at: 34,
        longest: LONGEST_NAME,
        host: false,
        secret: false,
    };

    pub const CHAP_NAME: StringShape = StringShape {
        at: 38,
        longest: LONGEST,
        host: false,
        secret: false,
    };

    pub const CHAP_SECRET: StringShape = StringShape {
        at: 42,
        longest: LONGEST,
        host: false,
        secret: true,
    };

    pub const REVERSE_NAME: StringShape = StringShape {
        at: 46,
        longest: LONGEST,
        host: false,
        secret: false,
    };

    pub const REVERSE_SECRET: StringShape = StringShape {
        at: 50,
        longest: LONGEST,
        host: false,
        secret: true,
    };

    pub const STRINGS: u16 = 5;

    // The flag bits that the login order looks at.
    pub const VALID: u8 = 1;

    pub const SELECTED: u8 = 2;

    // What the layout knows of the kind.
    pub const SHAPE: Shape = Shape {
        id: Self::ID,
        version: Self::VERSION,
        length: Self::LENGTH,
        reserved: Self::RESERVED,
        chap: true,
    };

    // The constant as a call, which promises what it is.
    pub fn shape() -> Shape
        ensures { result ≡ shape_of target }
    {
        Self::SHAPE
    }

    // Field n of a target: its flags, then those behind them, then the two words of each string; past the last, its flags.
    #[tactic(auto, unfolding(crate::specs::Layout::kind_field))]
    pub(crate) fn field(n: u8) -> FieldShape
        ensures { result ≡ field_shape (kind_field target n) }
    {
        match n {
            1 => Self::ADDRESS,
            2 => Self::SOCKET,
            3 => Self::LUN,
            4 => Self::CHAP_TYPE,
            5 => Self::NIC,
            6 => words_of(Self::NAME),
            7 => words_of(Self::CHAP_NAME),
            8 => words_of(Self::CHAP_SECRET),
            9 => words_of(Self::REVERSE_NAME),
            10 => words_of(Self::REVERSE_SECRET),
            _ => FLAGS,
        }
    }
}
